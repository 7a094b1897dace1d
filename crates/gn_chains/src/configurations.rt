// The configurations that come along dependencies, merged from what the records of dependencies hand on.

ghost use Rattle.std.specs.Prelude.{◌≡◌, OnOk, IfOk};
ghost use Rattle.std.specs.List.{flat_map};
ghost use Rattle.gn_dependencies.specs.Lists.{added};
ghost use Rattle.gn_dependencies.specs.Shape.{near, public_near};
ghost use Rattle.gn_dependencies.specs.Configurations.{own_configs, applied_from, pushed_from, pushed_public_from, AreRecorded, IsApplied, IsPushed, IsPushedPublic};

use crate::firsts::Firsts;
use crate::graph::Graph;
use gn_labels::Label;
use gn_rows::Variable;
use std::alloc::{AllocError, Global};

// What the records of these hand on to all that depend on them.
fn add_pushed<G: Graph>(out: &mut Firsts, graph: &G, labels: &[Label]) -> Result<(), AllocError>
    ensures { OnOk result (out.new ≡ added out.old (flat_map (G.records graph.now).pushed labels.now)) }
{
    for label in labels {
        out.add_all(graph.pushed(label))?;
    }
    Ok(())
}

// What the records of these hand on to those that have them as dependencies.
fn add_pushed_public<G: Graph>(
    out: &mut Firsts,
    graph: &G,
    labels: &[Label],
) -> Result<(), AllocError>
    ensures { OnOk result (out.new ≡ added out.old (flat_map (G.records graph.now).pushed_public labels.now)) }
{
    for label in labels {
        out.add_all(graph.pushed_public(label))?;
    }
    Ok(())
}

// What comes to a target from all of its public and private dependencies.
#[tactic(auto, using(gn_dependencies::proofs::Joins::both_flat))]
fn add_near_pushed<G: Graph>(out: &mut Firsts, graph: &G, target: &Label) -> Result<(), AllocError>
    ensures { OnOk result (out.new ≡ added out.old (flat_map (G.records graph.now).pushed (near (G.shape graph.now) target.now))) }
{
    add_pushed(out, graph, graph.labels(target, Variable::PublicDeps))?;
    add_pushed(out, graph, graph.labels(target, Variable::Deps))
}

// What comes to it as one that has them as dependencies.
#[tactic(auto, using(gn_dependencies::proofs::Joins::both_flat))]
fn add_near_pushed_public<G: Graph>(
    out: &mut Firsts,
    graph: &G,
    target: &Label,
) -> Result<(), AllocError>
    ensures { OnOk result (out.new ≡ added out.old (flat_map (G.records graph.now).pushed_public (near (G.shape graph.now) target.now))) }
{
    add_pushed_public(out, graph, graph.labels(target, Variable::PublicDeps))?;
    add_pushed_public(out, graph, graph.labels(target, Variable::Deps))
}

// The own configurations of a target.
fn add_own<G: Graph>(out: &mut Firsts, graph: &G, target: &Label) -> Result<(), AllocError>
    ensures { OnOk result (out.new ≡ added out.old (own_configs (G.shape graph.now) target.now)) }
{
    out.add_all(graph.labels(target, Variable::Configs))?;
    out.add_all(graph.labels(target, Variable::AllDependentConfigs))?;
    out.add_all(graph.labels(target, Variable::PublicConfigs))
}

// All that is applied to a target.
fn add_applied<G: Graph>(out: &mut Firsts, graph: &G, target: &Label) -> Result<(), AllocError>
    ensures { OnOk result (out.new ≡ added out.old (applied_from (G.shape graph.now) (G.records graph.now) target.now)) }
{
    add_own(out, graph, target)?;
    add_near_pushed(out, graph, target)?;
    add_near_pushed_public(out, graph, target)
}

// All that a target hands on to all that depend on it.
fn add_handed_on<G: Graph>(out: &mut Firsts, graph: &G, target: &Label) -> Result<(), AllocError>
    ensures { OnOk result (out.new ≡ added out.old (pushed_from (G.shape graph.now) (G.records graph.now) target.now)) }
{
    out.add_all(graph.labels(target, Variable::AllDependentConfigs))?;
    add_near_pushed(out, graph, target)
}

// All that a target hands on to those that have it as a dependency.
fn add_handed_next<G: Graph>(out: &mut Firsts, graph: &G, target: &Label) -> Result<(), AllocError>
    ensures { OnOk result (out.new ≡ added out.old (pushed_public_from (G.shape graph.now) (G.records graph.now) target.now)) }
{
    out.add_all(graph.labels(target, Variable::PublicConfigs))?;
    let dependencies = graph.labels(target, Variable::PublicDeps);
    add_pushed_public(out, graph, dependencies)
}

/// The configurations applied to a target: its own ones, then the all-dependent ones of all targets that it reaches by
/// public and private dependencies, then the public ones of those that it reaches by one of these and public ones behind it;
/// each once, at its first place. The records of all its dependencies must be there, so it reaches no cycle.
pub fn applied<G: Graph>(alloc: Global, target: &Label, graph: &G) -> Result<Vec<Label>, AllocError>
    requires { AreRecorded (G.shape graph.now) (G.records graph.now) target.now }
    ensures { IfOk result (λ labels. IsApplied (G.shape graph.now) target.now labels.items) }
{
    let mut out = Firsts::new(alloc);
    if let Err(error) = add_applied(&mut out, graph, target) {
        drop(out);
        return Err(error);
    }
    out.into_vec()
}

/// What a target hands on to all that depend on it: its own all-dependent configurations, and those of all targets that it
/// reaches by public and private dependencies; each once, at its first place. The records of all its dependencies must be
/// there.
pub fn pushed<G: Graph>(alloc: Global, target: &Label, graph: &G) -> Result<Vec<Label>, AllocError>
    requires { AreRecorded (G.shape graph.now) (G.records graph.now) target.now }
    ensures { IfOk result (λ labels. IsPushed (G.shape graph.now) target.now labels.items) }
{
    let mut out = Firsts::new(alloc);
    if let Err(error) = add_handed_on(&mut out, graph, target) {
        drop(out);
        return Err(error);
    }
    out.into_vec()
}

/// What a target hands on to those that have it as a dependency: its own public configurations, and those of all targets that
/// it reaches by public dependencies; each once, at its first place. The records of all its dependencies must be there.
pub fn pushed_public<G: Graph>(
    alloc: Global,
    target: &Label,
    graph: &G,
) -> Result<Vec<Label>, AllocError>
    requires { AreRecorded (G.shape graph.now) (G.records graph.now) target.now }
    ensures { IfOk result (λ labels. IsPushedPublic (G.shape graph.now) target.now labels.items) }
{
    let mut out = Firsts::new(alloc);
    if let Err(error) = add_handed_next(&mut out, graph, target) {
        drop(out);
        return Err(error);
    }
    out.into_vec()
}
