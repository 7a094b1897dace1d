// Labels that name nothing, or an item of another kind.

ghost use Rattle.std.specs.Prelude.{◌≡◌, IfOk};
ghost use Rattle.gn_rules.specs.Rules.{missing_labels, foreign_labels};

use crate::breaking::{add_breaking, add_breaking_configs, add_breaking_deps};
use crate::marks::Marks;
use crate::rule::{Naming, Rule};
use gn_labels::Label;
use gn_rows::Variable;
use std::alloc::{AllocError, Global};

/// The labels that a target names and no item has: its dependencies in dependency order, its own configurations, its pool. One
/// that is named twice stands twice.
pub fn missing_labels<G: Marks>(
    alloc: Global,
    target: &Label,
    graph: &G,
) -> Result<Vec<Label>, AllocError>
    ensures { IfOk result (λ labels. labels.items ≡ missing_labels (G.shape graph.now) target.now) }
{
    let mut out = Vec::new(alloc);
    add_breaking_deps(alloc, &mut out, graph, target, Rule::Missing)?;
    add_breaking_configs(alloc, &mut out, graph, target, Rule::Missing)?;
    let pool = graph.labels(target, Variable::Pool);
    add_breaking(alloc, &mut out, graph, target, pool, Rule::Missing)?;
    Ok(out)
}

/// The labels that a target names of items of another kind: dependencies of items that aren't targets, configurations that aren't
/// configurations, a pool that isn't a pool. One that is named twice stands twice.
pub fn foreign_labels<G: Marks>(
    alloc: Global,
    target: &Label,
    graph: &G,
) -> Result<Vec<Label>, AllocError>
    ensures { IfOk result (λ labels. labels.items ≡ foreign_labels (G.shape graph.now) target.now) }
{
    let mut out = Vec::new(alloc);
    add_breaking_deps(
        alloc,
        &mut out,
        graph,
        target,
        Rule::Foreign(Naming::Target),
    )?;
    add_breaking_configs(
        alloc,
        &mut out,
        graph,
        target,
        Rule::Foreign(Naming::Config),
    )?;
    let pool = graph.labels(target, Variable::Pool);
    add_breaking(
        alloc,
        &mut out,
        graph,
        target,
        pool,
        Rule::Foreign(Naming::Pool),
    )?;
    Ok(out)
}
