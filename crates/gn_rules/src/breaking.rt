// The labels of a target that break a rule.

ghost use Rattle.std.specs.Prelude.{◌≡◌, ◌++◌, ◌∷◌, [], OnOk, filter};
ghost use Rattle.gn_dependencies.specs.Shape.{all_deps};
ghost use Rattle.gn_dependencies.specs.Configurations.{own_configs};
ghost use Rattle.gn_rules.specs.Naming.{breaks};

use crate::marks::Marks;
use crate::rule::{Rule, breaks};
use gn_labels::Label;
use gn_rows::Variable;
use std::alloc::{AllocError, Global};

// Puts a copy of a label behind the others.
fn push_copy(alloc: Global, labels: &mut Vec<Label>, label: &Label) -> Result<(), AllocError>
    ensures { OnOk result (labels.new.items ≡ labels.old.items ++ label.now ∷ []) }
{
    let label = label.copy(alloc)?;
    labels.push(label)?;
    Ok(())
}

// Puts those of the labels at a variable of the target behind the others that break the rule.
pub(crate) fn add_breaking<G: Marks>(
    alloc: Global,
    out: &mut Vec<Label>,
    graph: &G,
    target: &Label,
    labels: &[Label],
    rule: Rule,
) -> Result<(), AllocError>
    ensures { OnOk result (out.new.items
        ≡ out.old.items ++ filter (breaks rule (G.shape graph.now) (G.visibility graph.now) (G.testonly graph.now) target.now) labels.now) }
{
    for label in labels {
        if breaks(graph, target, label, rule) {
            push_copy(alloc, out, label)?;
        }
    }
    Ok(())
}

// Puts those of the dependencies of a target behind the others that break the rule.
pub(crate) fn add_breaking_deps<G: Marks>(
    alloc: Global,
    out: &mut Vec<Label>,
    graph: &G,
    target: &Label,
    rule: Rule,
) -> Result<(), AllocError>
    ensures { OnOk result (out.new.items
        ≡ out.old.items ++ filter (breaks rule (G.shape graph.now) (G.visibility graph.now) (G.testonly graph.now) target.now) (all_deps (G.shape graph.now) target.now)) }
{
    let public = graph.labels(target, Variable::PublicDeps);
    let private = graph.labels(target, Variable::Deps);
    add_breaking(alloc, out, graph, target, public, rule)?;
    add_breaking(alloc, out, graph, target, private, rule)?;
    let data = graph.labels(target, Variable::DataDeps);
    add_breaking(alloc, out, graph, target, data, rule)
}

// Puts those of the own configurations of a target behind the others that break the rule.
pub(crate) fn add_breaking_configs<G: Marks>(
    alloc: Global,
    out: &mut Vec<Label>,
    graph: &G,
    target: &Label,
    rule: Rule,
) -> Result<(), AllocError>
    ensures { OnOk result (out.new.items
        ≡ out.old.items ++ filter (breaks rule (G.shape graph.now) (G.visibility graph.now) (G.testonly graph.now) target.now) (own_configs (G.shape graph.now) target.now)) }
{
    let own = graph.labels(target, Variable::Configs);
    let all_dependent = graph.labels(target, Variable::AllDependentConfigs);
    add_breaking(alloc, out, graph, target, own, rule)?;
    add_breaking(alloc, out, graph, target, all_dependent, rule)?;
    let public = graph.labels(target, Variable::PublicConfigs);
    add_breaking(alloc, out, graph, target, public, rule)
}
