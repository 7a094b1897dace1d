// What isn't visible to a target that names it.

ghost use Rattle.std.specs.Prelude.{◌≡◌, IfOk};
ghost use Rattle.gn_rules.specs.Rules.{hidden_targets, hidden_configs};

use crate::breaking::{add_breaking_configs, add_breaking_deps};
use crate::marks::Marks;
use crate::rule::{Naming, Rule};
use gn_labels::Label;
use std::alloc::{AllocError, Global};

/// The dependencies of a target that name targets which aren't visible to it, in dependency order: public, private, of data. One
/// that is named twice stands twice.
pub fn hidden_targets<G: Marks>(
    alloc: Global,
    target: &Label,
    graph: &G,
) -> Result<Vec<Label>, AllocError>
    ensures { IfOk result (λ labels. labels.items ≡ hidden_targets (G.shape graph.now) (G.visibility graph.now) target.now) }
{
    let mut out = Vec::new(alloc);
    add_breaking_deps(alloc, &mut out, graph, target, Rule::Hidden(Naming::Target))?;
    Ok(out)
}

/// The own configurations of a target that name configurations which aren't visible to it: its `configs`, then its all-dependent
/// and its public ones. One that is named twice stands twice.
pub fn hidden_configs<G: Marks>(
    alloc: Global,
    target: &Label,
    graph: &G,
) -> Result<Vec<Label>, AllocError>
    ensures { IfOk result (λ labels. labels.items ≡ hidden_configs (G.shape graph.now) (G.visibility graph.now) target.now) }
{
    let mut out = Vec::new(alloc);
    add_breaking_configs(alloc, &mut out, graph, target, Rule::Hidden(Naming::Config))?;
    Ok(out)
}
