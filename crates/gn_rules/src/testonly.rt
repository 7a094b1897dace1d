// Dependencies for tests alone.

ghost use Rattle.std.specs.Prelude.{◌≡◌, IfOk};
ghost use Rattle.gn_rules.specs.Rules.{testonly_deps};

use crate::breaking::add_breaking_deps;
use crate::marks::Marks;
use crate::rule::Rule;
use gn_labels::Label;
use std::alloc::{AllocError, Global};

/// The dependencies of a target that name targets for tests alone, in dependency order; none where the target itself is for
/// tests alone. One that is named twice stands twice.
pub fn testonly_deps<G: Marks>(
    alloc: Global,
    target: &Label,
    graph: &G,
) -> Result<Vec<Label>, AllocError>
    ensures { IfOk result (λ labels. labels.items ≡ testonly_deps (G.shape graph.now) (G.testonly graph.now) target.now) }
{
    let mut out = Vec::new(alloc);
    if graph.is_testonly(target) {
        return Ok(out);
    }
    add_breaking_deps(alloc, &mut out, graph, target, Rule::ForTests)?;
    Ok(out)
}
