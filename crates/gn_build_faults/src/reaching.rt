// The targets of which faults are told.

ghost use Rattle.std.specs.Prelude.{◌≡◌, true, IfOk, option_map};
ghost use Rattle.gn_build_faults.specs.Reaching.{targets_of};
ghost use Rattle.gn_build_faults.specs.Whole.{those_or};

use gn_graph_meant::the_labels_of_items_are_enough;
use gn_labelled::{ItemIndex, LentGraph};
use gn_labels::Label;
use gn_paths::Text;
use gn_reached::reached;
use std::alloc::{AllocError, Global};

/// The targets that are generated and all that dependencies lead to from them, in label order, by the items of a build.
#[tactic(auto, unfolding(crate::specs::Reaching::targets_of))]
pub fn targets_of(
    alloc: Global,
    default: &Text,
    items: &ItemIndex<'_>,
    generated: &[Label],
) -> Result<Vec<Label>, AllocError>
    ensures { IfOk result (λ targets. targets.items ≡ targets_of default.now items.now generated.now) }
{
    the_labels_of_items_are_enough();
    let graph = LentGraph { default, items };
    reached(alloc, generated, &graph)
}

/// The same, where it isn't known that they are those that are generated; None where those are all of them, as it is mostly, and stand
/// in label order. Then nothing is copied.
pub(crate) fn targets_unless_whole(
    alloc: Global,
    default: &Text,
    items: &ItemIndex<'_>,
    is_whole: bool,
    generated: &[Label],
) -> Result<Option<Vec<Label>>, AllocError>
    requires { is_whole ≡ true → generated.now ≡ targets_of default.now items.now generated.now }
    ensures { IfOk result (λ others. those_or generated.now (option_map (λ targets. targets.items) others) ≡ targets_of default.now items.now generated.now) }
{
    if is_whole {
        return Ok(None);
    }
    let targets = targets_of(alloc, default, items, generated)?;
    Ok(Some(targets))
}
