// What a target mustn't reach.

ghost use Rattle.std.specs.Prelude.{◌≡◌, ◌<◌, ◌+◌, IfOk, Some, slice_get, length};
ghost use Rattle.gn_labels.specs.declared.label.Label.{Label as Named};
ghost use Rattle.gn_labels.specs.Labels.{is_before};
ghost use Rattle.gn_rules.specs.Rules.{IsForbiddenTarget};
ghost use Rattle.gn_rules.specs.Least.{IsLeastMatched, IsLeastIn};

use crate::marks::Marks;
use crate::visible::is_matched;
use gn_chains::{Walk, walked};
use gn_labels::{Label, Pattern, label_order_is_strict, label_order_is_transitive};
use gn_paths::Text;
use std::alloc::{AllocError, Global};

// The label at a place.
fn label_at(labels: &[Label], place: usize) -> &Label
    requires { place < length labels.now }
    ensures { slice_get labels.now place ≡ Some result.now }
{
    &labels[place]
}

// Whether the label at a place comes before that at another in label order.
fn is_first(labels: &[Label], default: &Text, place: usize, other: usize) -> bool
    requires place { place < length labels.now }
    requires other { other < length labels.now }
    ensures { (x y : Named) → slice_get labels.now place ≡ Some x → slice_get labels.now other ≡ Some y → result ≡ is_before default.now x y }
{
    label_at(labels, place).before(label_at(labels, other), default)
}

// The place of the first in label order of the labels that the patterns match, with one more looked at.
fn better(
    labels: &[Label],
    patterns: &[Pattern],
    default: &Text,
    best: Option<usize>,
    place: usize,
) -> Option<usize>
    requires place { place < length labels.now }
    requires best { IsLeastMatched default.now patterns.now labels.now place best }
    ensures { IsLeastMatched default.now patterns.now labels.now (place + 1) result }
{
    label_order_is_strict();
    label_order_is_transitive();
    if !is_matched(patterns, label_at(labels, place)) {
        return best;
    }
    match best {
        None => Some(place),
        Some(other) => {
            if is_first(labels, default, place, other) {
                Some(place)
            } else {
                best
            }
        }
    }
}

// The place of the first in label order of the labels that the patterns match; None where they match none.
fn least_matched(labels: &[Label], patterns: &[Pattern], default: &Text) -> Option<usize>
    ensures { IsLeastMatched default.now patterns.now labels.now (length labels.now) result }
{
    let mut best = None;
    for place in 0..labels.len() {
        best = better(labels, patterns, default, best, place);
    }
    best
}

// A copy of the first in label order of the labels that the patterns match.
fn least_copied(
    alloc: Global,
    labels: &[Label],
    patterns: &[Pattern],
    default: &Text,
) -> Result<Option<Label>, AllocError>
    ensures { IfOk result (λ found. IsLeastIn default.now patterns.now labels.now found) }
{
    match least_matched(labels, patterns, default) {
        None => Ok(None),
        Some(place) => Ok(Some(label_at(labels, place).copy(alloc)?)),
    }
}

/// The first in label order of the targets that a target mustn't reach by its `assert_no_deps` and reaches: those that one of its
/// patterns matches, that are no executables, and to which dependencies lead through no executable; None where there is none.
pub fn forbidden_target<G: Marks>(
    alloc: Global,
    target: &Label,
    graph: &G,
) -> Result<Option<Label>, AllocError>
    ensures { IfOk result (λ found. IsForbiddenTarget (G.default graph.now) (G.shape graph.now) (G.forbidden graph.now) target.now found) }
{
    let patterns = graph.assert_no_deps(target);
    if patterns.is_empty() {
        return Ok(None);
    }
    let walked = walked(alloc, Walk::Targets, target, graph)?;
    least_copied(
        alloc,
        walked.as_slice(),
        patterns,
        graph.default_toolchain(),
    )
}
