// The order of the walked labels: at each place the first of those all of whose dependents are placed.

ghost use Rattle.std.specs.Prelude.{◌≡◌, ℕ, ◌<◌, length, IfOk, true, nat_eq};
ghost use Rattle.gn_dependencies.specs.Order.{IsOrderOf};
ghost use Rattle.gn_chains.specs.Numbers.{among, list_at, lists_in, number_before, AreNumbered, NumbersEnd};
ghost use Rattle.gn_chains.specs.Counts.{numbers};

use crate::candidates::{Candidates, offer, offer_all, take_first};
use crate::counts::{count_dependents, lessen};
use gn_labels::{Label, keys_are_in_label_order};
use gn_paths::Text;
use std::alloc::{AllocError, Global};

// The numbers of those on which the label of a number depends.
#[tactic(auto, using(crate::proofs::Numbering::list_here))]
fn edges_at(edges: &[Vec<usize>], number: usize) -> &[usize]
    requires { number < length edges.now }
    ensures { result.now ≡ list_at (lists_in edges.now) number }
{
    edges[number].as_slice()
}

// The walked labels, by their numbers, in their order.
pub(crate) fn order(
    alloc: Global,
    default: &Text,
    walked: &[Label],
    edges: &[Vec<usize>],
) -> Result<Vec<usize>, AllocError>
    requires numbered { AreNumbered (length walked.now) (lists_in edges.now) }
    requires ends { (k : ℕ) × ((q : ℕ) → q < length walked.now → NumbersEnd (list_at (lists_in edges.now)) k q) }
    ensures { IfOk result (λ order. IsOrderOf nat_eq (list_at (lists_in edges.now)) (number_before default.now walked.now)
        (λ q. among (numbers (length walked.now)) q ≡ true) order.items) }
{
    keys_are_in_label_order();
    let mut counts = count_dependents(alloc, edges)?;
    let mut candidates = Candidates::new(alloc);
    offer_all(alloc, default, walked, &counts, &mut candidates)?;
    let mut order = Vec::new(alloc);
    while let Some(number) = take_first(&mut candidates) {
        order.push(number)?;
        let list = edges_at(edges, number);
        lessen(&mut counts, list);
        offer(alloc, default, walked, &counts, &mut candidates, list)?;
    }
    Ok(order)
}
