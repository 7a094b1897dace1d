// How many of those that depend on a number aren't placed.

ghost use Rattle.std.specs.Prelude.{◌≡◌, ℕ, ◌<◌, ◌+◌, ◌^◌, length, IfOk, IfSome, Some, None, true, cond, nat_eq, []};
ghost use Rattle.std.specs.List.{IsDistinct};
ghost use Rattle.std.specs.BTreeMap.{get};
ghost use Rattle.std.specs.Ordering.{nat_cmp};
ghost use Rattle.gn_chains.specs.Numbers.{among, list_at, lists_in, AreNumbered};
ghost use Rattle.gn_chains.specs.Counts.{numbers, count_at, is_zero, raised, lessened};

use std::alloc::{AllocError, Global};
use std::collections::BTreeMap;

pub(crate) type Counts = BTreeMap<usize, usize>;

// One count more at a number.
fn raise_one(counts: &mut Counts, number: usize)
    requires { IfSome (get nat_cmp counts.old number) (λ n. n + 1 < 2 ^ 64) }
    ensures { (q : ℕ) → get nat_cmp counts.new q ≡ raised (nat_eq q number) (get nat_cmp counts.old q) }
{
    if let Some(count) = counts.get_mut(&number) {
        *count += 1;
    }
}

// One count less at a number.
fn lessen_one(counts: &mut Counts, number: usize)
    requires { IfSome (get nat_cmp counts.old number) (λ n. 0 < n) }
    ensures { (q : ℕ) → get nat_cmp counts.new q ≡ lessened (nat_eq q number) (get nat_cmp counts.old q) }
{
    if let Some(count) = counts.get_mut(&number) {
        *count -= 1;
    }
}

// One count more at each of the numbers, none of which stands twice.
fn raise(counts: &mut Counts, list: &[usize])
    requires once { IsDistinct nat_eq list.now }
    requires room { (q : ℕ) → IfSome (get nat_cmp counts.old q) (λ n. n + 1 < 2 ^ 64) }
    ensures { (q : ℕ) → get nat_cmp counts.new q ≡ raised (among list.now q) (get nat_cmp counts.old q) }
{
    for number in list {
        raise_one(counts, *number);
    }
}

// One count less at each of the numbers, none of which stands twice.
pub(crate) fn lessen(counts: &mut Counts, list: &[usize])
    requires once { IsDistinct nat_eq list.now }
    requires some { (q : ℕ) → among list.now q ≡ true → IfSome (get nat_cmp counts.old q) (λ n. 0 < n) }
    ensures { (q : ℕ) → get nat_cmp counts.new q ≡ lessened (among list.now q) (get nat_cmp counts.old q) }
{
    for number in list {
        lessen_one(counts, *number);
    }
}

// Whether the count of a number is none.
pub(crate) fn is_zero(counts: &Counts, number: usize) -> bool
    ensures { result ≡ is_zero (get nat_cmp counts.now number) }
{
    match counts.get(&number) {
        None => false,
        Some(count) => *count == 0,
    }
}

// The count none at each of so many numbers.
fn zeros(alloc: Global, count: usize) -> Result<Counts, AllocError>
    ensures { IfOk result (λ counts. (q : ℕ) → get nat_cmp counts q ≡ cond (among (numbers count) q) (Some 0) None) }
{
    let mut counts = BTreeMap::new(alloc);
    for number in 0..count {
        counts.insert(number, 0)?;
    }
    Ok(counts)
}

// Of each number how many of the lists have it.
pub(crate) fn count_dependents(alloc: Global, edges: &[Vec<usize>]) -> Result<Counts, AllocError>
    requires { AreNumbered (length edges.now) (lists_in edges.now) }
    ensures { IfOk result (λ counts. (q : ℕ) → get nat_cmp counts q ≡ count_at (list_at (lists_in edges.now)) (numbers (length edges.now)) [] q) }
{
    let mut counts = zeros(alloc, edges.len())?;
    for list in edges {
        raise(&mut counts, list);
    }
    Ok(counts)
}
