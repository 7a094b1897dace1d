// Rules over numbers, and which rules use a number.

ghost use Rattle.std.specs.Prelude.{◌≡◌, ℕ, ◌∷◌, [], ◌<◌, ◌≤◌, ◌++◌, OnOk, true, false, length, take};
ghost use Rattle.gn_graph.specs.Clauses.{has, horn, horns, waits_at};
ghost use Rattle.gn_graph.specs.Numbers.{IsMore};
ghost use Rattle.gn_graph.specs.States.{AreKept};

use crate::held::Held;
use std::alloc::{AllocError, Global};

/// A rule over numbers of facts: where all that it needs holds, what it gives holds.
#[derive(Drop)]
pub(crate) struct Clause {
    pub(crate) needs: Vec<usize>,
    pub(crate) gives: usize,
}

// For each fact, by its number, the rules that use it.
pub(crate) type Uses = Vec<Vec<usize>>;

// There is a list for the fact p.
fn make_room(alloc: Global, uses: &mut Uses, p: usize) -> Result<(), AllocError>
    ensures same { (q : ℕ) → waits_at uses.new q ≡ waits_at uses.old q }
    ensures room { OnOk result (p < length uses.new.items) }
{
    let mut n = uses.len();
    while n <= p {
        uses.push(Vec::new(alloc))?;
        n += 1;
    }
    Ok(())
}

// Notes in a list that there is that the rule of number i uses the fact p.
fn note_use(uses: &mut Uses, p: usize, i: usize) -> Result<(), AllocError>
    requires { p < length uses.old.items }
    ensures kept { (q j : ℕ) → has (waits_at uses.old q) j ≡ true → has (waits_at uses.new q) j ≡ true }
    ensures added { OnOk result (has (waits_at uses.new p) i ≡ true) }
{
    uses[p].push(i)?;
    Ok(())
}

// Notes that the rule of number i uses the fact p.
fn use_one(alloc: Global, uses: &mut Uses, p: usize, i: usize) -> Result<(), AllocError>
    ensures kept { (q j : ℕ) → has (waits_at uses.old q) j ≡ true → has (waits_at uses.new q) j ≡ true }
    ensures added { OnOk result (has (waits_at uses.new p) i ≡ true) }
{
    make_room(alloc, uses, p)?;
    note_use(uses, p, i)
}

// The same, where the fact doesn't hold before the place n.
fn use_waiting(
    alloc: Global,
    uses: &mut Uses,
    p: usize,
    held: &Held,
    n: usize,
    i: usize,
) -> Result<(), AllocError>
    requires { n ≤ length held.now }
    ensures kept { AreKept (waits_at uses.old) (waits_at uses.new) }
    ensures added { OnOk result (has (take n held.now) p ≡ false → has (waits_at uses.new p) i ≡ true) }
{
    if held.has_before(p, n) {
        return Ok(());
    }
    use_one(alloc, uses, p, i)
}

// Notes that the rule of number i uses these facts, as far as they don't hold before the place n.
fn use_all(
    alloc: Global,
    uses: &mut Uses,
    needs: &[usize],
    held: &Held,
    n: usize,
    i: usize,
) -> Result<(), AllocError>
    requires { n ≤ length held.now }
    ensures kept { AreKept (waits_at uses.old) (waits_at uses.new) }
    ensures added { OnOk result ((p : ℕ) → has needs.now p ≡ true → has (take n held.now) p ≡ false → has (waits_at uses.new p) i ≡ true) }
{
    for p in needs {
        use_waiting(alloc, uses, *p, held, n, i)?;
    }
    Ok(())
}

// A rule is put last.
fn put_clause(
    alloc: Global,
    clauses: &mut Vec<Clause>,
    needs: &[usize],
    gives: usize,
) -> Result<(), AllocError>
    ensures ok { OnOk result (horns clauses.new.items ≡ horns clauses.old.items ++ horn needs.now gives ∷ []) }
    ensures more { IsMore (horns clauses.old.items) (horns clauses.new.items) }
{
    let needs = Vec::from_slice(alloc, needs)?;
    clauses.push(Clause { needs, gives })?;
    Ok(())
}

/// A rule is put last, and its uses are noted of the facts that don't hold before the place n.
pub(crate) fn keep(
    alloc: Global,
    clauses: &mut Vec<Clause>,
    uses: &mut Uses,
    held: &Held,
    n: usize,
    needs: &[usize],
    gives: usize,
) -> Result<(), AllocError>
    requires { n ≤ length held.now }
    ensures kept { AreKept (waits_at uses.old) (waits_at uses.new) }
    ensures added { OnOk result ((p : ℕ) → has needs.now p ≡ true → has (take n held.now) p ≡ false → has (waits_at uses.new p) (length clauses.old.items) ≡ true) }
    ensures ok { OnOk result (horns clauses.new.items ≡ horns clauses.old.items ++ horn needs.now gives ∷ []) }
    ensures more { IsMore (horns clauses.old.items) (horns clauses.new.items) }
{
    use_all(alloc, uses, needs, held, n, clauses.len())?;
    put_clause(alloc, clauses, needs, gives)
}

// The rules that use a fact, and maybe others.
pub(crate) fn users(uses: &Uses, p: usize) -> &[usize]
    ensures { result.now ≡ waits_at uses.now p }
{
    match uses.get(p) {
        None => &[],
        Some(list) => list,
    }
}
