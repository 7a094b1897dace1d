// The facts that follow from rules and from facts that hold.

ghost use Rattle.std.specs.Prelude.{◌≡◌, ℕ, ◌+◌, ◌≤◌, ◌<◌, OnOk, OnErr, IsTrue, ◌↔◌, Option, Some, true, false, length, take, slice_get};
ghost use Rattle.gn_graph.specs.Clauses.{has, horn_of, horns, waits_at};
ghost use Rattle.gn_graph.specs.Plans.{AllIn, IsUsed, HaveFired, Fired, FiredAll, Plan, IsPlan};
ghost use Rattle.gn_graph.specs.Numbers.{IsMore};

use crate::clause::{Clause, Uses, users};
use crate::held::Held;
use std::alloc::AllocError;

/// Whether all of the facts hold.
pub(crate) fn all_hold(needs: &[usize], held: &Held) -> bool
    ensures { IsTrue result ↔ AllIn held.now needs.now }
{
    for p in needs {
        if !held.has(*p) {
            return false;
        }
    }
    true
}

// Whether all that a rule needs holds, and what it gives doesn't yet.
fn can_fire(clause: &Clause, held: &Held) -> bool
    ensures yes { IsTrue result → AllIn held.now (horn_of clause.now).needs × (has held.now clause.now.gives ≡ false) }
    ensures no { result ≡ false → AllIn held.now (horn_of clause.now).needs → has held.now clause.now.gives ≡ true }
{
    if held.has(clause.gives) {
        return false;
    }
    all_hold(&clause.needs, held)
}

// What the rule gives is put behind the facts that hold, if it may fire.
fn fire(clause: &Clause, held: &mut Held) -> Result<(), AllocError>
    ensures ok { OnOk result (Fired (Some (horn_of clause.now)) held.old held.new) }
    ensures err { OnErr result (held.new ≡ held.old) }
{
    if can_fire(clause, held) {
        held.put(clause.gives)
    } else {
        Ok(())
    }
}

fn fire_at(clauses: &[Clause], i: usize, held: &mut Held) -> Result<(), AllocError>
    ensures ok { OnOk result (Fired (slice_get (horns clauses.now) i) held.old held.new) }
    ensures err { OnErr result (held.new ≡ held.old) }
{
    match clauses.get(i) {
        None => Ok(()),
        Some(clause) => fire(clause, held),
    }
}

// The rules that use a fact are looked at.
fn fire_users(clauses: &[Clause], list: &[usize], held: &mut Held) -> Result<(), AllocError>
    ensures more { IsMore held.old held.new }
    ensures ok { OnOk result (FiredAll (horns clauses.now) (λ i. has list.now i ≡ true) held.old held.new) }
{
    for i in list {
        fire_at(clauses, *i, held)?;
    }
    Ok(())
}

/// All that follows is put behind the facts that hold, where those before a place were looked at. Each rule is looked at once for each of
/// its needs.
pub(crate) fn consequences(
    clauses: &[Clause],
    held: &mut Held,
    uses: &Uses,
    start: usize,
) -> Result<(), AllocError>
    requires within { start ≤ length held.old }
    requires closed { HaveFired (horns clauses.now) (take start held.old) held.old }
    requires used { IsUsed (horns clauses.now) (take start held.old) (waits_at uses.now) }
    ensures more { IsMore held.old held.new }
    ensures ok { OnOk result (IsPlan (horns clauses.now) held.old held.new) }
{
    let mut k = start;
    while k < held.len() {
        fire_users(clauses, users(uses, held.at(k)), held)?;
        k += 1;
    }
    Ok(())
}
