// Facts get numbers.

ghost use Rattle.std.specs.Prelude.{◌≡◌, IfOk, OnOk, Some, map, slice_get};
ghost use Rattle.gn_closure.specs.Computed.{is_reached};
ghost use Rattle.gn_graph.specs.Facts.{step_of, unit_of, meant, needed, steps_in, horn_in, under};
ghost use Rattle.gn_graph.specs.Numbers.{Extends, AreAt};
ghost use Rattle.gn_graph.specs.States.{IsNumbered};

use crate::fact::{Fact, Mention};
use crate::held::Held;
use crate::hints::{Hints, hinted, mixed_fact};
use crate::rule::{Needs, Rule};
use crate::unit_key::UnitKey;
use indexmap::IndexSet;
use std::alloc::{AllocError, Global};

// The number of a fact; a new one is put last.
fn number(facts: &mut IndexSet<Fact>, fact: Fact) -> Result<usize, AllocError>
    ensures grows { Extends (steps_in facts.old.keys) (steps_in facts.new.keys) }
    ensures at { IfOk result (λ n. slice_get (steps_in facts.new.keys) n ≡ Some (step_of fact)) }
{
    let (number, _) = facts.insert_full(fact)?;
    Ok(number)
}

fn new_number(
    alloc: Global,
    facts: &mut IndexSet<Fact>,
    mention: Mention<'_>,
) -> Result<usize, AllocError>
    ensures grows { Extends (steps_in facts.old.keys) (steps_in facts.new.keys) }
    ensures at { IfOk result (λ n. slice_get (steps_in facts.new.keys) n ≡ Some (meant mention.entry)) }
{
    let fact = mention.fact(alloc)?;
    number(facts, fact)
}

/// The number of the fact that is named: mostly it isn't made where it has one.
pub(crate) fn number_of(
    alloc: Global,
    facts: &mut IndexSet<Fact>,
    hints: &mut Hints,
    mention: Mention<'_>,
) -> Result<usize, AllocError>
    ensures grows { Extends (steps_in facts.old.keys) (steps_in facts.new.keys) }
    ensures at { IfOk result (λ n. slice_get (steps_in facts.new.keys) n ≡ Some (meant mention.entry)) }
{
    let mixed = mixed_fact(mention);
    if let Some(number) = hinted(facts, hints, mixed, mention) {
        return Ok(number);
    }
    hints.make_room(facts.len())?;
    let number = new_number(alloc, facts, mention)?;
    hints.note(mixed, number);
    Ok(number)
}

// The numbers of facts, in a list that held anything.
fn numbers(
    alloc: Global,
    facts: &mut IndexSet<Fact>,
    hints: &mut Hints,
    list: &[Mention<'_>],
    numbers: &mut Vec<usize>,
) -> Result<(), AllocError>
    ensures grows { Extends (steps_in facts.old.keys) (steps_in facts.new.keys) }
    ensures at { OnOk result (AreAt (steps_in facts.new.keys) numbers.new.items (map meant list.now)) }
{
    numbers.clear();
    for mention in list {
        let number = number_of(alloc, facts, hints, *mention)?;
        numbers.push(number)?;
    }
    Ok(())
}

fn needs_numbered(
    alloc: Global,
    facts: &mut IndexSet<Fact>,
    hints: &mut Hints,
    needs: Needs<'_>,
    list: &mut Vec<usize>,
) -> Result<(), AllocError>
    ensures grows { Extends (steps_in facts.old.keys) (steps_in facts.new.keys) }
    ensures at { OnOk result (AreAt (steps_in facts.new.keys) list.new.items (needed needs.entry)) }
{
    match needs {
        Needs::Nothing => numbers(alloc, facts, hints, &[], list),
        Needs::One(a) => numbers(alloc, facts, hints, &[a], list),
        Needs::Two(a, b) => numbers(alloc, facts, hints, &[a, b], list),
        Needs::Three(a, b, c) => numbers(alloc, facts, hints, &[a, b, c], list),
    }
}

/// The number of what a rule gives, where that fact isn't found; what the rule needs is then listed by number.
pub(crate) fn number_rule(
    alloc: Global,
    facts: &mut IndexSet<Fact>,
    hints: &mut Hints,
    held: &Held,
    rule: &Rule<'_>,
    needs: &mut Vec<usize>,
) -> Result<Option<usize>, AllocError>
    ensures grows { Extends (steps_in facts.old.keys) (steps_in facts.new.keys) }
    ensures numbered { IfOk result (IsNumbered (steps_in facts.new.keys) held.now needs.new.items (horn_in rule.now)) }
{
    let gives = number_of(alloc, facts, hints, rule.gives)?;
    if held.has(gives) {
        return Ok(None);
    }
    needs_numbered(alloc, facts, hints, rule.needs, needs)?;
    Ok(Some(gives))
}

/// The same of a rule that needs also that the unit is reached, whose fact has the number.
pub(crate) fn number_hung(
    alloc: Global,
    facts: &mut IndexSet<Fact>,
    hints: &mut Hints,
    held: &Held,
    unit: &UnitKey,
    number: usize,
    rule: &Rule<'_>,
    needs: &mut Vec<usize>,
) -> Result<Option<usize>, AllocError>
    requires { slice_get (steps_in facts.old.keys) number ≡ Some (is_reached (unit_of unit.now)) }
    ensures grows { Extends (steps_in facts.old.keys) (steps_in facts.new.keys) }
    ensures numbered { IfOk result (IsNumbered (steps_in facts.new.keys) held.now needs.new.items (under (unit_of unit.now) (horn_in rule.now))) }
{
    let gives = number_rule(alloc, facts, hints, held, rule, needs)?;
    needs.push(number)?;
    Ok(gives)
}
