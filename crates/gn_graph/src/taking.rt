// Rules are taken in, one after the other: what a rule gives is found at once, or the rule waits.

ghost use Rattle.std.specs.Prelude.{◌≡◌, ◌∷◌, [], ℕ, OnOk, Some, map, false, slice_get};
ghost use Rattle.gn_closure.specs.Closure.{Horn};
ghost use Rattle.gn_closure.specs.Ground.{Step};
ghost use Rattle.gn_closure.specs.Computed.{is_reached};
ghost use Rattle.gn_graph.specs.Clauses.{has, horn};
ghost use Rattle.gn_graph.specs.Facts.{unit_of, steps_in, horn_in, rules_in, under, unit_horns, unit_rules_in};
ghost use Rattle.gn_graph.specs.Numbers.{StandsFor};
ghost use Rattle.gn_graph.specs.States.{State, IsSound, Grown, TookIn};
ghost use Rattle.gn_graph.specs.Kept.{state_of};

use crate::clause::keep;
use crate::consequences::all_hold;
use crate::fact::Mention;
use crate::numbering::{number_hung, number_of, number_rule};
use crate::parts::Parts;
use crate::rule::{Rule, UnitRules};
use crate::unit_key::UnitKey;
use std::alloc::{AllocError, Global};

// What a rule gives isn't found: where all that it needs holds, it is found now; else the rule waits.
fn settle(
    alloc: Global,
    parts: &mut Parts,
    start: usize,
    needs: &[usize],
    gives: usize,
) -> Result<(), AllocError>
    requires sound { IsSound (state_of parts.old) start }
    requires fresh { has parts.old.held gives ≡ false }
    ensures grown { Grown (state_of parts.old) (state_of parts.new) }
    ensures took { OnOk result ((h : Horn Step) → StandsFor (steps_in parts.old.facts.keys) (horn needs.now gives) h → TookIn start (state_of parts.old) (state_of parts.new) (h ∷ [])) }
{
    if all_hold(needs, &parts.held) {
        parts.held.put(gives)
    } else {
        keep(
            alloc,
            &mut parts.clauses,
            &mut parts.uses,
            &parts.held,
            start,
            needs,
            gives,
        )
    }
}

// A rule is taken in.
fn take_plain(
    alloc: Global,
    parts: &mut Parts,
    needs: &mut Vec<usize>,
    start: usize,
    rule: &Rule<'_>,
) -> Result<(), AllocError>
    requires sound { IsSound (state_of parts.old) start }
    ensures grown { Grown (state_of parts.old) (state_of parts.new) }
    ensures took { OnOk result (TookIn start (state_of parts.old) (state_of parts.new) (horn_in rule.now ∷ [])) }
{
    let gives = number_rule(
        alloc,
        &mut parts.facts,
        &mut parts.hints,
        &parts.held,
        rule,
        needs,
    )?;
    match gives {
        None => Ok(()),
        Some(gives) => settle(alloc, parts, start, needs, gives),
    }
}

// A rule is taken in that needs also that the unit is reached, whose fact has the number.
fn take_hung(
    alloc: Global,
    parts: &mut Parts,
    needs: &mut Vec<usize>,
    start: usize,
    unit: &UnitKey,
    number: usize,
    rule: &Rule<'_>,
) -> Result<(), AllocError>
    requires sound { IsSound (state_of parts.old) start }
    requires unit { slice_get (steps_in parts.old.facts.keys) number ≡ Some (is_reached (unit_of unit.now)) }
    ensures grown { Grown (state_of parts.old) (state_of parts.new) }
    ensures took { OnOk result (TookIn start (state_of parts.old) (state_of parts.new) (under (unit_of unit.now) (horn_in rule.now) ∷ [])) }
{
    let gives = number_hung(
        alloc,
        &mut parts.facts,
        &mut parts.hints,
        &parts.held,
        unit,
        number,
        rule,
        needs,
    )?;
    match gives {
        None => Ok(()),
        Some(gives) => settle(alloc, parts, start, needs, gives),
    }
}

// The rules of the unit are taken in.
fn take_all_hung(
    alloc: Global,
    parts: &mut Parts,
    needs: &mut Vec<usize>,
    start: usize,
    unit: &UnitKey,
    number: usize,
    rules: &[Rule<'_>],
) -> Result<(), AllocError>
    requires sound { IsSound (state_of parts.old) start }
    requires unit { slice_get (steps_in parts.old.facts.keys) number ≡ Some (is_reached (unit_of unit.now)) }
    ensures grown { Grown (state_of parts.old) (state_of parts.new) }
    ensures took { OnOk result (TookIn start (state_of parts.old) (state_of parts.new) (map (under (unit_of unit.now)) (rules_in rules.now))) }
{
    for rule in rules {
        take_hung(alloc, parts, needs, start, unit, number, rule)?;
    }
    Ok(())
}

// The unit's fact is named once for all of its rules.
fn take_under(
    alloc: Global,
    parts: &mut Parts,
    needs: &mut Vec<usize>,
    start: usize,
    unit: &UnitKey,
    rules: &[Rule<'_>],
) -> Result<(), AllocError>
    requires sound { IsSound (state_of parts.old) start }
    ensures grown { Grown (state_of parts.old) (state_of parts.new) }
    ensures took { OnOk result (TookIn start (state_of parts.old) (state_of parts.new) (map (under (unit_of unit.now)) (rules_in rules.now))) }
{
    let number = number_of(
        alloc,
        &mut parts.facts,
        &mut parts.hints,
        Mention::Reached(unit),
    )?;
    take_all_hung(alloc, parts, needs, start, unit, number, rules)
}

fn take_unit(
    alloc: Global,
    parts: &mut Parts,
    needs: &mut Vec<usize>,
    start: usize,
    rules: &UnitRules<'_>,
) -> Result<(), AllocError>
    requires sound { IsSound (state_of parts.old) start }
    ensures grown { Grown (state_of parts.old) (state_of parts.new) }
    ensures took { OnOk result (TookIn start (state_of parts.old) (state_of parts.new) (unit_horns rules.now)) }
{
    match rules {
        UnitRules::Plain(rule) => take_plain(alloc, parts, needs, start, rule),
        UnitRules::Under(unit, rules) => take_under(alloc, parts, needs, start, unit, rules),
    }
}

/// Rules are taken in, while only the facts before a place were looked at.
pub(crate) fn take_units(
    alloc: Global,
    parts: &mut Parts,
    needs: &mut Vec<usize>,
    start: usize,
    rules: &[UnitRules<'_>],
) -> Result<(), AllocError>
    requires sound { IsSound (state_of parts.old) start }
    ensures grown { Grown (state_of parts.old) (state_of parts.new) }
    ensures took { OnOk result (TookIn start (state_of parts.old) (state_of parts.new) (unit_rules_in rules.now)) }
{
    for unit in rules {
        take_unit(alloc, parts, needs, start, unit)?;
    }
    Ok(())
}
