// Rules over facts.

ghost use Rattle.std.specs.Prelude.{◌≡◌, ◌++◌, ◌∷◌, [], map, OnOk};
ghost use Rattle.gn_closure.specs.Ground.{Set_up};
ghost use Rattle.gn_closure.specs.Computed.{rule_of};
ghost use Rattle.gn_graph.specs.Facts.{unit_of, meant, needed, horn_in, rules_in, unit_rules_in, under};

use crate::fact::Mention;
use crate::unit_key::UnitKey;
use std::alloc::AllocError;

/// The facts that a rule needs.
#[derive(Clone, Copy)]
pub(crate) enum Needs<'a> {
    Nothing,
    One(Mention<'a>),
    Two(Mention<'a>, Mention<'a>),
    Three(Mention<'a>, Mention<'a>, Mention<'a>),
}

/// A rule: where all that it needs holds, what it gives holds. It holds references alone.
#[derive(Clone, Copy)]
pub(crate) struct Rule<'a> {
    pub(crate) needs: Needs<'a>,
    pub(crate) gives: Mention<'a>,
}

/// Rules, and whether they need also that a unit is reached.
#[derive(Drop)]
pub(crate) enum UnitRules<'a> {
    /// A rule by itself.
    Plain(Rule<'a>),
    /// Each of the rules needs also that the unit is reached.
    Under(&'a UnitKey, Vec<Rule<'a>>),
}

/// Puts a rule behind the others.
pub(crate) fn put<'a>(
    rules: &mut Vec<Rule<'a>>,
    needs: Needs<'a>,
    gives: Mention<'a>,
) -> Result<(), AllocError>
    ensures { OnOk result (rules_in rules.new.items ≡ rules_in rules.old.items ++ rule_of (needed needs.entry) (meant gives.entry) ∷ []) }
{
    rules.push(Rule { needs, gives })?;
    Ok(())
}

/// Puts a rule behind the others that needs only that the default toolchain's build configuration is done.
pub(crate) fn put_first<'a>(rules: &mut Vec<Rule<'a>>, gives: Mention<'a>) -> Result<(), AllocError>
    ensures { OnOk result (rules_in rules.new.items ≡ rules_in rules.old.items ++ rule_of (Set_up [] ∷ []) (meant gives.entry) ∷ []) }
{
    put(rules, Needs::One(Mention::SetUpFirst), gives)
}

/// Rules of a unit stand behind the others, each of which needs also that the unit is reached.
pub(crate) fn hang<'a>(
    unit: &'a UnitKey,
    rules: Vec<Rule<'a>>,
    done: &mut Vec<UnitRules<'a>>,
) -> Result<(), AllocError>
    ensures { OnOk result (unit_rules_in done.new.items ≡ unit_rules_in done.old.items ++ map (under (unit_of unit.now)) (rules_in rules.entry.items)) }
{
    done.push(UnitRules::Under(unit, rules))?;
    Ok(())
}
