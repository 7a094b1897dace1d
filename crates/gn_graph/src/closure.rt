// Rules, and all that follows from them; rules that can't be added change nothing.

ghost use Rattle.std.specs.Prelude.{◌≡◌, [], ◌<◌, ◌^◌, OnOk, OnErr, length, slice_get, take};
ghost use Rattle.std.specs.Option.{option_map};
ghost use Rattle.gn_graph.specs.Facts.{unit_rules_in, step_of};
ghost use Rattle.gn_graph.specs.Numbers.{HasAdded};
ghost use Rattle.gn_graph.specs.States.{IsSound, Grown, TookIn, known_of};
ghost use Rattle.gn_graph.specs.Kept.{state_of};

use crate::clause::Clause;
use crate::consequences::consequences;
use crate::fact::Fact;
use crate::held::Held;
use crate::parts::{Parts, no_parts};
use crate::rule::UnitRules;
use crate::taking::take_units;
use std::alloc::{AllocError, Global};
use std::marker::Model;

// All that follows from the rules that wait is found.
fn follow_waiting(parts: &mut Parts, start: usize) -> Result<(), AllocError>
    requires sound { IsSound (state_of parts.old) start }
    ensures grown { Grown (state_of parts.old) (state_of parts.new) }
    ensures took { OnOk result (TookIn (length parts.new.held) (state_of parts.old) (state_of parts.new) []) }
{
    consequences(&parts.clauses, &mut parts.held, &parts.uses, start)
}

// Rules are taken in, and what follows from them is found. Numbers are listed on the way in a list that is lent.
fn take_in(
    alloc: Global,
    parts: &mut Parts,
    needs: &mut Vec<usize>,
    start: usize,
    rules: &[UnitRules<'_>],
) -> Result<(), AllocError>
    requires sound { IsSound (state_of parts.old) start }
    ensures grown { Grown (state_of parts.old) (state_of parts.new) }
    ensures took { OnOk result (TookIn (length parts.new.held) (state_of parts.old) (state_of parts.new) (unit_rules_in rules.now)) }
{
    take_units(alloc, parts, needs, start, rules)?;
    follow_waiting(parts, start)
}

// What was taken in is taken back.
fn take_back(clauses: &mut Vec<Clause>, held: &mut Held, kept: usize, start: usize)
    ensures clauses { clauses.new.items ≡ take kept clauses.old.items }
    ensures held { held.new ≡ take start held.old }
{
    clauses.truncate(kept);
    held.cut(start);
}

// Rules are taken in, and what follows from them is found; or nothing is changed but the numbers of facts.
fn take_or_leave(
    alloc: Global,
    parts: &mut Parts,
    needs: &mut Vec<usize>,
    rules: &[UnitRules<'_>],
) -> Result<(), AllocError>
    requires sound { IsSound (state_of parts.old) (length parts.old.held) }
    ensures sound { IsSound (state_of parts.new) (length parts.new.held) }
    ensures added { OnOk result (HasAdded (known_of (state_of parts.old)) (known_of (state_of parts.new)) (unit_rules_in rules.now)) }
    ensures err { OnErr result (known_of (state_of parts.new) ≡ known_of (state_of parts.old)) }
{
    let start = parts.held.len();
    let kept = parts.clauses.len();
    match take_in(alloc, parts, needs, start, rules) {
        Ok(()) => Ok(()),
        Err(error) => {
            take_back(&mut parts.clauses, &mut parts.held, kept, start);
            Err(error)
        }
    }
}

/// Rules, and all that follows from them. Of the rules those are kept that wait for a fact.
#[derive(Drop)]
pub(crate) struct Closure {
    alloc: Global,
    parts: Parts,
    // Numbers are listed here while a rule is taken in.
    needs: Vec<usize>,
}

impl Model for Closure {
    ghost use Rattle.std.specs.Prelude.{length};
    ghost use Rattle.gn_graph.specs.Numbers.{Known};
    ghost use Rattle.gn_graph.specs.States.{IsSound, known_of};
    ghost use Rattle.gn_graph.specs.Kept.{state_of};

    ghost Value = { Known };

    ghost view = { λ c. known_of (state_of c.parts) };

    ghost invariant = { λ c. IsSound (state_of c.parts) (length c.parts.held) };
}

impl Closure {
    /// No rules. It takes no memory.
    pub(crate) fn new(alloc: Global) -> Closure
        ensures { result ≡ record { waiting = []; found = [] } }
    {
        Closure {
            alloc,
            parts: no_parts(alloc),
            needs: Vec::new(alloc),
        }
    }

    /// More rules, and what follows. After want of memory nothing is changed.
    pub(crate) fn add(&mut self, rules: &[UnitRules<'_>]) -> Result<(), AllocError>
        ensures added { OnOk result (HasAdded self.old self.new (unit_rules_in rules.now)) }
        ensures err { OnErr result (self.new ≡ self.old) }
    {
        take_or_leave(self.alloc, &mut self.parts, &mut self.needs, rules)
    }

    /// How many facts follow. It takes no memory.
    pub(crate) fn len(&self) -> usize
        ensures len { result ≡ length self.now.found }
        ensures small { result < 2 ^ 63 }
    {
        self.parts.held.len()
    }

    /// The fact of a number among those that follow, in the order in which they were found.
    pub(crate) fn found(&self, n: usize) -> Option<&Fact>
        ensures fact { option_map (λ fact. step_of fact.now) result ≡ slice_get self.now.found n }
    {
        match self.parts.held.get(n) {
            None => None,
            Some(fact) => self.parts.facts.get_index(fact),
        }
    }
}
