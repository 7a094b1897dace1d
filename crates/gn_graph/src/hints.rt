// The numbers of facts that were named before.

ghost use Rattle.std.specs.Prelude.{◌≡◌, [], IsTrue, IfSome, Some, slice_get};
ghost use Rattle.gn_graph.specs.Facts.{step_of, unit_of, meant, steps_in};
ghost use Rattle.gn_closure.specs.Reach.{Load, label};
ghost use Rattle.gn_closure.specs.Ground.{Asked, Used, Set_up};
ghost use Rattle.gn_closure.specs.Computed.{is_reached, is_wanted, is_generated};

use crate::fact::{Fact, Mention, Place};
use crate::unit_key::UnitKey;
use gn_labels::Label;
use gn_paths::{Path, Text};
use indexmap::IndexSet;
use std::alloc::{AllocError, Global};
use std::hash::{FoldHasher, Hasher};

/// Numbers of facts that were named, each at a place that the texts of its fact choose: rules name the same facts again and again. Any
/// number may stand at a place, since whoever takes one looks at the fact that has it.
#[derive(Drop)]
pub(crate) struct Hints {
    numbers: Vec<usize>,
}

// A number that two texts choose.
fn mixed(first: &[u8], second: &[u8]) -> u64 {
    let mut hasher = FoldHasher::default();
    hasher.write(first);
    hasher.write(second);
    hasher.finish()
}

fn mixed_unit(unit: &UnitKey) -> u64 {
    match unit {
        UnitKey::Setup(toolchain) => mixed(toolchain.as_bytes(), &[]),
        UnitKey::Load(dir, toolchain) => mixed(dir.as_bytes(), toolchain.as_bytes()),
    }
}

/// A number that the fact that is named chooses, mostly another one than other facts do.
pub(crate) fn mixed_fact(mention: Mention<'_>) -> u64 {
    match mention {
        Mention::Reached(unit) => mixed_unit(unit),
        Mention::ReachedLoad(Place::Dir(dir), toolchain) => {
            mixed(dir.as_bytes(), toolchain.as_bytes())
        }
        Mention::Wanted(Place::Dir(dir), toolchain) => {
            mixed(dir.as_bytes(), toolchain.as_bytes()) ^ 1
        }
        Mention::Generated(dir, name, _) => mixed(name.as_bytes(), dir.as_bytes()),
        Mention::Asked(label) => mixed(label.name.as_bytes(), label.dir.as_bytes()) ^ 1,
        Mention::AskedFor(dir, name, _) => mixed(name.as_bytes(), dir.as_bytes()) ^ 1,
        Mention::Used(toolchain) => mixed(toolchain.as_bytes(), &[]) ^ 1,
        _ => 0,
    }
}

impl Hints {
    /// Nothing was named. It takes no memory.
    pub(crate) fn new(alloc: Global) -> Hints {
        Hints {
            numbers: Vec::new(alloc),
        }
    }

    // The place of a fact that chooses a number.
    fn place(&self, mixed: u64) -> usize {
        mixed as usize & self.numbers.len().saturating_sub(1)
    }

    /// There is a place for each of so many facts, as far as they choose places of their own.
    pub(crate) fn make_room(&mut self, facts: usize) -> Result<(), AllocError> {
        if facts < self.numbers.len() / 2 {
            return Ok(());
        }
        self.numbers.resize((2 * self.numbers.len()).max(64), 0)
    }

    /// The fact that chooses a number has this number.
    pub(crate) fn note(&mut self, mixed: u64, number: usize) {
        let place = self.place(mixed);
        if place < self.numbers.len() {
            self.numbers[place] = number;
        }
    }
}

fn reaches(fact: &Fact, unit: &UnitKey) -> bool
    ensures { IsTrue result → step_of fact.now ≡ is_reached (unit_of unit.now) }
{
    match fact {
        Fact::Reached(own) => own == unit,
        _ => false,
    }
}

fn reaches_load(fact: &Fact, dir: &Path, toolchain: &Text) -> bool
    ensures { IsTrue result → step_of fact.now ≡ is_reached (Load dir.now toolchain.now) }
{
    match fact {
        Fact::Reached(UnitKey::Load(own, its)) => own == dir && its == toolchain,
        _ => false,
    }
}

fn wants(fact: &Fact, dir: &Path, toolchain: &Text) -> bool
    ensures { IsTrue result → step_of fact.now ≡ is_wanted dir.now toolchain.now }
{
    match fact {
        Fact::Wanted(own, its) => own == dir && its == toolchain,
        _ => false,
    }
}

fn generates(fact: &Fact, dir: &Path, name: &Text, toolchain: &Text) -> bool
    ensures { IsTrue result → step_of fact.now ≡ is_generated (label dir.now name.now toolchain.now) }
{
    match fact {
        Fact::Generated(own) => own.name == *name && own.dir == *dir && own.toolchain == *toolchain,
        _ => false,
    }
}

fn uses(fact: &Fact, toolchain: &Text) -> bool
    ensures { IsTrue result → step_of fact.now ≡ Used toolchain.now }
{
    match fact {
        Fact::Used(own) => own == toolchain,
        _ => false,
    }
}

fn asks(fact: &Fact, label: &Label) -> bool
    ensures { IsTrue result → step_of fact.now ≡ Asked label.now }
{
    match fact {
        Fact::Asked(own) => own == label,
        _ => false,
    }
}

fn asks_for(fact: &Fact, dir: &Path, name: &Text, toolchain: &Text) -> bool
    ensures { IsTrue result → step_of fact.now ≡ Asked (label dir.now name.now toolchain.now) }
{
    match fact {
        Fact::Asked(own) => own.name == *name && own.dir == *dir && own.toolchain == *toolchain,
        _ => false,
    }
}

fn sets_up_first(fact: &Fact) -> bool
    ensures { IsTrue result → step_of fact.now ≡ Set_up [] }
{
    match fact {
        Fact::SetUp(own) => own.is_empty(),
        _ => false,
    }
}

// Whether the fact is seen to be the one that is named, without a directory being made.
fn is_named(fact: &Fact, mention: Mention<'_>) -> bool
    ensures { IsTrue result → step_of fact.now ≡ meant mention.entry }
{
    match mention {
        Mention::Reached(unit) => reaches(fact, unit),
        Mention::ReachedLoad(Place::Dir(dir), toolchain) => reaches_load(fact, dir, toolchain),
        Mention::Wanted(Place::Dir(dir), toolchain) => wants(fact, dir, toolchain),
        Mention::Generated(dir, name, toolchain) => generates(fact, dir, name, toolchain),
        Mention::Asked(label) => asks(fact, label),
        Mention::AskedFor(dir, name, toolchain) => asks_for(fact, dir, name, toolchain),
        Mention::Used(toolchain) => uses(fact, toolchain),
        Mention::SetUpFirst => sets_up_first(fact),
        _ => false,
    }
}

// The number, where the fact that is named has it.
fn checked(facts: &IndexSet<Fact>, number: usize, mention: Mention<'_>) -> Option<usize>
    ensures { IfSome result (λ n. slice_get (steps_in facts.now.keys) n ≡ Some (meant mention.entry)) }
{
    match facts.get_index(number) {
        Some(fact) => {
            if is_named(fact, mention) {
                Some(number)
            } else {
                None
            }
        }
        None => None,
    }
}

/// The number of the fact that is named, where it stands at the fact's place.
pub(crate) fn hinted(
    facts: &IndexSet<Fact>,
    hints: &Hints,
    mixed: u64,
    mention: Mention<'_>,
) -> Option<usize>
    ensures { IfSome result (λ n. slice_get (steps_in facts.now.keys) n ≡ Some (meant mention.entry)) }
{
    match hints.numbers.get(hints.place(mixed)) {
        Some(number) => checked(facts, *number, mention),
        None => None,
    }
}
