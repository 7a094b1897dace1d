// The units of the graph as keys, and the answers of keys as those of units.

ghost use Rattle.std.specs.Prelude.{◌≡◌, ◌<◌, ◌≤◌, IfOk, OnOk, OnErr, Some, None, ◌↔◌, length, slice_get};
ghost use Rattle.gn_closure.specs.Closure.{In};
ghost use Rattle.gn_closure.specs.Reach.{Fact as Held, Holds};
ghost use Rattle.gn_closure.specs.Ground.{Holding};
ghost use Rattle.gn_core.specs.Keys.{Unit_of, unit_in};
ghost use Rattle.gn_graph.specs.Needs.{home};
ghost use Rattle.gn_graph.specs.Facts.{unit_of, step_of};
ghost use Rattle.gn_graph.specs.Numbers.{IsMore};
ghost use Rattle.gn_graph.specs.Replies.{units_in};
ghost use Rattle.gn_book.specs.Keys.{key_of};
ghost use Rattle.gn_book.specs.Graphs.{IsUnitOf, IsNew, Looked, with_told, with_answer, with_fact};
ghost use Rattle.gn_graph.specs.declared.unit_key.UnitKey.TheVariants as variant;

use crate::answer::{Answer, Mentions};
use crate::roster::Roster;
use gn_graph::{Fact, Graph, UnitKey};
use gn_items::Key;
use gn_paths::{Path, Text};
use std::alloc::{AllocError, Global};

fn setup_unit(alloc: Global, toolchain: &Text) -> Result<Option<UnitKey>, AllocError>
    ensures { IfOk result (λ unit. unit ≡ Some (variant.Setup toolchain.now)) }
{
    Ok(Some(UnitKey::Setup(toolchain.copy(alloc)?)))
}

fn load_unit(alloc: Global, dir: &Path, toolchain: &Text) -> Result<Option<UnitKey>, AllocError>
    ensures { IfOk result (λ unit. unit ≡ Some (variant.Load dir.now toolchain.now)) }
{
    let dir = dir.copy(alloc)?;
    let toolchain = toolchain.copy(alloc)?;
    Ok(Some(UnitKey::Load(dir, toolchain)))
}

// The unit that a key names, if it names one.
fn unit_of(alloc: Global, key: &Key) -> Result<Option<UnitKey>, AllocError>
    ensures { IfOk result (IsUnitOf (key_of key.now)) }
{
    match key {
        Key::Read(_) => Ok(None),
        Key::Import(..) => Ok(None),
        Key::Setup(toolchain) => setup_unit(alloc, toolchain),
        Key::Load(dir, toolchain) => load_unit(alloc, dir, toolchain),
        Key::Resolve(_) => Ok(None),
    }
}

fn setup_key(alloc: Global, toolchain: &Text) -> Result<Key, AllocError>
    ensures { IfOk result (λ key. key_of key ≡ Unit_of (unit_of (variant.Setup toolchain.now))) }
{
    Ok(Key::Setup(toolchain.copy(alloc)?))
}

fn load_key(alloc: Global, dir: &Path, toolchain: &Text) -> Result<Key, AllocError>
    ensures { IfOk result (λ key. key_of key ≡ Unit_of (unit_of (variant.Load dir.now toolchain.now))) }
{
    let dir = dir.copy(alloc)?;
    let toolchain = toolchain.copy(alloc)?;
    Ok(Key::Load(dir, toolchain))
}

// The key of a unit.
fn key_of_unit(alloc: Global, unit: &UnitKey) -> Result<Key, AllocError>
    ensures { IfOk result (λ key. key_of key ≡ Unit_of (unit_of unit.now)) }
{
    match unit {
        UnitKey::Setup(toolchain) => setup_key(alloc, toolchain),
        UnitKey::Load(dir, toolchain) => load_key(alloc, dir, toolchain),
    }
}

// The answer of a unit joins those of the graph, if it is the answer of one.
fn add_unit<A: Answer>(
    alloc: Global,
    graph: &mut Graph,
    unit: UnitKey,
    answer: &A,
) -> Result<(), AllocError>
    requires { units_in graph.old.replies (unit_of unit) ≡ None }
    ensures ok { OnOk result (graph.new.replies ≡ with_told graph.old.replies (unit_of unit) (unit_in (Some (A.meaning answer.now)))) }
    ensures found { OnOk result (IsMore graph.old.found graph.new.found) }
    ensures err { OnErr result (graph.new ≡ graph.old) }
{
    match answer.mentions(alloc) {
        Ok(Mentions::NoUnit) => {
            drop(unit);
            Ok(())
        }
        Ok(Mentions::Nothing) => graph.add_answer(unit, None),
        Ok(Mentions::Needs(needs)) => graph.add_answer(unit, Some(needs)),
        Err(error) => {
            drop(unit);
            Err(error)
        }
    }
}

// The answer of a key joins those of the graph, if the key is a unit. After want of memory nothing is changed.
pub(crate) fn add_answer<A: Answer>(
    alloc: Global,
    graph: &mut Graph,
    key: &Key,
    answer: &A,
) -> Result<(), AllocError>
    requires { IsNew graph.old.replies (key_of key.now) }
    ensures ok { OnOk result (graph.new.replies ≡ with_answer graph.old.replies (key_of key.now) (A.meaning answer.now)) }
    ensures found { OnOk result (IsMore graph.old.found graph.new.found) }
    ensures err { OnErr result (graph.new ≡ graph.old) }
{
    match unit_of(alloc, key)? {
        None => Ok(()),
        Some(unit) => add_unit(alloc, graph, unit, answer),
    }
}

// A unit gets a number, if a fact says that it is reached. After want of memory nothing is changed.
fn number_fact<A: Answer>(
    alloc: Global,
    roster: &mut Roster<A>,
    fact: &Fact,
) -> Result<(), AllocError>
    ensures ok { OnOk result (roster.new ≡ with_fact roster.old (step_of fact.now)) }
    ensures err { OnErr result (roster.new ≡ roster.old) }
{
    match fact {
        Fact::Reached(unit) => {
            let key = key_of_unit(alloc, unit)?;
            roster.number(key)?;
            Ok(())
        }
        _ => Ok(()),
    }
}

// The fact of a number, which there is.
fn fact_at(graph: &Graph, n: usize) -> &Fact
    requires { n < length graph.now.found }
    ensures { slice_get graph.now.found n ≡ Some (step_of result.now) }
{
    match graph.found(n) {
        Some(fact) => fact,
        None => unreachable!(),
    }
}

// The units that the graph reaches get numbers, by its facts from a place on.
pub(crate) fn number_facts<A: Answer>(
    alloc: Global,
    roster: &mut Roster<A>,
    graph: &Graph,
    seen: &mut usize,
) -> Result<(), AllocError>
    requires { seen.old ≤ length graph.now.found }
    ensures looked { Looked graph.now.found seen.old roster.old seen.new roster.new }
    ensures within { seen.new ≤ length graph.now.found }
    ensures all { OnOk result (seen.new ≡ length graph.now.found) }
    ensures whole { (f : Held) → In graph.now.found (Holding f) ↔ Holds home (units_in graph.now.replies) f }
{
    let end = graph.len();
    while *seen < end {
        number_fact(alloc, roster, fact_at(graph, *seen))?;
        *seen += 1;
    }
    Ok(())
}
