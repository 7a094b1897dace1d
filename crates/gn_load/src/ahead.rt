// Loading by one seat, for which several threads execute build files ahead.

ghost use Rattle.std.specs.Prelude.{◌≡◌, ◌∷◌, ◌≤◌, [], List, ℕ, Some, IfOk, true};
ghost use Rattle.gn_outside.specs.Tree.{Tree};
ghost use Rattle.gn_outside.specs.Lists.{AllDiffer};
ghost use Rattle.gn_outside.specs.States.{SourceState};
ghost use Rattle.gn_core.specs.Machine.{read_limit};
ghost use Rattle.gn_book.specs.Keys.{key_of};
ghost use Rattle.gn_book.specs.Graphs.{is_unit};
ghost use Rattle.gn_core.specs.Layered.{IsPart};
ghost use Rattle.gn_book.specs.Logs.{state_of};
ghost use Rattle.gn_builds.specs.Driving.{files_begun};
ghost use Rattle.gn_prepared.specs.Copies.{answers_of};
ghost use Rattle.gn_builds.specs.Rest.{Rests, ReachesFew, ReadsAsked};
ghost use Rattle.gn_bases.specs.Setups.{given_base};
ghost use Rattle.gn_load.specs.Turns.{known_paths};
ghost use Rattle.gn_load.specs.Ahead.{GoesAhead};
ghost use Rattle.gn_load.specs.Ends.{IsEndOf, CountsEnd};
ghost use Rattle.gn_load.specs.Plain.{Agrees, AreNumbered, IsLoad};
ghost use Rattle.gn_projects.specs.Errors.{too_large as too_large_fault};
ghost use Rattle.gn_load.specs.Rounds.{LoadsNext, IsDriveAhead, IsEndAhead};

use crate::driver::{Driver, Stop, finish};
use crate::plain::{LoadEnd, Plain, end_or_memory, ended, start, stopped, take_up};
use crate::round::{Ahead, may_read};
use crate::stage::look_ahead;
use gn_bases::{Known, Setup};
use gn_beside::threads_beside;
use gn_book::Claim;
use gn_builds::only_what_is_asked_is_loaded;
use gn_judging::too_large;
use gn_outside::Source;
use gn_prepared::Copies;
use gn_unit::Base;
use std::alloc::{AllocError, Global};
use std::thread::Threads;

// Loads a unit, and others that were executed ahead.
fn load_next<R: Threads + Sync, S: Source>(
    rt: &R,
    alloc: Global,
    driver: &mut Driver,
    claim: Claim,
    source: &mut S,
    units: &mut u64,
    ahead: &mut Ahead,
    copies: &mut Copies,
) -> Result<(), Stop>
    requires goes { (known : List (List ℕ)) × (before : SourceState) × GoesAhead known before (S.state source.old) driver.old (claim ∷ []) ahead.old.total }
    requires waiting { driver.old.waiting.items ≡ [] }
    requires unit { is_unit (key_of claim.key) ≡ true }
    requires numbered { AreNumbered driver.old.book }
    requires counted { units.old ≡ files_begun driver.old.book }
    requires copied { IsPart (answers_of copies.old) (state_of driver.old.book).filed }
    ensures { (known : List (List ℕ)) (before : SourceState) → GoesAhead known before (S.state source.old) driver.old (claim ∷ []) ahead.old.total →
        LoadsNext known before (S.state source.new) driver.old driver.new units.new ahead.new.total copies.new result }
{
    finish(alloc, driver, claim, source)?;
    look_ahead(rt, alloc, driver, source, units, ahead, copies)
}

// Loads all that is reached, and counts the build files.
fn drive<R: Threads + Sync, S: Source>(
    rt: &R,
    alloc: Global,
    driver: &mut Driver,
    source: &mut S,
    units: &mut u64,
    ahead: &mut Ahead,
    copies: &mut Copies,
) -> Result<(), Stop>
    requires goes { (known : List (List ℕ)) × (before : SourceState) × GoesAhead known before (S.state source.old) driver.old [] ahead.old.total }
    requires waiting { driver.old.waiting.items ≡ [] }
    requires counted { units.old ≡ files_begun driver.old.book }
    requires copied { IsPart (answers_of copies.old) (state_of driver.old.book).filed }
    ensures { (known : List (List ℕ)) (before : SourceState) → GoesAhead known before (S.state source.old) driver.old [] ahead.old.total →
        IsDriveAhead known before (S.state source.new) driver.old driver.new units.new ahead.new.total result }
{
    let mut next = take_up(alloc, driver, units)?;
    'units: while let Some(claim) = next {
        load_next(rt, alloc, driver, claim, source, units, ahead, copies)?;
        next = take_up(alloc, driver, units)?;
    }
    Ok(())
}

// The end of a build that is too large.
fn large_end(alloc: Global, _driver: Driver) -> LoadEnd
    ensures { result ≡ LoadEnd.Wrong too_large_fault }
{
    LoadEnd::Wrong(too_large(alloc))
}

// The end of loading where all is loaded: a build is too large for which more files were read than a build may ask for.
fn ended_ahead(alloc: Global, driver: Driver, total: usize) -> Result<LoadEnd, AllocError>
    requires rest { Rests driver.base.start driver.book }
    requires few { ReachesFew driver.book }
    requires total { total ≤ read_limit }
    ensures { IfOk result (IsEndAhead driver total) }
{
    if may_read(total, driver.reads) {
        ended(alloc, driver)
    } else {
        Ok(large_end(alloc, driver))
    }
}

// Loads the build of a source.
fn load<R: Threads + Sync, S: Source>(
    rt: &R,
    alloc: Global,
    base: Base,
    known: Known,
    source: &mut S,
    units: &mut u64,
) -> Result<LoadEnd, AllocError>
    requires known { (tree : Tree) → (S.state source.old).tree ≡ Some tree → Agrees known.entries tree }
    requires differ { AllDiffer (known_paths known.entries) }
    requires units { units.old ≡ 0 }
    ensures { IsLoad base (known_paths known.entries) (S.state source.old) (S.state source.new) units.new result }
{
    only_what_is_asked_is_loaded();
    let mut driver = start(alloc, base, known)?;
    let mut ahead = Ahead {
        seen: 0,
        total: 0,
        threads: threads_beside(rt),
    };
    let mut copies = Copies::new(alloc);
    match drive(
        rt,
        alloc,
        &mut driver,
        source,
        units,
        &mut ahead,
        &mut copies,
    ) {
        Ok(()) => ended_ahead(alloc, driver, ahead.total),
        Err(stop) => Ok(stopped(alloc, stop)),
    }
}

// Loads the build of a setup.
fn load_setup<R: Threads + Sync, S: Source>(
    rt: &R,
    alloc: Global,
    setup: &Setup,
    source: &mut S,
    units: &mut u64,
) -> Result<LoadEnd, AllocError>
    requires known { (tree : Tree) → (S.state source.old).tree ≡ Some tree → Agrees setup.now.known.entries tree }
    requires units { units.old ≡ 0 }
    ensures { IsLoad (given_base setup.now) (known_paths setup.now.known.entries) (S.state source.old) (S.state source.new) units.new result }
{
    only_what_is_asked_is_loaded();
    let known = setup.share_known(alloc)?;
    let base = setup.base(alloc)?;
    load(rt, alloc, base, known, source, units)
}

/// Loads a build as `load_plain` does. Where many build files may be claimed, they are read ahead, and several threads execute them
/// over what is filed then, while this one loads those that were executed before; what they leave is filed once they are claimed. The
/// end is the same, and so are the clauses.
pub fn load_ahead<R: Threads + Sync, S: Source>(
    rt: &R,
    alloc: Global,
    setup: &Setup,
    source: &mut S,
) -> Plain
    requires known { (tree : Tree) → (S.state source.old).tree ≡ Some tree → Agrees setup.now.known.entries tree }
    ensures end { (tree : Tree) → (S.state source.old).tree ≡ Some tree → IsEndOf (given_base setup.now) (known_paths setup.now.known.entries) tree result.end result.units }
    ensures reads { ReadsAsked (given_base setup.now) (known_paths setup.now.known.entries) (S.state source.old) (S.state source.new) }
    ensures faults { CountsEnd (S.state source.old) (S.state source.new) result.end }
{
    let mut units = 0;
    let loaded = load_setup(rt, alloc, setup, source, &mut units);
    let end = end_or_memory(loaded);
    Plain { end, units }
}
