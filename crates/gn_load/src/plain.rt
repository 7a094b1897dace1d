// Loading a build by one seat.

ghost use Rattle.std.specs.Prelude.{◌≡◌, [], List, ℕ, Some, IfOk, false};
ghost use Rattle.gn_outside.specs.Tree.{Tree};
ghost use Rattle.gn_outside.specs.Lists.{AllDiffer};
ghost use Rattle.gn_outside.specs.States.{SourceState};
ghost use Rattle.gn_executions.specs.Base.{BaseState};
ghost use Rattle.gn_book.specs.Keys.{key_of};
ghost use Rattle.gn_book.specs.Graphs.{UnitsHaveNumbers};
ghost use Rattle.gn_book.specs.Next.{IsReadyNumber};
ghost use Rattle.gn_builds.specs.Driving.{files_begun, one_if};
ghost use Rattle.gn_projects.specs.Loaded.{is_build_file};
ghost use Rattle.gn_builds.specs.Rest.{Rests, ReachesFew, ReadsAsked};
ghost use Rattle.gn_load.specs.Turns.{known_paths, Goes};
ghost use Rattle.gn_bases.specs.Setups.{given_base};
ghost use Rattle.gn_load.specs.Ends.{IsEndOf, CountsEnd};
ghost use Rattle.gn_load.specs.Plain.{Agrees, IsStarted, NumbersUnits, ClaimsUnit, TakesUp, IsDrive, AreWhole, EndsBy, IsEndAt, IsStopped, IsLoad, end_or_memory};

use crate::current::CurrentBase;
use crate::driver::{Driver, Stop, finish};
use gn_bases::{Known, Setup};
use gn_book::{Book, Claim, KeyId, Next};
use gn_builds::{only_what_is_asked_is_loaded, rest_is_the_build};
use gn_built::Built;
use gn_faults::Fault;
use gn_items::Key;
use gn_judging::{Judged, judge, too_large};
use gn_outside::Source;
use gn_paths::Path;
use gn_unit::Base;
use std::alloc::{AllocError, Global};
use std::collections::VecDeque;

/// How the loading of a build has ended.
#[derive(Drop)]
pub enum LoadEnd {
    /// All was loaded.
    Built(Built),
    /// The least error of the build.
    Wrong(Fault),
    /// The read of the file at this path has failed.
    Failed(Path),
    /// Want of memory.
    Memory,
}

/// How the loading of a build has ended, and how many build files were claimed.
#[derive(Drop)]
pub struct Plain {
    /// How it has ended.
    pub end: LoadEnd,
    /// How many build files were claimed.
    pub units: u64,
}

/// Before anything is claimed.
pub(crate) fn start(alloc: Global, base: Base, known: Known) -> Result<Driver, AllocError>
    ensures { IfOk result (IsStarted base known.entries) }
{
    let base = CurrentBase::new(alloc, base)?;
    let book = Book::new(alloc, 1)?;
    Ok(Driver {
        base,
        book,
        waiting: VecDeque::new(alloc),
        known,
        reads: 0,
    })
}

// How many build files a key names.
fn file_count(key: &Key) -> u64
    ensures { result ≡ one_if (is_build_file (key_of key.now)) }
{
    match key {
        Key::Load(..) => 1,
        Key::Read(_) => 0,
        Key::Import(..) => 0,
        Key::Setup(_) => 0,
        Key::Resolve(_) => 0,
    }
}

/// The units that are reached get numbers, unless more are reached than in a build may be.
pub(crate) fn number_units(driver: &mut Driver) -> Result<(), Stop>
    ensures { (known : List (List ℕ)) (before now : SourceState) → Goes known before now driver.old [] → NumbersUnits known before now driver.old driver.new result }
{
    driver.book.number_reached()?;
    driver.book.keys_differ();
    if driver.book.reaches_too_many() {
        Err(Stop::TooLarge)
    } else {
        Ok(())
    }
}

/// The seat, which has no claim, claims a unit that is ready. Build files are counted.
pub(crate) fn claim_unit(
    alloc: Global,
    driver: &mut Driver,
    number: KeyId,
    units: &mut u64,
) -> Result<Claim, AllocError>
    requires goes { (known : List (List ℕ)) × (before : SourceState) × (now : SourceState) × Goes known before now driver.old [] }
    requires numbers { UnitsHaveNumbers driver.old.book }
    requires few { ReachesFew driver.old.book }
    requires ready { IsReadyNumber driver.old.book number }
    requires counted { units.old ≡ files_begun driver.old.book }
    ensures { (known : List (List ℕ)) (before now : SourceState) → Goes known before now driver.old [] → ClaimsUnit known before now driver.old driver.new units.new result }
{
    let claim = driver.book.claim(0, number)?;
    *units += file_count(&claim.key);
    driver.base.turn_to_unit(alloc, &driver.book, &claim.key)?;
    Ok(claim)
}

/// The seat, which has no claim, takes up what comes next. Nothing comes where all is loaded.
pub(crate) fn take_up(
    alloc: Global,
    driver: &mut Driver,
    units: &mut u64,
) -> Result<Option<Claim>, Stop>
    requires goes { (known : List (List ℕ)) × (before : SourceState) × (now : SourceState) × Goes known before now driver.old [] }
    requires counted { units.old ≡ files_begun driver.old.book }
    ensures { (known : List (List ℕ)) (before now : SourceState) → Goes known before now driver.old [] → TakesUp known before now driver.old driver.new units.new result }
{
    number_units(driver)?;
    match driver.book.next(0) {
        Next::Work(number) => Ok(Some(claim_unit(alloc, driver, number, units)?)),
        Next::Quiet => Ok(None),
        Next::Later(..) => unreachable!(),
        Next::Stopped(_) => unreachable!(),
    }
}

// Loads all that is reached, and counts the build files.
fn drive<S: Source>(
    alloc: Global,
    driver: &mut Driver,
    source: &mut S,
    units: &mut u64,
) -> Result<(), Stop>
    requires goes { (known : List (List ℕ)) × (before : SourceState) × Goes known before (S.state source.old) driver.old [] }
    requires waiting { driver.old.waiting.items ≡ [] }
    requires counted { units.old ≡ files_begun driver.old.book }
    ensures { (known : List (List ℕ)) (before : SourceState) → Goes known before (S.state source.old) driver.old [] →
        IsDrive known before (S.state source.new) driver.old driver.new units.new result }
{
    let mut next = take_up(alloc, driver, units)?;
    'rounds: while let Some(claim) = next {
        finish(alloc, driver, claim, source)?;
        next = take_up(alloc, driver, units)?;
    }
    Ok(())
}

/// How loading has ended that was stopped.
pub(crate) fn stopped(alloc: Global, stop: Stop) -> LoadEnd
    ensures { IsStopped stop result }
{
    match stop {
        Stop::Failed(path) => LoadEnd::Failed(path),
        Stop::TooLarge => LoadEnd::Wrong(too_large(alloc)),
        Stop::Memory => LoadEnd::Memory,
    }
}

// Loading ends with the error of the build, and nothing of it is kept.
fn wrong_end(_driver: Driver, fault: Fault) -> LoadEnd
    ensures { result ≡ LoadEnd.Wrong fault }
{
    LoadEnd::Wrong(fault)
}

// The end of loading where all is loaded: the error of the build, if it has one, or else what was loaded.
fn end_by(driver: Driver, judged: Judged) -> LoadEnd
    requires { AreWhole driver.book judged }
    ensures { EndsBy driver.book judged result }
{
    match judged {
        Judged::Wrong(fault) => wrong_end(driver, fault),
        Judged::Right(parts) => LoadEnd::Built(Built::new(driver.book, parts)),
    }
}

/// The end of loading where all is loaded.
pub(crate) fn ended(alloc: Global, driver: Driver) -> Result<LoadEnd, AllocError>
    requires rest { Rests driver.base.start driver.book }
    requires few { ReachesFew driver.book }
    ensures { IfOk result (IsEndAt driver.book) }
{
    only_what_is_asked_is_loaded();
    rest_is_the_build();
    let judged = judge(alloc, &driver.book)?;
    Ok(end_by(driver, judged))
}

// Loads the build of a source.
fn load<S: Source>(
    alloc: Global,
    base: Base,
    known: Known,
    source: &mut S,
    units: &mut u64,
) -> Result<LoadEnd, AllocError>
    requires known { (tree : Tree) → (S.state source.old).tree ≡ Some tree → Agrees known.entries tree }
    requires differ { AllDiffer (known_paths known.entries) }
    requires units { units.old ≡ 0 }
    ensures { IsLoad base (known_paths known.entries) (S.state source.old) (S.state source.new) units.new result }
{
    only_what_is_asked_is_loaded();
    let mut driver = start(alloc, base, known)?;
    match drive(alloc, &mut driver, source, units) {
        Ok(()) => ended(alloc, driver),
        Err(stop) => Ok(stopped(alloc, stop)),
    }
}

// Loads the build of a setup.
fn load_setup<S: Source>(
    alloc: Global,
    setup: &Setup,
    source: &mut S,
    units: &mut u64,
) -> Result<LoadEnd, AllocError>
    requires known { (tree : Tree) → (S.state source.old).tree ≡ Some tree → Agrees setup.now.known.entries tree }
    requires units { units.old ≡ 0 }
    ensures { IsLoad (given_base setup.now) (known_paths setup.now.known.entries) (S.state source.old) (S.state source.new) units.new result }
{
    only_what_is_asked_is_loaded();
    let known = setup.share_known(alloc)?;
    let base = setup.base(alloc)?;
    load(alloc, base, known, source, units)
}

/// The end of loading, and want of memory where there is none.
pub(crate) fn end_or_memory(loaded: Result<LoadEnd, AllocError>) -> LoadEnd
    ensures { result ≡ end_or_memory loaded }
{
    match loaded {
        Ok(end) => end,
        Err(_) => LoadEnd::Memory,
    }
}

/// Loads a build by one seat: all units that are reached, those of each toolchain, by what is known before. What is
/// needed is read, each path once and none that was read before, and evaluated over what is filed. What was read before is what the source's tree
/// has there, where it tells one. `Built` has what the build leaves, `Wrong` the least error of the build; `Failed` comes exactly where the source's count of faults rose. It always returns.
pub fn load_plain<S: Source>(alloc: Global, setup: &Setup, source: &mut S) -> Plain
    requires known { (tree : Tree) → (S.state source.old).tree ≡ Some tree → Agrees setup.now.known.entries tree }
    ensures end { (tree : Tree) → (S.state source.old).tree ≡ Some tree → IsEndOf (given_base setup.now) (known_paths setup.now.known.entries) tree result.end result.units }
    ensures reads { ReadsAsked (given_base setup.now) (known_paths setup.now.known.entries) (S.state source.old) (S.state source.new) }
    ensures faults { CountsEnd (S.state source.old) (S.state source.new) result.end }
{
    let mut units = 0;
    let loaded = load_setup(alloc, setup, source, &mut units);
    let end = end_or_memory(loaded);
    Plain { end, units }
}
