// Stages of looking ahead: several threads execute build files that were read, while this one loads others that were executed before,
// and reads the files of the next ones.

ghost use Rattle.std.specs.Prelude.{◌≡◌, [], ℕ, List, Ok, IfOk, IfErr};
ghost use Rattle.gn_outside.specs.Lists.{Each};
ghost use Rattle.gn_outside.specs.States.{SourceState};
ghost use Rattle.gn_core.specs.Keys.{Filed as Answers};
ghost use Rattle.gn_core.specs.Layered.{IsPart};
ghost use Rattle.gn_book.specs.Logs.{state_of};
ghost use Rattle.gn_builds.specs.Driving.{files_begun};
ghost use Rattle.gn_prepared.specs.Copies.{answers_of};
ghost use Rattle.gn_prepared.specs.Prepared.{ArePrepared};
ghost use Rattle.gn_load.specs.Current.{base_now};
ghost use Rattle.gn_load.specs.Turns.{Goes};
ghost use Rattle.gn_load.specs.Ahead.{GoesAhead};
ghost use Rattle.gn_load.specs.Executed.{IsExecutedOver};
ghost use Rattle.gn_load.specs.Rounds.{IsWanted, WillBeRight, LoadsMore, LoadsAndFinds, AreUnderway, GivesStop, GoesStage, LooksAhead};
ghost use Rattle.gn_load.specs.declared.current.CurrentBase.{CurrentBase};

use crate::current::SharedBase;
use crate::driver::{Driver, Stop};
use crate::executed::all_ready;
use crate::found::Found;
use crate::ready::Ready;
use crate::round::{Ahead, find_next, load_all};
use gn_answers::Filed;
use gn_outside::Source;
use gn_prepared::{Copies, Wanted, copies_have_no_units, prepare_beside};
use gn_unit::Base;
use std::alloc::{AllocError, Global};
use std::collections::VecDeque;
use std::thread::Threads;

/// Build files that are underway: those whose files were read, and those that were executed.
#[derive(Drop)]
pub(crate) struct Underway {
    /// Those whose files were read.
    pub(crate) found: Found,
    /// Those that were executed.
    pub(crate) ready: VecDeque<Ready>,
}

// Build files that were executed ahead are loaded, and the files of the next ones are read.
fn load_and_find<S: Source>(
    alloc: Global,
    driver: &mut Driver,
    source: &mut S,
    units: &mut u64,
    ahead: &mut Ahead,
    ready: &mut VecDeque<Ready>,
) -> Result<Found, Stop>
    requires goes { (known : List (List ℕ)) × (before : SourceState) × GoesAhead known before (S.state source.old) driver.old [] ahead.old.total }
    requires waiting { driver.old.waiting.items ≡ [] }
    requires counted { units.old ≡ files_begun driver.old.book }
    requires right { Each (WillBeRight driver.old.base.start (state_of driver.old.book).filed) ready.old.items }
    ensures { (known : List (List ℕ)) (before : SourceState) → GoesAhead known before (S.state source.old) driver.old [] ahead.old.total →
        LoadsAndFinds known before (S.state source.new) driver.old driver.new units.new ahead.new.total result }
{
    load_all(alloc, driver, source, units, ready)?;
    find_next(alloc, driver, source, ahead)
}

// Several threads execute build files over copies of what is filed, while this one loads others that were executed before, and reads
// the files of the next ones.
fn execute_beside<R: Threads + Sync, S: Source>(
    rt: &R,
    alloc: Global,
    driver: &mut Driver,
    source: &mut S,
    units: &mut u64,
    ahead: &mut Ahead,
    base: &Base,
    copies: &Copies,
    wanted: &[Wanted],
    ready: &mut VecDeque<Ready>,
) -> (Result<Vec<Option<Filed>>, AllocError>, Result<Found, Stop>)
    requires goes { (known : List (List ℕ)) × (before : SourceState) × GoesAhead known before (S.state source.old) driver.old [] ahead.old.total }
    requires waiting { driver.old.waiting.items ≡ [] }
    requires counted { units.old ≡ files_begun driver.old.book }
    requires right { Each (WillBeRight driver.old.base.start (state_of driver.old.book).filed) ready.old.items }
    ensures prepared { IfOk result.0 (λ prepared. ArePrepared base.now (answers_of copies.now) wanted.now prepared.items) }
    ensures loaded { (known : List (List ℕ)) (before : SourceState) → GoesAhead known before (S.state source.old) driver.old [] ahead.old.total →
        LoadsAndFinds known before (S.state source.new) driver.old driver.new units.new ahead.new.total result.1 }
{
    let threads = ahead.threads;
    let mut loading = || -> Result<Found, Stop>
        requires goes { (known : List (List ℕ)) × (before : SourceState) × GoesAhead known before (S.state source.now) driver.now [] ahead.now.total }
        requires waiting { driver.now.waiting.items ≡ [] }
        requires counted { units.now ≡ files_begun driver.now.book }
        requires right { Each (WillBeRight driver.now.base.start (state_of driver.now.book).filed) ready.now.items }
        ensures { (known : List (List ℕ)) (before : SourceState) → GoesAhead known before (S.state source.entry.now) driver.entry.now [] ahead.entry.now.total →
            LoadsAndFinds known before (S.state source.exit.now) driver.entry.now driver.exit.now units.exit.now ahead.exit.now.total result }
    { load_and_find(alloc, driver, source, units, ahead, ready) };
    prepare_beside(rt, alloc, threads, base, copies, wanted, &mut loading)
}

// What is underway, where there is memory for what was executed.
fn underway_of(found: Found, ready: Result<VecDeque<Ready>, AllocError>) -> Result<Underway, Stop>
    ensures ok { IfOk result (λ files. (files.found ≡ found) × (ready ≡ Ok files.ready)) }
    ensures err { IfErr result (λ stop. stop ≡ Stop.Memory) }
{
    match ready {
        Ok(ready) => Ok(Underway { found, ready }),
        Err(_) => {
            drop(found);
            Err(Stop::Memory)
        }
    }
}

// What is underway after a stage: the build files that were read meanwhile, and what those leave that were executed.
fn joined(
    alloc: Global,
    found: Found,
    answers: Result<Vec<Option<Filed>>, AllocError>,
    next: Result<Found, Stop>,
) -> Result<Underway, Stop>
    ensures next { IfOk result (λ files. next ≡ Ok files.found) }
    ensures ready { IfOk result (λ files. (b : CurrentBase) (part filed : Answers) → IsExecutedOver b part filed → Each (IsWanted b) found.wanted.items →
        IfOk answers (λ a. ArePrepared (base_now b) part found.wanted.items a.items) → Each (WillBeRight b.start filed) files.ready.items) }
    ensures err { IfErr result (GivesStop next) }
{
    match next {
        Ok(next) => match answers {
            Ok(answers) => underway_of(next, all_ready(alloc, found, answers)),
            Err(_) => {
                drop(found);
                drop(next);
                Err(Stop::Memory)
            }
        },
        Err(stop) => {
            drop(found);
            drop(answers);
            Err(stop)
        }
    }
}

// What build files are executed over: the base, and copies of what is filed.
fn share(alloc: Global, driver: &Driver, copies: &mut Copies) -> Result<SharedBase, AllocError>
    ensures base { IfOk result (λ base. base ≡ base_now driver.now.base) }
    ensures copied { IsPart (answers_of copies.old) (state_of driver.now.book).filed → IsPart (answers_of copies.new) (state_of driver.now.book).filed }
{
    copies.extend(alloc, &driver.book)?;
    driver.base.share()
}

// A stage over a base and copies of what is filed.
fn stage_over<R: Threads + Sync, S: Source>(
    rt: &R,
    alloc: Global,
    driver: &mut Driver,
    source: &mut S,
    units: &mut u64,
    ahead: &mut Ahead,
    base: &Base,
    copies: &Copies,
    underway: Underway,
) -> Result<Underway, Stop>
    requires goes { (known : List (List ℕ)) × (before : SourceState) × GoesAhead known before (S.state source.old) driver.old [] ahead.old.total }
    requires waiting { driver.old.waiting.items ≡ [] }
    requires counted { units.old ≡ files_begun driver.old.book }
    requires base { base.now ≡ base_now driver.old.base }
    requires copied { IsPart (answers_of copies.now) (state_of driver.old.book).filed }
    requires underway { AreUnderway driver.old underway }
    ensures { (known : List (List ℕ)) (before : SourceState) → GoesAhead known before (S.state source.old) driver.old [] ahead.old.total →
        GoesStage known before (S.state source.new) driver.old driver.new units.new ahead.new.total copies.now result }
{
    copies_have_no_units();
    let Underway { found, ready } = underway;
    let mut ready = ready;
    let (answers, next) = execute_beside(
        rt,
        alloc,
        driver,
        source,
        units,
        ahead,
        base,
        copies,
        &found.wanted,
        &mut ready,
    );
    drop(ready);
    joined(alloc, found, answers, next)
}

// Build files that were read are executed, while those are loaded that were executed before, and the files of the next ones are read.
fn stage<R: Threads + Sync, S: Source>(
    rt: &R,
    alloc: Global,
    driver: &mut Driver,
    source: &mut S,
    units: &mut u64,
    ahead: &mut Ahead,
    copies: &mut Copies,
    underway: Underway,
) -> Result<Underway, Stop>
    requires goes { (known : List (List ℕ)) × (before : SourceState) × GoesAhead known before (S.state source.old) driver.old [] ahead.old.total }
    requires waiting { driver.old.waiting.items ≡ [] }
    requires counted { units.old ≡ files_begun driver.old.book }
    requires copied { IsPart (answers_of copies.old) (state_of driver.old.book).filed }
    requires underway { AreUnderway driver.old underway }
    ensures { (known : List (List ℕ)) (before : SourceState) → GoesAhead known before (S.state source.old) driver.old [] ahead.old.total →
        GoesStage known before (S.state source.new) driver.old driver.new units.new ahead.new.total copies.new result }
{
    match share(alloc, driver, copies) {
        Ok(shared) => stage_over(
            rt,
            alloc,
            driver,
            source,
            units,
            ahead,
            shared.base(),
            copies,
            underway,
        ),
        Err(_) => {
            drop(underway);
            Err(Stop::Memory)
        }
    }
}

// The last build files that were executed are loaded.
fn load_last<S: Source>(
    alloc: Global,
    driver: &mut Driver,
    source: &mut S,
    units: &mut u64,
    underway: Underway,
) -> Result<(), Stop>
    requires goes { (known : List (List ℕ)) × (before : SourceState) × Goes known before (S.state source.old) driver.old [] }
    requires waiting { driver.old.waiting.items ≡ [] }
    requires counted { units.old ≡ files_begun driver.old.book }
    requires underway { AreUnderway driver.old underway }
    ensures { (known : List (List ℕ)) (before : SourceState) → Goes known before (S.state source.old) driver.old [] →
        LoadsMore known before (S.state source.new) driver.old driver.new units.new result }
{
    let Underway { found, ready } = underway;
    drop(found);
    let mut ready = ready;
    load_all(alloc, driver, source, units, &mut ready)
}

// Stages follow one another for as long as there are next build files to be read.
fn stages<R: Threads + Sync, S: Source>(
    rt: &R,
    alloc: Global,
    driver: &mut Driver,
    source: &mut S,
    units: &mut u64,
    ahead: &mut Ahead,
    copies: &mut Copies,
) -> Result<(), Stop>
    requires goes { (known : List (List ℕ)) × (before : SourceState) × GoesAhead known before (S.state source.old) driver.old [] ahead.old.total }
    requires waiting { driver.old.waiting.items ≡ [] }
    requires counted { units.old ≡ files_begun driver.old.book }
    requires copied { IsPart (answers_of copies.old) (state_of driver.old.book).filed }
    ensures { (known : List (List ℕ)) (before : SourceState) → GoesAhead known before (S.state source.old) driver.old [] ahead.old.total →
        LooksAhead known before (S.state source.new) driver.old driver.new units.new ahead.new.total copies.new result }
{
    let mut from = ahead.seen;
    let found = find_next(alloc, driver, source, ahead)?;
    let mut underway = Underway {
        found,
        ready: VecDeque::new(alloc),
    };
    'stages: while from < ahead.seen {
        from = ahead.seen;
        underway = stage(rt, alloc, driver, source, units, ahead, copies, underway)?;
    }
    load_last(alloc, driver, source, units, underway)
}

/// Where many keys have got numbers since this was done last, the build files among them that may be claimed are read ahead, several
/// threads execute them, and they are loaded: all this side by side, and until no more are found.
pub(crate) fn look_ahead<R: Threads + Sync, S: Source>(
    rt: &R,
    alloc: Global,
    driver: &mut Driver,
    source: &mut S,
    units: &mut u64,
    ahead: &mut Ahead,
    copies: &mut Copies,
) -> Result<(), Stop>
    requires goes { (known : List (List ℕ)) × (before : SourceState) × GoesAhead known before (S.state source.old) driver.old [] ahead.old.total }
    requires waiting { driver.old.waiting.items ≡ [] }
    requires counted { units.old ≡ files_begun driver.old.book }
    requires copied { IsPart (answers_of copies.old) (state_of driver.old.book).filed }
    ensures { (known : List (List ℕ)) (before : SourceState) → GoesAhead known before (S.state source.old) driver.old [] ahead.old.total →
        LooksAhead known before (S.state source.new) driver.old driver.new units.new ahead.new.total copies.new result }
{
    let mut from = ahead.seen;
    stages(rt, alloc, driver, source, units, ahead, copies)?;
    'more: while from < ahead.seen {
        from = ahead.seen;
        stages(rt, alloc, driver, source, units, ahead, copies)?;
    }
    Ok(())
}
