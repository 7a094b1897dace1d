// Rounds of looking ahead: which build files are read next, and how those are loaded that were executed.

ghost use Rattle.std.specs.Prelude.{◌≡◌, ◌+◌, ◌<◌, ◌≤◌, [], ℕ, List, true};
ghost use Rattle.std.specs.Bool.{OnTrue, OnFalse};
ghost use Rattle.gn_outside.specs.Lists.{Each};
ghost use Rattle.gn_outside.specs.States.{SourceState};
ghost use Rattle.gn_core.specs.Machine.{read_limit};
ghost use Rattle.gn_book.specs.Graphs.{UnitsHaveNumbers};
ghost use Rattle.gn_book.specs.Logs.{state_of};
ghost use Rattle.gn_builds.specs.Driving.{files_begun};
ghost use Rattle.gn_load.specs.Turns.{Goes};
ghost use Rattle.gn_load.specs.Ahead.{GoesAhead};
ghost use Rattle.gn_load.specs.Rounds.{WillBeRight, GivesOut, LoadsMore, FindsFiles, FindsNext};

use crate::driver::{Driver, MAX_PATHS, Stop};
use crate::found::{Found, find_from, is_open, no_files};
use crate::plain::{claim_unit, number_units};
use crate::ready::{Ready, finish_ready};
use gn_book::{Claim, KeyId};
use gn_outside::Source;
use std::alloc::Global;
use std::collections::VecDeque;

// From how many new keys on it is worth while to look ahead.
const LEAST_KEYS: usize = 16;

// The least and the most keys of a round, and which part of those that are new is one.
const LEAST_ROUND: usize = 64;

const MOST_ROUND: usize = 1024;

const PARTS: usize = 2;

/// How far was looked ahead, how many files were read before the reads of the driver began, and how many threads execute build files.
#[derive(Drop)]
pub(crate) struct Ahead {
    /// How many numbers were looked at.
    pub(crate) seen: KeyId,
    /// How many files were read, by the driver or ahead of it.
    pub(crate) total: usize,
    /// How many threads execute build files beside the one that loads.
    pub(crate) threads: usize,
}

// The seat, which has no claim, claims the build file of a number, if that has no answer yet.
fn take_number(
    alloc: Global,
    driver: &mut Driver,
    number: KeyId,
    units: &mut u64,
) -> Result<Option<Claim>, Stop>
    requires goes { (known : List (List ℕ)) × (before : SourceState) × (now : SourceState) × Goes known before now driver.old [] }
    requires counted { units.old ≡ files_begun driver.old.book }
    ensures { (known : List (List ℕ)) (before now : SourceState) → Goes known before now driver.old [] → GivesOut known before now driver.old driver.new units.new result }
{
    number_units(driver)?;
    if is_open(driver, number) {
        Ok(Some(claim_unit(alloc, driver, number, units)?))
    } else {
        Ok(None)
    }
}

// A build file that was executed ahead is loaded.
fn load_ready<S: Source>(
    alloc: Global,
    driver: &mut Driver,
    source: &mut S,
    units: &mut u64,
    ready: Ready,
) -> Result<(), Stop>
    requires goes { (known : List (List ℕ)) × (before : SourceState) × Goes known before (S.state source.old) driver.old [] }
    requires waiting { driver.old.waiting.items ≡ [] }
    requires counted { units.old ≡ files_begun driver.old.book }
    requires right { WillBeRight driver.old.base.start (state_of driver.old.book).filed ready }
    ensures { (known : List (List ℕ)) (before : SourceState) → Goes known before (S.state source.old) driver.old [] →
        LoadsMore known before (S.state source.new) driver.old driver.new units.new result }
{
    match take_number(alloc, driver, ready.number, units) {
        Ok(Some(claim)) => finish_ready(alloc, driver, claim, source, ready),
        Ok(None) => {
            drop(ready);
            Ok(())
        }
        Err(stop) => {
            drop(ready);
            Err(stop)
        }
    }
}

/// Build files that were executed ahead are loaded one by one.
pub(crate) fn load_all<S: Source>(
    alloc: Global,
    driver: &mut Driver,
    source: &mut S,
    units: &mut u64,
    all: &mut VecDeque<Ready>,
) -> Result<(), Stop>
    requires goes { (known : List (List ℕ)) × (before : SourceState) × Goes known before (S.state source.old) driver.old [] }
    requires waiting { driver.old.waiting.items ≡ [] }
    requires counted { units.old ≡ files_begun driver.old.book }
    requires right { Each (WillBeRight driver.old.base.start (state_of driver.old.book).filed) all.old.items }
    ensures { (known : List (List ℕ)) (before : SourceState) → Goes known before (S.state source.old) driver.old [] →
        LoadsMore known before (S.state source.new) driver.old driver.new units.new result }
{
    'files: while let Some(ready) = all.pop_front() {
        load_ready(alloc, driver, source, units, ready)?;
    }
    Ok(())
}

// The reads of the driver begin anew, and those so far are counted.
#[tactic(auto, unfolding(gn_core::specs::Machine::read_limit))]
fn count_reads(driver: &mut Driver, total: &mut usize)
    requires { total.old + driver.old.reads ≤ read_limit }
    ensures total { total.new ≡ total.old + driver.old.reads }
    ensures reads { driver.new.reads ≡ 0 }
    ensures base { driver.new.base ≡ driver.old.base }
    ensures book { driver.new.book ≡ driver.old.book }
    ensures waiting { driver.new.waiting ≡ driver.old.waiting }
    ensures known { driver.new.known ≡ driver.old.known }
{
    *total += driver.reads;
    driver.reads = 0;
}

/// Whether so many reads behind others are no more in all than a build may ask for.
#[tactic(auto, unfolding(gn_core::specs::Machine::read_limit))]
pub(crate) fn may_read(total: usize, reads: usize) -> bool
    requires { total ≤ read_limit }
    ensures few { OnTrue result (total + reads ≤ read_limit) }
    ensures many { OnFalse result (read_limit < total + reads) }
{
    reads <= MAX_PATHS - total
}

// Whether it is worth while to look ahead.
fn is_worth_while(driver: &Driver, ahead: &Ahead) -> bool
    requires { ahead.now.total ≤ read_limit }
    ensures { result ≡ true → ahead.now.total + driver.now.reads ≤ read_limit }
{
    driver.book.len().saturating_sub(ahead.seen) >= LEAST_KEYS
        && may_read(ahead.total, driver.reads)
}

// Where a round ends that begins with a number: it is some part of the keys that are new.
fn round_end(from: KeyId, len: usize) -> KeyId
    ensures { result ≤ len }
{
    let part = len.saturating_sub(from) / PARTS;
    let keys = part.max(LEAST_ROUND).min(MOST_ROUND);
    from.saturating_add(keys).min(len)
}

// The files of the build files of a round that may be claimed are read ahead.
fn find_round<S: Source>(
    alloc: Global,
    driver: &mut Driver,
    source: &mut S,
    ahead: &mut Ahead,
) -> Result<Found, Stop>
    requires goes { (known : List (List ℕ)) × (before : SourceState) × GoesAhead known before (S.state source.old) driver.old [] ahead.old.total }
    requires numbers { UnitsHaveNumbers driver.old.book }
    requires few { ahead.old.total + driver.old.reads ≤ read_limit }
    ensures { (known : List (List ℕ)) (before : SourceState) → GoesAhead known before (S.state source.old) driver.old [] ahead.old.total →
        FindsFiles known before (S.state source.new) driver.old driver.new ahead.new.total result }
{
    let from = ahead.seen;
    let end = round_end(from, driver.book.len());
    ahead.seen = end;
    count_reads(driver, &mut ahead.total);
    find_from(alloc, driver, source, from, end, &mut ahead.total)
}

/// Where many keys have got numbers that weren't looked at, the files of the next build files among them are read ahead that may be
/// claimed.
pub(crate) fn find_next<S: Source>(
    alloc: Global,
    driver: &mut Driver,
    source: &mut S,
    ahead: &mut Ahead,
) -> Result<Found, Stop>
    requires goes { (known : List (List ℕ)) × (before : SourceState) × GoesAhead known before (S.state source.old) driver.old [] ahead.old.total }
    ensures { (known : List (List ℕ)) (before : SourceState) → GoesAhead known before (S.state source.old) driver.old [] ahead.old.total →
        FindsNext known before (S.state source.new) driver.old driver.new ahead.new.total result }
{
    number_units(driver)?;
    if is_worth_while(driver, ahead) {
        find_round(alloc, driver, source, ahead)
    } else {
        Ok(no_files(alloc))
    }
}
