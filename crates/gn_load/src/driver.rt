// Loading by one seat: what it has claimed waits for one another, the last claim first.

ghost use Rattle.std.specs.Prelude.{◌≡◌, None, ◌<◌, ◌≤◌, ◌+◌, ◌∷◌, ℕ, List, Ok, Some, IfOk, IfErr, OnOk, OnErr, false};
ghost use Rattle.gn_outside.specs.States.{SourceState};
ghost use Rattle.gn_runs.specs.Runs.{Question as Asked, import_of};
ghost use Rattle.gn_eval.specs.Ends.{asked_until as asked_for_import};
ghost use Rattle.gn_core.specs.Keys.{Read, Import, Layer, no_value};
ghost use Rattle.gn_core.specs.Machine.{File as filed, read_limit};
ghost use Rattle.gn_book.specs.Keys.{key_of};
ghost use Rattle.gn_book.specs.Graphs.{is_unit};
ghost use Rattle.gn_book.specs.Logs.{state_of, with_event};
ghost use Rattle.gn_builds.specs.Driving.{IsClaim, IsLacked};
ghost use Rattle.gn_builds.specs.Stacks.{MayWait};
ghost use Rattle.gn_answers.specs.Answers.{meaning_of};
ghost use Rattle.gn_load.specs.Current.{base_now};
ghost use Rattle.gn_perform.specs.Kept.{asked_so_far, asked_for, AreKept, Stores};
ghost use Rattle.gn_perform.specs.Performing.{IsPerformedOver, KeepsFor, IsWorkOf};
ghost use Rattle.gn_load.specs.Turns.{TakesAs, AwaitsImport, IsNeeded, Goes, Settles, ReadsAs, IsRead, IsKnownAt, IsFiledFrom, IsReadOnce, Waits, IsLifted, IsTurn, IsReadFor, IsFinish};

use crate::current::CurrentBase;
use gn_answers::{Answer, FileContent, Filed, PerformStop};
use gn_bases::Known;
use gn_book::{Blocked, Book, Claim};
use gn_items::Key;
use gn_outside::Source;
use gn_paths::{Path, Place};
use gn_perform::{Kept, KeyRest, Performed, asked_until, perform, store, take_rest};
use std::alloc::{AllocError, Global};
use std::collections::VecDeque;

/// No build asks for more paths.
pub(crate) const MAX_PATHS: usize = 2_097_152;

/// What ends loading before all is loaded.
#[derive(Drop)]
pub(crate) enum Stop {
    /// The read of the file at this path has failed.
    Failed(Path),
    /// More files are asked for than a build may ask for, or more units are reached than in a build may be.
    TooLarge,
    /// Want of memory.
    Memory,
}

impl From<AllocError> for Stop {
    ghost use Rattle.std.specs.Prelude.{◌≡◌};
    ghost use Rattle.gn_load.specs.declared.driver.Stop.TheVariants.{Memory};

    ghost from_gives = { λ _ e. e ≡ Memory };

    fn from(_: AllocError) -> Self {
        Stop::Memory
    }
}

/// The base of the units that the seat works on, the book, the claims that wait for one another, the last one first, what was read
/// before and isn't filed, and how many files were read since.
#[derive(Drop)]
pub(crate) struct Driver {
    pub(crate) base: CurrentBase,
    pub(crate) book: Book<Answer>,
    pub(crate) waiting: VecDeque<Claim>,
    pub(crate) known: Known,
    pub(crate) reads: usize,
}

// Files the answer of a claim. After want of memory nothing is changed.
fn file(
    alloc: Global,
    book: &mut Book<Answer>,
    claim: Claim,
    answer: Filed,
) -> Result<(), AllocError>
    requires { IsClaim book.old claim }
    ensures ok { OnOk result (book.new ≡ with_event book.old (filed 0 (key_of claim.key) (meaning_of answer))) }
    ensures err { OnErr result (book.new ≡ book.old) }
{
    let shared = Answer::new(alloc, answer)?;
    let Ok(()) = book.file(claim, shared) else {
        return Err(AllocError);
    };
    Ok(())
}

// The key of a claim needs another one: the seat claims that too. Nothing comes where the wait closes a cycle.
fn take(
    book: &mut Book<Answer>,
    claim: &Claim,
    on: Key,
    place: Place,
) -> Result<Option<Claim>, AllocError>
    requires claim { IsClaim book.old claim.now }
    requires unit { is_unit (key_of on) ≡ false }
    requires lacked { IsLacked book.old claim.now (key_of on) }
    ensures { IfOk result (TakesAs book.old book.new claim.now (key_of on) place) }
{
    let number = book.number(on)?;
    match book.block(claim, number, place)? {
        Blocked::Work(other) => Ok(Some(other)),
        Blocked::Cyclic => Ok(None),
        Blocked::Ready => unreachable!(),
        Blocked::Wait(_) => unreachable!(),
    }
}

/// Want of memory ends loading.
pub(crate) fn lifted(next: Result<Option<Claim>, AllocError>) -> Result<Option<Claim>, Stop>
    ensures { IsLifted next result }
{
    match next {
        Ok(next) => Ok(next),
        Err(_) => Err(Stop::Memory),
    }
}

/// The answer of the first claim is filed, and the one behind it goes on.
pub(crate) fn settle(
    alloc: Global,
    driver: &mut Driver,
    claim: Claim,
    answer: Filed,
) -> Result<Option<Claim>, AllocError>
    requires { IsClaim driver.old.book claim }
    ensures { IfOk result (Settles driver.old driver.new claim (meaning_of answer)) }
{
    file(alloc, &mut driver.book, claim, answer)?;
    Ok(driver.waiting.pop_front())
}

/// The path of a read.
pub(crate) fn path_of(key: Key) -> Path
    requires { (path : List ℕ) × (key_of key ≡ Read path) }
    ensures { key_of key ≡ Read result }
{
    match key {
        Key::Read(path) => path,
        Key::Import(..) => unreachable!(),
        Key::Setup(_) => unreachable!(),
        Key::Load(..) => unreachable!(),
        Key::Resolve(_) => unreachable!(),
    }
}

// One more file was read. No build asks for more than the limit.
#[tactic(auto, unfolding(gn_core::specs::Machine::read_limit))]
fn count(driver: &mut Driver) -> Result<(), Stop>
    requires { driver.old.reads ≤ read_limit }
    ensures book { driver.new.book ≡ driver.old.book }
    ensures waiting { driver.new.waiting ≡ driver.old.waiting }
    ensures begins { (driver.new.base ≡ driver.old.base) × (driver.new.known ≡ driver.old.known) }
    ensures reads { driver.new.reads ≡ driver.old.reads + 1 }
    ensures few { OnOk result (driver.new.reads ≤ read_limit) }
    ensures many { IfErr result (λ stop. (stop ≡ Stop.TooLarge) × (read_limit < driver.new.reads)) }
{
    driver.reads += 1;
    if driver.reads > MAX_PATHS {
        Err(Stop::TooLarge)
    } else {
        Ok(())
    }
}

// The answer of a read is filed.
fn read_done(alloc: Global, driver: &mut Driver, claim: Claim, answer: Filed) -> Result<(), Stop>
    requires claim { IsClaim driver.old.book claim }
    requires few { driver.old.reads ≤ read_limit }
    ensures { ReadsAs driver.old driver.new claim (meaning_of answer) result }
{
    file(alloc, &mut driver.book, claim, answer)?;
    count(driver)
}

// The file of a claim is read from the source.
fn read_new<S: Source>(
    alloc: Global,
    driver: &mut Driver,
    claim: Claim,
    source: &mut S,
) -> Result<(), Stop>
    requires claim { IsClaim driver.old.book claim }
    requires read { (path : List ℕ) × (key_of claim.key ≡ Read path) }
    requires few { driver.old.reads ≤ read_limit }
    ensures { IsRead (S.state source.old) (S.state source.new) driver.old driver.new claim result }
{
    match perform(
        alloc,
        &claim.key,
        driver.base.base(),
        &driver.book,
        source,
        None,
    ) {
        Ok(Performed::Answered(answer)) => read_done(alloc, driver, claim, answer),
        Ok(Performed::Needs(..)) => unreachable!(),
        Err(PerformStop::Failed) => Err(Stop::Failed(path_of(claim.key))),
        Err(PerformStop::Memory) => Err(Stop::Memory),
    }
}

// What was read before at a path, if it was.
fn known_at(driver: &mut Driver, key: &Key) -> Option<FileContent>
    ensures { IsKnownAt driver.old driver.new (key_of key.now) result }
{
    match key {
        Key::Read(path) => driver.known.remove(path),
        Key::Import(..) => None,
        Key::Setup(_) => None,
        Key::Load(..) => None,
        Key::Resolve(_) => None,
    }
}

// What was read before is filed for a claim.
fn file_known(
    alloc: Global,
    driver: &mut Driver,
    claim: Claim,
    content: FileContent,
) -> Result<(), AllocError>
    requires { IsClaim driver.old.book claim }
    ensures { OnOk result (IsFiledFrom driver.old driver.new claim content) }
{
    file(alloc, &mut driver.book, claim, Filed::Content(content))
}

// The file of a claim is read, unless it was read before.
fn read<S: Source>(
    alloc: Global,
    driver: &mut Driver,
    claim: Claim,
    source: &mut S,
) -> Result<(), Stop>
    requires claim { IsClaim driver.old.book claim }
    requires read { (path : List ℕ) × (key_of claim.key ≡ Read path) }
    requires few { driver.old.reads ≤ read_limit }
    ensures { IsReadOnce (S.state source.old) (S.state source.new) driver.old driver.new claim result }
{
    match known_at(driver, &claim.key) {
        Some(content) => Ok(file_known(alloc, driver, claim, content)?),
        None => read_new(alloc, driver, claim, source),
    }
}

// The first claim needs what there is at a path.
fn need_content<S: Source>(
    alloc: Global,
    driver: &mut Driver,
    claim: &Claim,
    source: &mut S,
    path: Path,
    place: Place,
) -> Result<(), Stop>
    requires goes { (known : List (List ℕ)) × (before : SourceState) × Goes known before (S.state source.old) driver.old (claim.now ∷ driver.old.waiting.items) }
    requires work { MayWait (key_of claim.now.key) }
    requires lacked { IsLacked driver.old.book claim.now (Read path) }
    ensures { (known : List (List ℕ)) (before : SourceState) (asked : List Asked) → Goes known before (S.state source.old) driver.old (claim.now ∷ driver.old.waiting.items) →
        IsNeeded driver.old.base.start driver.old.book claim.now (Read path) place asked →
        IsReadFor known before (S.state source.new) driver.old driver.new claim.now result }
{
    match take(&mut driver.book, claim, Key::Read(path), place)? {
        Some(other) => read(alloc, driver, other, source),
        None => unreachable!(),
    }
}

/// The first claim needs what there is at a path, which is read, and then it goes on.
pub(crate) fn need_file<S: Source>(
    alloc: Global,
    driver: &mut Driver,
    claim: Claim,
    source: &mut S,
    path: Path,
    place: Place,
) -> Result<Option<Claim>, Stop>
    requires goes { (known : List (List ℕ)) × (before : SourceState) × Goes known before (S.state source.old) driver.old (claim ∷ driver.old.waiting.items) }
    requires work { MayWait (key_of claim.key) }
    requires lacked { IsLacked driver.old.book claim (Read path) }
    ensures { (known : List (List ℕ)) (before : SourceState) (asked : List Asked) → Goes known before (S.state source.old) driver.old (claim ∷ driver.old.waiting.items) →
        IsNeeded driver.old.base.start driver.old.book claim (Read path) place asked →
        IsTurn known before (S.state source.new) driver.old driver.new result }
{
    need_content(alloc, driver, &claim, source, path, place)?;
    Ok(Some(claim))
}

// The first claim waits for another one of the seat, with which it goes on.
fn wait_for(driver: &mut Driver, claim: Claim, other: Claim) -> Result<Option<Claim>, AllocError>
    ensures { IfOk result (Waits driver.old driver.new claim other) }
{
    driver.waiting.push_front(claim)?;
    Ok(Some(other))
}

// The path of the file that is imported.
fn copy_imported(alloc: Global, on: &Key) -> Result<Path, AllocError>
    requires { (layer : Layer) × (path : List ℕ) × (key_of on.now ≡ Import layer path) }
    ensures { IfOk result (λ path. (layer : Layer) × (key_of on.now ≡ Import layer path)) }
{
    match on {
        Key::Import(_, _, path) => path.copy(alloc),
        Key::Read(_) => unreachable!(),
        Key::Setup(_) => unreachable!(),
        Key::Load(..) => unreachable!(),
        Key::Resolve(_) => unreachable!(),
    }
}

// The path of the file that is imported, and the place of the call.
fn copy_call(alloc: Global, on: &Key, place: &Place) -> Result<(Path, Place), AllocError>
    requires { (layer : Layer) × (path : List ℕ) × (key_of on.now ≡ Import layer path) }
    ensures { IfOk result (λ call. ((layer : Layer) × (key_of on.now ≡ Import layer call.0)) × (call.1 ≡ place.now)) }
{
    let path = copy_imported(alloc, on)?;
    let place = place.copy(alloc)?;
    Ok((path, place))
}

// The key of a claim needs an import: the seat claims that too, or the wait closes a cycle. The path of the file that is imported comes beside.
fn take_import(
    alloc: Global,
    book: &mut Book<Answer>,
    claim: &Claim,
    on: Key,
    place: &Place,
) -> Result<(Option<Claim>, Path), AllocError>
    requires named { (layer : Layer) × (path : List ℕ) × (key_of on ≡ Import layer path) }
    requires claim { IsClaim book.old claim.now }
    requires lacked { IsLacked book.old claim.now (key_of on) }
    ensures { IfOk result (λ taken. ((layer : Layer) × (key_of on ≡ Import layer taken.1)) × TakesAs book.old book.new claim.now (key_of on) place.now taken.0) }
{
    let call = copy_call(alloc, &on, place)?;
    let other = take(book, claim, on, call.1)?;
    Ok((other, call.0))
}

// The first claim waits for another one of the seat. What is kept of its execution is stored.
fn store_and_wait(
    alloc: Global,
    driver: &mut Driver,
    claim: Claim,
    other: Claim,
    kept: Kept,
    rests: &mut VecDeque<KeyRest>,
) -> Result<Option<Claim>, AllocError>
    ensures waits { IfOk result (Waits driver.old driver.new claim other) }
    ensures rests { OnOk result (Stores claim.key kept rests.old.items rests.new.items) }
{
    match store(alloc, rests, &claim.key, kept) {
        Ok(()) => wait_for(driver, claim, other),
        Err(error) => {
            drop(other);
            drop(claim);
            Err(error)
        }
    }
}

// The first claim has no value, since the import at the path doesn't. Its answer is filed.
fn settle_without_value(
    alloc: Global,
    driver: &mut Driver,
    claim: Claim,
    path: Path,
    place: Place,
    kept: Kept,
) -> Result<Option<Claim>, AllocError>
    requires { IsClaim driver.old.book claim }
    ensures { IfOk result (Settles driver.old driver.new claim (no_value path place (asked_for_import (import_of path) (asked_so_far kept)))) }
{
    match asked_until(alloc, kept, &path) {
        Ok(asked) => settle(alloc, driver, claim, Filed::NoValue(path, place, asked)),
        Err(error) => {
            drop(place);
            drop(path);
            drop(claim);
            Err(error)
        }
    }
}

// What becomes of the first claim once an import was taken that it needs, or its wait has closed a cycle.
fn await_import(
    alloc: Global,
    driver: &mut Driver,
    claim: Claim,
    taken: (Option<Claim>, Path),
    place: Place,
    kept: Kept,
    rests: &mut VecDeque<KeyRest>,
) -> Result<Option<Claim>, AllocError>
    requires { taken.0 ≡ None → IsClaim driver.old.book claim }
    ensures turn { IfOk result (AwaitsImport driver.old driver.new claim taken.1 place (asked_for_import (import_of taken.1) (asked_so_far kept)) taken.0) }
    ensures rests { OnOk result (Stores claim.key kept rests.old.items rests.new.items) }
{
    let (other, path) = taken;
    match other {
        Some(other) => {
            drop(path);
            drop(place);
            store_and_wait(alloc, driver, claim, other, kept, rests)
        }
        None => settle_without_value(alloc, driver, claim, path, place, kept),
    }
}

// The first claim needs an import: the seat claims that too, or the wait closes a cycle, and the first claim has no value. What is kept of its
// execution is stored.
fn need_import(
    alloc: Global,
    driver: &mut Driver,
    claim: Claim,
    on: Key,
    place: Place,
    kept: Kept,
    rests: &mut VecDeque<KeyRest>,
) -> Result<Option<Claim>, AllocError>
    requires named { (layer : Layer) × (path : List ℕ) × (key_of on ≡ Import layer path) }
    requires claim { IsClaim driver.old.book claim }
    requires lacked { IsLacked driver.old.book claim (key_of on) }
    ensures turn { IfOk result (λ next. (known : List (List ℕ)) (before now : SourceState) → Goes known before now driver.old (claim ∷ driver.old.waiting.items) →
        IsNeeded driver.old.base.start driver.old.book claim (key_of on) place (asked_for (key_of on) (asked_so_far kept)) → IsTurn known before now driver.old driver.new (Ok next)) }
    ensures rests { OnOk result (Stores claim.key kept rests.old.items rests.new.items) }
{
    match take_import(alloc, &mut driver.book, &claim, on, &place) {
        Ok(taken) => await_import(alloc, driver, claim, taken, place, kept, rests),
        Err(error) => {
            drop(kept);
            drop(place);
            drop(claim);
            Err(error)
        }
    }
}

// The first claim needs what there is at a path, which is read, and then it goes on. What is kept of its execution is stored.
fn need_read<S: Source>(
    alloc: Global,
    driver: &mut Driver,
    claim: Claim,
    source: &mut S,
    path: Path,
    place: Place,
    kept: Kept,
    rests: &mut VecDeque<KeyRest>,
) -> Result<Option<Claim>, Stop>
    requires goes { (known : List (List ℕ)) × (before : SourceState) × Goes known before (S.state source.old) driver.old (claim ∷ driver.old.waiting.items) }
    requires work { MayWait (key_of claim.key) }
    requires lacked { IsLacked driver.old.book claim (Read path) }
    ensures turn { (known : List (List ℕ)) (before : SourceState) (asked : List Asked) → Goes known before (S.state source.old) driver.old (claim ∷ driver.old.waiting.items) →
        IsNeeded driver.old.base.start driver.old.book claim (Read path) place asked →
        IsTurn known before (S.state source.new) driver.old driver.new result }
    ensures rests { OnOk result (Stores claim.key kept rests.old.items rests.new.items) }
{
    match store(alloc, rests, &claim.key, kept) {
        Ok(()) => need_file(alloc, driver, claim, source, path, place),
        Err(_) => Err(Stop::Memory),
    }
}

// The first claim needs another key. What is kept of its execution is stored.
fn need<S: Source>(
    alloc: Global,
    driver: &mut Driver,
    claim: Claim,
    source: &mut S,
    on: Key,
    place: Place,
    kept: Kept,
    rests: &mut VecDeque<KeyRest>,
) -> Result<Option<Claim>, Stop>
    requires goes { (known : List (List ℕ)) × (before : SourceState) × Goes known before (S.state source.old) driver.old (claim ∷ driver.old.waiting.items) }
    requires work { MayWait (key_of claim.key) }
    requires needed { IsNeeded driver.old.base.start driver.old.book claim (key_of on) place (asked_for (key_of on) (asked_so_far kept)) }
    requires lacked { IsLacked driver.old.book claim (key_of on) }
    ensures turn { (known : List (List ℕ)) (before : SourceState) → Goes known before (S.state source.old) driver.old (claim ∷ driver.old.waiting.items) →
        IsTurn known before (S.state source.new) driver.old driver.new result }
    ensures rests { OnOk result (Stores claim.key kept rests.old.items rests.new.items) }
{
    match on {
        Key::Read(path) => need_read(alloc, driver, claim, source, path, place, kept, rests),
        Key::Import(when, toolchain, path) => {
            let on = Key::Import(when, toolchain, path);
            lifted(need_import(alloc, driver, claim, on, place, kept, rests))
        }
        Key::Setup(_) => unreachable!(),
        Key::Load(..) => unreachable!(),
        Key::Resolve(_) => unreachable!(),
    }
}

// The work on the first claim, from where its execution has stopped, if that is stored.
fn work<S: Source>(
    alloc: Global,
    driver: &Driver,
    claim: &Claim,
    source: &mut S,
    rests: &mut VecDeque<KeyRest>,
) -> Result<Performed, PerformStop>
    requires work { MayWait (key_of claim.now.key) }
    requires rests { AreKept (base_now driver.now.base) (state_of driver.now.book).filed rests.old.items }
    ensures done { IfOk result (IsPerformedOver (base_now driver.now.base) (state_of driver.now.book).filed (key_of claim.now.key)) }
    ensures kept { IfOk result (KeepsFor (base_now driver.now.base) (state_of driver.now.book).filed claim.now.key) }
    ensures reads { IsWorkOf (key_of claim.now.key) (S.state source.old) (S.state source.new) result }
    ensures rests { OnOk result (AreKept (base_now driver.now.base) (state_of driver.now.book).filed rests.new.items) }
{
    match take_rest(rests, &claim.key) {
        Ok(rest) => perform(
            alloc,
            &claim.key,
            driver.base.base(),
            &driver.book,
            source,
            rest,
        ),
        Err(_) => Err(PerformStop::Memory),
    }
}

/// One turn: the work on the first claim, and then its answer is filed, or what it needs is read, or claimed too.
pub(crate) fn turn<S: Source>(
    alloc: Global,
    driver: &mut Driver,
    claim: Claim,
    source: &mut S,
    rests: &mut VecDeque<KeyRest>,
) -> Result<Option<Claim>, Stop>
    requires goes { (known : List (List ℕ)) × (before : SourceState) × Goes known before (S.state source.old) driver.old (claim ∷ driver.old.waiting.items) }
    requires work { MayWait (key_of claim.key) }
    requires rests { AreKept (base_now driver.old.base) (state_of driver.old.book).filed rests.old.items }
    ensures turn { (known : List (List ℕ)) (before : SourceState) → Goes known before (S.state source.old) driver.old (claim ∷ driver.old.waiting.items) →
        IsTurn known before (S.state source.new) driver.old driver.new result }
    ensures rests { OnOk result (AreKept (base_now driver.old.base) (state_of driver.old.book).filed rests.new.items) }
{
    match work(alloc, driver, &claim, source, rests) {
        Ok(Performed::Answered(answer)) => lifted(settle(alloc, driver, claim, answer)),
        Ok(Performed::Needs(on, place, kept)) => {
            need(alloc, driver, claim, source, on, place, kept, rests)
        }
        Err(PerformStop::Failed) => unreachable!(),
        Err(PerformStop::Memory) => Err(Stop::Memory),
    }
}

/// The work on a unit, and on all that it needs. What has stopped in front of an import goes on there.
pub(crate) fn finish<S: Source>(
    alloc: Global,
    driver: &mut Driver,
    claim: Claim,
    source: &mut S,
) -> Result<(), Stop>
    requires goes { (known : List (List ℕ)) × (before : SourceState) × Goes known before (S.state source.old) driver.old (claim ∷ driver.old.waiting.items) }
    requires work { MayWait (key_of claim.key) }
    ensures { (known : List (List ℕ)) (before : SourceState) → Goes known before (S.state source.old) driver.old (claim ∷ driver.old.waiting.items) →
        IsFinish known before (S.state source.new) driver.old driver.new result }
{
    let mut rests = VecDeque::new(alloc);
    let mut next = turn(alloc, driver, claim, source, &mut rests)?;
    'turns: while let Some(claim) = next {
        next = turn(alloc, driver, claim, source, &mut rests)?;
    }
    Ok(())
}
