// Build files that were executed ahead: what each leaves is filed once its unit is claimed, and its file is filed.

ghost use Rattle.std.specs.Prelude.{◌≡◌, ◌∷◌, ℕ, List, Some, true};
ghost use Rattle.gn_outside.specs.States.{SourceState};
ghost use Rattle.gn_closure.specs.Reach.{Load};
ghost use Rattle.gn_core.specs.Keys.{Unit_of, found};
ghost use Rattle.gn_book.specs.Keys.{key_of};
ghost use Rattle.gn_book.specs.Logs.{state_of};
ghost use Rattle.gn_builds.specs.Stacks.{MayWait};
ghost use Rattle.gn_builds.specs.Working.{IsRightOver};
ghost use Rattle.gn_answers.specs.Answers.{content_view, meaning_of};
ghost use Rattle.gn_load.specs.Own.{NeedsFirst};
ghost use Rattle.gn_load.specs.Turns.{Goes, IsTurn, IsFinish};
ghost use Rattle.gn_load.specs.Rounds.{WillBeRight};

use crate::driver::{Driver, Stop, finish, lifted, need_file, settle, turn};
use crate::own_file::{own_need, own_place};
use gn_answers::{Answer, FileContent, Filed, find};
use gn_book::{Book, Claim, KeyId};
use gn_items::Key;
use gn_outside::Source;
use gn_paths::{Path, Text};
use std::alloc::Global;
use std::collections::VecDeque;

/// What a build file leaves that was executed ahead, over what was filed then and the content of its own file.
#[derive(Drop)]
pub(crate) struct Ready {
    /// The number of the key of the build file.
    pub(crate) number: KeyId,
    /// The directory of the build file.
    pub(crate) directory: Path,
    /// The toolchain of the build file.
    pub(crate) toolchain: Text,
    /// The key of the read of its file.
    pub(crate) file: Key,
    /// What there was at the path of its file.
    pub(crate) content: FileContent,
    /// Its answer.
    pub(crate) answer: Filed,
}

// Whether two texts are the same.
fn is_same_text(one: &[u8], other: &[u8]) -> bool
    ensures { result ≡ true → one.now ≡ other.now }
{
    one == other
}

// Whether two contents are the bytes of files, and the same.
fn is_same_content(one: &FileContent, other: &FileContent) -> bool
    ensures { result ≡ true → content_view one.now ≡ content_view other.now }
{
    match (one, other) {
        (FileContent::Bytes(one), FileContent::Bytes(other)) => {
            is_same_text(one.bytes.as_bytes(), other.bytes.as_bytes())
        }
        _ => false,
    }
}

// Whether this is filed where there is this content.
fn is_content(filed: &Filed, content: &FileContent) -> bool
    ensures { result ≡ true → meaning_of filed.now ≡ found (content_view content.now) }
{
    match filed {
        Filed::Content(found) => is_same_content(found, content),
        Filed::Import(_) => false,
        Filed::Unit(_) => false,
        Filed::NoValue(..) => false,
    }
}

// Whether the content over which a build file was executed ahead is filed.
fn has_content(book: &Book<Answer>, ready: &Ready) -> bool
    ensures { result ≡ true → (state_of book.now).filed (key_of ready.now.file) ≡ Some (found (content_view ready.now.content)) }
{
    match find(book, &ready.file) {
        Some(filed) => is_content(filed, &ready.content),
        None => false,
    }
}

// Whether a key is that of the build file.
fn is_key_of(key: &Key, ready: &Ready) -> bool
    ensures { result ≡ true → key_of key.now ≡ Unit_of (Load ready.now.directory ready.now.toolchain) }
{
    match key {
        Key::Load(directory, toolchain) => {
            is_same_text(
                directory.as_text().as_bytes(),
                ready.directory.as_text().as_bytes(),
            ) && is_same_text(toolchain.as_bytes(), ready.toolchain.as_bytes())
        }
        Key::Read(_) => false,
        Key::Import(..) => false,
        Key::Setup(_) => false,
        Key::Resolve(_) => false,
    }
}

// The work on a unit whose answer is filed, and on all that waits for it.
fn finish_settled<S: Source>(
    alloc: Global,
    driver: &mut Driver,
    claim: Claim,
    source: &mut S,
    answer: Filed,
) -> Result<(), Stop>
    requires goes { (known : List (List ℕ)) × (before : SourceState) × Goes known before (S.state source.old) driver.old (claim ∷ driver.old.waiting.items) }
    requires work { MayWait (key_of claim.key) }
    requires right { IsRightOver driver.old.base.start (state_of driver.old.book).filed (key_of claim.key) (meaning_of answer) }
    ensures { (known : List (List ℕ)) (before : SourceState) → Goes known before (S.state source.old) driver.old (claim ∷ driver.old.waiting.items) →
        IsFinish known before (S.state source.new) driver.old driver.new result }
{
    match lifted(settle(alloc, driver, claim, answer)) {
        Ok(Some(claim)) => finish(alloc, driver, claim, source),
        Ok(None) => Ok(()),
        Err(stop) => Err(stop),
    }
}

// The work on a unit goes on, with its answer where that is right.
fn finish_behind<S: Source>(
    alloc: Global,
    driver: &mut Driver,
    claim: Claim,
    source: &mut S,
    ready: Ready,
) -> Result<(), Stop>
    requires goes { (known : List (List ℕ)) × (before : SourceState) × Goes known before (S.state source.old) driver.old (claim ∷ driver.old.waiting.items) }
    requires work { MayWait (key_of claim.key) }
    requires right { WillBeRight driver.old.base.start (state_of driver.old.book).filed ready }
    ensures { (known : List (List ℕ)) (before : SourceState) → Goes known before (S.state source.old) driver.old (claim ∷ driver.old.waiting.items) →
        IsFinish known before (S.state source.new) driver.old driver.new result }
{
    if is_key_of(&claim.key, &ready) && has_content(&driver.book, &ready) {
        finish_settled(alloc, driver, claim, source, ready.answer)
    } else {
        drop(ready);
        finish(alloc, driver, claim, source)
    }
}

// The first turn of the work on a unit, which finds out what that needs.
fn plain_turn<S: Source>(
    alloc: Global,
    driver: &mut Driver,
    claim: Claim,
    source: &mut S,
) -> Result<Option<Claim>, Stop>
    requires goes { (known : List (List ℕ)) × (before : SourceState) × Goes known before (S.state source.old) driver.old (claim ∷ driver.old.waiting.items) }
    requires work { MayWait (key_of claim.key) }
    ensures { (known : List (List ℕ)) (before : SourceState) → Goes known before (S.state source.old) driver.old (claim ∷ driver.old.waiting.items) →
        IsTurn known before (S.state source.new) driver.old driver.new result }
{
    let mut rests = VecDeque::new(alloc);
    turn(alloc, driver, claim, source, &mut rests)
}

// The first turn of the work on a unit, which needs what there is at a path first.
fn own_turn<S: Source>(
    alloc: Global,
    driver: &mut Driver,
    claim: Claim,
    source: &mut S,
    path: Path,
) -> Result<Option<Claim>, Stop>
    requires goes { (known : List (List ℕ)) × (before : SourceState) × Goes known before (S.state source.old) driver.old (claim ∷ driver.old.waiting.items) }
    requires work { MayWait (key_of claim.key) }
    requires needed { NeedsFirst (state_of driver.old.book).filed (key_of claim.key) path }
    ensures { (known : List (List ℕ)) (before : SourceState) → Goes known before (S.state source.old) driver.old (claim ∷ driver.old.waiting.items) →
        IsTurn known before (S.state source.new) driver.old driver.new result }
{
    match own_place(alloc, &path) {
        Ok(place) => need_file(alloc, driver, claim, source, path, place),
        Err(_) => Err(Stop::Memory),
    }
}

// The first turn of the work on a unit. A build file is known to need its own file.
fn first_turn<S: Source>(
    alloc: Global,
    driver: &mut Driver,
    claim: Claim,
    source: &mut S,
) -> Result<Option<Claim>, Stop>
    requires goes { (known : List (List ℕ)) × (before : SourceState) × Goes known before (S.state source.old) driver.old (claim ∷ driver.old.waiting.items) }
    requires work { MayWait (key_of claim.key) }
    ensures { (known : List (List ℕ)) (before : SourceState) → Goes known before (S.state source.old) driver.old (claim ∷ driver.old.waiting.items) →
        IsTurn known before (S.state source.new) driver.old driver.new result }
{
    match own_need(alloc, &driver.book, &claim.key) {
        Ok(Some(path)) => own_turn(alloc, driver, claim, source, path),
        Ok(None) => plain_turn(alloc, driver, claim, source),
        Err(_) => Err(Stop::Memory),
    }
}

/// The work on a build file that was executed ahead, and on all that it needs.
pub(crate) fn finish_ready<S: Source>(
    alloc: Global,
    driver: &mut Driver,
    claim: Claim,
    source: &mut S,
    ready: Ready,
) -> Result<(), Stop>
    requires goes { (known : List (List ℕ)) × (before : SourceState) × Goes known before (S.state source.old) driver.old (claim ∷ driver.old.waiting.items) }
    requires work { MayWait (key_of claim.key) }
    requires right { WillBeRight driver.old.base.start (state_of driver.old.book).filed ready }
    ensures { (known : List (List ℕ)) (before : SourceState) → Goes known before (S.state source.old) driver.old (claim ∷ driver.old.waiting.items) →
        IsFinish known before (S.state source.new) driver.old driver.new result }
{
    match first_turn(alloc, driver, claim, source) {
        Ok(Some(claim)) => finish_behind(alloc, driver, claim, source, ready),
        Ok(None) => {
            drop(ready);
            Ok(())
        }
        Err(stop) => {
            drop(ready);
            Err(stop)
        }
    }
}
