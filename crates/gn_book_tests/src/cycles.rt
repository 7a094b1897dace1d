// An import cycle over a book: two imports that need each other, from every entry.

ghost use Rattle.std.specs.Prelude.{◌≡◌, IfOk, OnOk, [], false};
ghost use Rattle.gn_core.specs.Keys.{no_value};
ghost use Rattle.gn_book.specs.Keys.{key_of};
ghost use Rattle.gn_book.specs.Graphs.{is_unit};
ghost use Rattle.gn_book.specs.Next.{HasNoClaim};
ghost use Rattle.gn_book.specs.Logs.{key_at};
ghost use Rattle.gn_book.specs.Claims.{HasClaim};
ghost use Rattle.gn_book_tests.specs.Seats.{KeepsClaims, IfTaken, IfReady, KeepsOthers, HasAll};
ghost use Rattle.gn_book_tests.specs.Waiting.{IsWaiting, given_by};

use gn_book::{Answer, Blocked, Book, Claim, KeyId, Mentions, Next, claims_stay};
use gn_items::{Key, When};
use gn_paths::{Path, PathError, Place, Text, resolve};
use std::alloc::{AllocError, Global};
use std::test::Fail;

// What is filed here: that an import has no value, the first import without value that it asks for, and the place of that call.
#[derive(Drop)]
struct NoValue {
    path: Path,
    place: Place,
}

impl Answer for NoValue {
    ghost meaning = { λ a. no_value a.path a.place [] };

    fn mentions(&self, _alloc: Global) -> Result<Mentions, AllocError> {
        Ok(Mentions::NoUnit)
    }
}

// An import as a key.
fn import(alloc: Global, path: &Path) -> Result<Key, AllocError>
    ensures { IfOk result (λ key. is_unit (key_of key) ≡ false) }
{
    let path = path.copy(alloc)?;
    Ok(Key::Import(When::Usual, Text::new(alloc), path))
}

// The place at which the file at a path begins.
fn beginning(alloc: Global, path: &Path) -> Result<Place, AllocError> {
    Ok(Place {
        file: path.as_text().copy(alloc)?,
        line: 1,
        column: 1,
    })
}

// The number of what is ready for a seat that has no claim.
fn ready(book: &Book<NoValue>, seat: u32) -> Option<KeyId>
    requires { HasNoClaim book.now seat }
    ensures { IfReady book.now result }
{
    match book.next(seat) {
        Next::Work(key) => Some(key),
        Next::Later(_, _) => None,
        Next::Quiet => None,
        Next::Stopped(_) => None,
    }
}

// A seat that has no claim takes up what is ready.
fn enter(book: &mut Book<NoValue>, seat: u32) -> Result<Option<Claim>, AllocError>
    requires { HasNoClaim book.old seat }
    ensures { IfOk result (IfTaken book.old book.new) }
{
    book.number_reached()?;
    claims_stay();
    match ready(book, seat) {
        None => Ok(None),
        Some(key) => {
            let claim = book.claim(seat, key)?;
            Ok(Some(claim))
        }
    }
}

// The key of a claim waits for the import of the file at a path, for which the file at another one asks.
fn wait(
    alloc: Global,
    book: &mut Book<NoValue>,
    claim: &Claim,
    from: &Path,
    on: &Path,
) -> Result<Blocked, AllocError>
    requires { HasClaim book.old claim.now.number claim.now.seat }
    ensures { IfOk result (IsWaiting book.old book.new) }
{
    let key = import(alloc, on)?;
    let on = book.number(key)?;
    claims_stay();
    let place = beginning(alloc, from)?;
    book.block(claim, on, place)
}

// The claim that is given out so, if one is.
fn given(blocked: Blocked) -> Option<Claim>
    ensures { result ≡ given_by blocked }
{
    match blocked {
        Blocked::Ready => None,
        Blocked::Work(claim) => Some(claim),
        Blocked::Wait(_) => None,
        Blocked::Cyclic => None,
    }
}

// The import that is begun so, if one is.
fn begin(
    alloc: Global,
    book: &mut Book<NoValue>,
    claim: &Claim,
    from: &Path,
    on: &Path,
) -> Result<Option<Claim>, AllocError>
    requires { HasClaim book.old claim.now.number claim.now.seat }
    ensures { IfOk result (IfTaken book.old book.new) }
{
    let blocked = wait(alloc, book, claim, from, on)?;
    Ok(given(blocked))
}

// Whether that closes a cycle.
fn closes(
    alloc: Global,
    book: &mut Book<NoValue>,
    claim: &Claim,
    from: &Path,
    on: &Path,
) -> Result<bool, AllocError>
    requires { HasClaim book.old claim.now.number claim.now.seat }
    ensures { IfOk result (λ _. KeepsClaims book.old book.new) }
{
    let blocked = wait(alloc, book, claim, from, on)?;
    let is_cyclic = matches!(blocked, Blocked::Cyclic);
    drop(blocked);
    Ok(is_cyclic)
}

// Whether it waits for the import of a seat.
fn waits_for(
    alloc: Global,
    book: &mut Book<NoValue>,
    claim: &Claim,
    paths: (&Path, &Path),
    seat: u32,
) -> Result<bool, AllocError>
    requires { HasClaim book.old claim.now.number claim.now.seat }
    ensures { IfOk result (λ _. KeepsClaims book.old book.new) }
{
    let blocked = wait(alloc, book, claim, paths.0, paths.1)?;
    let is_waiting = matches!(blocked, Blocked::Wait(other) if other == seat);
    drop(blocked);
    Ok(is_waiting)
}

fn no_value(alloc: Global, from: &Path, on: &Path) -> Result<NoValue, AllocError> {
    let path = on.copy(alloc)?;
    let place = beginning(alloc, from)?;
    Ok(NoValue { path, place })
}

// The import of the file at a path has no value, since that of another has none.
fn settle(
    alloc: Global,
    book: &mut Book<NoValue>,
    claim: Claim,
    from: &Path,
    on: &Path,
) -> Result<(), AllocError>
    requires { HasClaim book.old claim.number claim.seat }
    ensures { OnOk result (KeepsOthers book.old book.new claim.number) }
{
    let answer = no_value(alloc, from, on)?;
    claims_stay();
    match book.file(claim, answer) {
        Ok(()) => Ok(()),
        Err(failed) => {
            drop(failed);
            Err(AllocError)
        }
    }
}

// Whether the answer of the import of the file at a path is that it has no value, since that of another has none.
fn is_answered(
    alloc: Global,
    book: &Book<NoValue>,
    from: &Path,
    on: &Path,
) -> Result<bool, AllocError> {
    let place = beginning(alloc, from)?;
    let key = import(alloc, from)?;
    let is_so = match book.find(&key) {
        None => false,
        Some(answer) => answer.path == *on && answer.place == place,
    };
    drop(key);
    drop(place);
    Ok(is_so)
}

fn are_answered(
    alloc: Global,
    book: &Book<NoValue>,
    x: &Path,
    y: &Path,
) -> Result<bool, AllocError> {
    Ok(is_answered(alloc, book, x, y)? && is_answered(alloc, book, y, x)?)
}

// Two imports that are claimed close a cycle: the second one needs the first.
fn close(
    alloc: Global,
    book: &mut Book<NoValue>,
    claims: (Claim, Claim),
    x: &Path,
    y: &Path,
) -> Result<bool, AllocError>
    requires first { HasClaim book.old claims.0.number claims.0.seat }
    requires second { HasClaim book.old claims.1.number claims.1.seat }
    requires apart { key_at book.old claims.0.number ≡ key_at book.old claims.1.number → ⊥ }
{
    let (first, second) = claims;
    let is_closed = closes(alloc, book, &second, y, x)?;
    settle(alloc, book, second, y, x)?;
    settle(alloc, book, first, x, y)?;
    Ok(is_closed)
}

// The import of the first file is claimed, and that of the second is needed.
fn need_second(
    alloc: Global,
    book: &mut Book<NoValue>,
    first: Claim,
    x: &Path,
    y: &Path,
) -> Result<bool, AllocError>
    requires { HasClaim book.old first.number first.seat }
{
    match begin(alloc, book, &first, x, y)? {
        None => Ok(false),
        Some(second) => close(alloc, book, (first, second), x, y),
    }
}

// What is loaded needs the import of the first file.
fn need_first(
    alloc: Global,
    book: &mut Book<NoValue>,
    entry: &Claim,
    x: &Path,
    y: &Path,
) -> Result<bool, AllocError>
    requires { HasClaim book.old entry.now.number entry.now.seat }
{
    match begin(alloc, book, entry, x, x)? {
        None => Ok(false),
        Some(first) => need_second(alloc, book, first, x, y),
    }
}

// One seat: what is loaded imports the first file, the first the second, and the second the first.
fn load_by_one(
    alloc: Global,
    book: &mut Book<NoValue>,
    x: &Path,
    y: &Path,
) -> Result<bool, AllocError>
    requires { HasNoClaim book.old 0 }
{
    match enter(book, 0)? {
        None => Ok(false),
        Some(entry) => {
            let is_closed = need_first(alloc, book, &entry, x, y);
            drop(entry);
            is_closed
        }
    }
}

fn is_cycle_of_one(alloc: Global, x: &Path, y: &Path) -> Result<bool, AllocError> {
    let mut book = Book::new(alloc, 1)?;
    let is_closed = load_by_one(alloc, &mut book, x, y);
    let is_small = !book.reaches_too_many();
    let are_answered = are_answered(alloc, &book, x, y);
    drop(book);
    Ok(is_closed? && is_small && are_answered?)
}

// A seat claims the import of the file at a path in a book without events.
fn claim_first(alloc: Global, book: &mut Book<NoValue>, path: &Path) -> Result<Claim, AllocError>
    requires { book.old.events ≡ [] }
    ensures { IfOk result (λ claim. HasAll book.new claim 0) }
{
    let key = import(alloc, path)?;
    let number = book.number(key)?;
    claims_stay();
    book.claim(0, number)
}

// Both imports are claimed, each by a seat.
fn wait_and_close(
    alloc: Global,
    book: &mut Book<NoValue>,
    claims: (Claim, Claim),
    x: &Path,
    y: &Path,
) -> Result<bool, AllocError>
    requires first { HasClaim book.old claims.0.number claims.0.seat }
    requires second { HasClaim book.old claims.1.number claims.1.seat }
    requires apart { key_at book.old claims.0.number ≡ key_at book.old claims.1.number → ⊥ }
{
    let is_waiting = waits_for(alloc, book, &claims.0, (x, y), 1)?;
    Ok(close(alloc, book, claims, x, y)? && is_waiting)
}

// The first import is claimed; what is loaded needs the second.
fn need_other(
    alloc: Global,
    book: &mut Book<NoValue>,
    claims: (Claim, &Claim),
    x: &Path,
    y: &Path,
) -> Result<bool, AllocError>
    requires first { HasClaim book.old claims.0.number claims.0.seat }
    requires entry { HasClaim book.old claims.1.now.number claims.1.now.seat }
{
    let (first, entry) = claims;
    match begin(alloc, book, entry, y, y)? {
        None => Ok(false),
        Some(second) => wait_and_close(alloc, book, (first, second), x, y),
    }
}

// Two seats: one has the first import, the other one loads what needs the second.
fn load_by_two(
    alloc: Global,
    book: &mut Book<NoValue>,
    x: &Path,
    y: &Path,
) -> Result<bool, AllocError>
    requires { book.old.events ≡ [] }
{
    let first = claim_first(alloc, book, x)?;
    match enter(book, 1)? {
        None => Ok(false),
        Some(entry) => {
            let is_closed = need_other(alloc, book, (first, &entry), x, y);
            drop(entry);
            is_closed
        }
    }
}

fn is_cycle_of_two(alloc: Global, x: &Path, y: &Path) -> Result<bool, AllocError> {
    let mut book = Book::new(alloc, 2)?;
    let is_closed = load_by_two(alloc, &mut book, x, y);
    let are_answered = are_answered(alloc, &book, x, y);
    drop(book);
    Ok(is_closed? && are_answered?)
}

fn file(alloc: Global, name: &[u8]) -> Result<Path, PathError> {
    let root = Path::root(alloc)?;
    resolve(alloc, &root, name)
}

fn are_cycles(alloc: Global) -> Result<bool, Fail> {
    let x = file(alloc, b"x.gni")?;
    let y = file(alloc, b"y.gni")?;
    let one_from_x = is_cycle_of_one(alloc, &x, &y);
    let one_from_y = is_cycle_of_one(alloc, &y, &x);
    let two = is_cycle_of_two(alloc, &x, &y);
    drop(y);
    drop(x);
    Ok(one_from_x? && one_from_y? && two?)
}

#[test]
fn imports_on_a_cycle_have_no_value_from_every_entry(rt: HostRuntime) -> Result<(), Fail> {
    assert!(rt; are_cycles(rt.alloc())?);
    Ok(())
}
