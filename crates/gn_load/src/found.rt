// Build files that may be claimed are read ahead.

ghost use Rattle.std.specs.Prelude.{◌≡◌, ◌<◌, option_map, ◌≤◌, ◌+◌, ◌∷◌, ◌++◌, ℕ, List, [], Some, None, IfOk, OnOk, length, true};
ghost use Rattle.gn_outside.specs.States.{SourceState};
ghost use Rattle.gn_outside.specs.Lists.{Each};
ghost use Rattle.gn_values.specs.Tables.{with_name};
ghost use Rattle.gn_core.specs.Machine.{read_limit};
ghost use Rattle.gn_book.specs.Graphs.{UnitsHaveNumbers};
ghost use Rattle.gn_book.specs.Keys.{key_of};
ghost use Rattle.gn_book.specs.Next.{IsReadyNumber};
ghost use Rattle.gn_projects.specs.Loaded.{is_build_file};
ghost use Rattle.gn_builds.specs.Driving.{IsOfLayer};
ghost use Rattle.gn_load.specs.Current.{layer_now};
ghost use Rattle.gn_load.specs.Turns.{Goes};
ghost use Rattle.gn_load.specs.Rebased.{IsRebased};
ghost use Rattle.gn_load.specs.Found.{NeedsUnknown, FindsPath, WantsAt, IsWantedAt, KeepsRead, ReadsOne, FindsAt};
ghost use Rattle.gn_load.specs.Rounds.{IsWanted, FindsFiles};

use crate::driver::{Driver, MAX_PATHS, Stop};
use crate::own_file::own_need;
use gn_answers::{FileContent, PerformStop, read_content};
use gn_bases::Known;
use gn_book::KeyId;
use gn_items::{Key, When};
use gn_outside::Source;
use gn_paths::Path;
use gn_prepared::Wanted;
use std::alloc::{AllocError, Global};

/// Build files that may be claimed, by their numbers, with what there is at their paths.
#[derive(Drop)]
pub(crate) struct Found {
    /// Their numbers.
    pub(crate) numbers: Vec<KeyId>,
    /// What is wanted of each, in the same order.
    pub(crate) wanted: Vec<Wanted>,
}

// Whether a key is a build file.
fn is_file(key: &Key) -> bool
    ensures { result ≡ is_build_file (key_of key.now) }
{
    match key {
        Key::Load(..) => true,
        Key::Setup(_) => false,
        Key::Read(_) => false,
        Key::Import(..) => false,
        Key::Resolve(_) => false,
    }
}

// Whether the key of a number is a build file that has no answer: the seat, which has no claim, may claim it.
fn is_open_at(driver: &Driver, number: KeyId) -> bool
    requires goes { (known : List (List ℕ)) × (before : SourceState) × (now : SourceState) × Goes known before now driver.now [] }
    requires number { number < length driver.now.book.keys }
    ensures { result ≡ true → IsReadyNumber driver.now.book number }
{
    if is_file(driver.book.key(number)) {
        driver.book.answer(number).is_none()
    } else {
        false
    }
}

/// Whether the key of a number is a build file that has no answer: the seat, which has no claim, may claim it.
pub(crate) fn is_open(driver: &Driver, number: KeyId) -> bool
    requires goes { (known : List (List ℕ)) × (before : SourceState) × (now : SourceState) × Goes known before now driver.now [] }
    ensures { result ≡ true → IsReadyNumber driver.now.book number }
{
    if number < driver.book.len() {
        is_open_at(driver, number)
    } else {
        false
    }
}

// A path, if nothing is known of it.
fn unknown_read(known: &Known, path: Path) -> Option<Path>
    ensures { NeedsUnknown known.now.entries (Some path) result }
{
    if known.contains_key(&path) {
        drop(path);
        None
    } else {
        Some(path)
    }
}

// The path that is needed, if nothing is known of it.
fn unknown_need(known: &Known, needed: Option<Path>) -> Option<Path>
    ensures { NeedsUnknown known.now.entries needed result }
{
    match needed {
        Some(path) => unknown_read(known, path),
        None => None,
    }
}

// The path that the work on a build file needs first, if nothing is filed there and nothing is known of it.
fn first_path(alloc: Global, driver: &Driver, key: &Key) -> Result<Option<Path>, AllocError>
    requires layer { IsOfLayer (layer_now driver.now.base) (key_of key.now) }
    ensures path { IfOk result (FindsPath driver.now (key_of key.now)) }
{
    let needed = own_need(alloc, &driver.book, key)?;
    Ok(unknown_need(&driver.known, needed))
}

// Whether a key is a build file of the layer of the driver's base.
fn is_of_layer(driver: &Driver, key: &Key) -> bool
    ensures { result ≡ true → IsOfLayer (layer_now driver.now.base) (key_of key.now) × (is_build_file (key_of key.now) ≡ true) }
{
    match key {
        Key::Load(_, toolchain) => driver.base.is_of(When::Usual, toolchain),
        Key::Setup(_) => false,
        Key::Read(_) => false,
        Key::Import(..) => false,
        Key::Resolve(_) => false,
    }
}

// A key beside a path that it needs.
fn beside_key(
    alloc: Global,
    key: &Key,
    path: Option<Path>,
) -> Result<Option<(Key, Path)>, AllocError>
    ensures { IfOk result (λ wanted. wanted ≡ option_map (λ p. (key.now, p)) path) }
{
    match path {
        Some(path) => match key.copy(alloc) {
            Ok(key) => Ok(Some((key, path))),
            Err(error) => {
                drop(path);
                Err(error)
            }
        },
        None => Ok(None),
    }
}

// The key of a number, if it may be claimed and the path that it needs first is unknown, and that path.
fn wanted_at<S: Source>(
    alloc: Global,
    driver: &Driver,
    source: &mut S,
    number: KeyId,
) -> Result<Option<(Key, Path)>, AllocError>
    requires goes { (known : List (List ℕ)) × (before : SourceState) × (now : SourceState) × Goes known before now driver.now [] }
    requires number { number < length driver.now.book.keys }
    ensures wanted { IfOk result (WantsAt driver.now number) }
    ensures source { S.state source.new ≡ S.state source.old }
{
    let key = driver.book.key(number);
    if is_open_at(driver, number) && is_of_layer(driver, key) {
        let path = first_path(alloc, driver, key)?;
        beside_key(alloc, key, path)
    } else {
        Ok(None)
    }
}

// Content stands with what was read before; a copy, which shares it, comes back.
fn keep_read(known: &mut Known, path: Path, content: FileContent) -> Result<FileContent, AllocError>
    ensures kept { OnOk result (known.new.entries ≡ with_name path content known.old.entries) }
{
    let copy = content.copy()?;
    let _former = known.insert(path, content)?;
    Ok(copy)
}

// What there is at the path of a build file is kept, and wanted. No build asks for more files than the limit.
#[tactic(auto, unfolding(gn_core::specs::Machine::read_limit))]
fn keep_wanted(
    alloc: Global,
    driver: &mut Driver,
    key: Key,
    path: Path,
    content: FileContent,
    total: &mut usize,
) -> Result<Wanted, AllocError>
    requires { total.old < read_limit }
    ensures { IfOk result (KeepsRead driver.old driver.new total.old total.new key path content) }
{
    let own = path.copy(alloc)?;
    let content = keep_read(&mut driver.known, own, content)?;
    *total += 1;
    Ok(Wanted { key, path, content })
}

// The file of a build file is read ahead.
fn read_wanted<S: Source>(
    alloc: Global,
    driver: &mut Driver,
    source: &mut S,
    key: Key,
    path: Path,
    total: &mut usize,
) -> Result<Wanted, Stop>
    requires goes { (known : List (List ℕ)) × (before : SourceState) × IsRebased known before (S.state source.old) driver.old [] total.old }
    requires numbers { UnitsHaveNumbers driver.old.book }
    requires wanted { (n : ℕ) × IsWantedAt driver.old n key path }
    requires few { total.old < read_limit }
    ensures { (known : List (List ℕ)) (before : SourceState) → IsRebased known before (S.state source.old) driver.old [] total.old →
        ReadsOne known before (S.state source.new) driver.old driver.new total.new result }
{
    match read_content(alloc, &path, source) {
        Ok(content) => Ok(keep_wanted(alloc, driver, key, path, content, total)?),
        Err(PerformStop::Failed) => {
            drop(key);
            Err(Stop::Failed(path))
        }
        Err(PerformStop::Memory) => {
            drop(key);
            Err(Stop::Memory)
        }
    }
}

// One more that is wanted.
fn add(found: &mut Found, number: KeyId, wanted: Wanted) -> Result<(), AllocError>
    ensures { OnOk result (found.new.wanted.items ≡ found.old.wanted.items ++ wanted ∷ []) }
{
    found.numbers.push(number)?;
    found.wanted.push(wanted)?;
    Ok(())
}

// The file of the key of a number is read ahead, if it may be claimed and nothing is known of its file.
#[tactic(auto, unfolding(gn_core::specs::Machine::read_limit))]
fn find_at<S: Source>(
    alloc: Global,
    driver: &mut Driver,
    source: &mut S,
    number: KeyId,
    total: &mut usize,
    found: &mut Found,
) -> Result<(), Stop>
    requires goes { (known : List (List ℕ)) × (before : SourceState) × IsRebased known before (S.state source.old) driver.old [] total.old }
    requires numbers { UnitsHaveNumbers driver.old.book }
    requires number { number < length driver.old.book.keys }
    ensures { (known : List (List ℕ)) (before : SourceState) → IsRebased known before (S.state source.old) driver.old [] total.old →
        Each (IsWanted driver.old.base) found.old.wanted.items → FindsAt known before (S.state source.new) driver.old driver.new total.new found.new result }
{
    if *total >= MAX_PATHS {
        return Ok(());
    }
    match wanted_at(alloc, driver, source, number)? {
        Some((key, path)) => {
            let wanted = read_wanted(alloc, driver, source, key, path, total)?;
            Ok(add(found, number, wanted)?)
        }
        None => Ok(()),
    }
}

/// No build files. It takes no memory.
pub(crate) fn no_files(alloc: Global) -> Found
    ensures { result.wanted.items ≡ [] }
{
    Found {
        numbers: Vec::new(alloc),
        wanted: Vec::new(alloc),
    }
}

/// The build files of numbers from this one on, up to another, that may be claimed: their files are read ahead.
pub(crate) fn find_from<S: Source>(
    alloc: Global,
    driver: &mut Driver,
    source: &mut S,
    from: KeyId,
    end: KeyId,
    total: &mut usize,
) -> Result<Found, Stop>
    requires goes { (known : List (List ℕ)) × (before : SourceState) × IsRebased known before (S.state source.old) driver.old [] total.old }
    requires numbers { UnitsHaveNumbers driver.old.book }
    requires end { end ≤ length driver.old.book.keys }
    ensures { (known : List (List ℕ)) (before : SourceState) → IsRebased known before (S.state source.old) driver.old [] total.old →
        FindsFiles known before (S.state source.new) driver.old driver.new total.new result }
{
    let mut found = no_files(alloc);
    let mut number = from;
    'numbers: while number < end {
        find_at(alloc, driver, source, number, total, &mut found)?;
        number += 1;
    }
    Ok(found)
}
