// Texts and paths as keys, sorted and compared, with clauses that say what they mean there.

ghost use Rattle.std.specs.Prelude.{◌≡◌, ◌↔◌, IsTrue, IfOk, OnOk, Some, option_map, nat_lt};
ghost use Rattle.std.specs.Ordering.{nat_cmp};
ghost use Rattle.std.specs.Cmp.Lexicographic.{slice_cmp};
ghost use Rattle.std.specs.List.Sorted.{IsSorted, IsPermutation};
ghost use Rattle.std.specs.BTreeMap.{get};
ghost use Rattle.std.specs.Option.{option_copied};

use gn_paths::{Path, Place, Text, Texts};
use std::alloc::{AllocError, AllocFailed, Global};
use std::cmp::Ordering;
use std::collections::BTreeMap;
use std::test::Fail;

fn are_same(a: &Text, b: &Text) -> bool
    ensures { IsTrue result ↔ (a.now ≡ b.now) }
{
    a == b
}

fn are_same_paths(a: &Path, b: &Path) -> bool
    ensures { IsTrue result ↔ (a.now ≡ b.now) }
{
    a == b
}

fn order(a: &Path, b: &Path) -> Ordering
    ensures { result ≡ slice_cmp nat_cmp a.now b.now }
{
    a.cmp(b)
}

fn are_same_places(a: &Place, b: &Place) -> bool
    ensures { IsTrue result ↔ (a.now ≡ b.now) }
{
    a == b
}

fn sort(texts: &mut Vec<Text>) -> Result<(), AllocError>
    ensures order { OnOk result (IsSorted (slice_cmp nat_cmp) texts.new.items) }
    ensures kept { IsPermutation texts.old.items texts.new.items }
{
    texts.sort()
}

fn put(
    map: &mut BTreeMap<Path, u32>,
    path: Path,
    value: u32,
) -> Result<(), AllocFailed<(Path, u32)>>
    ensures { OnOk result (get (slice_cmp nat_cmp) map.new path ≡ Some value) }
{
    map.insert(path, value)?;
    Ok(())
}

fn look_up(map: &BTreeMap<Path, u32>, path: &Path) -> Option<u32>
    ensures { result ≡ get (slice_cmp nat_cmp) map.now path.now }
{
    map.get(path).copied()
}

const UNSORTED: [&[u8]; 5] = [b"b", b"a/b", b"", b"a", b"\xFF"];

fn push(alloc: Global, list: &mut Vec<Text>, bytes: &[u8]) -> Result<(), AllocError> {
    list.push(Text::from_bytes(alloc, bytes)?)?;
    Ok(())
}

fn unsorted(alloc: Global) -> Result<Vec<Text>, AllocError> {
    let mut list = Vec::new(alloc);
    for bytes in UNSORTED {
        push(alloc, &mut list, bytes)?;
    }
    Ok(list)
}

fn sorted(mut list: Vec<Text>) -> Result<Vec<Text>, AllocError> {
    sort(&mut list)?;
    Ok(list)
}

// The texts, each with a space behind it.
fn joined(alloc: Global, texts: &[Text]) -> Result<Text, AllocError> {
    let mut joined = Text::new(alloc);
    for text in texts {
        joined.append(text.as_bytes())?;
        joined.push(b' ')?;
    }
    Ok(joined)
}

/// Whether texts are sorted by their bytes.
pub(crate) fn are_sorted(alloc: Global) -> Result<bool, AllocError> {
    let list = sorted(unsorted(alloc)?)?;
    let joined = joined(alloc, list.as_slice());
    drop(list);
    let joined = joined?;
    let are_sorted = joined.as_bytes() == b" a a/b b \xFF ".as_slice();
    drop(joined);
    Ok(are_sorted)
}

/// Whether all texts are copied.
pub(crate) fn are_copied(alloc: Global) -> Result<bool, AllocError> {
    let texts = Texts::from_vec(unsorted(alloc)?);
    let copied = texts.copy(alloc);
    drop(texts);
    let copy = copied?;
    let count = copy.as_slice().len();
    drop(copy);
    Ok(count == 5)
}

fn is_same_key(root: &Path, again: &Path) -> bool {
    are_same_paths(root, again) && order(root, again) == Ordering::Equal && root.as_str() == "//"
}

// The value at the root once it is put there.
fn value_at(
    alloc: Global,
    root: Path,
    again: &Path,
) -> Result<Option<u32>, AllocFailed<(Path, u32)>> {
    let mut map = BTreeMap::new(alloc);
    put(&mut map, root, 7)?;
    Ok(look_up(&map, again))
}

// Whether a copy of a path is the same key as that path.
fn is_key_again(alloc: Global, again: &Path) -> Result<bool, Fail> {
    let root = again.copy(alloc)?;
    let is_same = is_same_key(&root, again);
    Ok(value_at(alloc, root, again)? == Some(7) && is_same)
}

/// Whether paths are keys.
pub(crate) fn is_key(alloc: Global) -> Result<bool, Fail> {
    let again = Path::root(alloc)?;
    let is_key = is_key_again(alloc, &again);
    drop(again);
    is_key
}

fn is_place(alloc: Global, place: &Place) -> Result<bool, AllocError> {
    let file = Text::from_vec(Vec::from_slice(alloc, b"//")?);
    let is_file = are_same(&place.file, &file);
    drop(file);
    let copy = place.copy(alloc)?;
    let is_copy = are_same_places(place, &copy);
    drop(copy);
    Ok(is_file && is_copy)
}

/// Whether a place is compared and copied.
pub(crate) fn is_place_of_root(alloc: Global) -> Result<bool, AllocError> {
    let root = Path::root(alloc)?;
    let file = root.as_text().copy(alloc);
    drop(root);
    let place = Place {
        file: file?,
        line: 1,
        column: 2,
    };
    let is_place = is_place(alloc, &place);
    drop(place);
    is_place
}
