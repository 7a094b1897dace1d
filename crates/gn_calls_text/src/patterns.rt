// Patterns of texts, and which texts match them.

ghost use Rattle.std.specs.Prelude.{◌≡◌, ◌+◌, ℕ, Bool, true, false, List, [], ◌∷◌, length, map, IfOk, option_map};
ghost use Rattle.std.specs.List.{list_any};
ghost use Rattle.gn_calls_text.specs.Patterns.{part_of, parts_of, matches_parts};
ghost use Rattle.gn_calls_text.specs.Rows.{BeginsWith, end_cell, cell, IsRow, part_lists};
ghost use Rattle.gn_calls_text.specs.Views.{bytes_in};

use crate::arguments::bytes_of;
use gn_values::Value;
use std::alloc::{AllocError, Global};

/// A part of a pattern.
#[derive(Clone, Copy)]
pub(crate) enum Part {
    /// `*`: any bytes, none too.
    Any,
    /// `\b`: a slash, or nothing at the beginning or the end of the string.
    Boundary,
    /// This byte.
    Byte(u8),
}

/// The part that a byte stands for which doesn't begin a `\b`.
fn part_of(byte: u8) -> Part
    ensures { result ≡ part_of byte }
{
    if byte == b'*' {
        Part::Any
    } else {
        Part::Byte(byte)
    }
}

/// The first part of a pattern, and what follows it.
fn first_part(pattern: &[u8]) -> Option<(Part, &[u8])>
    ensures { BeginsWith (option_map (λ p. (p.0, p.1.now)) result) pattern.now }
{
    match pattern {
        [b'\\', b'b', more @ ..] => Some((Part::Boundary, more)),
        [byte, more @ ..] => Some((part_of(*byte), more)),
        [] => None,
    }
}

/// The parts of a pattern.
fn parts_of(alloc: Global, pattern: &[u8]) -> Result<Vec<Part>, AllocError>
    ensures { IfOk result (λ parts. parts.items ≡ parts_of pattern.now) }
{
    let mut parts = Vec::with_capacity(alloc, pattern.len())?;
    let mut rest = pattern;
    while let Some((part, more)) = first_part(rest) {
        parts.push(part)?;
        rest = more;
    }
    Ok(parts)
}

/// The parts of each pattern.
pub(crate) fn parts_of_all(alloc: Global, patterns: &[Value]) -> Result<Vec<Vec<Part>>, AllocError>
    ensures { IfOk result (λ lists. part_lists lists.items ≡ map parts_of (map bytes_in patterns.now)) }
{
    let mut lists = Vec::with_capacity(alloc, patterns.len())?;
    for pattern in patterns {
        lists.push(parts_of(alloc, bytes_of(pattern))?)?;
    }
    Ok(lists)
}

/// Whether the end of a string matches this part and those behind it, where it matches those behind it or not.
fn end_cell(part: Part, behind: bool) -> bool
    ensures { result ≡ end_cell part behind }
{
    match part {
        Part::Any | Part::Boundary => behind,
        Part::Byte(_) => false,
    }
}

/// Makes the row of a pattern at the end of a string: whether it matches the parts from each place on.
fn end_row(row: &mut [bool], parts: &[Part])
    requires { length row.old ≡ length parts.now + 1 }
    ensures { (first : Bool) → IsRow parts.now first [] row.new }
{
    let mut place = parts.len();
    row[place] = true;
    while place > 0 {
        place -= 1;
        row[place] = end_cell(parts[place], row[place + 1]);
    }
}

/// What is known of a text without its first byte, at a part of a pattern and behind that part.
#[derive(Clone, Copy)]
struct Behind {
    here: bool,
    next: bool,
}

/// Whether a text of this first byte, which may be the first one of the string, matches a part and those behind it: by
/// what is known of the text without that byte, and of the text and the parts behind this one.
fn cell(part: Part, first: bool, byte: u8, behind: Behind, next: bool) -> bool
    ensures { result ≡ cell part first byte behind.here behind.next next }
{
    match part {
        Part::Any => next || behind.here,
        Part::Boundary => (first && next) || (byte == b'/' && behind.next),
        Part::Byte(wanted) => byte == wanted && behind.next,
    }
}

/// Turns the row of a text without its first byte into that of the text.
fn step_row(row: &mut [bool], parts: &[Part], first: bool, byte: u8)
    requires { length row.old ≡ length parts.now + 1 }
    ensures { (more : List ℕ) → IsRow parts.now false more row.old
        → IsRow parts.now first (byte ∷ more) row.new }
{
    let mut place = parts.len();
    let mut behind = row[place];
    row[place] = false;
    while place > 0 {
        place -= 1;
        let here = row[place];
        row[place] = cell(
            parts[place],
            first,
            byte,
            Behind { here, next: behind },
            row[place + 1],
        );
        behind = here;
    }
}

/// Whether the text matches the parts. It goes once over the text, from its end, with what each place in the pattern
/// comes to, and never looks back.
fn matches(alloc: Global, parts: &[Part], text: &[u8]) -> Result<bool, AllocError>
    ensures { IfOk result (λ m. m ≡ matches_parts parts.now true text.now) }
{
    let mut row = vec![in alloc; false; parts.len() + 1]?;
    Ok(matches_by(row.as_mut_slice(), parts, text))
}

fn matches_by(row: &mut [bool], parts: &[Part], text: &[u8]) -> bool
    requires { length row.old ≡ length parts.now + 1 }
    ensures { result ≡ matches_parts parts.now true text.now }
{
    end_row(row, parts);
    let mut place = text.len();
    while place > 0 {
        place -= 1;
        step_row(row, parts, place == 0, text[place]);
    }
    row[0]
}

/// Whether the text matches one of the patterns.
pub(crate) fn matches_some(
    alloc: Global,
    lists: &[Vec<Part>],
    text: &[u8],
) -> Result<bool, AllocError>
    ensures { IfOk result (λ m. m
        ≡ list_any (λ parts. matches_parts parts true text.now) (part_lists lists.now)) }
{
    for parts in lists {
        if matches(alloc, parts.as_slice(), text)? {
            return Ok(true);
        }
    }
    Ok(false)
}
