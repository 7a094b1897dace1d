// Faults: every text, the details that are missing, the places, and the order.

use crate::rows::{field, is_shown, number, table};
use gn_faults::{Code, Fault, Stage};
use gn_paths::{Place, Text, Texts};
use std::alloc::{AllocError, Global};

// The codes in the order of their numbers, which begin at 1.
static CODES: [Code; 48] = [
    Code::BadByte,
    Code::BadNumber,
    Code::OpenString,
    Code::BadDollar,
    Code::AboveRoot,
    Code::BadPath,
    Code::Unexpected,
    Code::TooDeep,
    Code::BadLabel,
    Code::BadPattern,
    Code::UnknownSubstitution,
    Code::BadTypes,
    Code::Overflow,
    Code::NotInList,
    Code::BadIndex,
    Code::TooLong,
    Code::Undefined,
    Code::Overwrite,
    Code::Conflict,
    Code::NoEffect,
    Code::AlreadySet,
    Code::DuplicateArgument,
    Code::NotBoolean,
    Code::UnknownFunction,
    Code::BadArguments,
    Code::Nesting,
    Code::AssertFailed,
    Code::Excluded,
    Code::WrongType,
    Code::Missing,
    Code::DuplicateItem,
    Code::NotAllowedHere,
    Code::Unresolved,
    Code::WrongKind,
    Code::Cycle,
    Code::Invisible,
    Code::TestOnly,
    Code::AssertNoDeps,
    Code::SameOutput,
    Code::ImportedBuildFile,
    Code::UnknownLabel,
    Code::NoPath,
    Code::BadInclude,
    Code::NoSourceFile,
    Code::ImportCycle,
    Code::TooLarge,
    Code::NoFile,
    Code::FileTooBig,
];

/// Details that are parted by `|`, and the text of a code with them, in the order of the numbers.
pub(crate) const TEXTS: &str = table! {
    "", "Invalid token.";
    "", "Invalid number.";
    "", "Unterminated string literal.";
    "", "Invalid expansion in string.";
    "", "Path is above the source root.";
    "", "Invalid path.";
    "", "Unexpected token.";
    "", "Nesting is too deep.";
    "", "Invalid label.";
    "", "Invalid pattern.";
    "", "Unknown substitution.";
    "", "Wrong type of value.";
    "", "Integer overflow.";
    "", "Item not found in the list.";
    "", "Index out of range.";
    "", "Value is too long.";
    "x", "Undefined identifier \"x\".";
    "x", "Replacing nonempty list or scope \"x\".";
    "x", "Value collision on import: \"x\".";
    "x", "Assignment had no effect: \"x\".";
    "x", "\"x\" is already set.";
    "x", "Duplicate build argument \"x\".";
    "", "Condition is not a boolean.";
    "x", "Unknown function \"x\".";
    "x", "Wrong arguments to \"x\".";
    "", "Evaluation is nested too deeply.";
    "no x", "Assertion failed. no x";
    "x", "\"x\" is not in this profile.";
    "x", "Wrong type for \"x\".";
    "x", "\"x\" is missing.";
    "//:l", "Duplicate item \"//:l\".";
    "x", "\"x\" is not allowed here.";
    "//:l|//:m", "\"//:l\" needs \"//:m\", which is not defined.";
    "//:l|//:m", "\"//:l\" names \"//:m\", which is of another kind.";
    "//:l|//:m|//:l", "Dependency cycle: //:l -> //:m -> //:l";
    "//:l|//:m", "\"//:l\" may not depend on \"//:m\" (visibility).";
    "//:l|//:m", "\"//:l\" may not depend on \"//:m\" (testonly).";
    "//:l|//:m", "\"//:l\" must not reach \"//:m\".";
    "//a/b.cc", "Output \"//a/b.cc\" is made twice.";
    "//a/b.cc", "\"//a/b.cc\" is both loaded and imported.";
    "//:l", "No such item: //:l";
    "//:l|//:m", "No path between //:l and //:m";
    "//a/b.cc|//:l", "Include of \"//a/b.cc\" is not allowed from \"//:l\".";
    "//a/b.cc", "Source file \"//a/b.cc\" is missing.";
    "", "Import cycle.";
    "", "The build is larger than a limit.";
    "//a/b.cc", "No such file \"//a/b.cc\".";
    "//a/b.cc", "File \"//a/b.cc\" is too big.";
};

// The texts between the bars, none where there is no byte.
fn texts(alloc: Global, parted: &str) -> Result<Texts, AllocError> {
    let mut list = Texts::new(alloc);
    if parted.is_empty() {
        return Ok(list);
    }
    for text in parted.split('|') {
        push(alloc, &mut list, text)?;
    }
    Ok(list)
}

fn push(alloc: Global, list: &mut Texts, text: &str) -> Result<(), AllocError> {
    list.push(Text::from_bytes(alloc, text.as_bytes())?)
}

fn fault(alloc: Global, code: Code, parted: &str) -> Result<Fault, AllocError> {
    let detail = texts(alloc, parted)?;
    Ok(Fault {
        stage: Stage::Loading,
        place: None,
        toolchain: Text::new(alloc),
        code,
        detail,
    })
}

fn printed(alloc: Global, code: Code, parted: &str) -> Result<Text, AllocError> {
    let fault = fault(alloc, code, parted)?;
    let printed = fault.print(alloc);
    drop(fault);
    printed
}

fn prints(alloc: Global, code: Code, parted: &str, line: &[u8]) -> Result<bool, AllocError> {
    let printed = printed(alloc, code, parted)?;
    let is_so = printed.as_bytes() == line;
    drop(printed);
    Ok(is_so)
}

fn has_row(alloc: Global, code: Code, row: &str) -> Result<bool, AllocError> {
    let text = field(row, 1);
    let line = format!(in alloc; "ERROR: {text}\n")?;
    let is_so = prints(alloc, code, field(row, 0), line.as_bytes());
    drop(line);
    is_so
}

/// Whether the row of this number says the text of its code.
pub(crate) fn is_text(alloc: Global, number: usize, row: &str) -> Result<bool, AllocError> {
    match CODES.get(number) {
        Some(code) => Ok(
            usize::from(code.number()) == number.wrapping_add(1) && has_row(alloc, *code, row)?,
        ),
        None => Ok(false),
    }
}

// The code of this name.
fn code_named(alloc: Global, name: &str) -> Result<Option<Code>, AllocError> {
    for code in &CODES {
        if is_shown(alloc, *code, name)? {
            return Ok(Some(*code));
        }
    }
    Ok(None)
}

/// A code, details that are missing or too many, and the line.
pub(crate) const LINES: &str = table! {
    "AssertFailed", "", "ERROR: Assertion failed.\n";
    "AssertFailed", "a|b", "ERROR: Assertion failed. a\n";
    "Missing", "", "ERROR: \"\" is missing.\n";
    "Missing", "a|b", "ERROR: \"a\" is missing.\n";
    "NoPath", "a", "ERROR: No path between a and \n";
    "NoPath", "%|b", "ERROR: No path between % and b\n";
    "Cycle", "", "ERROR: Dependency cycle: \n";
    "TooLarge", "a", "ERROR: The build is larger than a limit.\n";
};

/// Whether a code with details has the line of its row.
pub(crate) fn has_line(alloc: Global, row: &str) -> Result<bool, AllocError> {
    match code_named(alloc, field(row, 0))? {
        Some(code) => prints(alloc, code, field(row, 1), field(row, 2).as_bytes()),
        None => Ok(false),
    }
}

// A fault: its stage, its code, its details, its toolchain, and the file, the line and the column of its place. It has no place
// where no file stands.
const PLACED: &str = table! {
    "Loading", "BadByte", "", "//t:t", "//a/BUILD.gn", 12, 4294967295;
};

/// Faults, each before the next. The one for a file that is missing names it.
pub(crate) const IN_ORDER: &str = table! {
    "Arguments", "BadByte", "", "", "//z", 9, 9;
    "Loading", "TooLarge", "", "", "", 0, 0;
    "Loading", "NoFile", "//a", "", "", 0, 0;
    "Loading", "BadByte", "", "", "//a", 1, 1;
    "Loading", "BadNumber", "", "", "//a", 1, 1;
    "Loading", "BadByte", "", "", "//a", 1, 2;
    "Loading", "BadByte", "", "", "//a", 2, 1;
    "Loading", "BadByte", "", "//t:t", "//a", 1, 1;
    "Loading", "BadByte", "", "", "//a/b", 1, 1;
    "Graph", "BadByte", "", "", "", 0, 0;
};

fn stage_named(name: &str) -> Stage {
    match name {
        "Arguments" => Stage::Arguments,
        "Loading" => Stage::Loading,
        _ => Stage::Graph,
    }
}

// The line or the column of a row.
fn coordinate(row: &str, place: usize) -> u32 {
    u32::try_from(number(row, place)).unwrap_or(0)
}

fn place_of(alloc: Global, row: &str) -> Result<Option<Place>, AllocError> {
    if field(row, 4).is_empty() {
        return Ok(None);
    }
    let file = Text::from_bytes(alloc, field(row, 4).as_bytes())?;
    Ok(Some(Place {
        file,
        line: coordinate(row, 5),
        column: coordinate(row, 6),
    }))
}

fn standing(alloc: Global, row: &str) -> Result<Fault, AllocError> {
    let code = code_named(alloc, field(row, 1))?.unwrap_or(Code::FileTooBig);
    let place = place_of(alloc, row)?;
    let detail = texts(alloc, field(row, 2))?;
    let toolchain = Text::from_bytes(alloc, field(row, 3).as_bytes())?;
    Ok(Fault {
        stage: stage_named(field(row, 0)),
        place,
        toolchain,
        code,
        detail,
    })
}

fn is_placed(alloc: Global, fault: &Fault) -> Result<bool, AllocError> {
    let line = fault.print(alloc)?;
    let is_so = line.as_bytes()
        == b"ERROR at //a/BUILD.gn:12:4294967295: Invalid token.\n".as_slice();
    drop(line);
    Ok(is_so)
}

fn are_equal(fault: &Fault, other: &Fault) -> bool {
    !fault.before(other) && !other.before(fault)
}

fn is_copied(alloc: Global, fault: &Fault) -> Result<bool, AllocError> {
    let copied = fault.copy(alloc)?;
    let are_equal = are_equal(fault, &copied);
    let is_placed = is_placed(alloc, &copied);
    drop(copied);
    Ok(is_placed? && are_equal)
}

/// Whether a fault with a place is printed and copied.
pub(crate) fn is_placed_and_copied(alloc: Global) -> Result<bool, AllocError> {
    let fault = standing(alloc, PLACED)?;
    let is_placed = is_placed(alloc, &fault);
    let is_copied = is_copied(alloc, &fault);
    drop(fault);
    Ok(is_placed? && is_copied?)
}

fn is_before(alloc: Global, fault: &Fault, other: &str) -> Result<bool, AllocError> {
    let other = standing(alloc, other)?;
    let is_before = fault.before(&other);
    drop(other);
    Ok(is_before)
}

// Whether the fault stands before the later ones alone.
fn is_at(alloc: Global, place: usize, fault: &Fault) -> Result<bool, AllocError> {
    for (number, other) in IN_ORDER.split_terminator('\x1e').enumerate() {
        if is_before(alloc, fault, other)? != (place < number) {
            return Ok(false);
        }
    }
    Ok(true)
}

/// Whether the fault of a row, which stands at a place of the table, stands before the later ones alone.
pub(crate) fn is_in_order(alloc: Global, place: usize, row: &str) -> Result<bool, AllocError> {
    let fault = standing(alloc, row)?;
    let is_so = is_at(alloc, place, &fault);
    drop(fault);
    is_so
}

// Whether a fault stands before the one of its code that has these details.
fn stands_before(alloc: Global, few: &Fault, parted: &str) -> Result<bool, AllocError> {
    let more = fault(alloc, Code::Missing, parted)?;
    let is_so = few.before(&more) && !more.before(few);
    drop(more);
    Ok(is_so)
}

/// Whether more details stand behind fewer.
pub(crate) fn are_counted(alloc: Global) -> Result<bool, AllocError> {
    let few = fault(alloc, Code::Missing, "a|b")?;
    let are_counted = stands_before(alloc, &few, "a|b|");
    drop(few);
    are_counted
}

/// Whether stages and codes are in their orders.
pub(crate) fn are_ordered() -> bool {
    Stage::Question < Stage::Includes
        && Code::BadByte < Code::FileTooBig
        && Stage::Graph == Stage::Graph
        && Code::Cycle != Code::ImportCycle
}
