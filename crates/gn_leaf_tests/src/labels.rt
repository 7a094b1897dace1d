// Labels and patterns, with values that the language's rules give.

use crate::rows::{calls, field, is_shown};
use gn_labels::{Label, LabelError, Pattern, PatternError, is_name};
use gn_paths::{Path, PathError, Text, resolve};
use std::alloc::{AllocError, Global};
use std::test::Fail;

/// Calls on labels, each with what it answers or why it doesn't. Where a label is an argument, its directory, its name and its
/// toolchain stand there. Labels are read in a file of `//c/d` whose toolchain is `//t:u`, and printed where `//t:t` is the
/// default toolchain.
pub(crate) const LABELS: &str = calls! {
    print("//", "g", "//t:t") => "//:g";
    print("//", "k", "//t:t") => "//:k";
    print("//", "k", "//a:a") => "//:k(//a:a)";
    print("//", "k", "//t:u") => "//:k(//t:u)";
    print("//a", "a", "//t:t") => "//a:a";
    before("//", "", "//t:t", "//", "g", "//t:t") => true;
    before("//", "g", "//t:t", "//", "k", "//t:t") => true;
    before("//", "k", "//t:t", "//", "k", "//a:a") => true;
    before("//", "k", "//a:a", "//", "k", "//t:u") => true;
    before("//", "k", "//t:u", "//a", "a", "//t:t") => true;
    read(":k(//t:t)") => "//c/d:k";
    read(":k") => "//c/d:k(//t:u)";
    read(":b(:t)") => "//c/d:b(//c/d:t)";
    read("//a/(//t)") => "//a:a";
    read("../x:y(//t:t)") => "//c/x:y";
    read("//a*:b(//t:t)") => "//a*:b";
    read("//:g(//t:t)") => "//:g";
    read("x") => "BadLabel";
    read("../x") => "BadLabel";
    read("//") => "BadLabel";
    read("/s:a") => "BadLabel";
    read("//a:b()") => "BadLabel";
    read("//a:b(c)") => "BadLabel";
    read("//a:b(//t:t") => "BadLabel";
    read("//..") => "AboveRoot";
    read("//../.") => "AboveRoot";
    read("//./") => "BadLabel";
    read("//a/..") => "BadLabel";
    read("//a\0") => "BadLabel";
    read("//a\0//") => "BadLabel";
    read("//a\0/.") => "BadLabel";
    read("//a\0/b") => "BadPath";
    read("//../a)") => "BadLabel";
    read("//../a)//") => "BadLabel";
    read("//../a)/.") => "BadLabel";
    read("//..:b(c)") => "BadLabel";
    is_name("a/b") => true;
    is_name("a*") => false;
};

/// Calls on patterns, which are read in a file of `//c/d`.
pub(crate) const PATTERNS: &str = calls! {
    matches("//a:*", "//a:a") => true;
    matches("//a", "//a:a") => true;
    matches("//a/*", "//a:a") => true;
    matches("//a/*", "//a/b:a") => true;
    matches("//*(//t:u)", "//a:a") => true;
    matches("../*", "//c/x:a") => true;
    matches(":*", ":a") => true;
    matches("*", "//a:a") => true;
    matches("//a:*(//t*:t)", "//a:x(//t*:t)") => true;
    matches("//a:*", "//a/b:a") => false;
    matches("//a", "//a:b") => false;
    matches("//a/*", "//ab:a") => false;
    matches("//a/*", "//:a") => false;
    matches("//*(//t:u)", "//a:a(//t:t)") => false;
    matches("../*", "//:a") => false;
    matches(":*", "//c:a") => false;
    matches("//a:*(//t*:t)", "//a:x(//t:t)") => false;
    read("//a*") => "BadPattern";
    read("//a*:b") => "BadPattern";
    read("a") => "BadPattern";
    read("/s/*") => "BadPattern";
    read("//../*(x)") => "BadPattern";
    read("//../*") => "AboveRoot";
    read("//../a)//") => "BadPattern";
    read("//../a)/.") => "BadPattern";
    read("//a\0//") => "BadPattern";
    read("//a\0/.") => "BadPattern";
    read("//a:b(//t*:t)") => "BadPattern";
};

fn at_root(alloc: Global, text: &[u8]) -> Result<Path, PathError> {
    let root = Path::root(alloc)?;
    resolve(alloc, &root, text)
}

// The label whose directory stands at this place of a row, with its name and its toolchain behind it.
fn label(alloc: Global, row: &str, place: usize) -> Result<Label, Fail> {
    Ok(Label {
        dir: at_root(alloc, field(row, place).as_bytes())?,
        name: Text::from_bytes(alloc, field(row, place.saturating_add(1)).as_bytes())?,
        toolchain: Text::from_bytes(alloc, field(row, place.saturating_add(2)).as_bytes())?,
    })
}

fn prints_as(alloc: Global, label: &Label, wanted: &str) -> Result<bool, AllocError> {
    let default = Text::from_bytes(alloc, b"//t:t")?;
    let text = label.print(alloc, &default);
    drop(default);
    let text = text?;
    let is_so = text.as_bytes() == wanted.as_bytes();
    drop(text);
    Ok(is_so)
}

// A copy of the first label of a row.
fn first_label(alloc: Global, row: &str) -> Result<Label, Fail> {
    let label = label(alloc, row, 2)?;
    Ok(label.copy(alloc)?)
}

fn is_printed(alloc: Global, row: &str) -> Result<bool, Fail> {
    let label = first_label(alloc, row)?;
    Ok(prints_as(alloc, &label, field(row, 1))?)
}

fn stands_before(alloc: Global, first: &Label, second: &Label) -> Result<bool, AllocError> {
    let default = Text::from_bytes(alloc, b"//t:t")?;
    Ok(first.before(second, &default) && !second.before(first, &default))
}

fn is_ordered(alloc: Global, row: &str) -> Result<bool, Fail> {
    let first = first_label(alloc, row)?;
    let second = label(alloc, row, 5)?;
    let is_before = stands_before(alloc, &first, &second)?;
    Ok(is_shown(alloc, is_before, field(row, 1))?)
}

// What a file of `//c/d` means by the text, where its toolchain is `//t:u`.
fn read(alloc: Global, text: &str) -> Result<Label, LabelError> {
    let Ok(directory) = at_root(alloc, b"//c/d") else {
        return Err(LabelError::Memory);
    };
    read_there(alloc, text, &directory)
}

fn read_there(alloc: Global, text: &str, directory: &Path) -> Result<Label, LabelError> {
    match Text::from_bytes(alloc, b"//t:u") {
        Ok(toolchain) => Label::read(alloc, text.as_bytes(), directory, &toolchain),
        Err(_) => Err(LabelError::Memory),
    }
}

fn path_error_name(error: &PathError) -> &'static str {
    match error {
        PathError::AboveRoot => "AboveRoot",
        PathError::BadPath => "BadPath",
        PathError::Memory => "Memory",
    }
}

fn error_name(error: &LabelError) -> &'static str {
    match error {
        LabelError::BadLabel => "BadLabel",
        LabelError::Path(error) => path_error_name(error),
        LabelError::Memory => "Memory",
    }
}

fn is_read(alloc: Global, row: &str) -> Result<bool, AllocError> {
    let label = read(alloc, field(row, 2));
    let is_so = is_label(alloc, &label, field(row, 1));
    drop(label);
    is_so
}

// Whether a label prints so, or is none for this reason.
fn is_label(
    alloc: Global,
    label: &Result<Label, LabelError>,
    wanted: &str,
) -> Result<bool, AllocError> {
    match label {
        Ok(label) => prints_as(alloc, label, wanted),
        Err(error) => Ok(error_name(error) == wanted),
    }
}

fn is_known(alloc: Global, row: &str) -> Result<bool, AllocError> {
    is_shown(alloc, is_name(field(row, 2).as_bytes()), field(row, 1))
}

/// Whether a call on labels answers what its row expects.
pub(crate) fn is_label_answered(alloc: Global, row: &str) -> Result<bool, Fail> {
    match field(row, 0) {
        "print" => is_printed(alloc, row),
        "before" => is_ordered(alloc, row),
        "read" => Ok(is_read(alloc, row)?),
        "is_name" => Ok(is_known(alloc, row)?),
        _ => Ok(false),
    }
}

fn pattern(alloc: Global, text: &str) -> Result<Pattern, PatternError> {
    match at_root(alloc, b"//c/d") {
        Ok(directory) => Pattern::read(alloc, text.as_bytes(), &directory),
        Err(_) => Err(PatternError::Memory),
    }
}

fn pattern_error_name(error: &PatternError) -> &'static str {
    match error {
        PatternError::BadPattern => "BadPattern",
        PatternError::Path(error) => path_error_name(error),
        PatternError::Memory => "Memory",
    }
}

fn matches(alloc: Global, pattern: &Pattern, row: &str) -> Result<bool, Fail> {
    let label = read(alloc, field(row, 3))?;
    let matches = pattern.matches(&label);
    drop(label);
    Ok(is_shown(alloc, matches, field(row, 1))?)
}

/// Whether a pattern has the answer of a row: what it says of a label, or why it is none.
pub(crate) fn is_pattern_answered(alloc: Global, row: &str) -> Result<bool, Fail> {
    match &pattern(alloc, field(row, 2)) {
        Ok(pattern) => matches(alloc, pattern, row),
        Err(error) => Ok(pattern_error_name(error) == field(row, 1)),
    }
}
