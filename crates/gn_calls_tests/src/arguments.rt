// Build arguments: which value a name takes, and which names were given to no effect.

use crate::rows::field;
use gn_args::{apply, unused};
use gn_paths::{Text, Texts};
use gn_values::{Overrides, Value};
use std::alloc::{AllocError, Global};
use std::test::Fail;

// A table of lists of overrides, each with a name, its default, and the value that it takes.
macro_rules! applied {
    ($([$({ $($given:literal = $number:literal;)* })*] $name:literal = $default:literal => $value:literal;)+) => {
        concat!($($($($given, "=", $number, "\x1c",)* "\x1d",)* "\x1f", $name, "\x1f", $default, "\x1f", $value, "\x1f\x1e"),+)
    };
}

const APPLIED: &str = applied! {
    [] "x" = 1 => 1;
    [{ }] "x" = 1 => 1;
    [{ "x" = 2; }] "x" = 1 => 2;
    [{ "y" = 2; }] "x" = 1 => 1;
    [{ "x" = 2; } { "x" = 3; }] "x" = 1 => 3;
    [{ "x" = 2; } { "y" = 3; } { }] "x" = 1 => 2;
    [{ "x" = 2; } { "x" = 3; } { "y" = 4; }] "x" = 1 => 3;
    // A name that is given twice in one list has its last value.
    [{ "x" = 2; "w" = 4; "x" = 3; }] "x" = 1 => 3;
    [{ "" = 2; }] "" = 1 => 2;
};

// The integer that a text says; 0 where it says none.
fn number(text: &str) -> i64 {
    text.parse::<i64>().unwrap_or(0)
}

fn set(alloc: Global, list: &mut Overrides, assignment: &str) -> Result<(), AllocError> {
    let (name, text) = assignment.split_once('=').unwrap_or((assignment, ""));
    list.set(
        Text::from_bytes(alloc, name.as_bytes())?,
        Value::Int(number(text)),
    )
}

fn overrides(alloc: Global, given: &str) -> Result<Overrides, AllocError> {
    let mut list = Overrides::new(alloc);
    for assignment in given.split_terminator('\x1c') {
        set(alloc, &mut list, assignment)?;
    }
    Ok(list)
}

fn put(alloc: Global, lists: &mut Vec<Overrides>, given: &str) -> Result<(), AllocError> {
    lists.push(overrides(alloc, given)?)?;
    Ok(())
}

fn lists_of(alloc: Global, lists: &str) -> Result<Vec<Overrides>, AllocError> {
    let mut made = Vec::new(alloc);
    for given in lists.split_terminator('\x1d') {
        put(alloc, &mut made, given)?;
    }
    Ok(made)
}

fn is_integer(value: &Value, wanted: i64) -> bool {
    match value {
        Value::Int(number) => *number == wanted,
        _ => false,
    }
}

fn takes(alloc: Global, row: &str) -> Result<bool, AllocError> {
    let lists = lists_of(alloc, field(row, 0))?;
    let default = Value::Int(number(field(row, 2)));
    let value = apply(alloc, lists.as_slice(), field(row, 1).as_bytes(), default);
    drop(lists);
    let value = value?;
    let is_so = is_integer(&value, number(field(row, 3)));
    drop(value);
    Ok(is_so)
}

#[test]
fn the_last_override_counts(rt: HostRuntime) -> Result<(), Fail> {
    for row in APPLIED.split_terminator('\x1e') {
        assert!(rt; takes(rt.alloc(), row)?, "at {row}");
    }
    Ok(())
}

// A table of names that are given, names that are declared, and those without effect, each with a space behind it.
macro_rules! unused {
    ($(given [$($given:literal)*] declared [$($declared:literal)*] => $unused:literal;)+) => {
        concat!($($($given, "=1\x1c",)* "\x1f", $($declared, "\x1d",)* "\x1f", $unused, "\x1f\x1e"),+)
    };
}

const UNUSED: &str = unused! {
    given [] declared ["a"] => "";
    given ["b" "a" "c"] declared [] => "a b c ";
    given ["b" "a" "c"] declared ["b" "d" "b"] => "a c ";
    given ["a"] declared ["a"] => "";
    given ["host_os" "host_cpu" "current_os" "current_cpu" "target_os" "target_cpu" "host"] declared [] => "host ";
    given ["current_toolchain" "default_toolchain" "root_build_dir" "root_out_dir" "root_gen_dir" "target_out_dir" "target_gen_dir" "target_name"] declared [] => "target_name ";
};

fn declare(alloc: Global, names: &mut Texts, name: &str) -> Result<(), AllocError> {
    names.push(Text::from_bytes(alloc, name.as_bytes())?)
}

fn texts(alloc: Global, names: &str) -> Result<Texts, AllocError> {
    let mut texts = Texts::new(alloc);
    for name in names.split_terminator('\x1d') {
        declare(alloc, &mut texts, name)?;
    }
    Ok(texts)
}

// Whether the texts are these words, each of which has a space behind it.
fn are_words(texts: &Texts, words: &str) -> bool {
    let mut words = words.split_terminator(' ');
    for text in texts.as_slice() {
        let Some(word) = words.next() else {
            return false;
        };
        if text.as_bytes() != word.as_bytes() {
            return false;
        }
    }
    words.next().is_none()
}

fn have_no_effect(alloc: Global, row: &str) -> Result<bool, AllocError> {
    let given = overrides(alloc, field(row, 0))?;
    let declared = texts(alloc, field(row, 1))?;
    let names = unused(alloc, &given, &declared);
    drop(declared);
    drop(given);
    let names = names?;
    let is_so = are_words(&names, field(row, 2));
    drop(names);
    Ok(is_so)
}

#[test]
fn names_that_nothing_declares_have_no_effect(rt: HostRuntime) -> Result<(), Fail> {
    for row in UNUSED.split_terminator('\x1e') {
        assert!(rt; have_no_effect(rt.alloc(), row)?, "at {row}");
    }
    Ok(())
}
