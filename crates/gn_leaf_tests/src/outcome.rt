// What an execution leaves.

use crate::rows::{field, is_shown, number, table};
use gn_define::Fields;
use gn_items::{Item, ItemKind, Outcome, Question, Tools};
use gn_labels::Label;
use gn_paths::{Path, PathError, Place, Text, resolve};
use std::alloc::{AllocError, Global};
use std::test::Fail;

// The name of an item, and its line.
const ADDED: &str = table! {
    "k", 1;
    "g", 2;
    "k", 3;
};

/// A name, a toolchain, whether the label is known, and the line of the first item that has it, 0 where none has.
pub(crate) const KNOWN: &str = table! {
    "k", "", "true", 1;
    "g", "", "true", 2;
    "k", "//t:t", "false", 0;
    "h", "", "false", 0;
};

// What is asked for, the content of a file or what its import leaves, and the path.
const ASKED: &str = table! {
    "content", "//a";
    "content", "//b";
    "import", "//b";
};

fn label(alloc: Global, name: &str, toolchain: &str) -> Result<Label, AllocError> {
    Ok(Label {
        dir: Path::root(alloc)?,
        name: Text::from_bytes(alloc, name.as_bytes())?,
        toolchain: Text::from_bytes(alloc, toolchain.as_bytes())?,
    })
}

fn place(alloc: Global, line: u32) -> Result<Place, AllocError> {
    Ok(Place {
        file: Text::from_bytes(alloc, b"//BUILD.gn")?,
        line,
        column: 1,
    })
}

// The line of a row.
fn line(row: &str) -> u32 {
    u32::try_from(number(row, 1)).unwrap_or(0)
}

fn item(alloc: Global, row: &str) -> Result<Item, AllocError> {
    let label = label(alloc, field(row, 0), "")?;
    Ok(Item {
        kind: ItemKind::Group,
        label,
        place: place(alloc, line(row))?,
        fields: Fields::from_vec(alloc, Vec::new(alloc))?,
        tools: Tools::new(alloc),
    })
}

fn add(alloc: Global, outcome: &mut Outcome, row: &str) -> Result<(), AllocError> {
    outcome.add_item(item(alloc, row)?)?;
    outcome.print(Text::from_bytes(alloc, field(row, 0).as_bytes())?)
}

fn outcome(alloc: Global) -> Result<Outcome, AllocError> {
    let mut outcome = Outcome::new(alloc);
    for row in ADDED.split_terminator('\x1e') {
        add(alloc, &mut outcome, row)?;
    }
    Ok(outcome)
}

// The line of the first item that has the label, 0 where none has.
fn first_line(outcome: &Outcome, label: &Label) -> u32 {
    match outcome.item(label) {
        Some(item) => item.place.line,
        None => 0,
    }
}

fn has(alloc: Global, outcome: &Outcome, row: &str) -> Result<bool, AllocError> {
    let label = label(alloc, field(row, 0), field(row, 1))?;
    let has = outcome.has(&label);
    let line = first_line(outcome, &label);
    drop(label);
    Ok(is_shown(alloc, has, field(row, 2))? && is_shown(alloc, line, field(row, 3))?)
}

/// Whether a label is known as the row expects.
pub(crate) fn is_known(alloc: Global, row: &str) -> Result<bool, AllocError> {
    let outcome = outcome(alloc)?;
    let is_known = has(alloc, &outcome, row);
    drop(outcome);
    is_known
}

/// Whether nothing is left at first.
pub(crate) fn begins_empty(alloc: Global) -> bool {
    let outcome = Outcome::new(alloc);
    outcome.items().is_empty()
        && outcome.prints().is_empty()
        && outcome.written().is_empty()
        && outcome.asked().is_empty()
}

fn are_items(items: &[Item]) -> bool {
    match items {
        [first, second, third] => {
            first.place.line == 1 && second.place.line == 2 && third.place.line == 3
        }
        _ => false,
    }
}

fn joined(alloc: Global, prints: &[Text]) -> Result<Text, AllocError> {
    let mut text = Text::new(alloc);
    for line in prints {
        text.append(line.as_bytes())?;
    }
    Ok(text)
}

fn are_prints(alloc: Global, prints: &[Text]) -> Result<bool, AllocError> {
    let text = joined(alloc, prints)?;
    Ok(text.as_bytes() == b"kgk".as_slice())
}

/// Whether items and lines come in order.
pub(crate) fn are_left_in_order(alloc: Global) -> Result<bool, AllocError> {
    let outcome = outcome(alloc)?;
    let are_items = are_items(outcome.items());
    let are_prints = are_prints(alloc, outcome.prints());
    drop(outcome);
    Ok(are_items && are_prints?)
}

fn path(alloc: Global, row: &str) -> Result<Path, PathError> {
    let root = Path::root(alloc)?;
    resolve(alloc, &root, field(row, 1).as_bytes())
}

fn ask(alloc: Global, outcome: &mut Outcome, row: &str) -> Result<(), PathError> {
    let path = path(alloc, row)?;
    let asked = match field(row, 0) {
        "import" => outcome.ask_import(&path),
        _ => outcome.ask_content(&path),
    };
    Ok(asked?)
}

fn is_question(question: Option<&Question>, row: &str) -> bool {
    match question {
        Some(Question::Content(path)) => {
            field(row, 0) == "content" && path.as_str() == field(row, 1)
        }
        Some(Question::Import(path)) => field(row, 0) == "import" && path.as_str() == field(row, 1),
        None => false,
    }
}

fn are_asked(asked: &[Question]) -> bool {
    let mut questions = asked.iter();
    for row in ASKED.split_terminator('\x1e') {
        if !is_question(questions.next(), row) {
            return false;
        }
    }
    questions.next().is_none()
}

fn ask_all(alloc: Global, outcome: &mut Outcome) -> Result<(), PathError> {
    for row in ASKED.split_terminator('\x1e') {
        ask(alloc, outcome, row)?;
    }
    Ok(())
}

fn are_kept(outcome: Outcome) -> bool {
    let kept = are_items(outcome.items()) && are_asked(outcome.asked());
    let asked = outcome.into_asked();
    let are_asked = are_asked(&asked);
    drop(asked);
    kept && are_asked
}

/// Whether questions come in order.
pub(crate) fn are_asked_in_order(alloc: Global) -> Result<bool, Fail> {
    let mut outcome = outcome(alloc)?;
    match ask_all(alloc, &mut outcome) {
        Ok(()) => Ok(are_kept(outcome)),
        Err(error) => {
            drop(outcome);
            Err(error)?
        }
    }
}
