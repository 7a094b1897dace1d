// What is kept of executions that need another answer first.

ghost use Rattle.std.specs.Prelude.{◌≡◌, true, IfOk, IfSome, OnOk, map};
ghost use Rattle.gn_items.specs.Questions.{question_of};
ghost use Rattle.gn_runs.specs.Runs.{import_of};
ghost use Rattle.gn_eval.specs.Ends.{asked_until};
ghost use Rattle.gn_executions.specs.Base.{BaseState};
ghost use Rattle.gn_core.specs.Keys.{Filed};
ghost use Rattle.gn_perform.specs.Kept.{asked_so_far, IsKeptOf, AreKept, Stores};

use gn_items::{Key, Question, When};
use gn_paths::Path;
use gn_unit::{Parsed, Paused};
use std::alloc::{AllocError, Global};
use std::collections::VecDeque;

/// What is kept of an execution that needs another answer first.
#[derive(Drop)]
pub enum Kept {
    /// The questions that it has asked before, in order: it is to begin anew.
    Asked(Vec<Question>),
    /// What is left of it: it is to go on there.
    Rest(Paused),
    /// The tree of its file, and the questions that it has asked before, in order: it is to begin anew with that tree.
    Tree(Parsed, Vec<Question>),
}

/// Where an execution goes on that has needed another answer.
#[derive(Drop)]
pub enum Rest {
    /// In front of a statement.
    Paused(Paused),
    /// At its beginning, with the tree of its file.
    Tree(Parsed),
}

/// The questions that an execution has asked of which this is kept, in order. It takes no memory.
fn into_asked(kept: Kept) -> Vec<Question>
    ensures { map question_of result.items ≡ asked_so_far kept }
{
    match kept {
        Kept::Asked(asked) => asked,
        Kept::Rest(rest) => rest.into_asked(),
        Kept::Tree(_, asked) => asked,
    }
}

// These questions, and behind them what the import of a file at a path asks.
fn with_import(
    alloc: Global,
    asked: Vec<Question>,
    path: &Path,
) -> Result<Vec<Question>, AllocError>
    ensures { IfOk result (λ all. map question_of all.items ≡ asked_until (import_of path.now) (map question_of asked.items)) }
{
    let mut all = asked;
    all.push(Question::Content(path.copy(alloc)?))?;
    all.push(Question::Import(path.copy(alloc)?))?;
    Ok(all)
}

/// The questions that an execution has asked that needs the import of the file at a path, and of which this is kept, in order.
pub fn asked_until(alloc: Global, kept: Kept, path: &Path) -> Result<Vec<Question>, AllocError>
    ensures { IfOk result (λ all. map question_of all.items ≡ asked_until (import_of path.now) (asked_so_far kept)) }
{
    with_import(alloc, into_asked(kept), path)
}

/// What is left of the execution of a key.
#[derive(Drop)]
pub struct KeyRest {
    /// The key.
    pub key: Key,
    /// What is left.
    pub rest: Rest,
}

// Puts what is left of the execution of a key before the others.
fn push_rest(
    alloc: Global,
    rests: &mut VecDeque<KeyRest>,
    key: &Key,
    rest: Rest,
) -> Result<(), AllocError>
    ensures { OnOk result ((base : BaseState) (filed : Filed) → IsKeptOf base filed key.now rest → AreKept base filed rests.old.items → AreKept base filed rests.new.items) }
{
    let key = key.copy(alloc)?;
    rests.push_front(KeyRest { key, rest })?;
    Ok(())
}

/// What is kept of the execution of a key is put before the rests of others, as far as something of it is used again.
pub fn store(
    alloc: Global,
    rests: &mut VecDeque<KeyRest>,
    key: &Key,
    kept: Kept,
) -> Result<(), AllocError>
    ensures { OnOk result (Stores key.now kept rests.old.items rests.new.items) }
{
    match kept {
        Kept::Asked(_) => Ok(()),
        Kept::Rest(rest) => push_rest(alloc, rests, key, Rest::Paused(rest)),
        Kept::Tree(tree, _) => push_rest(alloc, rests, key, Rest::Tree(tree)),
    }
}

fn is_same_text(one: &[u8], other: &[u8]) -> bool
    ensures { result ≡ true → one.now ≡ other.now }
{
    one == other
}

fn is_same_path(one: &Path, other: &Path) -> bool
    ensures { result ≡ true → one.now ≡ other.now }
{
    is_same_text(one.as_text().as_bytes(), other.as_text().as_bytes())
}

fn is_same_when(one: When, other: When) -> bool
    ensures { result ≡ true → one ≡ other }
{
    match (one, other) {
        (When::Early, When::Early) => true,
        (When::Usual, When::Usual) => true,
        (When::Early, When::Usual) => false,
        (When::Usual, When::Early) => false,
    }
}

// Whether two keys of executions are the same; others aren't told so.
fn is_same_key(one: &Key, other: &Key) -> bool
    ensures { result ≡ true → one.now ≡ other.now }
{
    match (one, other) {
        (Key::Import(when, toolchain, path), Key::Import(then, tool, file)) => {
            is_same_path(path, file)
                && is_same_when(*when, *then)
                && is_same_text(toolchain.as_bytes(), tool.as_bytes())
        }
        (Key::Setup(toolchain), Key::Setup(tool)) => {
            is_same_text(toolchain.as_bytes(), tool.as_bytes())
        }
        (Key::Load(directory, toolchain), Key::Load(folder, tool)) => {
            is_same_path(directory, folder) && is_same_text(toolchain.as_bytes(), tool.as_bytes())
        }
        _ => false,
    }
}

// What is left of an execution where it is that of a key; else it is put back.
fn taken_or_back(
    rests: &mut VecDeque<KeyRest>,
    key: &Key,
    first: KeyRest,
) -> Result<Option<Rest>, AllocError>
    ensures taken { IfOk result (λ rest. (base : BaseState) (filed : Filed) → IsKeptOf base filed first.key first.rest → IfSome rest (IsKeptOf base filed key.now)) }
    ensures left { IfOk result (λ rest. (base : BaseState) (filed : Filed) → IsKeptOf base filed first.key first.rest → AreKept base filed rests.old.items → AreKept base filed rests.new.items) }
{
    if is_same_key(&first.key, key) {
        let KeyRest { key: own, rest } = first;
        drop(own);
        return Ok(Some(rest));
    }
    rests.push_front(first)?;
    Ok(None)
}

/// What is left of the execution of a key, where it stands before the others; else nothing is changed but for want of memory.
pub fn take_rest(rests: &mut VecDeque<KeyRest>, key: &Key) -> Result<Option<Rest>, AllocError>
    ensures taken { IfOk result (λ rest. (base : BaseState) (filed : Filed) → AreKept base filed rests.old.items → IfSome rest (IsKeptOf base filed key.now)) }
    ensures left { IfOk result (λ rest. (base : BaseState) (filed : Filed) → AreKept base filed rests.old.items → AreKept base filed rests.new.items) }
{
    match rests.pop_front() {
        Some(first) => taken_or_back(rests, key, first),
        None => Ok(None),
    }
}
