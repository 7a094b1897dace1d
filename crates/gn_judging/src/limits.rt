// Imports that need more others than one may need.

ghost use Rattle.std.specs.Prelude.{◌≡◌, ◌↔◌, ◌<◌, ◌∷◌, [], ℕ, List, IsTrue, IfOk, OnOk, Some, length, map, option_map};
ghost use Rattle.std.specs.Str.{bytes_eq};
ghost use Rattle.indexmap.specs.IndexSet.{insert_key};
ghost use Rattle.gn_items.specs.Questions.{question_of};
ghost use Rattle.gn_core.specs.Keys.{Import};
ghost use Rattle.gn_core.specs.Machine.{asked_in};
ghost use Rattle.gn_book.specs.Keys.{layer_at};
ghost use Rattle.gn_book.specs.Logs.{key_at, state_of};
ghost use Rattle.gn_builds.specs.Causes.{NeedsMany};
ghost use Rattle.gn_builds.specs.Rest.{HasLargeImport};
ghost use Rattle.gn_answers.specs.Answers.{meaning_of};
ghost use Rattle.gn_judging.specs.Limits.{asked_of, with_import, with_imports, AreFound, OpensNext, IsLarge};

use gn_answers::{Answer, Executed, Filed, find, import_key};
use gn_book::{Book, KeyId};
use gn_builds::closed_imports_are_all;
use gn_items::{Key, Question, When};
use gn_paths::{Path, Text};
use indexmap::IndexSet;
use std::alloc::{AllocError, Global};

/// How many imports one may need, itself among them.
pub(crate) const IMPORT_LIMIT: usize = 200;

/// What an execution has asked.
pub fn asked_of<T>(executed: &Executed<T>) -> &[Question]
    ensures { map question_of result.now ≡ asked_of executed.now }
{
    match executed {
        Executed::Left(_, outcome) => outcome.asked(),
        Executed::Wrong(_, asked) => asked.as_slice(),
        Executed::Spoiled(_, _, asked) => asked.as_slice(),
    }
}

// A path joins the others.
fn put(paths: &mut IndexSet<Path>, path: Path) -> Result<(), AllocError>
    ensures { OnOk result (paths.new.keys ≡ insert_key bytes_eq paths.old.keys path) }
{
    paths.insert(path)?;
    Ok(())
}

// The import joins the others that a question asks for, if it asks for one.
fn add_import(
    alloc: Global,
    paths: &mut IndexSet<Path>,
    question: &Question,
) -> Result<(), AllocError>
    ensures { OnOk result (paths.new.keys ≡ with_import paths.old.keys (question_of question.now)) }
{
    match question {
        Question::Content(_) => Ok(()),
        Question::Import(path) => put(paths, path.copy(alloc)?),
    }
}

// The imports join the others for which these questions ask.
fn add_imports(
    alloc: Global,
    paths: &mut IndexSet<Path>,
    asked: &[Question],
) -> Result<(), AllocError>
    ensures { OnOk result (paths.new.keys ≡ with_imports paths.old.keys (map question_of asked.now)) }
{
    for question in asked {
        add_import(alloc, paths, question)?;
    }
    Ok(())
}

// The imports join the others for which an answer asks.
fn add_asked(alloc: Global, paths: &mut IndexSet<Path>, filed: &Filed) -> Result<(), AllocError>
    ensures { OnOk result (paths.new.keys ≡ with_imports paths.old.keys (asked_in (Some (meaning_of filed.now)))) }
{
    match filed {
        Filed::Import(executed) => add_imports(alloc, paths, asked_of(executed)),
        Filed::Unit(executed) => add_imports(alloc, paths, asked_of(executed)),
        Filed::NoValue(_, _, asked) => add_imports(alloc, paths, asked.as_slice()),
        Filed::Content(_) => Ok(()),
    }
}

// The imports join the others for which an answer asks, if there is one.
fn add_found(
    alloc: Global,
    paths: &mut IndexSet<Path>,
    filed: Option<&Filed>,
) -> Result<(), AllocError>
    ensures { OnOk result (paths.new.keys ≡ with_imports paths.old.keys (asked_in (option_map (λ filed. meaning_of filed.now) filed.entry))) }
{
    match filed {
        Some(filed) => add_asked(alloc, paths, filed),
        None => Ok(()),
    }
}

// The imports join the others for which the one at a place asks. It answers whether there is one at that place.
fn open_next(
    alloc: Global,
    book: &Book<Answer>,
    when: When,
    toolchain: &Text,
    paths: &mut IndexSet<Path>,
    at: usize,
) -> Result<bool, AllocError>
    ensures { IfOk result (λ opened. (path : List ℕ) → AreFound (state_of book.now).filed (layer_at when toolchain.now) path paths.old.keys at
        → OpensNext (state_of book.now).filed (layer_at when toolchain.now) path paths.new.keys at opened) }
{
    let key = match paths.get_index(at) {
        None => return Ok(false),
        Some(path) => import_key(alloc, when, toolchain, path)?,
    };
    add_found(alloc, paths, find(book, &key))?;
    Ok(true)
}

// A list that has this path alone.
fn first(alloc: Global, path: &Path) -> Result<IndexSet<Path>, AllocError>
    ensures { IfOk result (λ paths. paths.keys ≡ path.now ∷ []) }
{
    let path = path.copy(alloc)?;
    let mut paths = IndexSet::new(alloc);
    put(&mut paths, path)?;
    Ok(paths)
}

// Whether the import of a path needs more imports of its layer than one may need.
fn needs_many(
    alloc: Global,
    book: &Book<Answer>,
    when: When,
    toolchain: &Text,
    path: &Path,
) -> Result<bool, AllocError>
    ensures { IfOk result (λ many. IsTrue many ↔ NeedsMany (state_of book.now).filed (layer_at when toolchain.now) path.now) }
{
    closed_imports_are_all();
    let mut paths = first(alloc, path)?;
    for at in 0..IMPORT_LIMIT {
        let opened = open_next(alloc, book, when, toolchain, &mut paths, at)?;
        if !opened {
            return Ok(false);
        }
    }
    Ok(paths.len() > IMPORT_LIMIT)
}

// Whether the key of a number is that of an import that needs more others than one may need.
fn is_large(alloc: Global, book: &Book<Answer>, number: KeyId) -> Result<bool, AllocError>
    requires { number < length book.now.keys }
    ensures { IfOk result (λ large. IsTrue large ↔ IsLarge (state_of book.now).filed (key_at book.now number)) }
{
    match book.key(number) {
        Key::Import(when, toolchain, path) => needs_many(alloc, book, *when, toolchain, path),
        Key::Read(_) => Ok(false),
        Key::Setup(_) => Ok(false),
        Key::Load(..) => Ok(false),
        Key::Resolve(_) => Ok(false),
    }
}

/// Whether an import that has its answer needs more imports than one may need, itself among them. For each import it looks at no more
/// others than that.
pub(crate) fn has_large_import(alloc: Global, book: &Book<Answer>) -> Result<bool, AllocError>
    ensures { IfOk result (λ large. IsTrue large ↔ HasLargeImport book.now) }
{
    closed_imports_are_all();
    let _events = book.events();
    for number in 0..book.len() {
        let large = is_large(alloc, book, number)?;
        if large {
            return Ok(true);
        }
    }
    Ok(false)
}
