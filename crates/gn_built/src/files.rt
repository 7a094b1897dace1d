// The files of a build that was loaded: those that are loaded as build files, those that are imported, and those that are written.

ghost use Rattle.std.specs.Prelude.{◌≡◌, ◌<◌, ◌++◌, ◌∷◌, [], Some, IfOk, OnOk, map, length, option_map};
ghost use Rattle.std.specs.List.{flat_map};
ghost use Rattle.gn_runs.specs.Runs.{content_of};
ghost use Rattle.gn_imports.specs.Asked.{in_path_order};
ghost use Rattle.gn_items.specs.Questions.{question_of};
ghost use Rattle.gn_core.specs.Keys.{Read, content_in};
ghost use Rattle.gn_core.specs.Machine.{asked_in};
ghost use Rattle.gn_book.specs.Keys.{key_of};
ghost use Rattle.gn_book.specs.Logs.{key_at, state_of};
ghost use Rattle.gn_projects.specs.Errors.{toolchain_shown};
ghost use Rattle.gn_projects.specs.Loaded.{is_there, first_there, loaded_by_key, imported_by_key, shown_of_key, written_under, written_by_key, files_loaded, files_imported, files_written};
ghost use Rattle.gn_answers.specs.Answers.{content_view, meaning_of};
ghost use Rattle.gn_judging.specs.Whole.{AreWithin, effects_left};
ghost use Rattle.gn_built.specs.Files.{paths_lent, path_list, files_of};

use crate::built::left_at;
use crate::filed::{find, find_at};
use gn_answers::{Answer, FileContent, Filed, read_key};
use gn_book::{Closed, KeyId};
use gn_items::{Key, Outcome, Question, When, Written};
use gn_judging::asked_of;
use gn_paths::{Path, Text};
use std::alloc::{AllocError, Global};

/// The files that an execution has written.
#[derive(Clone, Copy)]
pub struct WrittenFiles<'a> {
    /// The toolchain of the execution; the text is empty for the default one.
    pub toolchain: &'a [u8],
    /// The files, in order.
    pub files: &'a [Written],
}

// The key of a number.
fn key_of_number(book: &Closed<Answer>, number: KeyId) -> &Key
    requires { number < length book.now.keys }
    ensures { key_of result.now ≡ key_at book.now number }
{
    book.key(number)
}

// Whether there is a file, by what there is at its path.
fn is_file(content: &FileContent) -> bool
    ensures { result ≡ is_there (Some (content_view content.now)) }
{
    match content {
        FileContent::Bytes(_) => true,
        FileContent::Absent => false,
        FileContent::TooBig => true,
    }
}

// Whether an answer says that there is a file.
fn says_file(filed: &Filed) -> bool
    ensures { result ≡ is_there (content_in (Some (meaning_of filed.now))) }
{
    match filed {
        Filed::Content(content) => is_file(content),
        Filed::Import(_) => false,
        Filed::Unit(_) => false,
        Filed::NoValue(..) => false,
    }
}

// Whether there is a file at a path that was read.
fn is_there(alloc: Global, book: &Closed<Answer>, path: &Path) -> Result<bool, AllocError>
    ensures { IfOk result (λ there. there ≡ is_there (content_in ((state_of book.now).filed (Read path.now)))) }
{
    let key = read_key(alloc, path)?;
    match find(book, &key) {
        Some(filed) => Ok(says_file(filed)),
        None => Ok(false),
    }
}

// The file at a path, if there is one.
fn file_at<'a>(
    alloc: Global,
    book: &Closed<Answer>,
    path: &'a Path,
) -> Result<Option<&'a Path>, AllocError>
    ensures { IfOk result (λ file. path_list file ≡ first_there (state_of book.now).filed (content_of path.now ∷ [])) }
{
    if is_there(alloc, book, path)? {
        Ok(Some(path))
    } else {
        Ok(None)
    }
}

// The file for which a question asks, if it asks for one and there is one.
fn file_asked<'a>(
    alloc: Global,
    book: &Closed<Answer>,
    question: &'a Question,
) -> Result<Option<&'a Path>, AllocError>
    ensures { IfOk result (λ file. path_list file ≡ first_there (state_of book.now).filed (question_of question.now ∷ [])) }
{
    match question {
        Question::Content(path) => file_at(alloc, book, path),
        Question::Import(_) => Ok(None),
    }
}

// The first file for which these questions ask and that is there.
fn first_there<'a>(
    alloc: Global,
    book: &Closed<Answer>,
    asked: &'a [Question],
) -> Result<Option<&'a Path>, AllocError>
    ensures { IfOk result (λ file. path_list file ≡ first_there (state_of book.now).filed (map question_of asked.now)) }
{
    for question in asked {
        let file = file_asked(alloc, book, question)?;
        if file.is_some() {
            return Ok(file);
        }
    }
    Ok(None)
}

// The first file for which an answer asks and that is there.
fn first_asked<'a>(
    alloc: Global,
    book: &Closed<Answer>,
    filed: &'a Filed,
) -> Result<Option<&'a Path>, AllocError>
    ensures { IfOk result (λ file. path_list file ≡ first_there (state_of book.now).filed (asked_in (Some (meaning_of filed.now)))) }
{
    match filed {
        Filed::Import(executed) => first_there(alloc, book, asked_of(executed)),
        Filed::Unit(executed) => first_there(alloc, book, asked_of(executed)),
        Filed::NoValue(_, _, asked) => first_there(alloc, book, asked.as_slice()),
        Filed::Content(_) => Ok(None),
    }
}

// The first file for which the execution of a number asks and that is there.
fn first_of<'a>(
    alloc: Global,
    book: &'a Closed<Answer>,
    number: KeyId,
) -> Result<Option<&'a Path>, AllocError>
    requires { number < length book.now.keys }
    ensures { IfOk result (λ file. path_list file ≡ first_there (state_of book.now).filed (asked_in ((state_of book.now).filed (key_at book.now number)))) }
{
    match find_at(book, number) {
        Some(filed) => first_asked(alloc, book, filed),
        None => Ok(None),
    }
}

// The file that is loaded as a build file by the execution of a number, whose key is this one.
fn file_loaded<'a>(
    alloc: Global,
    book: &'a Closed<Answer>,
    number: KeyId,
    key: &Key,
) -> Result<Option<&'a Path>, AllocError>
    requires number { number < length book.now.keys }
    requires key { key_of key.now ≡ key_at book.now number }
    ensures { IfOk result (λ file. path_list file ≡ loaded_by_key (state_of book.now).filed (key_of key.now)) }
{
    match key {
        Key::Load(..) => first_of(alloc, book, number),
        Key::Read(_) => Ok(None),
        Key::Import(..) => Ok(None),
        Key::Setup(_) => Ok(None),
        Key::Resolve(_) => Ok(None),
    }
}

// Puts a path behind others, if there is one.
fn push_path<'a>(path: Option<&'a Path>, paths: &mut Vec<&'a Path>) -> Result<(), AllocError>
    ensures { OnOk result (paths_lent paths.new.items ≡ paths_lent paths.old.items ++ path_list path.entry) }
{
    match path {
        None => Ok(()),
        Some(path) => {
            paths.push(path)?;
            Ok(())
        }
    }
}

// Puts the files behind others that are loaded as build files by the executions of these numbers.
fn push_loaded<'a>(
    alloc: Global,
    book: &'a Closed<Answer>,
    numbers: &[KeyId],
    paths: &mut Vec<&'a Path>,
) -> Result<(), AllocError>
    requires { AreWithin book.now numbers.now }
    ensures { OnOk result (paths_lent paths.new.items ≡ paths_lent paths.old.items ++ flat_map (loaded_by_key (state_of book.now).filed) (map (key_at book.now) numbers.now)) }
{
    for number in numbers {
        let file = file_loaded(alloc, book, *number, key_of_number(book, *number))?;
        push_path(file, paths)?;
    }
    Ok(())
}

// The file that is imported, if a key is that of an import.
fn file_imported(key: &Key) -> Option<&Path>
    ensures { path_list result ≡ imported_by_key (key_of key.now) }
{
    match key {
        Key::Import(_, _, path) => Some(path),
        Key::Read(_) => None,
        Key::Setup(_) => None,
        Key::Load(..) => None,
        Key::Resolve(_) => None,
    }
}

// Puts the files behind others that the executions of these numbers import.
fn push_imported<'a>(
    book: &'a Closed<Answer>,
    numbers: &[KeyId],
    paths: &mut Vec<&'a Path>,
) -> Result<(), AllocError>
    requires { AreWithin book.now numbers.now }
    ensures { OnOk result (paths_lent paths.new.items ≡ paths_lent paths.old.items ++ flat_map imported_by_key (map (key_at book.now) numbers.now)) }
{
    for number in numbers {
        push_path(file_imported(key_of_number(book, *number)), paths)?;
    }
    Ok(())
}

// Puts paths in the order of their bytes, each once. It takes no memory.
fn put_in_order(paths: &mut Vec<&Path>)
    ensures { paths_lent paths.new.items ≡ in_path_order (paths_lent paths.old.items) }
{
    paths.sort_unstable();
    paths.dedup();
}

/// The files that are loaded as build files by the executions of these numbers, in the order of the bytes of their paths, each once.
#[tactic(auto, unfolding(gn_projects::specs::Loaded::files_loaded))]
pub(crate) fn loaded_in_order<'a>(
    alloc: Global,
    book: &'a Closed<Answer>,
    numbers: &[KeyId],
) -> Result<Vec<&'a Path>, AllocError>
    requires { AreWithin book.now numbers.now }
    ensures { IfOk result (λ paths. paths_lent paths.items ≡ files_loaded (state_of book.now).filed (map (key_at book.now) numbers.now)) }
{
    let mut paths = Vec::new(alloc);
    push_loaded(alloc, book, numbers, &mut paths)?;
    put_in_order(&mut paths);
    Ok(paths)
}

/// Those that they import, in the same way.
#[tactic(auto, unfolding(gn_projects::specs::Loaded::files_imported))]
pub(crate) fn imported_in_order<'a>(
    alloc: Global,
    book: &'a Closed<Answer>,
    numbers: &[KeyId],
) -> Result<Vec<&'a Path>, AllocError>
    requires { AreWithin book.now numbers.now }
    ensures { IfOk result (λ paths. paths_lent paths.items ≡ files_imported (map (key_at book.now) numbers.now)) }
{
    let mut paths = Vec::new(alloc);
    push_imported(book, numbers, &mut paths)?;
    put_in_order(&mut paths);
    Ok(paths)
}

// A toolchain as faults have it: the default one is the empty text.
fn shown<'a>(toolchain: &'a Text, default: &Text) -> &'a [u8]
    ensures { result.now ≡ toolchain_shown default.now toolchain.now }
{
    if *toolchain == *default {
        b""
    } else {
        toolchain.as_bytes()
    }
}

// The toolchain of the execution of a key, as faults have it.
fn shown_of<'a>(key: &'a Key, default: &Text) -> &'a [u8]
    ensures { result.now ≡ shown_of_key default.now (key_of key.now) }
{
    match key {
        Key::Read(_) => b"",
        Key::Import(When::Early, toolchain, _) => shown(toolchain, default),
        Key::Import(When::Usual, toolchain, _) => shown(toolchain, default),
        Key::Setup(toolchain) => shown(toolchain, default),
        Key::Load(_, toolchain) => shown(toolchain, default),
        Key::Resolve(_) => b"",
    }
}

// Puts the files that an execution under a toolchain has written behind others.
fn push_files<'a>(
    toolchain: &'a [u8],
    files: &'a [Written],
    written: &mut Vec<WrittenFiles<'a>>,
) -> Result<(), AllocError>
    ensures { OnOk result (files_of written.new.items ≡ files_of written.old.items ++ written_under toolchain.now files.now) }
{
    written.push(WrittenFiles { toolchain, files })?;
    Ok(())
}

// Puts what an execution under a toolchain has written behind others.
fn push_left<'a>(
    toolchain: &'a [u8],
    left: Option<&'a Outcome>,
    written: &mut Vec<WrittenFiles<'a>>,
) -> Result<(), AllocError>
    ensures { OnOk result (files_of written.new.items ≡ files_of written.old.items ++ written_under toolchain.now (effects_left (option_map (λ outcome. outcome.now) left.entry)).written) }
{
    match left {
        None => push_files(toolchain, &[], written),
        Some(outcome) => push_files(toolchain, outcome.written(), written),
    }
}

// Puts what the execution of a number has written behind others.
fn push_written_by<'a>(
    book: &'a Closed<Answer>,
    number: KeyId,
    default: &Text,
    written: &mut Vec<WrittenFiles<'a>>,
) -> Result<(), AllocError>
    requires { number < length book.now.keys }
    ensures { OnOk result (files_of written.new.items ≡ files_of written.old.items ++ written_by_key default.now (state_of book.now).filed (key_at book.now number)) }
{
    let toolchain = shown_of(key_of_number(book, number), default);
    push_left(toolchain, left_at(book, number), written)
}

/// Puts what the executions of these numbers have written behind others, in their order.
#[tactic(auto, unfolding(gn_projects::specs::Loaded::files_written))]
pub(crate) fn push_written<'a>(
    book: &'a Closed<Answer>,
    numbers: &[KeyId],
    default: &Text,
    written: &mut Vec<WrittenFiles<'a>>,
) -> Result<(), AllocError>
    requires { AreWithin book.now numbers.now }
    ensures { OnOk result (files_of written.new.items ≡ files_of written.old.items ++ files_written default.now (state_of book.now).filed (map (key_at book.now) numbers.now)) }
{
    for number in numbers {
        push_written_by(book, *number, default, written)?;
    }
    Ok(())
}
