// What is filed.

ghost use Rattle.std.specs.Prelude.{◌≡◌, ◌<◌, IfOk, Some, length, option_map};
ghost use Rattle.gn_book.specs.Keys.{key_of};
ghost use Rattle.gn_book.specs.Graphs.{mentioned};
ghost use Rattle.gn_book.specs.Logs.{key_at, state_of};
ghost use Rattle.gn_core.specs.Keys.{done_in};
ghost use Rattle.gn_answers.specs.Answers.{content_view, run_of, unit_left, meaning_of, unit_run, left_in};

use crate::file_bytes::FileBytes;
use crate::needs::unit_needs;
use gn_book::{Book, KeyId, Mentions};
use gn_definitions::ImportValue;
use gn_faults::Fault;
use gn_items::{Key, Outcome, Question};
use gn_paths::{Path, Place};
use std::alloc::{AllocError, Global};
use std::marker::Model;
use std::sync::Arc;

/// What there is at a path.
#[derive(Drop)]
pub enum FileContent {
    /// A file. Several may have its bytes at once.
    Bytes(Arc<FileBytes>),
    /// No file.
    Absent,
    /// A file that is longer than the limit.
    TooBig,
}

impl FileContent {
    /// The same once more. The bytes of a file aren't copied.
    pub fn copy(&self) -> Result<FileContent, AllocError>
        ensures { IfOk result (λ content. content_view content ≡ content_view self.now) }
    {
        match self {
            FileContent::Bytes(file) => Ok(FileContent::Bytes(file.clone()?)),
            FileContent::Absent => Ok(FileContent::Absent),
            FileContent::TooBig => Ok(FileContent::TooBig),
        }
    }
}

/// How an execution has ended.
#[derive(Drop)]
pub enum Executed<T> {
    /// It leaves this, and items, lines and the questions asked.
    Left(T, Outcome),
    /// The first fault, and the questions asked, in order.
    Wrong(Fault, Vec<Question>),
    /// The first import that can't be used: the path of the file, and where the call stands; and the questions asked, in
    /// order.
    Spoiled(Path, Place, Vec<Question>),
}

/// What is filed for a key.
#[derive(Drop)]
pub enum Filed {
    /// What there is at a path.
    Content(FileContent),
    /// How the execution of an import has ended.
    Import(Executed<ImportValue>),
    /// How that of a unit has; a build configuration leaves what stands beneath the files behind it.
    Unit(Executed<Option<ImportValue>>),
    /// An import has no value: the path of the first import without value that it asks for, the place of that call, and the
    /// questions asked, in order.
    NoValue(Path, Place, Vec<Question>),
}

/// The answer of a key: what is filed for it, which nobody changes from then on. Several may have it at once: a copy copies nothing of it.
/// Contracts see what is filed.
#[derive(Drop)]
pub struct Answer {
    filed: Arc<Filed>,
}

impl Model for Answer {
    ghost use Rattle.gn_answers.specs.declared.answer.Filed.{Filed};
    ghost use Rattle.gn_answers.specs.contracts.answer.Filed.{the_row};

    ghost Value = { Filed };

    ghost coded = { the_row.coded };

    ghost view = { λ a. a.filed.value };
}

impl Answer {
    /// The answer that has this filed for its key.
    pub fn new(alloc: Global, filed: Filed) -> Result<Answer, AllocError>
        ensures { IfOk result (λ answer. answer ≡ filed) }
    {
        Ok(Answer {
            filed: Arc::new(alloc, filed)?,
        })
    }

    /// What is filed. It takes no memory.
    pub fn filed(&self) -> &Filed
        ensures { result.now ≡ self.now }
    {
        &self.filed
    }

    /// The same answer once more. Nothing of it is copied.
    pub fn copy(&self) -> Result<Answer, AllocError>
        ensures { IfOk result (λ answer. answer ≡ self.now) }
    {
        Ok(Answer {
            filed: self.filed.clone()?,
        })
    }
}

// What a unit says that has ended.
fn unit_mentions(
    alloc: Global,
    executed: &Executed<Option<ImportValue>>,
) -> Result<Mentions, AllocError>
    ensures { IfOk result (λ mentions. mentioned mentions ≡ Some (done_in (run_of unit_left executed.now).end)) }
{
    match executed {
        Executed::Left(beneath, outcome) => Ok(Mentions::Needs(unit_needs(
            alloc, beneath, outcome,
        )?)),
        Executed::Wrong(..) => Ok(Mentions::Nothing),
        Executed::Spoiled(..) => Ok(Mentions::Nothing),
    }
}

impl gn_book::Answer for Answer {
    ghost meaning = { meaning_of };

    fn mentions(&self, alloc: Global) -> Result<Mentions, AllocError> {
        match self.filed() {
            Filed::Content(_) => Ok(Mentions::NoUnit),
            Filed::Import(_) => Ok(Mentions::NoUnit),
            Filed::NoValue(..) => Ok(Mentions::NoUnit),
            Filed::Unit(executed) => unit_mentions(alloc, executed),
        }
    }
}

/// What is filed for a key. None comes exactly where nothing is.
pub fn find<'a>(book: &'a Book<Answer>, key: &Key) -> Option<&'a Filed>
    ensures { option_map (λ filed. meaning_of filed.now) result ≡ (state_of book.now).filed (key_of key.now) }
{
    match book.find(key) {
        Some(answer) => Some(answer.filed()),
        None => None,
    }
}

/// What is filed for the key of a number. None comes exactly where nothing is.
pub fn find_at<'a>(book: &'a Book<Answer>, number: KeyId) -> Option<&'a Filed>
    requires { number < length book.now.keys }
    ensures { option_map (λ filed. meaning_of filed.now) result ≡ (state_of book.now).filed (key_at book.now number) }
{
    match book.answer(number) {
        Some(answer) => Some(answer.filed()),
        None => None,
    }
}

/// How the execution of a unit has ended. None comes exactly where this is no answer of a unit.
pub fn unit_of(filed: &Filed) -> Option<&Executed<Option<ImportValue>>>
    ensures { option_map (λ executed. run_of unit_left executed.now) result ≡ unit_run (Some (meaning_of filed.now)) }
{
    match filed {
        Filed::Unit(executed) => Some(executed),
        Filed::Content(_) => None,
        Filed::Import(_) => None,
        Filed::NoValue(..) => None,
    }
}

/// What the execution of a unit has left. None comes exactly where it is wrong or spoiled.
pub(crate) fn left_of(executed: &Executed<Option<ImportValue>>) -> Option<&Outcome>
    ensures { option_map (λ outcome. outcome.now) result ≡ left_in (run_of unit_left executed.now).end }
{
    match executed {
        Executed::Left(_, outcome) => Some(outcome),
        Executed::Wrong(..) => None,
        Executed::Spoiled(..) => None,
    }
}
