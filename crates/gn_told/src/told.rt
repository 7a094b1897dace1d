// The library over some part of what is filed.

ghost use Rattle.std.specs.Prelude.{◌≡◌, Some, IfOk, option_map};
ghost use Rattle.gn_core.specs.Keys.{Read, Import, content_in, imported_in, shown};
ghost use Rattle.gn_book.specs.Keys.{layer_at};
ghost use Rattle.gn_answers.specs.Answers.{content_view, meaning_of};
ghost use Rattle.gn_told.specs.Told.{told_state, ImportedAs, has_no_value};

use gn_answers::{Executed, FileContent, Filed, Part, import_key};
use gn_definitions::ImportValue;
use gn_eval::{Found, Imported, LibStop, Library};
use gn_items::{Key, Question, When};
use gn_paths::{Path, Place, Text};
use std::alloc::{AllocError, Global};

/// An answer that is needed: the question, and the place of the call that asks.
#[derive(Drop)]
pub struct Needed {
    /// The question.
    pub question: Question,
    /// The place of the call.
    pub place: Place,
}

/// The library over some part of what is filed, for the evaluations of one layer. It tells what the part has of reads and of the
/// imports of the layer, and changes nothing there.
#[derive(Drop)]
pub struct Told<'a, P> {
    /// The part.
    pub part: &'a P,
    /// Whether the layer is that of a build configuration.
    pub when: When,
    /// The toolchain of the layer.
    pub toolchain: &'a Text,
    /// What was needed last.
    pub need: Needed,
    /// How often something was needed.
    pub stops: u64,
}

// What there is at a path, by the answer that is filed.
fn content_of(filed: &Filed) -> Option<&FileContent>
    ensures { option_map (λ content. content_view content.now) result ≡ content_in (Some (meaning_of filed.now)) }
{
    match filed {
        Filed::Content(content) => Some(content),
        Filed::Import(_) => None,
        Filed::Unit(_) => None,
        Filed::NoValue(..) => None,
    }
}

// What there is at a path, as far as the part has it.
fn content_at<'a, P: Part>(
    alloc: Global,
    part: &'a P,
    path: &Path,
) -> Result<Option<&'a FileContent>, AllocError>
    ensures { IfOk result (λ found. option_map (λ content. content_view content.now) found ≡ content_in (P.answers part.now (Read path.now))) }
{
    let key = Key::Read(path.copy(alloc)?);
    let found = part.find(&key);
    drop(key);
    match found {
        None => Ok(None),
        Some(filed) => Ok(content_of(filed)),
    }
}

// What an execution leaves for those who import the file.
fn left_by(executed: &Executed<ImportValue>) -> Result<Option<Imported>, AllocError>
    ensures { IfOk result (λ left. ImportedAs left (imported_in (Some (meaning_of (Filed.Import executed.now))))) }
{
    match executed {
        Executed::Left(value, _) => Ok(Some(Imported::Value(value.copy()?))),
        Executed::Wrong(..) => Ok(Some(Imported::Spoiled)),
        Executed::Spoiled(..) => Ok(Some(Imported::Spoiled)),
    }
}

// The answer of an import, as those are told it who import the file.
fn left(filed: &Filed) -> Result<Option<Imported>, AllocError>
    ensures { IfOk result (λ left. ImportedAs left (imported_in (Some (meaning_of filed.now)))) }
{
    match filed {
        Filed::Import(executed) => left_by(executed),
        Filed::NoValue(..) => Ok(Some(Imported::Spoiled)),
        Filed::Content(_) => Ok(None),
        Filed::Unit(_) => Ok(None),
    }
}

// What is filed for an import of a layer, as far as the part has it.
fn filed_at<'a, P: Part>(
    alloc: Global,
    part: &'a P,
    when: When,
    toolchain: &Text,
    path: &Path,
) -> Result<Option<&'a Filed>, AllocError>
    ensures { IfOk result (λ found. option_map (λ filed. meaning_of filed.now) found ≡ P.answers part.now (Import (layer_at when toolchain.now) path.now)) }
{
    let key = import_key(alloc, when, toolchain, path)?;
    let found = part.find(&key);
    drop(key);
    Ok(found)
}

// What an import of a layer leaves, as far as the part has it.
fn import_at<P: Part>(
    alloc: Global,
    part: &P,
    when: When,
    toolchain: &Text,
    path: &Path,
) -> Result<Option<Imported>, AllocError>
    ensures { IfOk result (λ left. ImportedAs left (imported_in (P.answers part.now (Import (layer_at when toolchain.now) path.now)))) }
{
    match filed_at(alloc, part, when, toolchain, path)? {
        None => Ok(None),
        Some(filed) => left(filed),
    }
}

// Whether an answer is that an import has no value.
fn is_no_value(filed: &Filed) -> bool
    ensures { result ≡ has_no_value (Some (meaning_of filed.now)) }
{
    match filed {
        Filed::Content(_) => false,
        Filed::Import(_) => false,
        Filed::Unit(_) => false,
        Filed::NoValue(..) => true,
    }
}

/// Whether the part has of an import of a layer that it has no value.
pub fn has_no_value<P: Part>(
    alloc: Global,
    part: &P,
    when: When,
    toolchain: &Text,
    path: &Path,
) -> Result<bool, AllocError>
    ensures { IfOk result (λ none. none ≡ has_no_value (P.answers part.now (Import (layer_at when toolchain.now) path.now))) }
{
    match filed_at(alloc, part, when, toolchain, path)? {
        None => Ok(false),
        Some(filed) => Ok(is_no_value(filed)),
    }
}

impl<'a, P: Part> Told<'a, P> {
    ghost use Rattle.std.specs.Prelude.{◌<◌, ◌≤◌, Err, OnOk};
    ghost use Rattle.gn_runs.specs.Runs.{Answers, content_of, import_of};
    ghost use Rattle.gn_items.specs.Questions.{question_of};
    ghost use Rattle.gn_eval.specs.Library.{Includes, GoesOn, IsThere, ImportAnswers, ImportLacks};
    ghost use Rattle.gn_told.specs.Told.{need_view};

    /// The library over a part for the evaluations of a layer, before anything is needed.
    pub fn new(
        alloc: Global,
        part: &'a P,
        when: When,
        toolchain: &'a Text,
    ) -> Result<Told<'a, P>, AllocError>
        ensures { IfOk result (λ t. shown (P.answers t.part.now) (layer_at t.when t.toolchain.now) ≡ shown (P.answers part.now) (layer_at when toolchain.now)) }
    {
        let place = Place {
            file: Text::new(alloc),
            line: 1,
            column: 1,
        };
        let need = Needed {
            question: Question::Content(Path::root(alloc)?),
            place,
        };
        Ok(Told {
            part,
            when,
            toolchain,
            need,
            stops: 0,
        })
    }

    // Notes what is needed and counts a stop, unless there is no memory for it or the count is at its greatest.
    fn note(&mut self, alloc: Global, question: Question, place: &Place) -> Result<(), AllocError>
        ensures told { (told_state P.answers self.new).told ≡ (told_state P.answers self.old).told }
        ensures need { OnOk result (need_view self.new.need ≡ record { question = question_of question; place = place.now }) }
        ensures later { self.old.stops ≤ self.new.stops }
        ensures rose { OnOk result (self.old.stops < self.new.stops) }
    {
        let Some(stops) = self.stops.checked_add(1) else {
            drop(question);
            return Err(AllocError);
        };
        match place.copy(alloc) {
            Ok(place) => {
                self.need = Needed { question, place };
                self.stops = stops;
                Ok(())
            }
            Err(error) => {
                drop(question);
                Err(error)
            }
        }
    }

    fn note_content(&mut self, alloc: Global, path: &Path, place: &Place) -> Result<(), AllocError>
        ensures told { (told_state P.answers self.new).told ≡ (told_state P.answers self.old).told }
        ensures need { OnOk result (need_view self.new.need ≡ record { question = content_of path.now; place = place.now }) }
        ensures later { self.old.stops ≤ self.new.stops }
        ensures rose { OnOk result (self.old.stops < self.new.stops) }
    {
        let path = path.copy(alloc)?;
        self.note(alloc, Question::Content(path), place)
    }

    fn note_import(&mut self, alloc: Global, path: &Path, place: &Place) -> Result<(), AllocError>
        ensures told { (told_state P.answers self.new).told ≡ (told_state P.answers self.old).told }
        ensures need { OnOk result (need_view self.new.need ≡ record { question = import_of path.now; place = place.now }) }
        ensures later { self.old.stops ≤ self.new.stops }
        ensures rose { OnOk result (self.old.stops < self.new.stops) }
    {
        let path = path.copy(alloc)?;
        self.note(alloc, Question::Import(path), place)
    }

    // The content of a file is lacking.
    fn lacks_content(&mut self, alloc: Global, path: &Path, place: &Place) -> LibStop
        ensures goes { GoesOn (told_state P.answers self.old) (told_state P.answers self.new) }
        ensures need { result ≡ LibStop.Stopped → need_view self.new.need ≡ record { question = content_of path.now; place = place.now } }
        ensures rose { result ≡ LibStop.Stopped → self.old.stops < self.new.stops }
    {
        match self.note_content(alloc, path, place) {
            Ok(()) => LibStop::Stopped,
            Err(_) => LibStop::Memory,
        }
    }

    // What an import leaves is lacking.
    fn lacks_import(&mut self, alloc: Global, path: &Path, place: &Place) -> LibStop
        ensures goes { GoesOn (told_state P.answers self.old) (told_state P.answers self.new) }
        ensures need { result ≡ LibStop.Stopped → need_view self.new.need ≡ record { question = import_of path.now; place = place.now } }
        ensures rose { result ≡ LibStop.Stopped → self.old.stops < self.new.stops }
    {
        match self.note_import(alloc, path, place) {
            Ok(()) => LibStop::Stopped,
            Err(_) => LibStop::Memory,
        }
    }

    // What the import of a file leaves that is there.
    fn imported(&mut self, alloc: Global, path: &Path, place: &Place) -> Result<Imported, LibStop>
        ensures goes { GoesOn (told_state P.answers self.old) (told_state P.answers self.new) }
        ensures rose { result ≡ Err LibStop.Stopped → self.old.stops < self.new.stops }
        ensures answers { IfOk result (λ x. (a : Answers) → Includes (told_state P.answers self.new).told a → IsThere (a.contents path.now) → ImportAnswers path.now a x) }
        ensures lacks { result ≡ Err LibStop.Stopped → (a : Answers) → (told_state P.answers self.new).told ≡ Some a → IsThere (a.contents path.now) → ImportLacks path.now place.now a (need_view self.new.need) }
    {
        match import_at(alloc, self.part, self.when, self.toolchain, path) {
            Ok(Some(imported)) => Ok(imported),
            Ok(None) => Err(self.lacks_import(alloc, path, place)),
            Err(_) => Err(LibStop::Memory),
        }
    }

    // What an import answers by what there is at its path.
    fn imported_of(
        &mut self,
        alloc: Global,
        content: &FileContent,
        path: &Path,
        place: &Place,
    ) -> Result<Imported, LibStop>
        requires { content_in (P.answers self.old.part.now (Read path.now)) ≡ Some (content_view content.now) }
        ensures goes { GoesOn (told_state P.answers self.old) (told_state P.answers self.new) }
        ensures rose { result ≡ Err LibStop.Stopped → self.old.stops < self.new.stops }
        ensures answers { IfOk result (λ x. (a : Answers) → Includes (told_state P.answers self.new).told a → ImportAnswers path.now a x) }
        ensures lacks { result ≡ Err LibStop.Stopped → (a : Answers) → (told_state P.answers self.new).told ≡ Some a → ImportLacks path.now place.now a (need_view self.new.need) }
    {
        match content {
            FileContent::Absent => Ok(Imported::Absent),
            FileContent::Bytes(_) => self.imported(alloc, path, place),
            FileContent::TooBig => self.imported(alloc, path, place),
        }
    }
}

impl<P: Part> Library for Told<'_, P> {
    ghost use Rattle.gn_told.specs.Told.{told_state};

    ghost state = { told_state P.answers };

    fn import(&mut self, alloc: Global, path: &Path, place: &Place) -> Result<Imported, LibStop> {
        match content_at(alloc, self.part, path) {
            Ok(Some(content)) => self.imported_of(alloc, content, path, place),
            Ok(None) => Err(self.lacks_content(alloc, path, place)),
            Err(_) => Err(LibStop::Memory),
        }
    }

    fn bytes(&mut self, alloc: Global, path: &Path, place: &Place) -> Result<Found, LibStop> {
        match content_at(alloc, self.part, path) {
            Ok(Some(FileContent::Absent)) => Ok(Found::Absent),
            Ok(Some(FileContent::TooBig)) => Ok(Found::TooBig),
            Ok(Some(FileContent::Bytes(file))) => match file.bytes.copy(alloc) {
                Ok(bytes) => Ok(Found::Bytes(bytes)),
                Err(_) => Err(LibStop::Memory),
            },
            Ok(None) => Err(self.lacks_content(alloc, path, place)),
            Err(_) => Err(LibStop::Memory),
        }
    }
}
