// A build that was loaded.

ghost use Rattle.std.specs.Prelude.{◌≡◌, ◌<◌, ◌++◌, Some, IfOk, OnOk, map, length, option_map};
ghost use Rattle.std.specs.List.{flat_map};
ghost use Rattle.gn_projects.specs.Loaded.{lines, effects_of, named_first, lines_of_build, declared_by_build, items_of_build, default_named};
ghost use Rattle.gn_builds.specs.Rest.{effects_at};
ghost use Rattle.gn_answers.specs.Answers.{meaning_of};
ghost use Rattle.gn_judging.specs.Whole.{AreWithin, effects_left};

use crate::filed::find_at;
use crate::files::{WrittenFiles, imported_in_order, loaded_in_order, push_written};
use gn_answers::{Answer, Executed, Filed};
use gn_book::{Book, Closed, KeyId};
use gn_items::{Declaration, DefaultToolchain, Item, Outcome};
use gn_judging::Parts;
use gn_labels::Label;
use gn_paths::{Path, Text};
use std::alloc::{AllocError, Global};

/// A build that was loaded: what its executions have left, and the targets that it generates.
#[derive(Drop)]
pub struct Built {
    pub(crate) book: Closed<Answer>,
    // The text of the default toolchain.
    pub(crate) default: Text,
    // The numbers of the executions, in their order.
    pub(crate) executions: Vec<KeyId>,
    // The labels of the targets, in label order.
    pub(crate) generated: Vec<Label>,

    ghost within: { ∥ AreWithin book executions.items ∥₁ },
}

// Puts lines at the end.
fn append_lines(text: &mut Vec<u8>, lines: &[Text]) -> Result<(), AllocError>
    ensures { OnOk result (text.new.items ≡ text.old.items ++ flat_map (λ line. line) lines.now) }
{
    for line in lines {
        text.extend_from_slice(line.as_bytes())?;
    }
    Ok(())
}

// What an answer says that an execution has left. Nothing comes where it has left nothing.
fn left_by(answer: &Filed) -> Option<&Outcome>
    ensures { effects_left (option_map (λ outcome. outcome.now) result) ≡ effects_of (Some (meaning_of answer.now)) }
{
    match answer {
        Filed::Import(Executed::Left(_, outcome)) => Some(outcome),
        Filed::Unit(Executed::Left(_, outcome)) => Some(outcome),
        Filed::Import(Executed::Wrong(..) | Executed::Spoiled(..)) => None,
        Filed::Unit(Executed::Wrong(..) | Executed::Spoiled(..)) => None,
        Filed::Content(_) => None,
        Filed::NoValue(..) => None,
    }
}

/// The same of the answer of the execution of a number.
pub(crate) fn left_at<'a>(book: &'a Closed<Answer>, number: KeyId) -> Option<&'a Outcome>
    requires { number < length book.now.keys }
    ensures { effects_left (option_map (λ outcome. outcome.now) result) ≡ effects_at book.now number }
{
    match find_at(book, number) {
        None => None,
        Some(answer) => left_by(answer),
    }
}

// Puts the lines at the end that an execution has printed.
fn append_left(text: &mut Vec<u8>, left: Option<&Outcome>) -> Result<(), AllocError>
    ensures { OnOk result (text.new.items ≡ text.old.items ++ lines (effects_left (option_map (λ outcome. outcome.now) left.entry))) }
{
    match left {
        None => Ok(()),
        Some(outcome) => append_lines(text, outcome.prints()),
    }
}

// Puts the lines at the end that the executions of these numbers have printed.
fn append_all(
    text: &mut Vec<u8>,
    book: &Closed<Answer>,
    numbers: &[KeyId],
) -> Result<(), AllocError>
    requires { AreWithin book.now numbers.now }
    ensures { OnOk result (text.new.items ≡ text.old.items ++ flat_map lines (map (effects_at book.now) numbers.now)) }
{
    for number in numbers {
        append_left(text, left_at(book, *number))?;
    }
    Ok(())
}

// Puts declarations behind others.
fn push_declarations<'a>(
    declarations: &'a [Declaration],
    declared: &mut Vec<&'a Declaration>,
) -> Result<(), AllocError>
    ensures { OnOk result (map (λ d. d.now) declared.new.items ≡ map (λ d. d.now) declared.old.items ++ declarations.now) }
{
    for declaration in declarations {
        declared.push(declaration)?;
    }
    Ok(())
}

// Puts what an execution has declared behind others.
fn push_declared<'a>(
    left: Option<&'a Outcome>,
    declared: &mut Vec<&'a Declaration>,
) -> Result<(), AllocError>
    ensures { OnOk result (map (λ d. d.now) declared.new.items ≡ map (λ d. d.now) declared.old.items ++ (effects_left (option_map (λ outcome. outcome.now) left.entry)).declared) }
{
    match left {
        None => Ok(()),
        Some(outcome) => push_declarations(outcome.declared(), declared),
    }
}

// Puts what the executions of these numbers have declared behind others.
fn push_all_declared<'a>(
    book: &'a Closed<Answer>,
    numbers: &[KeyId],
    declared: &mut Vec<&'a Declaration>,
) -> Result<(), AllocError>
    requires { AreWithin book.now numbers.now }
    ensures { OnOk result (map (λ d. d.now) declared.new.items ≡ map (λ d. d.now) declared.old.items ++ flat_map (λ e. e.declared) (map (effects_at book.now) numbers.now)) }
{
    for number in numbers {
        push_declared(left_at(book, *number), declared)?;
    }
    Ok(())
}

// Puts items behind others.
fn push_items<'a>(items: &'a [Item], defined: &mut Vec<&'a Item>) -> Result<(), AllocError>
    ensures { OnOk result (map (λ item. item.now) defined.new.items ≡ map (λ item. item.now) defined.old.items ++ items.now) }
{
    for item in items {
        defined.push(item)?;
    }
    Ok(())
}

// Puts what an execution has defined behind others.
fn push_defined<'a>(
    left: Option<&'a Outcome>,
    defined: &mut Vec<&'a Item>,
) -> Result<(), AllocError>
    ensures { OnOk result (map (λ item. item.now) defined.new.items ≡ map (λ item. item.now) defined.old.items ++ (effects_left (option_map (λ outcome. outcome.now) left.entry)).items) }
{
    match left {
        None => Ok(()),
        Some(outcome) => push_items(outcome.items(), defined),
    }
}

// Puts what the executions of these numbers have defined behind others.
fn push_all_defined<'a>(
    book: &'a Closed<Answer>,
    numbers: &[KeyId],
    defined: &mut Vec<&'a Item>,
) -> Result<(), AllocError>
    requires { AreWithin book.now numbers.now }
    ensures { OnOk result (map (λ item. item.now) defined.new.items ≡ map (λ item. item.now) defined.old.items ++ flat_map (λ e. e.items) (map (effects_at book.now) numbers.now)) }
{
    for number in numbers {
        push_defined(left_at(book, *number), defined)?;
    }
    Ok(())
}

// The default toolchain as an execution has named it.
fn named_by(left: Option<&Outcome>) -> Option<&DefaultToolchain>
    ensures { option_map (λ t. t.now) result ≡ (effects_left (option_map (λ outcome. outcome.now) left.entry)).default_toolchain }
{
    match left {
        None => None,
        Some(outcome) => outcome.default_toolchain(),
    }
}

// The default toolchain as the first of the executions of these numbers has named it.
fn named_first<'a>(book: &'a Closed<Answer>, numbers: &[KeyId]) -> Option<&'a DefaultToolchain>
    requires { AreWithin book.now numbers.now }
    ensures { option_map (λ t. t.now) result ≡ named_first (map (effects_at book.now) numbers.now) }
{
    match numbers {
        [] => None,
        [first, ..] => named_by(left_at(book, *first)),
    }
}

impl Built {
    ghost use Rattle.gn_built.specs.Built.{build_of};
    ghost use Rattle.gn_built.specs.Files.{paths_lent, files_of};
    ghost use Rattle.gn_judging.specs.Judging.{AreParts, build_by};

    /// The build that was loaded and has these parts. What the book knows of what is reached is let go.
    pub fn new(book: Book<Answer>, parts: Parts) -> Built
        requires { AreParts book parts }
        ensures build { build_of result ≡ build_by book parts }
        ensures book { result.book ≡ book }
    {
        let Parts {
            default,
            numbers,
            labels,
        } = parts;
        Built {
            book: book.close(),
            default,
            executions: numbers,
            generated: labels,
        }
    }

    /// The text of the default toolchain. It takes no memory.
    pub fn default(&self) -> &Text
        ensures { result.now ≡ (build_of self.now).default }
    {
        &self.default
    }

    /// The labels of the targets that the build generates, in label order. It takes no memory.
    pub fn generated(&self) -> &[Label]
        ensures { result.now ≡ (build_of self.now).generated }
    {
        &self.generated
    }

    /// Puts the lines at the end that the executions have printed, in their order: by toolchain, with the default one first; of each
    /// toolchain the build configuration, what it imports, by path, the other imports, by path, and the build files, by directory.
    pub fn append_prints(&self, text: &mut Vec<u8>) -> Result<(), AllocError>
        ensures { OnOk result (text.new.items ≡ text.old.items ++ lines_of_build (build_of self.now)) }
    {
        append_all(text, &self.book, &self.executions)
    }

    /// The arguments that the executions have declared, in the same order.
    pub fn declarations(&self, alloc: Global) -> Result<Vec<&Declaration>, AllocError>
        ensures { IfOk result (λ ds. map (λ d. d.now) ds.items ≡ declared_by_build (build_of self.now)) }
    {
        let mut declared = Vec::new(alloc);
        push_all_declared(&self.book, &self.executions, &mut declared)?;
        Ok(declared)
    }

    /// The items that the executions have defined, in the same order.
    pub fn items(&self, alloc: Global) -> Result<Vec<&Item>, AllocError>
        ensures { IfOk result (λ items. map (λ item. item.now) items.items ≡ items_of_build (build_of self.now)) }
    {
        let mut defined = Vec::new(alloc);
        push_all_defined(&self.book, &self.executions, &mut defined)?;
        Ok(defined)
    }

    /// The default toolchain as the build configuration has named it, if it has.
    pub fn default_named(&self) -> Option<&DefaultToolchain>
        ensures { option_map (λ t. t.now) result ≡ default_named (build_of self.now) }
    {
        named_first(&self.book, &self.executions)
    }

    /// The paths of the files that are loaded as build files, in the order of their bytes, each once.
    pub fn loaded_files(&self, alloc: Global) -> Result<Vec<&Path>, AllocError>
        ensures { IfOk result (λ paths. paths_lent paths.items ≡ (build_of self.now).loaded) }
    {
        loaded_in_order(alloc, &self.book, &self.executions)
    }

    /// The paths of the files that are imported, in the order of their bytes, each once.
    pub fn imported_files(&self, alloc: Global) -> Result<Vec<&Path>, AllocError>
        ensures { IfOk result (λ paths. paths_lent paths.items ≡ (build_of self.now).imported) }
    {
        imported_in_order(alloc, &self.book, &self.executions)
    }

    /// The files that the executions have written, execution by execution, and under which toolchain.
    pub fn written(&self, alloc: Global) -> Result<Vec<WrittenFiles<'_>>, AllocError>
        ensures { IfOk result (λ files. files_of files.items ≡ (build_of self.now).written) }
    {
        let mut written = Vec::new(alloc);
        push_written(&self.book, &self.executions, &self.default, &mut written)?;
        Ok(written)
    }
}
