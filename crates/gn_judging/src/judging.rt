// What all comes to that was loaded.

ghost use Rattle.std.specs.Prelude.{◌≡◌, ℕ, ◌<◌, List, IfOk, Some, length, option_map, slice_get};
ghost use Rattle.gn_runs.specs.Runs.{spoiled};
ghost use Rattle.gn_paths.specs.declared.place.Place.{Place as PlaceState};
ghost use Rattle.gn_executions.specs.Base.{BaseState};
ghost use Rattle.gn_book.specs.Keys.{key_of, layer_at};
ghost use Rattle.gn_book.specs.Logs.{key_at, state_of};
ghost use Rattle.gn_core.specs.Keys.{done_in};
ghost use Rattle.gn_projects.specs.Errors.{too_large, toolchain_shown, default_told};
ghost use Rattle.gn_builds.specs.Rest.{Rests, ReachesFew, HasLargeImport, default_filed};
ghost use Rattle.gn_builds.specs.Causes.{IsUnusable};
ghost use Rattle.gn_answers.specs.Answers.{run_of, unit_left, unit_run};
ghost use Rattle.gn_judging.specs.Judging.{IsFaultAt, IsFaultOf, IsUnitOf, IsFirst, IsFirstFault, AreParts, IsJudgedSmall, IsJudged};

use crate::causes::cause;
use crate::executions::executions_in_order;
use crate::generated::generated_labels;
use crate::limits::has_large_import;
use gn_answers::{Answer, Executed, default_text, find, find_at, unit_of};
use gn_book::{Book, KeyId};
use gn_builds::{files_were_read, links_lead_to_the_fault};
use gn_definitions::ImportValue;
use gn_faults::{
    Code, Fault, Stage, fault_order_has_no_ties, fault_order_is_strict, fault_order_is_transitive,
};
use gn_items::{Key, When};
use gn_labels::Label;
use gn_paths::{Path, Text, Texts};
use gn_projects::order_does_not_matter;
use std::alloc::{AllocError, Global};

/// What a build has left that was loaded, but for the answers themselves.
#[derive(Drop)]
pub struct Parts {
    /// The text of the default toolchain.
    pub default: Text,
    /// The numbers of its executions, in their order.
    pub numbers: Vec<KeyId>,
    /// The labels of the targets that it generates, in label order.
    pub labels: Vec<Label>,
}

/// What all comes to that was loaded.
#[derive(Drop)]
pub enum Judged {
    /// The error of the build.
    Wrong(Fault),
    /// It has none.
    Right(Parts),
}

/// The error of a build that exceeds a limit.
pub fn too_large(alloc: Global) -> Fault
    ensures { result ≡ too_large }
{
    Fault {
        stage: Stage::Loading,
        place: None,
        toolchain: Text::new(alloc),
        code: Code::TooLarge,
        detail: Texts::new(alloc),
    }
}

// How the execution of the unit of a key has ended. None comes exactly where no answer of a unit is filed.
fn find_unit<'a>(book: &'a Book<Answer>, unit: &Key) -> Option<&'a Executed<Option<ImportValue>>>
    ensures { option_map (λ executed. run_of unit_left executed.now) result ≡ unit_run ((state_of book.now).filed (key_of unit.now)) }
{
    match find(book, unit) {
        None => None,
        Some(filed) => unit_of(filed),
    }
}

// The same of the unit of a number.
fn unit_at<'a>(book: &'a Book<Answer>, number: KeyId) -> Option<&'a Executed<Option<ImportValue>>>
    requires { number < length book.now.keys }
    ensures { option_map (λ executed. run_of unit_left executed.now) result ≡ unit_run ((state_of book.now).filed (key_at book.now number)) }
{
    match find_at(book, number) {
        None => None,
        Some(filed) => unit_of(filed),
    }
}

// The default toolchain that a unit has named which has ended so.
fn default_by(alloc: Global, executed: &Executed<Option<ImportValue>>) -> Result<Text, AllocError>
    ensures { IfOk result (λ default. default ≡ default_told (Some (done_in (run_of unit_left executed.now).end))) }
{
    match executed {
        Executed::Left(beneath, outcome) => default_text(alloc, beneath, outcome),
        Executed::Wrong(..) => Ok(Text::new(alloc)),
        Executed::Spoiled(..) => Ok(Text::new(alloc)),
    }
}

// The default toolchain, as its build configuration has named it.
fn default_toolchain(alloc: Global, book: &Book<Answer>) -> Result<Text, AllocError>
    ensures { IfOk result (λ default. default ≡ default_filed book.now) }
{
    match find_unit(book, &Key::Setup(Text::new(alloc))) {
        Some(executed) => default_by(alloc, executed),
        None => Ok(Text::new(alloc)),
    }
}

// A toolchain as faults show it: the default one isn't shown.
fn shown(alloc: Global, toolchain: &Text, default: &Text) -> Result<Text, AllocError>
    ensures { IfOk result (λ shown. shown ≡ toolchain_shown default.now toolchain.now) }
{
    if *toolchain == *default {
        Ok(Text::new(alloc))
    } else {
        toolchain.copy(alloc)
    }
}

// The fault to which an import of a layer leads that can't be used.
fn spoiling_fault(
    alloc: Global,
    book: &Book<Answer>,
    default: &Text,
    when: When,
    toolchain: &Text,
    path: &Path,
) -> Result<Option<Fault>, AllocError>
    requires rest { (start : BaseState) × Rests start book.now }
    requires default { default.now ≡ default_filed book.now }
    requires few { HasLargeImport book.now → ⊥ }
    requires unusable { IsUnusable (layer_at when toolchain.now) book.now path.now }
    ensures { IfOk result (λ fault. (place : PlaceState) → IsFaultAt book.now (layer_at when toolchain.now) (spoiled path.now place) fault) }
{
    let shown = shown(alloc, toolchain, default)?;
    let fault = cause(alloc, book, when, toolchain, &shown, path)?;
    Ok(Some(fault))
}

fn copy_fault(alloc: Global, fault: &Fault) -> Result<Option<Fault>, AllocError>
    ensures { IfOk result (λ copied. copied ≡ Some fault.now) }
{
    Ok(Some(fault.copy(alloc)?))
}

// The fault of a unit of a layer, by how its execution has ended.
fn fault_by(
    alloc: Global,
    book: &Book<Answer>,
    default: &Text,
    when: When,
    toolchain: &Text,
    executed: &Executed<Option<ImportValue>>,
) -> Result<Option<Fault>, AllocError>
    requires rest { (start : BaseState) × Rests start book.now }
    requires default { default.now ≡ default_filed book.now }
    requires few { HasLargeImport book.now → ⊥ }
    requires unusable { (path : List ℕ) (place : PlaceState) → (run_of unit_left executed.now).end ≡ spoiled path place → IsUnusable (layer_at when toolchain.now) book.now path }
    ensures { IfOk result (IsFaultAt book.now (layer_at when toolchain.now) (run_of unit_left executed.now).end) }
{
    match executed {
        Executed::Left(..) => Ok(None),
        Executed::Wrong(fault, _) => copy_fault(alloc, fault),
        Executed::Spoiled(path, ..) => spoiling_fault(alloc, book, default, when, toolchain, path),
    }
}

// The fault of the unit of a number, which is of a layer, by its answer.
fn fault_of_unit(
    alloc: Global,
    book: &Book<Answer>,
    default: &Text,
    when: When,
    toolchain: &Text,
    unit: KeyId,
) -> Result<Option<Fault>, AllocError>
    requires rest { (start : BaseState) × Rests start book.now }
    requires default { default.now ≡ default_filed book.now }
    requires few { HasLargeImport book.now → ⊥ }
    requires unit { IsUnitOf (layer_at when toolchain.now) (key_at book.now unit) }
    requires number { slice_get book.now.keys unit ≡ Some (key_at book.now unit) }
    ensures { IfOk result (IsFaultOf book.now (key_at book.now unit)) }
{
    order_does_not_matter();
    links_lead_to_the_fault();
    files_were_read();
    match unit_at(book, unit) {
        None => unreachable!(),
        Some(executed) => fault_by(alloc, book, default, when, toolchain, executed),
    }
}

// The fault of the unit of a key, which has this number, if the key is one and it has one.
fn fault_of_key(
    alloc: Global,
    book: &Book<Answer>,
    default: &Text,
    key: &Key,
    number: KeyId,
) -> Result<Option<Fault>, AllocError>
    requires rest { (start : BaseState) × Rests start book.now }
    requires default { default.now ≡ default_filed book.now }
    requires few { HasLargeImport book.now → ⊥ }
    requires number { slice_get book.now.keys number ≡ Some (key_of key.now) }
    ensures { IfOk result (IsFaultOf book.now (key_of key.now)) }
{
    match key {
        Key::Read(_) => Ok(None),
        Key::Import(..) => Ok(None),
        Key::Setup(toolchain) => {
            fault_of_unit(alloc, book, default, When::Early, toolchain, number)
        }
        Key::Load(_, toolchain) => {
            fault_of_unit(alloc, book, default, When::Usual, toolchain, number)
        }
        Key::Resolve(_) => Ok(None),
    }
}

// The first of two faults, where there is the second one.
fn first_with(first: Option<Fault>, fault: Fault) -> Fault
    ensures { IsFirst first (Some fault) (Some result) }
{
    fault_order_is_strict();
    fault_order_is_transitive();
    fault_order_has_no_ties();
    match first {
        None => fault,
        Some(first) => { if fault.before(&first) { fault } else { first } }
    }
}

// The first of two faults.
fn first_of(first: Option<Fault>, fault: Option<Fault>) -> Option<Fault>
    ensures { IsFirst first fault result }
{
    match fault {
        None => first,
        Some(fault) => Some(first_with(first, fault)),
    }
}

// The first fault of the units.
fn first_fault(
    alloc: Global,
    book: &Book<Answer>,
    default: &Text,
) -> Result<Option<Fault>, AllocError>
    requires rest { (start : BaseState) × Rests start book.now }
    requires default { default.now ≡ default_filed book.now }
    requires few { HasLargeImport book.now → ⊥ }
    ensures { IfOk result (IsFirstFault book.now) }
{
    fault_order_is_strict();
    let mut first = None;
    for number in 0..book.len() {
        let fault = fault_of_key(alloc, book, default, book.key(number), number)?;
        first = first_of(first, fault);
    }
    Ok(first)
}

// The parts of what was loaded.
fn parts_of(alloc: Global, book: &Book<Answer>, default: Text) -> Result<Parts, AllocError>
    requires { default ≡ default_filed book.now }
    ensures { IfOk result (AreParts book.now) }
{
    let numbers = executions_in_order(alloc, book, &default)?;
    let labels = generated_labels(alloc, book, &default)?;
    Ok(Parts {
        default,
        numbers,
        labels,
    })
}

// What all comes to that was loaded, where no import needs too many others.
fn judge_small(alloc: Global, book: &Book<Answer>) -> Result<Judged, AllocError>
    requires rest { (start : BaseState) × Rests start book.now }
    requires few { HasLargeImport book.now → ⊥ }
    ensures { IfOk result (IsJudgedSmall book.now) }
{
    let default = default_toolchain(alloc, book)?;
    match first_fault(alloc, book, &default)? {
        Some(fault) => Ok(Judged::Wrong(fault)),
        None => Ok(Judged::Right(parts_of(alloc, book, default)?)),
    }
}

/// What all comes to that was loaded: the build is too large where an import needs too many others, else it has the first fault of its
/// units, or none.
pub fn judge(alloc: Global, book: &Book<Answer>) -> Result<Judged, AllocError>
    requires rest { (start : BaseState) × Rests start book.now }
    requires few { ReachesFew book.now }
    ensures { IfOk result (IsJudged book.now) }
{
    if has_large_import(alloc, book)? {
        Ok(Judged::Wrong(too_large(alloc)))
    } else {
        judge_small(alloc, book)
    }
}
