// The fault to which an import leads that can't be used.

ghost use Rattle.std.specs.Prelude.{◌≡◌, IfOk, Some};
ghost use Rattle.gn_imports.specs.Causes.{earlier, least_among};
ghost use Rattle.gn_executions.specs.Base.{BaseState};
ghost use Rattle.gn_core.specs.Keys.{Import, import_is};
ghost use Rattle.gn_core.specs.Machine.{import_limit};
ghost use Rattle.gn_book.specs.Keys.{layer_at};
ghost use Rattle.gn_book.specs.Logs.{state_of};
ghost use Rattle.gn_projects.specs.Files.{Files};
ghost use Rattle.gn_projects.specs.Errors.{cycle_under};
ghost use Rattle.gn_projects.specs.Computed.{cause_under};
ghost use Rattle.gn_builds.specs.Rest.{IsAtRest, Rests, HasLargeImport};
ghost use Rattle.gn_builds.specs.Causes.{link_at, links_by, IsUnusable, layer_project};
ghost use Rattle.gn_answers.specs.Answers.{run_of, meaning_of};
ghost use Rattle.gn_judging.specs.Links.{IsLedBy, IsFollowed};

use crate::limits::IMPORT_LIMIT;
use gn_answers::{Answer, Executed, Filed, find, import_key};
use gn_book::Book;
use gn_builds::{files_were_read, links_lead_to_the_fault};
use gn_definitions::ImportValue;
use gn_faults::{Code, Fault, Stage};
use gn_items::When;
use gn_paths::{Path, Place, Text, Texts};
use std::alloc::{AllocError, Global};

// What an import leads to that can't be used.
#[derive(Clone, Copy)]
pub(crate) enum Led<'a> {
    // Its own fault.
    Fault(&'a Fault),
    // Another import, for which a call at this place asks.
    Import(&'a Path, &'a Place),
    // Nothing: it can be used.
    Nothing,
}

fn led_by_import(executed: &Executed<ImportValue>) -> Led<'_>
    ensures { IsLedBy (Some (import_is (run_of (λ value effects. value) executed.now))) result }
{
    match executed {
        Executed::Left(..) => Led::Nothing,
        Executed::Wrong(fault, _) => Led::Fault(fault),
        Executed::Spoiled(path, place, _) => Led::Import(path, place),
    }
}

fn led_by(filed: &Filed) -> Led<'_>
    ensures { IsLedBy (Some (meaning_of filed.now)) result }
{
    match filed {
        Filed::Import(executed) => led_by_import(executed),
        Filed::NoValue(path, place, _) => Led::Import(path, place),
        Filed::Content(_) => Led::Nothing,
        Filed::Unit(_) => Led::Nothing,
    }
}

// What the import of a path leads to, among those of a layer.
fn led_at<'a>(
    alloc: Global,
    book: &'a Book<Answer>,
    when: When,
    toolchain: &Text,
    path: &Path,
) -> Result<Led<'a>, AllocError>
    ensures { IfOk result (IsLedBy ((state_of book.now).filed (Import (layer_at when toolchain.now) path.now))) }
{
    let key = import_key(alloc, when, toolchain, path)?;
    match find(book, &key) {
        Some(filed) => Ok(led_by(filed)),
        None => Ok(Led::Nothing),
    }
}

// The fault to which links lead from the import of a path, or the link that comes after as many as an import may need imports.
fn follow<'a>(
    alloc: Global,
    book: &'a Book<Answer>,
    when: When,
    toolchain: &Text,
    path: &'a Path,
) -> Result<Led<'a>, AllocError>
    requires rest { (start : BaseState) × Rests start book.now }
    requires unusable { IsUnusable (layer_at when toolchain.now) book.now path.now }
    ensures { IfOk result (IsFollowed (layer_at when toolchain.now) book.now path.now) }
{
    links_lead_to_the_fault();
    files_were_read();
    let mut at = path;
    for _step in 0..IMPORT_LIMIT {
        match led_at(alloc, book, when, toolchain, at)? {
            Led::Import(next, _) => {
                at = next;
            }
            Led::Fault(fault) => return Ok(Led::Fault(fault)),
            Led::Nothing => unreachable!(),
        }
    }
    led_at(alloc, book, when, toolchain, at)
}

// An import cycle under a toolchain.
fn cycle(alloc: Global, toolchain: Text, place: Place) -> Fault
    ensures { result ≡ cycle_under toolchain place }
{
    Fault {
        stage: Stage::Loading,
        place: Some(place),
        toolchain,
        code: Code::ImportCycle,
        detail: Texts::new(alloc),
    }
}

// The earlier of two places.
fn earlier(alloc: Global, least: Place, place: &Place) -> Result<Place, AllocError>
    ensures { IfOk result (λ p. p ≡ earlier least place.now) }
{
    if *place < least {
        place.copy(alloc)
    } else {
        Ok(least)
    }
}

// The least of a place and those of the calls to which links lead from the import of a path, as many as an import may need imports.
fn least_place(
    alloc: Global,
    book: &Book<Answer>,
    when: When,
    toolchain: &Text,
    path: &Path,
    place: &Place,
) -> Result<Place, AllocError>
    ensures { IfOk result (λ least. least
        ≡ least_among place.now (links_by (link_at (layer_at when toolchain.now) book.now) import_limit path.now)) }
{
    let mut least = place.copy(alloc)?;
    let mut at = path;
    for _step in 0..IMPORT_LIMIT {
        match led_at(alloc, book, when, toolchain, at)? {
            Led::Import(next, call) => {
                least = earlier(alloc, least, call)?;
                at = next;
            }
            Led::Fault(_) => return Ok(least),
            Led::Nothing => return Ok(least),
        }
    }
    Ok(least)
}

// The import cycle round which links go from the import of a path, of which one comes from a call at a place.
fn round(
    alloc: Global,
    book: &Book<Answer>,
    when: When,
    toolchain: &Text,
    shown: &Text,
    path: &Path,
    place: &Place,
) -> Result<Fault, AllocError>
    ensures { IfOk result (λ fault. fault
        ≡ cycle_under shown.now (least_among place.now (links_by (link_at (layer_at when toolchain.now) book.now) import_limit path.now))) }
{
    let least = least_place(alloc, book, when, toolchain, path, place)?;
    Ok(cycle(alloc, shown.copy(alloc)?, least))
}

/// The fault to which the import of a path leads, which can't be used, among those of a layer in a build that was loaded: that of the
/// first wrong import behind it, or that of the cycle round which its links go, at the least place of the calls on it, under the
/// toolchain that is shown.
pub(crate) fn cause(
    alloc: Global,
    book: &Book<Answer>,
    when: When,
    toolchain: &Text,
    shown: &Text,
    path: &Path,
) -> Result<Fault, AllocError>
    requires rest { (start : BaseState) × Rests start book.now }
    requires small { HasLargeImport book.now → ⊥ }
    requires unusable { IsUnusable (layer_at when toolchain.now) book.now path.now }
    ensures { IfOk result (λ fault. (files : Files) → IsAtRest files book.now
        → fault ≡ cause_under shown.now (layer_project files (layer_at when toolchain.now)) path.now) }
{
    links_lead_to_the_fault();
    match follow(alloc, book, when, toolchain, path)? {
        Led::Fault(fault) => fault.copy(alloc),
        Led::Import(next, place) => round(alloc, book, when, toolchain, shown, next, place),
        Led::Nothing => unreachable!(),
    }
}
