// The work on the claim of a build configuration, of a build file or of an import: its execution over some part of what is filed.

ghost use Rattle.std.specs.Prelude.{◌≡◌, IfOk, IfSome, Some, if◌then◌else◌};
ghost use Rattle.gn_definitions.specs.Imported.{ImportState};
ghost use Rattle.gn_tree.specs.Depth.{IsShallow};
ghost use Rattle.gn_runs.specs.Runs.{Run, Answers, import_of};
ghost use Rattle.gn_meaning.specs.Steps.{Left};
ghost use Rattle.gn_core.specs.Keys.{Layer, Import, Unit_of, shown};
ghost use Rattle.gn_closure.specs.Reach.{Load as load, Setup as setup};
ghost use Rattle.gn_executions.specs.Base.{BaseState};
ghost use Rattle.gn_items.specs.declared.key.Key.{Key as Named};
ghost use Rattle.gn_items.specs.declared.key.Key.TheVariants as variant;
ghost use Rattle.gn_unit.specs.Ends.{IsExecuted, IsImportOf, IsNeedOf, WhereStopped, WherePaused, WhereTree, IsKept, IsRead, asked_of};
ghost use Rattle.gn_book.specs.Keys.{layer_at};
ghost use Rattle.gn_projects.specs.Files.{left_run};
ghost use Rattle.gn_answers.specs.Answers.{run_of, meaning_of};
ghost use Rattle.gn_perform.specs.Kept.{GoesOnAt, IsKeptOf};
ghost use Rattle.gn_perform.specs.declared.kept.Rest.TheVariants as left;
ghost use Rattle.gn_perform.specs.Performing.{IsPerformedOver, KeepsFor};
ghost use Rattle.gn_told.specs.Told.{told_state, need_view};
ghost use Rattle.gn_perform.specs.Evaluating.{IsRan, IsBuildFile, IsConfiguration, IsImported, IsLoadExecuted, IsSetupExecuted, IsImportFiled, IsLacking};

use crate::kept::{Kept, Rest};
use crate::work::Performed;
use gn_answers::{Executed, Filed, Part, import_key, load_key, setup_key};
use gn_definitions::ImportValue;
use gn_items::{Claim, Key, Question, When};
use gn_paths::{Path, Place, Text};
use gn_told::{Needed, Told, has_no_value};
use gn_unit::{Base, EvalStop, Parsed, Paused, Unit, evaluate, evaluate_again, go_on};
use std::alloc::{AllocError, Global};

/// What comes of an execution.
#[derive(Drop)]
pub(crate) enum Ran {
    /// It has ended.
    Ended(Unit),
    /// It needs this answer, and this is kept of it.
    Lacks(Needed, Kept),
}

// What comes of an execution that has no end yet.
fn lacks(need: Needed, stop: EvalStop) -> Result<Ran, AllocError>
    ensures { IfOk result (λ ran. (base : BaseState) (key : Named) (a : Answers) → WhereStopped stop (λ asked. IsNeedOf base key (need_view need) asked a) →
        WherePaused stop (IsKept base key (Some a)) → WhereTree stop (IsRead base key (Some a)) → IsRan base key a ran) }
{
    match stop {
        EvalStop::Stopped(asked) => Ok(Ran::Lacks(need, Kept::Asked(asked))),
        EvalStop::Paused(rest) => Ok(Ran::Lacks(need, Kept::Rest(rest))),
        EvalStop::Again(tree, asked) => Ok(Ran::Lacks(need, Kept::Tree(tree, asked))),
        EvalStop::Memory => Err(AllocError),
    }
}

// The execution that a key names, from its start, over a base and what a library tells.
fn begin_over<P: Part>(
    alloc: Global,
    base: &Base,
    told: Told<'_, P>,
    key: Key,
) -> Result<Ran, AllocError>
    requires { IsExecuted key }
    ensures { IfOk result (IsRan base.now key (shown (P.answers told.entry.part.now) (layer_at told.entry.when told.entry.toolchain.now))) }
{
    let mut told = told;
    match evaluate(alloc, Claim::issue(key, 0, 0), base, &mut told) {
        Ok(done) => Ok(Ran::Ended(done.1)),
        Err(stopped) => lacks(told.need, stopped.1),
    }
}

// The same from where it has stopped.
fn go_over<P: Part>(
    alloc: Global,
    told: Told<'_, P>,
    key: &Key,
    rest: Paused,
) -> Result<Ran, AllocError>
    requires executed { IsExecuted key.now }
    requires shallow { IsShallow rest.tree }
    ensures { IfOk result (λ ran. (base : BaseState) → GoesOnAt base key.now (Some (shown (P.answers told.entry.part.now) (layer_at told.entry.when told.entry.toolchain.now))) (left.Paused rest) →
        IsRan base key.now (shown (P.answers told.entry.part.now) (layer_at told.entry.when told.entry.toolchain.now)) ran) }
{
    let mut told = told;
    match go_on(alloc, key, rest, &mut told) {
        Ok(unit) => Ok(Ran::Ended(unit)),
        Err(stop) => lacks(told.need, stop),
    }
}

// The same from its start, with the tree of its file.
fn again_over<P: Part>(
    alloc: Global,
    base: &Base,
    told: Told<'_, P>,
    key: &Key,
    tree: Parsed,
) -> Result<Ran, AllocError>
    requires executed { IsExecuted key.now }
    requires read { IsRead base.now key.now (Some (shown (P.answers told.part.now) (layer_at told.when told.toolchain.now))) tree }
    ensures { IfOk result (IsRan base.now key.now (shown (P.answers told.entry.part.now) (layer_at told.entry.when told.entry.toolchain.now))) }
{
    let mut told = told;
    match evaluate_again(alloc, key, base, tree, &mut told) {
        Ok(unit) => Ok(Ran::Ended(unit)),
        Err(stop) => lacks(told.need, stop),
    }
}

// The execution that a key names, from where it has stopped, if it has begun, over a base and what a library tells.
fn run_over<P: Part>(
    alloc: Global,
    base: &Base,
    told: Told<'_, P>,
    key: Key,
    rest: Option<Rest>,
) -> Result<Ran, AllocError>
    requires executed { IsExecuted key }
    requires rest { IfSome rest (GoesOnAt base.now key (Some (shown (P.answers told.part.now) (layer_at told.when told.toolchain.now)))) }
    ensures { IfOk result (IsRan base.now key (shown (P.answers told.entry.part.now) (layer_at told.entry.when told.entry.toolchain.now))) }
{
    match rest {
        Some(Rest::Paused(rest)) => {
            let ran = go_over(alloc, told, &key, rest);
            drop(key);
            ran
        }
        Some(Rest::Tree(tree)) => {
            let ran = again_over(alloc, base, told, &key, tree);
            drop(key);
            ran
        }
        None => begin_over(alloc, base, told, key),
    }
}

// The execution that a key names of the layer, over a base and some part of what is filed.
fn run_key<P: Part>(
    alloc: Global,
    base: &Base,
    part: &P,
    when: When,
    toolchain: &Text,
    key: Key,
    rest: Option<Rest>,
) -> Result<Ran, AllocError>
    requires executed { IsExecuted key }
    requires rest { IfSome rest (GoesOnAt base.now key (Some (shown (P.answers part.now) (layer_at when toolchain.now)))) }
    ensures { IfOk result (IsRan base.now key (shown (P.answers part.now) (layer_at when toolchain.now))) }
{
    let told = Told::new(alloc, part, when, toolchain)?;
    run_over(alloc, base, told, key, rest)
}

// What is filed of the execution of a build file.
fn load_executed(unit: Unit) -> Executed<Option<ImportValue>>
    requires { IsBuildFile unit }
    ensures { IsLoadExecuted unit result }
{
    match unit {
        Unit::Load(outcome) => Executed::Left(None, outcome),
        Unit::Setup(..) => unreachable!(),
        Unit::Import(..) => unreachable!(),
        Unit::Wrong(fault, asked) => Executed::Wrong(fault, asked),
        Unit::Spoiled(path, place, asked) => Executed::Spoiled(path, place, asked),
    }
}

// What is filed of the execution of a build configuration.
fn setup_executed(unit: Unit) -> Executed<Option<ImportValue>>
    requires { IsConfiguration unit }
    ensures { IsSetupExecuted unit result }
{
    match unit {
        Unit::Setup(value, outcome) => Executed::Left(Some(value), outcome),
        Unit::Load(_) => unreachable!(),
        Unit::Import(..) => unreachable!(),
        Unit::Wrong(fault, asked) => Executed::Wrong(fault, asked),
        Unit::Spoiled(path, place, asked) => Executed::Spoiled(path, place, asked),
    }
}

// How the execution of an import has ended.
fn import_executed(unit: Unit) -> Executed<ImportValue>
    requires { IsImported unit }
    ensures { (run : Run (Left ImportState)) → IsImportOf unit run.end → run.asked ≡ asked_of unit → run_of (λ value effects. value) result ≡ left_run (λ value. value) run }
{
    match unit {
        Unit::Setup(..) => unreachable!(),
        Unit::Load(_) => unreachable!(),
        Unit::Import(value, outcome) => Executed::Left(value, outcome),
        Unit::Wrong(fault, asked) => Executed::Wrong(fault, asked),
        Unit::Spoiled(path, place, asked) => Executed::Spoiled(path, place, asked),
    }
}

// What is filed of an import that is spoiled at another one, which has no value, or has one that can't be used.
fn spoiled_filed(none: bool, path: Path, place: Place, asked: Vec<Question>) -> Filed
    ensures { result ≡ (if none then Filed.NoValue path place asked else Filed.Import (Executed.Spoiled path place asked)) }
{
    if none {
        Filed::NoValue(path, place, asked)
    } else {
        Filed::Import(Executed::Spoiled(path, place, asked))
    }
}

// What is filed of the execution of an import of a layer. One that is spoiled at an import without value has none itself.
fn import_filed<P: Part>(
    alloc: Global,
    part: &P,
    when: When,
    toolchain: &Text,
    executed: Executed<ImportValue>,
) -> Result<Filed, AllocError>
    ensures { IfOk result (IsImportFiled (P.answers part.now) (layer_at when toolchain.now) (run_of (λ value effects. value) executed)) }
{
    match executed {
        Executed::Spoiled(path, place, asked) => {
            let none = has_no_value(alloc, part, when, toolchain, &path)?;
            Ok(spoiled_filed(none, path, place, asked))
        }
        executed => Ok(Filed::Import(executed)),
    }
}

// What an import of a layer leaves is needed first.
fn needs_import(
    alloc: Global,
    when: When,
    toolchain: &Text,
    path: Path,
    place: Place,
    kept: Kept,
) -> Result<Performed, AllocError>
    ensures { IfOk result (IsLacking (layer_at when toolchain.now) (record { question = import_of path; place = place }) kept) }
{
    let toolchain = toolchain.copy(alloc)?;
    Ok(Performed::Needs(Key::Import(when, toolchain, path), place, kept))
}

// What an evaluation of a layer needs, as a key.
fn needs(
    alloc: Global,
    when: When,
    toolchain: &Text,
    need: Needed,
    kept: Kept,
) -> Result<Performed, AllocError>
    ensures { IfOk result (IsLacking (layer_at when toolchain.now) (need_view need) kept) }
{
    let Needed { question, place } = need;
    match question {
        Question::Content(path) => Ok(Performed::Needs(Key::Read(path), place, kept)),
        Question::Import(path) => needs_import(alloc, when, toolchain, path, place, kept),
    }
}

/// The work on the claim of a build configuration, over a base and some part of what is filed.
pub(crate) fn perform_setup<P: Part>(
    alloc: Global,
    base: &Base,
    part: &P,
    toolchain: &Text,
    rest: Option<Rest>,
) -> Result<Performed, AllocError>
    requires { IfSome rest (IsKeptOf base.now (P.answers part.now) (variant.Setup toolchain.now)) }
    ensures done { IfOk result (IsPerformedOver base.now (P.answers part.now) (Unit_of (setup toolchain.now))) }
    ensures kept { IfOk result (KeepsFor base.now (P.answers part.now) (variant.Setup toolchain.now)) }
{
    let key = setup_key(alloc, toolchain)?;
    match run_key(alloc, base, part, When::Early, toolchain, key, rest)? {
        Ran::Ended(unit) => Ok(Performed::Answered(Filed::Unit(setup_executed(unit)))),
        Ran::Lacks(need, kept) => needs(alloc, When::Early, toolchain, need, kept),
    }
}

/// The work on the claim of a build file, over a base and some part of what is filed.
pub(crate) fn perform_load<P: Part>(
    alloc: Global,
    base: &Base,
    part: &P,
    directory: &Path,
    toolchain: &Text,
    rest: Option<Rest>,
) -> Result<Performed, AllocError>
    requires { IfSome rest (IsKeptOf base.now (P.answers part.now) (variant.Load directory.now toolchain.now)) }
    ensures done { IfOk result (IsPerformedOver base.now (P.answers part.now) (Unit_of (load directory.now toolchain.now))) }
    ensures kept { IfOk result (KeepsFor base.now (P.answers part.now) (variant.Load directory.now toolchain.now)) }
{
    let key = load_key(alloc, directory, toolchain)?;
    match run_key(alloc, base, part, When::Usual, toolchain, key, rest)? {
        Ran::Ended(unit) => Ok(Performed::Answered(Filed::Unit(load_executed(unit)))),
        Ran::Lacks(need, kept) => needs(alloc, When::Usual, toolchain, need, kept),
    }
}

/// The work on the claim of an import of a layer, over a base and some part of what is filed.
pub(crate) fn perform_import<P: Part>(
    alloc: Global,
    base: &Base,
    part: &P,
    when: When,
    toolchain: &Text,
    path: &Path,
    rest: Option<Rest>,
) -> Result<Performed, AllocError>
    requires { IfSome rest (IsKeptOf base.now (P.answers part.now) (variant.Import when toolchain.now path.now)) }
    ensures done { IfOk result (IsPerformedOver base.now (P.answers part.now) (Import (layer_at when toolchain.now) path.now)) }
    ensures kept { IfOk result (KeepsFor base.now (P.answers part.now) (variant.Import when toolchain.now path.now)) }
{
    let key = import_key(alloc, when, toolchain, path)?;
    match run_key(alloc, base, part, when, toolchain, key, rest)? {
        Ran::Ended(unit) => Ok(Performed::Answered(import_filed(
            alloc,
            part,
            when,
            toolchain,
            import_executed(unit),
        )?)),
        Ran::Lacks(need, kept) => needs(alloc, when, toolchain, need, kept),
    }
}
