// What the evaluations of a build see besides what they ask: the base of each layer, over what is filed.

ghost use Rattle.std.specs.Prelude.{◌≡◌, [], IfOk, Some, None, map, option_map};
ghost use Rattle.gn_values.specs.Tables.{with_names};
ghost use Rattle.gn_values.specs.View.{val_of, entry_of};
ghost use Rattle.gn_closure.specs.Reach.{Setup, Load};
ghost use Rattle.gn_graph.specs.Needs.{home};
ghost use Rattle.gn_core.specs.Keys.{Unit_of};
ghost use Rattle.gn_book.specs.Keys.{key_of, layer_at};
ghost use Rattle.gn_executions.specs.Alone.{nothing_left};
ghost use Rattle.gn_executions.specs.Base.{default_context, other_context, finished_base};
ghost use Rattle.gn_projects.specs.Files.{beneath_of};
ghost use Rattle.gn_projects.specs.Bases.{left_in, left_at, is_definition, definition_among, entries_in, arguments_of, context_under, other_base, early_base, behind, usual_behind, usual_base, base_of_layer};
ghost use Rattle.gn_answers.specs.Answers.{meaning_of};
ghost use Rattle.gn_answers.specs.Bases.{or_start, leaving, items_in};

use crate::keeping::beside;
use crate::setup::overridden;
use gn_answers::{
    Executed, Filed, Part, default_text, first_key, home_key, is_toolchain, setup_key,
    toolchain_name,
};
use gn_definitions::{ImportValue, KeptScope, MadeBy};
use gn_environment::Context;
use gn_evaluation_base::Base;
use gn_items::{Item, Key, Outcome, When};
use gn_paths::Text;
use gn_rows::Variable;
use gn_values::{Bindings, Entry, Value};
use std::alloc::{AllocError, Global};
use std::collections::BTreeMap;
use std::sync::Arc;

/// The other base, or where there is none the one with which the build starts.
pub(crate) fn or_start<'a>(start: &'a Base, other: &'a Option<Base>) -> &'a Base
    ensures { result.now ≡ or_start start.now other.now }
{
    match other {
        Some(base) => base,
        None => start,
    }
}

// What a unit has left, by what is filed for its key.
fn left_by(filed: &Filed) -> Option<(&Option<ImportValue>, &Outcome)>
    ensures { option_map (λ left. leaving left.0.now left.1.now) result ≡ left_in (Some (meaning_of filed.now)) }
{
    match filed {
        Filed::Unit(Executed::Left(beneath, outcome)) => Some((beneath, outcome)),
        Filed::Unit(Executed::Wrong(..)) => None,
        Filed::Unit(Executed::Spoiled(..)) => None,
        Filed::Content(_) => None,
        Filed::Import(_) => None,
        Filed::NoValue(..) => None,
    }
}

// The same, as far as the part has it.
fn left_at<'a, P: Part>(part: &'a P, key: &Key) -> Option<(&'a Option<ImportValue>, &'a Outcome)>
    ensures { option_map (λ left. leaving left.0.now left.1.now) result ≡ left_in (P.answers part.now (key_of key.now)) }
{
    match part.find(key) {
        Some(filed) => left_by(filed),
        None => None,
    }
}

// What the build configuration of the default toolchain has left, as far as the part has it.
fn left_first<'a, P: Part>(
    alloc: Global,
    part: &'a P,
) -> Option<(&'a Option<ImportValue>, &'a Outcome)>
    ensures { option_map (λ left. leaving left.0.now left.1.now) result ≡ left_at (P.answers part.now) (Setup []) }
{
    let first = first_key(alloc);
    let left = left_at(part, &first);
    drop(first);
    left
}

// What the build configuration of a toolchain has left, as far as the part has it.
fn left_early<'a, P: Part>(
    alloc: Global,
    part: &'a P,
    toolchain: &Text,
) -> Result<Option<(&'a Option<ImportValue>, &'a Outcome)>, AllocError>
    ensures { IfOk result (λ left. option_map (λ left. leaving left.0.now left.1.now) left ≡ left_at (P.answers part.now) (Setup toolchain.now)) }
{
    let key = setup_key(alloc, toolchain)?;
    let left = left_at(part, &key);
    drop(key);
    Ok(left)
}

// The items that a unit has left; none where it has left nothing.
fn items_at<'a, P: Part>(part: &'a P, key: &Key) -> &'a [Item]
    ensures { result.now ≡ items_in (left_in (P.answers part.now (key_of key.now))) }
{
    match left_at(part, key) {
        Some((_, outcome)) => outcome.items(),
        None => &[],
    }
}

// The items that the file has left that defines a toolchain, as far as the part has them.
fn items_at_home<'a, P: Part>(
    alloc: Global,
    part: &'a P,
    default: &Text,
    toolchain: &Text,
) -> Result<&'a [Item], AllocError>
    ensures { IfOk result (λ items. items.now ≡ items_in (left_at (P.answers part.now) (Load (home toolchain.now) default.now))) }
{
    let file = home_key(alloc, toolchain, default)?;
    let items = items_at(part, &file);
    drop(file);
    Ok(items)
}

// Whether an item defines a toolchain.
fn is_definition(alloc: Global, toolchain: &Text, item: &Item) -> Result<bool, AllocError>
    ensures { IfOk result (λ is. is ≡ is_definition toolchain.now item.now) }
{
    if !is_toolchain(item) {
        return Ok(false);
    }
    Ok(toolchain_name(alloc, item)? == *toolchain)
}

// The first of these items that defines a toolchain.
fn definition_among<'a>(
    alloc: Global,
    toolchain: &Text,
    items: &'a [Item],
) -> Result<Option<&'a Item>, AllocError>
    ensures { IfOk result (λ found. option_map (λ item. item.now) found ≡ definition_among toolchain.now items.now) }
{
    for item in items {
        if is_definition(alloc, toolchain, item)? {
            return Ok(Some(item));
        }
    }
    Ok(None)
}

// The entries of a scope; none where this is none.
fn entries_in(value: &Value) -> &[Entry]
    ensures { map entry_of result.now ≡ entries_in (Some (val_of value.now)) }
{
    match value {
        Value::Scope(entries) => entries.as_slice(),
        Value::Bool(_) => &[],
        Value::Int(_) => &[],
        Value::Str(_) => &[],
        Value::List(_) => &[],
    }
}

// The values that a toolchain gives to build arguments.
fn arguments_of(item: &Item) -> &[Entry]
    ensures { map entry_of result.now ≡ arguments_of (Some item.now) }
{
    match item.fields.scope(Variable::ToolchainArgs) {
        Some(value) => entries_in(value),
        None => &[],
    }
}

// The same of the first of these items that defines the toolchain; none where there is no such item.
fn arguments_among<'a>(
    alloc: Global,
    toolchain: &Text,
    items: &'a [Item],
) -> Result<&'a [Entry], AllocError>
    ensures { IfOk result (λ entries. map entry_of entries.now ≡ arguments_of (definition_among toolchain.now items.now)) }
{
    match definition_among(alloc, toolchain, items)? {
        Some(item) => Ok(arguments_of(item)),
        None => Ok(&[]),
    }
}

// New texts equal to these.
fn copy_three(
    alloc: Global,
    first: &Text,
    second: &Text,
    third: &Text,
) -> Result<((Text, Text), Text), AllocError>
    ensures { IfOk result (λ texts. texts ≡ ((first.now, second.now), third.now)) }
{
    let one = first.copy(alloc)?;
    let two = beside(one, second.copy(alloc))?;
    beside(two, third.copy(alloc))
}

// The context with these toolchains in place of its own: that of its items, that of its faults and the default one. It has these
// arguments besides its own, over which they win.
fn with_toolchains(
    alloc: Global,
    toolchain: &Text,
    fault_toolchain: &Text,
    default: &Text,
    arguments: &[Entry],
    context: &Context,
) -> Result<Context, AllocError>
    ensures { IfOk result (λ c. c ≡ record context.now { toolchain = toolchain.now; fault_toolchain = fault_toolchain.now; default_toolchain = default.now; overrides = with_names (map entry_of arguments.now) context.now.overrides }) }
{
    let toolchains = copy_three(alloc, toolchain, fault_toolchain, default)?;
    let directory = beside(toolchains, context.build_directory.copy(alloc))?;
    let root = beside(directory, context.source_root.copy(alloc))?;
    let all = beside(root, overridden(alloc, &context.overrides, arguments))?;
    let (((toolchains, build_directory), source_root), overrides) = all;
    let ((toolchain, fault_toolchain), default_toolchain) = toolchains;
    Ok(Context {
        stage: context.stage,
        toolchain,
        fault_toolchain,
        default_toolchain,
        build_directory,
        source_root,
        overrides,
    })
}

// The context of the files under the default toolchain, once its text is known.
fn default_context(alloc: Global, default: &Text, context: &Context) -> Result<Context, AllocError>
    ensures { IfOk result (λ c. c ≡ default_context default.now context.now) }
{
    let fault_toolchain = &context.fault_toolchain;
    with_toolchains(alloc, default, fault_toolchain, default, &[], context)
}

// The context under another toolchain, which gives build arguments values of its own.
fn other_context(
    alloc: Global,
    default: &Text,
    toolchain: &Text,
    arguments: &[Entry],
    context: &Context,
) -> Result<Context, AllocError>
    ensures { IfOk result (λ c. c ≡ other_context toolchain.now (map entry_of arguments.now) (default_context default.now context.now)) }
{
    with_toolchains(alloc, toolchain, toolchain, default, arguments, context)
}

// The same, by what the file has left that defines the toolchain.
fn context_under<P: Part>(
    alloc: Global,
    part: &P,
    default: &Text,
    toolchain: &Text,
    context: &Context,
) -> Result<Context, AllocError>
    ensures { IfOk result (λ c. c ≡ context_under context.now default.now toolchain.now (left_at (P.answers part.now) (Load (home toolchain.now) default.now))) }
{
    let items = items_at_home(alloc, part, default, toolchain)?;
    let arguments = arguments_among(alloc, toolchain, items)?;
    other_context(alloc, default, toolchain, arguments, context)
}

// The base of the build configuration of a toolchain, where that of the default one has left this.
fn other_base<P: Part>(
    alloc: Global,
    start: &Base,
    part: &P,
    toolchain: &Text,
    beneath: &Option<ImportValue>,
    outcome: &Outcome,
) -> Result<Base, AllocError>
    ensures { IfOk result (λ base. base ≡ other_base start.now (P.answers part.now) toolchain.now (Some (leaving beneath.now outcome.now))) }
{
    let default = default_text(alloc, beneath, outcome)?;
    let context = context_under(alloc, part, &default, toolchain, start.context());
    drop(default);
    start.with_context(alloc, Arc::new(alloc, context?)?)
}

// The base of the build configuration of a toolchain.
fn early_base<P: Part>(
    alloc: Global,
    start: &Base,
    part: &P,
    toolchain: &Text,
) -> Result<Option<Base>, AllocError>
    ensures { IfOk result (λ base. or_start start.now base ≡ early_base start.now (P.answers part.now) toolchain.now) }
{
    if toolchain.is_empty() {
        return Ok(None);
    }
    match left_first(alloc, part) {
        Some((beneath, outcome)) => {
            let base = other_base(alloc, start, part, toolchain, beneath, outcome)?;
            Ok(Some(base))
        }
        None => Ok(None),
    }
}

// What an execution has left that has left no name.
fn nothing_left(alloc: Global) -> Result<ImportValue, AllocError>
    ensures { IfOk result (λ left. left ≡ nothing_left) }
{
    let scope = KeptScope::new(
        Bindings::new(alloc),
        BTreeMap::new(alloc),
        BTreeMap::new(alloc),
    );
    ImportValue::new(alloc, scope, MadeBy::new(alloc))
}

// What stands beneath the files behind a build configuration.
fn beneath_of(alloc: Global, beneath: &Option<ImportValue>) -> Result<ImportValue, AllocError>
    ensures { IfOk result (λ left. left ≡ beneath_of beneath.now) }
{
    match beneath {
        Some(left) => left.copy(),
        None => nothing_left(alloc),
    }
}

// The base of the files behind a build configuration with this base, which share this context.
fn behind(
    alloc: Global,
    base: &Base,
    context: Arc<Context>,
    beneath: &Option<ImportValue>,
) -> Result<Base, AllocError>
    ensures { IfOk result (λ behind. behind ≡ finished_base base.now context.value (beneath_of beneath.now)) }
{
    let left = beneath_of(alloc, beneath)?;
    base.finished(alloc, context, &left)
}

// That of the files behind the build configuration of the default toolchain.
fn default_behind(
    alloc: Global,
    start: &Base,
    default: &Text,
    beneath: &Option<ImportValue>,
) -> Result<Option<Base>, AllocError>
    ensures { IfOk result (λ base. or_start start.now base ≡ finished_base start.now (default_context default.now start.now.context) (beneath_of beneath.now)) }
{
    let context = Arc::new(alloc, default_context(alloc, default, start.context())?)?;
    Ok(Some(behind(alloc, start, context, beneath)?))
}

// That of the files behind a build configuration that has this base, or the one with which the build starts.
fn behind_early(
    alloc: Global,
    start: &Base,
    early: &Option<Base>,
    beneath: &Option<ImportValue>,
) -> Result<Option<Base>, AllocError>
    ensures { IfOk result (λ base. or_start start.now base ≡ finished_base (or_start start.now early.now) (or_start start.now early.now).context (beneath_of beneath.now)) }
{
    let base = or_start(start, early);
    let context = base.share_context()?;
    Ok(Some(behind(alloc, base, context, beneath)?))
}

// That of the files behind the build configuration of another toolchain.
fn other_behind<P: Part>(
    alloc: Global,
    start: &Base,
    part: &P,
    toolchain: &Text,
) -> Result<Option<Base>, AllocError>
    ensures { IfOk result (λ base. or_start start.now base
        ≡ behind (early_base start.now (P.answers part.now) toolchain.now) (left_at (P.answers part.now) (Setup toolchain.now))) }
{
    let left = left_early(alloc, part, toolchain)?;
    let early = early_base(alloc, start, part, toolchain)?;
    match left {
        Some((beneath, _)) => {
            let base = behind_early(alloc, start, &early, beneath);
            drop(early);
            base
        }
        None => Ok(early),
    }
}

// The base of the files under a toolchain, where the build configuration of the default one has left this.
fn usual_behind<P: Part>(
    alloc: Global,
    start: &Base,
    part: &P,
    toolchain: &Text,
    beneath: &Option<ImportValue>,
    outcome: &Outcome,
) -> Result<Option<Base>, AllocError>
    ensures { IfOk result (λ base. or_start start.now base ≡ usual_behind start.now (P.answers part.now) toolchain.now (Some (leaving beneath.now outcome.now))) }
{
    let default = default_text(alloc, beneath, outcome)?;
    if *toolchain == default {
        default_behind(alloc, start, &default, beneath)
    } else {
        other_behind(alloc, start, part, toolchain)
    }
}

// The base of the files under a toolchain.
fn usual_base<P: Part>(
    alloc: Global,
    start: &Base,
    part: &P,
    toolchain: &Text,
) -> Result<Option<Base>, AllocError>
    ensures { IfOk result (λ base. or_start start.now base ≡ usual_base start.now (P.answers part.now) toolchain.now) }
{
    match left_first(alloc, part) {
        Some((beneath, outcome)) => usual_behind(alloc, start, part, toolchain, beneath, outcome),
        None => Ok(None),
    }
}

/// The base of the evaluations of a layer, over what is filed; None stands for the one with which the build starts. The file that defines
/// the toolchain, and its build configuration, count as far as they are done.
pub fn base_for<P: Part>(
    alloc: Global,
    start: &Base,
    part: &P,
    when: When,
    toolchain: &Text,
) -> Result<Option<Base>, AllocError>
    ensures { IfOk result (λ base. or_start start.now base ≡ base_of_layer start.now (P.answers part.now) (layer_at when toolchain.now)) }
{
    match when {
        When::Early => early_base(alloc, start, part, toolchain),
        When::Usual => usual_base(alloc, start, part, toolchain),
    }
}
