// The blocks of items, and the scopes in which the blocks of calls begin.

ghost use Rattle.std.specs.Prelude.{◌≡◌, [], ◌∷◌, None, IfOk, IfErr, OnOk, Ok, Err, option_map};
ghost use Rattle.gn_items.specs.Effects.{Effects, as_tool, is_known, with_defined};
ghost use Rattle.gn_values.specs.View.{val_of};
ghost use Rattle.gn_environment.specs.Environment.{with_open};
ghost use Rattle.gn_environment.specs.Faults.{fault_in};
ghost use Rattle.gn_meaning.specs.Calls.{open_in, open_around, known_by, defaults_given_runs, scope_begun_runs, item_scope, item_scope_begun_runs, item_runs, item_end_runs};
ghost use Rattle.gn_meaning.specs.Templates.{is_inside, is_build_file, asks_for_files, is_build_configuration, allows_items, allows_arguments, is_toolchain, allows};
ghost use Rattle.gn_meaning.specs.Items.{defined};
ghost use Rattle.gn_steps.specs.Ends.{IsFault, IfFault, IsStep};

use crate::definer::{DefineError, Definer};
use gn_env::{Env, GiveError};
use gn_environment::OpenBlock;
use gn_faults::{Code, FileKind};
use gn_items::{Item, ItemKind, Outcome, Tool};
use gn_labels::Label;
use gn_paths::Text;
use gn_steps::{StepEnd, no_effect, wrong_with};
use gn_tree::Position;
use gn_values::Value;
use std::alloc::{AllocError, Global};

// Gives the scope in which the block of a call runs the defaults for calls of this kind.
fn take_defaults(
    alloc: Global,
    kind: &Text,
    position: Position,
    env: &mut Env,
) -> Result<(), StepEnd>
    ensures { (out : Effects) → IsStep (λ u. u) result env.new out (defaults_given_runs kind.now position env.old out) }
{
    match env.give_defaults(alloc, kind) {
        Ok(()) => Ok(()),
        Err(GiveError::AlreadySet(set)) => {
            Err(wrong_with(alloc, env, Code::AlreadySet, position, &set))
        }
        Err(GiveError::Memory) => Err(StepEnd::Memory),
    }
}

/// Opens the scope in which the block of a call runs: it has the name given to the call as `target_name`, and the
/// defaults for calls of this kind. `Wrong` has `AlreadySet` at the call, with the first default that is set there.
#[tactic(auto, unfolding(gn_meaning::specs::Calls::scope_begun_runs))]
pub(crate) fn begin_scope(
    alloc: Global,
    kind: &Text,
    name: &Text,
    position: Position,
    env: &mut Env,
) -> Result<(), StepEnd>
    ensures runs { (out : Effects) → IsStep (λ u. u) result env.new out (scope_begun_runs kind.now name.now position env.old out) }
{
    env.begin_block(alloc, name)?;
    take_defaults(alloc, kind, position, env)
}

// Opens the scope of the block of an item, in which nothing is set but the name of a target.
fn enter_item(alloc: Global, kind: ItemKind, name: &Text, env: &mut Env) -> Result<(), AllocError>
    ensures { OnOk result (env.new ≡ item_scope kind name.now env.old) }
{
    if kind.is_target() {
        env.begin_block(alloc, name)
    } else {
        env.enter(true)
    }
}

/// The same for the block of an item, within which no further item may be defined: that of a target alone has the name.
#[tactic(auto, unfolding(gn_meaning::specs::Calls::item_scope_begun_runs))]
pub(crate) fn begin_item(
    alloc: Global,
    kind: ItemKind,
    kind_name: &Text,
    name: &Text,
    position: Position,
    env: &mut Env,
) -> Result<(), StepEnd>
    ensures runs { (out : Effects) → IsStep (λ u. u) result env.new out (item_scope_begun_runs kind kind_name.now name.now position (with_open (open_in kind) env.old) out) }
{
    env.set_open_block(open_in(kind));
    enter_item(alloc, kind, name, env)?;
    take_defaults(alloc, kind_name, position, env)
}

// The block that is open while that of an item of this kind runs.
fn open_in(kind: ItemKind) -> OpenBlock
    ensures { result ≡ open_in kind }
{
    match kind {
        ItemKind::Toolchain => OpenBlock::Toolchain,
        ItemKind::Tool => OpenBlock::Tool,
        _ => OpenBlock::Item,
    }
}

// The block that stands around that of an item of this kind.
fn open_around(kind: ItemKind) -> OpenBlock
    ensures { result ≡ open_around kind }
{
    match kind {
        ItemKind::Tool => OpenBlock::Toolchain,
        _ => OpenBlock::Nothing,
    }
}

// Whether items but tools may be defined here: in a build file, outside the blocks of other items.
fn allows_items(env: &Env) -> bool
    ensures { result ≡ allows_items env.now }
{
    !is_inside(env.open_block()) && is_build_file(env.kind())
}

/// Whether an item of this kind may be defined here: a tool in the block of a toolchain, all others in a build file, outside the
/// blocks of other items.
pub(crate) fn allows(kind: ItemKind, env: &Env) -> bool
    ensures { result ≡ allows kind env.now }
{
    match kind {
        ItemKind::Tool => is_toolchain(env.open_block()),
        _ => allows_items(env),
    }
}

fn is_toolchain(block: OpenBlock) -> bool
    ensures { result ≡ is_toolchain block }
{
    matches!(block, OpenBlock::Toolchain)
}

fn is_inside(block: OpenBlock) -> bool
    ensures { result ≡ is_inside block }
{
    !matches!(block, OpenBlock::Nothing)
}

/// Whether build arguments may be declared here: where other files may be asked for, outside the blocks of items.
pub(crate) fn allows_arguments(env: &Env) -> bool
    ensures { result ≡ allows_arguments env.now }
{
    !is_inside(env.open_block()) && asks_for_files(env.kind())
}

fn is_build_file(kind: FileKind) -> bool
    ensures { result ≡ is_build_file kind }
{
    matches!(kind, FileKind::BuildFile)
}

/// Whether a file of this kind may ask for others.
pub(crate) fn asks_for_files(kind: FileKind) -> bool
    ensures { result ≡ asks_for_files kind }
{
    match kind {
        FileKind::BuildFile | FileKind::Import | FileKind::BuildConfiguration => true,
        FileKind::Dotfile | FileKind::Arguments => false,
    }
}

/// Whether a file of this kind is the build configuration.
pub(crate) fn is_build_configuration(kind: FileKind) -> bool
    ensures { result ≡ is_build_configuration kind }
{
    matches!(kind, FileKind::BuildConfiguration)
}

// By what an item is known that has been defined: a tool by its name, and all else by its label.
fn known_by(alloc: Global, kind: ItemKind, env: &Env, label: &Label) -> Result<Text, AllocError>
    ensures { IfOk result (λ t. t ≡ known_by kind env.now.setting label.now) }
{
    match kind {
        ItemKind::Tool => label.name.copy(alloc),
        _ => label.print(alloc, &env.context().default_toolchain),
    }
}

// The end of an evaluation in which two items are known by the same.
fn duplicate(alloc: Global, kind: ItemKind, env: &Env, position: Position, label: &Label) -> StepEnd
    ensures { IsFault result (fault_in env.now.setting position Code.DuplicateItem (known_by kind env.now.setting label.now ∷ [])) }
{
    match known_by(alloc, kind, env, label) {
        Ok(text) => wrong_with(alloc, env, Code::DuplicateItem, position, &text),
        Err(_) => StepEnd::Memory,
    }
}

// Whether something has been defined already that is known by the same.
fn is_known(kind: ItemKind, item: &Item, out: &Outcome) -> bool
    ensures { result ≡ is_known kind item.now out.now }
{
    match kind {
        ItemKind::Tool => out.has_tool(item.label.name.as_bytes()),
        _ => out.has(&item.label),
    }
}

// What has been defined, as a tool.
fn as_tool(item: Item) -> Tool
    ensures { result ≡ as_tool item }
{
    let Item {
        label,
        place,
        fields,
        ..
    } = item;
    Tool {
        name: label.name,
        place,
        fields,
    }
}

// Puts what a call of this kind has defined with the others.
fn put_defined(kind: ItemKind, item: Item, out: &mut Outcome) -> Result<(), AllocError>
    ensures { OnOk result (out.new ≡ with_defined kind item out.old) }
{
    match kind {
        ItemKind::Tool => out.add_tool(as_tool(item)),
        ItemKind::Toolchain => out.add_toolchain(item),
        _ => out.add_item(item),
    }
}

// The item whose block has run, or the fault of its definition.
fn define<D: Definer>(
    alloc: Global,
    kind: ItemKind,
    name: &Text,
    position: Position,
    env: &mut Env,
    definer: &mut D,
) -> Result<Item, StepEnd>
    ensures item { IfOk result (λ item. defined kind name.now position env.old ≡ Ok (item, env.new)) }
    ensures wrong { IfErr result (λ e. IfFault e (λ fault. defined kind name.now position env.old ≡ Err fault)) }
    ensures same { definer.new ≡ definer.old }
{
    match definer.define(alloc, kind, name, env, position) {
        Ok(item) => Ok(item),
        Err(DefineError::Wrong(fault)) => Err(StepEnd::Wrong(fault)),
        Err(DefineError::Memory) => Err(StepEnd::Memory),
    }
}

// The end of the block of an item that is defined: it has to be new, then the names of its scope have to be read.
fn close_item(
    alloc: Global,
    kind: ItemKind,
    item: &Item,
    position: Position,
    env: &mut Env,
    out: &Outcome,
) -> Result<(), StepEnd>
    ensures { IsStep (λ u. None) result env.new (with_defined kind item.now out.now) (item_runs kind (Ok (item.now, env.old)) position env.old out.now) }
{
    if is_known(kind, item, out) {
        return Err(duplicate(alloc, kind, env, position, &item.label));
    }
    if let Some((unread, at)) = env.unread() {
        return Err(no_effect(alloc, env, at, unread));
    }
    env.leave();
    env.set_open_block(open_around(kind));
    Ok(())
}

// The same, and then it stands with the others.
fn keep_item(
    alloc: Global,
    kind: ItemKind,
    item: Item,
    position: Position,
    env: &mut Env,
    out: &mut Outcome,
) -> Result<Option<Value>, StepEnd>
    ensures { IsStep (option_map val_of) result env.new out.new (item_runs kind (Ok (item, env.old)) position env.old out.old) }
{
    close_item(alloc, kind, &item, position, env, out)?;
    put_defined(kind, item, out)?;
    Ok(None)
}

/// The end of an item's block: the item is defined, then its label has to be new, and the name of a tool in its toolchain, then
/// the names of its scope have to be read. The item stands behind the others then, and a toolchain has the tools of its block.
/// `Wrong` has the first fault of the definition, `DuplicateItem` at the call with the label or the tool's name, or `NoEffect` at the last assignment of the first name that nothing read.
#[tactic(auto, unfolding(gn_meaning::specs::Calls::item_end_runs))]
pub(crate) fn end_item<D: Definer>(
    alloc: Global,
    kind: ItemKind,
    name: &Text,
    position: Position,
    env: &mut Env,
    out: &mut Outcome,
    definer: &mut D,
) -> Result<Option<Value>, StepEnd>
    ensures runs { IsStep (option_map val_of) result env.new out.new (item_end_runs kind name.now position env.old out.old) }
    ensures same { definer.new ≡ definer.old }
{
    match define(alloc, kind, name, position, env, definer) {
        Ok(item) => keep_item(alloc, kind, item, position, env, out),
        Err(end) => Err(end),
    }
}
