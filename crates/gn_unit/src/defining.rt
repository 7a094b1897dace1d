// The definition of items, and the library that defines them.

ghost use Rattle.std.specs.Prelude.{◌≡◌, Ok, Err, IfOk, IfErr, OnOk, option_map};
ghost use Rattle.gn_rows.specs.Tables.{rows_of};
ghost use Rattle.gn_define.specs.Faults.{IsItemFault};
ghost use Rattle.gn_meaning.specs.Items.{defined, label_here, item_here, fields_here, rows_read, texts_shown, item_fault};
ghost use Rattle.gn_calls_scopes.specs.Definitions.{IfWrong};

use gn_define::{Block, DefineError as FieldsError, Fields, ItemFault, define};
use gn_env::Env;
use gn_eval::{DefineError, Definer, Found, Imported, LibStop, Library};
use gn_faults::Fault;
use gn_items::{Item, ItemKind, Tools};
use gn_labels::Label;
use gn_paths::{Path, Place, Text, Texts};
use gn_rows::{Row, rows_of};
use gn_steps::context_here;
use gn_tree::Position;
use gn_values::Value;
use std::alloc::{AllocError, Global};

// The block of an item that has ended: what a name is worth in the environment.
#[derive(Clone, Copy)]
struct EndedBlock<'a> {
    env: &'a Env,
}

impl Block for EndedBlock<'_> {
    ghost use Rattle.gn_environment.specs.Environment.{value_of};

    ghost values = { λ b name. value_of name b.env.now };

    fn value(&self, name: &[u8]) -> Option<&Value> {
        self.env.value(name)
    }
}

/// A library that defines items too. What it answers is what the library behind the reference answers.
#[derive(Drop)]
pub(crate) struct Defining<'a, L> {
    pub(crate) library: &'a mut L,
}

impl<L: Library> Library for Defining<'_, L> {
    ghost use Rattle.std.specs.Prelude.{◌∷◌};

    ghost state = { λ w. record {
      told = (L.state w.library.now).told;
      need = (L.state w.library.now).need;
      stops = (L.state w.library.now).stops;
      references = w.library.ghost_name ∷ (L.state w.library.now).references;
    } };

    fn import(&mut self, alloc: Global, path: &Path, place: &Place) -> Result<Imported, LibStop> {
        self.library.import(alloc, path, place)
    }

    fn bytes(&mut self, alloc: Global, path: &Path, place: &Place) -> Result<Found, LibStop> {
        self.library.bytes(alloc, path, place)
    }
}

impl<L> Definer for Defining<'_, L> {
    fn define(
        &mut self,
        alloc: Global,
        kind: ItemKind,
        name: &Text,
        env: &mut Env,
        position: Position,
    ) -> Result<Item, DefineError> {
        define_item(alloc, kind, name, env, position)
    }
}

// The item of this kind and name whose block has ended, by the rows of its kind; the names of these count as read
// from then on. `Wrong` has the first fault, and comes exactly where there is one, but for want of memory.
#[tactic(auto, unfolding(gn_meaning::specs::Items::defined))]
fn define_item(
    alloc: Global,
    kind: ItemKind,
    name: &Text,
    env: &mut Env,
    position: Position,
) -> Result<Item, DefineError>
    ensures ok { IfOk result (λ item. defined kind name.now position env.old ≡ Ok (item, env.new)) }
    ensures wrong { IfErr result (λ e. IfWrong e (λ fault. defined kind name.now position env.old ≡ Err fault)) }
{
    match fields_here(alloc, kind, name, env) {
        Ok(fields) => item_read(alloc, kind, name, env, position, fields),
        Err(FieldsError::Wrong(fault)) => Err(wrong(alloc, kind, name, env, position, fault)),
        Err(FieldsError::Memory) => Err(DefineError::Memory),
    }
}

// The fields of the item, by the rows of its kind.
fn fields_here(alloc: Global, kind: ItemKind, name: &Text, env: &Env) -> Result<Fields, FieldsError>
    ensures ok { IfOk result (λ r. fields_here kind name.now env.now ≡ Ok r) }
    ensures wrong { IfErr result (λ e. IsItemFault e (fields_here kind name.now env.now)) }
{
    let Ok(context) = context_here(alloc, kind, env) else {
        return Err(FieldsError::Memory);
    };
    let block = EndedBlock { env };
    define(alloc, &context, rows_of(kind), name.as_bytes(), &block)
}

// The item, once the names of its rows count as read.
fn item_read(
    alloc: Global,
    kind: ItemKind,
    name: &Text,
    env: &mut Env,
    position: Position,
    fields: Fields,
) -> Result<Item, DefineError>
    ensures item { IfOk result (λ item. item ≡ item_here env.old.setting kind name.now position fields) }
    ensures read { OnOk result (env.new ≡ rows_read (rows_of kind) env.old) }
    ensures memory { IfErr result (λ e. e ≡ DefineError.Memory) }
{
    let item = item_here(alloc, kind, name, env, position, fields)?;
    read_rows(env, rows_of(kind));
    Ok(item)
}

// The label of an item of this name, which stands in the current directory.
fn label_here(alloc: Global, name: &Text, env: &Env) -> Result<Label, AllocError>
    ensures { IfOk result (λ label. label ≡ label_here env.now.setting name.now) }
{
    let dir = env.directory().copy(alloc)?;
    let name = name.copy(alloc)?;
    let toolchain = env.context().toolchain.copy(alloc)?;
    Ok(Label {
        dir,
        name,
        toolchain,
    })
}

// The item of this name with these fields.
fn item_here(
    alloc: Global,
    kind: ItemKind,
    name: &Text,
    env: &Env,
    position: Position,
    fields: Fields,
) -> Result<Item, AllocError>
    ensures { IfOk result (λ item. item ≡ item_here env.now.setting kind name.now position fields) }
{
    let label = label_here(alloc, name, env)?;
    let file = env.file().copy(alloc)?;
    Ok(Item {
        kind,
        label,
        place: Place {
            file,
            line: position.line,
            column: position.column,
        },
        fields,
        tools: Tools::new(alloc),
    })
}

// Counts the names of these rows as read.
fn read_rows(env: &mut Env, rows: &[Row])
    ensures { env.new ≡ rows_read rows.now env.old }
{
    for row in rows {
        env.mark(row.variable.name());
    }
}

// The end of the definition of an item that has a fault.
fn wrong(
    alloc: Global,
    kind: ItemKind,
    name: &Text,
    env: &Env,
    position: Position,
    fault: ItemFault,
) -> DefineError
    ensures { IfWrong result (λ f. f ≡ item_fault env.now.setting kind name.now position fault) }
{
    match fault_here(alloc, kind, name, env, position, fault) {
        Ok(fault) => DefineError::Wrong(fault),
        Err(_) => DefineError::Memory,
    }
}

fn fault_here(
    alloc: Global,
    kind: ItemKind,
    name: &Text,
    env: &Env,
    position: Position,
    fault: ItemFault,
) -> Result<Fault, AllocError>
    ensures { IfOk result (λ f. f ≡ item_fault env.now.setting kind name.now position fault) }
{
    let shown = texts_shown(alloc, fault.detail(kind, name.as_bytes()))?;
    env.fault(alloc, fault.code(), position, shown)
}

// The text that a fault shows, if it shows one.
fn texts_shown(alloc: Global, text: Option<&[u8]>) -> Result<Texts, AllocError>
    ensures { IfOk result (λ t. t ≡ texts_shown (option_map (λ b. b.now) text.entry)) }
{
    let mut shown = Texts::new(alloc);
    if let Some(text) = text {
        shown.push(Text::from_bytes(alloc, text)?)?;
    }
    Ok(shown)
}
