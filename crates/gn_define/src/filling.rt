// The fold over the rows of an item.

ghost use Rattle.std.specs.Prelude.{◌≡◌, [], Ok, IfOk, IfErr, OnOk, option_map};
ghost use Rattle.gn_values.specs.View.{val_of};
ghost use Rattle.gn_rows.specs.Names.{variable_name};
ghost use Rattle.gn_define.specs.Faults.{IsItemFault, IsFieldFault, of_variable};
ghost use Rattle.gn_define.specs.Fields.{entries_of, with_field, filled};

use crate::block::Block;
use crate::checking::checked;
use crate::fault::{DefineError, ItemFault, ReadError};
use crate::fields::{Entry, Fields, paths_at};
use crate::place::Where;
use gn_rows::{Row, Variable};
use gn_values::Value;
use std::alloc::Global;

// The field of a row behind the others.
fn push_field(
    alloc: Global,
    place: &Where,
    row: Row,
    value: Option<&Value>,
    entries: &mut Vec<Entry>,
) -> Result<(), ReadError>
    ensures ok { OnOk result (with_field place.now row (option_map (λ v. val_of v.now) value.entry) (entries_of entries.old.items) ≡ Ok (entries_of entries.new.items)) }
    ensures wrong { IfErr result (λ e. IsFieldFault row.variable e (with_field place.now row (option_map (λ v. val_of v.now) value.entry) (entries_of entries.old.items))) }
{
    let Some(value) = value else {
        return Ok(());
    };
    let sources = paths_at(entries.as_slice(), Variable::Sources);
    let field = checked(alloc, place, sources, row.row_type, value)?;
    entries.push(Entry {
        variable: row.variable,
        field,
    })?;
    Ok(())
}

// The fault of a variable.
fn of_variable(variable: Variable, error: ReadError) -> DefineError
    ensures { result ≡ of_variable variable error }
{
    match error {
        ReadError::Wrong(code) => DefineError::Wrong(ItemFault::Variable { variable, code }),
        ReadError::Memory => DefineError::Memory,
    }
}

// One row: its field is put behind the others.
fn fill_row<B: Block>(
    alloc: Global,
    place: &Where,
    row: Row,
    block: &B,
    entries: &mut Vec<Entry>,
) -> Result<(), DefineError>
    ensures ok { OnOk result (with_field place.now row (B.values block.now (variable_name row.variable)) (entries_of entries.old.items) ≡ Ok (entries_of entries.new.items)) }
    ensures wrong { IfErr result (λ e. IsItemFault e (with_field place.now row (B.values block.now (variable_name row.variable)) (entries_of entries.old.items))) }
{
    let value = block.value(row.variable.name());
    match push_field(alloc, place, row, value, entries) {
        Ok(()) => Ok(()),
        Err(error) => Err(of_variable(row.variable, error)),
    }
}

/// The fields of a block by these rows, in their order. `Wrong` has the fault of the first row that has one, and comes exactly
/// where there is one, but for want of memory.
pub(crate) fn fill<B: Block>(
    alloc: Global,
    place: &Where,
    rows: &[Row],
    block: &B,
) -> Result<Fields, DefineError>
    ensures ok { IfOk result (λ r. filled place.now (B.values block.now) [] rows.now ≡ Ok r) }
    ensures wrong { IfErr result (λ e. IsItemFault e (filled place.now (B.values block.now) [] rows.now)) }
{
    let mut entries = Vec::new(alloc);
    for row in rows {
        fill_row(alloc, place, *row, block, &mut entries)?;
    }
    match Fields::from_vec(alloc, entries) {
        Ok(fields) => Ok(fields),
        Err(_) => Err(DefineError::Memory),
    }
}
