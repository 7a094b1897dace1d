// Overrides, which the program doesn't set yet, and what is left of definitions once those that were added are taken out.

use gn_definitions::{Definitions, MadeBy};
use gn_paths::Text;
use gn_values::{Overrides, Value};
use std::alloc::{AllocError, Global};
use std::sync::Arc;

fn set(alloc: Global, overrides: &mut Overrides, number: i64) -> Result<(), AllocError> {
    overrides.set(Text::from_bytes(alloc, b"x")?, Value::Int(number))
}

fn is_number(value: Option<&Value>, wanted: i64) -> bool {
    match value {
        Some(Value::Int(number)) => *number == wanted,
        _ => false,
    }
}

/// Whether a name that was set to 1 and then to 2 has 2.
pub(crate) fn last_counts(alloc: Global) -> Result<bool, AllocError> {
    let mut overrides = Overrides::new(alloc);
    set(alloc, &mut overrides, 1)?;
    set(alloc, &mut overrides, 2)?;
    Ok(is_number(overrides.get(b"x"), 2))
}

// An execution that made no definitions.
fn made_by(alloc: Global, execution: &Text) -> Result<MadeBy, AllocError> {
    let mut made = MadeBy::new(alloc);
    let name = execution.copy(alloc)?;
    made.set(name, Arc::new(alloc, Definitions::new(alloc))?)?;
    Ok(made)
}

// Whether an addition makes an execution known, and nothing is known of it once the names that the addition gave are taken out.
fn is_taken_out(alloc: Global, others: &MadeBy, execution: &Text) -> Result<bool, AllocError> {
    let mut known = MadeBy::new(alloc);
    let added = known.add(alloc, others)?;
    let is_known = known.get(execution).is_some();
    known.take_out(added);
    Ok(is_known && known.get(execution).is_none())
}

/// Whether what was added is taken out.
pub(crate) fn an_addition_is_taken_out(alloc: Global) -> Result<bool, AllocError> {
    let execution = Text::from_bytes(alloc, b"L//a")?;
    let others = made_by(alloc, &execution)?;
    is_taken_out(alloc, &others, &execution)
}
