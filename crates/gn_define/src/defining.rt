// What a block defines.

ghost use Rattle.std.specs.Prelude.{◌≡◌, Ok, Err, IfOk, IfErr, MatchResult};
ghost use Rattle.gn_define.specs.Faults.{IsItemFault};
ghost use Rattle.gn_define.specs.Defining.{tool_fault, label_fault, name_fault, complete, block_defines};

use crate::block::Block;
use crate::demands::first_broken;
use crate::fault::{DefineError, ItemFault};
use crate::fields::Fields;
use crate::filling::fill;
use crate::place::Where;
use gn_labels::is_name;
use gn_rows::{ItemKind, Row, ToolName, demands_of};
use std::alloc::Global;

fn tool_fault(name: &[u8]) -> Option<ItemFault>
    ensures { result ≡ tool_fault name.now }
{
    match ToolName::named(name) {
        Some(_) => None,
        None => Some(ItemFault::UnknownTool),
    }
}

fn label_fault(name: &[u8]) -> Option<ItemFault>
    ensures { result ≡ label_fault name.now }
{
    if is_name(name) {
        None
    } else {
        Some(ItemFault::BadName)
    }
}

/// The fault of the name that is given to a call of this kind: a tool is one of those that are known, and all else has the name
/// of a label. None exactly where it has none. It takes no memory.
pub fn name_fault(kind: ItemKind, name: &[u8]) -> Option<ItemFault>
    ensures { result ≡ name_fault kind name.now }
{
    match kind {
        ItemKind::Tool => tool_fault(name),
        _ => label_fault(name),
    }
}

// The fields, where all demands are met.
fn complete(kind: ItemKind, name: &[u8], fields: Fields) -> Result<Fields, ItemFault>
    ensures { MatchResult result
        (λ r. complete kind name.now fields ≡ Ok r)
        (λ e. complete kind name.now fields ≡ Err e) }
{
    match first_broken(&fields, demands_of(kind, name)) {
        None => Ok(fields),
        Some(fault) => Err(fault),
    }
}

/// The fields of the item of this name whose block has ended, by these rows: its name is judged first, then each row in their
/// order, then what the kind demands. `Wrong` has the first fault, and comes exactly where there is one, but for want of memory.
#[tactic(auto, unfolding(crate::specs::Defining::block_defines))]
pub fn define<B: Block>(
    alloc: Global,
    place: &Where,
    rows: &[Row],
    name: &[u8],
    block: &B,
) -> Result<Fields, DefineError>
    ensures ok { IfOk result (λ r. block_defines place.now rows.now name.now (B.values block.now) ≡ Ok r) }
    ensures wrong { IfErr result (λ e. IsItemFault e (block_defines place.now rows.now name.now (B.values block.now))) }
{
    if let Some(fault) = name_fault(place.kind, name) {
        return Err(DefineError::Wrong(fault));
    }
    let fields = fill(alloc, place, rows, block)?;
    match complete(place.kind, name, fields) {
        Ok(fields) => Ok(fields),
        Err(fault) => Err(DefineError::Wrong(fault)),
    }
}
