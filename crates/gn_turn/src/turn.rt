//! A value at which seats take turns.
ghost use Rattle.std.specs.Prelude.{◌≡◌, ◌<◌};

use crate::kept::Kept;
use crate::rule::LockTable;

/// A ticket lock round one value: each seat draws a ticket, and the value is handed out in the tickets' order.
///
/// A turn that is dropped drops its value.
#[derive(Drop)]
pub struct Turn<B: Kept + Drop> {
    pub(crate) table: LockTable<B>,
    pub(crate) count: u32,
    ghost some: { 0 < count },
    ghost sized: { (table.shared.table_id.words ≡ 2) × (table.shared.table_id.slots ≡ 1) },
}
