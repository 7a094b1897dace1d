// Entries in their order.

ghost use Rattle.std.specs.Prelude.{OnOk};
ghost use Rattle.gn_judging.specs.Whole.{IsOrdered};

use std::alloc::AllocError;

/// Puts entries in their order, each once.
pub(crate) fn put_in_order<T: Ord + Drop>(entries: &mut Vec<T>) -> Result<(), AllocError>
    ensures { OnOk result (IsOrdered T.cmp entries.old.items entries.new.items) }
{
    entries.sort()?;
    entries.dedup();
    Ok(())
}
