// What the blocks of items define.

ghost use Rattle.gn_meaning.specs.ItemLaws.{ItemsAreTheirBlocks};

use gn_define::{demands_are_met, fields_are_of_the_block};

/// An item that is defined is what its block says: it has a field for just those variables of its kind that have a value where
/// its block ends, in the order of the table, and each field is what that value is read as; all that its kind demands is met; and
/// behind its definition just the names of its table are read, each once and in order.
pub fn items_are_their_blocks()
    ensures { ItemsAreTheirBlocks }
{
    fields_are_of_the_block();
    demands_are_met();
}
