// What is filed for a key.

ghost use Rattle.std.specs.Prelude.{◌≡◌, Some, IfOk};
ghost use Rattle.gn_core.specs.Keys.{Answer as Meaning, unit_in};
ghost use Rattle.gn_book.specs.Graphs.{mentioned};

use gn_graph::UnitNeeds;
use std::alloc::{AllocError, Global};

/// What the answer of a key says of what loading needs.
#[derive(Drop)]
pub enum Mentions {
    /// It isn't the answer of a unit.
    NoUnit,
    /// The unit is wrong or spoiled, so it needs nothing.
    Nothing,
    /// The unit is done, and needs this.
    Needs(UnitNeeds),
}

/// What is filed for a key. A book keeps it and lends it; it never looks inside, but at what it mentions. Who wants to use an
/// answer outside the book makes it a value that is shared.
pub trait Answer: Drop {
    // what it says
    ghost meaning: { Self → Meaning };

    /// What it says of what loading needs.
    fn mentions(&self, alloc: Global) -> Result<Mentions, AllocError>
        ensures { IfOk result (λ mentions. mentioned mentions ≡ unit_in (Some (meaning self.now))) };
}
