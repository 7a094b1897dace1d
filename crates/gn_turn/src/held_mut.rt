//! Writing to the value while it is handed out. The clause names the layout of `Held`, so it stands in a file of its own.
ghost use Rattle.std.specs.Prelude.{◌≡◌};
ghost use Rattle.std.specs.Borrow.{Lends, sem};
ghost use Rattle.gn_turn.specs.Turns.{held_value};
ghost use Rattle.gn_turn.specs.contracts.held.Held.{the_row};

use crate::held::Held;

impl<B> Held<B> {
    /// The value, to write. When the borrow ends, the value is what was written through it.
    pub fn kept_mut(&mut self) -> &mut B
        ensures* writes_back { sem 𝓛 (Lends (the_row B.row) B.row self.entry result (λ w. record { kept = w })) }
        ensures value { result.now ≡ held_value self.old }
    {
        &mut self.kept
    }
}
