//! The value while it is handed out.
ghost use Rattle.std.specs.Prelude.{◌≡◌};

/// The value, from a take until it is given back.
///
/// It can't be dropped: a value that was taken can only be given back, so that no other seat waits for a value that is lost.
pub struct Held<B> {
    pub(crate) kept: B,
}

impl<B> Held<B> {
    ghost use Rattle.gn_turn.specs.Turns.{held_value};

    pub(crate) fn new(kept: B) -> Held<B>
        ensures { held_value result ≡ kept }
    {
        Held { kept }
    }

    pub(crate) fn into_kept(self) -> B
        ensures { result ≡ held_value self }
    {
        let Held { kept } = self;
        kept
    }

    /// The value, to read.
    pub fn kept(&self) -> &B
        ensures { result.now ≡ held_value self.now }
    {
        &self.kept
    }
}
