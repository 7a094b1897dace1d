// How deep a part of a file stands.

ghost use Rattle.std.specs.Prelude.{◌≡◌, ◌+◌, IfSome, IfNone};
ghost use Rattle.gn_meaning.specs.Steps.{deeper};

/// How many calls of templates and evaluations of what was read may still open, and how deep a part nests in its file.
#[derive(Clone, Copy)]
pub(crate) struct Level {
    /// How many may still open.
    pub(crate) room: usize,
    /// How deep the part nests.
    pub(crate) nesting: u32,
}

// The greatest depth of an evaluation.
const MAX_DEPTH: u32 = 400;

impl Level {
    /// Where an evaluation begins: no call of a template is open, and the block nests nowhere.
    pub(crate) fn outermost() -> Level
        ensures { result ≡ record { room = 400; nesting = 0 } }
    {
        Level {
            room: 400,
            nesting: 0,
        }
    }

    /// The level of what stands so much deeper.
    pub(crate) fn deeper(self, more: u32) -> Level
        ensures { result ≡ record { room = self.room; nesting = deeper self.nesting more } }
    {
        Level {
            room: self.room,
            nesting: self.nesting.saturating_add(more).min(MAX_DEPTH),
        }
    }

    /// The level of the body of a template that is called, whose block nests so deep, or of an expression that was read. None
    /// comes exactly where no further one may open.
    pub(crate) fn called(self, nesting: u32) -> Option<Level>
        ensures some { IfSome result (λ l. (l.room + 1 ≡ self.room) × (l.nesting ≡ nesting)) }
        ensures none { IfNone result (self.room ≡ 0) }
    {
        Some(Level {
            room: self.room.checked_sub(1)?,
            nesting,
        })
    }
}
