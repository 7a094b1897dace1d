// Marks of texts, by which a table tells most texts that it lacks without a look at those that it has.

ghost use Rattle.std.specs.Prelude.{◌≡◌, ◌↔◌, ℕ, List, IsTrue};
ghost use Rattle.gn_text.specs.Marks.{mark_of, IsMarked, AddsMark, KeepsMarked};

/// Which of 64 marks are there. The mark of a text is made of its length and its first byte. A table that adds the mark of
/// each text that it takes lacks each text whose mark isn't there.
#[derive(Clone, Copy)]
pub struct Marks {
    bits: u64,
}

// The mark of a text.
fn mark_of(text: &[u8]) -> usize
    ensures { result ≡ mark_of text.now }
{
    let first = match text.first() {
        Some(byte) => *byte,
        None => 0,
    };
    (5 * (text.len() % 64) + first as usize) % 64
}

impl Marks {
    /// No marks.
    pub fn new() -> Marks
        ensures { (text : List ℕ) → IsMarked result text → ⊥ }
    {
        Marks { bits: 0 }
    }

    /// Whether the mark of the text is there.
    pub fn has(self, text: &[u8]) -> bool
        ensures { IsTrue result ↔ IsMarked self text.now }
    {
        (self.bits >> mark_of(text)) & 1 == 1
    }

    /// These marks and that of the text.
    pub fn with(self, text: &[u8]) -> Marks
        ensures adds { AddsMark self text.now result }
        ensures itself { IsMarked result text.now }
        ensures keeps { KeepsMarked self result }
    {
        Marks {
            bits: self.bits | (1 << mark_of(text)),
        }
    }
}
