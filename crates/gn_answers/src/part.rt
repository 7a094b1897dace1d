// The answers that work outside the book may look at.

ghost use Rattle.std.specs.Prelude.{◌≡◌, option_map};
ghost use Rattle.gn_book.specs.Keys.{key_of};
ghost use Rattle.gn_core.specs.Keys.{Filed as Answers};
ghost use Rattle.gn_answers.specs.Answers.{meaning_of};

use crate::answer::{Answer, Filed, find};
use gn_book::Book;
use gn_items::Key;

/// Some part of the answers that are filed: the book itself, or copies of some of its answers.
pub trait Part: Drop {
    // the answers
    ghost answers: { Self → Answers };

    /// The answer of a key. None comes exactly where this part has none. It takes no memory.
    fn find(&self, key: &Key) -> Option<&Filed>
        ensures { option_map (λ filed. meaning_of filed.now) result ≡ answers self.now (key_of key.now) };
}

impl Part for Book<Answer> {
    ghost use Rattle.gn_book.specs.Logs.{state_of};

    ghost answers = { λ book. (state_of book).filed };

    fn find(&self, key: &Key) -> Option<&Filed> {
        find(self, key)
    }
}
