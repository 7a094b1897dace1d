// A book to which nothing is added any longer.

ghost use Rattle.std.specs.Prelude.{◌≡◌, ◌<◌, Some, length, slice_get, option_map};
ghost use Rattle.gn_book.specs.Keys.{key_of};
ghost use Rattle.gn_book.specs.Logs.{state_of, key_at};

use crate::answer::Answer;
use crate::event::{Cause, Event, KeyId};
use crate::roster::Roster;
use gn_items::Key;
use std::marker::Model;

/// A book to which nothing is added any longer. Contracts see what they see of a book. What is reached isn't kept, since nobody
/// asks for it behind the end of loading.
#[derive(Drop)]
pub struct Closed<A: Answer> {
    pub(crate) seats: u32,
    pub(crate) left: u32,
    pub(crate) roster: Roster<A>,
    pub(crate) log: Vec<Event>,
    pub(crate) stop: Option<Cause>,
}

impl<A: Answer> Model for Closed<A> {
    ghost use Rattle.std.specs.Prelude.{vec_len, vec_capacity};
    ghost use Rattle.gn_book.specs.Logs.{Log};
    ghost use Rattle.gn_book.specs.Books.{log_in, IsWhole};
    ghost use Rattle.std.specs.Coded.{codes};
    ghost use Rattle.gn_items.specs.Codes.{effects_code};
    ghost use Rattle.gn_definitions.specs.ImportedCode.{import_code};

    ghost Value = { Log };

    ghost coded = { Prim.hlevel (codes, import_code, effects_code) };

    ghost view = { λ b. log_in b.seats b.roster.keys b.roster.standings b.log.items };

    ghost invariant = { λ b. IsWhole b.seats b.left b.stop b.roster.keys b.roster.standings b.log.items (vec_len b.log) (vec_capacity b.log) };
}

impl<A: Answer> Closed<A> {
    /// The key of a number. It takes no memory.
    pub fn key(&self, key: KeyId) -> &Key
        requires { key < length self.now.keys }
        ensures { slice_get self.now.keys key ≡ Some (key_of result.now) }
    {
        self.roster.key(key)
    }

    /// The answer of the key of a number. None comes exactly where none is filed. It takes no memory.
    pub fn answer(&self, key: KeyId) -> Option<&A>
        requires { key < length self.now.keys }
        ensures { option_map (λ answer. A.meaning answer.now) result ≡ (state_of self.now).filed (key_at self.now key) }
    {
        self.roster.answer(key)
    }

    /// The answer of a key. None comes exactly where none is filed, also where the key has no number. It takes no memory.
    pub fn find(&self, key: &Key) -> Option<&A>
        ensures { option_map (λ answer. A.meaning answer.now) result ≡ (state_of self.now).filed (key_of key.now) }
    {
        self.roster.find(key)
    }
}
