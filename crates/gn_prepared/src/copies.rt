// Copies of some of what is filed, over which build files are executed while more is filed.

ghost use Rattle.std.specs.Prelude.{◌≡◌, Some, option_map};
ghost use Rattle.gn_core.specs.Keys.{Filed as Answers};
ghost use Rattle.gn_core.specs.Layered.{IsPart};
ghost use Rattle.gn_book.specs.Keys.{key_of};
ghost use Rattle.gn_book.specs.Logs.{state_of};
ghost use Rattle.gn_answers.specs.Answers.{meaning_of};
ghost use Rattle.gn_prepared.specs.Copies.{answers_of, copied, HasNoUnits};

use gn_answers::{Answer, Filed, Part};
use gn_book::{Book, Event, KeyId};
use gn_items::Key;
use indexmap::IndexMap;
use std::alloc::{AllocError, Global};

/// Copies of some of the answers that are filed: those of imports, and what there is at paths. A copy copies nothing of an answer.
/// Contents of build files are left out: the work on one is given that of its own file.
#[derive(Drop)]
pub struct Copies {
    answers: IndexMap<Key, Answer>,
    // How many events of the book were looked at.
    seen: usize,
}

// Whether the answer of a key is copied.
fn is_copied(key: &Key) -> bool {
    match key {
        Key::Read(path) => !path.as_bytes().ends_with(b"/BUILD.gn"),
        Key::Import(..) => true,
        Key::Setup(_) => false,
        Key::Load(..) => false,
        Key::Resolve(_) => false,
    }
}

impl Copies {
    /// No copies. It takes no memory.
    #[tactic(auto, unfolding(crate::specs::Copies::answers_of))]
    pub fn new(alloc: Global) -> Copies
        ensures { (filed : Answers) → IsPart (answers_of result) filed }
    {
        Copies {
            answers: IndexMap::new(alloc),
            seen: 0,
        }
    }

    // What was copied for a key.
    #[tactic(auto, using(crate::proofs::Copying::found_copy))]
    fn copy_of(&self, key: &Key) -> Option<&Filed>
        ensures { option_map (λ filed. meaning_of filed.now) result ≡ copied self.now.answers (key_of key.now) }
    {
        match self.answers.get(key) {
            Some(answer) => Some(answer.filed()),
            None => None,
        }
    }

    // The answer of a key is copied.
    fn keep(&mut self, alloc: Global, key: &Key, answer: &Answer) -> Result<(), AllocError>
        ensures { (filed : Answers) → filed (key_of key.now) ≡ Some (meaning_of answer.now) → IsPart (answers_of self.old) filed → IsPart (answers_of self.new) filed }
    {
        let copy = answer.copy()?;
        let key = key.copy(alloc)?;
        self.answers.insert(key, copy)?;
        Ok(())
    }

    // The answer of the key of a number is copied, if it has one and is of a kind that is copied.
    fn put(&mut self, alloc: Global, book: &Book<Answer>, number: KeyId) -> Result<(), AllocError>
        ensures { IsPart (answers_of self.old) (state_of book.now).filed → IsPart (answers_of self.new) (state_of book.now).filed }
    {
        if number >= book.len() {
            return Ok(());
        }
        let key = book.key(number);
        if !is_copied(key) {
            return Ok(());
        }
        match book.answer(number) {
            Some(answer) => self.keep(alloc, key, answer),
            None => Ok(()),
        }
    }

    // The answer that an event files is copied.
    fn follow(
        &mut self,
        alloc: Global,
        book: &Book<Answer>,
        event: &Event,
    ) -> Result<(), AllocError>
        ensures { IsPart (answers_of self.old) (state_of book.now).filed → IsPart (answers_of self.new) (state_of book.now).filed }
    {
        match event {
            Event::File(_, number) => self.put(alloc, book, *number),
            _ => Ok(()),
        }
    }

    /// Copies what was filed in a book since the last call, which is to be of the same book. The work is linear in the events since.
    /// Err comes for want of memory alone: what was copied until then stays, and the next call goes on behind it.
    #[tactic(auto, unfolding(crate::specs::Copies::answers_of))]
    pub fn extend(&mut self, alloc: Global, book: &Book<Answer>) -> Result<(), AllocError>
        ensures { IsPart (answers_of self.old) (state_of book.now).filed → IsPart (answers_of self.new) (state_of book.now).filed }
    {
        let events = book.events();
        let mut next = self.seen;
        'events: while next < events.len() {
            self.follow(alloc, book, &events[next])?;
            next += 1;
            self.seen = next;
        }
        Ok(())
    }
}

impl Part for Copies {
    ghost answers = { answers_of };

    #[tactic(auto, unfolding(crate::specs::Copies::answers_of))]
    fn find(&self, key: &Key) -> Option<&Filed> {
        match key {
            Key::Read(_) => self.copy_of(key),
            Key::Import(..) => self.copy_of(key),
            Key::Setup(_) => None,
            Key::Load(..) => None,
            Key::Resolve(_) => None,
        }
    }
}

/// Copies have no answers of units. It does nothing.
#[tactic(auto, unfolding(crate::specs::Copies::answers_of))]
pub fn copies_have_no_units()
    ensures { (copies : Copies) → HasNoUnits (answers_of copies) }
{}
