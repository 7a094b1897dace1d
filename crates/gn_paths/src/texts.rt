// A list of texts.

ghost use Rattle.std.specs.Prelude.{◌≡◌, ◌++◌, [], ◌∷◌, length, IfOk, OnOk, OnErr, IsTrue, ◌↔◌};

use crate::text::Text;
use std::alloc::{AllocError, Global};
use std::marker::Model;

/// A list of texts.
#[derive(Debug, Drop)]
pub struct Texts {
    list: Vec<Text>,
}

impl Model for Texts {
    ghost use Rattle.std.specs.Prelude.{List, ℕ};
    ghost use Rattle.std.specs.Coded.{coded_list, coded_ℕ};

    ghost Value = { List (List ℕ) };

    ghost coded = { coded_list (coded_list coded_ℕ) };

    ghost view = { λ t. t.list.items };
}

impl Texts {
    /// The empty list. It takes no memory.
    pub fn new(alloc: Global) -> Texts
        ensures { result ≡ [] }
    {
        Texts {
            list: Vec::new(alloc),
        }
    }

    /// The list of these texts, which takes no memory.
    pub fn from_vec(list: Vec<Text>) -> Texts
        ensures { result ≡ list.items }
    {
        Texts { list }
    }

    /// The texts of the list, in order.
    pub fn as_slice(&self) -> &[Text]
        ensures { result.now ≡ self.now }
    {
        self.list.as_slice()
    }

    /// Puts a text at the end. After want of memory the list is as before.
    pub fn push(&mut self, text: Text) -> Result<(), AllocError>
        ensures ok { OnOk result (self.new ≡ self.old ++ text ∷ []) }
        ensures err { OnErr result (self.new ≡ self.old) }
    {
        self.list.push(text)?;
        Ok(())
    }

    /// A new list equal to this one.
    pub fn copy(&self, alloc: Global) -> Result<Texts, AllocError>
        ensures { IfOk result (λ t. t ≡ self.now) }
    {
        let mut list = Vec::with_capacity(alloc, self.list.len())?;
        for text in self.list.as_slice() {
            list.push(text.copy(alloc)?)?;
        }
        Ok(Texts { list })
    }
}
