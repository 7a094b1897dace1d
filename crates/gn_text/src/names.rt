// Names and their numbers.

ghost use Rattle.std.specs.Prelude.{◌≡◌, [], IfOk, OnOk, OnErr, IfSome, IfNone, Some, false, slice_get};
ghost use Rattle.std.specs.List.{list_any};
ghost use Rattle.std.specs.Option.{option_copied};
ghost use Rattle.std.specs.Str.{bytes_eq};
ghost use Rattle.gn_text.specs.Names.{AllDifferent, number_of, with_name};

use crate::marks::Marks;
use indexmap::IndexSet;
use std::alloc::{AllocError, Global};
use std::marker::Model;

/// The number of a name in a `Names`.
pub type Name = usize;

/// A table of names, all different: each name has one number, and each number below their count one
/// name. The numbers count from 0 in the order in which the names came.
#[derive(Drop)]
pub struct Names {
    alloc: Global,
    texts: IndexSet<Vec<u8>>,
    marks: Marks,
}

impl Model for Names {
    ghost use Rattle.std.specs.Prelude.{List, ℕ};
    ghost use Rattle.std.specs.Coded.{coded_list, coded_ℕ};

    ghost Value = { List (List ℕ) };

    ghost coded = { coded_list (coded_list coded_ℕ) };

    ghost use Rattle.gn_text.specs.Kept.{texts_of, KeepsNames};

    ghost view = { texts_of };

    ghost invariant = { KeepsNames };
}

impl Names {
    /// The empty table. It takes no memory.
    pub fn new(alloc: Global) -> Names
        ensures { result ≡ [] }
    {
        Names {
            alloc,
            texts: IndexSet::new(alloc),
            marks: Marks::new(),
        }
    }

    /// The number of a name. A new name is put last. After want of memory the table is as before.
    pub fn intern(&mut self, name: &[u8]) -> Result<Name, AllocError>
        ensures found { IfOk result (λ n. slice_get self.new n ≡ Some name.now) }
        ensures number { IfOk result (λ n. n ≡ number_of self.old name.now) }
        ensures names { OnOk result (self.new ≡ with_name self.old name.now) }
        ensures different { AllDifferent self.new }
        ensures err { OnErr result (self.new ≡ self.old) }
    {
        if let Some(number) = self.number(name) {
            return Ok(number);
        }
        let text = Vec::from_slice(self.alloc, name)?;
        let (number, _) = self.texts.insert_full(text)?;
        self.marks = self.marks.with(name);
        Ok(number)
    }

    /// The number of a name that the table has. None comes exactly where it lacks the name. It takes no memory.
    pub fn number(&self, name: &[u8]) -> Option<Name>
        ensures found { IfSome result (λ n. slice_get self.now n ≡ Some name.now) }
        ensures number { IfSome result (λ n. n ≡ number_of self.now name.now) }
        ensures lacking { IfNone result (list_any (bytes_eq name.now) self.now ≡ false) }
        ensures different { AllDifferent self.now }
    {
        if !self.marks.has(name) {
            return None;
        }
        self.texts.get_index_of(name)
    }

    /// The name that has this number. None comes exactly where the number isn't below the count of
    /// names.
    pub fn name(&self, number: Name) -> Option<&[u8]>
        ensures value { option_copied result ≡ slice_get self.now number }
        ensures different { AllDifferent self.now }
    {
        match self.texts.get_index(number) {
            Some(text) => Some(text.as_slice()),
            None => None,
        }
    }
}
