// Names with values, in the order of the names.

ghost use Rattle.std.specs.Prelude.{◌≡◌, ◌↔◌, ◌++◌, [], ◌∷◌, IsTrue, IfOk, OnOk, OnErr, length, map, option_map};
ghost use Rattle.gn_values.specs.Operators.{value_at, with_entry};
ghost use Rattle.gn_text.specs.Marks.{AllMarked};
ghost use Rattle.gn_values.specs.Val.{IsSortedByName, names_of};
ghost use Rattle.gn_values.specs.View.{val_of, entry_of};

use crate::shared::copies_of;
use crate::value::search::{find_entry, set_entry};
use crate::value::{Entry, Value};
use gn_paths::Text;
use gn_text::Marks;
use std::alloc::{AllocError, Global};
use std::marker::Model;

/// Names with values, in the order of the bytes of the names, which differ. Other than a scope's
/// entries they aren't a value, so no limit on depth holds for them. Contracts see a list of pairs
/// of a name and a value.
#[derive(Drop)]
pub struct Bindings {
    entries: Vec<Entry>,
    // of the names, by which most names that aren't there are told
    marks: Marks,
}

/// The values that build arguments are given. A name that is given again gets the new value, so the
/// last of a name counts.
pub type Overrides = Bindings;

impl Model for Bindings {
    ghost use Rattle.std.specs.Prelude.{List, ℕ};
    ghost use Rattle.std.specs.Coded.{coded_list, coded×, coded_ℕ};
    ghost use Rattle.gn_values.specs.Val.{Val};
    ghost use Rattle.gn_values.specs.ValCode.{val_code};

    ghost Value = { List (List ℕ × Val) };

    ghost coded = { coded_list (coded× (coded_list coded_ℕ) val_code) };

    ghost use Rattle.gn_values.specs.View.{entries_in, KeepsNames};

    ghost view = { λ a. entries_in a.entries.items };

    ghost invariant = { λ a. KeepsNames (entries_in a.entries.items) a.marks };
}

// The marks of the names of entries.
fn marks_of(entries: &[Entry]) -> Marks
    ensures { AllMarked result (names_of (map entry_of entries.now)) }
{
    let mut marks = Marks::new();
    for entry in entries {
        marks = marks.with(entry.name.as_bytes());
    }
    marks
}

impl Bindings {
    /// No names. It takes no memory.
    pub fn new(alloc: Global) -> Bindings
        ensures { result ≡ [] }
    {
        Bindings {
            entries: Vec::new(alloc),
            marks: Marks::new(),
        }
    }

    /// Entries that stand in the order of their names, each of which is looked at. It takes no memory.
    pub(crate) fn from_vec(entries: Vec<Entry>) -> Bindings
        requires { IsSortedByName (map entry_of entries.items) }
        ensures { result ≡ map entry_of entries.items }
    {
        let marks = marks_of(entries.as_slice());
        Bindings { entries, marks }
    }

    /// The names and their values, in the order of the names. It takes no memory.
    pub fn into_vec(self) -> Vec<Entry>
        ensures value { map entry_of result.items ≡ self }
        ensures sorted { IsSortedByName (map entry_of result.items) }
    {
        self.entries
    }

    /// The names and their values, in the order of the names.
    pub fn as_slice(&self) -> &[Entry]
        ensures value { map entry_of result.now ≡ self.now }
        ensures sorted { IsSortedByName self.now }
    {
        self.entries.as_slice()
    }

    /// The value of a name. None comes exactly where the name isn't there. It looks at
    /// logarithmically many entries, and at none where no name there has the mark of the name.
    pub fn get(&self, name: &[u8]) -> Option<&Value>
        ensures { option_map (λ v. val_of v.now) result ≡ value_at name.now self.now }
    {
        if !self.marks.has(name) {
            return None;
        }
        match find_entry(self.entries.as_slice(), name) {
            Ok(at) => Some(&self.entries[at].value),
            Err(_) => None,
        }
    }

    /// Gives a name a value, in place of one that it had. After want of memory nothing is changed,
    /// and the value is dropped. A new name costs a move of the entries behind it.
    pub fn set(&mut self, name: Text, value: Value) -> Result<(), AllocError>
        ensures ok { OnOk result (self.new ≡ with_entry self.old name (val_of value)) }
        ensures err { OnErr result (self.new ≡ self.old) }
    {
        let marks = self.marks.with(name.as_bytes());
        let _added = set_entry(&mut self.entries, name, value)?;
        self.marks = marks;
        Ok(())
    }

    /// Puts a name that is behind all others at the end, without a search. After want of memory
    /// nothing is changed, and the value is dropped.
    pub fn push_last(&mut self, name: Text, value: Value) -> Result<(), AllocError>
        requires { IsSortedByName (self.old ++ (name, val_of value) ∷ []) }
        ensures ok { OnOk result (self.new ≡ self.old ++ (name, val_of value) ∷ []) }
        ensures err { OnErr result (self.new ≡ self.old) }
    {
        let marks = self.marks.with(name.as_bytes());
        self.entries.push(Entry { name, value })?;
        self.marks = marks;
        Ok(())
    }

    /// New bindings equal to these.
    pub fn copy(&self, alloc: Global) -> Result<Bindings, AllocError>
        ensures { IfOk result (λ r. r ≡ self.now) }
    {
        let entries = copies_of(alloc, self.entries.as_slice())?;
        Ok(Bindings {
            entries,
            marks: self.marks,
        })
    }
}
