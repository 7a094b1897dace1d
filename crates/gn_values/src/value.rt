// Values of the language.

ghost use Rattle.std.specs.Prelude.{◌≡◌, ◌↔◌, ◌≤◌, IsTrue, IfOk};
ghost use Rattle.gn_values.specs.Val.{depth_of};
ghost use Rattle.gn_values.specs.Limits.{max_depth};
ghost use Rattle.gn_values.specs.View.{val_of, entry_of};

mod assigning;
mod difference;
mod elements;
mod list_items;
mod print;
mod scope_entries;
pub(crate) mod search;
mod sums;

use crate::shared::{Copied, Shared};
use gn_paths::Text;
pub use print::print_text;
use std::alloc::{AllocError, Global};
use std::marker::Model;

/// A value of the language. Two values are equal where type and content are equal.
///
/// No value nests deeper than `MAX_DEPTH`: `Items` and `Entries` keep that bound, so each walk over
/// a value, its drop included, is that deep at most.
#[cycle(value)]
#[derive(Drop)]
pub enum Value {
    /// A boolean.
    Bool(bool),
    /// An integer of 64 signed bits.
    Int(i64),
    /// A string of bytes.
    Str(Text),
    /// A list of values.
    List(Items),
    /// A list of names with values.
    Scope(Entries),
}

/// The items of a list. Contracts see them as a list of values.
#[cycle(value)]
#[derive(Drop)]
pub struct Items {
    items: Shared<Value>,
    depth: u8,
}

/// A name and its value.
#[cycle(value)]
#[derive(Drop)]
pub struct Entry {
    /// The name.
    pub name: Text,
    /// The value of the name.
    pub value: Value,
}

/// The entries of a scope, in the order of the bytes of their names, which differ. Contracts see
/// them as a list of pairs of a name and a value.
#[cycle(value)]
#[derive(Drop)]
pub struct Entries {
    entries: Shared<Entry>,
    depth: u8,
}

impl Model for Items {
    ghost use Rattle.std.specs.Prelude.{List};
    ghost use Rattle.std.specs.Coded.{coded_list};
    ghost use Rattle.gn_values.specs.Val.{Val, list_depth};
    ghost use Rattle.gn_values.specs.ValCode.{val_code};

    ghost Value = { List Val };

    ghost coded = { coded_list val_code };

    ghost use Rattle.gn_values.specs.Shared.{parts};
    ghost use Rattle.gn_values.specs.View.{vals_in, KeepsItems};

    ghost view = { λ a. vals_in (parts a.items) };

    ghost invariant = { λ a. KeepsItems (vals_in (parts a.items)) a.depth };

    ghost size = { list_depth };

    ghost use Rattle.std.proofs.Common.{arith};
    ghost use Rattle.gn_values.specs.Falls.{shared_items_fall};

    ghost size_decreases = { λ a h. omega (arith, shared_items_fall a.items) };
}

impl Model for Entries {
    ghost use Rattle.std.specs.Prelude.{List, ℕ};
    ghost use Rattle.std.specs.Coded.{coded_list, coded×, coded_ℕ};
    ghost use Rattle.gn_values.specs.Val.{Val, scope_depth};
    ghost use Rattle.gn_values.specs.ValCode.{val_code};

    ghost Value = { List (List ℕ × Val) };

    ghost coded = { coded_list (coded× (coded_list coded_ℕ) val_code) };

    ghost use Rattle.gn_values.specs.Shared.{parts};
    ghost use Rattle.gn_values.specs.View.{entries_in, KeepsEntries};

    ghost view = { λ a. entries_in (parts a.entries) };

    ghost invariant = { λ a. KeepsEntries (entries_in (parts a.entries)) a.depth };

    ghost size = { scope_depth };

    ghost use Rattle.std.proofs.Common.{arith};
    ghost use Rattle.gn_values.specs.Falls.{shared_entries_fall};

    ghost size_decreases = { λ a h. omega (arith, shared_entries_fall a.entries) };
}

impl Value {
    /// How deep the value nests, at most `MAX_DEPTH`, without a walk.
    pub fn depth(&self) -> usize
        ensures value { result ≡ depth_of (val_of self.now) }
        ensures limit { result ≤ max_depth }
    {
        match self {
            Value::List(items) => items.depth(),
            Value::Scope(entries) => entries.depth(),
            _ => 0,
        }
    }

    /// Whether type and content are equal. It takes no memory, and time linear in the lesser value.
    #[cycle(same)]
    pub fn same(&self, other: &Value) -> bool
        ensures { IsTrue result ↔ (val_of self.now ≡ val_of other.now) }
    {
        match (self, other) {
            (Value::Bool(a), Value::Bool(b)) => *a == *b,
            (Value::Int(a), Value::Int(b)) => *a == *b,
            (Value::Str(a), Value::Str(b)) => *a == *b,
            (Value::List(a), Value::List(b)) => a.same(b),
            (Value::Scope(a), Value::Scope(b)) => a.same(b),
            _ => false,
        }
    }

    /// A new value equal to this one. The bytes of a string are copied, and the items of a list and the entries of a scope
    /// are shared, which takes no longer for many than for one.
    pub fn copy(&self, alloc: Global) -> Result<Value, AllocError>
        ensures { IfOk result (λ r. val_of r ≡ val_of self.now) }
    {
        match self {
            Value::Bool(b) => Ok(Value::Bool(*b)),
            Value::Int(n) => Ok(Value::Int(*n)),
            Value::Str(t) => Ok(Value::Str(t.copy(alloc)?)),
            Value::List(vs) => Ok(Value::List(vs.share()?)),
            Value::Scope(bs) => Ok(Value::Scope(bs.share()?)),
        }
    }
}

impl Items {
    /// Whether the lists are equal. It takes no memory.
    #[cycle(same)]
    pub fn same(&self, other: &Items) -> bool
        ensures { IsTrue result ↔ (self.now ≡ other.now) }
    {
        let mine = self.as_slice();
        let others = other.as_slice();
        if mine.len() != others.len() {
            return false;
        }
        for i in 0..mine.len() {
            if !mine[i].same(&others[i]) {
                return false;
            }
        }
        true
    }

    /// The same list once more. Nothing of it is copied.
    pub fn share(&self) -> Result<Items, AllocError>
        ensures { IfOk result (λ r. r ≡ self.now) }
    {
        Ok(Items {
            items: self.items.share()?,
            depth: self.depth,
        })
    }
}

impl Entries {
    /// Whether the scopes are equal. It takes no memory.
    #[cycle(same)]
    pub fn same(&self, other: &Entries) -> bool
        ensures { IsTrue result ↔ (self.now ≡ other.now) }
    {
        let mine = self.as_slice();
        let others = other.as_slice();
        if mine.len() != others.len() {
            return false;
        }
        for i in 0..mine.len() {
            if !mine[i].same(&others[i]) {
                return false;
            }
        }
        true
    }

    /// The same scope once more. Nothing of it is copied.
    pub fn share(&self) -> Result<Entries, AllocError>
        ensures { IfOk result (λ r. r ≡ self.now) }
    {
        Ok(Entries {
            entries: self.entries.share()?,
            depth: self.depth,
        })
    }
}

impl Entry {
    /// Whether name and value are equal. It takes no memory.
    #[cycle(same)]
    pub fn same(&self, other: &Entry) -> bool
        ensures { IsTrue result ↔ (entry_of self.now ≡ entry_of other.now) }
    {
        self.name == other.name && self.value.same(&other.value)
    }

    /// A new entry equal to this one.
    pub fn copy(&self, alloc: Global) -> Result<Entry, AllocError>
        ensures { IfOk result (λ r. entry_of r ≡ entry_of self.now) }
    {
        let name = self.name.copy(alloc)?;
        let value = self.value.copy(alloc)?;
        Ok(Entry { name, value })
    }
}

impl Copied for Value {
    ghost use Rattle.gn_values.specs.Val.{Val};
    ghost use Rattle.gn_values.specs.View.{val_of};

    ghost Seen = { Val };

    ghost seen = { val_of };

    fn copied(&self, alloc: Global) -> Result<Value, AllocError> {
        self.copy(alloc)
    }
}

impl Copied for Entry {
    ghost use Rattle.std.specs.Prelude.{List, ℕ};
    ghost use Rattle.gn_values.specs.Val.{Val};
    ghost use Rattle.gn_values.specs.View.{entry_of};

    ghost Seen = { List ℕ × Val };

    ghost seen = { entry_of };

    fn copied(&self, alloc: Global) -> Result<Entry, AllocError> {
        self.copy(alloc)
    }
}
