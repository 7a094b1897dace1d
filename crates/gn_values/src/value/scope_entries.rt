// Entries in the order of their names, and what is done with those of a scope.

ghost use Rattle.std.specs.Prelude.{◌≡◌, ◌≢◌, ◌↔◌, ◌≤◌, [], IsTrue, IfOk, OnOk, OnErr, IfErr, false, map, option_map, ok_or};
ghost use Rattle.gn_values.specs.Val.{vscope, vstr, binds_of, entries_of, scope_depth};
ghost use Rattle.gn_values.specs.Operators.{value_at, with_entry, element_of};
ghost use Rattle.gn_values.specs.Limits.{max_depth, scope_fits, IsScope};
ghost use Rattle.gn_values.specs.View.{val_of, entry_of};

use crate::bindings::Bindings;
use crate::error::ValueError;
use crate::limits::MAX_DEPTH;
use crate::shared::Shared;
use crate::value::search::{depth_of_entries, find_entry, set_shared};
use crate::value::{Entries, Entry, Value};
use gn_paths::Text;
use std::alloc::{AllocError, Global};

impl Entries {
    /// The empty scope. It takes no memory.
    pub fn new(alloc: Global) -> Entries
        ensures { result ≡ [] }
    {
        Entries {
            entries: Shared::new(alloc),
            depth: 1,
        }
    }

    /// A scope of these names and values, which aren't copied, in time linear in their number.
    /// `TooLong` comes exactly where it would nest too deep. After an error the values are dropped.
    pub fn from_bindings(bindings: Bindings) -> Result<Entries, ValueError>
        ensures ok { IfOk result (λ r. r ≡ bindings) }
        ensures fits { IfOk result (λ r. IsTrue (scope_fits bindings)) }
        ensures too_long { result ≡ Err ValueError.TooLong → scope_fits bindings ≡ false }
        ensures only { IfErr result (λ e. e ≢ ValueError.Memory → e ≡ ValueError.TooLong) }
    {
        let entries = bindings.into_vec();
        let depth = depth_of_entries(entries.as_slice());
        if depth as usize > MAX_DEPTH {
            return Err(ValueError::TooLong);
        }
        let entries = Shared::from_vec(entries)?;
        Ok(Entries { entries, depth })
    }

    /// Copies of the names and values of the scope.
    pub fn to_bindings(&self) -> Result<Bindings, AllocError>
        ensures { IfOk result (λ bindings. bindings ≡ self.now) }
    {
        Ok(Bindings::from_vec(self.entries.copies()?))
    }

    /// Whether the scope has no entries.
    pub fn is_empty(&self) -> bool
        ensures { IsTrue result ↔ (self.now ≡ []) }
    {
        self.entries.as_slice().is_empty()
    }

    /// How deep the scope nests, from 1 to `MAX_DEPTH`, without a walk.
    pub fn depth(&self) -> usize
        ensures value { result ≡ scope_depth self.now }
        ensures limit { result ≤ max_depth }
    {
        self.depth as usize
    }

    /// The entries, in the order of their names.
    pub fn as_slice(&self) -> &[Entry]
        ensures value { map entry_of result.now ≡ self.now }
        ensures limits { IsScope self.now }
    {
        self.entries.as_slice()
    }

    /// The value of a name. None comes exactly where no entry has the name. It looks at
    /// logarithmically many entries.
    pub fn get(&self, name: &[u8]) -> Option<&Value>
        ensures value { option_map (λ v. val_of v.now) result ≡ value_at name.now self.now }
        ensures entry { option_map (λ v. val_of v.now) result ≡ value_at name.now (entries_of (binds_of self.now)) }
        ensures element { ok_or (option_map (λ v. val_of v.now) result) ValueError.Undefined ≡ element_of (vscope (binds_of self.now)) (vstr name.now) }
    {
        let entries = self.as_slice();
        match find_entry(entries, name) {
            Ok(at) => Some(&entries[at].value),
            Err(_) => None,
        }
    }

    /// Sets the value of a name. `TooLong` comes exactly where the scope would nest too deep. After
    /// a refusal the scope is as before, and the value is dropped. A name that stands behind all
    /// others is added in logarithmic time, any other new name costs a move of those behind it, and
    /// a new value for a name that was there costs a look at each entry. Where others have the
    /// entries too, they are copied first.
    pub fn set(&mut self, name: Text, value: Value) -> Result<(), ValueError>
        ensures ok { OnOk result (self.new ≡ with_entry self.old name (val_of value)) }
        ensures fits { OnOk result (IsTrue (scope_fits self.new)) }
        ensures too_long { result ≡ Err ValueError.TooLong
            → scope_fits (with_entry self.old name (val_of value)) ≡ false }
        ensures only { IfErr result (λ e. e ≢ ValueError.Memory → e ≡ ValueError.TooLong) }
        ensures err { OnErr result (self.new ≡ self.old) }
    {
        if value.depth() >= MAX_DEPTH {
            return Err(ValueError::TooLong);
        }
        let depth = self.depth.max(value.depth() as u8 + 1);
        let added = set_shared(&mut self.entries, name, value)?;
        if added {
            self.depth = depth;
            return Ok(());
        }
        self.depth = depth_of_entries(self.entries.as_slice());
        Ok(())
    }
}
