// An item of a list or an entry of a scope changes in place.

ghost use Rattle.std.specs.Prelude.{◌≡◌, ◌≢◌, ◌<◌, ◌≤◌, ◌+◌, ◌⊎◌, IfOk, IfErr, OnOk, OnErr, None, length, map, max, pos};
ghost use Rattle.gn_values.specs.Val.{vlist, vscope, vals_of, binds_of, list_depth, scope_depth};
ghost use Rattle.gn_values.specs.Limits.{max_depth};
ghost use Rattle.gn_values.specs.Operators.{item_at, value_at};
ghost use Rattle.gn_values.specs.Assigning.{item_assigned, entry_assigned};
ghost use Rattle.gn_values.specs.View.{val_of, entry_of, vals_in, entries_in, KeepsItems, KeepsEntries};
ghost use Rattle.gn_values.specs.Search.{IsEntryAt};

use crate::error::{ElementError, ValueError};
use crate::value::search::{depth_of_entries, find_entry};
use crate::value::{Entries, Entry, Items, Value};
use gn_paths::Text;
use gn_tree::AssignOp;
use std::alloc::Global;
use std::sync::Arc;

/// How deep a list of these items nests.
fn depth_of_items(items: &[Value]) -> u8
    ensures { result ≡ list_depth (map val_of items.now) }
{
    let mut deepest = 0;
    for item in items {
        deepest = deepest.max(item.depth() as u8);
    }
    deepest + 1
}

/// How deep a list of these items nests, one of which was `before` deep in a list that nested
/// `depth` deep, and is `after` deep now. It walks over the items only where the deepest one got
/// less deep.
fn depth_of_changed_items(items: &[Value], depth: u8, before: usize, after: usize) -> u8
    requires before { before < max_depth }
    requires after { after < max_depth }
    requires known { (before ≤ after) ⊎ (before + 1 < depth)
        → list_depth (map val_of items.now) ≡ max depth (after + 1) }
    ensures { result ≡ list_depth (map val_of items.now) }
{
    if before <= after || before + 1 < depth as usize {
        depth.max(after as u8 + 1)
    } else {
        depth_of_items(items)
    }
}

/// How deep a scope of these entries nests, as `depth_of_changed_items` says it of a list.
fn depth_of_changed_entries(entries: &[Entry], depth: u8, before: usize, after: usize) -> u8
    requires before { before < max_depth }
    requires after { after < max_depth }
    requires known { (before ≤ after) ⊎ (before + 1 < depth)
        → scope_depth (map entry_of entries.now) ≡ max depth (after + 1) }
    ensures { result ≡ scope_depth (map entry_of entries.now) }
{
    if before <= after || before + 1 < depth as usize {
        depth.max(after as u8 + 1)
    } else {
        depth_of_entries(entries)
    }
}

/// Assigns to the item of this number among those of a list that nests `depth` deep, in place, and
/// answers how deep the list nests then.
fn combine_among(
    alloc: Global,
    items: &mut Vec<Value>,
    depth: u8,
    index: usize,
    op: AssignOp,
    value: Value,
) -> Result<u8, ElementError>
    requires kept { KeepsItems (vals_in items.old.items) depth }
    requires within { index < length (vals_in items.old.items) }
    ensures ok { OnOk result
        (item_assigned (vals_in items.old.items) (pos index) op (val_of value)
        (item_at (vals_in items.old.items) (pos index))
        ≡ Ok (vlist (vals_of (vals_in items.new.items)))) }
    ensures kept { IfOk result (λ d. KeepsItems (vals_in items.new.items) d) }
    ensures refused { IfErr result
        (λ e. e ≢ ElementError.Memory
        → item_assigned (vals_in items.old.items) (pos index) op (val_of value)
        (item_at (vals_in items.old.items) (pos index))
        ≡ Err e) }
    ensures err { OnErr result (vals_in items.new.items ≡ vals_in items.old.items) }
{
    let before = items[index].depth();
    match items[index].combine_element(alloc, op, value) {
        Ok(()) => {
            let after = items[index].depth();
            Ok(depth_of_changed_items(items.as_slice(), depth, before, after))
        }
        Err(error) => Err(error),
    }
}

/// The same of the entry of a name, which stands there among those of a scope.
fn combine_among_entries(
    alloc: Global,
    entries: &mut Vec<Entry>,
    depth: u8,
    name: &Text,
    at: usize,
    op: AssignOp,
    value: Value,
) -> Result<u8, ElementError>
    requires kept { KeepsEntries (entries_in entries.old.items) depth }
    requires there { IsEntryAt name.now (entries_in entries.old.items) at }
    ensures ok { OnOk result
        (entry_assigned (entries_in entries.old.items) name.now op (val_of value)
        (value_at name.now (entries_in entries.old.items))
        ≡ Ok (vscope (binds_of (entries_in entries.new.items)))) }
    ensures kept { IfOk result (λ d. KeepsEntries (entries_in entries.new.items) d) }
    ensures refused { IfErr result
        (λ e. e ≢ ElementError.Memory
        → entry_assigned (entries_in entries.old.items) name.now op (val_of value)
        (value_at name.now (entries_in entries.old.items))
        ≡ Err e) }
    ensures err { OnErr result (entries_in entries.new.items ≡ entries_in entries.old.items) }
{
    let before = entries[at].value.depth();
    match entries[at].value.combine_element(alloc, op, value) {
        Ok(()) => {
            let after = entries[at].value.depth();
            Ok(depth_of_changed_entries(entries.as_slice(), depth, before, after))
        }
        Err(error) => Err(error),
    }
}

impl Items {
    /// `list[at] op= value`, in place where nobody else has the items.
    pub(crate) fn assign_item(
        &mut self,
        alloc: Global,
        at: i64,
        op: AssignOp,
        value: Value,
    ) -> Result<(), ElementError>
        ensures ok { OnOk result
            (item_assigned self.old at op (val_of value) (item_at self.old at)
            ≡ Ok (vlist (vals_of self.new))) }
        ensures refused { IfErr result
            (λ e. e ≢ ElementError.Memory
            → item_assigned self.old at op (val_of value) (item_at self.old at) ≡ Err e) }
        ensures err { OnErr result (self.new ≡ self.old) }
    {
        if at < 0 || at as usize >= self.len() {
            return Err(ElementError::Subscript(ValueError::BadIndex));
        }
        self.combine_item(alloc, at as usize, op, value)
    }

    /// Assigns to the item of this number, in place where nobody else has the items.
    fn combine_item(
        &mut self,
        alloc: Global,
        index: usize,
        op: AssignOp,
        value: Value,
    ) -> Result<(), ElementError>
        requires { index < length self.old }
        ensures ok { OnOk result
            (item_assigned self.old (pos index) op (val_of value) (item_at self.old (pos index))
            ≡ Ok (vlist (vals_of self.new))) }
        ensures refused { IfErr result
            (λ e. e ≢ ElementError.Memory
            → item_assigned self.old (pos index) op (val_of value) (item_at self.old (pos index))
            ≡ Err e) }
        ensures err { OnErr result (self.new ≡ self.old) }
    {
        if let Some(shared) = &mut self.items.owned {
            if let Some(items) = Arc::get_mut(shared) {
                self.depth = combine_among(alloc, items, self.depth, index, op, value)?;
                return Ok(());
            }
        }
        let mut copies = self.items.copies()?;
        let depth = combine_among(alloc, &mut copies, self.depth, index, op, value)?;
        self.items.replace(copies)?;
        self.depth = depth;
        Ok(())
    }
}

impl Entries {
    /// `scope[name] op= value`, in place where nobody else has the entries.
    pub(crate) fn assign_entry(
        &mut self,
        alloc: Global,
        name: &Text,
        op: AssignOp,
        value: Value,
    ) -> Result<(), ElementError>
        ensures ok { OnOk result
            (entry_assigned self.old name.now op (val_of value) (value_at name.now self.old)
            ≡ Ok (vscope (binds_of self.new))) }
        ensures refused { IfErr result
            (λ e. e ≢ ElementError.Memory
            → entry_assigned self.old name.now op (val_of value) (value_at name.now self.old)
            ≡ Err e) }
        ensures err { OnErr result (self.new ≡ self.old) }
    {
        match find_entry(self.entries.as_slice(), name.as_bytes()) {
            Ok(at) => self.combine_entry(alloc, name, at, op, value),
            Err(_) => self.assign_absent(alloc, name, op, value),
        }
    }

    /// Assigns to the entry of this name, which stands there, in place where nobody else has the
    /// entries.
    fn combine_entry(
        &mut self,
        alloc: Global,
        name: &Text,
        at: usize,
        op: AssignOp,
        value: Value,
    ) -> Result<(), ElementError>
        requires { IsEntryAt name.now self.old at }
        ensures ok { OnOk result
            (entry_assigned self.old name.now op (val_of value) (value_at name.now self.old)
            ≡ Ok (vscope (binds_of self.new))) }
        ensures refused { IfErr result
            (λ e. e ≢ ElementError.Memory
            → entry_assigned self.old name.now op (val_of value) (value_at name.now self.old)
            ≡ Err e) }
        ensures err { OnErr result (self.new ≡ self.old) }
    {
        if let Some(shared) = &mut self.entries.owned {
            if let Some(entries) = Arc::get_mut(shared) {
                self.depth = combine_among_entries(
                    alloc, entries, self.depth, name, at, op, value,
                )?;
                return Ok(());
            }
        }
        let mut copies = self.entries.copies()?;
        let depth = combine_among_entries(alloc, &mut copies, self.depth, name, at, op, value)?;
        self.entries.replace(copies)?;
        self.depth = depth;
        Ok(())
    }

    /// `scope[name] op= value` where the scope has no entry of this name.
    fn assign_absent(
        &mut self,
        alloc: Global,
        name: &Text,
        op: AssignOp,
        value: Value,
    ) -> Result<(), ElementError>
        ensures ok { OnOk result
            (entry_assigned self.old name.now op (val_of value) None
            ≡ Ok (vscope (binds_of self.new))) }
        ensures refused { IfErr result
            (λ e. e ≢ ElementError.Memory
            → entry_assigned self.old name.now op (val_of value) None ≡ Err e) }
        ensures err { OnErr result (self.new ≡ self.old) }
    {
        if op != AssignOp::Set {
            return Err(ElementError::Subscript(ValueError::Undefined));
        }
        match self.set(name.copy(alloc)?, value) {
            Ok(()) => Ok(()),
            Err(error) => Err(ElementError::of_operator(error)),
        }
    }
}
