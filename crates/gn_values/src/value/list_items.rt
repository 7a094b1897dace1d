// What is done with the items of a list.

ghost use Rattle.std.specs.Prelude.{◌≡◌, ◌≢◌, ◌↔◌, ◌≤◌, ◌++◌, [], ◌∷◌, IsTrue, IfOk, OnOk, OnErr, IfErr, false, length, map, option_map, slice_get, MatchResult};
ghost use Rattle.gn_values.specs.Val.{vals_of, list_of, list_depth};
ghost use Rattle.gn_values.specs.Limits.{max_depth, max_items, list_fits, IsList};
ghost use Rattle.gn_values.specs.Operators.{item_at};
ghost use Rattle.gn_values.specs.View.{val_of};

use crate::error::ValueError;
use crate::limits::{MAX_DEPTH, MAX_ITEMS};
use crate::shared::Shared;
use crate::value::{Items, Value};
use std::alloc::{AllocError, Global};

impl Items {
    /// The empty list. It takes no memory.
    pub fn new(alloc: Global) -> Items
        ensures { result ≡ [] }
    {
        Items {
            items: Shared::new(alloc),
            depth: 1,
        }
    }

    /// The number of items, at most `MAX_ITEMS`.
    pub fn len(&self) -> usize
        ensures value { result ≡ length self.now }
        ensures limit { result ≤ max_items }
    {
        self.items.as_slice().len()
    }

    /// Whether the list has no items.
    pub fn is_empty(&self) -> bool
        ensures { IsTrue result ↔ (self.now ≡ []) }
    {
        self.items.as_slice().is_empty()
    }

    /// How deep the list nests, from 1 to `MAX_DEPTH`, without a walk.
    pub fn depth(&self) -> usize
        ensures value { result ≡ list_depth self.now }
        ensures limit { result ≤ max_depth }
    {
        self.depth as usize
    }

    /// The items, in order.
    pub fn as_slice(&self) -> &[Value]
        ensures value { map val_of result.now ≡ self.now }
        ensures limits { IsList self.now }
    {
        self.items.as_slice()
    }

    /// The items, in order, in a vector: they are moved out of the list where nobody else has them, and else copied.
    pub fn into_vec(self) -> Result<Vec<Value>, AllocError>
        ensures value { IfOk result (λ r. map val_of r.items ≡ self) }
        ensures items { IfOk result (λ r. list_of (vals_of self) ≡ map val_of r.items) }
    {
        let Items { items, .. } = self;
        items.into_vec()
    }

    /// The item of this number, counted from 0. None comes exactly where there is no such item.
    pub fn get(&self, index: usize) -> Option<&Value>
        ensures { option_map (λ v. val_of v.now) result ≡ slice_get self.now index }
    {
        self.items.as_slice().get(index)
    }

    /// The item of this number, counted from 0, or `BadIndex`.
    pub(crate) fn at(&self, index: i64) -> Result<&Value, ValueError>
        ensures { MatchResult result
            (λ v. item_at self.now index ≡ Ok (val_of v.now))
            (λ e. item_at self.now index ≡ Err e) }
    {
        if index < 0 {
            return Err(ValueError::BadIndex);
        }
        self.get(index as usize).ok_or(ValueError::BadIndex)
    }

    /// Puts a value at the end. `TooLong` comes exactly where the list would be above a limit.
    /// After a refusal the list is as before, and the value is dropped.
    pub fn push(&mut self, value: Value) -> Result<(), ValueError>
        ensures ok { OnOk result (self.new ≡ self.old ++ val_of value ∷ []) }
        ensures fits { OnOk result (IsTrue (list_fits self.new)) }
        ensures too_long { result ≡ Err ValueError.TooLong
            → list_fits (self.old ++ val_of value ∷ []) ≡ false }
        ensures only { IfErr result (λ e. e ≢ ValueError.Memory → e ≡ ValueError.TooLong) }
        ensures err { OnErr result (self.new ≡ self.old) }
    {
        if !self.has_room_for(&value) {
            return Err(ValueError::TooLong);
        }
        self.push_within(value)?;
        Ok(())
    }

    /// Whether the list may have this value at its end.
    fn has_room_for(&self, value: &Value) -> bool
        ensures { result ≡ list_fits (self.now ++ val_of value.now ∷ []) }
    {
        self.items.as_slice().len() < MAX_ITEMS && value.depth() < MAX_DEPTH
    }

    /// Puts a value at the end of a list that has room for it.
    pub(crate) fn push_within(&mut self, value: Value) -> Result<(), AllocError>
        requires { IsTrue (list_fits (self.old ++ val_of value ∷ [])) }
        ensures ok { OnOk result (self.new ≡ self.old ++ val_of value ∷ []) }
        ensures err { OnErr result (self.new ≡ self.old) }
    {
        let depth = self.depth.max(value.depth() as u8 + 1);
        self.items.push(value)?;
        self.depth = depth;
        Ok(())
    }

    /// Puts the other list's items at the end, of which the list gets copies, or all of them where it
    /// has none. `TooLong` comes exactly where the list would be above a limit. After a refusal the
    /// list is as before. It doesn't walk over its own items where nobody else has them.
    pub fn append(&mut self, other: &Items) -> Result<(), ValueError>
        ensures ok { OnOk result (self.new ≡ self.old ++ other.now) }
        ensures fits { OnOk result (IsTrue (list_fits self.new)) }
        ensures too_long { result ≡ Err ValueError.TooLong
            → list_fits (self.old ++ other.now) ≡ false }
        ensures only { IfErr result (λ e. e ≢ ValueError.Memory → e ≡ ValueError.TooLong) }
        ensures err { OnErr result (self.new ≡ self.old) }
    {
        self.append_moved(other.share()?)
    }

    /// Puts the other list's items at the end. `TooLong` comes exactly where the list would be above
    /// a limit. After a refusal the list is as before, and the other list is dropped. The items of
    /// the other list are moved where nobody else has them, and else copied; those that the list has
    /// aren't walked over where nobody else has them, and else copied too. An empty list gets the
    /// other's items as they are.
    pub fn append_moved(&mut self, other: Items) -> Result<(), ValueError>
        ensures ok { OnOk result (self.new ≡ self.old ++ other) }
        ensures fits { OnOk result (IsTrue (list_fits self.new)) }
        ensures too_long { result ≡ Err ValueError.TooLong
            → list_fits (self.old ++ other) ≡ false }
        ensures only { IfErr result (λ e. e ≢ ValueError.Memory → e ≡ ValueError.TooLong) }
        ensures err { OnErr result (self.new ≡ self.old) }
    {
        if other.len() > MAX_ITEMS - self.len() {
            return Err(ValueError::TooLong);
        }
        let Items { items, depth } = other;
        self.items.append(items)?;
        self.depth = self.depth.max(depth);
        Ok(())
    }
}
