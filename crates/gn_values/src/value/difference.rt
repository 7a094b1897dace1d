// What stays of a list when the items of another one are taken away.

ghost use Rattle.std.specs.Prelude.{◌≡◌, ◌≢◌, ◌++◌, [], ◌∷◌, map, IsTrue, IfOk, IfErr, OnOk, true, false};
ghost use Rattle.std.specs.List.{list_all};
ghost use Rattle.gn_values.specs.Limits.{list_fits};
ghost use Rattle.gn_values.specs.Members.{HasStrings, HasIntegers};
ghost use Rattle.gn_values.specs.Operators.{is_among, without};
ghost use Rattle.gn_values.specs.View.{val_of};

use crate::error::ValueError;
use crate::value::{Items, Value};
use std::alloc::{AllocError, Global};
use std::collections::BTreeSet;

/// A list of at most so many items is compared item by item.
const FEW: usize = 8;

/// The strings and the integers among some values, to be looked up.
#[derive(Drop)]
struct Members<'a> {
    strings: BTreeSet<&'a [u8]>,
    integers: BTreeSet<i64>,
}

/// Whether a value equals one of these.
fn is_among(value: &Value, values: &[Value]) -> bool
    ensures { result ≡ is_among (val_of value.now) (map val_of values.now) }
{
    for other in values {
        if value.same(other) {
            return true;
        }
    }
    false
}

/// Whether each value equals one of the others.
fn are_among(values: &[Value], others: &[Value]) -> bool
    ensures { result
        ≡ list_all (λ w. is_among w (map val_of others.now)) (map val_of values.now) }
{
    for value in values {
        if !is_among(value, others) {
            return false;
        }
    }
    true
}

/// The strings among these values.
fn strings_of(alloc: Global, values: &[Value]) -> Result<BTreeSet<&[u8]>, AllocError>
    ensures { IfOk result (λ set. HasStrings set (map val_of values.now)) }
{
    let mut strings = BTreeSet::new(alloc);
    for value in values {
        let Value::Str(text) = value else {
            continue;
        };
        strings.insert(text.as_bytes())?;
    }
    Ok(strings)
}

/// The integers among these values.
fn integers_of(alloc: Global, values: &[Value]) -> Result<BTreeSet<i64>, AllocError>
    ensures { IfOk result (λ set. HasIntegers set (map val_of values.now)) }
{
    let mut integers = BTreeSet::new(alloc);
    for value in values {
        let Value::Int(n) = value else {
            continue;
        };
        integers.insert(*n)?;
    }
    Ok(integers)
}

/// The strings and the integers among these values.
fn members_of(alloc: Global, values: &[Value]) -> Result<Members<'_>, AllocError>
    ensures strings { IfOk result (λ m. HasStrings m.strings (map val_of values.now)) }
    ensures integers { IfOk result (λ m. HasIntegers m.integers (map val_of values.now)) }
{
    Ok(Members {
        strings: strings_of(alloc, values)?,
        integers: integers_of(alloc, values)?,
    })
}

/// Whether a value equals one of these, whose strings and integers are given. A string or an
/// integer is looked up, and any other value is compared with each.
fn is_member(value: &Value, values: &[Value], members: &Members<'_>) -> bool
    requires strings { HasStrings members.now.strings (map val_of values.now) }
    requires integers { HasIntegers members.now.integers (map val_of values.now) }
    ensures { result ≡ is_among (val_of value.now) (map val_of values.now) }
{
    match value {
        Value::Str(text) => members.strings.contains(text.as_bytes()),
        Value::Int(n) => members.integers.contains(n),
        _ => is_among(value, values),
    }
}

/// Whether each value equals one of the others, each of which is looked up.
fn are_members(alloc: Global, values: &[Value], others: &[Value]) -> Result<bool, AllocError>
    ensures { IfOk result (λ all. all
        ≡ list_all (λ w. is_among w (map val_of others.now)) (map val_of values.now)) }
{
    let members = members_of(alloc, others)?;
    for value in values {
        if !is_member(value, others, &members) {
            return Ok(false);
        }
    }
    Ok(true)
}

/// Whether each value equals one of the others. Few values are compared with each of the others,
/// and more are looked up among them.
fn are_all_among(alloc: Global, values: &[Value], others: &[Value]) -> Result<bool, AllocError>
    ensures { IfOk result (λ all. all
        ≡ list_all (λ w. is_among w (map val_of others.now)) (map val_of values.now)) }
{
    if values.len() <= FEW {
        Ok(are_among(values, others))
    } else {
        are_members(alloc, values, others)
    }
}

impl Items {
    /// A new list of the items that equal no item of the other list. `NotInList` comes exactly
    /// where an item of the other list equals no item of this one.
    ///
    /// Strings and integers are looked up: for n items here and m in the other list that takes
    /// at most about (n + m) log (n + m) comparisons, and memory for n + m references. Each
    /// boolean, list and scope is compared with the items of the other list one by one, up to the
    /// first that it equals.
    pub fn without(&self, alloc: Global, taken: &Items) -> Result<Items, ValueError>
        ensures ok { IfOk result (λ kept. kept ≡ without self.now taken.now) }
        ensures found { IfOk result (λ _. list_all (λ w. is_among w self.now) taken.now ≡ true) }
        ensures not_in_list { result ≡ Err ValueError.NotInList
            → list_all (λ w. is_among w self.now) taken.now ≡ false }
        ensures only { IfErr result (λ e. e ≢ ValueError.Memory → e ≡ ValueError.NotInList) }
    {
        let others = taken.as_slice();
        if !are_all_among(alloc, others, self.as_slice())? {
            return Err(ValueError::NotInList);
        }
        Ok(self.unlike(alloc, others)?)
    }

    // A new list of the items that equal none of these values.
    fn unlike(&self, alloc: Global, others: &[Value]) -> Result<Items, AllocError>
        ensures { IfOk result (λ kept. kept ≡ without self.now (map val_of others.now)) }
    {
        let members = members_of(alloc, others)?;
        self.no_members(alloc, others, &members)
    }

    // The same, where the strings and the integers of the values are given.
    fn no_members(
        &self,
        alloc: Global,
        others: &[Value],
        members: &Members<'_>,
    ) -> Result<Items, AllocError>
        requires strings { HasStrings members.now.strings (map val_of others.now) }
        requires integers { HasIntegers members.now.integers (map val_of others.now) }
        ensures { IfOk result (λ kept. kept ≡ without self.now (map val_of others.now)) }
    {
        let mut kept = Items::new(alloc);
        for item in self.items.as_slice() {
            if is_member(item, others, members) {
                continue;
            }
            kept.push_copy(alloc, item)?;
        }
        Ok(kept)
    }

    // Puts a copy of a value at the end of a list that has room for it.
    fn push_copy(&mut self, alloc: Global, value: &Value) -> Result<(), AllocError>
        requires { IsTrue (list_fits (self.old ++ val_of value.now ∷ [])) }
        ensures { OnOk result (self.new ≡ self.old ++ val_of value.now ∷ []) }
    {
        let copy = value.copy(alloc)?;
        self.push_within(copy)
    }
}
