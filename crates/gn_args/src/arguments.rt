// Which value a build argument takes, and which names that were given have no effect.

ghost use Rattle.std.specs.Prelude.{◌≡◌, ◌++◌, IfOk, OnOk, map, option_map};
ghost use Rattle.std.specs.List.{filter};
ghost use Rattle.gn_values.specs.View.{val_of, entry_of};
ghost use Rattle.gn_args.specs.Arguments.{override_of, applied, is_unused, unused_names};

use crate::built_in::is_built_in;
use gn_layers::NameSet;
use gn_paths::{Text, Texts};
use gn_values::{Entry, Overrides, Value};
use std::alloc::{AllocError, Global};

// The value of a name in the last of the lists that has it.
fn last_override<'a>(lists: &'a [Overrides], name: &[u8]) -> Option<&'a Value>
    ensures { option_map (λ v. val_of v.now) result ≡ override_of name.now lists.now }
{
    let mut found = None;
    for list in lists {
        found = list.get(name).or(found);
    }
    found
}

/// The value that a declared name takes: that of the last list of overrides that has the name, else its default.
pub fn apply(
    alloc: Global,
    lists: &[Overrides],
    name: &[u8],
    default: Value,
) -> Result<Value, AllocError>
    ensures { IfOk result (λ v. val_of v ≡ applied lists.now name.now (val_of default)) }
{
    match last_override(lists, name) {
        Some(value) => value.copy(alloc),
        None => Ok(default),
    }
}

// Puts the names of these that have no effect at the end of others.
fn push_unused(
    alloc: Global,
    given: &[Entry],
    declared: &NameSet<'_>,
    names: &mut Texts,
) -> Result<(), AllocError>
    ensures { OnOk result (names.new ≡ names.old ++ unused_names (map entry_of given.now) declared.now) }
{
    for entry in given {
        let name = entry.name.as_bytes();
        if !declared.has(name) && !is_built_in(name) {
            names.push(Text::from_bytes(alloc, name)?)?;
        }
    }
    Ok(())
}

/// The names that were given as build arguments to no effect, in the order of their bytes: those that nothing declares,
/// but for the built-in variables' names. For each GN prints a warning.
pub fn unused(alloc: Global, given: &Overrides, declared: &Texts) -> Result<Texts, AllocError>
    ensures { IfOk result (λ names. names ≡ unused_names given.now declared.now) }
{
    let mut names = Texts::new(alloc);
    let known = NameSet::new(alloc, declared)?;
    push_unused(alloc, given.as_slice(), &known, &mut names)?;
    Ok(names)
}
