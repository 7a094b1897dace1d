// Names of the innermost scope that are given values all at once, or not at all.

ghost use Rattle.std.specs.Prelude.{◌≡◌, ◌++◌, [], ◌∷◌, IfOk, OnOk, OnErr, map, option_map};
ghost use Rattle.std.specs.List.{AllByRecursion};
ghost use Rattle.gn_text.specs.Names.{AllDifferent};
ghost use Rattle.gn_values.specs.View.{entry_of};
ghost use Rattle.gn_environment.specs.Giving.{all_given};
ghost use Rattle.gn_environment.specs.Imports.{other_value, first_name, with_imported};
ghost use Rattle.gn_layers.specs.Named.{texted, IsNumber, IsLonger};
ghost use Rattle.gn_environment.specs.Templates.{in_block};
ghost use Rattle.gn_layers.specs.View.{value_pairs};

use crate::copies::copy_entries;
use crate::named_scopes::NamedScopes;
use gn_definitions::KeptScope;
use gn_layers::NameKey;
use gn_paths::Text;
use gn_text::Names;
use gn_values::{Bindings, Entry, Value};
use std::alloc::{AllocError, Global};

impl NamedScopes {
    /// Gives these names of the innermost layer their values, in order; they count as read. After want of memory the
    /// layers are as before, and the entries are dropped.
    pub fn give_all(&mut self, alloc: Global, entries: Vec<Entry>) -> Result<(), AllocError>
        ensures ok { OnOk result (self.new ≡ in_block (all_given (map entry_of entries.items)) self.old) }
        ensures err { OnErr result (self.new ≡ self.old) }
    {
        let values = numbered(&mut self.names, alloc, entries)?;
        self.scopes.give_all(alloc, values)
    }

    /// Sets all names of a scope in the innermost layer; its variables count as read. After want of memory the layers are
    /// as before.
    pub fn merge(&mut self, alloc: Global, scope: &KeptScope) -> Result<(), AllocError>
        ensures ok { OnOk result
            (self.new ≡ record self.old { inner = with_imported scope.now self.old.inner }) }
        ensures err { OnErr result (self.new ≡ self.old) }
    {
        let entries = copy_entries(alloc, scope.variables().as_slice())?;
        let values = numbered(&mut self.names, alloc, entries)?;
        self.scopes.merge(alloc, values, scope)
    }

    /// The first of these names, in their order, that the innermost layer has with another value. It takes no memory.
    pub fn other_value<'a>(&self, values: &'a Bindings) -> Option<&'a Text>
        ensures { option_map (λ n. n.now) result ≡ first_name (other_value self.now.inner) values.now }
    {
        for entry in values.as_slice() {
            if self.has_other_value(entry) {
                return Some(&entry.name);
            }
        }
        None
    }

    // Whether the innermost layer has the name with another value.
    fn has_other_value(&self, entry: &Entry) -> bool
        ensures { result ≡ other_value self.now.inner (entry_of entry.now) }
    {
        match self.value_here(&entry.name) {
            Some(value) => !value.same(&entry.value),
            None => false,
        }
    }
}

// The values of entries by the numbers of their names, which the table has from then on.
fn numbered(
    names: &mut Names,
    alloc: Global,
    entries: Vec<Entry>,
) -> Result<Vec<(NameKey, Value)>, AllocError>
    requires { AllDifferent names.old }
    ensures values { IfOk result
        (λ values. texted names.new (value_pairs values.items) ≡ map entry_of entries.items) }
    ensures numbers { IfOk result
        (λ values. AllByRecursion (λ e. IsNumber names.new e.0) (value_pairs values.items)) }
    ensures longer { IsLonger names.old names.new }
    ensures different { AllDifferent names.new }
{
    let mut values = Vec::new(alloc);
    for entry in entries {
        push_numbered(names, &mut values, entry)?;
    }
    Ok(values)
}

// Puts the value of an entry behind others, by the number of its name, which the table has from then on.
fn push_numbered(
    names: &mut Names,
    values: &mut Vec<(NameKey, Value)>,
    entry: Entry,
) -> Result<(), AllocError>
    requires different { AllDifferent names.old }
    requires numbers { AllByRecursion (λ e. IsNumber names.old e.0) (value_pairs values.old.items) }
    ensures values { OnOk result
        (texted names.new (value_pairs values.new.items)
        ≡ texted names.old (value_pairs values.old.items) ++ entry_of entry ∷ []) }
    ensures numbers { OnOk result
        (AllByRecursion (λ e. IsNumber names.new e.0) (value_pairs values.new.items)) }
    ensures longer { IsLonger names.old names.new }
    ensures different { AllDifferent names.new }
{
    values.reserve(1)?;
    let number = names.intern(entry.name.as_bytes())?;
    values.push_reserved((NameKey::new(number), entry.value));
    Ok(())
}
