// What layers leave and what is kept of them, by names.

ghost use Rattle.std.specs.Prelude.{◌≡◌, ℕ, Bool, List, [], IfOk, OnOk, filter, not, map, length};
ghost use Rattle.std.specs.Ordering.{nat_cmp};
ghost use Rattle.std.specs.Cmp.Lexicographic.{slice_cmp};
ghost use Rattle.std.specs.BTreeMap.{IsOrdered};
ghost use Rattle.gn_definitions.specs.Imported.{ScopeState};
ghost use Rattle.gn_values.specs.Tables.{with_name, with_names};
ghost use Rattle.gn_values.specs.Val.{Val, IsSortedByName};
ghost use Rattle.gn_values.specs.View.{val_of, entry_of};
ghost use Rattle.gn_environment.specs.Imports.{public_part};
ghost use Rattle.gn_layers.specs.Kept.{scope_over, scope_texted, public_scope};
ghost use Rattle.gn_environment.specs.Layers.{values_in};
ghost use Rattle.gn_layers.specs.Named.{texted};
ghost use Rattle.gn_layers.specs.View.{pair_value, value_pairs};

use crate::copied::Copied;
use crate::key::NameKey;
use crate::layer::Layer;
use crate::layer_merge::keep_public;
use crate::unread::numbered_name;
use crate::variable::Variable;
use gn_definitions::{DefinitionName, KeptScope};
use gn_paths::Text;
use gn_text::Names;
use gn_values::{Bindings, Entry, Value};
use std::alloc::{AllocError, Global};
use std::collections::BTreeMap;
use std::marker::Model;

/// Names with their values, templates and defaults, in the order of the names.
#[derive(Drop)]
pub struct Laid {
    variables: BTreeMap<Text, Value>,
    templates: BTreeMap<Text, DefinitionName>,
    defaults: BTreeMap<Text, Bindings>,
}

/// What hides names.
pub trait Hides {
    ghost hidden: { Self → List ℕ → Bool };

    /// Whether it hides a name. It takes no memory.
    fn hides(&self, name: &Text) -> bool
        ensures { result ≡ hidden self.now name.now };
}

impl Model for Laid {
    ghost use Rattle.gn_definitions.specs.Imported.{ScopeState};
    ghost use Rattle.gn_definitions.specs.ImportedCode.{scope_code};
    ghost use Rattle.gn_layers.specs.View.{value_pairs};

    ghost Value = { ScopeState };

    ghost coded = { scope_code };

    ghost view = { λ a. record { variables = value_pairs a.variables.entries; templates = a.templates.entries; defaults = a.defaults.entries } };
}

impl Laid {
    /// No names. It takes no memory.
    pub fn new(alloc: Global) -> Laid
        ensures { result ≡ record { variables = []; templates = []; defaults = [] } }
    {
        Laid {
            variables: BTreeMap::new(alloc),
            templates: BTreeMap::new(alloc),
            defaults: BTreeMap::new(alloc),
        }
    }

    /// How many names have values. They stand in the order of their bytes.
    pub fn len(&self) -> usize
        ensures len { result ≡ length self.now.variables }
        ensures ordered { IsSortedByName self.now.variables }
    {
        self.variables.len()
    }

    /// Copies of the names of a scope.
    pub fn of_kept(alloc: Global, scope: &KeptScope) -> Result<Laid, AllocError>
        ensures { IfOk result (λ laid. laid ≡ scope.now) }
    {
        let mut laid = Laid::new(alloc);
        lay_entries(&mut laid.variables, alloc, scope.variables().as_slice())?;
        lay_table(&mut laid.templates, alloc, scope.templates())?;
        lay_table(&mut laid.defaults, alloc, scope.defaults())?;
        Ok(laid)
    }

    /// Lays copies of the names of a layer over these; `names` are those that its numbers stand for. After want of
    /// memory some of them are.
    pub fn lay(&mut self, alloc: Global, names: &Names, upper: &Layer) -> Result<(), AllocError>
        ensures { OnOk result (self.new ≡ scope_over (scope_texted names.now upper.now) self.old) }
    {
        lay_variables(&mut self.variables, alloc, names, &upper.variables)?;
        lay_table(&mut self.templates, alloc, &upper.templates)?;
        lay_table(&mut self.defaults, alloc, &upper.defaults)
    }

    /// Takes away the values of the names that are hidden. It takes no memory.
    pub fn take_hidden<H: Hides>(&mut self, by: &H)
        ensures { self.new ≡ record self.old { variables = filter (λ (e : List ℕ × Val). not (H.hidden by.now e.0)) self.old.variables } }
    {
        self.variables.retain(|name, _value| !by.hides(name));
    }

    /// The scope that is kept of it. Nothing is copied.
    pub fn into_kept(self, alloc: Global) -> Result<KeptScope, AllocError>
        ensures { IfOk result (λ scope. scope ≡ self) }
    {
        let variables = bindings_of(alloc, self.variables)?;
        Ok(KeptScope::new(variables, self.templates, self.defaults))
    }

    /// What an import leaves of it: the names that don't begin with `_`. Nothing is copied.
    pub fn into_public(self, alloc: Global) -> Result<KeptScope, AllocError>
        ensures { IfOk result (λ scope. scope ≡ public_scope self) }
    {
        let mut laid = self;
        keep_public(&mut laid.variables);
        keep_public(&mut laid.templates);
        keep_public(&mut laid.defaults);
        laid.into_kept(alloc)
    }

    /// The names with their values. Nothing is copied.
    pub fn into_bindings(self, alloc: Global) -> Result<Bindings, AllocError>
        ensures { IfOk result (λ bindings. bindings ≡ self.variables) }
    {
        bindings_of(alloc, self.variables)
    }
}

impl Layer {
    /// What the layer has, by names; `names` are those that its numbers stand for. No value is copied.
    pub fn into_laid(self, alloc: Global, names: &Names) -> Result<Laid, AllocError>
        ensures { IfOk result (λ laid. laid
            ≡ record (scope_texted names.now self) { variables = with_names (texted names.now (values_in self)) [] }) }
    {
        Ok(Laid {
            variables: values_by_name(alloc, names, self.variables)?,
            templates: self.templates,
            defaults: self.defaults,
        })
    }

    /// Copies of the names with their values, by names; `names` are those that the layer's numbers stand for.
    pub fn copies_by_name(&self, alloc: Global, names: &Names) -> Result<Bindings, AllocError>
        ensures { IfOk result (λ bindings. bindings ≡ with_names (texted names.now (values_in self.now)) []) }
    {
        copies_by_name(alloc, names, &self.variables)
    }
}

// Copies of the names of variables with their values; `names` are those that their numbers stand for.
fn copies_by_name(
    alloc: Global,
    names: &Names,
    variables: &BTreeMap<NameKey, Variable>,
) -> Result<Bindings, AllocError>
    ensures { IfOk result (λ bindings. bindings
        ≡ with_names (texted names.now (map pair_value variables.now.entries)) []) }
{
    let mut copies = BTreeMap::new(alloc);
    lay_variables(&mut copies, alloc, names, variables)?;
    bindings_of(alloc, copies)
}

// The values of variables, which aren't copied, by names.
fn values_by_name(
    alloc: Global,
    names: &Names,
    variables: BTreeMap<NameKey, Variable>,
) -> Result<BTreeMap<Text, Value>, AllocError>
    ensures { IfOk result (λ values. value_pairs values.entries
        ≡ with_names (texted names.now (map pair_value variables.entries)) []) }
{
    let mut values = BTreeMap::new(alloc);
    for (number, variable) in variables {
        put_value(
            &mut values,
            alloc,
            numbered_name(names, &number),
            variable.value,
        )?;
    }
    Ok(values)
}

// Lays copies of a table over another one.
fn lay_table<T: Copied>(
    lower: &mut BTreeMap<Text, T>,
    alloc: Global,
    upper: &BTreeMap<Text, T>,
) -> Result<(), AllocError>
    ensures laid { OnOk result (lower.new.entries ≡ with_names upper.now.entries lower.old.entries) }
    ensures ordered { IsOrdered (slice_cmp nat_cmp) upper.now }
{
    for (name, item) in upper {
        lower.insert(name.copy(alloc)?, item.copied(alloc)?)?;
    }
    Ok(())
}

// Lays copies of the values of variables over others, by names.
fn lay_variables(
    lower: &mut BTreeMap<Text, Value>,
    alloc: Global,
    names: &Names,
    upper: &BTreeMap<NameKey, Variable>,
) -> Result<(), AllocError>
    ensures { OnOk result
        (value_pairs lower.new.entries
        ≡ with_names (texted names.now (map pair_value upper.now.entries)) (value_pairs lower.old.entries)) }
{
    for (number, variable) in upper {
        lay_value(lower, alloc, numbered_name(names, number), &variable.value)?;
    }
    Ok(())
}

// The same of entries.
fn lay_entries(
    lower: &mut BTreeMap<Text, Value>,
    alloc: Global,
    upper: &[Entry],
) -> Result<(), AllocError>
    ensures { OnOk result
        (value_pairs lower.new.entries
        ≡ with_names (map entry_of upper.now) (value_pairs lower.old.entries)) }
{
    for entry in upper {
        lay_value(lower, alloc, entry.name.as_bytes(), &entry.value)?;
    }
    Ok(())
}

fn lay_value(
    lower: &mut BTreeMap<Text, Value>,
    alloc: Global,
    name: &[u8],
    value: &Value,
) -> Result<(), AllocError>
    ensures { OnOk result
        (value_pairs lower.new.entries
        ≡ with_name name.now (val_of value.now) (value_pairs lower.old.entries)) }
{
    let value = value.copy(alloc)?;
    put_value(lower, alloc, name, value)
}

// Sets the value of a name.
fn put_value(
    values: &mut BTreeMap<Text, Value>,
    alloc: Global,
    name: &[u8],
    value: Value,
) -> Result<(), AllocError>
    ensures { OnOk result
        (value_pairs values.new.entries
        ≡ with_name name.now (val_of value) (value_pairs values.old.entries)) }
{
    values.insert(Text::from_bytes(alloc, name)?, value)?;
    Ok(())
}

// Names with their values, which aren't copied.
fn bindings_of(alloc: Global, values: BTreeMap<Text, Value>) -> Result<Bindings, AllocError>
    ensures { IfOk result (λ bindings. bindings ≡ value_pairs values.entries) }
{
    let mut bindings = Bindings::new(alloc);
    for (name, value) in values {
        bindings.push_last(name, value)?;
    }
    Ok(bindings)
}
