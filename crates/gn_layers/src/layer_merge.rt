// What merging an import does to one layer.

ghost use Rattle.std.specs.Prelude.{◌≡◌, ◌↔◌, IsTrue, IfOk, OnOk, OnErr, option_map};
ghost use Rattle.gn_values.specs.Tables.{with_names};
ghost use Rattle.gn_layers.specs.View.{variables_in, value_pairs};
ghost use Rattle.std.specs.Ordering.{nat_cmp};
ghost use Rattle.std.specs.Cmp.Lexicographic.{slice_cmp};
ghost use Rattle.gn_layers.specs.Undoing.{all_put_back};
ghost use Rattle.gn_environment.specs.Giving.{variables_given, all_given};
ghost use Rattle.gn_environment.specs.Imports.{is_public, public_part, other_defaults, first_name, with_imported_calls};

use crate::copied::Copied;
use crate::key::NameKey;
use crate::layer::Layer;
use crate::layer_gives::give_each;
use crate::undo::{put_all_back, set_name};
use crate::variable::Variable;
use gn_definitions::{DefinitionName, KeptScope};
use gn_paths::Text;
use gn_values::{Bindings, Value};
use std::alloc::{AllocError, Global};
use std::collections::BTreeMap;

// What names of a layer had before they were set.
#[derive(Drop)]
struct Undo {
    variables: Vec<(NameKey, Option<Variable>)>,
    templates: Vec<(Text, Option<DefinitionName>)>,
    defaults: Vec<(Text, Option<Bindings>)>,
}

impl Layer {
    /// Gives these names their values, in order, which count as read, and sets the templates and the defaults of a scope.
    /// After want of memory the layer is as before, and the values are dropped.
    pub fn merge(
        &mut self,
        alloc: Global,
        values: Vec<(NameKey, Value)>,
        scope: &KeptScope,
    ) -> Result<(), AllocError>
        ensures ok { OnOk result
            (self.new ≡ with_imported_calls scope.now (all_given (value_pairs values.items) self.old)) }
        ensures err { OnErr result (self.new ≡ self.old) }
    {
        let mut undo = Undo {
            variables: Vec::new(alloc),
            templates: Vec::new(alloc),
            defaults: Vec::new(alloc),
        };
        let (variables, templates, defaults) = (
            &mut self.variables,
            &mut self.templates,
            &mut self.defaults,
        );
        match set_all(
            alloc, variables, templates, defaults, &mut undo, values, scope,
        ) {
            Ok(()) => Ok(()),
            Err(error) => {
                put_all_back(&mut self.variables, undo.variables);
                put_all_back(&mut self.templates, undo.templates);
                put_all_back(&mut self.defaults, undo.defaults);
                Err(error)
            }
        }
    }

    /// The first of these kinds of calls, in their order, for which the layer has other defaults. It takes no memory.
    pub fn other_defaults<'a>(&self, defaults: &'a BTreeMap<Text, Bindings>) -> Option<&'a Text>
        ensures { option_map (λ n. n.now) result
            ≡ first_name (other_defaults self.now) defaults.now.entries }
    {
        for (kind, values) in defaults {
            if self.has_other_defaults(kind, values) {
                return Some(kind);
            }
        }
        None
    }

    // Whether the layer has other defaults for the kind of call.
    fn has_other_defaults(&self, kind: &Text, values: &Bindings) -> bool
        ensures { result ≡ other_defaults self.now (kind.now, values.now) }
    {
        match self.defaults.get(kind) {
            Some(own) => !same_bindings(own, values),
            None => false,
        }
    }
}

// Gives names their values and sets the templates and the defaults of a scope in these maps, and puts what they had
// before into `undo`.
fn set_all(
    alloc: Global,
    variables: &mut BTreeMap<NameKey, Variable>,
    templates: &mut BTreeMap<Text, DefinitionName>,
    defaults: &mut BTreeMap<Text, Bindings>,
    undo: &mut Undo,
    values: Vec<(NameKey, Value)>,
    scope: &KeptScope,
) -> Result<(), AllocError>
    ensures variables { OnOk result (variables_in variables.new.entries
        ≡ variables_given (value_pairs values.items) (variables_in variables.old.entries)) }
    ensures templates { OnOk result
        (templates.new.entries ≡ with_names scope.now.templates templates.old.entries) }
    ensures defaults { OnOk result
        (defaults.new.entries ≡ with_names scope.now.defaults defaults.old.entries) }
    ensures variables_back { all_put_back (slice_cmp nat_cmp) undo.new.variables.items variables.new.entries
        ≡ all_put_back (slice_cmp nat_cmp) undo.old.variables.items variables.old.entries }
    ensures templates_back { all_put_back (slice_cmp nat_cmp) undo.new.templates.items templates.new.entries
        ≡ all_put_back (slice_cmp nat_cmp) undo.old.templates.items templates.old.entries }
    ensures defaults_back { all_put_back (slice_cmp nat_cmp) undo.new.defaults.items defaults.new.entries
        ≡ all_put_back (slice_cmp nat_cmp) undo.old.defaults.items defaults.old.entries }
{
    give_each(alloc, variables, &mut undo.variables, values)?;
    set_table(alloc, templates, &mut undo.templates, scope.templates())?;
    set_table(alloc, defaults, &mut undo.defaults, scope.defaults())
}

// Sets copies of the names of a table, and puts what they had before behind `before`.
fn set_table<T: Copied>(
    alloc: Global,
    table: &mut BTreeMap<Text, T>,
    before: &mut Vec<(Text, Option<T>)>,
    given: &BTreeMap<Text, T>,
) -> Result<(), AllocError>
    ensures ok { OnOk result (table.new.entries ≡ with_names given.now.entries table.old.entries) }
    ensures back { all_put_back (slice_cmp nat_cmp) before.new.items table.new.entries
        ≡ all_put_back (slice_cmp nat_cmp) before.old.items table.old.entries }
{
    for (name, item) in given {
        set_name(alloc, table, before, name, item.copied(alloc)?)?;
    }
    Ok(())
}

// Whether the names and their values are equal. It takes no memory.
fn same_bindings(left: &Bindings, right: &Bindings) -> bool
    ensures { IsTrue result ↔ (left.now ≡ right.now) }
{
    let lefts = left.as_slice();
    let rights = right.as_slice();
    if lefts.len() != rights.len() {
        return false;
    }
    for i in 0..lefts.len() {
        if !lefts[i].same(&rights[i]) {
            return false;
        }
    }
    true
}

/// Takes away the names that begin with `_`.
pub(crate) fn keep_public<V: Drop>(map: &mut BTreeMap<Text, V>)
    ensures { map.new.entries ≡ public_part map.old.entries }
{
    map.retain(|name, _value| is_public(name));
}

// Whether an import leaves what has this name: it doesn't begin with `_`.
fn is_public(name: &Text) -> bool
    ensures { result ≡ is_public name.now }
{
    match name.as_bytes().first() {
        Some(byte) => *byte != b'_',
        None => true,
    }
}
