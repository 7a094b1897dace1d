// A layer: the names that one scope has.

ghost use Rattle.std.specs.Prelude.{◌≡◌, ◌≢◌, [], IfOk, OnOk, OnErr, IfErr, IfSome, Some, None, true, false, is_some, option_map, map};
ghost use Rattle.gn_values.specs.View.{val_of};
ghost use Rattle.gn_values.specs.Limits.{scope_fits};
ghost use Rattle.gn_environment.specs.Layers.{empty_layer, declaring_layer, values_in};
ghost use Rattle.gn_environment.specs.Chains.{variable_in, set_in, read_in, shown_or};
ghost use Rattle.gn_environment.specs.Declaring.{declared_in, place_of};
ghost use Rattle.gn_environment.specs.Assigning.{declared_after, put, overwritten, changed_in, has_no_value, operator_refuses, base_has_no_value, element_refuses};
ghost use Rattle.gn_values.specs.Assigning.{combined, element_assigned};
ghost use Rattle.gn_layers.specs.Errors.{refusal_of, element_refusal_of};
ghost use Rattle.gn_environment.specs.Unread.{reported, first_unread_of, earlier, unread_at, stands_before};
ghost use Rattle.gn_layers.specs.View.{variable_state, variables_in};

use crate::error::{AssignError, ElementAssignError};
use crate::key::NameKey;
use crate::variable::Variable;
use gn_definitions::DefinitionName;
use gn_paths::Text;
use gn_tree::{AssignOp, Position};
use gn_values::{Bindings, Entries, Value, ValueError};
use std::alloc::{AllocError, Global};
use std::collections::BTreeMap;
use std::marker::Model;

/// The names that one scope has: its variables by the numbers of their names, its templates by the names of their
/// definitions, and the defaults of each kind of call. Where it is checked, its end reports a name that nothing reads.
#[derive(Drop)]
pub struct Layer {
    pub(crate) variables: BTreeMap<NameKey, Variable>,
    pub(crate) templates: BTreeMap<Text, DefinitionName>,
    pub(crate) defaults: BTreeMap<Text, Bindings>,
    pub(crate) checked: bool,
    pub(crate) declares: bool,
}

impl Model for Layer {
    ghost use Rattle.gn_environment.specs.Layers.{LayerState};
    ghost use Rattle.gn_environment.specs.Codes.{layer_code};

    ghost Value = { LayerState };

    ghost coded = { layer_code };

    ghost use Rattle.gn_layers.specs.View.{variables_in};

    ghost view = { λ a. record { variables = variables_in a.variables.entries; templates = a.templates.entries; defaults = a.defaults.entries; checked = a.checked; declares = a.declares } };
}

impl Layer {
    /// A layer without names. It takes no memory.
    pub fn new(alloc: Global, checked: bool) -> Layer
        ensures { result ≡ empty_layer checked }
    {
        Layer {
            variables: BTreeMap::new(alloc),
            templates: BTreeMap::new(alloc),
            defaults: BTreeMap::new(alloc),
            checked,
            declares: false,
        }
    }

    /// The layer of a block that declares arguments, without names: an assignment in it declares its name. It takes no
    /// memory.
    pub fn declaring(alloc: Global) -> Layer
        ensures { result ≡ declaring_layer }
    {
        let mut layer = Layer::new(alloc, false);
        layer.declares = true;
        layer
    }

    /// Whether the names that are assigned in the layer are declared.
    pub fn declares(&self) -> bool
        ensures { result ≡ self.now.declares }
    {
        self.declares
    }

    /// What a name stands for. None comes exactly where the layer has nothing at it.
    pub fn get(&self, name: &NameKey) -> Option<&Variable>
        ensures { option_map (λ v. variable_state v.now) result ≡ variable_in name.now self.now }
    {
        self.variables.get(name)
    }

    /// The value of a name, also of one that is declared. None comes exactly where the layer has nothing at it.
    pub fn value(&self, name: &NameKey) -> Option<&Value>
        ensures { option_map (λ v. val_of v.now) result
            ≡ option_map (λ v. v.value) (variable_in name.now self.now) }
    {
        let variable = self.get(name)?;
        Some(&variable.value)
    }

    /// What a read finds at a name. None comes exactly where the layer has nothing at it, or declares it.
    pub fn shown(&self, name: &NameKey) -> Option<&Value>
        ensures { option_map (λ v. val_of v.now) result
            ≡ shown_or (variable_in name.now self.now) None }
    {
        let variable = self.get(name)?;
        variable.shown()
    }

    /// Where a name was declared. None comes exactly where the layer has nothing at it, or doesn't declare it.
    pub fn declared(&self, name: &NameKey) -> Option<Position>
        ensures { result ≡ place_of (variable_in name.now self.now) }
    {
        let variable = self.get(name)?;
        variable.declared
    }

    /// A read of a name that the layer may have, and whether it has it. It takes no memory.
    pub fn mark(&mut self, name: &NameKey) -> bool
        ensures found { result ≡ is_some (variable_in name.now self.old) }
        ensures read { self.new ≡ read_in name.now self.old }
        ensures stays { result ≡ is_some (variable_in name.now self.new) }
    {
        let Some(variable) = self.variables.get_mut(name) else {
            return false;
        };
        variable.unread = None;
        true
    }

    /// Sets what a name stands for. After want of memory the layer is as before.
    pub fn put(&mut self, name: NameKey, variable: Variable) -> Result<(), AllocError>
        ensures ok { OnOk result
            (self.new ≡ set_in name (Some (variable_state variable)) self.old) }
        ensures err { OnErr result (self.new ≡ self.old) }
    {
        self.variables.insert(name, variable)?;
        Ok(())
    }

    /// Takes a name away, and answers what it stood for. It takes no memory.
    pub fn take(&mut self, name: &NameKey) -> Option<Variable>
        ensures value { option_map variable_state result ≡ variable_in name.now self.old }
        ensures new { self.new ≡ set_in name.now None self.old }
    {
        self.variables.remove(name)
    }

    /// Whether the layer has a name.
    pub fn has(&self, name: &NameKey) -> bool
        ensures { result ≡ is_some (variable_in name.now self.now) }
    {
        self.variables.contains_key(name)
    }

    // Where the first assignment of a name declares it, if it does.
    fn first_declared(&self, position: Position) -> Option<Position>
        ensures { result ≡ declared_after self.now.declares None position }
    {
        if self.declares { Some(position) } else { None }
    }

    /// Declares a name, if the layer has it and declares names, at the position of the call that gave it, unless it was
    /// declared before. It takes no memory.
    pub fn declare(&mut self, name: &NameKey, position: Position)
        ensures { self.new ≡ declared_in name.now position self.old }
    {
        if !self.declares {
            return;
        }
        let Some(variable) = self.variables.get_mut(name) else {
            return;
        };
        variable.declare(position);
    }

    /// The first assignment of a name that the layer has nothing at. After want of memory the layer is as before, and
    /// the value is dropped.
    pub fn put_assigned(
        &mut self,
        name: &NameKey,
        value: Value,
        position: Position,
    ) -> Result<(), AllocError>
        requires { variable_in name.now self.old ≡ None }
        ensures ok { OnOk result
            (self.new ≡ put name.now (val_of value) position self.old) }
        ensures err { OnErr result (self.new ≡ self.old) }
    {
        let variable = Variable {
            value,
            unread: Some(position),
            declared: self.first_declared(position),
        };
        self.put(NameKey::new(name.number()), variable)
    }

    /// `name = value`. After a refusal the layer is as before, and the value is dropped.
    pub fn overwrite(
        &mut self,
        name: &NameKey,
        value: Value,
        position: Position,
    ) -> Result<(), AssignError>
        ensures ok { OnOk result
            (overwritten name.now (val_of value) position self.old ≡ Ok self.new) }
        ensures refused { IfErr result
            (λ e. IfSome (refusal_of e)
            (λ r. overwritten name.now (val_of value) position self.old ≡ Err r)) }
        ensures err { OnErr result (self.new ≡ self.old) }
    {
        let Some(variable) = self.variables.get_mut(name) else {
            self.put_assigned(name, value, position)?;
            return Ok(());
        };
        variable.overwrite(value, position)
    }

    /// `name += value` or `name -= value` on a name that the layer has.
    pub fn combine(
        &mut self,
        alloc: Global,
        name: &NameKey,
        op: AssignOp,
        value: Value,
        position: Position,
    ) -> Result<(), AssignError>
        ensures ok { OnOk result
            (changed_in has_no_value operator_refuses (λ old. combined op old (val_of value))
            name.now position self.old ≡ Ok self.new) }
        ensures refused { IfErr result
            (λ e. IfSome (refusal_of e)
            (λ r. changed_in has_no_value operator_refuses (λ old. combined op old (val_of value))
            name.now position self.old ≡ Err r)) }
        ensures err { OnErr result (self.new ≡ self.old) }
    {
        let Some(variable) = self.variables.get_mut(name) else {
            return Err(AssignError::Undefined);
        };
        variable.combine(alloc, op, value, position)
    }

    /// `name[at] op= value` or `name.at op= value` on a name that the layer has.
    pub fn assign_element(
        &mut self,
        alloc: Global,
        name: &NameKey,
        at: &Value,
        op: AssignOp,
        value: Value,
        position: Position,
    ) -> Result<(), ElementAssignError>
        ensures ok { OnOk result
            (changed_in base_has_no_value element_refuses
            (λ old. element_assigned old (val_of at.now) op (val_of value)) name.now position self.old
            ≡ Ok self.new) }
        ensures refused { IfErr result
            (λ e. IfSome (element_refusal_of e)
            (λ r. changed_in base_has_no_value element_refuses
            (λ old. element_assigned old (val_of at.now) op (val_of value)) name.now position self.old
            ≡ Err r)) }
        ensures err { OnErr result (self.new ≡ self.old) }
    {
        let Some(variable) = self.variables.get_mut(name) else {
            return Err(ElementAssignError::Undefined);
        };
        variable.assign_element(alloc, at, op, value, position)
    }
}
