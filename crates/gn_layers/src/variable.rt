// What a name stands for, and how an assignment changes it.

ghost use Rattle.std.specs.Prelude.{◌≡◌, OnOk, OnErr, IfErr, Some, true, false, option_map};
ghost use Rattle.gn_values.specs.Assigning.{combined, element_assigned};
ghost use Rattle.gn_values.specs.View.{val_of};
ghost use Rattle.gn_environment.specs.Assigning.{replaces, unread_after};
ghost use Rattle.gn_environment.specs.Chains.{shown};
ghost use Rattle.gn_environment.specs.Declaring.{declared_at};
ghost use Rattle.gn_environment.specs.Layers.{given_variable};
ghost use Rattle.gn_layers.specs.Errors.{IsRefusalOf, IsElementRefusalOf};
ghost use Rattle.gn_layers.specs.View.{variable_state};

use crate::error::{AssignError, ElementAssignError};
use gn_tree::{AssignOp, Position};
use gn_values::Value;
use std::alloc::Global;

/// What a name stands for in a layer.
#[derive(Drop)]
pub struct Variable {
    /// The value of the name.
    pub value: Value,
    /// Where the operator of the last assignment stands, while nothing has read the name since its first.
    pub unread: Option<Position>,
    /// Where the name was declared, if it is that of an argument that a block declares: the operator of its first assignment,
    /// or the call that gave it. No read finds its value then.
    pub declared: Option<Position>,
}

// Whether a nonempty list would take the place of a nonempty list, or a nonempty scope that of a nonempty scope.
fn replaces(old: &Value, new: &Value) -> bool
    ensures { result ≡ replaces (val_of old.now) (val_of new.now) }
{
    match (old, new) {
        (Value::List(old), Value::List(new)) => !old.is_empty() && !new.is_empty(),
        (Value::Scope(old), Value::Scope(new)) => !old.is_empty() && !new.is_empty(),
        _ => false,
    }
}

impl Variable {
    /// The variable of a name that is given a value without an assignment, and counts as read. It takes no memory.
    pub fn given(value: Value) -> Variable
        ensures value { result.value ≡ value }
        ensures given { variable_state result ≡ given_variable (val_of value) }
    {
        Variable {
            value,
            unread: None,
            declared: None,
        }
    }

    /// What a read finds: the value, unless the name is declared. It takes no memory.
    pub fn shown(&self) -> Option<&Value>
        ensures { option_map (λ v. val_of v.now) result ≡ shown (variable_state self.now) }
    {
        match self.declared {
            None => Some(&self.value),
            Some(_) => None,
        }
    }

    /// Declares the name at a position, unless it was declared before. It takes no memory.
    pub(crate) fn declare(&mut self, position: Position)
        ensures { variable_state self.new ≡ declared_at position (variable_state self.old) }
    {
        if self.declared.is_none() {
            self.declared = Some(position);
        }
    }

    // Notes an assignment: a name that is unread stays so, with the new place.
    fn note(&mut self, position: Position)
        ensures value { self.new.value ≡ self.old.value }
        ensures noted { (self.new.unread ≡ unread_after (Some (variable_state self.old)) position) × (self.new.declared ≡ self.old.declared) }
    {
        if self.unread.is_some() {
            self.unread = Some(position);
        }
    }

    /// `=`. `Overwrite` comes exactly where a nonempty list or scope would take the place of one of its kind. After a
    /// refusal nothing is changed, and the value is dropped. It takes no memory.
    pub(crate) fn overwrite(&mut self, value: Value, position: Position) -> Result<(), AssignError>
        ensures ok { OnOk result (replaces (val_of self.old.value) (val_of value) ≡ false) }
        ensures value { OnOk result (self.new.value ≡ value) }
        ensures noted { OnOk result
            ((self.new.unread ≡ unread_after (Some (variable_state self.old)) position)
            × (self.new.declared ≡ self.old.declared)) }
        ensures only { IfErr result (λ e. e ≡ AssignError.Overwrite) }
        ensures refused { OnErr result (replaces (val_of self.old.value) (val_of value) ≡ true) }
        ensures err { OnErr result (self.new ≡ self.old) }
    {
        if replaces(&self.value, &value) {
            return Err(AssignError::Overwrite);
        }
        self.value = value;
        self.note(position);
        Ok(())
    }

    /// `+=` and `-=`. After a refusal nothing is changed, and the right value is dropped.
    pub(crate) fn combine(
        &mut self,
        alloc: Global,
        op: AssignOp,
        value: Value,
        position: Position,
    ) -> Result<(), AssignError>
        ensures value { OnOk result
            (combined op (val_of self.old.value) (val_of value) ≡ Ok (val_of self.new.value)) }
        ensures noted { OnOk result
            ((self.new.unread ≡ unread_after (Some (variable_state self.old)) position)
            × (self.new.declared ≡ self.old.declared)) }
        ensures refused { IfErr result
            (λ e. IsRefusalOf e (combined op (val_of self.old.value) (val_of value))) }
        ensures err { OnErr result (variable_state self.new ≡ variable_state self.old) }
    {
        match self.value.combine(alloc, op, value) {
            Ok(()) => {
                self.note(position);
                Ok(())
            }
            Err(error) => Err(AssignError::of_operator(error)),
        }
    }

    /// An assignment to an element of the value. After a refusal nothing is changed, and the right value is dropped.
    pub(crate) fn assign_element(
        &mut self,
        alloc: Global,
        at: &Value,
        op: AssignOp,
        value: Value,
        position: Position,
    ) -> Result<(), ElementAssignError>
        ensures value { OnOk result
            (element_assigned (val_of self.old.value) (val_of at.now) op (val_of value)
            ≡ Ok (val_of self.new.value)) }
        ensures noted { OnOk result
            ((self.new.unread ≡ unread_after (Some (variable_state self.old)) position)
            × (self.new.declared ≡ self.old.declared)) }
        ensures refused { IfErr result
            (λ e. IsElementRefusalOf e
            (element_assigned (val_of self.old.value) (val_of at.now) op (val_of value))) }
        ensures err { OnErr result (variable_state self.new ≡ variable_state self.old) }
    {
        match self.value.assign_element(alloc, at, op, value) {
            Ok(()) => {
                self.note(position);
                Ok(())
            }
            Err(error) => Err(ElementAssignError::of_element(error)),
        }
    }
}
