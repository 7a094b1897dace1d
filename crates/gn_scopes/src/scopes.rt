// The layers of the scopes that are open.

ghost use types.Logic.{sem};
ghost use Rattle.std.specs.Prelude.{◌≡◌, ◌≢◌, ℕ, [], OnOk, OnErr, IfOk, IfErr, IfSome, IfNone, Some, None, option_map};
ghost use Rattle.gn_values.specs.View.{val_of};
ghost use Rattle.gn_environment.specs.Layers.{empty_layer};
ghost use Rattle.gn_environment.specs.Chains.{variable_in, set_in, variable_of, further_value, marked, IsFirstAt, chain_variable, chain_value, chain_read, chain_entered, chain_left};
ghost use Rattle.gn_environment.specs.Declaring.{chain_declaring};
ghost use Rattle.gn_values.specs.Assigning.{combined, element_assigned};
ghost use Rattle.gn_environment.specs.Assigning.{assigned, element_changed, changed_by, copied_inwards, put_and_read, has_no_value, operator_refuses, base_has_no_value, element_refuses};
ghost use Rattle.gn_tree.specs.declared.position.Position.{Position};
ghost use Rattle.gn_environment.specs.Unread.{reported};
ghost use Rattle.gn_layers.specs.Errors.{refusal_of, element_refusal_of};
ghost use Rattle.gn_scopes.specs.Reports.{scope_refusal_of, IsReport};
ghost use Rattle.gn_scopes.specs.Whereabouts.{IsFound};
ghost use Rattle.gn_layers.specs.Named.{key};
ghost use Rattle.gn_environment.specs.Lending.{Ends};
ghost use Rattle.gn_layers.specs.View.{variable_state};
ghost use Rattle.gn_scopes.specs.contracts.scopes.Scopes.{the_row};

use crate::error::ScopeError;
use gn_layers::{AssignError, ElementAssignError, Layer, NameKey, Variable};
use gn_text::Name;
use gn_tree::{AssignOp, Position};
use gn_values::Value;
use std::alloc::{AllocError, Global};
use std::collections::VecDeque;
use std::marker::Model;
use std::mem;

/// Where a name is found: in the innermost layer, in the outer one of this number, or in none.
#[derive(Clone, Copy)]
pub(crate) enum Whereabouts {
    Inner,
    Outer(usize),
    Nowhere,
}

/// The layers of the scopes that are open, the innermost first. Their variables stand by the numbers that a table of names
/// gives to names.
#[derive(Drop)]
pub struct Scopes {
    pub(crate) alloc: Global,
    pub(crate) inner: Layer,
    pub(crate) outer: VecDeque<Layer>,
}

impl Model for Scopes {
    ghost use Rattle.gn_environment.specs.Layers.{ChainState};
    ghost use Rattle.gn_environment.specs.Codes.{chain_code};

    ghost Value = { ChainState };

    ghost coded = { chain_code };

    ghost view = { λ a. record { inner = a.inner; outer = a.outer.items } };
}

impl Scopes {
    /// One layer, in which nothing is set. It takes no memory.
    pub fn new(alloc: Global, checked: bool) -> Scopes
        ensures { result ≡ record { inner = empty_layer checked; outer = [] } }
    {
        Scopes {
            alloc,
            inner: Layer::new(alloc, checked),
            outer: VecDeque::new(alloc),
        }
    }

    /// Opens a scope, in which nothing is set. After want of memory nothing is changed.
    pub fn enter(&mut self, checked: bool) -> Result<(), AllocError>
        ensures ok { OnOk result (self.new ≡ chain_entered checked self.old) }
        ensures err { OnErr result (self.new ≡ self.old) }
    {
        self.outer.reserve(1)?;
        let inner = mem::replace(&mut self.inner, Layer::new(self.alloc, checked));
        self.outer.push_front_reserved(inner);
        Ok(())
    }

    /// Opens the scope of a block that declares arguments, in which nothing is set. After want of memory nothing is changed.
    pub(crate) fn enter_declaring(&mut self) -> Result<(), AllocError>
        ensures ok { OnOk result (self.new ≡ chain_declaring self.old) }
        ensures err { OnErr result (self.new ≡ self.old) }
    {
        self.outer.reserve(1)?;
        let inner = mem::replace(&mut self.inner, Layer::declaring(self.alloc));
        self.outer.push_front_reserved(inner);
        Ok(())
    }

    /// Ends the innermost scope, and gives its layer; behind the outermost one an empty one begins, which isn't checked. It
    /// takes no memory.
    pub(crate) fn end(&mut self) -> Layer
        ensures layer { result ≡ self.old.inner }
        ensures new { self.new ≡ chain_left self.old }
    {
        match self.outer.pop_front() {
            Some(next) => mem::replace(&mut self.inner, next),
            None => mem::replace(&mut self.inner, Layer::new(self.alloc, false)),
        }
    }

    /// Ends the innermost scope, and gives its layer; behind the outermost one an empty one begins, which isn't checked.
    /// `NoEffect` comes exactly where the scope is checked and has a name that nothing read, and has the number of the one
    /// whose last assignment stands first, of two at one position the lesser one. The scope ends whatever the answer. It
    /// takes no memory.
    pub fn leave(&mut self) -> Result<Layer, ScopeError>
        ensures ok { IfOk result (λ layer. layer ≡ self.old.inner) }
        ensures read { OnOk result (reported self.old.inner ≡ None) }
        ensures unread { IfErr result (λ e. IsReport e (reported self.old.inner)) }
        ensures new { self.new ≡ chain_left self.old }
    {
        let layer = self.end();
        match layer.unread() {
            Some((name, position)) => Err(ScopeError::NoEffect(name, position)),
            None => Ok(layer),
        }
    }

    /// The innermost layer.
    pub(crate) fn innermost(&self) -> &Layer
        ensures { result.now ≡ self.now.inner }
    {
        &self.inner
    }

    /// Takes a name out of the innermost layer, and answers what it stood for there. It takes no memory.
    pub(crate) fn take(&mut self, name: &NameKey) -> Option<Variable>
        ensures value { option_map variable_state result ≡ variable_in name.now self.old.inner }
        ensures new { self.new ≡ record self.old { inner = set_in name.now None self.old.inner } }
    {
        self.inner.take(name)
    }

    /// Sets what a name of the innermost layer stands for. After want of memory nothing is changed.
    pub(crate) fn put(&mut self, name: NameKey, variable: Variable) -> Result<(), AllocError>
        ensures ok { OnOk result
            (self.new
            ≡ record self.old { inner = set_in name (Some (variable_state variable)) self.old.inner }) }
        ensures err { OnErr result (self.new ≡ self.old) }
    {
        self.inner.put(name, variable)
    }

    /// A read of a name that the layers may have, and where it is. It takes no memory.
    #[tactic(auto, unfolding(gn_environment::specs::Chains::chain_read))]
    pub(crate) fn mark(&mut self, name: &NameKey) -> Whereabouts
        ensures new { self.new ≡ chain_read name.now self.old }
        ensures found { IsFound name.now self.new result }
    {
        if self.inner.mark(name) {
            return Whereabouts::Inner;
        }
        match mark_first(&mut self.outer, name) {
            Some(i) => Whereabouts::Outer(i),
            None => Whereabouts::Nowhere,
        }
    }

    /// What a name stands for that is there.
    #[tactic(auto, unfolding(gn_environment::specs::Chains::chain_variable))]
    pub(crate) fn variable_at(&self, name: &NameKey, found: Whereabouts) -> Option<&Variable>
        requires { IsFound name.now self.now found }
        ensures { option_map (λ v. variable_state v.now) result ≡ chain_variable name.now self.now }
    {
        match found {
            Whereabouts::Inner => self.inner.get(name),
            Whereabouts::Outer(i) => self.outer[i].get(name),
            Whereabouts::Nowhere => None,
        }
    }

    /// What a name stands for in the first layer that has it. None comes exactly where no layer has it. It takes no memory.
    #[tactic(auto, unfolding(gn_environment::specs::Chains::chain_variable))]
    pub(crate) fn variable(&self, name: &NameKey) -> Option<&Variable>
        ensures { option_map (λ v. variable_state v.now) result ≡ chain_variable name.now self.now }
    {
        match self.inner.get(name) {
            Some(variable) => Some(variable),
            None => outer_variable(&self.outer, name),
        }
    }

    /// The value of the name with this number, which counts as read from then on. None comes exactly where no layer has
    /// it, or where the first that has it declares it. It takes no memory.
    pub fn get(&mut self, name: Name) -> Option<&Value>
        ensures* read { sem 𝓛 (Ends the_row self.entry
            (λ chain. chain ≡ chain_read (key name) self.old)) }
        ensures value { option_map (λ v. val_of v.now) result ≡ chain_value (key name) self.old }
    {
        let name = NameKey::new(name);
        let found = self.mark(&name);
        self.variable_at(&name, found)?.shown()
    }

    // A copy of the value that a read finds at a name further out than in the innermost scope, where `beneath` is what it
    // has beneath all layers.
    fn copy_of_outer(
        &self,
        alloc: Global,
        name: &NameKey,
        beneath: Option<&Value>,
    ) -> Result<Option<Value>, AllocError>
        ensures { IfOk result (λ copy. option_map val_of copy
            ≡ further_value name.now self.now.outer (option_map (λ v. val_of v.now) beneath.entry)) }
    {
        match outer_value(&self.outer, name, beneath) {
            Some(value) => Ok(Some(value.copy(alloc)?)),
            None => Ok(None),
        }
    }

    // Assigns a name at which the innermost layer has nothing: it is read further out.
    fn put_inwards(
        &mut self,
        name: &NameKey,
        value: Value,
        position: Position,
    ) -> Result<(), AllocError>
        requires { variable_in name.now self.old.inner ≡ None }
        ensures ok { OnOk result
            (self.new ≡ put_and_read name.now (val_of value) position self.old) }
        ensures err { OnErr result (self.new ≡ self.old) }
    {
        self.inner.put_assigned(name, value, position)?;
        let _found = mark_first(&mut self.outer, name);
        Ok(())
    }

    // `+=` and `-=`.
    fn combine(
        &mut self,
        alloc: Global,
        name: &NameKey,
        op: AssignOp,
        value: Value,
        position: Position,
        beneath: Option<&Value>,
    ) -> Result<(), AssignError>
        ensures ok { OnOk result
            (changed_by has_no_value operator_refuses (λ old. combined op old (val_of value))
            name.now position (option_map (λ v. val_of v.now) beneath.entry) self.old
            ≡ Ok self.new) }
        ensures refused { IfErr result
            (λ e. IfSome (refusal_of e)
            (λ r. changed_by has_no_value operator_refuses (λ old. combined op old (val_of value))
            name.now position (option_map (λ v. val_of v.now) beneath.entry) self.old
            ≡ Err r)) }
        ensures err { OnErr result (self.new ≡ self.old) }
    {
        if self.inner.has(name) {
            return self.inner.combine(alloc, name, op, value, position);
        }
        match self.copy_of_outer(alloc, name, beneath) {
            Ok(Some(copy)) => self.combine_inwards(alloc, name, copy, op, value, position),
            Ok(None) => Err(AssignError::Undefined),
            Err(_) => Err(AssignError::Memory),
        }
    }

    // `+=` and `-=` on a name at which the innermost layer has nothing, where `copy` is a copy of what it has further out.
    fn combine_inwards(
        &mut self,
        alloc: Global,
        name: &NameKey,
        copy: Value,
        op: AssignOp,
        value: Value,
        position: Position,
    ) -> Result<(), AssignError>
        requires { variable_in name.now self.old.inner ≡ None }
        ensures ok { OnOk result
            (copied_inwards has_no_value operator_refuses (λ old. combined op old (val_of value))
            name.now position self.old (Some (val_of copy)) ≡ Ok self.new) }
        ensures refused { IfErr result
            (λ e. IfSome (refusal_of e)
            (λ r. copied_inwards has_no_value operator_refuses (λ old. combined op old (val_of value))
            name.now position self.old (Some (val_of copy)) ≡ Err r)) }
        ensures err { OnErr result (self.new ≡ self.old) }
    {
        let mut copy = copy;
        if let Err(error) = copy.combine(alloc, op, value) {
            return Err(AssignError::of_operator(error));
        }
        self.put_inwards(name, copy, position)?;
        Ok(())
    }

    /// `name = value`, `name += value` or `name -= value`, whose operator stands at the position, where `beneath` is
    /// what the name has beneath all layers. After a refusal nothing is changed, and the value is dropped.
    #[tactic(auto, unfolding(gn_environment::specs::Assigning::assigned))]
    pub(crate) fn assign(
        &mut self,
        alloc: Global,
        name: &NameKey,
        op: AssignOp,
        value: Value,
        position: Position,
        beneath: Option<&Value>,
    ) -> Result<(), AssignError>
        ensures ok { OnOk result
            (assigned name.now op (val_of value) position
            (option_map (λ v. val_of v.now) beneath.entry) self.old ≡ Ok self.new) }
        ensures refused { IfErr result
            (λ e. IfSome (refusal_of e)
            (λ r. assigned name.now op (val_of value) position
            (option_map (λ v. val_of v.now) beneath.entry) self.old ≡ Err r)) }
        ensures err { OnErr result (self.new ≡ self.old) }
    {
        match op {
            AssignOp::Set => self.inner.overwrite(name, value, position),
            AssignOp::Add => { self.combine(alloc, name, AssignOp::Add, value, position, beneath) }
            AssignOp::Subtract => {
                self.combine(alloc, name, AssignOp::Subtract, value, position, beneath)
            }
        }
    }

    /// `name[at] op= value` or `name.at op= value`, whose operator stands at the position, where `beneath` is what the
    /// name has beneath all layers. After a refusal nothing is changed, and the value is dropped.
    #[tactic(auto, unfolding(gn_environment::specs::Assigning::element_changed))]
    pub(crate) fn assign_element(
        &mut self,
        alloc: Global,
        name: &NameKey,
        at: &Value,
        op: AssignOp,
        value: Value,
        position: Position,
        beneath: Option<&Value>,
    ) -> Result<(), ElementAssignError>
        ensures ok { OnOk result
            (element_changed name.now (val_of at.now) op (val_of value) position
            (option_map (λ v. val_of v.now) beneath.entry) self.old ≡ Ok self.new) }
        ensures refused { IfErr result
            (λ e. IfSome (element_refusal_of e)
            (λ r. element_changed name.now (val_of at.now) op (val_of value) position
            (option_map (λ v. val_of v.now) beneath.entry) self.old ≡ Err r)) }
        ensures err { OnErr result (self.new ≡ self.old) }
    {
        if self.inner.has(name) {
            return self
                .inner
                .assign_element(alloc, name, at, op, value, position);
        }
        match self.copy_of_outer(alloc, name, beneath) {
            Ok(Some(copy)) => self.assign_element_inwards(
                alloc, name, copy, at, op, value, position,
            ),
            Ok(None) => Err(ElementAssignError::Undefined),
            Err(_) => Err(ElementAssignError::Memory),
        }
    }

    // An assignment to an element of a name at which the innermost layer has nothing, where `copy` is a copy of what it
    // has further out.
    fn assign_element_inwards(
        &mut self,
        alloc: Global,
        name: &NameKey,
        copy: Value,
        at: &Value,
        op: AssignOp,
        value: Value,
        position: Position,
    ) -> Result<(), ElementAssignError>
        requires { variable_in name.now self.old.inner ≡ None }
        ensures ok { OnOk result
            (copied_inwards base_has_no_value element_refuses
            (λ old. element_assigned old (val_of at.now) op (val_of value)) name.now position self.old
            (Some (val_of copy)) ≡ Ok self.new) }
        ensures refused { IfErr result
            (λ e. IfSome (element_refusal_of e)
            (λ r. copied_inwards base_has_no_value element_refuses
            (λ old. element_assigned old (val_of at.now) op (val_of value)) name.now position self.old
            (Some (val_of copy)) ≡ Err r)) }
        ensures err { OnErr result (self.new ≡ self.old) }
    {
        let mut copy = copy;
        if let Err(error) = copy.assign_element(alloc, at, op, value) {
            return Err(ElementAssignError::of_element(error));
        }
        self.put_inwards(name, copy, position)?;
        Ok(())
    }

    /// `=`, `+=` or `-=` on the name with this number, whose operator stands at the position. `Overwrite` comes
    /// exactly where `=` would put a nonempty list or scope over a nonempty one of its kind in the innermost scope,
    /// `Undefined` where `+=` or `-=` find no value, and `Value` where the operator refuses the two values. After a
    /// refusal nothing is changed, and the value is dropped.
    pub fn set(
        &mut self,
        alloc: Global,
        name: Name,
        op: AssignOp,
        value: Value,
        position: Position,
    ) -> Result<(), ScopeError>
        ensures ok { OnOk result
            (assigned (key name) op (val_of value) position None self.old ≡ Ok self.new) }
        ensures refused { IfErr result
            (λ e. IfSome (scope_refusal_of e)
            (λ r. assigned (key name) op (val_of value) position None self.old ≡ Err r)) }
        ensures assigning { IfErr result (λ e. (n : ℕ) (p : Position) → e ≢ ScopeError.NoEffect n p) }
        ensures err { OnErr result (self.new ≡ self.old) }
    {
        match self.assign(alloc, &NameKey::new(name), op, value, position, None) {
            Ok(()) => Ok(()),
            Err(error) => Err(ScopeError::of_assignment(error)),
        }
    }
}

// The first layer that has a name.
fn find(layers: &VecDeque<Layer>, name: &NameKey) -> Option<usize>
    ensures some { IfSome result (λ i. IsFirstAt name.now layers.now.items i) }
    ensures none { IfNone result (variable_of name.now layers.now.items ≡ None) }
{
    for i in 0..layers.len() {
        if layers[i].has(name) {
            return Some(i);
        }
    }
    None
}

// A read of a name that the layers may have, and the first that has it.
fn mark_first(layers: &mut VecDeque<Layer>, name: &NameKey) -> Option<usize>
    ensures marked { layers.new.items ≡ marked name.now layers.old.items }
    ensures some { IfSome result (λ i. IsFirstAt name.now layers.new.items i) }
    ensures none { IfNone result (variable_of name.now layers.new.items ≡ None) }
{
    let Some(i) = find(layers, name) else {
        return None;
    };
    layers[i].mark(name);
    Some(i)
}

// What a name stands for in the first of the layers that has it.
fn outer_variable<'a>(layers: &'a VecDeque<Layer>, name: &NameKey) -> Option<&'a Variable>
    ensures { option_map (λ v. variable_state v.now) result ≡ variable_of name.now layers.now.items }
{
    let i = find(layers, name)?;
    layers[i].get(name)
}

// What a read finds in the first of the layers that has a name, where `beneath` is what it has beneath them.
fn outer_value<'a>(
    layers: &'a VecDeque<Layer>,
    name: &NameKey,
    beneath: Option<&'a Value>,
) -> Option<&'a Value>
    ensures { option_map (λ v. val_of v.now) result
        ≡ further_value name.now layers.now.items (option_map (λ v. val_of v.now) beneath.entry) }
{
    match outer_variable(layers, name) {
        Some(variable) => variable.shown(),
        None => beneath,
    }
}
