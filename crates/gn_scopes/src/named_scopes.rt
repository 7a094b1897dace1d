// The layers of the scopes that are open, by the names that stand in them.

ghost use types.Logic.{sem};
ghost use Rattle.std.specs.Prelude.{◌≡◌, [], OnOk, OnErr, IfErr, IfSome, Err, Ok, None, Some, option_map, is_some};
ghost use Rattle.gn_tree.specs.declared.position.Position.{Position};
ghost use Rattle.gn_values.specs.View.{val_of};
ghost use Rattle.gn_environment.specs.Assigning.{assigned, element_changed};
ghost use Rattle.gn_environment.specs.Declaring.{chain_declaring, declared_in, place_of};
ghost use Rattle.gn_environment.specs.Templates.{in_block};
ghost use Rattle.gn_environment.specs.Chains.{variable_in, set_in, chain_variable, chain_read, chain_entered, chain_left};
ghost use Rattle.gn_layers.specs.Errors.{refusal_of, element_refusal_of};
ghost use Rattle.gn_environment.specs.Layers.{empty_layer};
ghost use Rattle.gn_environment.specs.Lending.{Ends};
ghost use Rattle.gn_layers.specs.View.{variable_state};
ghost use Rattle.gn_scopes.specs.contracts.named_scopes.NamedScopes.{the_row};

use crate::scopes::Scopes;
use gn_layers::{AssignError, ElementAssignError, NameKey, Variable};
use gn_paths::Text;
use gn_text::Names;
use gn_tree::{AssignOp, Position};
use gn_values::Value;
use std::alloc::{AllocError, Global};
use std::marker::Model;

/// The layers of the scopes that are open, with the table of the names by whose numbers their variables stand. Contracts
/// see the layers by names. A name that the table lacks stands in none of them.
#[derive(Drop)]
pub struct NamedScopes {
    pub(crate) names: Names,
    pub(crate) scopes: Scopes,
}

impl Model for NamedScopes {
    ghost use Rattle.gn_environment.specs.Layers.{ChainState};
    ghost use Rattle.gn_environment.specs.Codes.{chain_code};
    ghost use Rattle.gn_layers.specs.Named.{named_chain, IsNumberedChain};

    ghost Value = { ChainState };

    ghost coded = { chain_code };

    ghost view = { λ a. named_chain a.names a.scopes };

    ghost invariant = { λ a. IsNumberedChain a.names a.scopes };
}

impl NamedScopes {
    /// One layer, in which nothing is set. It takes no memory.
    pub fn new(alloc: Global, checked: bool) -> NamedScopes
        ensures { result ≡ record { inner = empty_layer checked; outer = [] } }
    {
        NamedScopes {
            names: Names::new(alloc),
            scopes: Scopes::new(alloc, checked),
        }
    }

    /// Opens a scope, in which nothing is set. After want of memory nothing is changed.
    pub fn enter(&mut self, checked: bool) -> Result<(), AllocError>
        ensures ok { OnOk result (self.new ≡ chain_entered checked self.old) }
        ensures err { OnErr result (self.new ≡ self.old) }
    {
        self.scopes.enter(checked)
    }

    /// Opens the scope of a block that declares arguments, in which nothing is set. After want of memory nothing is changed.
    pub fn enter_declaring(&mut self) -> Result<(), AllocError>
        ensures ok { OnOk result (self.new ≡ chain_declaring self.old) }
        ensures err { OnErr result (self.new ≡ self.old) }
    {
        self.scopes.enter_declaring()
    }

    /// Ends the innermost scope, and lets go of what it has; behind the outermost one an empty one begins, which isn't
    /// checked. It takes no memory.
    pub fn leave(&mut self)
        ensures { self.new ≡ chain_left self.old }
    {
        let _layer = self.scopes.end();
    }

    /// Whether the innermost layer has a name. It takes no memory.
    pub fn has_here(&self, name: &Text) -> bool
        ensures { result ≡ is_some (variable_in name.now self.now.inner) }
    {
        match self.names.number(name.as_bytes()) {
            Some(number) => self.scopes.innermost().has(&NameKey::new(number)),
            None => false,
        }
    }

    /// The value of a name of the innermost layer, also of one that is declared. None comes exactly where that has nothing
    /// at it. It takes no memory.
    pub fn value_here(&self, name: &Text) -> Option<&Value>
        ensures { option_map (λ v. val_of v.now) result
            ≡ option_map (λ v. v.value) (variable_in name.now self.now.inner) }
    {
        let number = self.names.number(name.as_bytes())?;
        self.scopes.innermost().value(&NameKey::new(number))
    }

    /// Where a name of the innermost layer was declared. None comes exactly where it isn't declared there. It takes no memory.
    pub fn declared_here(&self, name: &Text) -> Option<Position>
        ensures { result ≡ place_of (variable_in name.now self.now.inner) }
    {
        let number = self.names.number(name.as_bytes())?;
        self.scopes.innermost().declared(&NameKey::new(number))
    }

    /// What a name stands for in the first layer that has it. None comes exactly where no layer has it. It takes no memory.
    pub fn variable(&self, name: &[u8]) -> Option<&Variable>
        ensures { option_map (λ v. variable_state v.now) result ≡ chain_variable name.now self.now }
    {
        let number = self.names.number(name)?;
        self.scopes.variable(&NameKey::new(number))
    }

    /// What a name stands for in the first layer that has it, which counts as read from then on. None comes exactly where no
    /// layer has it. The table of names is asked once. It takes no memory.
    pub fn read(&mut self, name: &[u8]) -> Option<&Variable>
        ensures* read { sem 𝓛 (Ends the_row self.entry
            (λ chain. chain ≡ chain_read name.now self.old)) }
        ensures value { option_map (λ v. variable_state v.now) result
            ≡ chain_variable name.now (chain_read name.now self.old) }
    {
        let number = self.names.number(name)?;
        let key = NameKey::new(number);
        let found = self.scopes.mark(&key);
        self.scopes.variable_at(&key, found)
    }

    /// Declares a name of the innermost layer, if it has the name and declares names, at the position of the call that gave
    /// it, unless it was declared before. It takes no memory.
    pub fn declare(&mut self, name: &Text, position: Position)
        ensures { self.new ≡ in_block (declared_in name.now position) self.old }
    {
        if let Some(number) = self.names.number(name.as_bytes()) {
            self.scopes.declare(&NameKey::new(number), position);
        }
    }

    /// A read of a name that the layers may have. It takes no memory.
    pub fn mark(&mut self, name: &[u8])
        ensures { self.new ≡ chain_read name.now self.old }
    {
        if let Some(number) = self.names.number(name) {
            let _found = self.scopes.mark(&NameKey::new(number));
        }
    }

    /// Takes a name out of the innermost layer, and answers what it stood for there. It takes no memory.
    pub fn take(&mut self, name: &Text) -> Option<Variable>
        ensures value { option_map variable_state result ≡ variable_in name.now self.old.inner }
        ensures new { self.new ≡ record self.old { inner = set_in name.now None self.old.inner } }
    {
        let number = self.names.number(name.as_bytes())?;
        self.scopes.take(&NameKey::new(number))
    }

    /// Sets what a name of the innermost layer stands for. After want of memory the layers are as before, and the variable
    /// is dropped.
    pub fn put(&mut self, name: &Text, variable: Variable) -> Result<(), AllocError>
        ensures ok { OnOk result
            (self.new
            ≡ record self.old { inner = set_in name.now (Some (variable_state variable)) self.old.inner }) }
        ensures err { OnErr result (self.new ≡ self.old) }
    {
        let number = self.names.intern(name.as_bytes())?;
        self.scopes.put(NameKey::new(number), variable)
    }

    /// `name = value`, `name += value` or `name -= value`, whose operator stands at the position, where `beneath` is
    /// what the name has beneath all layers. After a refusal the layers are as before, and the value is dropped.
    pub fn assign(
        &mut self,
        alloc: Global,
        name: &Text,
        op: AssignOp,
        value: Value,
        position: Position,
        beneath: Option<&Value>,
    ) -> Result<(), AssignError>
        ensures ok { OnOk result
            (assigned name.now op (val_of value) position
            (option_map (λ v. val_of v.now) beneath.entry) self.old ≡ Ok self.new) }
        ensures refused { IfErr result
            (λ e. IfSome (refusal_of e)
            (λ r. assigned name.now op (val_of value) position
            (option_map (λ v. val_of v.now) beneath.entry) self.old ≡ Err r)) }
        ensures err { OnErr result (self.new ≡ self.old) }
    {
        let number = self.names.intern(name.as_bytes())?;
        self.scopes
            .assign(alloc, &NameKey::new(number), op, value, position, beneath)
    }

    /// `name[at] op= value` or `name.at op= value`, whose operator stands at the position, where `beneath` is what the
    /// name has beneath all layers. After a refusal the layers are as before, and the value is dropped.
    pub fn assign_element(
        &mut self,
        alloc: Global,
        name: &Text,
        at: &Value,
        op: AssignOp,
        value: Value,
        position: Position,
        beneath: Option<&Value>,
    ) -> Result<(), ElementAssignError>
        ensures ok { OnOk result
            (element_changed name.now (val_of at.now) op (val_of value) position
            (option_map (λ v. val_of v.now) beneath.entry) self.old ≡ Ok self.new) }
        ensures refused { IfErr result
            (λ e. IfSome (element_refusal_of e)
            (λ r. element_changed name.now (val_of at.now) op (val_of value) position
            (option_map (λ v. val_of v.now) beneath.entry) self.old ≡ Err r)) }
        ensures err { OnErr result (self.new ≡ self.old) }
    {
        let number = self.names.intern(name.as_bytes())?;
        self.scopes.assign_element(
            alloc,
            &NameKey::new(number),
            at,
            op,
            value,
            position,
            beneath,
        )
    }
}
