// The invoker: the scope of the block of a call, as the template's body sees it.

ghost use Rattle.std.specs.Prelude.{◌≡◌, ◌≢◌, IfOk, OnOk, OnErr, IfErr, true, false, option_map};
ghost use Rattle.gn_values.specs.Limits.{scope_fits};
ghost use Rattle.gn_values.specs.Val.{vscope, binds_of};
ghost use Rattle.gn_values.specs.View.{val_of};
ghost use Rattle.gn_environment.specs.Assigning.{replaces};
ghost use Rattle.gn_environment.specs.Invoker.{names_invoker, is_outermost, is_invoker_here, invoker_entries, invoker_entry};
ghost use Rattle.gn_environment.specs.Invoker.{after_invoker_entry_read, after_invoker_read, after_invoker_read_but, after_invoker_names_read};

use crate::env::Env;
use gn_layers::NameSet;
use gn_paths::{Text, Texts};
use gn_scopes::NamedScopes;
use gn_values::{Value, ValueError};
use std::alloc::{AllocError, Global};

impl Env {
    /// Whether a name is the invoker: it is `invoker`, the body of a template runs, and no scope of it has the name. It
    /// takes no memory.
    #[tactic(auto, unfolding(gn_environment::specs::Invoker::names_invoker))]
    pub fn is_invoker(&self, name: &Text) -> bool
        ensures { result ≡ names_invoker name.now self.now }
    {
        name.as_bytes() == b"invoker".as_slice()
            && !self.callers.is_empty()
            && self.scopes.variable(name.as_bytes()).is_none()
    }

    /// Whether a name is the invoker and stands in the innermost scope: that is the scope of the body itself, in which the
    /// invoker stands from its beginning on as a name that is set and read. It takes no memory.
    #[tactic(auto, unfolding(gn_environment::specs::Invoker::is_invoker_here))]
    pub fn is_invoker_here(&self, name: &Text) -> bool
        ensures { result ≡ is_invoker_here name.now self.now }
    {
        self.is_invoker(name) && is_outermost(&self.scopes)
    }

    /// Whether a value that is a nonempty scope would take the place of the invoker, which has a name. The names are
    /// copied for it.
    #[tactic(auto, unfolding(gn_environment::specs::Invoker::invoker_entries))]
    pub fn replaces_invoker(&self, alloc: Global, value: &Value) -> Result<bool, AllocError>
        ensures { IfOk result
            (λ b. b ≡ replaces (vscope (binds_of (invoker_entries self.now))) (val_of value.now)) }
    {
        match value {
            Value::Scope(entries) if !entries.is_empty() => {
                Ok(!self.callers.block_is_empty(alloc)?)
            }
            _ => Ok(false),
        }
    }

    /// The invoker as a value: a scope of copies of the names that stand directly in the block of the call. `TooLong` comes
    /// exactly where they would nest too deep for a scope's value.
    #[tactic(auto, unfolding(gn_environment::specs::Invoker::invoker_entries))]
    pub fn invoker_value(&self, alloc: Global) -> Result<Value, ValueError>
        ensures ok { IfOk result (λ v. val_of v ≡ vscope (binds_of (invoker_entries self.now))) }
        ensures fits { OnOk result (scope_fits (invoker_entries self.now) ≡ true) }
        ensures refused { IfErr result
            (λ e. e ≢ ValueError.Memory
            → (e ≡ ValueError.TooLong) × (scope_fits (invoker_entries self.now) ≡ false)) }
    {
        let entries = self.callers.block_entries(alloc)?;
        Ok(Value::Scope(entries))
    }

    /// What the invoker has directly at a name. It takes no memory.
    #[tactic(auto, unfolding(gn_environment::specs::Invoker::invoker_entry))]
    pub fn invoker_entry(&self, name: &Text) -> Option<&Value>
        ensures { option_map (λ v. val_of v.now) result ≡ invoker_entry name.now self.now }
    {
        self.callers.block_value(name)
    }

    /// A read of all names of the invoker. It takes no memory.
    #[tactic(auto, unfolding(gn_environment::specs::Invoker::after_invoker_read))]
    pub fn read_invoker(&mut self)
        ensures { self.new ≡ after_invoker_read self.old }
    {
        self.callers.read_block();
    }

    /// A read of a name of the invoker, if it has it. It takes no memory.
    #[tactic(auto, unfolding(gn_environment::specs::Invoker::after_invoker_entry_read))]
    pub fn read_invoker_entry(&mut self, name: &Text)
        ensures { self.new ≡ after_invoker_entry_read name.now self.old }
    {
        self.callers.read_in_block(name);
    }

    /// A read of all names of the invoker but these. After want of memory nothing is changed.
    #[tactic(auto, unfolding(gn_environment::specs::Invoker::after_invoker_read_but))]
    pub fn read_invoker_but(&mut self, alloc: Global, except: &Texts) -> Result<(), AllocError>
        ensures ok { OnOk result (self.new ≡ after_invoker_read_but except.now self.old) }
        ensures err { OnErr result (self.new ≡ self.old) }
    {
        let except = NameSet::new(alloc, except)?;
        self.callers.read_block_but(&except);
        Ok(())
    }

    /// A read of these names of the invoker, of those that it has, but for the excepted ones. After want of memory nothing
    /// is changed.
    #[tactic(auto, unfolding(gn_environment::specs::Invoker::after_invoker_names_read))]
    pub fn read_invoker_names(
        &mut self,
        alloc: Global,
        names: &Texts,
        except: &Texts,
    ) -> Result<(), AllocError>
        ensures ok { OnOk result
            (self.new ≡ after_invoker_names_read names.now except.now self.old) }
        ensures err { OnErr result (self.new ≡ self.old) }
    {
        let except = NameSet::new(alloc, except)?;
        self.callers.read_block_names(names, &except);
        Ok(())
    }
}

// Whether no layer stands around the innermost one.
fn is_outermost(scopes: &NamedScopes) -> bool
    ensures { result ≡ is_outermost scopes.now }
{
    scopes.outer().is_empty()
}
