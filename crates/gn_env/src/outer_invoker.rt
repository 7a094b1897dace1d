// The invoker around a call: where a template was called in the body of another one, the invoker of that body.

ghost use Rattle.std.specs.Prelude.{◌≡◌, ◌≢◌, IfOk, OnOk, IfErr, true, false};
ghost use Rattle.gn_values.specs.Limits.{scope_fits};
ghost use Rattle.gn_values.specs.Val.{vscope, binds_of};
ghost use Rattle.gn_values.specs.View.{val_of};
ghost use Rattle.gn_environment.specs.Invoker.{forwards_outer_invoker, outer_invoker_entries, after_outer_invoker_read};

use crate::env::Env;
use gn_callers::invoker_among;
use gn_paths::Texts;
use gn_values::{Value, ValueError};
use std::alloc::Global;

impl Env {
    /// Whether the invoker around the call is among names of the invoker, and isn't excepted: the template was called in
    /// the body of another one, and no scope there has its name. It takes no memory.
    #[tactic(auto, unfolding(gn_environment::specs::Invoker::forwards_outer_invoker))]
    pub fn forwards_outer_invoker(&self, names: &Texts, except: &Texts) -> bool
        ensures { result ≡ forwards_outer_invoker names.now except.now self.now }
    {
        match invoker_among(names) {
            Some(name) => {
                invoker_among(except).is_none() && self.callers.has_outer_invoker(name)
            }
            None => false,
        }
    }

    /// The invoker around the call as a value: a scope of copies of the names that stand directly in it. `TooLong` comes
    /// exactly where they would nest too deep for a scope's value.
    #[tactic(auto, unfolding(gn_environment::specs::Invoker::outer_invoker_entries))]
    pub fn outer_invoker_value(&self, alloc: Global) -> Result<Value, ValueError>
        ensures ok { IfOk result
            (λ v. val_of v ≡ vscope (binds_of (outer_invoker_entries self.now))) }
        ensures fits { OnOk result (scope_fits (outer_invoker_entries self.now) ≡ true) }
        ensures refused { IfErr result
            (λ e. e ≢ ValueError.Memory
            → (e ≡ ValueError.TooLong) × (scope_fits (outer_invoker_entries self.now) ≡ false)) }
    {
        let entries = self.callers.outer_block_entries(alloc)?;
        Ok(Value::Scope(entries))
    }

    /// A read of all names of the invoker around the call. It takes no memory.
    #[tactic(auto, unfolding(gn_environment::specs::Invoker::after_outer_invoker_read))]
    pub fn read_outer_invoker(&mut self)
        ensures { self.new ≡ after_outer_invoker_read self.old }
    {
        self.callers.read_outer_block();
    }
}
