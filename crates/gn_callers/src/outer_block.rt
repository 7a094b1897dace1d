// The block around that of the innermost caller's call: where a template was called in the body of another one, that of the call
// of the other one.

ghost use Rattle.std.specs.Prelude.{◌≡◌, ◌≢◌, if◌then◌else◌, IfOk, OnOk, IfErr, true, false, Some, None, option_map};
ghost use Rattle.std.specs.Str.{bytes_eq};
ghost use Rattle.gn_values.specs.Limits.{scope_fits};
ghost use Rattle.gn_environment.specs.Chains.{is_one_of, all_read};
ghost use Rattle.gn_environment.specs.Templates.{with_caller, in_block};
ghost use Rattle.gn_environment.specs.Invoker.{invoker_name, entries_by, callers_behind, behind_first, has_outer_invoker};

use crate::block::entries_here;
use crate::callers::Callers;
use gn_paths::{Text, Texts};
use gn_values::{Entries, ValueError};
use std::alloc::Global;

impl Callers {
    /// Whether a name that is the invoker stands around the innermost call: that stands in a body, and no layer there has the
    /// name. It takes no memory.
    pub fn has_outer_invoker(&self, name: &Text) -> bool
        ensures { result ≡ has_outer_invoker name.now self.now }
    {
        match self.items.front() {
            Some(caller) => {
                self.items.len() > 1 && caller.scopes.variable(name.as_bytes()).is_none()
            }
            None => false,
        }
    }

    /// Copies of what stands directly in the block. `TooLong` comes exactly where they would nest too deep for a scope's
    /// value.
    pub fn outer_block_entries(&self, alloc: Global) -> Result<Entries, ValueError>
        ensures ok { IfOk result (λ entries. entries ≡ entries_by (callers_behind self.now)) }
        ensures fits { OnOk result (scope_fits (entries_by (callers_behind self.now)) ≡ true) }
        ensures refused { IfErr result
            (λ e. e ≢ ValueError.Memory
            → (e ≡ ValueError.TooLong) × (scope_fits (entries_by (callers_behind self.now)) ≡ false)) }
    {
        match self.items.get(1) {
            Some(caller) => entries_here(&caller.scopes, alloc),
            None => Ok(Entries::new(alloc)),
        }
    }

    /// A read of all names of the block. It takes no memory.
    pub fn read_outer_block(&mut self)
        ensures { self.new ≡ behind_first (with_caller (in_block all_read)) self.old }
    {
        if let Some(caller) = self.items.get_mut(1) {
            caller.scopes.read_all_here();
        }
    }
}

/// The name of the invoker, if it is one of these. It takes no memory.
#[tactic(auto, using(crate::proofs::InvokerName::is_invoker_name))]
pub fn invoker_among(names: &Texts) -> Option<&Text>
    ensures { option_map (λ n. n.now) result
        ≡ (if is_one_of invoker_name names.now then Some invoker_name else None) }
{
    for name in names.as_slice() {
        if is_invoker(name) {
            return Some(name);
        }
    }
    None
}

// Whether a name is the name of the invoker.
fn is_invoker(name: &Text) -> bool
    ensures { result ≡ bytes_eq invoker_name name.now }
{
    b"invoker".as_slice() == name.as_bytes()
}
