// What a name is worth where the innermost caller called, and reads there.

ghost use Rattle.std.specs.Prelude.{◌≡◌, map, option_map};
ghost use Rattle.gn_values.specs.View.{val_of};
ghost use Rattle.gn_environment.specs.Chains.{nearest, shown_or, chain_variable, chain_read};
ghost use Rattle.gn_environment.specs.Environment.{fixed_value, kept_by};
ghost use Rattle.gn_environment.specs.Giving.{read_at};
ghost use Rattle.gn_environment.specs.Invoker.{value_by, value_if_invoker};
ghost use Rattle.gn_environment.specs.Templates.{with_caller};

use crate::caller::Caller;
use crate::callers::Callers;
use gn_definitions::Definition;
use gn_kept::kept_value;
use gn_paths::Text;
use gn_values::Value;
use std::sync::Arc;

impl Callers {
    /// What a name is worth where the innermost caller called, where the invoker around the call has this value, if it is
    /// looked for. It takes no memory.
    pub fn value<'a>(&'a self, name: &Text, outer: Option<&'a Value>) -> Option<&'a Value>
        ensures { option_map (λ v. val_of v.now) result
            ≡ value_by name.now (option_map (λ v. val_of v.now) outer.entry) self.now }
    {
        let caller = self.items.front()?;
        caller.value(name, outer)
    }

    /// A read of a name where the innermost caller called. It takes no memory.
    pub fn mark(&mut self, name: &Text)
        ensures { self.new ≡ with_caller (chain_read name.now) self.old }
    {
        if let Some(caller) = self.items.front_mut() {
            caller.scopes.mark(name.as_bytes());
        }
    }

    /// A read of each of these names there. It takes no memory.
    pub fn mark_each(&mut self, names: &[&Text])
        ensures { self.new ≡ read_at (map (λ n. n.now) names.now) self.old }
    {
        for name in names {
            self.mark(name);
        }
    }
}

impl Caller {
    // What a name is worth there, where the invoker around the call has this value, if it is looked for: in the layers
    // outwards, then as that invoker, then in what the body keeps.
    fn value<'a>(&'a self, name: &Text, outer: Option<&'a Value>) -> Option<&'a Value>
        ensures { option_map (λ v. val_of v.now) result
            ≡ shown_or (chain_variable name.now self.now.chain)
            (nearest (value_if_invoker name.now (option_map (λ v. val_of v.now) outer.entry))
            (fixed_value name.now (kept_by self.now.body))) }
    {
        match self.scopes.variable(name.as_bytes()) {
            Some(variable) => variable.shown(),
            None => value_around(&self.body, name, outer),
        }
    }
}

// What a name is worth as the invoker around the call, or else in what the body keeps.
fn value_around<'a>(
    body: &'a Option<Arc<Definition>>,
    name: &Text,
    outer: Option<&'a Value>,
) -> Option<&'a Value>
    ensures { option_map (λ v. val_of v.now) result
        ≡ nearest (value_if_invoker name.now (option_map (λ v. val_of v.now) outer.entry))
        (fixed_value name.now (kept_by (option_map (λ d. d.value) body.now))) }
{
    match value_if_invoker(name, outer) {
        Some(value) => Some(value),
        None => kept_value(body, name),
    }
}

// What the invoker around the call is worth, if the name is its name.
fn value_if_invoker<'a>(name: &Text, outer: Option<&'a Value>) -> Option<&'a Value>
    ensures { option_map (λ v. val_of v.now) result
        ≡ value_if_invoker name.now (option_map (λ v. val_of v.now) outer.entry) }
{
    if name.as_bytes() == b"invoker".as_slice() {
        outer
    } else {
        None
    }
}
