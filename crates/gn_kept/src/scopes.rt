// What stands in scopes that are kept: in that of the body that runs, and in those beneath.

ghost use Rattle.std.specs.Prelude.{◌≡◌, ◌++◌, IfOk, map, option_map};
ghost use Rattle.gn_values.specs.View.{val_of};
ghost use Rattle.gn_environment.specs.Environment.{fixed_value, kept_by};
ghost use Rattle.gn_layers.specs.Kept.{kept_scope};

use gn_definitions::{Definition, KeptScope};
use gn_layers::Laid;
use gn_paths::Text;
use gn_values::Value;
use std::alloc::{AllocError, Global};
use std::sync::Arc;

/// What a name has behind the scopes: in what the body keeps, or else in the first of the scopes beneath that has it. It takes no
/// memory.
pub fn behind_value<'a>(
    body: &'a Option<Arc<Definition>>,
    beneath: &'a [Arc<KeptScope>],
    name: &[u8],
) -> Option<&'a Value>
    ensures { option_map (λ v. val_of v.now) result
        ≡ fixed_value name.now
        (kept_by (option_map (λ d. d.value) body.now) ++ map (λ f. f.value) beneath.now) }
{
    let Some(definition) = body else {
        return fixed_value(beneath, name);
    };
    match definition.scope().variables().get(name) {
        Some(value) => Some(value),
        None => fixed_value(beneath, name),
    }
}

// The value that the first of the scopes that has the name has at it.
fn fixed_value<'a>(scopes: &'a [Arc<KeptScope>], name: &[u8]) -> Option<&'a Value>
    ensures { option_map (λ v. val_of v.now) result
        ≡ fixed_value name.now (map (λ f. f.value) scopes.now) }
{
    for scope in scopes {
        if let Some(value) = scope.variables().get(name) {
            return Some(value);
        }
    }
    None
}

/// What the body keeps at a name; nothing where no body runs. It takes no memory.
pub fn kept_value<'a>(body: &'a Option<Arc<Definition>>, name: &Text) -> Option<&'a Value>
    ensures { option_map (λ v. val_of v.now) result
        ≡ fixed_value name.now (kept_by (option_map (λ d. d.value) body.now)) }
{
    let Some(definition) = body else {
        return None;
    };
    match definition.scope().variables().get(name.as_bytes()) {
        Some(value) => Some(value),
        None => None,
    }
}

/// Copies of what a body keeps, over which layers can be laid; nothing is kept where no body runs.
pub fn kept_by_body(alloc: Global, body: &Option<Arc<Definition>>) -> Result<Laid, AllocError>
    ensures { IfOk result
        (λ laid. laid ≡ kept_scope (kept_by (option_map (λ d. d.value) body.now))) }
{
    match body {
        Some(definition) => Laid::of_kept(alloc, definition.scope()),
        None => Ok(Laid::new(alloc)),
    }
}
