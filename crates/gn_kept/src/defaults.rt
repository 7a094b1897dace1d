// Defaults of calls: in layers, and in scopes that are kept.

ghost use Rattle.std.specs.Prelude.{◌≡◌, map, option_map};
ghost use Rattle.gn_environment.specs.Templates.{defaults_among};

use gn_definitions::KeptScope;
use gn_layers::Layer;
use gn_paths::Text;
use gn_values::Bindings;
use std::collections::VecDeque;
use std::sync::Arc;

/// The defaults of a kind of call that the first of the layers has which has any. It takes no memory.
pub fn defaults_in_layers<'a>(kind: &Text, layers: &'a VecDeque<Layer>) -> Option<&'a Bindings>
    ensures { option_map (λ b. b.now) result
        ≡ defaults_among kind.now (map (λ l. l.defaults) layers.now.items) }
{
    for layer in layers {
        if let Some(values) = layer.defaults().get(kind) {
            return Some(values);
        }
    }
    None
}

/// The same of scopes that are kept.
pub fn defaults_in_scopes<'a>(kind: &Text, scopes: &'a [Arc<KeptScope>]) -> Option<&'a Bindings>
    ensures { option_map (λ b. b.now) result
        ≡ defaults_among kind.now (map (λ s. s.defaults) (map (λ s. s.value) scopes.now)) }
{
    for scope in scopes {
        if let Some(values) = scope.defaults().get(kind) {
            return Some(values);
        }
    }
    None
}
