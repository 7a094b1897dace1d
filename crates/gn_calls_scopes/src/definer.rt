// What makes an item of the scope of its block.

ghost use Rattle.std.specs.Prelude.{◌≡◌, Ok, Err, IfOk, IfErr};
ghost use Rattle.gn_meaning.specs.Items.{defined};
ghost use Rattle.gn_calls_scopes.specs.Definitions.{IfWrong};

use gn_env::Env;
use gn_faults::Fault;
use gn_items::{Item, ItemKind};
use gn_paths::Text;
use gn_tree::Position;
use std::alloc::{AllocError, Global};

/// Why an item isn't made.
#[derive(Drop)]
pub enum DefineError {
    /// The first fault of the definition.
    Wrong(Fault),
    /// Want of memory.
    Memory,
}

impl From<AllocError> for DefineError {
    ghost use Rattle.std.specs.Prelude.{◌≡◌};
    ghost use Rattle.gn_calls_scopes.specs.declared.definer.DefineError.TheVariants.{Memory};

    ghost from_gives = { λ _ e. e ≡ Memory };

    fn from(_error: AllocError) -> DefineError {
        DefineError::Memory
    }
}

/// What makes an item of the scope of its block, once the block has run. It stays as it is.
pub trait Definer {
    /// The item of this kind and name, whose call stands at the position; the names that its kind reads count as read
    /// from then on. `Wrong` has the first fault of the definition, and comes exactly where there is one, but for want
    /// of memory.
    fn define(
        &mut self,
        alloc: Global,
        kind: ItemKind,
        name: &Text,
        env: &mut Env,
        position: Position,
    ) -> Result<Item, DefineError>
        ensures same { self.new ≡ self.old }
        ensures item { IfOk result (λ item. defined kind name.now position env.old ≡ Ok (item, env.new)) }
        ensures wrong { IfErr result (λ e. IfWrong e (λ fault. defined kind name.now position env.old ≡ Err fault)) };
}
