// What the layers have, by names: entries, and scopes that are kept.

ghost use Rattle.std.specs.Prelude.{◌≡◌, ◌∷◌, IfOk, OnOk, map};
ghost use Rattle.gn_values.specs.View.{entry_of};
ghost use Rattle.gn_environment.specs.Chains.{chain_left};
ghost use Rattle.gn_environment.specs.Forwarding.{target_name};
ghost use Rattle.gn_environment.specs.Giving.{entries_but};
ghost use Rattle.gn_environment.specs.Imports.{scope_left, whole_scope};
ghost use Rattle.gn_layers.specs.Kept.{layers_over, layers_texted_over};
ghost use Rattle.gn_environment.specs.Layers.{values_in};

use crate::copies::keep_forwarded;
use crate::named_scopes::NamedScopes;
use gn_definitions::KeptScope;
use gn_layers::{Hides, Laid, Layer, NameSet};
use gn_paths::Text;
use gn_text::Names;
use gn_values::{Bindings, Entry};
use std::alloc::{AllocError, Global};
use std::collections::VecDeque;

impl NamedScopes {
    /// Ends the innermost scope, and answers the names that were set in it with their values, which aren't copied. The
    /// scope ends whatever the answer.
    pub fn leave_with_bindings(&mut self, alloc: Global) -> Result<Bindings, AllocError>
        ensures ok { IfOk result (λ bindings. bindings ≡ values_in self.old.inner) }
        ensures new { self.new ≡ chain_left self.old }
    {
        let layer = self.scopes.end();
        let laid = layer.into_laid(alloc, &self.names)?;
        laid.into_bindings(alloc)
    }

    /// Ends the innermost scope, and answers what an import leaves of it: the names that don't begin with `_`. Nothing
    /// is copied but names. The scope ends whatever the answer.
    pub fn leave_public(&mut self, alloc: Global) -> Result<KeptScope, AllocError>
        ensures ok { IfOk result (λ scope. scope ≡ scope_left self.old.inner) }
        ensures new { self.new ≡ chain_left self.old }
    {
        let layer = self.scopes.end();
        let laid = layer.into_laid(alloc, &self.names)?;
        laid.into_public(alloc)
    }

    /// Ends the innermost scope, and answers all that stood in it. Nothing is copied but names. The scope ends whatever the
    /// answer.
    pub fn leave_whole(&mut self, alloc: Global) -> Result<KeptScope, AllocError>
        ensures ok { IfOk result (λ scope. scope ≡ whole_scope self.old.inner) }
        ensures new { self.new ≡ chain_left self.old }
    {
        let layer = self.scopes.end();
        let laid = layer.into_laid(alloc, &self.names)?;
        laid.into_kept(alloc)
    }

    /// Copies of the names that stand in the innermost layer with their values.
    pub fn copies_here(&self, alloc: Global) -> Result<Bindings, AllocError>
        ensures { IfOk result (λ bindings. bindings ≡ values_in self.now.inner) }
    {
        self.scopes.innermost().copies_by_name(alloc, &self.names)
    }

    /// Copies of the names that stand in the innermost layer with their values, but for `target_name` and the excepted
    /// ones.
    pub fn copies_here_but(
        &self,
        alloc: Global,
        except: &NameSet<'_>,
    ) -> Result<Vec<Entry>, AllocError>
        ensures { IfOk result (λ entries. map entry_of entries.items
            ≡ entries_but (target_name ∷ except.now) (values_in self.now.inner)) }
    {
        let mut entries = self.copies_here(alloc)?.into_vec();
        keep_forwarded(&mut entries, except);
        Ok(entries)
    }

    /// Lays copies of the names of all layers over those of a scope. After want of memory some of them are.
    pub fn lay_over(&self, alloc: Global, lower: &mut Laid) -> Result<(), AllocError>
        ensures { OnOk result
            (lower.new ≡ layers_over (self.now.inner ∷ self.now.outer) lower.old) }
    {
        // `len` says that the names below stand in order, on which it rests that the order of laying them over is free.
        let _len = lower.len();
        lay_layers(lower, alloc, &self.names, self.scopes.outer())?;
        lower.lay(alloc, &self.names, self.scopes.innermost())
    }
}

// Names that the first layer that has them declares.
impl Hides for NamedScopes {
    ghost use Rattle.std.specs.Prelude.{◌∷◌};
    ghost use Rattle.gn_environment.specs.Chains.{is_declared};

    ghost hidden = { λ s name. is_declared name (s.inner ∷ s.outer) };

    #[tactic(auto, unfolding(gn_environment::specs::Chains::chain_variable))]
    fn hides(&self, name: &Text) -> bool {
        match self.variable(name.as_bytes()) {
            Some(variable) => variable.declared.is_some(),
            None => false,
        }
    }
}

// Lays copies of the names of layers, the innermost first, over those of a scope; `names` are those that their numbers
// stand for.
fn lay_layers(
    lower: &mut Laid,
    alloc: Global,
    names: &Names,
    layers: &VecDeque<Layer>,
) -> Result<(), AllocError>
    ensures { OnOk result
        (lower.new ≡ layers_texted_over names.now layers.now.items lower.old) }
{
    let mut i = layers.len();
    while i > 0 {
        i -= 1;
        lower.lay(alloc, names, &layers[i])?;
    }
    Ok(())
}
