// The templates and the defaults of the layers that are open, and what a definition keeps of them.

ghost use Rattle.std.specs.Prelude.{◌≡◌, ◌++◌, [], ◌∷◌, OnOk, OnErr, map};
ghost use Rattle.gn_environment.specs.Chains.{all_read, chain_all_read};
ghost use Rattle.gn_environment.specs.Templates.{in_block, with_template, with_defaults};

use crate::scopes::Scopes;
use gn_definitions::{Definition, DefinitionName, Definitions};
use gn_layers::Layer;
use gn_paths::Text;
use gn_values::Bindings;
use std::alloc::{AllocError, Global};
use std::collections::VecDeque;

impl Scopes {
    /// The layers around the innermost one, outwards.
    pub(crate) fn outer(&self) -> &VecDeque<Layer>
        ensures { result.now.items ≡ self.now.outer }
    {
        &self.outer
    }

    /// Gives a name a template in the innermost layer, whose definition goes behind those made so far. After want of
    /// memory nothing is changed, and the definition is dropped.
    pub(crate) fn define(
        &mut self,
        alloc: Global,
        name: &Text,
        named: DefinitionName,
        made: &mut Definitions,
        definition: Definition,
    ) -> Result<(), AllocError>
        ensures ok { OnOk result (self.new ≡ in_block (with_template name.now named) self.old) }
        ensures made { OnOk result (made.new ≡ made.old ++ definition ∷ []) }
        ensures err { OnErr result (self.new ≡ self.old) }
        ensures unmade { OnErr result (made.new ≡ made.old) }
    {
        self.inner.define(alloc, name, named, made, definition)
    }

    /// Sets the defaults of a kind of call in the innermost layer. After want of memory nothing is changed, and the
    /// values are dropped.
    pub(crate) fn put_defaults(&mut self, kind: Text, values: Bindings) -> Result<(), AllocError>
        ensures ok { OnOk result (self.new ≡ with_defaults kind values self.old) }
        ensures err { OnErr result (self.new ≡ self.old) }
    {
        self.inner.put_defaults(kind, values)
    }

    /// A read of all names of all layers. It takes no memory.
    pub(crate) fn read_all(&mut self)
        ensures { self.new ≡ chain_all_read self.old }
    {
        self.inner.read_all();
        read_layers(&mut self.outer);
    }
}

// A read of all names of all layers.
fn read_layers(layers: &mut VecDeque<Layer>)
    ensures { layers.new.items ≡ map all_read layers.old.items }
{
    for i in 0..layers.len() {
        layers[i].read_all();
    }
}
