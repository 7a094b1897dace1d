// Templates and defaults of the layers, and scopes that begin with the name of a target.

ghost use Rattle.std.specs.Prelude.{◌≡◌, ◌++◌, [], ◌∷◌, IfOk, OnOk, OnErr, Some, None, true, map, codes};
ghost use Rattle.gn_values.specs.Val.{vstr};
ghost use Rattle.gn_environment.specs.Chains.{set_in};
ghost use Rattle.gn_environment.specs.Layers.{empty_layer, given_variable};
ghost use Rattle.gn_environment.specs.Templates.{in_block, with_template, with_defaults};

use crate::named_scopes::NamedScopes;
use gn_definitions::{Definition, DefinitionName, Definitions};
use gn_layers::{Layer, Variable};
use gn_paths::Text;
use gn_values::{Bindings, Value};
use std::alloc::{AllocError, Global};
use std::collections::VecDeque;

impl NamedScopes {
    /// The innermost layer, of which the templates and the defaults stand by names.
    pub fn innermost(&self) -> &Layer
        ensures templates { result.now.templates ≡ self.now.inner.templates }
        ensures defaults { result.now.defaults ≡ self.now.inner.defaults }
        ensures declares { result.now.declares ≡ self.now.inner.declares }
    {
        self.scopes.innermost()
    }

    /// The layers around the innermost one, outwards, of which the templates and the defaults stand by names.
    pub fn outer(&self) -> &VecDeque<Layer>
        ensures templates { map (λ l. l.templates) result.now.items ≡ map (λ l. l.templates) self.now.outer }
        ensures defaults { map (λ l. l.defaults) result.now.items ≡ map (λ l. l.defaults) self.now.outer }
    {
        self.scopes.outer()
    }

    /// Gives a name a template in the innermost layer, whose definition goes behind those made so far. After want of
    /// memory nothing is changed, and the definition is dropped.
    pub fn define(
        &mut self,
        alloc: Global,
        name: &Text,
        named: DefinitionName,
        made: &mut Definitions,
        definition: Definition,
    ) -> Result<(), AllocError>
        ensures ok { OnOk result (self.new ≡ in_block (with_template name.now named) self.old) }
        ensures made { OnOk result (made.new ≡ made.old ++ definition ∷ []) }
        ensures err { OnErr result (self.new ≡ self.old) }
        ensures unmade { OnErr result (made.new ≡ made.old) }
    {
        self.scopes.define(alloc, name, named, made, definition)
    }

    /// Sets the defaults of a kind of call in the innermost layer. After want of memory nothing is changed, and the
    /// values are dropped.
    pub fn put_defaults(&mut self, kind: Text, values: Bindings) -> Result<(), AllocError>
        ensures ok { OnOk result (self.new ≡ with_defaults kind values self.old) }
        ensures err { OnErr result (self.new ≡ self.old) }
    {
        self.scopes.put_defaults(kind, values)
    }

    /// Opens a checked scope in which `target_name` is this name, and counts as read. After want of memory nothing is
    /// changed.
    pub fn enter_named(&mut self, alloc: Global, name: &Text) -> Result<(), AllocError>
        ensures ok { OnOk result
            (self.new ≡ record {
              inner = set_in (codes "target_name") (Some (given_variable (vstr name.now)))
                  (empty_layer true);
              outer = self.old.inner ∷ self.old.outer;
            }) }
        ensures err { OnErr result (self.new ≡ self.old) }
    {
        self.enter(true)?;
        match self.put_target_name(alloc, name) {
            Ok(()) => Ok(()),
            Err(error) => {
                self.leave();
                Err(error)
            }
        }
    }

    /// One checked layer in which `target_name` is this name, and counts as read.
    pub fn named(alloc: Global, name: &Text) -> Result<NamedScopes, AllocError>
        ensures { IfOk result (λ scopes. scopes ≡ record {
          inner = set_in (codes "target_name") (Some (given_variable (vstr name.now)))
              (empty_layer true);
          outer = [];
        }) }
    {
        let mut scopes = NamedScopes::new(alloc, true);
        scopes.put_target_name(alloc, name)?;
        Ok(scopes)
    }

    // Lets `target_name` be this name in the innermost layer, where it counts as read. After want of memory the layers are
    // as before.
    fn put_target_name(&mut self, alloc: Global, name: &Text) -> Result<(), AllocError>
        ensures ok { OnOk result
            (self.new ≡ record self.old {
              inner = set_in (codes "target_name") (Some (given_variable (vstr name.now)))
                  self.old.inner;
            }) }
        ensures err { OnErr result (self.new ≡ self.old) }
    {
        let target_name = Text::from_bytes(alloc, b"target_name")?;
        let value = Value::Str(name.copy(alloc)?);
        self.put(&target_name, Variable::given(value))
    }
}
