// The templates and the defaults of a layer.

ghost use Rattle.std.specs.Prelude.{◌≡◌, ◌++◌, [], ◌∷◌, IfOk, OnOk, OnErr, is_some};
ghost use Rattle.std.specs.Ordering.{nat_cmp};
ghost use Rattle.std.specs.Cmp.Lexicographic.{slice_cmp};
ghost use Rattle.std.specs.List.Sorted.{IsStrictlySortedBy};
ghost use Rattle.std.specs.Map.{keys_of};
ghost use Rattle.gn_values.specs.Tables.{at_name, with_name};
ghost use Rattle.gn_environment.specs.Templates.{with_template};
ghost use Rattle.gn_layers.specs.Kept.{template_restored};

use crate::layer::Layer;
use gn_definitions::{Definition, DefinitionName, Definitions};
use gn_paths::Text;
use gn_values::Bindings;
use std::alloc::{AllocError, Global};
use std::collections::BTreeMap;

impl Layer {
    /// The names of the templates, each with the name of its definition.
    pub fn templates(&self) -> &BTreeMap<Text, DefinitionName>
        ensures { result.now.entries ≡ self.now.templates }
    {
        &self.templates
    }

    /// The defaults of each kind of call.
    pub fn defaults(&self) -> &BTreeMap<Text, Bindings>
        ensures { result.now.entries ≡ self.now.defaults }
    {
        &self.defaults
    }

    /// Whether the layer has a template of this name.
    pub fn has_template(&self, name: &Text) -> bool
        ensures { result ≡ is_some (at_name name.now self.now.templates) }
    {
        self.templates.contains_key(name)
    }

    /// Gives a name a template, whose definition goes behind those made so far. After want of memory nothing is changed,
    /// and the definition is dropped.
    pub fn define(
        &mut self,
        alloc: Global,
        name: &Text,
        named: DefinitionName,
        made: &mut Definitions,
        definition: Definition,
    ) -> Result<(), AllocError>
        ensures ok { OnOk result (self.new ≡ with_template name.now named self.old) }
        ensures made { OnOk result (made.new ≡ made.old ++ definition ∷ []) }
        ensures err { OnErr result (self.new ≡ self.old) }
        ensures unmade { OnErr result (made.new ≡ made.old) }
    {
        let before = self.put_template(name.copy(alloc)?, named)?;
        if let Err(error) = made.push(alloc, definition) {
            self.restore_template(name, before);
            return Err(error);
        }
        Ok(())
    }

    // Gives a name a template, and answers the one that it had. After want of memory nothing is changed.
    fn put_template(
        &mut self,
        name: Text,
        named: DefinitionName,
    ) -> Result<Option<DefinitionName>, AllocError>
        ensures ok { OnOk result (self.new ≡ with_template name named self.old) }
        ensures before { IfOk result (λ before. before ≡ at_name name self.old.templates) }
        ensures err { OnErr result (self.new ≡ self.old) }
        ensures ordered { IsStrictlySortedBy (slice_cmp nat_cmp) (keys_of self.old.templates) }
    {
        Ok(self.templates.insert(name, named)?)
    }

    // Lets a name have the template that it had before. It takes no memory.
    fn restore_template(&mut self, name: &Text, before: Option<DefinitionName>)
        ensures { self.new ≡ template_restored name.now before self.old }
    {
        let Some(before) = before else {
            let _gone = self.templates.remove(name);
            return;
        };
        let Some(place) = self.templates.get_mut(name) else {
            return;
        };
        *place = before;
    }

    /// Sets the defaults of a kind of call. After want of memory nothing is changed, and the values are dropped.
    pub fn put_defaults(&mut self, kind: Text, values: Bindings) -> Result<(), AllocError>
        ensures ok { OnOk result
            (self.new ≡ record self.old { defaults = with_name kind values self.old.defaults }) }
        ensures err { OnErr result (self.new ≡ self.old) }
    {
        self.defaults.insert(kind, values)?;
        Ok(())
    }
}
