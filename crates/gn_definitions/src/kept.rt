// The definitions of templates, and what each keeps.

ghost use Rattle.std.specs.Prelude.{◌≡◌, ◌↔◌, ◌++◌, [], ◌∷◌, ◌<◌, IsTrue, IfOk, OnOk, OnErr, length, option_map, slice_get, Some};
ghost use Rattle.gn_tree.specs.Depth.{IsShallow};

use gn_paths::{Place, Text};
use gn_tree::Block;
use gn_values::Bindings;
use std::alloc::{AllocError, Global};
use std::collections::BTreeMap;
use std::marker::Model;
use std::sync::Arc;

/// Names the definition of a template: the execution of a file that made it, and its number among those that this
/// execution made, counted from 0.
#[derive(Drop)]
pub struct DefinitionName {
    /// The execution: the path of the file that was imported, or the empty text for a build file, whose definitions no
    /// other execution sees.
    pub execution: Text,
    /// The number of the definition.
    pub number: usize,
}

impl DefinitionName {
    /// A new name equal to this one.
    pub fn copy(&self, alloc: Global) -> Result<DefinitionName, AllocError>
        ensures { IfOk result (λ n. n ≡ self.now) }
    {
        Ok(DefinitionName {
            execution: self.execution.copy(alloc)?,
            number: self.number,
        })
    }
}

/// A scope that is kept: its variables, its templates by the names of their definitions, and the defaults of each kind
/// of call.
#[derive(Drop)]
pub struct KeptScope {
    variables: Bindings,
    templates: BTreeMap<Text, DefinitionName>,
    defaults: BTreeMap<Text, Bindings>,
}

impl Model for KeptScope {
    ghost use Rattle.gn_definitions.specs.Imported.{ScopeState};
    ghost use Rattle.gn_definitions.specs.ImportedCode.{scope_code};

    ghost Value = { ScopeState };

    ghost coded = { scope_code };

    ghost view = { λ a. record { variables = a.variables; templates = a.templates.entries; defaults = a.defaults.entries } };
}

impl KeptScope {
    /// A scope of these names, which takes no memory.
    pub fn new(
        variables: Bindings,
        templates: BTreeMap<Text, DefinitionName>,
        defaults: BTreeMap<Text, Bindings>,
    ) -> KeptScope
        ensures { result
            ≡ record { variables = variables; templates = templates.entries; defaults = defaults.entries } }
    {
        KeptScope {
            variables,
            templates,
            defaults,
        }
    }

    /// The variables.
    pub fn variables(&self) -> &Bindings
        ensures { result.now ≡ self.now.variables }
    {
        &self.variables
    }

    /// The names of the templates, each with the name of its definition.
    pub fn templates(&self) -> &BTreeMap<Text, DefinitionName>
        ensures { result.now.entries ≡ self.now.templates }
    {
        &self.templates
    }

    /// The defaults of each kind of call.
    pub fn defaults(&self) -> &BTreeMap<Text, Bindings>
        ensures { result.now.entries ≡ self.now.defaults }
    {
        &self.defaults
    }
}

/// The definition of a template. What it keeps is shared: a copy of the definition's reference is all that a call takes.
#[derive(Drop)]
pub struct Definition {
    place: Place,
    nesting: u32,
    block: Block,
    scope: Arc<KeptScope>,
    enclosing: Vec<Place>,
}

impl Model for Definition {
    ghost use Rattle.gn_tree.specs.Depth.{IsShallow};
    ghost use Rattle.gn_definitions.specs.Imported.{DefinitionState};
    ghost use Rattle.gn_definitions.specs.ImportedCode.{definition_code};

    ghost Value = { DefinitionState };

    ghost coded = { definition_code };

    ghost view = { λ a. record { place = a.place; nesting = a.nesting; block = a.block; scope = a.scope.value; enclosing = a.enclosing.items } };

    ghost invariant = { λ a. IsShallow a.block };
}

impl Definition {
    /// A definition: where the name of the call stands that makes it, how deep its block nests in its file, the block, the
    /// scope that it keeps, and where the definitions stand in whose bodies it was made. It takes no memory.
    pub fn new(
        place: Place,
        nesting: u32,
        block: Block,
        scope: Arc<KeptScope>,
        enclosing: Vec<Place>,
    ) -> Definition
        requires { IsShallow block }
        ensures { result
            ≡ record { place = place; nesting = nesting; block = block; scope = scope.value; enclosing = enclosing.items } }
    {
        Definition {
            place,
            nesting,
            block,
            scope,
            enclosing,
        }
    }

    /// Where the name of the call stands that made the definition.
    pub fn place(&self) -> &Place
        ensures { result.now ≡ self.now.place }
    {
        &self.place
    }

    /// How deep the block nests in its file.
    pub fn nesting(&self) -> u32
        ensures { result ≡ self.now.nesting }
    {
        self.nesting
    }

    /// The block of the template.
    pub fn block(&self) -> &Block
        ensures value { result.now ≡ self.now.block }
        ensures shallow { IsShallow self.now.block }
    {
        &self.block
    }

    /// The scope that the template keeps.
    pub fn scope(&self) -> &KeptScope
        ensures { result.now ≡ self.now.scope }
    {
        &self.scope
    }

    /// Where the definitions stand in whose bodies this one was made.
    pub fn enclosing(&self) -> &[Place]
        ensures { result.now ≡ self.now.enclosing }
    {
        self.enclosing.as_slice()
    }
}

/// Definitions in the order in which one execution made them, numbered from 0. They are shared: no call copies one.
#[derive(Drop)]
pub struct Definitions {
    definitions: Vec<Arc<Definition>>,
}

impl Model for Definitions {
    ghost use Rattle.std.specs.Prelude.{List, map};
    ghost use Rattle.std.specs.Coded.{coded_list};
    ghost use Rattle.gn_definitions.specs.Imported.{DefinitionState};
    ghost use Rattle.gn_definitions.specs.ImportedCode.{definition_code};

    ghost Value = { List DefinitionState };

    ghost coded = { coded_list definition_code };

    ghost view = { λ a. map (λ d. d.value) a.definitions.items };
}

impl Definitions {
    /// No definitions. It takes no memory.
    pub fn new(alloc: Global) -> Definitions
        ensures { result ≡ [] }
    {
        Definitions {
            definitions: Vec::new(alloc),
        }
    }

    /// The number of definitions.
    pub fn len(&self) -> usize
        ensures { result ≡ length self.now }
    {
        self.definitions.len()
    }

    /// The definition of this number, counted from 0. None comes exactly where there is none.
    pub fn get(&self, number: usize) -> Option<&Arc<Definition>>
        ensures { option_map (λ d. d.now.value) result ≡ slice_get self.now number }
    {
        self.definitions.get(number)
    }

    /// Puts a definition at the end. After want of memory nothing is changed, and the definition is dropped.
    pub fn push(&mut self, alloc: Global, definition: Definition) -> Result<(), AllocError>
        ensures ok { OnOk result (self.new ≡ self.old ++ definition ∷ []) }
        ensures err { OnErr result (self.new ≡ self.old) }
    {
        let shared = Arc::new(alloc, definition)?;
        self.definitions.push(shared)?;
        Ok(())
    }
}
