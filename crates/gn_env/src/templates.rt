// Templates: what a name means, what a definition keeps, and the scopes in which a call's block and its body run.

ghost use Rattle.std.specs.Prelude.{◌≡◌, [], ◌∷◌, IfOk, OnOk, OnErr, IfErr, IfSome, Ok, Err, length, map, option_map};
ghost use Rattle.gn_tree.specs.Depth.{IsShallow};
ghost use Rattle.gn_values.specs.Tables.{at_name};
ghost use Rattle.gn_values.specs.View.{entry_of};
ghost use Rattle.gn_environment.specs.Environment.{behind};
ghost use Rattle.gn_environment.specs.Templates.{definition_of, is_visible, if_named, template_among, template_of, has_template_here, standing_in};
ghost use Rattle.gn_environment.specs.Templates.{scope_here, new_definition, template_defined, defaults_of, defaults_among, defaults_set};
ghost use Rattle.gn_environment.specs.Templates.{table_given, defaults_given, at_depth, block_begins, body_begins, body_ends, reported_by_invoker};
ghost use Rattle.gn_env.specs.Defaults.{already_set};

use crate::env::Env;
use gn_callers::Caller;
use gn_definitions::{Definition, DefinitionName, KeptScope};
use gn_kept::{defaults_in_layers, defaults_in_scopes, is_inside, kept_by_body, standing_in};
use gn_layers::{Layer, Variable};
use gn_paths::{Place, Text};
use gn_scopes::{NamedScopes, copy_entries};
use gn_tree::{Block, Position};
use gn_values::{Bindings, Entry};
use std::alloc::{AllocError, Global};
use std::collections::{BTreeMap, VecDeque};
use std::sync::Arc;

/// Why names aren't given values.
#[derive(Debug, Drop)]
pub enum GiveError {
    /// The innermost scope already has this name.
    AlreadySet(Text),
    /// Want of memory.
    Memory,
}

impl From<AllocError> for GiveError {
    ghost use Rattle.std.specs.Prelude.{◌≡◌};
    ghost use Rattle.gn_env.specs.declared.templates.GiveError.TheVariants.{Memory};

    ghost from_gives = { λ _ e. e ≡ Memory };

    fn from(_error: AllocError) -> GiveError {
        GiveError::Memory
    }
}

// What a definition has beside its block: where it stands, what it keeps, and where the definitions stand in whose
// bodies it is made.
#[derive(Drop)]
struct Surroundings {
    place: Place,
    scope: Arc<KeptScope>,
    enclosing: Vec<Place>,
}

impl Env {
    /// The template that a name means: the first of that name outwards, then in what stands behind the scopes, that is
    /// visible here. A template isn't visible in its own body, nor in what is defined there. None comes exactly where
    /// there is none. The definition is shared.
    pub fn template(&self, name: &Text) -> Result<Option<Arc<Definition>>, AllocError>
        ensures { IfOk result
            (λ found. option_map (λ d. d.value) found ≡ template_of name.now self.now) }
    {
        match self.find_template(name) {
            Some(definition) => Ok(Some(definition.clone()?)),
            None => Ok(None),
        }
    }

    /// Whether the innermost scope has a template of this name, visible or not. It takes no memory.
    #[tactic(auto, unfolding(gn_environment::specs::Templates::has_template_here))]
    pub fn has_template(&self, name: &Text) -> bool
        ensures { result ≡ has_template_here name.now self.now }
    {
        self.scopes.innermost().has_template(name)
    }

    /// Defines a template of this name in the innermost scope: the position is that of the name of the call that defines
    /// it, the nesting that of its block in its file. The definition keeps a copy of all that is in scope, all of which
    /// counts as read then, as do all names of the invoker. Copying takes n log n comparisons in the names in scope.
    /// After want of memory nothing is changed.
    #[tactic(auto, unfolding(gn_environment::specs::Templates::template_defined))]
    pub fn define_template(
        &mut self,
        alloc: Global,
        name: &Text,
        position: Position,
        nesting: u32,
        block: Block,
    ) -> Result<(), AllocError>
        requires { IsShallow block }
        ensures ok { OnOk result
            (self.new ≡ template_defined name.now position nesting block self.old) }
        ensures err { OnErr result (self.new ≡ self.old) }
    {
        let named = self.next_name(alloc)?;
        let definition = self.new_definition(alloc, position, nesting, block)?;
        self.scopes
            .define(alloc, name, named, &mut self.made, definition)?;
        self.scopes.read_all();
        self.callers.read_block();
        Ok(())
    }

    /// Ends the innermost scope, whose variables become the defaults of a kind of call in the scope around it. They
    /// aren't copied. After want of memory the environment is spent.
    #[tactic(auto, unfolding(gn_environment::specs::Templates::defaults_set, gn_environment::specs::Environment::entries_here))]
    pub fn set_defaults(&mut self, alloc: Global, kind: &Text) -> Result<(), AllocError>
        ensures { OnOk result (self.new ≡ defaults_set kind.now self.old) }
    {
        let values = self.scopes.leave_with_bindings(alloc)?;
        self.scopes.put_defaults(kind.copy(alloc)?, values)
    }

    /// Copies the defaults of a kind of call into the innermost scope, where they count as read: those that the first
    /// scope outwards has, or else what stands behind the scopes. `AlreadySet` comes exactly where the scope already has
    /// one of the names, and has the first of them. After an error the environment is spent, but its setting stays.
    #[tactic(auto, unfolding(gn_environment::specs::Templates::defaults_given))]
    pub fn give_defaults(&mut self, alloc: Global, kind: &Text) -> Result<(), GiveError>
        ensures ok { OnOk result (defaults_given kind.now self.old ≡ Ok self.new) }
        ensures refused { IfErr result
            (λ e. IfSome (already_set e) (λ name. defaults_given kind.now self.old ≡ Err name)) }
        ensures setting { self.new.setting ≡ self.old.setting }
    {
        let Some(values) = self.find_defaults(kind) else {
            return Ok(());
        };
        let values = copy_entries(alloc, values.as_slice())?;
        self.give_each(values)
    }

    /// The scope of the block of a call begins: it is checked, and in it `target_name` is the name given to the call.
    /// After want of memory nothing is changed.
    #[tactic(auto, unfolding(gn_environment::specs::Templates::block_begins, gn_environment::specs::Environment::given, gn_environment::specs::Environment::restored, gn_environment::specs::Environment::entered))]
    pub fn begin_block(&mut self, alloc: Global, name: &Text) -> Result<(), AllocError>
        ensures ok { OnOk result (self.new ≡ block_begins name.now self.old) }
        ensures err { OnErr result (self.new ≡ self.old) }
    {
        self.scopes.enter_named(alloc, name)
    }

    /// The body of a template begins behind the block of its call, which is the innermost scope: the scopes that were
    /// open are its caller's, and it has one checked scope of its own over what its definition keeps, in which
    /// `target_name` is the name given to the call. Places name the file of the definition. After want of memory nothing
    /// is changed.
    #[tactic(auto, unfolding(gn_environment::specs::Templates::body_begins, gn_environment::specs::Environment::given, gn_environment::specs::Environment::restored))]
    pub fn begin_body(
        &mut self,
        alloc: Global,
        definition: Arc<Definition>,
        name: &Text,
    ) -> Result<(), AllocError>
        ensures ok { OnOk result (self.new ≡ body_begins definition.value name.now self.old) }
        ensures err { OnErr result (self.new ≡ self.old) }
    {
        let file = definition.place().file.copy(alloc)?;
        let scopes = NamedScopes::named(alloc, name)?;
        let begun = Caller::new(scopes, Some(definition), file);
        self.callers
            .begin(begun, &mut self.scopes, &mut self.body, &mut self.file)
    }

    /// The body of a template ends, and with it the scope of its call's block: the scopes around the call are open
    /// again. Where no body runs, nothing is changed. It takes no memory.
    #[tactic(auto, unfolding(gn_environment::specs::Templates::body_ends))]
    pub fn end_body(&mut self)
        ensures { self.new ≡ body_ends self.old }
    {
        if let Some(caller) = self.callers.end() {
            caller.back_in(&mut self.scopes, &mut self.body, &mut self.file);
        }
    }

    /// Says how deep the evaluation is: the sum over the template calls that are open.
    #[tactic(auto, unfolding(gn_environment::specs::Templates::at_depth))]
    pub fn set_depth(&mut self, depth: usize)
        ensures { self.new ≡ at_depth depth self.old }
    {
        self.depth = depth;
    }

    /// What the end of the block of the call reports whose template's body runs: its file, the name that nothing read and
    /// whose last assignment stands first, and where that stands. None comes exactly where no body runs, the block isn't
    /// checked or every name was read. It takes no memory.
    #[tactic(auto, unfolding(gn_environment::specs::Templates::reported_by_invoker))]
    pub fn invoker_unread(&self) -> Option<(&Text, &[u8], Position)>
        ensures { option_map (λ p. (p.0.now, (p.1.now, p.2))) result ≡ reported_by_invoker self.now }
    {
        self.callers.block_unread()
    }

    /// The definition that is named: one that this execution made, or another one. None comes exactly where it isn't
    /// known. It takes no memory.
    pub(crate) fn definition(&self, name: &DefinitionName) -> Option<&Arc<Definition>>
        ensures { option_map (λ d. d.now.value) result ≡ definition_of name.now self.now }
    {
        if name.execution == self.execution {
            return self.made.get(name.number);
        }
        self.definitions.get(&name.execution)?.get(name.number)
    }

    // Whether a template of this definition is visible here.
    fn is_visible(&self, definition: &Definition) -> bool
        ensures { result ≡ is_visible self.now definition.now }
    {
        match &self.body {
            Some(body) => !is_inside(definition.place(), body),
            None => true,
        }
    }

    // The visible template that a table has at a name.
    fn template_in(
        &self,
        name: &Text,
        templates: &BTreeMap<Text, DefinitionName>,
    ) -> Option<&Arc<Definition>>
        ensures { option_map (λ d. d.now.value) result
            ≡ if_named self.now (at_name name.now templates.now.entries) }
    {
        let definition = self.definition(templates.get(name)?)?;
        if self.is_visible(definition) {
            Some(definition)
        } else {
            None
        }
    }

    // The first visible template of a name among the templates of layers.
    fn template_in_layers(&self, name: &Text, layers: &VecDeque<Layer>) -> Option<&Arc<Definition>>
        ensures { option_map (λ d. d.now.value) result
            ≡ template_among name.now self.now (map (λ l. l.templates) layers.now.items) }
    {
        for layer in layers {
            if let Some(definition) = self.template_in(name, layer.templates()) {
                return Some(definition);
            }
        }
        None
    }

    // The same of scopes that are kept.
    fn template_in_scopes(&self, name: &Text, scopes: &[Arc<KeptScope>]) -> Option<&Arc<Definition>>
        ensures { option_map (λ d. d.now.value) result
            ≡ template_among name.now self.now
            (map (λ s. s.templates) (map (λ s. s.value) scopes.now)) }
    {
        for scope in scopes {
            if let Some(definition) = self.template_in(name, scope.templates()) {
                return Some(definition);
            }
        }
        None
    }

    // The same of what stands behind the layers.
    fn template_behind(&self, name: &Text) -> Option<&Arc<Definition>>
        ensures { option_map (λ d. d.now.value) result
            ≡ template_among name.now self.now (map (λ s. s.templates) (behind self.now)) }
    {
        if let Some(body) = &self.body {
            if let Some(definition) = self.template_in(name, body.scope().templates()) {
                return Some(definition);
            }
        }
        self.template_in_scopes(name, &self.beneath)
    }

    fn find_template(&self, name: &Text) -> Option<&Arc<Definition>>
        ensures { option_map (λ d. d.now.value) result ≡ template_of name.now self.now }
    {
        if let Some(definition) = self.template_in(name, self.scopes.innermost().templates()) {
            return Some(definition);
        }
        if let Some(definition) = self.template_in_layers(name, self.scopes.outer()) {
            return Some(definition);
        }
        self.template_behind(name)
    }

    // A copy of all that is in scope, of each name what stands innermost, if that isn't declared.
    fn scope_here(&self, alloc: Global) -> Result<KeptScope, AllocError>
        ensures { IfOk result (λ scope. scope ≡ scope_here self.now) }
    {
        let mut laid = kept_by_body(alloc, &self.body)?;
        self.scopes.lay_over(alloc, &mut laid)?;
        laid.take_hidden(&self.scopes);
        laid.into_kept(alloc)
    }

    fn new_definition(
        &self,
        alloc: Global,
        position: Position,
        nesting: u32,
        block: Block,
    ) -> Result<Definition, AllocError>
        requires { IsShallow block }
        ensures { IfOk result (λ d. d ≡ new_definition position nesting block self.now) }
    {
        let Surroundings {
            place,
            scope,
            enclosing,
        } = self.surroundings(alloc, position)?;
        Ok(Definition::new(place, nesting, block, scope, enclosing))
    }

    // The name of the definition that this execution makes next.
    fn next_name(&self, alloc: Global) -> Result<DefinitionName, AllocError>
        ensures { IfOk result
            (λ n. n ≡ record { execution = self.now.execution; number = length self.now.made }) }
    {
        let execution = self.execution.copy(alloc)?;
        Ok(DefinitionName {
            execution,
            number: self.made.len(),
        })
    }

    // What a definition has that is made here, at this position, but for its block.
    fn surroundings(&self, alloc: Global, position: Position) -> Result<Surroundings, AllocError>
        ensures place { IfOk result (λ s. s.place
            ≡ record { file = self.now.setting.file; line = position.line; column = position.column }) }
        ensures scope { IfOk result (λ s. s.scope.value ≡ scope_here self.now) }
        ensures enclosing { IfOk result (λ s. s.enclosing.items ≡ standing_in self.now.body) }
    {
        let enclosing = standing_in(alloc, &self.body)?;
        let scope = self.shared_scope(alloc)?;
        let place = self.place(alloc, position)?;
        Ok(Surroundings {
            place,
            scope,
            enclosing,
        })
    }

    // A copy of all that is in scope, to be shared.
    fn shared_scope(&self, alloc: Global) -> Result<Arc<KeptScope>, AllocError>
        ensures { IfOk result (λ scope. scope.value ≡ scope_here self.now) }
    {
        let scope = self.scope_here(alloc)?;
        Ok(Arc::new(alloc, scope)?)
    }

    // The defaults of a kind of call behind the layers.
    fn defaults_behind(&self, kind: &Text) -> Option<&Bindings>
        ensures { option_map (λ b. b.now) result
            ≡ defaults_among kind.now (map (λ s. s.defaults) (behind self.now)) }
    {
        if let Some(body) = &self.body {
            if let Some(values) = body.scope().defaults().get(kind) {
                return Some(values);
            }
        }
        defaults_in_scopes(kind, &self.beneath)
    }

    fn find_defaults(&self, kind: &Text) -> Option<&Bindings>
        ensures { option_map (λ b. b.now) result ≡ defaults_of kind.now self.now }
    {
        if let Some(values) = self.scopes.innermost().defaults().get(kind) {
            return Some(values);
        }
        if let Some(values) = defaults_in_layers(kind, self.scopes.outer()) {
            return Some(values);
        }
        self.defaults_behind(kind)
    }

    // Gives each name its value, unless the innermost scope has it.
    fn give_each(&mut self, values: Vec<Entry>) -> Result<(), GiveError>
        ensures ok { OnOk result (table_given (map entry_of values.items) self.old ≡ Ok self.new) }
        ensures refused { IfErr result
            (λ e. IfSome (already_set e)
            (λ name. table_given (map entry_of values.items) self.old ≡ Err name)) }
        ensures setting { self.new.setting ≡ self.old.setting }
    {
        for entry in values {
            self.give_unset(entry)?;
        }
        Ok(())
    }

    // Gives a name its value, unless the innermost scope has it.
    #[tactic(auto, unfolding(gn_environment::specs::Environment::given, gn_environment::specs::Environment::restored, gn_environment::specs::Environment::variable_here))]
    fn give_unset(&mut self, entry: Entry) -> Result<(), GiveError>
        ensures ok { OnOk result (table_given (entry_of entry ∷ []) self.old ≡ Ok self.new) }
        ensures refused { IfErr result
            (λ e. IfSome (already_set e)
            (λ name. table_given (entry_of entry ∷ []) self.old ≡ Err name)) }
        ensures setting { self.new.setting ≡ self.old.setting }
    {
        let Entry { name, value } = entry;
        if self.scopes.has_here(&name) {
            return Err(GiveError::AlreadySet(name));
        }
        self.scopes.put(&name, Variable::given(value))?;
        Ok(())
    }
}
