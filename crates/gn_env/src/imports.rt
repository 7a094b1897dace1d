// What an import leaves, and the finished build configuration, and merging an import.

ghost use Rattle.std.specs.Prelude.{◌≡◌, IfOk, OnOk, OnErr, IfErr, IfSome, option_map};
ghost use Rattle.gn_values.specs.Tables.{with_name};
ghost use Rattle.gn_environment.specs.Imports.{import_left, scope_left, whole_scope, configuration_left, merged, merged_known, conflict_in};
ghost use Rattle.gn_environment.specs.Imports.{invoker_brought, lesser, first_name, other_value, other_template, other_defaults};
ghost use Rattle.gn_env.specs.Conflicts.{conflict_of};

use crate::env::Env;
use gn_definitions::{DefinitionName, Definitions, ImportValue, KeptScope, MadeBy};
use gn_kept::same_definition;
use gn_paths::Text;
use gn_scopes::NamedScopes;
use gn_values::Bindings;
use std::alloc::{AllocError, Global};
use std::collections::BTreeMap;
use std::sync::Arc;

/// Why what an import left isn't merged.
#[derive(Debug, Drop)]
pub enum MergeError {
    /// At this name, the first in the order of the bytes, the innermost scope has something else than the import.
    Conflict(Text),
    /// Want of memory.
    Memory,
}

impl From<AllocError> for MergeError {
    ghost use Rattle.std.specs.Prelude.{◌≡◌};
    ghost use Rattle.gn_env.specs.declared.imports.MergeError.TheVariants.{Memory};

    ghost from_gives = { λ _ e. e ≡ Memory };

    fn from(_error: AllocError) -> MergeError {
        MergeError::Memory
    }
}

impl Env {
    /// Merges what an import left into the innermost scope: its variables, which count as read, its templates and its
    /// defaults; the environment knows its definitions from then on. `Conflict` comes exactly where the scope has a
    /// variable with another value, the invoker for a variable of its name, a template with a definition at another
    /// place, or other defaults, and names the first such name. After a refusal nothing is changed. The work is n log n, where n counts the names merged and
    /// the executions whose definitions the import knows, and the logarithm is of all names and executions.
    #[tactic(auto, unfolding(gn_environment::specs::Imports::merged))]
    pub fn merge(&mut self, alloc: Global, value: &ImportValue) -> Result<(), MergeError>
        ensures ok { OnOk result (merged value.now self.old ≡ Ok self.new) }
        ensures conflict { IfErr result
            (λ e. IfSome (conflict_of e) (λ name. merged value.now self.old ≡ Err name)) }
        ensures err { OnErr result (self.new ≡ self.old) }
    {
        let added = self.definitions.add(alloc, value.definitions())?;
        match self.merge_known(alloc, value) {
            Ok(()) => Ok(()),
            Err(error) => {
                self.definitions.take_out(added);
                Err(error)
            }
        }
    }

    // Merges what an import left whose definitions are known.
    fn merge_known(&mut self, alloc: Global, value: &ImportValue) -> Result<(), MergeError>
        ensures ok { OnOk result (merged_known value.now self.old ≡ Ok self.new) }
        ensures conflict { IfErr result
            (λ e. IfSome (conflict_of e) (λ name. merged_known value.now self.old ≡ Err name)) }
        ensures err { OnErr result (self.new ≡ self.old) }
    {
        if let Some(name) = self.conflict(value) {
            return Err(MergeError::Conflict(name.copy(alloc)?));
        }
        self.scopes.merge(alloc, value.scope())?;
        Ok(())
    }

    /// What the execution of a file leaves to those that import it: the names of the innermost scope that don't begin
    /// with `_`, and all definitions of templates that are known. No value is copied.
    #[tactic(auto, unfolding(gn_environment::specs::Imports::import_left))]
    pub fn import_value(self, alloc: Global) -> Result<ImportValue, AllocError>
        ensures { IfOk result (λ value. value ≡ import_left self) }
    {
        import_left(
            alloc,
            self.scopes,
            self.execution,
            self.made,
            self.definitions,
        )
    }

    /// What the finished build configuration leaves for the files beneath which it stands: all names of the innermost scope, and
    /// all definitions of templates that are known. No value is copied.
    #[tactic(auto, unfolding(gn_environment::specs::Imports::configuration_left))]
    pub fn configuration_value(self, alloc: Global) -> Result<ImportValue, AllocError>
        ensures { IfOk result (λ value. value ≡ configuration_left self) }
    {
        configuration_left(
            alloc,
            self.scopes,
            self.execution,
            self.made,
            self.definitions,
        )
    }

    // The first name at which the innermost scope has something else than the import.
    fn conflict<'a>(&self, value: &'a ImportValue) -> Option<&'a Text>
        ensures { option_map (λ n. n.now) result
            ≡ conflict_in value.now self.now self.now.chain.inner }
    {
        let invoker = self.invoker_brought(value.scope().variables());
        lesser(invoker, self.other(value.scope()))
    }

    // The first of the names of a scope at which the innermost scope has another variable, template or defaults.
    fn other<'a>(&self, scope: &'a KeptScope) -> Option<&'a Text>
        ensures { option_map (λ n. n.now) result
            ≡ lesser (first_name (other_value self.now.chain.inner) scope.now.variables)
            (lesser (first_name (other_template self.now self.now.chain.inner) scope.now.templates)
            (first_name (other_defaults self.now.chain.inner) scope.now.defaults)) }
    {
        let variable = self.scopes.other_value(scope.variables());
        let template = self.other_template(scope.templates());
        let defaults = self.scopes.innermost().other_defaults(scope.defaults());
        lesser(variable, lesser(template, defaults))
    }

    // The name of the invoker, where these bring it into the scope in which the invoker stands.
    fn invoker_brought<'a>(&self, values: &'a Bindings) -> Option<&'a Text>
        ensures { option_map (λ n. n.now) result ≡ first_name (invoker_brought self.now) values.now }
    {
        for entry in values.as_slice() {
            if self.is_invoker_here(&entry.name) {
                return Some(&entry.name);
            }
        }
        None
    }

    // The first of these names, in their order, at which the innermost scope has a template with another definition.
    fn other_template<'a>(&self, templates: &'a BTreeMap<Text, DefinitionName>) -> Option<&'a Text>
        ensures { option_map (λ n. n.now) result
            ≡ first_name (other_template self.now self.now.chain.inner) templates.now.entries }
    {
        for (name, definition) in templates {
            if self.has_other_template(name, definition) {
                return Some(name);
            }
        }
        None
    }

    // Whether the innermost scope has the name with another definition.
    fn has_other_template(&self, name: &Text, definition: &DefinitionName) -> bool
        ensures { result
            ≡ other_template self.now self.now.chain.inner (name.now, definition.now) }
    {
        match self.scopes.innermost().templates().get(name) {
            Some(own) => !same_definition(self.definition(own), self.definition(definition)),
            None => false,
        }
    }
}

// What is left of these layers, with the definitions that are known, among them those that the execution made.
fn import_left(
    alloc: Global,
    scopes: NamedScopes,
    execution: Text,
    made: Definitions,
    definitions: MadeBy,
) -> Result<ImportValue, AllocError>
    ensures { IfOk result (λ value. value
        ≡ record { scope = scope_left scopes.inner; definitions = with_name execution made definitions }) }
{
    let definitions = with_made(alloc, execution, made, definitions)?;
    let scope = scope_left(alloc, scopes)?;
    ImportValue::new(alloc, scope, definitions)
}

// What a finished build configuration leaves of these layers, with the definitions that are known, among them those that the
// execution made.
fn configuration_left(
    alloc: Global,
    scopes: NamedScopes,
    execution: Text,
    made: Definitions,
    definitions: MadeBy,
) -> Result<ImportValue, AllocError>
    ensures { IfOk result (λ value. value
        ≡ record { scope = whole_scope scopes.inner; definitions = with_name execution made definitions }) }
{
    let definitions = with_made(alloc, execution, made, definitions)?;
    let scope = whole_scope(alloc, scopes)?;
    ImportValue::new(alloc, scope, definitions)
}

// All that stands in the innermost of these layers.
fn whole_scope(alloc: Global, scopes: NamedScopes) -> Result<KeptScope, AllocError>
    ensures { IfOk result (λ scope. scope ≡ whole_scope scopes.inner) }
{
    let mut scopes = scopes;
    scopes.leave_whole(alloc)
}

// The scope that is left of these layers.
fn scope_left(alloc: Global, scopes: NamedScopes) -> Result<KeptScope, AllocError>
    ensures { IfOk result (λ scope. scope ≡ scope_left scopes.inner) }
{
    let mut scopes = scopes;
    scopes.leave_public(alloc)
}

// The definitions that are known, and those that the execution made.
fn with_made(
    alloc: Global,
    execution: Text,
    made: Definitions,
    definitions: MadeBy,
) -> Result<MadeBy, AllocError>
    ensures { IfOk result (λ known. known ≡ with_name execution made definitions) }
{
    let mut definitions = definitions;
    definitions.set(execution, Arc::new(alloc, made)?)?;
    Ok(definitions)
}

// Of two names the lesser one, by their bytes.
fn lesser<'a>(first: Option<&'a Text>, second: Option<&'a Text>) -> Option<&'a Text>
    ensures { option_map (λ n. n.now) result
        ≡ lesser (option_map (λ n. n.now) first.entry) (option_map (λ n. n.now) second.entry) }
{
    match (first, second) {
        (Some(first), Some(second)) => {
            if *second < *first {
                Some(second)
            } else {
                Some(first)
            }
        }
        (Some(first), None) => Some(first),
        (None, second) => second,
    }
}
