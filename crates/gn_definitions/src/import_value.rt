// What an import leaves.

ghost use Rattle.std.specs.Prelude.{◌≡◌, [], IfOk, OnOk, OnErr, option_map};
ghost use Rattle.gn_values.specs.Tables.{at_name, with_name, with_new_name, with_new_names, without_name};
ghost use Rattle.gn_definitions.specs.TakenOut.{without_names};

use crate::kept::{Definitions, KeptScope};
use gn_paths::Text;
use std::alloc::{AllocError, Global};
use std::collections::BTreeMap;
use std::marker::Model;
use std::sync::Arc;

/// Definitions of templates by the execution that made them. They are shared: no call copies one.
#[derive(Drop)]
pub struct MadeBy {
    executions: BTreeMap<Text, Arc<Definitions>>,
}

impl Model for MadeBy {
    ghost use Rattle.std.specs.Prelude.{map};
    ghost use Rattle.gn_definitions.specs.Imported.{MadeBy as MadeByState};
    ghost use Rattle.gn_definitions.specs.ImportedCode.{made_code};

    ghost Value = { MadeByState };

    ghost coded = { made_code };

    ghost view = { λ a. map (λ e. (e.0, e.1.value)) a.executions.entries };
}

impl MadeBy {
    /// No definitions. It takes no memory.
    pub fn new(alloc: Global) -> MadeBy
        ensures { result ≡ [] }
    {
        MadeBy {
            executions: BTreeMap::new(alloc),
        }
    }

    /// The definitions that an execution made. None comes exactly where the execution isn't known.
    pub fn get(&self, execution: &Text) -> Option<&Definitions>
        ensures { option_map (λ d. d.now) result ≡ at_name execution.now self.now }
    {
        match self.executions.get(execution) {
            Some(definitions) => Some(definitions),
            None => None,
        }
    }

    /// Sets the definitions that an execution made. After want of memory nothing is changed.
    pub fn set(&mut self, execution: Text, definitions: Arc<Definitions>) -> Result<(), AllocError>
        ensures ok { OnOk result (self.new ≡ with_name execution definitions.value self.old) }
        ensures err { OnErr result (self.new ≡ self.old) }
    {
        self.executions.insert(execution, definitions)?;
        Ok(())
    }

    /// Sets the definitions of others for the executions that these don't know, and gives the names of those, in order:
    /// without them it is as before. No definition is copied. After want of memory nothing is changed. The work is
    /// n log n in the executions, where n counts those of the others and the logarithm is of all.
    pub fn add(&mut self, alloc: Global, others: &MadeBy) -> Result<Vec<Text>, AllocError>
        ensures ok { IfOk result (λ _. self.new ≡ with_new_names others.now self.old) }
        ensures back { IfOk result (λ added. without_names added.items self.new ≡ self.old) }
        ensures err { OnErr result (self.new ≡ self.old) }
    {
        let mut added = Vec::new(alloc);
        match self.add_each(alloc, others, &mut added) {
            Ok(()) => Ok(added),
            Err(error) => {
                self.take_out(added);
                Err(error)
            }
        }
    }

    /// Takes out what these executions made, from the last one to the first. It takes no memory.
    pub fn take_out(&mut self, added: Vec<Text>)
        ensures { self.new ≡ without_names added.items self.old }
    {
        let mut added = added;
        while let Some(execution) = added.pop() {
            self.remove(&execution);
        }
    }

    // Takes out what an execution made.
    fn remove(&mut self, execution: &Text)
        ensures { self.new ≡ without_name execution.now self.old }
    {
        let _gone = self.executions.remove(execution);
    }

    // Sets the definitions of others for the executions that these don't know, and puts the names of those behind
    // `added`.
    fn add_each(
        &mut self,
        alloc: Global,
        others: &MadeBy,
        added: &mut Vec<Text>,
    ) -> Result<(), AllocError>
        ensures ok { OnOk result (self.new ≡ with_new_names others.now self.old) }
        ensures back { without_names added.new.items self.new
            ≡ without_names added.old.items self.old }
    {
        for (execution, definitions) in &others.executions {
            self.add_new(alloc, execution, definitions, added)?;
        }
        Ok(())
    }

    // Sets the definitions of an execution unless it is known, and then puts its name behind `added`.
    fn add_new(
        &mut self,
        alloc: Global,
        execution: &Text,
        definitions: &Arc<Definitions>,
        added: &mut Vec<Text>,
    ) -> Result<(), AllocError>
        ensures ok { let known = at_name execution.now self.old in OnOk result (self.new
            ≡ with_new_name execution.now definitions.now.value known self.old) }
        ensures back { without_names added.new.items self.new
            ≡ without_names added.old.items self.old }
    {
        if self.get(execution).is_some() {
            return Ok(());
        }
        added.reserve(1)?;
        let name = execution.copy(alloc)?;
        self.set_copies(alloc, execution, definitions)?;
        added.push_reserved(name);
        Ok(())
    }

    // Sets the definitions of an execution, by copies of its name and of the reference to them. After want of memory
    // nothing is changed.
    fn set_copies(
        &mut self,
        alloc: Global,
        execution: &Text,
        definitions: &Arc<Definitions>,
    ) -> Result<(), AllocError>
        ensures ok { OnOk result
            (self.new ≡ with_name execution.now definitions.now.value self.old) }
        ensures err { OnErr result (self.new ≡ self.old) }
    {
        let name = execution.copy(alloc)?;
        let shared = definitions.clone()?;
        self.set(name, shared)
    }
}

/// What an import leaves: the scope of the file, and the definitions that the templates of scopes name. A copy shares
/// the scope and the definitions.
#[derive(Drop)]
pub struct ImportValue {
    scope: Arc<KeptScope>,
    definitions: Arc<MadeBy>,
}

impl Model for ImportValue {
    ghost use Rattle.gn_definitions.specs.Imported.{ImportState};
    ghost use Rattle.gn_definitions.specs.ImportedCode.{import_code};

    ghost Value = { ImportState };

    ghost coded = { import_code };

    ghost view = { λ a. record { scope = a.scope.value; definitions = a.definitions.value } };
}

impl ImportValue {
    /// What an import leaves that ends with this scope and these definitions.
    pub fn new(
        alloc: Global,
        scope: KeptScope,
        definitions: MadeBy,
    ) -> Result<ImportValue, AllocError>
        ensures { IfOk result (λ r. r ≡ record { scope = scope; definitions = definitions }) }
    {
        let scope = Arc::new(alloc, scope)?;
        Ok(ImportValue {
            scope,
            definitions: Arc::new(alloc, definitions)?,
        })
    }

    /// The variables, the templates by the names of their definitions, and the defaults.
    pub fn scope(&self) -> &KeptScope
        ensures { result.now ≡ self.now.scope }
    {
        &self.scope
    }

    /// The same, shared.
    pub fn shared_scope(&self) -> Result<Arc<KeptScope>, AllocError>
        ensures { IfOk result (λ s. s.value ≡ self.now.scope) }
    {
        Ok(self.scope.clone()?)
    }

    /// The definitions of templates.
    pub fn definitions(&self) -> &MadeBy
        ensures { result.now ≡ self.now.definitions }
    {
        &self.definitions
    }

    /// A new value equal to this one, which shares everything with it.
    pub fn copy(&self) -> Result<ImportValue, AllocError>
        ensures { IfOk result (λ r. r ≡ self.now) }
    {
        let scope = self.scope.clone()?;
        let definitions = self.definitions.clone()?;
        Ok(ImportValue { scope, definitions })
    }
}
