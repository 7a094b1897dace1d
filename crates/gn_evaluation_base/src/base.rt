// What an evaluation sees besides what it asks of its library.

ghost use Rattle.std.specs.Prelude.{◌≡◌, [], ◌∷◌, IfOk, map, option_map};
ghost use Rattle.gn_values.specs.Tables.{with_new_names};
ghost use Rattle.gn_executions.specs.Base.{plain_base, setup_base, finished_base, beneath_in};
ghost use Rattle.gn_evaluation_base.specs.BuiltIn.{host_of, IsUnder};

use crate::built_in::BuiltIn;
use gn_definitions::{ImportValue, KeptScope, MadeBy};
use gn_environment::Context;
use gn_executions::HostNames;
use gn_faults::Stage;
use gn_paths::{Path, Text};
use gn_values::Bindings;
use std::alloc::{AllocError, Global};
use std::marker::Model;
use std::sync::Arc;

/// What an evaluation sees besides what it asks of its library: what never changes in the evaluations under its toolchain,
/// and what stands beneath them, as what the finished build configuration has left and the built-in variables. Evaluations share
/// all of it but these variables, of which two depend on the directory of the file: the others are made once, and copied.
#[derive(Drop)]
pub struct Base {
    context: Arc<Context>,
    beneath: Vec<Arc<KeptScope>>,
    definitions: Arc<MadeBy>,
    built_in: Option<BuiltIn>,
    configuration: Path,
    secondary: Option<Path>,
}

impl Model for Base {
    ghost use Rattle.std.specs.Prelude.{map};
    ghost use Rattle.gn_executions.specs.Base.{BaseState, base_code};
    ghost use Rattle.gn_evaluation_base.specs.BuiltIn.{host_of, IsUnder};

    ghost Value = { BaseState };

    ghost coded = { base_code };

    ghost view = { λ a. record { context = a.context.value; beneath = map (λ f. f.value) a.beneath.items; definitions = a.definitions.value; host = host_of a.built_in; configuration = a.configuration; secondary = a.secondary } };

    ghost invariant = { λ a. IsUnder a.context.value a.built_in };
}

// A new path equal to another one, if there is one.
fn copy_path(alloc: Global, path: &Option<Path>) -> Result<Option<Path>, AllocError>
    ensures { IfOk result (λ p. p ≡ path.now) }
{
    match path {
        Some(path) => Ok(Some(path.copy(alloc)?)),
        None => Ok(None),
    }
}

// What the built-in variables have in common under the toolchain of another context, on the same host.
fn built_in_under(
    alloc: Global,
    built_in: &Option<BuiltIn>,
    context: &Context,
) -> Result<Option<BuiltIn>, AllocError>
    ensures under { IfOk result (λ b. IsUnder context.now b) }
    ensures host { IfOk result (λ b. host_of b ≡ host_of built_in.now) }
{
    match built_in {
        Some(built_in) => Ok(Some(built_in.under(alloc, context)?)),
        None => Ok(None),
    }
}

// The same definitions of templates, in a table of their own.
fn share_definitions(alloc: Global, made: &MadeBy) -> Result<MadeBy, AllocError>
    ensures { IfOk result (λ d. d ≡ with_new_names made.now []) }
{
    let mut definitions = MadeBy::new(alloc);
    let _added = definitions.add(alloc, made)?;
    Ok(definitions)
}

/// One scope.
pub fn one_scope(alloc: Global, scope: Arc<KeptScope>) -> Result<Vec<Arc<KeptScope>>, AllocError>
    ensures { IfOk result (λ b. map (λ f. f.value) b.items ≡ scope.value ∷ []) }
{
    let mut scopes = Vec::new(alloc);
    scopes.push(scope)?;
    Ok(scopes)
}

// What the build configuration has left, as it stands beneath: its scope, and the definitions of its templates.
fn share_left(
    alloc: Global,
    left: &ImportValue,
) -> Result<(Vec<Arc<KeptScope>>, Arc<MadeBy>), AllocError>
    ensures { IfOk result (λ r. (map (λ f. f.value) r.0.items ≡ left.now.scope ∷ []) × (r.1.value ≡ with_new_names left.now.definitions [])) }
{
    let definitions = Arc::new(alloc, share_definitions(alloc, left.definitions())?)?;
    let beneath = one_scope(alloc, left.shared_scope()?)?;
    Ok((beneath, definitions))
}

impl Base {
    /// The base of the build configuration, and of the files that it imports: they share this context, and nothing stands beneath
    /// them but the built-in variables, of which some are the host's. The build configuration stands at a path, or where nothing
    /// is there, at the same path below the secondary source tree.
    pub fn of_configuration(
        alloc: Global,
        context: Arc<Context>,
        host: HostNames,
        configuration: Path,
        secondary: Option<Path>,
    ) -> Result<Base, AllocError>
        ensures { IfOk result (λ base. base ≡ setup_base context.value host configuration secondary) }
    {
        let built_in = Some(BuiltIn::new(alloc, host, &context)?);
        let definitions = Arc::new(alloc, MadeBy::new(alloc))?;
        Ok(Base {
            context,
            beneath: Vec::new(alloc),
            definitions,
            built_in,
            configuration,
            secondary,
        })
    }

    // What doesn't change where the toolchain does: the host, by what the built-in variables have in common under the toolchain of
    // another context, the path of the build configuration and the secondary source tree.
    fn copy_names(
        &self,
        alloc: Global,
        context: &Context,
    ) -> Result<(Option<BuiltIn>, Path, Option<Path>), AllocError>
        ensures under { IfOk result (λ n. IsUnder context.now n.0) }
        ensures host { IfOk result (λ n. host_of n.0 ≡ self.now.host) }
        ensures configuration { IfOk result (λ n. n.1 ≡ self.now.configuration) }
        ensures secondary { IfOk result (λ n. n.2 ≡ self.now.secondary) }
    {
        let configuration = self.configuration.copy(alloc)?;
        let secondary = copy_path(alloc, &self.secondary)?;
        let built_in = built_in_under(alloc, &self.built_in, context)?;
        Ok((built_in, configuration, secondary))
    }

    /// The base of the other files under a toolchain whose build configuration has left this: it stands beneath them, and they
    /// share a context in which the toolchain is known. Nothing of what was left is copied but the names of executions.
    pub fn finished(
        &self,
        alloc: Global,
        context: Arc<Context>,
        left: &ImportValue,
    ) -> Result<Base, AllocError>
        ensures { IfOk result (λ base. base ≡ finished_base self.now context.value left.now) }
    {
        let (beneath, definitions) = share_left(alloc, left)?;
        let (built_in, configuration, secondary) = self.copy_names(alloc, &context)?;
        Ok(Base {
            context,
            beneath,
            definitions,
            built_in,
            configuration,
            secondary,
        })
    }

    /// The base with another context, which shares all else with this one: that of the build configuration of another toolchain.
    pub fn with_context(&self, alloc: Global, context: Arc<Context>) -> Result<Base, AllocError>
        ensures { IfOk result (λ base. base ≡ record self.now { context = context.value }) }
    {
        let definitions = self.definitions.clone()?;
        let beneath = shared(alloc, &self.beneath)?;
        let (built_in, configuration, secondary) = self.copy_names(alloc, &context)?;
        Ok(Base {
            context,
            beneath,
            definitions,
            built_in,
            configuration,
            secondary,
        })
    }

    /// The base of a build that has no build configuration: its one toolchain is the empty text, no argument is given, and
    /// nothing stands beneath, not even the built-in variables.
    pub fn plain(alloc: Global) -> Result<Base, AllocError>
        ensures { IfOk result (λ base. base ≡ plain_base) }
    {
        let build_directory = Path::root(alloc)?;
        let context = Context {
            stage: Stage::Loading,
            toolchain: Text::new(alloc),
            fault_toolchain: Text::new(alloc),
            default_toolchain: Text::new(alloc),
            build_directory,
            source_root: Text::new(alloc),
            overrides: Bindings::new(alloc),
        };
        Ok(Base {
            context: Arc::new(alloc, context)?,
            beneath: Vec::new(alloc),
            definitions: Arc::new(alloc, MadeBy::new(alloc))?,
            built_in: None,
            configuration: Path::root(alloc)?,
            secondary: None,
        })
    }

    /// What never changes in the evaluations.
    pub fn context(&self) -> &Context
        ensures { result.now ≡ self.now.context }
    {
        &self.context
    }

    /// The same, shared.
    pub fn share_context(&self) -> Result<Arc<Context>, AllocError>
        ensures { IfOk result (λ context. context.value ≡ self.now.context) }
    {
        Ok(self.context.clone()?)
    }

    /// The path of the build configuration.
    pub fn configuration(&self) -> &Path
        ensures { result.now ≡ self.now.configuration }
    {
        &self.configuration
    }

    /// The source tree in which files are looked for that the source root lacks, if there is one.
    pub fn secondary(&self) -> Option<&Path>
        ensures { option_map (λ p. p.now) result ≡ self.now.secondary }
    {
        self.secondary.as_ref()
    }

    // The scopes that stand beneath a file of this directory: what the build configuration has left, shared with the base, and
    // the built-in variables.
    fn share_beneath(
        &self,
        alloc: Global,
        directory: &Path,
    ) -> Result<Vec<Arc<KeptScope>>, AllocError>
        ensures { IfOk result (λ b. map (λ f. f.value) b.items ≡ beneath_in self.now directory.now) }
    {
        let mut beneath = shared(alloc, &self.beneath)?;
        if let Some(built_in) = &self.built_in {
            beneath.push(built_in.scope_in(alloc, directory)?)?;
        }
        Ok(beneath)
    }

    /// What an evaluation of a file of this directory shares with the base: the context, the scopes that stand beneath, and the
    /// definitions of the templates that stand there.
    pub fn share(
        &self,
        alloc: Global,
        directory: &Path,
    ) -> Result<(Arc<Context>, Vec<Arc<KeptScope>>, MadeBy), AllocError>
        ensures context { IfOk result (λ s. s.0.value ≡ self.now.context) }
        ensures beneath { IfOk result (λ s. map (λ f. f.value) s.1.items ≡ beneath_in self.now directory.now) }
        ensures definitions { IfOk result (λ s. s.2 ≡ with_new_names self.now.definitions []) }
    {
        let context = self.context.clone()?;
        let beneath = self.share_beneath(alloc, directory)?;
        let definitions = share_definitions(alloc, &self.definitions)?;
        Ok((context, beneath, definitions))
    }
}

// The same scopes, shared.
fn shared(alloc: Global, scopes: &[Arc<KeptScope>]) -> Result<Vec<Arc<KeptScope>>, AllocError>
    ensures { IfOk result (λ b. map (λ f. f.value) b.items ≡ map (λ f. f.value) scopes.now) }
{
    let mut copies = Vec::new(alloc);
    for scope in scopes {
        copies.push(scope.clone()?)?;
    }
    Ok(copies)
}
