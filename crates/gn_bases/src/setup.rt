// What is known of a build before it is loaded.

ghost use Rattle.std.specs.Prelude.{◌≡◌, [], ◌∷◌, IfOk, OnOk, map};
ghost use Rattle.std.specs.BTreeMap.{IsOrdered};
ghost use Rattle.std.specs.Ordering.{nat_cmp};
ghost use Rattle.std.specs.Cmp.Lexicographic.{slice_cmp};
ghost use Rattle.gn_values.specs.Tables.{with_name, with_names};
ghost use Rattle.gn_values.specs.View.{entry_of};
ghost use Rattle.gn_answers.specs.Answers.{content_view};
ghost use Rattle.gn_bases.specs.Setups.{contents_known, given_context, given_base};

use crate::keeping::beside;
use gn_answers::FileContent;
use gn_dotfile::Dotfile;
use gn_environment::Context;
use gn_evaluation_base::Base;
use gn_executions::HostNames;
use gn_faults::Stage;
use gn_paths::{Path, Text};
use gn_values::{Entry, Overrides};
use std::alloc::{AllocError, Global};
use std::collections::BTreeMap;
use std::marker::Model;
use std::sync::Arc;

/// What was read before a build is loaded, by paths.
pub type Known = BTreeMap<Path, FileContent>;

/// What a build is loaded from, besides its files.
#[derive(Drop)]
pub struct Given {
    /// What the dotfile says.
    pub dotfile: Dotfile,
    /// The values that build arguments are given, which win over those of the dotfile.
    pub arguments: Overrides,
    /// The build directory.
    pub build_directory: Path,
    /// What the host calls its system and its processor.
    pub host: HostNames,
    /// The source root, as the host names it.
    pub source_root: Text,
    /// What was read before.
    pub known: Known,
}

/// What is known of a build before it is loaded. Several may have it at once: a copy copies nothing of it. Contracts see what is given.
#[derive(Drop)]
pub struct Setup {
    given: Arc<Given>,
}

impl Model for Setup {
    ghost use Rattle.gn_bases.specs.declared.setup.Given.{Given};
    ghost use Rattle.gn_bases.specs.contracts.setup.Given.{the_row};

    ghost Value = { Given };

    ghost coded = { the_row.coded };

    ghost view = { λ s. s.given.value };
}

// Gives a name its value, in place of the one that it had.
fn set_copy(alloc: Global, overrides: &mut Overrides, entry: &Entry) -> Result<(), AllocError>
    ensures { OnOk result (overrides.new ≡ with_names (entry_of entry.now ∷ []) overrides.old) }
{
    let name = entry.name.copy(alloc)?;
    let (name, value) = beside(name, entry.value.copy(alloc))?;
    overrides.set(name, value)
}

// Gives names their values, in place of those that they had.
fn set_all(alloc: Global, overrides: &mut Overrides, entries: &[Entry]) -> Result<(), AllocError>
    ensures { OnOk result (overrides.new ≡ with_names (map entry_of entries.now) overrides.old) }
{
    for entry in entries {
        set_copy(alloc, overrides, entry)?;
    }
    Ok(())
}

/// The values of build arguments, with others that win over them.
pub(crate) fn overridden(
    alloc: Global,
    overrides: &Overrides,
    entries: &[Entry],
) -> Result<Overrides, AllocError>
    ensures { IfOk result (λ o. o ≡ with_names (map entry_of entries.now) overrides.now) }
{
    let mut overrides = overrides.copy(alloc)?;
    match set_all(alloc, &mut overrides, entries) {
        Ok(()) => Ok(overrides),
        Err(error) => {
            drop(overrides);
            Err(error)
        }
    }
}

// The values of build arguments: those that are given win over those of the dotfile.
fn overrides_of(alloc: Global, given: &Given) -> Result<Overrides, AllocError>
    ensures { IfOk result (λ o. o ≡ with_names given.now.arguments given.now.dotfile.arguments) }
{
    overridden(alloc, &given.dotfile.arguments, given.arguments.as_slice())
}

// What the build configuration of the default toolchain and what it imports have in common.
fn context_of(alloc: Global, given: &Given) -> Result<Context, AllocError>
    ensures { IfOk result (λ c. c ≡ given_context given.now) }
{
    let directory = given.build_directory.copy(alloc)?;
    let root = beside(directory, given.source_root.copy(alloc))?;
    let all = beside(root, overrides_of(alloc, given))?;
    let ((build_directory, source_root), overrides) = all;
    Ok(Context {
        stage: Stage::Loading,
        toolchain: Text::new(alloc),
        fault_toolchain: Text::new(alloc),
        default_toolchain: Text::new(alloc),
        build_directory,
        source_root,
        overrides,
    })
}

// A new path equal to another one, if there is one.
fn copy_path(alloc: Global, path: &Option<Path>) -> Result<Option<Path>, AllocError>
    ensures { IfOk result (λ p. p ≡ path.now) }
{
    match path {
        Some(path) => Ok(Some(path.copy(alloc)?)),
        None => Ok(None),
    }
}

// The same, which several may have at once.
fn shared_context_of(alloc: Global, given: &Given) -> Result<Arc<Context>, AllocError>
    ensures { IfOk result (λ c. c.value ≡ given_context given.now) }
{
    Ok(Arc::new(alloc, context_of(alloc, given)?)?)
}

// New names of the host equal to others.
fn copy_host(alloc: Global, host: &HostNames) -> Result<HostNames, AllocError>
    ensures { IfOk result (λ h. h ≡ host.now) }
{
    let os = host.os.copy(alloc)?;
    let (os, cpu) = beside(os, host.cpu.copy(alloc))?;
    Ok(HostNames { os, cpu })
}

// The base with which the build starts.
fn base_of(alloc: Global, given: &Given) -> Result<Base, AllocError>
    ensures { IfOk result (λ base. base ≡ given_base given.now) }
{
    let context = shared_context_of(alloc, given)?;
    let host = beside(context, copy_host(alloc, &given.host))?;
    let configuration = beside(host, given.dotfile.configuration.copy(alloc))?;
    let all = beside(configuration, copy_path(alloc, &given.dotfile.secondary))?;
    let (((context, host), configuration), secondary) = all;
    Base::of_configuration(alloc, context, host, configuration, secondary)
}

// Puts a path with what there is into a map; what was there at the path before is dropped.
fn put(known: &mut Known, path: Path, content: FileContent) -> Result<(), AllocError>
    ensures { OnOk result (contents_known known.new.entries ≡ with_name path (content_view content) (contents_known known.old.entries)) }
{
    let _former = known.insert(path, content)?;
    Ok(())
}

// The same of a new path, and of content that both share.
fn put_shared(
    alloc: Global,
    known: &mut Known,
    path: &Path,
    content: &FileContent,
) -> Result<(), AllocError>
    ensures { OnOk result (contents_known known.new.entries ≡ with_name path.now (content_view content.now) (contents_known known.old.entries)) }
{
    let path = path.copy(alloc)?;
    let (path, content) = beside(path, content.copy())?;
    put(known, path, content)
}

// The same of all that another map has.
fn put_all(alloc: Global, known: &mut Known, others: &Known) -> Result<(), AllocError>
    ensures all { OnOk result (contents_known known.new.entries ≡ with_names (contents_known others.now.entries) (contents_known known.old.entries)) }
    ensures ordered { IsOrdered (slice_cmp nat_cmp) others.now }
{
    for (path, content) in others {
        put_shared(alloc, known, path, content)?;
    }
    Ok(())
}

// A map with the same contents, which both share.
fn share_known(alloc: Global, known: &Known) -> Result<Known, AllocError>
    ensures same { IfOk result (λ k. contents_known k.entries ≡ contents_known known.now.entries) }
    ensures ordered { IsOrdered (slice_cmp nat_cmp) known.now }
{
    let mut shared: Known = BTreeMap::new(alloc);
    put_all(alloc, &mut shared, known)?;
    Ok(shared)
}

impl Setup {
    /// What is known of a build that is given this.
    pub fn new(alloc: Global, given: Given) -> Result<Setup, AllocError>
        ensures { IfOk result (λ setup. setup ≡ given) }
    {
        Ok(Setup {
            given: Arc::new(alloc, given)?,
        })
    }

    /// What is given. It takes no memory.
    pub fn given(&self) -> &Given
        ensures { result.now ≡ self.now }
    {
        &self.given
    }

    /// The same once more. Nothing of it is copied.
    pub fn copy(&self) -> Result<Setup, AllocError>
        ensures { IfOk result (λ setup. setup ≡ self.now) }
    {
        Ok(Setup {
            given: self.given.clone()?,
        })
    }

    /// The base of the build configuration, and of the files that it imports.
    pub fn base(&self, alloc: Global) -> Result<Base, AllocError>
        ensures { IfOk result (λ base. base ≡ given_base self.now) }
    {
        base_of(alloc, self.given())
    }

    /// A map of what was read before, whose contents both share.
    pub fn share_known(&self, alloc: Global) -> Result<Known, AllocError>
        ensures same { IfOk result (λ k. contents_known k.entries ≡ contents_known self.now.known.entries) }
        ensures ordered { IsOrdered (slice_cmp nat_cmp) self.now.known }
    {
        share_known(alloc, &self.given().known)
    }
}
