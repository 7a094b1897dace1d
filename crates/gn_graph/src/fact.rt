// What may hold while a build is loaded.

ghost use Rattle.std.specs.Prelude.{◌≡◌, IfOk};
ghost use Rattle.gn_closure.specs.Reach.{Setup, Load, label};
ghost use Rattle.gn_closure.specs.Ground.{Asked, Used, Defined, Set_up};
ghost use Rattle.gn_graph.specs.Facts.{step_of, unit_of, place_of, meant};
ghost use Rattle.gn_closure.specs.Computed.{is_reached, is_wanted, is_generated};

use crate::home::home;
use crate::unit_key::{UnitKey, setup_key};
use gn_labels::Label;
use gn_paths::{Path, Text};
use std::alloc::{AllocError, Global};

/// What may hold while a build is loaded.
#[derive(Drop, PartialEq, Eq, Hash)]
pub enum Fact {
    /// A unit is reached.
    Reached(UnitKey),
    /// A directory's build file is wanted under a toolchain.
    Wanted(Path, Text),
    /// A label's target is generated.
    Generated(Label),
    /// A generated target depends on a label.
    Asked(Label),
    /// A generated target has a toolchain.
    Used(Text),
    /// The file that defines a toolchain is reached, and defines it.
    Defined(Text),
    /// The build configuration of a toolchain is done; the default toolchain has the empty text.
    SetUp(Text),
}

/// Names a directory by a reference.
#[derive(Clone, Copy)]
pub(crate) enum Place<'a> {
    /// The directory itself.
    Dir(&'a Path),
    /// The directory of the file that defines the toolchain.
    Home(&'a Text),
    /// The source root.
    Root,
}

impl Place<'_> {
    /// The directory that is named.
    #[tactic(auto, unfolding(gn_closure::specs::Reach::source_root))]
    pub(crate) fn path(self, alloc: Global) -> Result<Path, AllocError>
        ensures { IfOk result (λ dir. dir ≡ place_of self.entry) }
    {
        match self {
            Place::Dir(dir) => dir.copy(alloc),
            Place::Home(toolchain) => home(alloc, toolchain),
            Place::Root => Path::root(alloc),
        }
    }
}

/// Names a fact by references.
#[derive(Clone, Copy)]
pub(crate) enum Mention<'a> {
    /// The unit is reached.
    Reached(&'a UnitKey),
    /// The build configuration of the toolchain is reached.
    ReachedSetup(&'a Text),
    /// That of the default toolchain is reached.
    ReachedFirst,
    /// The build file of the directory is reached under the toolchain.
    ReachedLoad(Place<'a>, &'a Text),
    /// The directory's build file is wanted under the toolchain.
    Wanted(Place<'a>, &'a Text),
    /// The target is generated: its directory, name and toolchain.
    Generated(&'a Path, &'a Text, &'a Text),
    /// A generated target depends on the label.
    Asked(&'a Label),
    /// The same of a directory, a name and a toolchain.
    AskedFor(&'a Path, &'a Text, &'a Text),
    /// A generated target has the toolchain.
    Used(&'a Text),
    /// The file that defines the toolchain is reached, and defines it.
    Defined(&'a Text),
    /// The build configuration of the toolchain is done.
    SetUp(&'a Text),
    /// That of the default toolchain is done.
    SetUpFirst,
}

impl Mention<'_> {
    /// The fact that is named.
    pub(crate) fn fact(self, alloc: Global) -> Result<Fact, AllocError>
        ensures { IfOk result (λ fact. step_of fact ≡ meant self.entry) }
    {
        match self {
            Mention::Reached(unit) => reached(alloc, unit),
            Mention::ReachedSetup(toolchain) => reached_setup(alloc, toolchain),
            Mention::ReachedFirst => reached_setup(alloc, &Text::new(alloc)),
            Mention::ReachedLoad(dir, toolchain) => reached_load(alloc, dir, toolchain),
            Mention::Wanted(dir, toolchain) => wanted(alloc, dir, toolchain),
            Mention::Generated(dir, name, toolchain) => generated(alloc, dir, name, toolchain),
            Mention::Asked(label) => asked(alloc, label),
            Mention::AskedFor(dir, name, toolchain) => asked_for(alloc, dir, name, toolchain),
            Mention::Used(toolchain) => used(alloc, toolchain),
            Mention::Defined(toolchain) => defined(alloc, toolchain),
            Mention::SetUp(toolchain) => set_up(alloc, toolchain),
            Mention::SetUpFirst => Ok(Fact::SetUp(Text::new(alloc))),
        }
    }
}

fn label_of(alloc: Global, dir: &Path, name: &Text, toolchain: &Text) -> Result<Label, AllocError>
    ensures { IfOk result (λ l. l ≡ label dir.now name.now toolchain.now) }
{
    let dir = dir.copy(alloc)?;
    let name = name.copy(alloc)?;
    let toolchain = toolchain.copy(alloc)?;
    Ok(Label {
        dir,
        name,
        toolchain,
    })
}

fn reached(alloc: Global, unit: &UnitKey) -> Result<Fact, AllocError>
    ensures { IfOk result (λ fact. step_of fact ≡ is_reached (unit_of unit.now)) }
{
    Ok(Fact::Reached(unit.copy(alloc)?))
}

fn reached_setup(alloc: Global, toolchain: &Text) -> Result<Fact, AllocError>
    ensures { IfOk result (λ fact. step_of fact ≡ is_reached (Setup toolchain.now)) }
{
    Ok(Fact::Reached(setup_key(alloc, toolchain)?))
}

fn reached_load(alloc: Global, dir: Place<'_>, toolchain: &Text) -> Result<Fact, AllocError>
    ensures { IfOk result (λ fact. step_of fact ≡ is_reached (Load (place_of dir.entry) toolchain.now)) }
{
    let dir = dir.path(alloc)?;
    let toolchain = toolchain.copy(alloc)?;
    Ok(Fact::Reached(UnitKey::Load(dir, toolchain)))
}

fn wanted(alloc: Global, dir: Place<'_>, toolchain: &Text) -> Result<Fact, AllocError>
    ensures { IfOk result (λ fact. step_of fact ≡ is_wanted (place_of dir.entry) toolchain.now) }
{
    let dir = dir.path(alloc)?;
    let toolchain = toolchain.copy(alloc)?;
    Ok(Fact::Wanted(dir, toolchain))
}

fn generated(alloc: Global, dir: &Path, name: &Text, toolchain: &Text) -> Result<Fact, AllocError>
    ensures { IfOk result (λ fact. step_of fact ≡ is_generated (label dir.now name.now toolchain.now)) }
{
    Ok(Fact::Generated(label_of(alloc, dir, name, toolchain)?))
}

fn asked(alloc: Global, label: &Label) -> Result<Fact, AllocError>
    ensures { IfOk result (λ fact. step_of fact ≡ Asked label.now) }
{
    Ok(Fact::Asked(label.copy(alloc)?))
}

fn asked_for(alloc: Global, dir: &Path, name: &Text, toolchain: &Text) -> Result<Fact, AllocError>
    ensures { IfOk result (λ fact. step_of fact ≡ Asked (label dir.now name.now toolchain.now)) }
{
    Ok(Fact::Asked(label_of(alloc, dir, name, toolchain)?))
}

fn used(alloc: Global, toolchain: &Text) -> Result<Fact, AllocError>
    ensures { IfOk result (λ fact. step_of fact ≡ Used toolchain.now) }
{
    Ok(Fact::Used(toolchain.copy(alloc)?))
}

fn defined(alloc: Global, toolchain: &Text) -> Result<Fact, AllocError>
    ensures { IfOk result (λ fact. step_of fact ≡ Defined toolchain.now) }
{
    Ok(Fact::Defined(toolchain.copy(alloc)?))
}

fn set_up(alloc: Global, toolchain: &Text) -> Result<Fact, AllocError>
    ensures { IfOk result (λ fact. step_of fact ≡ Set_up toolchain.now) }
{
    Ok(Fact::SetUp(toolchain.copy(alloc)?))
}
