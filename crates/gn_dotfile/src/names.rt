// The names of a dotfile, which are looked at in order.

ghost use Rattle.std.specs.Prelude.{◌≡◌, [], ◌∷◌, IfOk, option_map};
ghost use Rattle.gn_values.specs.View.{val_of};
ghost use Rattle.gn_executions.specs.Dotfile.{name_fault, left_out, source_path, path_of, configuration_of, arguments_of, secondary_of, executable_of, dotfile_of};
ghost use Rattle.gn_meaning.specs.Imports.{path_code};
ghost use Rattle.gn_dotfile.specs.Names.{IsNameFault, Says, names_state, none_left_out, first_names, last_names};

use gn_faults::Code;
use gn_paths::{Path, PathFault, Text, Texts, path_meant};
use gn_values::{Bindings, Overrides, Value};
use std::alloc::{AllocError, Global};

/// What the names of a dotfile say.
#[derive(Drop)]
pub struct DotfileNames {
    /// The path of the build configuration.
    pub configuration: Path,
    /// The values that build arguments are given.
    pub arguments: Overrides,
    /// The source tree in which files are looked for that the source root lacks, if there is one.
    pub secondary: Option<Path>,
    /// The program that runs scripts.
    pub executable: Text,
}

/// Why they say nothing.
#[derive(Drop)]
pub enum NameStop {
    /// The first name with a fault: its code, and what it shows.
    Wrong(Code, Texts),
    /// Want of memory.
    Memory,
}

impl From<AllocError> for NameStop {
    ghost use Rattle.std.specs.Prelude.{◌≡◌};
    ghost use Rattle.gn_dotfile.specs.declared.names.NameStop.TheVariants.{Memory};

    ghost from_gives = { λ _ e. e ≡ Memory };

    fn from(_: AllocError) -> NameStop {
        NameStop::Memory
    }
}

// One text.
fn shown(alloc: Global, name: &[u8]) -> Result<Texts, AllocError>
    ensures { IfOk result (λ t. t ≡ name.now ∷ []) }
{
    let mut texts = Texts::new(alloc);
    texts.push(Text::from_bytes(alloc, name)?)?;
    Ok(texts)
}

// A fault that shows the name.
fn name_fault(alloc: Global, code: Code, name: &[u8]) -> NameStop
    ensures { IsNameFault result (name_fault code name.now) }
{
    match shown(alloc, name) {
        Ok(texts) => NameStop::Wrong(code, texts),
        Err(_) => NameStop::Memory,
    }
}

// A name that this program leaves out must have no value.
fn left_out(alloc: Global, name: &[u8], value: Option<&Value>) -> Result<(), NameStop>
    ensures { Says (λ u. u) result (left_out name.now (option_map (λ v. val_of v.now) value.entry)) }
{
    match value {
        Some(_) => Err(name_fault(alloc, Code::Excluded, name)),
        None => Ok(()),
    }
}

// The code of a text that means no path.
fn path_code(fault: PathFault) -> Code
    ensures { result ≡ path_code fault }
{
    match fault {
        PathFault::AboveRoot => Code::AboveRoot,
        PathFault::BadPath => Code::BadPath,
    }
}

// A path has to be one of the source tree.
fn source_path(alloc: Global, path: Result<Path, PathFault>) -> Result<Path, NameStop>
    ensures { Says (λ p. p) result (source_path path) }
{
    match path {
        Ok(path) if path.is_system() => Err(NameStop::Wrong(Code::BadPath, Texts::new(alloc))),
        Ok(path) => Ok(path),
        Err(fault) => Err(NameStop::Wrong(path_code(fault), Texts::new(alloc))),
    }
}

// A string that is a path, from the source root.
fn path_of(alloc: Global, name: &[u8], value: &Value) -> Result<Path, NameStop>
    ensures { Says (λ p. p) result (path_of name.now (val_of value.now)) }
{
    let Value::Str(text) = value else {
        return Err(name_fault(alloc, Code::WrongType, name));
    };
    let path = path_meant(alloc, &Path::root(alloc)?, text.as_bytes())?;
    source_path(alloc, path)
}

// `buildconfig` has to be there.
fn configuration_of(alloc: Global, value: Option<&Value>) -> Result<Path, NameStop>
    ensures { Says (λ p. p) result (configuration_of (option_map (λ v. val_of v.now) value.entry)) }
{
    match value {
        Some(value) => path_of(alloc, b"buildconfig", value),
        None => Err(name_fault(alloc, Code::Missing, b"buildconfig")),
    }
}

// `default_args` is a scope, an empty one where it isn't there.
fn arguments_of(alloc: Global, value: Option<&Value>) -> Result<Overrides, NameStop>
    ensures { Says (λ a. a) result (arguments_of (option_map (λ v. val_of v.now) value.entry)) }
{
    match value {
        None => Ok(Bindings::new(alloc)),
        Some(Value::Scope(entries)) => Ok(entries.to_bindings()?),
        Some(_) => Err(name_fault(alloc, Code::WrongType, b"default_args")),
    }
}

// `secondary_source` is a directory.
fn secondary_of(alloc: Global, value: Option<&Value>) -> Result<Option<Path>, NameStop>
    ensures { Says (λ p. p) result (secondary_of (option_map (λ v. val_of v.now) value.entry)) }
{
    let Some(value) = value else {
        return Ok(None);
    };
    let path = path_of(alloc, b"secondary_source", value)?;
    Ok(Some(path.to_directory(alloc)?))
}

// `script_executable` is a string.
fn executable_of(alloc: Global, value: Option<&Value>) -> Result<Text, NameStop>
    ensures { Says (λ t. t) result (executable_of (option_map (λ v. val_of v.now) value.entry)) }
{
    match value {
        None => Ok(Text::from_bytes(alloc, b"python3")?),
        Some(Value::Str(text)) => Ok(text.copy(alloc)?),
        Some(_) => Err(name_fault(alloc, Code::WrongType, b"script_executable")),
    }
}

// Three names must have no value.
fn none_left_out(alloc: Global, entries: &Bindings) -> Result<(), NameStop>
    ensures { Says (λ u. u) result (none_left_out entries.now) }
{
    left_out(alloc, b"root", entries.get(b"root"))?;
    left_out(
        alloc,
        b"build_file_extension",
        entries.get(b"build_file_extension"),
    )?;
    left_out(
        alloc,
        b"arg_file_template",
        entries.get(b"arg_file_template"),
    )
}

// The build configuration, and the values that build arguments are given.
fn first_names(alloc: Global, entries: &Bindings) -> Result<(Path, Overrides), NameStop>
    ensures { Says (λ p. p) result (first_names entries.now) }
{
    let configuration = configuration_of(alloc, entries.get(b"buildconfig"))?;
    let arguments = arguments_of(alloc, entries.get(b"default_args"))?;
    Ok((configuration, arguments))
}

// The secondary source tree, and the program that runs scripts.
fn last_names(alloc: Global, entries: &Bindings) -> Result<(Option<Path>, Text), NameStop>
    ensures { Says (λ p. p) result (last_names entries.now) }
{
    let secondary = secondary_of(alloc, entries.get(b"secondary_source"))?;
    let executable = executable_of(alloc, entries.get(b"script_executable"))?;
    Ok((secondary, executable))
}

/// What the names of a dotfile say, with their values. `Wrong` has the first that is wrong: `root`, `build_file_extension` and
/// `arg_file_template` must have no value, then `buildconfig`, `default_args`, `secondary_source` and `script_executable` are looked
/// at in this order.
#[tactic(auto, using(crate::proofs::NamesInTurn::names_in_turn))]
pub fn names_of(alloc: Global, entries: &Bindings) -> Result<DotfileNames, NameStop>
    ensures { Says names_state result (dotfile_of entries.now) }
{
    none_left_out(alloc, entries)?;
    let (configuration, arguments) = first_names(alloc, entries)?;
    let (secondary, executable) = last_names(alloc, entries)?;
    Ok(DotfileNames {
        configuration,
        arguments,
        secondary,
        executable,
    })
}
