// Files that ask for nothing: the dotfile, and build arguments.

ghost use Rattle.std.specs.Prelude.{◌≡◌, ◌≤◌, [], ◌∷◌, IfOk, codes, length, map};
ghost use Rattle.gn_value_model.specs.Limits.{max_bytes};
ghost use Rattle.gn_executions.specs.Alone.{first_context, alone_begins, nothing_there, EndsAlone};
ghost use Rattle.gn_executions.specs.BuiltIn.{built_in_scope};
ghost use Rattle.gn_tree.specs.Depth.{IsShallow};
ghost use Rattle.gn_items.specs.Effects.{Effects};
ghost use Rattle.gn_syntax.specs.Reading.{reading};
ghost use Rattle.gn_executions.specs.Units.{reading_runs};
ghost use Rattle.gn_meaning.specs.Meaning.{whole_block_runs};
ghost use Rattle.gn_first_stage.specs.Alone.{IsParsed, HasRunAlone, bytes_alone};

use gn_definitions::{KeptScope, MadeBy};
use gn_env::Env;
use gn_environment::Context;
use gn_eval::{DefineError, Definer, EvalEnd, Found, Imported, LibStop, Library, run_block};
use gn_evaluation_base::{built_in_scope, one_scope, syntax_fault_in};
use gn_executions::HostNames;
use gn_faults::{Fault, FileKind, Stage};
use gn_items::{Item, ItemKind, Outcome};
use gn_paths::{Path, Place, Text};
use gn_syntax::{Parsed, parse};
use gn_tree::{Block, Position};
use gn_values::Bindings;
use std::alloc::{AllocError, Global};
use std::sync::Arc;

/// Why a dotfile, or build arguments, say nothing.
#[derive(Debug, Drop)]
pub enum UnitEnd {
    /// The first fault.
    Wrong(Fault),
    /// Want of memory.
    Memory,
}

impl From<AllocError> for UnitEnd {
    ghost use Rattle.std.specs.Prelude.{◌≡◌};
    ghost use Rattle.gn_first_stage.specs.declared.alone.UnitEnd.TheVariants.{Memory};

    ghost from_gives = { λ _ e. e ≡ Memory };

    fn from(_: AllocError) -> UnitEnd {
        UnitEnd::Memory
    }
}

// A library that answers that there is no file, whatever is asked.
#[derive(Clone, Copy, Drop)]
struct NothingThere;

impl Library for NothingThere {
    ghost use Rattle.std.specs.Prelude.{[], Some};
    ghost use Rattle.gn_runs.specs.Runs.{content_of};
    ghost use Rattle.gn_executions.specs.Alone.{nothing_there};

    ghost state = { λ _. record {
      told = Some nothing_there;
      need = record { question = content_of []; place = record { file = []; line = 1; column = 1 } };
      stops = 0;
      references = [];
    } };

    fn import(&mut self, _: Global, _: &Path, _: &Place) -> Result<Imported, LibStop> {
        Ok(Imported::Absent)
    }

    fn bytes(&mut self, _: Global, _: &Path, _: &Place) -> Result<Found, LibStop> {
        Ok(Found::Absent)
    }
}

// No item is defined in such a file.
impl Definer for NothingThere {
    fn define(
        &mut self,
        _: Global,
        _: ItemKind,
        _: &Text,
        _: &mut Env,
        _: Position,
    ) -> Result<Item, DefineError> {
        Err(DefineError::Memory)
    }
}

// The names of a host.
fn host_names(alloc: Global, os: &Text, cpu: &Text) -> Result<HostNames, AllocError>
    ensures { IfOk result (λ h. h ≡ record { os = os.now; cpu = cpu.now }) }
{
    let os = os.copy(alloc)?;
    let cpu = cpu.copy(alloc)?;
    Ok(HostNames { os, cpu })
}

// The context of such files: as that of the build configuration of the default toolchain before any argument is given.
fn first_context(alloc: Global, build: &Path, root: &Text) -> Result<Arc<Context>, AllocError>
    ensures { IfOk result (λ c. c.value ≡ first_context build.now root.now) }
{
    let build_directory = build.copy(alloc)?;
    let source_root = root.copy(alloc)?;
    let context = Context {
        stage: Stage::Arguments,
        toolchain: Text::new(alloc),
        fault_toolchain: Text::new(alloc),
        default_toolchain: Text::new(alloc),
        build_directory,
        source_root,
        overrides: Bindings::new(alloc),
    };
    Ok(Arc::new(alloc, context)?)
}

// What such a file is called, where it stands and what its execution is called.
fn names_alone(alloc: Global, file: &Text) -> Result<(Text, Path, Text), AllocError>
    ensures { IfOk result (λ n. n ≡ (file.now, codes "//", file.now)) }
{
    let name = file.copy(alloc)?;
    let directory = Path::root(alloc)?;
    let execution = file.copy(alloc)?;
    Ok((name, directory, execution))
}

// The scopes beneath such a file: the built-in variables of the source root.
fn beneath_alone(
    alloc: Global,
    host: &HostNames,
    context: &Context,
) -> Result<Vec<Arc<KeptScope>>, AllocError>
    ensures { IfOk result (λ b. map (λ f. f.value) b.items ≡ built_in_scope host.now context.now (codes "//") ∷ []) }
{
    let root = Path::root(alloc)?;
    let scope = built_in_scope(alloc, host, context, &root);
    drop(root);
    one_scope(alloc, scope?)
}

// Where such a file begins, in a context.
fn begin_in(
    alloc: Global,
    host: &HostNames,
    context: Arc<Context>,
    kind: FileKind,
    file: &Text,
) -> Result<Env, AllocError>
    ensures { IfOk result (λ env. env ≡ alone_begins host.now context.value kind file.now) }
{
    let (name, directory, execution) = names_alone(alloc, file)?;
    let beneath = beneath_alone(alloc, host, &context)?;
    Ok(Env::new(
        alloc,
        context,
        kind,
        name,
        directory,
        execution,
        false,
        beneath,
        MadeBy::new(alloc),
    ))
}

/// Where such a file begins: in the source root, in one scope, which isn't checked, over the built-in variables. `build` is the
/// build directory, the other texts are those of the host and of the source root.
pub(crate) fn begin_alone(
    alloc: Global,
    kind: FileKind,
    file: &Text,
    build: &Path,
    os: &Text,
    cpu: &Text,
    root: &Text,
) -> Result<Env, AllocError>
    ensures { IfOk result (λ env. env ≡ alone_begins (record { os = os.now; cpu = cpu.now }) (first_context build.now root.now) kind file.now) }
{
    let host = host_names(alloc, os, cpu)?;
    let context = first_context(alloc, build, root)?;
    begin_in(alloc, &host, context, kind, file)
}

// What the bytes of the file that is evaluated are read as.
fn parsed_in(alloc: Global, env: &Env, bytes: &[u8]) -> Result<Parsed, UnitEnd>
    requires { length bytes.now ≤ max_bytes }
    ensures reading { (out : Effects) → IsParsed result env.now out (reading_runs bytes.now (reading bytes.now) env.now out) }
    ensures shallow { IfOk result (λ tree. IsShallow tree) }
{
    match parse(alloc, bytes) {
        Ok(parsed) => Ok(parsed),
        Err(error) => Err(UnitEnd::Wrong(syntax_fault_in(alloc, env, bytes, error)?)),
    }
}

// Runs the block of such a file. It ends with what it leaves or with its first fault, as a law says.
fn run_tree(alloc: Global, block: &Block, env: &mut Env, out: &mut Outcome) -> Result<(), UnitEnd>
    requires shallow { IsShallow block.now }
    requires alone { EndsAlone (whole_block_runs nothing_there block.now env.old out.old).end }
    ensures { HasRunAlone result env.new out.new (whole_block_runs nothing_there block.now env.old out.old) }
{
    let mut library = NothingThere;
    match run_block(alloc, block, env, out, &mut library) {
        Ok(()) => Ok(()),
        Err(EvalEnd::Wrong(fault)) => Err(UnitEnd::Wrong(fault)),
        Err(EvalEnd::Memory) => Err(UnitEnd::Memory),
        Err(EvalEnd::Spoiled(..)) | Err(EvalEnd::Stopped) => unreachable!(),
    }
}

/// Runs the bytes of such a file. What it prints is added to `out`. `Wrong` has the first fault, and comes exactly where there is one,
/// but for want of memory.
pub(crate) fn run_alone(
    alloc: Global,
    bytes: &[u8],
    env: &mut Env,
    out: &mut Outcome,
) -> Result<(), UnitEnd>
    requires small { length bytes.now ≤ max_bytes }
    requires alone { EndsAlone (bytes_alone bytes.now env.old out.old).end }
    ensures { HasRunAlone result env.new out.new (bytes_alone bytes.now env.old out.old) }
{
    let parsed = parsed_in(alloc, env, bytes)?;
    run_tree(alloc, parsed.block(), env, out)
}
