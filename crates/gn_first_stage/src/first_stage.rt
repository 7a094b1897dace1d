// The first stage of a build: the dotfile, and build arguments.

ghost use Rattle.std.specs.Prelude.{◌≡◌, ◌≤◌, Result, Err, IfOk, codes, length};
ghost use Rattle.gn_value_model.specs.Limits.{max_bytes};
ghost use Rattle.gn_faults.specs.declared.file_kind.FileKind.TheVariants as kind;
ghost use Rattle.gn_items.specs.Effects.{Effects};
ghost use Rattle.gn_runs.specs.Runs.{has_bytes};
ghost use Rattle.gn_environment.specs.Environment.{entries_here};
ghost use Rattle.gn_executions.specs.Alone.{first_context, alone_begins, arguments_runs, EndsAlone};
ghost use Rattle.gn_executions.specs.Dotfile.{DotfileState, NameFault, dotfile_of, dotfile_ends, dotfile_runs};
ghost use Rattle.gn_dotfile.specs.Names.{Says, names_state};
ghost use Rattle.gn_first_stage.specs.Alone.{IsWrong, IsDotfile, AreArguments, EndsIn, IsSaidWith, AreSetWith, bytes_alone, dotfile_alone, arguments_alone};

use crate::alone::{UnitEnd, begin_alone, run_alone};
use gn_dotfile::{Dotfile, DotfileNames, NameStop, names_of};
use gn_env::Env;
use gn_executions::files_that_stand_alone_end;
use gn_faults::{Code, FileKind};
use gn_items::Outcome;
use gn_paths::{Path, Text, Texts};
use gn_tree::Position;
use gn_values::{Bindings, Overrides};
use std::alloc::{AllocError, Global};

// The fault of a name of a dotfile that has run in an environment. It stands at the beginning of the dotfile.
fn name_wrong(alloc: Global, env: &Env, code: Code, shown: Texts) -> UnitEnd
    ensures { (out : Effects) → IsWrong result (dotfile_ends (Err (record { code = code; shown = shown })) env.now out) }
{
    let beginning = Position { line: 1, column: 1 };
    match env.fault(alloc, code, beginning, shown) {
        Ok(fault) => UnitEnd::Wrong(fault),
        Err(_) => UnitEnd::Memory,
    }
}

// The end of a dotfile that has run in an environment, by what its names say.
fn names_end(
    alloc: Global,
    env: &Env,
    said: Result<DotfileNames, NameStop>,
) -> Result<DotfileNames, UnitEnd>
    ensures { (names : Result DotfileState NameFault) (out : Effects) → Says names_state said names
        → EndsIn names_state result env.now out (dotfile_ends names env.now out) }
{
    match said {
        Ok(names) => Ok(names),
        Err(NameStop::Wrong(code, shown)) => Err(name_wrong(alloc, env, code, shown)),
        Err(NameStop::Memory) => Err(UnitEnd::Memory),
    }
}

// What the names of a dotfile say that has run in an environment.
fn names_in(alloc: Global, env: &Env) -> Result<DotfileNames, UnitEnd>
    ensures { (out : Effects) → EndsIn names_state result env.now out (dotfile_ends (dotfile_of (entries_here env.now)) env.now out) }
{
    let entries = env.names_here(alloc)?;
    let said = names_of(alloc, &entries);
    drop(entries);
    names_end(alloc, env, said)
}

// Runs the bytes of a dotfile, and looks at its names.
fn run_dotfile(
    alloc: Global,
    bytes: &[u8],
    env: &mut Env,
    out: &mut Outcome,
) -> Result<DotfileNames, UnitEnd>
    requires small { length bytes.now ≤ max_bytes }
    requires alone { EndsAlone (bytes_alone bytes.now env.old out.old).end }
    ensures { EndsIn names_state result env.new out.new (dotfile_alone bytes.now env.old out.old) }
{
    run_alone(alloc, bytes, env, out)?;
    names_in(alloc, env)
}

// What the names say, with what was printed.
fn said_with(said: Result<DotfileNames, UnitEnd>, out: Outcome) -> Result<Dotfile, UnitEnd>
    ensures { IsSaidWith said out result }
{
    match said {
        Ok(names) => Ok(Dotfile {
            configuration: names.configuration,
            arguments: names.arguments,
            secondary: names.secondary,
            executable: names.executable,
            prints: out.into_prints(),
        }),
        Err(end) => {
            drop(out);
            Err(end)
        }
    }
}

// Where the dotfile begins.
fn begin_dotfile(
    alloc: Global,
    build: &Path,
    os: &Text,
    cpu: &Text,
    root: &Text,
) -> Result<Env, AllocError>
    ensures { IfOk result (λ env. env ≡ alone_begins (record { os = os.now; cpu = cpu.now }) (first_context build.now root.now) kind.Dotfile (codes "//.gn")) }
{
    let file = Text::from_bytes(alloc, b"//.gn")?;
    begin_alone(alloc, FileKind::Dotfile, &file, build, os, cpu, root)
}

/// What the bytes of the dotfile `//.gn` say: it is run in the source root, over the built-in variables as they are before any
/// argument is given, and then its names are looked at in order. `build` is the build directory, the other texts are those of the
/// host and of the source root. `Wrong` has its first fault; that of a name stands at line 1, column 1.
pub fn dotfile(
    alloc: Global,
    bytes: &[u8],
    build: &Path,
    os: &Text,
    cpu: &Text,
    root: &Text,
) -> Result<Dotfile, UnitEnd>
    requires { length bytes.now ≤ max_bytes }
    ensures { IsDotfile result (dotfile_runs (record { os = os.now; cpu = cpu.now }) (first_context build.now root.now) (has_bytes bytes.now)) }
{
    files_that_stand_alone_end();
    let mut env = begin_dotfile(alloc, build, os, cpu, root)?;
    let mut out = Outcome::new(alloc);
    let said = run_dotfile(alloc, bytes, &mut env, &mut out);
    drop(env);
    said_with(said, out)
}

// Runs the bytes of build arguments. It has the names that they set.
fn run_arguments(
    alloc: Global,
    bytes: &[u8],
    env: &mut Env,
    out: &mut Outcome,
) -> Result<Bindings, UnitEnd>
    requires small { length bytes.now ≤ max_bytes }
    requires alone { EndsAlone (bytes_alone bytes.now env.old out.old).end }
    ensures { EndsIn (λ b. b) result env.new out.new (arguments_alone bytes.now env.old out.old) }
{
    run_alone(alloc, bytes, env, out)?;
    Ok(env.names_here(alloc)?)
}

// The names that are set, with what was printed.
fn set_with(entries: Result<Bindings, UnitEnd>, out: Outcome) -> Result<(Overrides, Texts), UnitEnd>
    ensures { AreSetWith entries out result }
{
    match entries {
        Ok(entries) => Ok((entries, out.into_prints())),
        Err(end) => {
            drop(out);
            Err(end)
        }
    }
}

/// What the bytes of build arguments say: they are run as the dotfile is, and each name that they set is an argument with its
/// value; beside them what they printed, in order. `file` is the path of the file that keeps them, or `--args`. `Wrong` has the first
/// fault.
pub fn arguments(
    alloc: Global,
    file: &Text,
    bytes: &[u8],
    build: &Path,
    os: &Text,
    cpu: &Text,
    root: &Text,
) -> Result<(Overrides, Texts), UnitEnd>
    requires { length bytes.now ≤ max_bytes }
    ensures { AreArguments result (arguments_runs (record { os = os.now; cpu = cpu.now }) (first_context build.now root.now) file.now (has_bytes bytes.now)) }
{
    files_that_stand_alone_end();
    let mut env = begin_alone(alloc, FileKind::Arguments, file, build, os, cpu, root)?;
    let mut out = Outcome::new(alloc);
    let entries = run_arguments(alloc, bytes, &mut env, &mut out);
    drop(env);
    set_with(entries, out)
}
