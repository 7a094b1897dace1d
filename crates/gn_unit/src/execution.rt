// Where the execution of a whole file begins.

ghost use Rattle.std.specs.Prelude.{◌≡◌, true, false, IfOk, IfSome};
ghost use Rattle.gn_paths.specs.Directory.{directory_of};
ghost use Rattle.gn_tree.specs.Depth.{IsShallow};
ghost use Rattle.gn_eval.specs.Library.{IsWithinLimit};
ghost use Rattle.gn_executions.specs.Units.{own_place, tree_runs, build_file_of, import_begins, load_begins};
ghost use Rattle.gn_executions.specs.Setups.{content_in, secondary_tree_runs};
ghost use Rattle.gn_executions.specs.Base.{begins_over};
ghost use Rattle.gn_unit.specs.Begun.{Begins, Reads};
ghost use Rattle.gn_unit.specs.Found.{content_view};

use crate::found::{begun_in, content_at, found_content};
use gn_env::Env;
use gn_eval::{EvalEnd, Found, Library};
use gn_evaluation_base::Base;
use gn_faults::FileKind;
use gn_items::{Outcome, When, import_name, load_name};
use gn_paths::{Path, PathError, Place, Text, directory, resolve};
use gn_syntax::Parsed;
use std::alloc::{AllocError, Global};

// The path of the build file of a directory.
#[tactic(auto, using(gn_executions::proofs::BuildFiles::build_file_resolved))]
fn build_file(alloc: Global, directory: &Path) -> Result<Path, AllocError>
    ensures { IfOk result (λ p. p ≡ build_file_of directory.now) }
{
    match resolve(alloc, directory, b"BUILD.gn") {
        Ok(path) => Ok(path),
        Err(PathError::Memory) => Err(AllocError),
        Err(PathError::AboveRoot) => unreachable!(),
        Err(PathError::BadPath) => unreachable!(),
    }
}

// The path of a file as a text, and the directory in which it stands.
fn file_and_directory(alloc: Global, path: &Path) -> Result<(Text, Path), AllocError>
    ensures { IfOk result (λ f. f ≡ (path.now, directory_of path.now)) }
{
    let file = path.as_text().copy(alloc)?;
    let stands_in = directory(alloc, path)?;
    Ok((file, stands_in))
}

/// Where the execution of the file at a path begins over a base, by its name.
pub(crate) fn environment(
    alloc: Global,
    base: &Base,
    path: &Path,
    kind: FileKind,
    execution: Text,
    checked: bool,
) -> Result<Env, AllocError>
    ensures { IfOk result (λ env. env ≡ begins_over base.now kind path.now execution checked) }
{
    let (file, stands_in) = file_and_directory(alloc, path)?;
    let (context, beneath, definitions) = base.share(alloc, &stands_in)?;
    Ok(Env::new(
        alloc,
        context,
        kind,
        file,
        stands_in,
        execution,
        checked,
        beneath,
        definitions,
    ))
}

/// Where a file asks for its own content.
pub(crate) fn own_place(alloc: Global, path: &Path) -> Result<Place, AllocError>
    ensures { IfOk result (λ place. place ≡ own_place path.now) }
{
    Ok(Place {
        file: path.as_text().copy(alloc)?,
        line: 1,
        column: 1,
    })
}

// The environment in which the execution of the build file of a directory begins over a base, which stands at a path.
fn load_environment(
    alloc: Global,
    base: &Base,
    directory: &Path,
    toolchain: &Text,
    path: &Path,
) -> Result<Env, AllocError>
    ensures { IfOk result (λ env. env ≡ load_begins base.now directory.now toolchain.now path.now) }
{
    let execution = load_name(alloc, directory, toolchain)?;
    environment(alloc, base, path, FileKind::BuildFile, execution, true)
}

/// The tree of the file at a path and the environment in which it is to run, which begins as `env` and has the places of the file that
/// was found: at its path, where the library has told `found`, or below the secondary source tree where there is no file at its own. The
/// file isn't parsed where its tree is known before. What is asked is added to `out`. `Wrong` has the first fault, and comes exactly where
/// there is one, but for want of memory; `Stopped` comes as from a library.
pub(crate) fn found_file<L: Library>(
    alloc: Global,
    base: &Base,
    path: &Path,
    found: Found,
    env: Env,
    known: Option<Parsed>,
    out: &mut Outcome,
    library: &mut L,
) -> Result<(Parsed, Env), EvalEnd>
    requires file { env.setting.file ≡ path.now }
    requires within { IsWithinLimit found }
    requires known { IfSome known (Reads (L.state library.old).told (λ a. content_in base.now.secondary a (content_view found) env out.old)) }
    ensures begins { Begins (L.state library.old) (L.state library.new) result out.new (λ a. content_in base.now.secondary a (content_view found) env out.old) }
    ensures shallow { IfOk result (λ begun. IsShallow begun.0) }
{
    let mut env = env;
    match found_content(alloc, base, path, found, &mut env, out, library) {
        Ok(found) => begun_in(alloc, env, found, known),
        Err(end) => {
            drop(env);
            Err(end)
        }
    }
}

// Where the execution of the build file of a directory begins that stands at this path. Its content is asked for first, and its
// environment is made only where the library has answered.
fn begin_load_at<L: Library>(
    alloc: Global,
    base: &Base,
    directory: &Path,
    toolchain: &Text,
    path: &Path,
    known: Option<Parsed>,
    out: &mut Outcome,
    library: &mut L,
) -> Result<(Parsed, Env), EvalEnd>
    requires { IfSome known (Reads (L.state library.old).told (λ a. secondary_tree_runs base.now.secondary a
        (load_begins base.now directory.now toolchain.now path.now) out.old)) }
    ensures begins { Begins (L.state library.old) (L.state library.new) result out.new (λ a. secondary_tree_runs base.now.secondary a
        (load_begins base.now directory.now toolchain.now path.now) out.old) }
    ensures shallow { IfOk result (λ begun. IsShallow begun.0) }
{
    match content_at(alloc, path, out, library) {
        Ok(found) => match load_environment(alloc, base, directory, toolchain, path) {
            Ok(env) => found_file(alloc, base, path, found, env, known, out, library),
            Err(_) => Err(EvalEnd::Memory),
        },
        Err(end) => Err(end),
    }
}

/// Where the execution of the build file of a directory begins under a toolchain, over a base: its content is asked for, below the
/// secondary source tree too where it isn't at its own path, and parsed, unless its tree is known before; it is to run in one scope,
/// which is checked. The errors are as those of `found_file`.
pub(crate) fn begin_load<L: Library>(
    alloc: Global,
    base: &Base,
    directory: &Path,
    toolchain: &Text,
    known: Option<Parsed>,
    out: &mut Outcome,
    library: &mut L,
) -> Result<(Parsed, Env), EvalEnd>
    requires { IfSome known (Reads (L.state library.old).told (λ a. secondary_tree_runs base.now.secondary a
        (load_begins base.now directory.now toolchain.now (build_file_of directory.now)) out.old)) }
    ensures begins { Begins (L.state library.old) (L.state library.new) result out.new (λ a. secondary_tree_runs base.now.secondary a
        (load_begins base.now directory.now toolchain.now (build_file_of directory.now)) out.old) }
    ensures shallow { IfOk result (λ begun. IsShallow begun.0) }
{
    let path = build_file(alloc, directory)?;
    begin_load_at(
        alloc, base, directory, toolchain, &path, known, out, library,
    )
}

// The environment in which the file at a path begins that is imported.
fn import_environment(
    alloc: Global,
    base: &Base,
    when: When,
    toolchain: &Text,
    path: &Path,
) -> Result<Env, AllocError>
    ensures { IfOk result (λ env. env ≡ import_begins base.now when toolchain.now path.now) }
{
    let execution = import_name(alloc, when, toolchain, path)?;
    environment(alloc, base, path, FileKind::Import, execution, false)
}

/// Where the execution of a file begins that is imported under a toolchain, early or as usual, over a base: its content is asked for and
/// parsed, unless its tree is known before; it is to run in one scope, which isn't checked. The errors are as those of `found_file`.
pub(crate) fn begin_import<L: Library>(
    alloc: Global,
    base: &Base,
    when: When,
    toolchain: &Text,
    path: &Path,
    known: Option<Parsed>,
    out: &mut Outcome,
    library: &mut L,
) -> Result<(Parsed, Env), EvalEnd>
    requires { IfSome known (Reads (L.state library.old).told (λ a. tree_runs a (import_begins base.now when toolchain.now path.now) out.old)) }
    ensures begins { Begins (L.state library.old) (L.state library.new) result out.new (λ a. tree_runs a (import_begins base.now when toolchain.now path.now) out.old) }
    ensures shallow { IfOk result (λ begun. IsShallow begun.0) }
{
    match content_at(alloc, path, out, library) {
        Ok(found) => match import_environment(alloc, base, when, toolchain, path) {
            Ok(env) => begun_in(alloc, env, found, known),
            Err(_) => Err(EvalEnd::Memory),
        },
        Err(end) => Err(end),
    }
}
