// The content of a file that is looked for at its path, and where nothing is there below the secondary source tree; and its tree.

ghost use Rattle.std.specs.Prelude.{◌≡◌, ◌≢◌, ◌≤◌, Err, IfOk, IfSome, length};
ghost use Rattle.gn_value_model.specs.Limits.{max_bytes};
ghost use Rattle.gn_tree.specs.Depth.{IsShallow};
ghost use Rattle.gn_items.specs.Effects.{Effects};
ghost use Rattle.gn_runs.specs.Runs.{is_absent};
ghost use Rattle.gn_environment.specs.Environment.{Environment};
ghost use Rattle.gn_eval.specs.Library.{Need, IsWithinLimit};
ghost use Rattle.gn_eval.specs.Ends.{IsRun, Evaluates};
ghost use Rattle.gn_syntax.specs.Reading.{reading};
ghost use Rattle.gn_executions.specs.Units.{reading_runs, content_runs};
ghost use Rattle.gn_executions.specs.Setups.{path_below};
ghost use Rattle.gn_unit.specs.Begun.{BeginsAs, LeavesTree};
ghost use Rattle.gn_unit.specs.Found.{content_view};
ghost use Rattle.gn_unit.specs.Configuration.{own_content_runs, placed, found_below, found_in};

use crate::execution::own_place;
use gn_env::Env;
use gn_eval::{EvalEnd, Found, LibStop, Library};
use gn_evaluation_base::{Base, syntax_fault_in, whole_file_fault_in};
use gn_faults::Code;
use gn_items::Outcome;
use gn_paths::{Path, Text, path_meant};
use gn_syntax::{Parsed, parse};
use std::alloc::{AllocError, Global};

/// What a library tells of the content of the file at a path. What is asked is noted.
pub(crate) fn content_at<L: Library>(
    alloc: Global,
    path: &Path,
    out: &mut Outcome,
    library: &mut L,
) -> Result<Found, EvalEnd>
    ensures evaluates { (env : Environment) → Evaluates content_view (L.state library.old) (L.state library.new) result env out.new (λ a. own_content_runs path.now a env out.old) }
    ensures within { IfOk result (λ found. IsWithinLimit found) }
{
    let place = own_place(alloc, path)?;
    match library.bytes(alloc, path, &place) {
        Ok(found) => {
            out.ask_content(path)?;
            Ok(found)
        }
        Err(LibStop::Stopped) => Err(EvalEnd::Stopped),
        Err(LibStop::Memory) => Err(EvalEnd::Memory),
    }
}

// What the bytes of the file are read as that is to run in an environment.
fn parsed_in(alloc: Global, env: &Env, bytes: &[u8]) -> Result<Parsed, EvalEnd>
    requires { length bytes.now ≤ max_bytes }
    ensures tree { (need : Need) (out : Effects) → IsRun (λ t. t) need result env.now out (reading_runs bytes.now (reading bytes.now) env.now out) }
    ensures reads { result ≢ Err EvalEnd.Stopped }
    ensures shallow { IfOk result (λ tree. IsShallow tree) }
{
    match parse(alloc, bytes) {
        Ok(parsed) => Ok(parsed),
        Err(error) => Err(EvalEnd::Wrong(syntax_fault_in(alloc, env, bytes, error)?)),
    }
}

// What is done with what a library tells of the content of that file.
fn tree_in(alloc: Global, env: &Env, found: Found) -> Result<Parsed, EvalEnd>
    requires { IsWithinLimit found }
    ensures tree { (need : Need) (out : Effects) → IsRun (λ t. t) need result env.now out (content_runs (content_view found) env.now out) }
    ensures reads { result ≢ Err EvalEnd.Stopped }
    ensures shallow { IfOk result (λ tree. IsShallow tree) }
{
    match found {
        Found::Bytes(bytes) => parsed_in(alloc, env, bytes.as_bytes()),
        Found::Absent => Err(EvalEnd::Wrong(whole_file_fault_in(alloc, env, Code::NoFile)?)),
        Found::TooBig => Err(EvalEnd::Wrong(whole_file_fault_in(alloc, env, Code::FileTooBig)?)),
    }
}

// The same path below another source tree.
#[tactic(auto, unfolding(gn_executions::specs::Setups::path_below))]
fn path_below(alloc: Global, tree: &Path, path: &Path) -> Result<Path, AllocError>
    ensures { IfOk result (λ p. p ≡ path_below tree.now path.now) }
{
    let mut text = Text::from_bytes(alloc, b".")?;
    text.append(path.as_bytes().get(1..).unwrap_or_default())?;
    match path_meant(alloc, tree, text.as_bytes())? {
        Ok(path) => Ok(path),
        Err(_) => tree.copy(alloc),
    }
}

// The tree of the file that is to run in an environment, of whose content this is told: the one that is known before, or else the one
// that it is read as.
fn known_or_read(
    alloc: Global,
    env: &Env,
    found: Found,
    known: Option<Parsed>,
) -> Result<Parsed, EvalEnd>
    requires within { IsWithinLimit found }
    requires known { IfSome known IsShallow }
    ensures tree { (need : Need) (out : Effects) → IfSome known (λ tree. LeavesTree tree (content_runs (content_view found) env.now out)) →
        IsRun (λ t. t) need result env.now out (content_runs (content_view found) env.now out) }
    ensures reads { result ≢ Err EvalEnd.Stopped }
    ensures shallow { IfOk result (λ tree. IsShallow tree) }
{
    match known {
        Some(tree) => Ok(tree),
        None => tree_in(alloc, env, found),
    }
}

/// The tree of that file beside its environment: the one that is known before, or else the one that it is read as.
pub(crate) fn begun_in(
    alloc: Global,
    env: Env,
    found: Found,
    known: Option<Parsed>,
) -> Result<(Parsed, Env), EvalEnd>
    requires within { IsWithinLimit found }
    requires known { IfSome known IsShallow }
    ensures begins { (need : Need) (out : Effects) → IfSome known (λ tree. LeavesTree tree (content_runs (content_view found) env out)) →
        BeginsAs need result out (content_runs (content_view found) env out) }
    ensures reads { result ≢ Err EvalEnd.Stopped }
    ensures shallow { IfOk result (λ begun. IsShallow begun.0) }
{
    match known_or_read(alloc, &env, found, known) {
        Ok(tree) => Ok((tree, env)),
        Err(end) => {
            drop(env);
            Err(end)
        }
    }
}

// The places of the file at another path are there from then on, where something is there.
fn place(env: &mut Env, file: Text, found: &Found)
    ensures { env.new ≡ placed file (content_view found.now) env.old }
{
    match found {
        Found::Absent => {}
        Found::TooBig => env.set_file(file),
        Found::Bytes(_) => env.set_file(file),
    }
}

// What there is at the path of a file below another source tree.
fn content_below<L: Library>(
    alloc: Global,
    tree: &Path,
    own: &Path,
    env: &mut Env,
    out: &mut Outcome,
    library: &mut L,
) -> Result<Found, EvalEnd>
    ensures evaluates { Evaluates content_view (L.state library.old) (L.state library.new) result env.new out.new (λ a. found_below (path_below tree.now own.now) a env.old out.old) }
    ensures within { IfOk result (λ found. IsWithinLimit found) }
{
    let path = path_below(alloc, tree, own)?;
    let file = path.as_text().copy(alloc)?;
    match content_at(alloc, &path, out, library) {
        Ok(found) => {
            place(env, file, &found);
            Ok(found)
        }
        Err(end) => Err(end),
    }
}

// The same below the secondary source tree, if there is one.
fn absent_content<L: Library>(
    alloc: Global,
    base: &Base,
    path: &Path,
    env: &mut Env,
    out: &mut Outcome,
    library: &mut L,
) -> Result<Found, EvalEnd>
    requires { env.old.setting.file ≡ path.now }
    ensures evaluates { Evaluates content_view (L.state library.old) (L.state library.new) result env.new out.new (λ a. found_in base.now.secondary a is_absent env.old out.old) }
    ensures within { IfOk result (λ found. IsWithinLimit found) }
{
    match base.secondary() {
        Some(tree) => content_below(alloc, tree, path, env, out, library),
        None => Ok(Found::Absent),
    }
}

/// What there is where a file is looked for that is to run in an environment, at whose path the library has told this: where nothing
/// is there, it is looked for at the same path below the secondary source tree. The places of the file that was found are there from
/// then on.
pub(crate) fn found_content<L: Library>(
    alloc: Global,
    base: &Base,
    path: &Path,
    found: Found,
    env: &mut Env,
    out: &mut Outcome,
    library: &mut L,
) -> Result<Found, EvalEnd>
    requires file { env.old.setting.file ≡ path.now }
    requires within { IsWithinLimit found }
    ensures evaluates { Evaluates content_view (L.state library.old) (L.state library.new) result env.new out.new (λ a. found_in base.now.secondary a (content_view found) env.old out.old) }
    ensures within { IfOk result (λ found. IsWithinLimit found) }
{
    match found {
        Found::Absent => absent_content(alloc, base, path, env, out, library),
        Found::TooBig => Ok(Found::TooBig),
        Found::Bytes(bytes) => Ok(Found::Bytes(bytes)),
    }
}
