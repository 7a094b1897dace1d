// Where the execution of the build configuration begins.

ghost use Rattle.std.specs.Prelude.{◌≡◌, IfOk, IfSome};
ghost use Rattle.gn_tree.specs.Depth.{IsShallow};
ghost use Rattle.gn_executions.specs.Setups.{secondary_tree_runs, setup_begins};
ghost use Rattle.gn_unit.specs.Begun.{Begins, Reads};

use crate::execution::{environment, found_file};
use crate::found::content_at;
use gn_env::Env;
use gn_eval::{EvalEnd, Library};
use gn_evaluation_base::Base;
use gn_faults::FileKind;
use gn_items::{Outcome, setup_name};
use gn_paths::Text;
use gn_syntax::Parsed;
use std::alloc::{AllocError, Global};

// The environment in which the execution of the build configuration begins over a base.
fn setup_environment(alloc: Global, base: &Base, toolchain: &Text) -> Result<Env, AllocError>
    ensures { IfOk result (λ env. env ≡ setup_begins base.now toolchain.now) }
{
    let execution = setup_name(alloc, toolchain)?;
    environment(
        alloc,
        base,
        base.configuration(),
        FileKind::BuildConfiguration,
        execution,
        false,
    )
}

/// Where the execution of the build configuration begins under a toolchain, over a base: its content is asked for, below the secondary
/// source tree too where it isn't at its own path, and parsed, unless its tree is known before; it is to run in one scope, which isn't
/// checked. The errors are as those of `found_file`.
pub(crate) fn begin_setup<L: Library>(
    alloc: Global,
    base: &Base,
    toolchain: &Text,
    known: Option<Parsed>,
    out: &mut Outcome,
    library: &mut L,
) -> Result<(Parsed, Env), EvalEnd>
    requires { IfSome known (Reads (L.state library.old).told (λ a. secondary_tree_runs base.now.secondary a (setup_begins base.now toolchain.now) out.old)) }
    ensures begins { Begins (L.state library.old) (L.state library.new) result out.new (λ a. secondary_tree_runs base.now.secondary a
        (setup_begins base.now toolchain.now) out.old) }
    ensures shallow { IfOk result (λ begun. IsShallow begun.0) }
{
    let path = base.configuration();
    match content_at(alloc, path, out, library) {
        Ok(found) => match setup_environment(alloc, base, toolchain) {
            Ok(env) => found_file(alloc, base, path, found, env, known, out, library),
            Err(_) => Err(EvalEnd::Memory),
        },
        Err(end) => Err(end),
    }
}
