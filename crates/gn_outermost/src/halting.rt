// The statements of an outermost block, from one of them on.

ghost use Rattle.std.specs.Prelude.{◌≡◌};
ghost use Rattle.gn_tree.specs.Depth.{IsShallow};
ghost use Rattle.gn_meaning.specs.Meaning.{whole_block_runs};
ghost use Rattle.gn_outermost.specs.Rests.{behind, Halts};

use crate::imports::lacks_import;
use gn_env::Env;
use gn_eval::{Definer, EvalEnd, Library, run_outermost};
use gn_items::Outcome;
use gn_tree::Block;
use std::alloc::Global;

/// How far the statements of a block have run.
#[derive(Clone, Copy, Debug, PartialEq, Eq)]
pub enum Halt {
    /// All have run.
    Ended,
    /// The statement of this number, counted from 0, is an import whose answer the library lacks. It hasn't begun.
    Before(usize),
}

/// Runs the statements of the outermost block of a file from the one of a number on, counted from 0, in the innermost scope of the
/// environment. Where the library lacks what an import needs whose path is written out, it stops in front of it: the environment and
/// `out` are those in which that statement is to run, and over just what the library tells its run needs what was noted. Else it is
/// as `run_block`.
pub fn run_rest<L: Library + Definer>(
    alloc: Global,
    block: &Block,
    from: usize,
    env: &mut Env,
    out: &mut Outcome,
    library: &mut L,
) -> Result<Halt, EvalEnd>
    requires shallow { IsShallow block.now }
    ensures { Halts (L.state library.old) (L.state library.new) block.now result env.new out.new (λ a. whole_block_runs a (behind from block.now) env.old out.old) }
{
    let statements = block.statements();
    let mut next = from;
    'rest: while next < statements.len() {
        let statement = &statements[next];
        if lacks_import(alloc, statement, env, library) {
            return Ok(Halt::Before(next));
        }
        match run_outermost(alloc, statement, env, out, library) {
            Ok(()) => next += 1,
            Err(end) => return Err(end),
        }
    }
    Ok(Halt::Ended)
}
