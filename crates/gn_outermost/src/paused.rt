// A file whose outermost block has run up to a statement.

ghost use Rattle.std.specs.Prelude.{◌≡◌};
ghost use Rattle.gn_tree.specs.Depth.{IsShallow};
ghost use Rattle.gn_outermost.specs.Rests.{rest_runs, StopsOn, KeepsTree};

use crate::halting::{Halt, run_rest};
use gn_env::Env;
use gn_eval::{Definer, EvalEnd, Library};
use gn_items::{Outcome, Question};
use gn_syntax::Parsed;
use std::alloc::Global;

/// What is kept of a file whose outermost block has run up to a statement: its tree, the number of that statement, counted from 0,
/// the environment in which it is to run, and what the file has left so far.
#[derive(Drop)]
pub struct Paused {
    /// The tree of the file.
    pub tree: Parsed,
    /// The number of the statement.
    pub next: usize,
    /// The environment in which it is to run.
    pub env: Env,
    /// What the file has left so far, with the questions asked.
    pub out: Outcome,
}

impl Paused {
    ghost use Rattle.std.specs.Prelude.{map};
    ghost use Rattle.gn_items.specs.Questions.{question_of};

    /// The questions asked so far, in order. It takes no memory.
    pub fn into_asked(self) -> Vec<Question>
        ensures { map question_of result.items ≡ self.out.asked }
    {
        let Paused {
            tree,
            next: _,
            env,
            out,
        } = self;
        drop(tree);
        drop(env);
        out.into_asked()
    }
}

/// How far a file has run.
#[derive(Drop)]
pub enum Halted {
    /// Its outermost block has run, and leaves this environment, and this besides.
    Ended(Env, Outcome),
    /// It has stopped in front of an import whose answer the library lacks.
    Paused(Paused),
    /// It has no end, and has asked what the outcome says. Its tree comes back.
    Failed(EvalEnd, Outcome, Parsed),
}

/// The rest of the outermost block of a file runs, as by `run_rest`. The tree stays that of the file.
pub fn run_on<L: Library + Definer>(alloc: Global, paused: Paused, library: &mut L) -> Halted
    requires shallow { IsShallow paused.tree }
    ensures stops { StopsOn (L.state library.old) (L.state library.new) result (rest_runs paused) }
    ensures tree { KeepsTree result paused.tree }
{
    let Paused {
        tree,
        next,
        mut env,
        mut out,
    } = paused;
    match run_rest(alloc, tree.block(), next, &mut env, &mut out, library) {
        Ok(Halt::Ended) => Halted::Ended(env, out),
        Ok(Halt::Before(next)) => Halted::Paused(Paused {
            tree,
            next,
            env,
            out,
        }),
        Err(end) => Halted::Failed(end, out, tree),
    }
}
