// Calls in several threads beside other work.

ghost use Rattle.std.specs.Prelude.{◌≡◌, ◌≤◌, ◌++◌, ◌∷◌, [], IfOk, IsOkAnd};
ghost use Rattle.std.specs.List.{All};
ghost use Rattle.std.specs.Thread.{IsSync, IsSend};

use std::alloc::{AllocError, Global};
use std::thread::{Threads, available_parallelism, join_mut};

// How many threads pay at most.
const MOST_THREADS: usize = 7;

// How many threads are made where nothing says how many processors there are.
const USUAL_THREADS: usize = 3;

/// How many threads pay beside the one that asks: one for each other processor, but at most seven; three where nothing says how many
/// processors there are. With one more, they would take time from the thread that asks, for which the others wait in the end.
pub fn threads_beside<R: Threads>(rt: &R) -> usize
    ensures { result ≤ 7 }
{
    match available_parallelism(rt) {
        Ok(processors) => processors.get().saturating_sub(1).min(MOST_THREADS),
        Err(_) => USUAL_THREADS,
    }
}

// A list and one item more.
fn with_one<A: Drop>(others: Result<Vec<A>, AllocError>, one: A) -> Result<Vec<A>, AllocError>
    ensures { IfOk result (λ all. IsOkAnd others (λ had. all.items ≡ had.items ++ one ∷ [])) }
{
    let mut all = others?;
    all.push(one)?;
    Ok(all)
}

/// Calls `take` in so many other threads, and in this one `work` and then `take`: gives all that `take` has given, and what `work` has.
/// This thread makes the others, and no other makes one; where none can be made, this one does its call. Err comes for want of memory
/// alone, and all calls are made all the same.
#[cycle(call_beside)]
pub fn call_beside<R: Threads + Sync, F: Fn() -> A + Sync, G: FnMut() -> B, A: Send + Drop, B>(
    rt: &R,
    alloc: Global,
    threads: usize,
    take: &F,
    work: &mut G,
) -> (Result<Vec<A>, AllocError>, B)
    requires take { F.pre take.now }
    requires work { G.pre work.old }
    ensures taken { IfOk result.0 (λ all. All (λ one. F.post take.now one) all.items) }
    ensures worked { G.step work.old result.1 work.new }
{
    if threads == 0 {
        let worked = work();
        return (with_one(Ok(Vec::new(alloc)), take()), worked);
    }
    let fewer = threads - 1;
    let mut taking = || -> A
        requires { F.pre take.now }
        ensures { F.post take.entry.now result }
    { take() };
    let mut rest = || -> (Result<Vec<A>, AllocError>, B)
        requires { IsSync R.row × IsSync F.row × IsSend A.row × F.pre take.now × G.pre work.now }
        ensures taken { IfOk result.0 (λ all. All (λ one. F.post take.entry.now one) all.items) }
        ensures worked { G.step work.entry.now result.1 work.exit.now }
    { call_beside(rt, alloc, fewer, take, work) };
    let (one, (others, worked)) = join_mut(rt, &mut taking, &mut rest);
    (with_one(others, one), worked)
}
