// Answers for the places of a list, each of which the next thread makes that is free.

ghost use Rattle.std.specs.Prelude.{◌≡◌, ◌<◌, ℕ, IfOk, OnOk};
ghost use Rattle.gn_beside.specs.Dealt.{AreMade, ArePlaced};

use crate::beside::{call_beside, threads_beside};
use crate::placed::{Placed, gathered};
use std::alloc::{AllocError, Global};
use std::sync::atomic::{AtomicUsize, Ordering};
use std::thread::Threads;

// From how many pieces on threads pay.
const LEAST_PIECES: usize = 12;

// How many pieces are worth a thread of their own.
const PIECES_OF_A_THREAD: usize = 6;

// How many threads pay at most for so many places: none for few of them, else at least two.
fn most_threads(count: usize, piece: usize) -> usize {
    match count.checked_div(piece) {
        Some(pieces) if pieces >= LEAST_PIECES => pieces / PIECES_OF_A_THREAD,
        _ => 0,
    }
}

// How many threads pay for so many places. It asks for the processors only where one may pay.
fn threads_for<R: Threads>(rt: &R, count: usize, piece: usize) -> usize {
    match most_threads(count, piece) {
        0 => 0,
        most => threads_beside(rt).min(most),
    }
}

// Puts the answers for the places from one to another behind those that there are.
fn make_piece<A: Drop, F: Fn(usize) -> Result<A, AllocError>>(
    make: &F,
    answers: &mut Vec<Placed<A>>,
    from: usize,
    to: usize,
) -> Result<(), AllocError>
    requires had { ArePlaced (F.post make.now) answers.old.items }
    requires callable { (place : ℕ) → place < to → F.pre make.now place }
    ensures { OnOk result (ArePlaced (F.post make.now) answers.new.items) }
{
    let mut place = from;
    'places: while place < to {
        let answer = make(place)?;
        answers.push(Placed { place, answer })?;
        place += 1;
    }
    Ok(())
}

// The answers of pieces that no other thread has taken, one after the other, until all are taken: the count of the places that are
// taken is shared.
fn make_some<A: Drop, F: Fn(usize) -> Result<A, AllocError>>(
    alloc: Global,
    count: usize,
    piece: usize,
    make: &F,
    taken: &AtomicUsize,
) -> Result<Vec<Placed<A>>, AllocError>
    requires callable { (place : ℕ) → place < count → F.pre make.now place }
    ensures { IfOk result (λ answers. ArePlaced (F.post make.now) answers.items) }
{
    let mut answers = Vec::new(alloc);
    let mut left = count;
    'pieces: while left > 0 {
        let from = taken.fetch_add(piece, Ordering::SeqCst);
        if from >= count {
            return Ok(answers);
        }
        make_piece(
            make,
            &mut answers,
            from,
            count.min(from.saturating_add(piece)),
        )?;
        left -= 1;
    }
    Ok(answers)
}

/// The answers that `make` gives for so many places, in their order; and what other work gives, which this thread does meanwhile. At
/// most so many other threads make answers, each those of the next places that none has taken, so many at once; this thread makes the
/// threads, and does as they do once its own work is done. Err comes for want of memory, and where `make` gives it, and the other work
/// is done all the same.
pub fn deal_out<
    R: Threads + Sync,
    A: Send + Drop,
    F: Fn(usize) -> Result<A, AllocError> + Sync,
    G: FnMut() -> B,
    B,
>(
    rt: &R,
    alloc: Global,
    threads: usize,
    count: usize,
    piece: usize,
    make: &F,
    work: &mut G,
) -> (Result<Vec<A>, AllocError>, B)
    requires callable { (place : ℕ) → place < count → F.pre make.now place }
    requires work { G.pre work.old }
    ensures made { IfOk result.0 (λ all. AreMade (F.post make.now) count all.items) }
    ensures worked { G.step work.old result.1 work.new }
{
    let taken = AtomicUsize::new(0);
    let take = || -> Result<Vec<Placed<A>>, AllocError>
        requires { (place : ℕ) → place < count → F.pre make.now place }
        ensures { IfOk result (λ answers. ArePlaced (F.post make.entry.now) answers.items) }
    { make_some(alloc, count, piece, make, &taken) };
    let threads = threads.min(most_threads(count, piece));
    let (shares, worked) = call_beside(rt, alloc, threads, &take, work);
    (gathered(alloc, count, make, shares), worked)
}

/// The answers that `make` gives for so many places, in their order, where this thread has no other work. As many threads make them as
/// pay, each those of the next places that none has taken, so many at once. Err comes for want of memory, and where `make` gives it.
pub fn deal<R: Threads + Sync, A: Send + Drop, F: Fn(usize) -> Result<A, AllocError> + Sync>(
    rt: &R,
    alloc: Global,
    count: usize,
    piece: usize,
    make: &F,
) -> Result<Vec<A>, AllocError>
    requires callable { (place : ℕ) → place < count → F.pre make.now place }
    ensures { IfOk result (λ all. AreMade (F.post make.now) count all.items) }
{
    let mut nothing = || {};
    let threads = threads_for(rt, count, piece);
    let (all, _nothing) = deal_out(rt, alloc, threads, count, piece, make, &mut nothing);
    all
}
