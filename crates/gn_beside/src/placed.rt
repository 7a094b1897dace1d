// Answers at their places.

ghost use Rattle.std.specs.Prelude.{◌≡◌, ◌<◌, ℕ, length, replicate, slice_set, slice_index_or, Option, None, Some, IfOk, IfSome};
ghost use Rattle.gn_beside.specs.Dealt.{IsMade, AreMade, ArePlaced, AreShared, AreSlots};

use std::alloc::{AllocError, Global};

/// An answer and its place.
#[derive(Drop)]
pub(crate) struct Placed<A> {
    /// The place.
    pub(crate) place: usize,
    /// The answer.
    pub(crate) answer: A,
}

// So many places with no answer.
fn none_of<A: Drop>(alloc: Global, count: usize) -> Result<Vec<Option<A>>, AllocError>
    ensures { IfOk result (λ all. all.items ≡ replicate count None) }
{
    let mut all = Vec::with_capacity(alloc, count)?;
    'places: while all.len() < count {
        all.push(None)?;
    }
    Ok(all)
}

// The answer stands at its place from now on.
fn put<A: Drop>(all: &mut Vec<Option<A>>, one: Placed<A>)
    ensures { all.new.items ≡ slice_set all.old.items one.place (Some one.answer) }
{
    let Placed { place, answer } = one;
    if place < all.len() {
        all[place] = Some(answer);
    }
}

// The answers, which `make` gave, stand at their places from now on.
fn put_all<A: Drop, F: Fn(usize) -> Result<A, AllocError>>(
    _make: &F,
    all: &mut Vec<Option<A>>,
    mut answers: Vec<Placed<A>>,
)
    requires placed { ArePlaced (F.post _make.now) answers.items }
    requires had { AreSlots (F.post _make.now) all.old.items }
    ensures put { AreSlots (F.post _make.now) all.new.items }
    ensures count { length all.new.items ≡ length all.old.items }
{
    'answers: while let Some(one) = answers.pop() {
        put(all, one);
    }
}

// The answers that threads have from `make`, at their places, whatever their order.
fn in_places<A: Drop, F: Fn(usize) -> Result<A, AllocError>>(
    alloc: Global,
    count: usize,
    make: &F,
    shares: Result<Vec<Result<Vec<Placed<A>>, AllocError>>, AllocError>,
) -> Result<Vec<Option<A>>, AllocError>
    requires { IfOk shares (λ all. AreShared (F.post make.now) all.items) }
    ensures slots { IfOk result (λ all. AreSlots (F.post make.now) all.items) }
    ensures count { IfOk result (λ all. length all.items ≡ count) }
{
    let mut left = shares?;
    let mut all = none_of(alloc, count)?;
    'shares: while let Some(share) = left.pop() {
        let answers = share?;
        put_all(make, &mut all, answers);
    }
    Ok(all)
}

// Takes the answer that stands at a place out of it, if there is one.
fn take_at<A: Drop>(slots: &mut Vec<Option<A>>, place: usize) -> Option<A>
    requires { place < length slots.old.items }
    ensures value { (none : Option A) → result ≡ slice_index_or slots.old.items place none }
    ensures after { slots.new.items ≡ slice_set slots.old.items place None }
{
    slots[place].take()
}

// The answer of a place: the one that there is, or one that is made now.
fn answer_at<A: Drop, F: Fn(usize) -> Result<A, AllocError>>(
    make: &F,
    place: usize,
    slot: Option<A>,
) -> Result<A, AllocError>
    requires had { IfSome slot (IsMade (F.post make.now) place) }
    requires callable { F.pre make.now place }
    ensures { IfOk result (IsMade (F.post make.now) place) }
{
    match slot {
        Some(answer) => Ok(answer),
        None => make(place),
    }
}

// Each answer, also where no thread has made one.
fn filled<A: Drop, F: Fn(usize) -> Result<A, AllocError>>(
    alloc: Global,
    make: &F,
    mut slots: Vec<Option<A>>,
) -> Result<Vec<A>, AllocError>
    requires had { AreSlots (F.post make.now) slots.items }
    requires callable { (place : ℕ) → place < length slots.items → F.pre make.now place }
    ensures { IfOk result (λ all. AreMade (F.post make.now) (length slots.items) all.items) }
{
    let mut all = Vec::with_capacity(alloc, slots.len())?;
    'places: while all.len() < slots.len() {
        let place = all.len();
        let slot = take_at(&mut slots, place);
        let answer = answer_at(make, place, slot)?;
        all.push(answer)?;
    }
    Ok(all)
}

/// All answers of `make`, in the order of their places: those that threads have, and those that no thread has made, which are made now.
pub(crate) fn gathered<A: Drop, F: Fn(usize) -> Result<A, AllocError>>(
    alloc: Global,
    count: usize,
    make: &F,
    shares: Result<Vec<Result<Vec<Placed<A>>, AllocError>>, AllocError>,
) -> Result<Vec<A>, AllocError>
    requires shared { IfOk shares (λ all. AreShared (F.post make.now) all.items) }
    requires callable { (place : ℕ) → place < count → F.pre make.now place }
    ensures { IfOk result (λ all. AreMade (F.post make.now) count all.items) }
{
    let slots = in_places(alloc, count, make, shares)?;
    filled(alloc, make, slots)
}
