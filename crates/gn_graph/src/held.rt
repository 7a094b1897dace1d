// The facts that hold, by number.

ghost use Rattle.std.specs.Prelude.{◌≡◌, ◌++◌, ◌∷◌, [], ◌^◌, ◌<◌, ◌≤◌, ℕ, OnOk, OnErr, Some, true, false, length, take, slice_get, nat_eq};
ghost use Rattle.std.specs.List.{IsDistinct};
ghost use Rattle.gn_graph.specs.Clauses.{has};
ghost use Rattle.gn_graph.specs.Places.{ArePlaces};
ghost use Rattle.gn_graph.specs.Numbers.{IsMore};

use std::alloc::{AllocError, Global};
use std::marker::Model;

// Whether the number stands in the list before the place n.
fn is_before(list: &[usize], places: &[usize], p: usize, n: usize) -> bool
    requires places { ArePlaces list.now places.now }
    requires within { n ≤ length list.now }
    ensures { result ≡ has (take n list.now) p }
{
    match places.get(p) {
        None => false,
        Some(place) => {
            let place = *place;
            if place < n { list[place] == p } else { false }
        }
    }
}

// There is room for the place of a number.
fn make_room(places: &mut Vec<usize>, p: usize) -> Result<(), AllocError>
    ensures same { (q i : ℕ) → slice_get places.old.items q ≡ Some i → slice_get places.new.items q ≡ Some i }
    ensures room { OnOk result (p < length places.new.items) }
{
    let mut n = places.len();
    while n <= p {
        places.push(0)?;
        n += 1;
    }
    Ok(())
}

// The place of a number is noted, for which there is room.
fn note_place(places: &mut Vec<usize>, p: usize, place: usize)
    requires { p < length places.old.items }
    ensures own { slice_get places.new.items p ≡ Some place }
    ensures others { (q i : ℕ) → nat_eq q p ≡ false → slice_get places.old.items q ≡ Some i → slice_get places.new.items q ≡ Some i }
{
    places[p] = place;
}

// A new number is put last.
fn put_last(list: &mut Vec<usize>, places: &mut Vec<usize>, p: usize) -> Result<(), AllocError>
    requires places { ArePlaces list.old.items places.old.items }
    requires fresh { has list.old.items p ≡ false }
    ensures places { ArePlaces list.new.items places.new.items }
    ensures ok { OnOk result (list.new.items ≡ list.old.items ++ p ∷ []) }
    ensures err { OnErr result (list.new.items ≡ list.old.items) }
{
    make_room(places, p)?;
    note_place(places, p, list.len());
    list.push(p)?;
    Ok(())
}

/// Numbers of facts that hold, in the order in which they were found. Whether one is among them takes two look-ups by place.
#[derive(Drop)]
pub(crate) struct Held {
    list: Vec<usize>,
    // For each number that is among them its place, and any number for the others.
    places: Vec<usize>,
}

impl Model for Held {
    ghost use Rattle.std.specs.Prelude.{List, ℕ};
    ghost use Rattle.gn_graph.specs.Places.{ArePlaces};

    ghost Value = { List ℕ };

    ghost view = { λ h. h.list.items };

    ghost invariant = { λ h. ArePlaces h.list.items h.places.items };
}

impl Held {
    /// None hold. It takes no memory.
    pub(crate) fn new(alloc: Global) -> Held
        ensures { result ≡ [] }
    {
        Held {
            list: Vec::new(alloc),
            places: Vec::new(alloc),
        }
    }

    /// How many there are.
    pub(crate) fn len(&self) -> usize
        ensures len { result ≡ length self.now }
        ensures small { result < 2 ^ 63 }
        ensures once { IsDistinct nat_eq self.now }
    {
        self.list.len()
    }

    /// The number at a place.
    pub(crate) fn at(&self, k: usize) -> usize
        requires { k < length self.now }
        ensures { slice_get self.now k ≡ Some result }
    {
        self.list[k]
    }

    /// The number at a place, if there is one.
    pub(crate) fn get(&self, k: usize) -> Option<usize>
        ensures { result ≡ slice_get self.now k }
    {
        self.list.get(k).copied()
    }

    /// Whether the number is among them.
    pub(crate) fn has(&self, p: usize) -> bool
        ensures { result ≡ has self.now p }
    {
        is_before(&self.list, &self.places, p, self.list.len())
    }

    /// Whether the number stands before a place.
    pub(crate) fn has_before(&self, p: usize, n: usize) -> bool
        requires { n ≤ length self.now }
        ensures { result ≡ has (take n self.now) p }
    {
        is_before(&self.list, &self.places, p, n)
    }

    /// A new number is put last.
    pub(crate) fn put(&mut self, p: usize) -> Result<(), AllocError>
        requires { has self.old p ≡ false }
        ensures ok { OnOk result (self.new ≡ self.old ++ p ∷ []) }
        ensures err { OnErr result (self.new ≡ self.old) }
        ensures more { IsMore self.old self.new }
        ensures once { IsDistinct nat_eq self.new }
    {
        put_last(&mut self.list, &mut self.places, p)
    }

    /// Those from a place on don't hold any more.
    pub(crate) fn cut(&mut self, n: usize)
        ensures { self.new ≡ take n self.old }
    {
        self.list.truncate(n);
    }
}
