//! The seven kinds of step on the table, and what each tells the seat that makes it.
ghost use Rattle.gn_turn.specs.Steps.{DrawsTicket, LoadsServing, TakesSlot, ReturnsSlot, PassesOn};
ghost use Rattle.gn_turn.specs.Views.{after_split, split_off, after_join, spent_view};

use crate::kept::Kept;
use crate::view::View;
use atomic_table::{Join, Play, Split};
use std::marker::PhantomData;

// A new seat is split off the first one, and gets the next number.
pub(crate) struct SplitSeat;

impl<E, G> Split<View<E, G>> for SplitSeat {
    ghost left = { after_split };

    ghost right = { split_off };
}

// A seat is joined into the first one.
pub(crate) struct JoinSeat;

impl<E, G> Join<View<E, G>> for JoinSeat {
    ghost both = { after_join };

    ghost spent = { spent_view };
}

// A seat adds one to word 0, and has the ticket that was there.
pub(crate) struct DrawTicket;

impl<B, E, G> Play<Option<B>, View<E, G>> for DrawTicket {
    ghost then = { DrawsTicket };
}

// A seat reads word 1, and finds its turn there or not.
pub(crate) struct LoadServing<B> {
    value: PhantomData<B>,
}

impl<B: Kept> Play<Option<B>, View<B::Entry, B::Basis>> for LoadServing<B> {
    ghost then = { LoadsServing B.number };
}

// A seat at its turn takes the slot.
pub(crate) struct TakeSlot<B> {
    value: PhantomData<B>,
}

impl<B: Kept> Play<Option<B>, View<B::Entry, B::Basis>> for TakeSlot<B> {
    ghost then = { TakesSlot B.basis B.history };
}

// A seat gives the slot back, with the value in it.
pub(crate) struct ReturnSlot<B> {
    value: PhantomData<B>,
}

impl<B: Kept> Play<Option<B>, View<B::Entry, B::Basis>> for ReturnSlot<B> {
    ghost then = { ReturnsSlot B.history };
}

// A seat adds one to word 1, and its turn is over.
pub(crate) struct PassOn;

impl<B, E, G> Play<Option<B>, View<E, G>> for PassOn {
    ghost then = { PassesOn };
}
