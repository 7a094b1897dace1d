//! The table of the lock: word 0 is the next ticket, word 1 the ticket that is served, and slot 0 has the value while it is at home.
use crate::kept::Kept;
use crate::view::View;
use atomic_table::{Shared, Table, TableRule};
use std::alloc::Global;
use std::marker::PhantomData;
use std::snapshot::Snapshot;

/// The rule of the lock, over a snapshot of the value with which it was made.
pub struct LockRule<B> {
    value: PhantomData<B>,
}

impl<B: Kept> TableRule<Option<B>, View<B::Entry, B::Basis>, Snapshot<B>> for LockRule<B> {
    ghost use Rattle.gn_turn.specs.Invariant.{LockInvariant};
    ghost use Rattle.gn_turn.specs.Views.{first_view};

    ghost holds = { λ key. LockInvariant B.basis B.history B.number (B.basis key.value) };

    ghost first = { λ key. first_view (B.basis key.value) };
}

/// The table with its memory.
pub type LockTable<B> = Table<
    Option<B>,
    View<<B as Kept>::Entry, <B as Kept>::Basis>,
    Snapshot<B>,
    LockRule<B>,
    Global,
>;

/// The part of the table on which steps are made.
pub type LockSteps<B> = Shared<
    Option<B>,
    View<<B as Kept>::Entry, <B as Kept>::Basis>,
    Snapshot<B>,
    LockRule<B>,
>;

/// With what a seat makes its steps.
pub type Token<B> = atomic_table::Seat<Option<B>, View<<B as Kept>::Entry, <B as Kept>::Basis>>;
