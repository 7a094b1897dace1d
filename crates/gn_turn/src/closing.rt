//! Ending the turns, and taking the value back.
ghost use Rattle.std.specs.Prelude.{◌≡◌, ◌<◌, [], length, All, IfOk, IsOk};
ghost use Rattle.std.specs.List.{HoldsAt};
ghost use Rattle.gn_turn.specs.History.{SeenPrefix, entries_of};
ghost use Rattle.gn_turn.specs.Tokens.{IsDoneToken, joined_of, map_reversed};
ghost use Rattle.gn_turn.specs.Turns.{HasNumber, HasEachNumber, IsSeatOf, IsIdle, number_of, seen, opening_value, seat_count};
ghost use Rattle.gn_turn.specs.Views.{numbers_given};
ghost use Rattle.gn_turn.specs.declared.view.Role.TheVariants.{First};

use crate::kept::Kept;
use crate::plays::JoinSeat;
use crate::rule::{LockSteps, Token};
use crate::seat::Seat;
use crate::turn::Turn;
use std::alloc::AllocError;

// Where the seat with the number 0 stands.
fn first_place<B: Kept>(seats: &[Seat<B>]) -> usize
    requires { HasNumber seats.now 0 }
    ensures bound { result < length seats.now }
    ensures first { HoldsAt (λ s. number_of s ≡ 0) seats.now result }
{
    for (place, seat) in seats.iter().enumerate() {
        if seat.number() == 0 {
            return place;
        }
    }
    unreachable!()
}

// Joins every other seat into the first.
fn join_seats<B: Kept + Drop>(steps: &LockSteps<B>, first: &mut Token<B>, mut others: Vec<Seat<B>>)
    requires table { steps.now.table_id.words ≡ 2 }
    requires first { IsDoneToken steps.now.table_id (B.basis steps.now.key.value) first.old }
    requires role { first.old.me.0.role ≡ First (numbers_given first.old.me.0.role) [] }
    requires others { All (λ s. IsDoneToken steps.now.table_id (B.basis steps.now.key.value) s.token) others.items }
    ensures same { (first.new.table_id ≡ first.old.table_id) × (first.new.me.1 ≡ []) }
    ensures joined { first.new.me.0 ≡ record first.old.me.0 { role = First (numbers_given first.old.me.0.role) (map_reversed (λ s. joined_of s.token) others.items) } }
{
    while let Some(seat) = others.pop() {
        steps.join_seat::<JoinSeat>(first, seat.into_token());
    }
}

impl<B: Kept + Drop> Turn<B> {
    /// Ends the turns with all seats, in any order, and hands the value back. It takes no memory, and never answers `Err`.
    ///
    /// Each entry of the value bears the number of one of the seats. What a seat has seen is a prefix of the value's history, and no later entry there bears its number.
    pub fn finish(self, mut seats: Vec<Seat<B>>) -> Result<B, AllocError>
        requires all { HasEachNumber self seats.items }
        requires idle { All (λ s. IsSeatOf self s × IsIdle s) seats.items }
        ensures given { IsOk result }
        ensures saw { IfOk result (λ x. All (λ s. SeenPrefix B.number (number_of s) (seen s) (B.history x)) seats.items) }
        ensures entries { IfOk result (λ x. All (λ s. entries_of B.number (number_of s) (B.history x) ≡ entries_of B.number (number_of s) (seen s)) seats.items) }
        ensures numbers { IfOk result (λ x. All (λ e. B.number e < seat_count self) (B.history x)) }
        ensures basis { IfOk result (λ x. B.basis x ≡ B.basis (opening_value self)) }
    {
        let Turn { table, count: _ } = self;
        let place = first_place(seats.as_slice());
        let mut first = seats.remove(place).into_token();
        join_seats(&table.shared, &mut first, seats);
        let mut closed = table.close_with(first);
        let kept = closed.take(0);
        closed.free();
        match kept {
            Some(kept) => Ok(kept),
            None => unreachable!(),
        }
    }
}
