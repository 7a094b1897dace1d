//! Making a turn and its seats.
ghost use Rattle.std.specs.Prelude.{◌≡◌, ◌+◌, ◌≤◌, ◌<◌, [], length, IfOk, IsOk};
ghost use Rattle.gn_turn.specs.Tokens.{Each};
ghost use Rattle.gn_turn.specs.Turns.{AreNewSeats, opening_value, seat_count};
ghost use Rattle.gn_turn.specs.Views.{new_view, first_view};
ghost use Rattle.gn_turn.specs.declared.view.Role.TheVariants.{Plain, First};

use crate::kept::Kept;
use crate::plays::SplitSeat;
use crate::rule::{LockSteps, Token};
use crate::seat::Seat;
use crate::turn::Turn;
use atomic_table::Table;
use std::alloc::{AllocError, Global};
use std::snapshot::Snapshot;

// The seats but the first, each split off it.
fn split_seats<B: Kept + Drop>(
    alloc: Global,
    steps: &LockSteps<B>,
    first: &mut Token<B>,
    seats: u32,
) -> Result<Vec<Seat<B>>, AllocError>
    requires table { (first.old.table_id ≡ steps.now.table_id) × (steps.now.table_id.words ≡ 2) }
    requires first { first.old.me ≡ (first_view (B.basis steps.now.key.value), []) }
    requires count { (0 < seats) × (seats ≤ 64) }
    ensures table { first.new.table_id ≡ first.old.table_id }
    ensures first { IsOk result → first.new.me ≡ (new_view (B.basis steps.now.key.value) 0 (First seats []), []) }
    ensures count { IfOk result (λ v. length v.items + 1 ≡ seats) }
    ensures rest { IfOk result (λ v. Each (λ i s. (s.token.table_id ≡ steps.now.table_id) × (s.token.me ≡ (new_view (B.basis steps.now.key.value) (i + 1) Plain, []))) v.items) }
{
    let mut rest = Vec::new(alloc);
    for number in 1..seats {
        let token = steps.split_seat::<SplitSeat>(first);
        rest.push(Seat::new(token, number))?;
    }
    Ok(rest)
}

impl<B: Kept + Drop> Turn<B> {
    /// A turn at the value, with 1 to 64 seats, which are numbered from 0 in their order. The value has no history yet.
    ///
    /// `Err` is want of memory, and the value is dropped then.
    pub fn new(alloc: Global, kept: B, seats: u32) -> Result<(Turn<B>, Vec<Seat<B>>), AllocError>
        requires count { (0 < seats) × (seats ≤ 64) }
        requires empty { B.history kept ≡ [] }
        ensures count { IfOk result (λ r. (length r.1.items ≡ seats) × (seat_count r.0 ≡ seats)) }
        ensures basis { IfOk result (λ r. B.basis (opening_value r.0) ≡ B.basis kept) }
        ensures seats { IfOk result (λ r. AreNewSeats r.0 r.1.items) }
    {
        let key = Snapshot::of(&kept);
        let mut slots = Vec::new(alloc);
        slots.push(Some(kept))?;
        let Ok((table, mut first)) = Table::new(alloc, &[0, 0], slots, &key) else {
            return Err(AllocError);
        };
        let mut row = split_seats(alloc, &table.shared, &mut first, seats)?;
        row.insert(0, Seat::new(first, 0))?;
        Ok((
            Turn {
                table,
                count: seats,
            },
            row,
        ))
    }
}
