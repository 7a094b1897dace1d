//! Taking a turn, and giving it back.
ghost use Rattle.std.specs.Prelude.{◌≡◌, ◌%◌, ◌^◌, ◌++◌, drop, length};
ghost use Rattle.gn_turn.specs.History.{SeenPrefix, AddsOwn, entries_of};
ghost use Rattle.gn_turn.specs.Tokens.{token_seen, token_number};
ghost use Rattle.gn_turn.specs.Turns.{IsSeatOf, IsIdle, IsHolding, IsSameSeat, number_of, seen, opening_value, held_value};
ghost use Rattle.gn_turn.specs.Views.{ticket};
ghost use Rattle.gn_turn.specs.declared.view.Stage.TheVariants.{Waiting, AtTurn};

use crate::held::Held;
use crate::kept::Kept;
use crate::plays::{DrawTicket, LoadServing, PassOn, ReturnSlot, TakeSlot};
use crate::rule::Token;
use crate::seat::Seat;
use crate::turn::Turn;
use std::sync::Wait;

impl<B: Kept + Drop> Turn<B> {
    /// Waits for the seat's turn, and hands the value out.
    ///
    /// What the seat has seen before is a prefix of the history handed out, and no later entry there bears its number.
    pub fn take<R: Wait>(&self, rt: &R, seat: &mut Seat<B>) -> Held<B>
        requires own { IsSeatOf self.now seat.old }
        requires idle { IsIdle seat.old }
        ensures same { IsSameSeat seat.old seat.new }
        ensures holding { IsHolding seat.new }
        ensures saw { SeenPrefix B.number (number_of seat.old) (seen seat.old) (B.history (held_value result)) }
        ensures sees { seen seat.new ≡ B.history (held_value result) }
        ensures basis { B.basis (held_value result) ≡ B.basis (opening_value self.now) }
        ensures entries { entries_of B.number (number_of seat.old) (seen seat.new) ≡ entries_of B.number (number_of seat.old) (seen seat.old) }
    {
        let steps = &self.table.shared;
        let token = &mut seat.token;
        let drawn = steps.fetch_add::<DrawTicket>(token, 0, 1);
        self.wait_for_turn(rt, token, drawn);
        steps.load::<TakeSlot<B>>(token, 1);
        let Some(kept) = steps.exchange(token, 0, None) else {
            unreachable!()
        };
        Held::new(kept)
    }

    // Waits until the ticket that was drawn is served.
    fn wait_for_turn<R: Wait>(&self, rt: &R, token: &mut Token<B>, drawn: u64)
        requires own { (token.old.table_id ≡ self.now.table.shared.table_id) × (token.old.me.0.basis ≡ Some (B.basis (opening_value self.now))) }
        requires waiting { token.old.me.0.stage ≡ Waiting (ticket token.old.me.0.stage) }
        requires drawn { drawn ≡ ticket token.old.me.0.stage % 2 ^ 64 }
        ensures token { (token.new.table_id ≡ token.old.table_id) × (token.new.me.1 ≡ token.old.me.1) }
        ensures view { token.new.me.0 ≡ record token.old.me.0 { seen = token_seen token.new; stage = AtTurn (ticket token.old.me.0.stage) } }
        ensures saw { SeenPrefix B.number (token_number token.old) (token_seen token.old) (token_seen token.new) }
    {
        let steps = &self.table.shared;
        for _ in rt.forever() {
            let serving = steps.load::<LoadServing<B>>(token, 1);
            if serving == drawn {
                return;
            }
            steps.park(rt, 1, (serving % (1 << 32)) as u32);
        }
        unreachable!()
    }

    /// Gives the value back, and passes the turn on. The seat has then seen the history given back.
    ///
    /// The history may only have grown, by entries that bear the seat's number, and the basis is as it was handed out.
    pub fn give(&self, seat: &mut Seat<B>, held: Held<B>)
        requires own { IsSeatOf self.now seat.old }
        requires holding { IsHolding seat.old }
        requires adds { AddsOwn B.number (number_of seat.old) (seen seat.old) (B.history (held_value held)) }
        requires basis { B.basis (held_value held) ≡ B.basis (opening_value self.now) }
        ensures same { IsSameSeat seat.old seat.new }
        ensures idle { IsIdle seat.new }
        ensures sees { seen seat.new ≡ B.history (held_value held) }
        ensures entries { entries_of B.number (number_of seat.old) (seen seat.new) ≡ entries_of B.number (number_of seat.old) (seen seat.old) ++ drop (length (seen seat.old)) (seen seat.new) }
    {
        let kept = held.into_kept();
        let steps = &self.table.shared;
        let token = &mut seat.token;
        let None = steps.exchange(token, 0, Some(kept)) else {
            unreachable!()
        };
        steps.load::<ReturnSlot<B>>(token, 1);
        steps.fetch_add::<PassOn>(token, 1, 1);
        steps.wake_all(1);
    }
}
