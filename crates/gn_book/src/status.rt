// How a key stands.

ghost use Rattle.std.specs.Prelude.{◌≡◌, ◌<◌, Some, option_map, length, slice_get};
ghost use Rattle.gn_book.specs.Standings.{standing_of, stands_open, answer_in, on_in};
ghost use Rattle.gn_book.specs.Holders.{HoldsAs};

use crate::answer::Answer;
use crate::event::KeyId;

// Who has a key.
#[derive(Clone, Copy)]
pub(crate) enum Holder {
    // Nobody has claimed it.
    Nobody,
    // A seat has claimed it.
    Seat(u32),
    // It has its answer.
    Done,
}

// How a key stands.
#[derive(Drop)]
pub(crate) enum Status<A> {
    // Nobody has claimed it.
    Open,
    // The seat has claimed it.
    Claimed(u32),
    // The seat has claimed it, and it waits for another key.
    Blocked(u32, KeyId),
    // It has its answer.
    Filed(A),
}

// How a key stands.
pub(crate) fn status_at<A>(statuses: &[Status<A>], key: KeyId) -> &Status<A>
    requires { key < length statuses.now }
    ensures { slice_get statuses.now key ≡ Some result.now }
{
    match statuses.get(key) {
        Some(status) => status,
        None => unreachable!(),
    }
}

impl<A: Answer> Status<A> {
    // The answer of the key, if it has one.
    pub(crate) fn answer(&self) -> Option<&A>
        ensures { option_map (λ answer. A.meaning answer.now) result ≡ answer_in (Some (standing_of A.meaning self.now)) }
    {
        match self {
            Status::Open => None,
            Status::Claimed(_) => None,
            Status::Blocked(..) => None,
            Status::Filed(answer) => Some(answer),
        }
    }
    // Whether nobody has claimed the key, and it has no answer.
    pub(crate) fn is_open(&self) -> bool
        ensures { result ≡ stands_open (standing_of A.meaning self.now) }
    {
        match self {
            Status::Open => true,
            Status::Claimed(_) => false,
            Status::Blocked(..) => false,
            Status::Filed(_) => false,
        }
    }

    // The key for which the key waits.
    pub(crate) fn waits_for(&self) -> Option<KeyId>
        ensures { result ≡ on_in (Some (standing_of A.meaning self.now)) }
    {
        match self {
            Status::Open => None,
            Status::Claimed(_) => None,
            Status::Blocked(_, on) => Some(*on),
            Status::Filed(_) => None,
        }
    }

    // Who has the key.
    pub(crate) fn holder(&self) -> Holder
        ensures { HoldsAs (Some (standing_of A.meaning self.now)) result }
    {
        match self {
            Status::Open => Holder::Nobody,
            Status::Claimed(seat) => Holder::Seat(*seat),
            Status::Blocked(seat, _) => Holder::Seat(*seat),
            Status::Filed(_) => Holder::Done,
        }
    }
}
