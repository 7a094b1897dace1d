// What a seat does next.

ghost use Rattle.std.specs.Prelude.{◌≡◌};
ghost use Rattle.gn_book.specs.Next.{next_by};

use crate::event::{Cause, KeyId};

/// What a seat that has no claim does next.
#[derive(Clone, Copy, Debug)]
pub enum Next {
    /// It may claim this key.
    Work(KeyId),
    /// No key is ready, and this seat has claimed this key: when that has its answer, there may be more to do.
    Later(KeyId, u32),
    /// Nothing: no key is ready, and none is claimed.
    Quiet,
    /// Nothing: loading has stopped, for this cause.
    Stopped(Cause),
}

// What comes next, by the first key that is ready and by one that is claimed.
pub(crate) fn next_by(ready: Option<KeyId>, held: Option<(KeyId, u32)>) -> Next
    ensures { result ≡ next_by ready held }
{
    match ready {
        Some(number) => Next::Work(number),
        None => match held {
            Some((number, seat)) => Next::Later(number, seat),
            None => Next::Quiet,
        },
    }
}
