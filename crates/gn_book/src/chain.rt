// Chains of keys that wait for one another.

ghost use Rattle.std.specs.Prelude.{◌≡◌, ◌↔◌, IsTrue, map, slice_get};
ghost use Rattle.gn_book.specs.Chains.{LeadsTo};
ghost use Rattle.gn_book.specs.Standings.{standing_of, next_of};

use crate::answer::Answer;
use crate::event::KeyId;
use crate::status::{Status, status_at};

// The key for which the key of a number waits.
fn next_key<A: Answer>(statuses: &[Status<A>], at: KeyId) -> Option<KeyId>
    ensures { result ≡ next_of (map (standing_of A.meaning) statuses.now) at }
{
    if at < statuses.len() {
        status_at(statuses, at).waits_for()
    } else {
        None
    }
}

// Whether the chain of keys that wait leads from one to another. It takes as many steps as the chain is long, at most one for
// each key.
pub(crate) fn leads_to<A: Answer>(statuses: &[Status<A>], from: KeyId, to: KeyId) -> bool
    ensures { IsTrue result ↔ LeadsTo (next_of (map (standing_of A.meaning) statuses.now)) from to }
{
    let mut at = from;
    for _step in 0..statuses.len() {
        if at == to {
            return true;
        }
        match next_key(statuses, at) {
            None => return false,
            Some(next) => {
                at = next;
            }
        }
    }
    at == to
}
