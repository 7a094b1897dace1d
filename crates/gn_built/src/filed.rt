// What is filed in the book of a build that was loaded.

ghost use Rattle.std.specs.Prelude.{◌≡◌, ◌<◌, length, option_map};
ghost use Rattle.gn_book.specs.Keys.{key_of};
ghost use Rattle.gn_book.specs.Logs.{key_at, state_of};
ghost use Rattle.gn_answers.specs.Answers.{meaning_of};

use gn_answers::{Answer, Filed};
use gn_book::{Closed, KeyId};
use gn_items::Key;

/// What is filed for a key. None comes exactly where nothing is.
pub(crate) fn find<'a>(book: &'a Closed<Answer>, key: &Key) -> Option<&'a Filed>
    ensures { option_map (λ filed. meaning_of filed.now) result ≡ (state_of book.now).filed (key_of key.now) }
{
    match book.find(key) {
        Some(answer) => Some(answer.filed()),
        None => None,
    }
}

/// What is filed for the key of a number. None comes exactly where nothing is.
pub(crate) fn find_at<'a>(book: &'a Closed<Answer>, number: KeyId) -> Option<&'a Filed>
    requires { number < length book.now.keys }
    ensures { option_map (λ filed. meaning_of filed.now) result ≡ (state_of book.now).filed (key_at book.now number) }
{
    match book.answer(number) {
        Some(answer) => Some(answer.filed()),
        None => None,
    }
}
