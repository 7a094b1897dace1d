//! Laws about tokens, each as a call that does nothing and whose contract is the law.

ghost use Rattle.std.specs.Prelude.{◌≡◌, ◌≤◌, ◌+◌, ◌-◌, ℕ, List, ◌∷◌, [], length, drop, Option, Result, false};
ghost use Rattle.gn_tokens.specs.declared.token.Token.{Token};
ghost use Rattle.gn_tokens.specs.declared.token.TokenError.{TokenError};
ghost use Rattle.gn_tokens.specs.Next.{Reader, IsNext};
ghost use Rattle.gn_tokens.specs.Text.{IsString, Reads, AllExpand, is_stop, text_items, string_items, front_item, item_bytes};

/// There is one right answer: of two answers of which `Tokens::next` may promise the same, one is the other.
pub fn next_token_is_one()
    ensures { (reader : Reader) (one other : Result (Option Token) TokenError) → reader.at ≤ length reader.bytes → IsNext reader one → IsNext reader other → one ≡ other }
{}

/// The bytes of a string behind its opening quote are those of its items and then the closing quote, and each `$` among them is of an escape or an expansion.
pub fn string_is_its_items()
    ensures { (text : List ℕ) → IsString (34 ∷ text) → Reads (text_items text) text (34 ∷ []) × AllExpand (text_items text) }
{}

/// The items of a text are the item at its front, with its offset, and then those of what comes behind that item.
pub fn items_one_after_the_other()
    ensures { (at b : ℕ) (bs : List ℕ) → is_stop b ≡ false → (let len = length (item_bytes (front_item b bs)) in string_items at (b ∷ bs) ≡ (at, front_item b bs) ∷ string_items (at + len) (drop (len - 1) bs)) }
{}
