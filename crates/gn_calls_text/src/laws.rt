// Laws of the calls.

ghost use Rattle.std.specs.Prelude.{◌≡◌, ◌↔◌, ℕ, pos, true, List, [], ◌∷◌, Some};
ghost use Rattle.gn_values.specs.Val.{Val, Vals, vint, vstr, vlist, vals_of, list_of};
ghost use Rattle.gn_values.specs.Limits.{text_fits};
ghost use Rattle.gn_calls_text.specs.declared.call.TextCall.TheVariants.{FilterInclude, FilterExclude, SplitList, StringJoin, StringSplit};
ghost use Rattle.gn_calls_text.specs.Answers.{gives, texts_in};
ghost use Rattle.gn_calls_text.specs.Calls.{text_call, text_list};
ghost use Rattle.gn_calls_text.specs.Patterns.{parts_of, matches};
ghost use Rattle.gn_calls_text.specs.Conversions.{trimmed};
ghost use Rattle.gn_calls_text.specs.Laws.{IsMerge, IsParted, IsMatch, IsTrimmed};

/// Texts that are a list of strings are the texts of that list.
#[tactic(auto, using(crate::proofs::LawLemmas::texts_back))]
pub fn texts_of_strings_are_the_texts()
    ensures { (texts : List (List ℕ)) → texts_in (vlist (vals_of (text_list texts))) ≡ Some texts }
{}

/// A string that was split at a separator and is joined with it is that string again.
#[tactic(auto, using(crate::proofs::LawLemmas::split_and_joined))]
pub fn joining_undoes_splitting()
    ensures { (text separator : List ℕ) (pieces : Vals) → text_fits text ≡ true
        → text_call StringSplit (vstr text ∷ vstr separator ∷ []) ≡ gives (vlist pieces)
        → text_call StringJoin (vstr separator ∷ vlist pieces ∷ []) ≡ gives (vstr text) }
{}

/// The lists that a list is split into are as many as were asked for, and joined in order are the list. The first ones,
/// as many as are left over where all are equally long, have one item more.
#[tactic(auto, using(crate::proofs::LawLemmas::list_parted))]
pub fn split_lists_are_the_list()
    ensures { (items parts : Vals) (count : ℕ)
        → text_call SplitList (vlist items ∷ vint (pos count) ∷ []) ≡ gives (vlist parts)
        → IsParted (list_of items) count (list_of parts) }
{}

/// What a filter includes and what it excludes is the list: each item is in just one of the two, in order.
#[tactic(auto, using(crate::proofs::LawLemmas::filters_merge))]
pub fn filters_part_a_list()
    ensures { (strings included excluded : Vals) (patterns : Val)
        → text_call FilterInclude (vlist strings ∷ patterns ∷ []) ≡ gives (vlist included)
        → text_call FilterExclude (vlist strings ∷ patterns ∷ []) ≡ gives (vlist excluded)
        → IsMerge (list_of included) (list_of excluded) (list_of strings) }
{}

/// A string matches a pattern exactly where it is made of pieces, one for each part of the pattern and what that part
/// stands for: `*` for any bytes, `\b` for a slash, or for nothing at the beginning or the end of the string, and every
/// other byte for itself.
#[tactic(auto, using(crate::proofs::MatchLemmas::match_is))]
pub fn patterns_match_by_pieces()
    ensures { (pattern text : List ℕ) → (matches pattern text ≡ true) ↔ IsMatch (parts_of pattern) text }
{}

/// What is left of a text that is trimmed stands in it between white space, and neither begins nor ends with any.
#[tactic(auto, using(crate::proofs::TrimLemmas::is_trimmed))]
pub fn trimming_takes_the_white_space_at_the_ends()
    ensures { (text : List ℕ) → IsTrimmed text (trimmed text) }
{}
