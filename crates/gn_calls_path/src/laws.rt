// Laws of the calls.

ghost use Rattle.std.specs.Prelude.{◌≡◌, ◌++◌, ℕ, true, false, List, [], ◌∷◌, Ok, codes};
ghost use Rattle.std.specs.List.{list_any};
ghost use Rattle.gn_labels.specs.Labels.{spelling};
ghost use Rattle.gn_labels.specs.Patterns.{is_star};
ghost use Rattle.std.specs.Str.{bytes_eq};
ghost use Rattle.gn_paths.specs.Components.{two_slashes, is_source};
ghost use Rattle.gn_paths.specs.Normal.{IsNormal};
ghost use Rattle.gn_paths.specs.Resolve.{resolved};
ghost use Rattle.gn_values.specs.Val.{Val, Vals, vbool, vstr, vlist, vals_of, list_of};
ghost use Rattle.gn_calls_text.specs.Answers.{gives};
ghost use Rattle.gn_calls_text.specs.Calls.{text_list};
ghost use Rattle.gn_calls_path.specs.declared.call.PathCall.TheVariants.{GetLabelInfo, GetPathInfo, LabelMatches, ProcessFileTemplate, RebasePath};
ghost use Rattle.gn_calls_path.specs.declared.place.Where.{Where};
ghost use Rattle.gn_calls_path.specs.Calls.{path_call};
ghost use Rattle.gn_calls_path.specs.Directories.{path_at};
ghost use Rattle.gn_calls_path.specs.Rebase.{current_base_at};
ghost use Rattle.gn_calls_path.specs.Laws.{AreGivenAlone};

use gn_calls_text::texts_of_strings_are_the_texts;
use gn_labels::a_pattern_without_a_star_is_a_label;
use gn_paths::what_is_shown_leads_back;

/// A label is its directory, a colon, its name, and its toolchain in parentheses.
#[tactic(auto, using(crate::proofs::LawLemmas::label_parts))]
pub fn a_label_is_its_parts()
    ensures { (w : Where) (text dir name toolchain whole : List ℕ)
        → path_call GetLabelInfo w (vstr text ∷ vstr (codes "dir") ∷ []) ≡ gives (vstr dir)
        → path_call GetLabelInfo w (vstr text ∷ vstr (codes "name") ∷ []) ≡ gives (vstr name)
        → path_call GetLabelInfo w (vstr text ∷ vstr (codes "toolchain") ∷ []) ≡ gives (vstr toolchain)
        → path_call GetLabelInfo w (vstr text ∷ vstr (codes "label_with_toolchain") ∷ []) ≡ gives (vstr whole)
        → whole ≡ spelling dir name ++ 40 ∷ (toolchain ++ 41 ∷ []) }
{}

/// A text without a star that is a label matches itself as a pattern.
pub fn a_label_matches_itself()
    ensures { (w : Where) (text : List ℕ) (name : Val) → list_any is_star text ≡ false
        → path_call GetLabelInfo w (vstr text ∷ vstr (codes "name") ∷ []) ≡ gives name
        → path_call LabelMatches w (vstr text ∷ vlist (vals_of (vstr text ∷ [])) ∷ []) ≡ gives (vbool true) }
{
    a_pattern_without_a_star_is_a_label();
}

/// What `get_path_info` gives for a list of paths is, at each place, what it gives for the path alone.
pub fn a_list_of_paths_is_told_one_by_one()
    ensures { (w : Where) (texts : List (List ℕ)) (what : Val) (results : Vals)
        → path_call GetPathInfo w (vlist (vals_of (text_list texts)) ∷ what ∷ []) ≡ gives (vlist results)
        → AreGivenAlone (λ v. path_call GetPathInfo w (v ∷ what ∷ [])) (text_list texts) (list_of results) }
{
    texts_of_strings_are_the_texts();
}

/// `process_file_template` with `{{source}}` alone gives what `get_path_info` gives for `abspath`.
#[tactic(auto, using(crate::proofs::LawLemmas::source_is_abspath))]
pub fn a_source_is_its_path()
    ensures { (w : Where) (sources : Vals)
        → path_call ProcessFileTemplate w (vlist sources ∷ vstr (codes "{{source}}") ∷ [])
        ≡ path_call GetPathInfo w (vlist sources ∷ vstr (codes "abspath") ∷ []) }
{}

/// What `rebase_path` shows of a path of the source tree from one of its directories leads back to the path from there;
/// the source root itself aside, whose final slash isn't the path's.
pub fn what_is_rebased_leads_back()
    ensures { (w : Where) (p b c s here base path : List ℕ) → IsNormal base → is_source base ≡ true
        → IsNormal path → is_source path ≡ true → bytes_eq path two_slashes ≡ false
        → current_base_at w c ≡ Ok here → path_at here p ≡ Ok path → path_at w.directory b ≡ Ok base
        → path_call RebasePath w (vstr p ∷ vstr b ∷ vstr c ∷ []) ≡ gives (vstr s) → resolved base s ≡ Ok path }
{
    what_is_shown_leads_back();
}
