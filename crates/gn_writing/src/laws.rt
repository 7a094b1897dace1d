//! Laws of names and outputs in Ninja files, each as a call that does nothing and whose contract is the law.

ghost use Rattle.std.specs.Prelude.{◌≡◌, ℕ, List, Ok, true};
ghost use Rattle.gn_paths.specs.Components.{is_source};
ghost use Rattle.gn_paths.specs.Normal.{IsNormal};
ghost use Rattle.gn_paths.specs.Rebase.{seen_from};
ghost use Rattle.gn_paths.specs.Resolve.{path_meant, resolved};
ghost use Rattle.gn_writing.specs.Names.{mangled};

use gn_paths::{what_is_meant_is_in_normal_form, what_is_seen_leads_back};

/// Different texts have different mangled names.
#[tactic(auto, using(crate::proofs::OneText::one_text))]
pub fn different_texts_have_different_names()
    ensures { (a b : List ℕ) → mangled a ≡ mangled b → a ≡ b }
{}

/// What stands in a build line for a text that means a path leads from the build directory to that path.
pub fn what_is_written_leads_back()
    ensures { (build text path : List ℕ) → IsNormal build → is_source build ≡ true → path_meant build text ≡ Ok path → resolved build (seen_from build path) ≡ Ok path }
{
    what_is_meant_is_in_normal_form();
    what_is_seen_leads_back();
}
