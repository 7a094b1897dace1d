//! Laws of Ninja files, each as a call that does nothing and whose contract is the law.

ghost use Rattle.std.specs.Prelude.{◌≡◌, ◌++◌, ◌∷◌, [], ℕ, List, T, true, false};
ghost use Rattle.std.specs.List.{list_all};
ghost use Rattle.std.specs.Ordering.{nat_cmp};
ghost use Rattle.std.specs.Cmp.Lexicographic.{slice_cmp};
ghost use Rattle.std.specs.FinMap.{is_sorted};
ghost use Rattle.gn_ninja.specs.declared.phony.Claim.{Claim};
ghost use Rattle.gn_ninja.specs.Format.{part, firsts};
ghost use Rattle.gn_ninja.specs.Readings.{paths_read, before_colon};
ghost use Rattle.gn_ninja.specs.Phony.{winners, is_free};

/// What Ninja reads in a part of a build line is the list of its paths, each once, at its first place.
#[tactic(auto, using(crate::proofs::Readback::part_reads_back))]
pub fn what_stands_in_a_part_is_read_back()
    ensures { (paths : List (List ℕ)) → paths_read (part [] paths) ≡ [] ∷ firsts paths }
{}

/// What Ninja reads between `build` and the first colon that ends a path is the list of what the line makes.
#[tactic(auto, using(crate::proofs::Readback::outs_read_back))]
pub fn what_is_made_is_read_back()
    ensures { (paths : List (List ℕ)) (rest : List ℕ) → paths_read (before_colon false (part [] paths ++ 58 ∷ rest)) ≡ [] ∷ firsts paths }
{}

/// The names of phony lines rise, so each stands once.
#[tactic(auto, using(crate::proofs::NamesOnce::names_rise))]
pub fn each_name_stands_once()
    ensures { (taken : List (List ℕ)) (claims : List Claim) → T (is_sorted (slice_cmp nat_cmp) (winners taken claims)) }
{}

/// No name of a phony line is one that is taken, as those are that build lines make.
#[tactic(auto, using(crate::proofs::NamesFree::names_free))]
pub fn no_name_hides_an_output()
    ensures { (taken : List (List ℕ)) (claims : List Claim) → list_all (is_free taken) (winners taken claims) ≡ true }
{}
