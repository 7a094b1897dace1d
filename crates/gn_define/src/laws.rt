//! Laws of what blocks define, each as a call that does nothing and whose contract is the law.

ghost use Rattle.std.specs.Prelude.{◌≡◌, ℕ, List, [], ◌++◌, map, Option, Ok};
ghost use Rattle.std.specs.List.{filter, list_any, IsDistinct};
ghost use Rattle.std.specs.Str.{bytes_eq};
ghost use Rattle.gn_rows.specs.declared.row.Row.{Row};
ghost use Rattle.gn_rows.specs.declared.variable.Variable.{Variable};
ghost use Rattle.gn_rows.specs.Tables.{demands_of};
ghost use Rattle.gn_substs.specs.declared.subst.Subst.{Subst};
ghost use Rattle.gn_values.specs.Val.{Val};
ghost use Rattle.gn_define.specs.declared.forms.FileRole.TheVariants.{Output};
ghost use Rattle.gn_define.specs.declared.place.Where.{Where};
ghost use Rattle.gn_define.specs.Defining.{block_defines};
ghost use Rattle.gn_define.specs.Fields.{filled};
ghost use Rattle.gn_define.specs.Files.{file_in};
ghost use Rattle.gn_define.specs.Held.{Held};
ghost use Rattle.gn_define.specs.Laws.{is_set, AreFieldsOf, file_texts, StandBelow, AreMet};
ghost use Rattle.gn_define.specs.Outputs.{paths_behind};
ghost use Rattle.gn_define.specs.Reading.{then_do};

/// The first rows are judged before the others: their fault stands, and else the others go on from their fields.
#[tactic(auto, using(crate::proofs::FoldLemmas::goes_on))]
pub fn first_rows_come_first()
    ensures { (w : Where) (values : List ℕ → Option Val) (made : List (Variable × Held)) (first others : List Row) → filled w values made (first ++ others) ≡ then_do (λ more. filled w values more others) (filled w values made first) }
{}

/// An item that is defined has a field for just those of its rows whose variable its block sets, in their order, and each field is
/// what the value of its variable is read as.
#[tactic(auto, using(crate::proofs::FoldLemmas::fields_are))]
pub fn fields_are_of_the_block()
    ensures { (w : Where) (rows : List Row) (name : List ℕ) (values : List ℕ → Option Val) (fields : List (Variable × Held)) → block_defines w rows name values ≡ Ok fields → AreFieldsOf w values [] fields (filter (is_set values) rows) }
{}

/// An item that is defined meets all that its kind demands.
#[tactic(auto, using(crate::proofs::FoldLemmas::demands_are_met))]
pub fn demands_are_met()
    ensures { (w : Where) (rows : List Row) (name : List ℕ) (values : List ℕ → Option Val) (fields : List (Variable × Held)) → block_defines w rows name values ≡ Ok fields → AreMet fields (demands_of w.kind name) }
{}

/// A text that is taken as an output means, for each source, a path strictly below the build directory.
#[tactic(auto, using(crate::proofs::FileLemmas::outputs_below))]
pub fn outputs_stand_below_the_build_directory()
    ensures { (w : Where) (sources : List (List ℕ)) (text : List ℕ) (subst : Subst) → file_in w Output sources text ≡ Ok subst → StandBelow w (file_texts w Output sources subst) }
{}

/// What texts make at once stands once each, and is just what each of them makes.
#[tactic(auto, using(crate::proofs::OnceLemmas::stand_once, crate::proofs::OnceLemmas::are_all))]
pub fn outputs_stand_once_each()
    ensures once { (path : Subst → List ℕ) (substs : List Subst) → IsDistinct bytes_eq (paths_behind path [] substs) }
    ensures all { (path : Subst → List ℕ) (p : List ℕ) (substs : List Subst) → list_any (bytes_eq p) (paths_behind path [] substs) ≡ list_any (bytes_eq p) (map path substs) }
{}
