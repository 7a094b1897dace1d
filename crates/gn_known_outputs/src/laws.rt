//! Laws of the outputs of items, each as a call that does nothing and whose contract is the law.

ghost use Rattle.std.specs.Prelude.{◌≡◌, ℕ, List, Option, Ok, true};
ghost use Rattle.std.specs.List.{list_all};
ghost use Rattle.gn_paths.specs.Directory.{is_below};
ghost use Rattle.gn_rows.specs.declared.variable.Variable.{Variable};
ghost use Rattle.gn_rows.specs.Names.{is_target};
ghost use Rattle.gn_rows.specs.Tables.{rows_of};
ghost use Rattle.gn_values.specs.Val.{Val};
ghost use Rattle.gn_define.specs.declared.place.Where.{Where};
ghost use Rattle.gn_define.specs.Defining.{block_defines};
ghost use Rattle.gn_define.specs.Held.{Held};
ghost use Rattle.gn_define.specs.Outputs.{outputs_of};

use gn_define::{fields_are_of_the_block, outputs_stand_below_the_build_directory};

/// Each path that a target makes by its own texts stands strictly below the build directory, once the target is defined.
pub fn known_outputs_stand_below_the_build_directory()
    ensures { (w : Where) (name : List ℕ) (values : List ℕ → Option Val) (fields : List (Variable × Held)) → is_target w.kind ≡ true → block_defines w (rows_of w.kind) name values ≡ Ok fields → list_all (is_below w.build) (outputs_of w fields) ≡ true }
{
    fields_are_of_the_block();
    outputs_stand_below_the_build_directory();
}
