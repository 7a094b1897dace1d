// What holds of loading whole builds, in any order, and of its errors.

ghost use Rattle.gn_projects.specs.ErrorLaws.{FaultsAreFound, ErrorIsFound, NoErrorIsDone, QuietHasFaults, QuietHasError};
ghost use Rattle.gn_projects.specs.Laws.{WholeBuildsAreLayered, FiledIsMeant, OrderDoesNotMatter, ClaimedHaveLayer, ToolchainsHaveHomes, FilesAreFound, LackingFilesAreWrong};

use gn_faults::{fault_order_has_no_ties, fault_order_is_strict, fault_order_is_transitive};
use gn_labels::a_toolchain_spells_its_name;

/// The laws of loading in any order hold of whole builds, over all files.
pub fn whole_builds_are_layered()
    ensures { WholeBuildsAreLayered }
{}

/// Whatever came first, what loading a whole build files is what its files mean, and it files the same once it has come to rest.
pub fn order_does_not_matter()
    ensures filed { FiledIsMeant }
    ensures agree { OrderDoesNotMatter }
{}

/// A unit is claimed only once all is filed that it sees: its build configuration, and the file that defines its toolchain.
pub fn claimed_keys_see_their_toolchain()
    ensures { ClaimedHaveLayer }
{}

/// The text by which labels name a toolchain leads to the directory of the file that defines it.
pub fn toolchains_have_homes()
    ensures { ToolchainsHaveHomes }
{
    a_toolchain_spells_its_name();
}

/// A build file is looked for at its path, and where nothing is there below the secondary source tree; one that is in neither
/// place is wrong at the first.
pub fn build_files_are_found()
    ensures found { FilesAreFound }
    ensures lacking { LackingFilesAreWrong }
{}

/// The error of loading is found unit by unit: a unit that is reached and isn't done has its own fault or that to which its
/// imports lead, and these are just the faults of wrong units, of the wrong imports that they need and of the cycles of imports,
/// one for each. The first of them is the error, unless the build exceeds a limit, and where there is none all units are done.
pub fn errors_are_found_by_units()
    ensures faults { FaultsAreFound }
    ensures error { ErrorIsFound }
    ensures done { NoErrorIsDone }
{
    fault_order_is_strict();
    fault_order_is_transitive();
    fault_order_has_no_ties();
}

/// When loading has come to rest, in whatever order, what is filed has the faults of the tree and its error.
pub fn errors_are_filed()
    ensures faults { QuietHasFaults }
    ensures error { QuietHasError }
{
    fault_order_is_strict();
    fault_order_is_transitive();
    fault_order_has_no_ties();
}
