// What holds of the Ninja files of a whole build.

ghost use Rattle.gn_file_laws.specs.Laws.{FilesArePrinted, TargetsMakeOnce, MakersAreOne, OutputsAreMadeOnce, LeftSidesStandOnce};

use gn_build_faults::targets_have_their_dependencies;
use gn_ninja::{each_name_stands_once, no_name_hides_an_output};
use gn_records::what_is_made_needs_no_dependency;

/// The texts of the files of a build are those of its blocks, file by file: so what is said of the left sides of these blocks is said of
/// the build lines of its files.
#[tactic(auto, using(crate::proofs::Printed::files_printed))]
pub fn files_are_printed_of_their_blocks()
    ensures { FilesArePrinted }
{}

/// Where no fault is told of a build, each output stands on the left of exactly one build line: the file of a target makes nothing
/// twice, two targets that make one output are one, and the outputs of all targets, each of which is named once, have no repeats. Nor
/// have these with the names of the phony lines of build.ninja, unless a target makes an output of the name `all`.
pub fn each_output_is_made_once()
    ensures in_target { TargetsMakeOnce }
    ensures makers { MakersAreOne }
    ensures outputs { OutputsAreMadeOnce }
    ensures left_sides { LeftSidesStandOnce }
{
    targets_have_their_dependencies();
    what_is_made_needs_no_dependency();
    each_name_stands_once();
    no_name_hides_an_output();
}
