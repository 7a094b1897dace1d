// What holds of targets of which no fault is told.

ghost use Rattle.gn_build_faults.specs.Laws.{FaultlessTargetsEnd, TargetsAreClosed, GeneratedAreTargets};

use gn_graph_meant::the_labels_of_items_are_enough;
use gn_resolved_meant::{faultless_targets_reach_no_cycle, reached_targets_are_closed};

/// Where a list has the dependencies of its targets and no fault of them is told, each reaches no cycle: so all of them can be resolved.
pub fn faultless_targets_can_be_resolved()
    ensures { FaultlessTargetsEnd }
{
    the_labels_of_items_are_enough();
    faultless_targets_reach_no_cycle();
}

/// The targets of which faults are told have their dependencies among them, and those that are generated.
pub fn targets_have_their_dependencies()
    ensures closed { TargetsAreClosed }
    ensures generated { GeneratedAreTargets }
{
    the_labels_of_items_are_enough();
    reached_targets_are_closed();
}
