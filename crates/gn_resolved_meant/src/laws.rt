// What holds of what comes along dependencies as functions.

ghost use Rattle.gn_dependencies.specs.Configurations.{IsApplied, IsPushed, IsPushedPublic};
ghost use Rattle.gn_resolved_meant.specs.Along.{applied_in, pushed_in, pushed_public_in};
ghost use Rattle.gn_resolved_meant.specs.Laws.{Settles, IsTheOne, MembersDecide, PutsInOrder, IsInOrder, ReachesThose, ReachedAreClosed, AreTheReached, FaultlessEnd, HardAreLedTo, HardComesAlong, HardComesWithin, HardIsJoined, AreTheHard, WalksThose, Inherits, AreTheInherited};

use gn_dependencies::{no_cycle_is_bounded_paths, there_is_one_order, there_is_one_record};
use gn_graph_meant::{the_least_fault_is_told, the_shortest_path_is_found};
use gn_labels::label_order_has_no_ties;

/// The functions give what is said of the configurations of a target that reaches no cycle.
pub fn configurations_are_given()
    ensures applied { Settles applied_in IsApplied }
    ensures pushed { Settles pushed_in IsPushed }
    ensures public { Settles pushed_public_in IsPushedPublic }
{}

/// And whatever is said to be these configurations is what the functions give, where only the listed labels have dependencies.
pub fn configurations_come_along()
    ensures applied { IsTheOne applied_in IsApplied }
    ensures pushed { IsTheOne pushed_in IsPushed }
    ensures public { IsTheOne pushed_public_in IsPushedPublic }
{
    configurations_are_given();
    no_cycle_is_bounded_paths();
    there_is_one_record();
}

/// A list in label order whose labels stand once is determined by its labels; so the labels of a list in this order are one list.
pub fn labels_have_one_order()
    ensures one { MembersDecide }
    ensures puts { PutsInOrder }
    ensures is { IsInOrder }
{
    label_order_has_no_ties();
}

/// Just the labels that dependencies lead to are reached, so the list has the dependencies of its labels; and whatever has just
/// these in label order, each once, is the list.
pub fn reached_targets_are_closed()
    ensures those { ReachesThose }
    ensures closed { ReachedAreClosed }
    ensures is { AreTheReached }
{
    label_order_has_no_ties();
}

/// Where a list has the dependencies of its labels and none of them has a fault, each reaches no cycle.
pub fn faultless_targets_reach_no_cycle()
    ensures { FaultlessEnd }
{
    no_cycle_is_bounded_paths();
    the_least_fault_is_told();
    the_shortest_path_is_found();
}

/// What is done before the objects of a target are built are the targets of its kinds to which dependencies lead.
pub fn hard_targets_are_led_to()
    ensures { HardAreLedTo }
{
    label_order_has_no_ties();
}

/// A target has those of its dependencies that are of these kinds and what its dependencies have, and nothing else; so whatever has
/// just these in label order, each once, is the list.
pub fn hard_targets_come_along()
    ensures along { HardComesAlong }
    ensures within { HardComesWithin }
    ensures joined { HardIsJoined }
    ensures is { AreTheHard }
{
    label_order_has_no_ties();
}

/// The libraries that are placed are those that a target inherits that reaches no cycle, and no others are.
pub fn inherited_libraries_are_placed()
    ensures walked { WalksThose }
    ensures inherits { Inherits }
    ensures is { AreTheInherited }
{
    label_order_has_no_ties();
    there_is_one_order();
}
