// What holds of the faults of targets as functions.

ghost use Rattle.gn_graph_meant.specs.Laws.{FindsShortest, FindsForbidden, TellsFaults, TellsLeast, ThereIsOneFault, IsTheLeast, ListsAgree, ItemsAreEnough};

use gn_cycles::there_is_one_shortest_path;
use gn_faults::codes_have_different_numbers;
use gn_graph_faults::there_is_one_list_of_faults;
use gn_labels::label_order_has_no_ties;

/// Only the listed labels have dependencies, where no other has anything at a variable: so it is with the labels of all items.
pub fn the_labels_of_items_are_enough()
    ensures { ItemsAreEnough }
{}

/// Where only the listed labels have dependencies, the path that is found is the shortest, and none is found where there is none.
pub fn the_shortest_path_is_found()
    ensures { FindsShortest }
{}

/// The target that is found is the first in label order of those that mustn't be reached.
pub fn the_first_forbidden_target_is_found()
    ensures { FindsForbidden }
{
    label_order_has_no_ties();
}

/// Of each target just the faults are told that it has, in their order and each once; of several, the first of the first that has one.
pub fn the_least_fault_is_told()
    ensures faults { TellsFaults }
    ensures least { TellsLeast }
{
    codes_have_different_numbers();
    label_order_has_no_ties();
    there_is_one_shortest_path();
}

/// There is one least fault, so whatever is told as such is just the one that the function gives, whichever list of labels it is given.
pub fn there_is_one_least_fault()
    ensures one { ThereIsOneFault }
    ensures is { IsTheLeast }
    ensures agree { ListsAgree }
{
    there_is_one_list_of_faults();
    the_least_fault_is_told();
}
