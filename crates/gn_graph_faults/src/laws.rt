// What holds of the faults of targets.

ghost use Rattle.gn_graph_faults.specs.Laws.{ThereIsOneList, FirstIsLeast};

/// One list of faults is told of a target: their order leaves no ties.
pub fn there_is_one_list_of_faults()
    ensures { ThereIsOneList }
{}

/// The first fault of the first target that has one comes before all others, by target in label order, code and labels, where the
/// targets stand in label order.
pub fn the_first_fault_is_the_least()
    ensures { FirstIsLeast }
{}
