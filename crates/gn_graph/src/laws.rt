// What answers reach.

ghost use Rattle.gn_graph.specs.Laws.{OrderIsFree, MoreReachMore};

/// The same answers in another order reach the same units and generate the same labels.
pub fn order_of_answers_is_free()
    ensures { OrderIsFree }
{}

/// One more answer loses nothing: what was reached is reached, and what was generated is generated.
pub fn more_answers_reach_more()
    ensures { MoreReachMore }
{}
