// What holds of items that are found by their labels.

ghost use Rattle.gn_labelled.specs.Laws.{FindsTheFirst, LacksTheAbsent, TellsTheRepeated, OrderDoesNotMatter, OrderKeepsTheGraph};

/// An item is found exactly where the list has one of that label, and it is the first of them.
pub fn the_first_item_is_found()
    ensures first { FindsTheFirst }
    ensures absent { LacksTheAbsent }
{}

/// The items that are told as repeated are those that stand behind another item of their label.
pub fn each_repetition_is_told()
    ensures { TellsTheRepeated }
{}

/// Two lists of the same items make the same finds in whatever order they are, where no label is defined twice; and so the same
/// graph.
pub fn the_order_of_items_does_not_matter()
    ensures finds { OrderDoesNotMatter }
    ensures graph { OrderKeepsTheGraph }
{}
