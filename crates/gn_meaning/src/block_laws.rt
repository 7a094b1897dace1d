// What a block leaves around it, and what a list that is written out is.

ghost use Rattle.gn_meaning.specs.BlockLaws.{BlocksKeepSurroundings, ExpressionsKeepSurroundings, ListsAreTheirValues};
ghost use Rattle.gn_meaning.specs.TemplateLaws.{BodiesDontCallTheirTemplates};

/// A block that ends leaves what stands around its scope: the setting, the number of layers, their templates and defaults but
/// those of the innermost one, which of them are checked, the callers with their layers, the body that runs, and the depth.
/// The same holds of an expression that has a value.
pub fn evaluations_leave_their_surroundings()
    ensures blocks { BlocksKeepSurroundings }
    ensures expressions { ExpressionsKeepSurroundings }
{}

/// A list that is written out is the list of the values of its items, each evaluated in what those before it left; where one
/// of them has no value, the list ends as that one does, and where the list is above the limits, it is refused.
pub fn lists_are_the_values_of_their_items()
    ensures { ListsAreTheirValues }
{}

/// In the body of a template, and in that of a template that is defined there, however deep, nothing calls the template: what
/// a block does there, with all blocks of calls in it, is the same whatever the template's body would do, as long as the bodies
/// of all other templates do the same, and the expressions come to the same that are read from files: they are no part of the body.
pub fn bodies_never_call_their_templates()
    ensures { BodiesDontCallTheirTemplates }
{}
