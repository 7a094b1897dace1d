//! What holds of the records of targets, each as a call that does nothing and whose contract is the law.

ghost use Rattle.std.specs.Prelude.{List};
ghost use Rattle.std.specs.List.{IsDistinct};
ghost use Rattle.gn_labels.specs.declared.label.Label.{Label};
ghost use Rattle.gn_dependencies.specs.Lists.{same_label};
ghost use Rattle.gn_items.specs.declared.item.Item.{Item};
ghost use Rattle.gn_labelled.specs.Graphs.{shape_of};
ghost use Rattle.gn_resolved_meant.specs.Along.{applied_in};
ghost use Rattle.gn_resolve.specs.Resolved.{labels_in};
ghost use Rattle.gn_resolve.specs.Laws.{MakesRight, PartIsEnough};

use gn_dependencies::each_label_stands_once;
use gn_records::{exports_need_no_dependency, objects_need_no_dependency};
use gn_resolved_meant::{
    configurations_come_along, hard_targets_are_led_to, hard_targets_come_along,
    inherited_libraries_are_placed,
};

/// Each configuration applies to a target once.
#[tactic(auto, unfolding(gn_resolved_meant::specs::Along::applied_in))]
pub fn each_configuration_applies_once()
    ensures { (items : List Item) (t : Label) → IsDistinct same_label (applied_in (labels_in items) (shape_of items) t) }
{
    each_label_stands_once();
}

/// What is made of a target is right where what is kept of other targets is and all its dependencies are among them.
pub fn what_is_made_is_right()
    ensures { MakesRight }
{
    exports_need_no_dependency();
    objects_need_no_dependency();
    configurations_come_along();
    hard_targets_are_led_to();
    hard_targets_come_along();
    inherited_libraries_are_placed();
}

/// So a part of the targets is enough that has all dependencies of its targets and of this one: what is made of it is what is made
/// where all others are resolved.
pub fn a_part_of_the_targets_is_enough()
    ensures { PartIsEnough }
{
    what_is_made_is_right();
    configurations_come_along();
}
