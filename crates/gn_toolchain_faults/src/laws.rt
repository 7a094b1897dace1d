// What holds of the toolchains that targets use, and of the fault that is told of them.

ghost use Rattle.gn_toolchain_faults.specs.Laws.{TargetsUseThem, FirstPoolIsTold, NoPoolIsWrong, FirstFaultIsTold, NoneHasFaults};

use gn_labels::{label_order_has_no_ties, label_order_is_strict, label_order_is_transitive};

/// Just those toolchains are used that targets have in their labels, by the first items that define them.
pub fn targets_use_toolchains()
    ensures { TargetsUseThem }
{}

/// Of the pools that tools name and that aren't there, or are no pools, the first in label order is told, and none only where each is a
/// pool that is there.
pub fn the_first_pool_is_told()
    ensures first { FirstPoolIsTold }
    ensures none { NoPoolIsWrong }
{
    label_order_is_strict();
    label_order_is_transitive();
    label_order_has_no_ties();
}

/// The fault that is told is that of a toolchain that is used, none of those before which in label order has one; none is told only
/// where no toolchain that is used has a fault.
pub fn the_first_fault_is_told()
    ensures first { FirstFaultIsTold }
    ensures none { NoneHasFaults }
{
    label_order_is_strict();
    label_order_is_transitive();
    label_order_has_no_ties();
}
