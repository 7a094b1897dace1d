// Labels in label order.

ghost use Rattle.gn_graph_faults.specs.Order.{AreInOrder};

use gn_labels::{Label, label_order_has_no_ties};
use gn_paths::Text;

/// Puts labels in label order, each once. It takes no memory.
pub fn put_in_order(labels: &mut Vec<Label>, default: &Text)
    ensures { AreInOrder default.now labels.old.items labels.new.items }
{
    label_order_has_no_ties();
    labels.sort_unstable_by(|label, other| label.compare(other, default));
    labels.dedup();
}
