// Names that several toolchains have.

ghost use Rattle.std.specs.Prelude.{◌≡◌};
ghost use Rattle.gn_toolchains.specs.Toolchains.{lent};
ghost use Rattle.gn_toolchain_faults.specs.Faults.{is_namesake, has_namesake};

use gn_items::Item;
use gn_paths::Text;

// Whether another toolchain stands before this one in label order and has its name.
fn is_namesake(default: &Text, item: &Item, other: &Item) -> bool
    ensures { result ≡ is_namesake default.now item.now other.now }
{
    other.label.before(&item.label, default) && other.label.name == item.label.name
}

/// Whether one of the toolchains stands before this one in label order and has its name. It takes no memory.
pub(crate) fn has_namesake(default: &Text, item: &Item, others: &[&Item]) -> bool
    ensures { result ≡ has_namesake default.now item.now (lent others.now) }
{
    for other in others {
        if is_namesake(default, item, other) {
            return true;
        }
    }
    false
}
