// Paths of an item, as seen from the build directory.

ghost use Rattle.std.specs.Prelude.{◌≡◌, IfOk};
ghost use Rattle.gn_records.specs.Around.{around};
ghost use Rattle.gn_records.specs.Outputs.{paths_at};

use crate::context::Context;
use gn_items::Item;
use gn_paths::Texts;
use gn_rows::Variable;
use gn_writing::all_seen;
use std::alloc::{AllocError, Global};

// The paths of a variable.
pub(crate) fn paths_at(
    alloc: Global,
    context: &Context<'_>,
    item: &Item,
    variable: Variable,
) -> Result<Texts, AllocError>
    ensures { IfOk result (λ paths. paths ≡ paths_at (around context.now) item.now variable) }
{
    all_seen(alloc, context.build, item.fields.paths(variable))
}
