// Which rows and which demands a kind has.

ghost use Rattle.std.specs.Prelude.{◌≡◌};
ghost use Rattle.gn_rows.specs.Tables.{rows_of, demands_of, tool_demands};

use crate::kinds::{ItemKind, ToolName};
use crate::others::{
    CONFIG_ROWS, PLAIN_TOOL_DEMANDS, POOL_DEMANDS, POOL_ROWS, TOOL_DEMANDS, TOOL_ROWS,
    TOOLCHAIN_ROWS,
};
use crate::row::{Demand, Row};
use crate::targets::{ACTION_DEMANDS, COPY_DEMANDS, FOREACH_DEMANDS, TARGET_ROWS};

/// The rows of a kind, in the order in which they are looked at. The kinds of targets share theirs.
pub fn rows_of(kind: ItemKind) -> &'static [Row]
    ensures { result.now ≡ rows_of kind }
{
    match kind {
        ItemKind::Config => &CONFIG_ROWS,
        ItemKind::Pool => &POOL_ROWS,
        ItemKind::Toolchain => &TOOLCHAIN_ROWS,
        ItemKind::Tool => &TOOL_ROWS,
        _ => &TARGET_ROWS,
    }
}

/// What a kind demands of its variables, in the order in which it is judged. What a tool demands depends on its name.
pub fn demands_of(kind: ItemKind, name: &[u8]) -> &'static [Demand]
    ensures { result.now ≡ demands_of kind name.now }
{
    match kind {
        ItemKind::Action => &ACTION_DEMANDS,
        ItemKind::ActionForeach => &FOREACH_DEMANDS,
        ItemKind::Copy => &COPY_DEMANDS,
        ItemKind::Pool => &POOL_DEMANDS,
        ItemKind::Tool => tool_demands(ToolName::named(name)),
        _ => &[],
    }
}

// What a tool demands.
fn tool_demands(tool: Option<ToolName>) -> &'static [Demand]
    ensures { result.now ≡ tool_demands tool }
{
    match tool {
        Some(ToolName::Copy | ToolName::Stamp) => &PLAIN_TOOL_DEMANDS,
        _ => &TOOL_DEMANDS,
    }
}
