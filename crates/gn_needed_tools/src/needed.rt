// Which tools an item needs.

ghost use Rattle.std.specs.Prelude.{◌≡◌, IfOk};
ghost use Rattle.std.specs.List.{list_any};
ghost use Rattle.gn_needed_tools.specs.Needed.{is_same, last_tool, needs_by_kind, has_objects, is_built_by, builds, needs_for_sources, is_compiler, needs};

use gn_items::{Item, ItemKind};
use gn_paths::Path;
use gn_rows::{ToolName, Variable};
use gn_writing::{SourceUse, use_of};
use std::alloc::{AllocError, Global};

// Whether two tools are one.
fn is_same(tool: ToolName, other: ToolName) -> bool
    ensures { result ≡ is_same tool other }
{
    tool.name() == other.name()
}

// The tool that makes what a target of the kind is known by: its output, or else its stamp.
fn last_tool(kind: ItemKind) -> ToolName
    ensures { result ≡ last_tool kind }
{
    match kind {
        ItemKind::StaticLibrary => ToolName::Alink,
        ItemKind::Executable => ToolName::Link,
        ItemKind::SharedLibrary => ToolName::Solink,
        ItemKind::LoadableModule => ToolName::SolinkModule,
        _ => ToolName::Stamp,
    }
}

// Whether each target of the kind needs the tool, whatever its sources are.
fn is_needed_by_kind(kind: ItemKind, tool: ToolName) -> bool
    ensures { result ≡ needs_by_kind kind tool }
{
    match kind {
        ItemKind::Copy => is_same(ToolName::Copy, tool) || is_same(ToolName::Stamp, tool),
        _ => kind.is_target() && is_same(last_tool(kind), tool),
    }
}

// Whether targets of the kind have objects, which are built of their sources.
fn has_objects(kind: ItemKind) -> bool
    ensures { result ≡ has_objects kind }
{
    matches!(
        kind,
        ItemKind::Executable
            | ItemKind::StaticLibrary
            | ItemKind::SharedLibrary
            | ItemKind::SourceSet
            | ItemKind::LoadableModule
    )
}

// Whether that is what the tool does with a source.
fn is_built_by(tool: ToolName, source_use: SourceUse) -> bool
    ensures { result ≡ is_built_by tool source_use }
{
    match source_use {
        SourceUse::Built(other) => is_same(other, tool),
        _ => false,
    }
}

// Whether the tool builds the source.
fn builds(alloc: Global, tool: ToolName, source: &Path) -> Result<bool, AllocError>
    ensures { IfOk result (λ b. b ≡ builds tool source.now) }
{
    Ok(is_built_by(tool, use_of(alloc, source)?))
}

// Whether the tool builds one of the sources.
fn any_built(alloc: Global, tool: ToolName, sources: &[Path]) -> Result<bool, AllocError>
    ensures { IfOk result (λ b. b ≡ list_any (builds tool) sources.now) }
{
    for source in sources {
        if builds(alloc, tool, source)? {
            return Ok(true);
        }
    }
    Ok(false)
}

// Whether the item needs the tool for one of its sources.
fn is_needed_for_sources(alloc: Global, item: &Item, tool: ToolName) -> Result<bool, AllocError>
    ensures { IfOk result (λ b. b ≡ needs_for_sources item.now tool) }
{
    if has_objects(item.kind) {
        return any_built(alloc, tool, item.fields.paths(Variable::Sources));
    }
    Ok(false)
}

// Whether it is a tool that builds sources.
fn is_compiler(tool: ToolName) -> bool
    ensures { result ≡ is_compiler tool }
{
    matches!(tool, ToolName::Asm | ToolName::Cc | ToolName::Cxx)
}

// Whether the item needs the tool.
#[tactic(auto, unfolding(crate::specs::Needed::needs))]
pub(crate) fn is_needed(alloc: Global, item: &Item, tool: ToolName) -> Result<bool, AllocError>
    ensures { IfOk result (λ b. b ≡ needs item.now tool) }
{
    if is_compiler(tool) {
        return is_needed_for_sources(alloc, item, tool);
    }
    Ok(is_needed_by_kind(item.kind, tool))
}
