// The tools that an item needs and its toolchain lacks.

ghost use Rattle.std.specs.Prelude.{◌≡◌, [], ◌∷◌, ◌++◌, IfOk, OnOk};
ghost use Rattle.gn_rows.specs.Names.{tool_name};
ghost use Rattle.gn_items.specs.Tools.{has_name};
ghost use Rattle.gn_needed_tools.specs.Needed.{is_missing, missing_among, missing_tools};

use crate::needed::is_needed;
use gn_items::{Item, Tool};
use gn_paths::Text;
use gn_rows::ToolName;
use std::alloc::{AllocError, Global};

// All tools, in the order of the bytes of their names.
static TOOLS: [ToolName; 9] = [
    ToolName::Alink,
    ToolName::Asm,
    ToolName::Cc,
    ToolName::Copy,
    ToolName::Cxx,
    ToolName::Link,
    ToolName::Solink,
    ToolName::SolinkModule,
    ToolName::Stamp,
];

// Whether one of these tools has the name.
fn has_name(tools: &[Tool], name: &[u8]) -> bool
    ensures { result ≡ has_name name.now tools.now }
{
    for tool in tools {
        if tool.name.as_bytes() == name {
            return true;
        }
    }
    false
}

// Whether the item needs the tool, and none of these is that tool.
fn is_missing(
    alloc: Global,
    item: &Item,
    tools: &[Tool],
    tool: ToolName,
) -> Result<bool, AllocError>
    ensures { IfOk result (λ b. b ≡ is_missing item.now tools.now tool) }
{
    if has_name(tools, tool.name()) {
        return Ok(false);
    }
    is_needed(alloc, item, tool)
}

// Puts the name of a tool behind the others.
fn push_name(alloc: Global, names: &mut Vec<Text>, tool: ToolName) -> Result<(), AllocError>
    ensures { OnOk result (names.new.items ≡ names.old.items ++ tool_name tool ∷ []) }
{
    let name = Text::from_bytes(alloc, tool.name())?;
    names.push(name)?;
    Ok(())
}

// Puts the name of a tool behind the others, where it is missing.
fn add_missing(
    alloc: Global,
    names: &mut Vec<Text>,
    item: &Item,
    tools: &[Tool],
    tool: ToolName,
) -> Result<(), AllocError>
    ensures { OnOk result (names.new.items ≡ names.old.items ++ missing_among item.now tools.now (tool ∷ [])) }
{
    if is_missing(alloc, item, tools, tool)? {
        return push_name(alloc, names, tool);
    }
    Ok(())
}

// The names of those of some tools that the item needs and none of its toolchain's tools has.
#[tactic(auto, using(crate::proofs::MissingLemmas::missing_more))]
fn missing_among(
    alloc: Global,
    item: &Item,
    tools: &[Tool],
    some: &[ToolName],
) -> Result<Vec<Text>, AllocError>
    ensures { IfOk result (λ names. names.items ≡ missing_among item.now tools.now some.now) }
{
    let mut names = Vec::new(alloc);
    for tool in some {
        add_missing(alloc, &mut names, item, tools, *tool)?;
    }
    Ok(names)
}

/// The names of the tools that an item needs and none of the tools of its toolchain has, each once, in the order of their bytes. A
/// target needs the tool that makes its output, or else `stamp`; a copy needs `copy` too; and a target that has objects
/// needs `cc`, `cxx` and `asm` where one of its sources has an extension that is theirs. Other items need none.
pub fn missing_tools(alloc: Global, item: &Item, tools: &[Tool]) -> Result<Vec<Text>, AllocError>
    ensures { IfOk result (λ names. names.items ≡ missing_tools item.now tools.now) }
{
    missing_among(alloc, item, tools, &TOOLS)
}
