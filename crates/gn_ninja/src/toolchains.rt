// The files of toolchains.

ghost use Rattle.std.specs.Prelude.{◌≡◌, OnOk, map};
ghost use Rattle.gn_writing.specs.Kinds.{tool_block, toolchain_blocks};
ghost use Rattle.gn_ninja.specs.Format.{with_block, with_blocks};

use crate::blocks::{append_rule, append_subninjas};
use crate::lines::{Binding, Value};
use gn_paths::Texts;
use gn_writing::Tool;
use std::alloc::{AllocError, Global};

// Puts the rule of a tool at the end.
fn append_tool(alloc: Global, text: &mut Vec<u8>, tool: &Tool) -> Result<(), AllocError>
    ensures { OnOk result (text.new.items ≡ with_block text.old.items (tool_block tool.now)) }
{
    append_rule(
        alloc,
        text,
        &tool.rule,
        &[
            Binding {
                name: b"command",
                value: Value::WrittenIf(&tool.command),
            },
            Binding {
                name: b"depfile",
                value: Value::WrittenIf(&tool.depfile),
            },
            Binding {
                name: b"deps",
                value: Value::WrittenIf(&tool.depsformat),
            },
            Binding {
                name: b"description",
                value: Value::WrittenIf(&tool.description),
            },
            Binding {
                name: b"pool",
                value: Value::WrittenIf(&tool.pool),
            },
            Binding {
                name: b"restat",
                value: Value::WrittenIf(&tool.restat),
            },
            Binding {
                name: b"rspfile",
                value: Value::WrittenIf(&tool.rspfile),
            },
            Binding {
                name: b"rspfile_content",
                value: Value::WrittenIf(&tool.rspfile_content),
            },
        ],
    )
}

// Puts the rules of tools at the end.
fn append_tools(alloc: Global, text: &mut Vec<u8>, tools: &[Tool]) -> Result<(), AllocError>
    ensures { OnOk result (text.new.items ≡ with_blocks text.old.items (map tool_block tools.now)) }
{
    for tool in tools {
        append_tool(alloc, text, tool)?;
    }
    Ok(())
}

/// Puts the file of a toolchain at the end of a text: its tools, by name, and the files of its targets, in label order.
pub fn append_toolchain(
    alloc: Global,
    text: &mut Vec<u8>,
    tools: &[Tool],
    files: &Texts,
) -> Result<(), AllocError>
    ensures { OnOk result (text.new.items ≡ with_blocks text.old.items (toolchain_blocks tools.now files.now)) }
{
    append_tools(alloc, text, tools)?;
    append_subninjas(text, files.as_slice())
}
