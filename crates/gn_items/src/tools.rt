// The tools of a toolchain.

ghost use Rattle.std.specs.Prelude.{◌≡◌, [], ◌∷◌, ◌++◌, IfOk, OnOk, OnErr, option_map};
ghost use Rattle.gn_rows.specs.Names.{tool_name};
ghost use Rattle.gn_items.specs.Tools.{has_name, tool_at};

use crate::tool::Tool;
use gn_rows::ToolName;
use std::alloc::{AllocError, Global};
use std::marker::Model;

/// Tools in the order in which they were defined.
#[derive(Drop)]
pub struct Tools {
    list: Vec<Tool>,
}

impl Model for Tools {
    ghost use Rattle.std.specs.Prelude.{List};
    ghost use Rattle.std.specs.Coded.{coded_list};
    ghost use Rattle.gn_items.specs.declared.tool.Tool.{Tool};
    ghost use Rattle.gn_items.specs.contracts.tool.Tool.{the_row};

    ghost Value = { List Tool };

    ghost coded = { coded_list the_row.coded };

    ghost view = { λ t. t.list.items };
}

impl Tools {
    /// No tools. It takes no memory.
    pub fn new(alloc: Global) -> Tools
        ensures { result ≡ [] }
    {
        Tools {
            list: Vec::new(alloc),
        }
    }

    /// The tools, in order.
    pub fn as_slice(&self) -> &[Tool]
        ensures { result.now ≡ self.now }
    {
        self.list.as_slice()
    }

    /// Whether a tool has the name.
    pub fn has(&self, name: &[u8]) -> bool
        ensures { result ≡ has_name name.now self.now }
    {
        first_named(self.list.as_slice(), name).is_some()
    }

    /// The tool of this name; None where there is none.
    pub fn get(&self, tool: ToolName) -> Option<&Tool>
        ensures { option_map (λ t. t.now) result ≡ tool_at (tool_name tool) self.now }
    {
        first_named(self.list.as_slice(), tool.name())
    }

    /// Puts a tool behind the others. After want of memory nothing is changed, and the tool is dropped.
    pub fn push(&mut self, tool: Tool) -> Result<(), AllocError>
        ensures ok { OnOk result (self.new ≡ self.old ++ tool ∷ []) }
        ensures err { OnErr result (self.new ≡ self.old) }
    {
        self.list.push(tool)?;
        Ok(())
    }

    /// New tools equal to these, which share the fields with them.
    pub fn copy(&self, alloc: Global) -> Result<Tools, AllocError>
        ensures { IfOk result (λ tools. tools ≡ self.now) }
    {
        let mut list = Vec::with_capacity(alloc, self.list.len())?;
        for tool in self.list.as_slice() {
            list.push(tool.copy(alloc)?)?;
        }
        Ok(Tools { list })
    }
}

// The first of these tools that has the name.
fn first_named<'a>(tools: &'a [Tool], name: &[u8]) -> Option<&'a Tool>
    ensures { option_map (λ t. t.now) result ≡ tool_at name.now tools.now }
{
    for tool in tools {
        if tool.name.as_bytes() == name {
            return Some(tool);
        }
    }
    None
}
