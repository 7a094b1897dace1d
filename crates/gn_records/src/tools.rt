// The tools of a toolchain as its file has them.

ghost use Rattle.std.specs.Prelude.{◌≡◌, [], ◌∷◌, ◌++◌, IfOk, OnOk};
ghost use Rattle.std.specs.List.{flat_map};
ghost use Rattle.gn_define.specs.Fields.{field_at, boolean_of};
ghost use Rattle.gn_rows.specs.declared.variable.Variable.TheVariants.{Restat};
ghost use Rattle.gn_records.specs.Around.{around};
ghost use Rattle.gn_records.specs.ToolTexts.{first_text, rule_text, rule_texts, one_if, tool_with, tool_of, tool_named, tools_written};

use crate::context::Context;
use crate::keeping::beside;
use crate::linking::text_of_tool;
use crate::rules::first_pool;
use gn_items::Tool;
use gn_paths::Text;
use gn_rows::{ToolName, Variable};
use gn_substs::Subst;
use std::alloc::{AllocError, Global};

// All tools, in the order of the bytes of their names.
static TOOLS: [ToolName; 9] = [
    ToolName::Alink,
    ToolName::Asm,
    ToolName::Cc,
    ToolName::Copy,
    ToolName::Cxx,
    ToolName::Link,
    ToolName::Solink,
    ToolName::SolinkModule,
    ToolName::Stamp,
];

// The texts of a tool in which substitutions may stand.
#[derive(Drop)]
struct ToolTexts {
    command: Text,
    depfile: Text,
    description: Text,
    rspfile: Text,
    rspfile_content: Text,
}

// The first of some texts with Ninja variables in place of its substitutions; nothing where there is none.
fn first_text(alloc: Global, texts: &[Subst]) -> Result<Text, AllocError>
    ensures { IfOk result (λ t. t ≡ first_text texts.now) }
{
    match texts {
        [text, ..] => text.tool_text(alloc),
        [] => Ok(Text::new(alloc)),
    }
}

// The text of a variable.
fn rule_text(alloc: Global, tool: &Tool, variable: Variable) -> Result<Text, AllocError>
    ensures { IfOk result (λ t. t ≡ rule_text variable tool.now) }
{
    first_text(alloc, tool.fields.substs(variable))
}

// The texts of a tool.
fn rule_texts(alloc: Global, tool: &Tool) -> Result<ToolTexts, AllocError>
    ensures { IfOk result (λ texts. texts ≡ rule_texts tool.now) }
{
    let command = rule_text(alloc, tool, Variable::Command)?;
    let depfile = beside(command, rule_text(alloc, tool, Variable::Depfile))?;
    let described = beside(depfile, rule_text(alloc, tool, Variable::Description))?;
    let rspfile = beside(described, rule_text(alloc, tool, Variable::Rspfile))?;
    let made = beside(rspfile, rule_text(alloc, tool, Variable::RspfileContent))?;
    let ((((command, depfile), description), rspfile), rspfile_content) = made;
    Ok(ToolTexts {
        command,
        depfile,
        description,
        rspfile,
        rspfile_content,
    })
}

// `1` where outputs that stay as they were make nothing new.
fn restat_of(alloc: Global, tool: &Tool) -> Result<Text, AllocError>
    ensures { IfOk result (λ t. t ≡ one_if (boolean_of (field_at tool.now.fields Restat))) }
{
    match tool.fields.boolean(Variable::Restat) {
        Some(true) => Text::from_bytes(alloc, b"1"),
        _ => Ok(Text::new(alloc)),
    }
}

// The name of the tool's rule.
fn rule_name(alloc: Global, context: &Context<'_>, tool: &Tool) -> Result<Text, AllocError>
    ensures { IfOk result (λ t. t ≡ (around context.now).prefix ++ tool.now.name) }
{
    let mut name = context.prefix.copy(alloc)?;
    let added = name.append(tool.name.as_bytes());
    let (name, ()) = beside(name, added)?;
    Ok(name)
}

// A tool whose rule has these texts.
fn tool_with(
    alloc: Global,
    context: &Context<'_>,
    tool: &Tool,
    texts: ToolTexts,
) -> Result<gn_writing::Tool, AllocError>
    ensures { IfOk result (λ t. t ≡ tool_with (around context.now) tool.now texts) }
{
    let rule = beside(texts, rule_name(alloc, context, tool))?;
    let format = Text::from_bytes(alloc, text_of_tool(Some(tool), Variable::Depsformat));
    let formed = beside(rule, format)?;
    let pool = first_pool(alloc, context.default, tool.fields.labels(Variable::Pool));
    let pooled = beside(formed, pool)?;
    let made = beside(pooled, restat_of(alloc, tool))?;
    let ((((texts, rule), depsformat), pool), restat) = made;
    Ok(gn_writing::Tool {
        rule,
        command: texts.command,
        depfile: texts.depfile,
        depsformat,
        description: texts.description,
        pool,
        restat,
        rspfile: texts.rspfile,
        rspfile_content: texts.rspfile_content,
    })
}

/// A tool of the toolchain as its file has it: the rule has the prefix of the toolchain before the name of the tool, and Ninja
/// variables stand in place of the substitutions.
#[tactic(auto, unfolding(crate::specs::ToolTexts::tool_of))]
pub fn tool_of(
    alloc: Global,
    context: &Context<'_>,
    tool: &Tool,
) -> Result<gn_writing::Tool, AllocError>
    ensures { IfOk result (λ t. t ≡ tool_of (around context.now) tool.now) }
{
    let texts = rule_texts(alloc, tool)?;
    tool_with(alloc, context, tool, texts)
}

// Puts a tool behind others.
fn push_tool(
    alloc: Global,
    tools: &mut Vec<gn_writing::Tool>,
    context: &Context<'_>,
    tool: &Tool,
) -> Result<(), AllocError>
    ensures { OnOk result (tools.new.items ≡ tools.old.items ++ tool_of (around context.now) tool.now ∷ []) }
{
    let tool = tool_of(alloc, context, tool)?;
    tools.push(tool)?;
    Ok(())
}

// Puts the tool of a name, where the toolchain has it, behind others.
fn push_named(
    alloc: Global,
    tools: &mut Vec<gn_writing::Tool>,
    context: &Context<'_>,
    name: ToolName,
) -> Result<(), AllocError>
    ensures { OnOk result (tools.new.items ≡ tools.old.items ++ tool_named (around context.now) name) }
{
    match context.tools.get(name) {
        Some(tool) => push_tool(alloc, tools, context, tool),
        None => Ok(()),
    }
}

// The tools of these names that the toolchain has.
fn tools_named(
    alloc: Global,
    context: &Context<'_>,
    names: &[ToolName],
) -> Result<Vec<gn_writing::Tool>, AllocError>
    ensures { IfOk result (λ tools. tools.items ≡ flat_map (tool_named (around context.now)) names.now) }
{
    let mut tools = Vec::new(alloc);
    for name in names {
        push_named(alloc, &mut tools, context, *name)?;
    }
    Ok(tools)
}

/// All tools of the toolchain as its file has them, in the order of the bytes of their names.
pub fn tools_of(alloc: Global, context: &Context<'_>) -> Result<Vec<gn_writing::Tool>, AllocError>
    ensures { IfOk result (λ tools. tools.items ≡ tools_written (around context.now)) }
{
    tools_named(alloc, context, &TOOLS)
}
