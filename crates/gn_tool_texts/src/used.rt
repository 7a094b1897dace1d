// Which texts of its toolchain's tools a target uses.

ghost use Rattle.std.specs.Prelude.{◌≡◌, None, IfOk, option_map};
ghost use Rattle.std.specs.List.{flat_map};
ghost use Rattle.gn_rows.specs.declared.kinds.ItemKind.TheVariants.{SharedLibrary};
ghost use Rattle.gn_writing.specs.declared.sources.SourceUse.TheVariants.{Built};
ghost use Rattle.gn_writing.specs.Outputs.{values_of};
ghost use Rattle.gn_records.specs.Around.{around};
ghost use Rattle.gn_records.specs.Output.{substs_of_tool, values_with};
ghost use Rattle.gn_records.specs.Outputs.{for_none};
ghost use Rattle.gn_tool_texts.specs.Least.{least};
ghost use Rattle.gn_tool_texts.specs.Texts.{faults_at};
ghost use Rattle.gn_tool_texts.specs.Used.{is_compiled, faults_by_use, faults_for_source, faults_if_shared, faults_of_tool, faults_of_first, faults_of_directory};
ghost use Rattle.gn_tool_texts.specs.Used.{faults_with, faults_of_compiled, faults_used, wrong_text};

use crate::least::{code_of, lesser};
use crate::texts::{fault_at, fault_of_text};
use gn_faults::Code;
use gn_items::{Item, ItemKind, Tool};
use gn_paths::{Path, PathFault};
use gn_records::{
    Context, Expansion, Output, names_for, output_of, source_of, substs_of_tool, tool_of_kind,
};
use gn_rows::{ToolName, Variable};
use gn_substs::{Position, Subst};
use gn_writing::{OutputNames, SourceUse, use_of};
use std::alloc::{AllocError, Global};

// Whether targets of the kind use texts of tools.
fn is_compiled(kind: ItemKind) -> bool
    ensures { result ≡ is_compiled kind }
{
    matches!(
        kind,
        ItemKind::SourceSet
            | ItemKind::StaticLibrary
            | ItemKind::Executable
            | ItemKind::SharedLibrary
            | ItemKind::LoadableModule
    )
}

// The least fault of the outputs of a tool that builds a source.
fn fault_of_built(
    alloc: Global,
    context: &Context<'_>,
    item: &Item,
    names: &OutputNames<'_>,
    source: &Path,
    tool: ToolName,
) -> Result<Option<PathFault>, AllocError>
    ensures { IfOk result (λ fault. fault ≡ least (faults_by_use (around context.now) item.now (values_of names.now) source.now (Built tool))) }
{
    let by = Expansion {
        position: Position::ToolOutputs,
        names,
        source: Some(source_of(context, item, source)),
    };
    let texts = substs_of_tool(context.tools.get(tool), Variable::Outputs);
    fault_at(alloc, &by, texts)
}

// The least fault of the texts that are used for a source.
#[tactic(auto, using(crate::proofs::LeastLemmas::least_nothing), unfolding(crate::specs::Used::faults_for_source))]
fn fault_for_source(
    alloc: Global,
    context: &Context<'_>,
    item: &Item,
    names: &OutputNames<'_>,
    source: &Path,
) -> Result<Option<PathFault>, AllocError>
    ensures { IfOk result (λ fault. fault ≡ least (faults_for_source (around context.now) item.now (values_of names.now) source.now)) }
{
    match use_of(alloc, source)? {
        SourceUse::Built(tool) => fault_of_built(alloc, context, item, names, source, tool),
        _ => Ok(None),
    }
}

// The least fault of the texts that are used for sources.
#[tactic(auto, using(crate::proofs::LeastLemmas::least_nothing))]
fn fault_for_sources(
    alloc: Global,
    context: &Context<'_>,
    item: &Item,
    names: &OutputNames<'_>,
    sources: &[Path],
) -> Result<Option<PathFault>, AllocError>
    ensures { IfOk result (λ fault. fault ≡ least (flat_map (faults_for_source (around context.now) item.now (values_of names.now)) sources.now)) }
{
    let mut least = None;
    for source in sources {
        least = lesser(
            least,
            fault_for_source(alloc, context, item, names, source)?,
        );
    }
    Ok(least)
}

// The least fault of the texts of a variable of the tool that makes the output.
fn fault_of_variable(
    alloc: Global,
    position: Position,
    names: &OutputNames<'_>,
    tool: Option<&Tool>,
    variable: Variable,
) -> Result<Option<PathFault>, AllocError>
    ensures { IfOk result (λ fault. fault ≡ least (faults_at position (values_of names.now) for_none (substs_of_tool variable (option_map (λ t. t.now) tool.entry)))) }
{
    let by = Expansion {
        position,
        names,
        source: None,
    };
    fault_at(alloc, &by, substs_of_tool(tool, variable))
}

// The least fault of what is linked of a shared library and of what stands for it.
#[tactic(auto, using(crate::proofs::LeastLemmas::least_joined))]
fn fault_of_shared(
    alloc: Global,
    names: &OutputNames<'_>,
    tool: Option<&Tool>,
) -> Result<Option<PathFault>, AllocError>
    ensures { IfOk result (λ fault. fault ≡ least (faults_if_shared SharedLibrary (values_of names.now) (option_map (λ t. t.now) tool.entry))) }
{
    let link = Variable::LinkOutput;
    let linked = fault_of_variable(alloc, Position::ToolLinkOutput, names, tool, link)?;
    let depend = Variable::DependOutput;
    let depended = fault_of_variable(alloc, Position::ToolDependOutput, names, tool, depend)?;
    Ok(lesser(linked, depended))
}

// The same of a kind.
#[tactic(auto, using(crate::proofs::LeastLemmas::least_nothing))]
fn fault_if_shared(
    alloc: Global,
    kind: ItemKind,
    names: &OutputNames<'_>,
    tool: Option<&Tool>,
) -> Result<Option<PathFault>, AllocError>
    ensures { IfOk result (λ fault. fault ≡ least (faults_if_shared kind (values_of names.now) (option_map (λ t. t.now) tool.entry))) }
{
    match kind {
        ItemKind::SharedLibrary => fault_of_shared(alloc, names, tool),
        _ => Ok(None),
    }
}

// The least fault of the texts of the tool that makes the output.
#[tactic(auto, using(crate::proofs::LeastLemmas::least_joined))]
fn fault_of_tool(
    alloc: Global,
    kind: ItemKind,
    names: &OutputNames<'_>,
    tool: Option<&Tool>,
) -> Result<Option<PathFault>, AllocError>
    ensures { IfOk result (λ fault. fault ≡ least (faults_of_tool kind (values_of names.now) (option_map (λ t. t.now) tool.entry))) }
{
    let outputs = Variable::Outputs;
    let made = fault_of_variable(alloc, Position::ToolOutputs, names, tool, outputs)?;
    let shared = fault_if_shared(alloc, kind, names, tool)?;
    Ok(lesser(made, shared))
}

// The fault of the first of some texts for the default directory of outputs.
#[tactic(auto, using(crate::proofs::LeastLemmas::least_nothing))]
fn fault_of_first(
    alloc: Global,
    names: &OutputNames<'_>,
    texts: &[Subst],
) -> Result<Option<PathFault>, AllocError>
    ensures { IfOk result (λ fault. fault ≡ least (faults_of_first (values_of names.now) texts.now)) }
{
    let [text, ..] = texts else {
        return Ok(None);
    };
    let by = Expansion {
        position: Position::ToolDefaultOutputDir,
        names,
        source: None,
    };
    fault_of_text(alloc, &by, text)
}

// What a target with this output gives to the text for the default directory of outputs.
fn names_before<'a>(context: &Context<'a>, item: &'a Item, output: &'a Output) -> OutputNames<'a>
    ensures { values_of result ≡ values_with (around context.now) item.now output.now.around output.now.name output.now.extension None }
{
    OutputNames {
        output_dir: None,
        ..names_for(context, item, output)
    }
}

// The fault of the default directory of outputs, where the target sets none.
#[tactic(auto, using(crate::proofs::LeastLemmas::least_nothing), unfolding(crate::specs::Used::faults_of_directory))]
fn fault_of_directory(
    alloc: Global,
    context: &Context<'_>,
    item: &Item,
    tool: Option<&Tool>,
    output: &Output,
) -> Result<Option<PathFault>, AllocError>
    ensures { IfOk result (λ fault. fault ≡ least (faults_of_directory (around context.now) item.now (option_map (λ t. t.now) tool.entry) output.now)) }
{
    if !item.fields.paths(Variable::OutputDir).is_empty() {
        return Ok(None);
    }
    let names = names_before(context, item, output);
    let texts = substs_of_tool(tool, Variable::DefaultOutputDir);
    fault_of_first(alloc, &names, texts)
}

// The least fault of all texts that a target with this output uses.
#[tactic(auto, using(crate::proofs::LeastLemmas::least_joined), unfolding(crate::specs::Used::faults_with))]
fn fault_with(
    alloc: Global,
    context: &Context<'_>,
    item: &Item,
    tool: Option<&Tool>,
    output: &Output,
) -> Result<Option<PathFault>, AllocError>
    ensures { IfOk result (λ fault. fault ≡ least (faults_with (around context.now) item.now (option_map (λ t. t.now) tool.entry) output.now)) }
{
    let names = names_for(context, item, output);
    let sources = item.fields.paths(Variable::Sources);
    let directory = fault_of_directory(alloc, context, item, tool, output)?;
    let built = fault_for_sources(alloc, context, item, &names, sources)?;
    let own = fault_of_tool(alloc, item.kind, &names, tool)?;
    Ok(lesser(directory, lesser(built, own)))
}

// The least fault of all texts that a compiled target uses.
fn fault_of_compiled(
    alloc: Global,
    context: &Context<'_>,
    item: &Item,
) -> Result<Option<PathFault>, AllocError>
    ensures { IfOk result (λ fault. fault ≡ least (faults_of_compiled (around context.now) item.now)) }
{
    let tool = tool_of_kind(context, item.kind);
    let output = output_of(alloc, context, item, tool)?;
    fault_with(alloc, context, item, tool, &output)
}

// The least fault of all texts that an item uses.
#[tactic(auto, using(crate::proofs::LeastLemmas::least_nothing), unfolding(crate::specs::Used::faults_used))]
fn fault_used(
    alloc: Global,
    context: &Context<'_>,
    item: &Item,
) -> Result<Option<PathFault>, AllocError>
    ensures { IfOk result (λ fault. fault ≡ least (faults_used (around context.now) item.now)) }
{
    if is_compiled(item.kind) {
        return fault_of_compiled(alloc, context, item);
    }
    Ok(None)
}

/// What is told of an item because of the texts of its toolchain's tools: a target that is compiled uses the `outputs` of the tools that
/// build its sources and of the tool that makes its output, of that tool also `default_output_dir`, unless it sets `output_dir`
/// itself, and as a shared library `link_output` and `depend_output`. Each of these texts, expanded for the target, has to be a path. The
/// code of the least fault among them, or None where each is a path. Tools that the toolchain lacks have no texts.
#[tactic(auto, unfolding(crate::specs::Used::wrong_text))]
pub fn wrong_text(
    alloc: Global,
    context: &Context<'_>,
    item: &Item,
) -> Result<Option<Code>, AllocError>
    ensures { IfOk result (λ code. code ≡ wrong_text (around context.now) item.now) }
{
    Ok(code_of(fault_used(alloc, context, item)?))
}
