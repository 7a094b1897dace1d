// What a unit that is done needs of others, as its items say it.

ghost use Rattle.std.specs.Prelude.{◌≡◌, ◌++◌, IfOk, OnOk, map};
ghost use Rattle.std.specs.List.{flat_map};
ghost use Rattle.gn_graph.specs.Needs.{target_of as target_view, toolchain_of as toolchain_view, done_of};
ghost use Rattle.gn_projects.specs.Files.{toolchain_text};
ghost use Rattle.gn_projects.specs.Needs.{dependencies_of, others_of, target_of, pools_of, is_toolchain, toolchain_name, toolchain_of, target_in, toolchain_in, file_needs, configuration_needs};
ghost use Rattle.gn_answers.specs.Answers.{needs_of};

use gn_definitions::ImportValue;
use gn_graph::{TargetNeeds, ToolchainNeeds, UnitNeeds};
use gn_items::{Item, ItemKind, Outcome, Tool};
use gn_labels::Label;
use gn_paths::Text;
use gn_rows::Variable;
use std::alloc::{AllocError, Global};

// Puts copies of labels behind others.
fn append_labels(alloc: Global, labels: &mut Vec<Label>, more: &[Label]) -> Result<(), AllocError>
    ensures { OnOk result (labels.new.items ≡ labels.old.items ++ more.now) }
{
    for label in more {
        labels.push(label.copy(alloc)?)?;
    }
    Ok(())
}

// The dependencies of a target, in dependency order.
fn dependencies(alloc: Global, item: &Item) -> Result<Vec<Label>, AllocError>
    ensures { IfOk result (λ labels. labels.items ≡ dependencies_of item.now) }
{
    let mut labels = Vec::new(alloc);
    append_labels(alloc, &mut labels, item.fields.labels(Variable::PublicDeps))?;
    append_labels(alloc, &mut labels, item.fields.labels(Variable::Deps))?;
    append_labels(alloc, &mut labels, item.fields.labels(Variable::DataDeps))?;
    Ok(labels)
}

// What else a target needs: its configurations and its pool.
fn others(alloc: Global, item: &Item) -> Result<Vec<Label>, AllocError>
    ensures { IfOk result (λ labels. labels.items ≡ others_of item.now) }
{
    let mut labels = Vec::new(alloc);
    append_labels(alloc, &mut labels, item.fields.labels(Variable::Configs))?;
    append_labels(
        alloc,
        &mut labels,
        item.fields.labels(Variable::PublicConfigs),
    )?;
    append_labels(
        alloc,
        &mut labels,
        item.fields.labels(Variable::AllDependentConfigs),
    )?;
    append_labels(alloc, &mut labels, item.fields.labels(Variable::Pool))?;
    Ok(labels)
}

// What a target needs.
fn target_needs(alloc: Global, item: &Item) -> Result<TargetNeeds, AllocError>
    ensures { IfOk result (λ target. target_view target ≡ target_of item.now) }
{
    let name = item.label.name.copy(alloc)?;
    let deps = dependencies(alloc, item)?;
    let others = others(alloc, item)?;
    Ok(TargetNeeds { name, deps, others })
}

// Puts what an item needs behind the targets, where it is one.
fn push_target(alloc: Global, targets: &mut Vec<TargetNeeds>, item: &Item) -> Result<(), AllocError>
    ensures { OnOk result (map target_view targets.new.items ≡ map target_view targets.old.items ++ target_in item.now) }
{
    if item.kind.is_target() {
        targets.push(target_needs(alloc, item)?)?;
    }
    Ok(())
}

// The targets among items, in their order.
fn targets_among(alloc: Global, items: &[Item]) -> Result<Vec<TargetNeeds>, AllocError>
    ensures { IfOk result (λ targets. map target_view targets.items ≡ flat_map target_in items.now) }
{
    let mut targets = Vec::new(alloc);
    for item in items {
        push_target(alloc, &mut targets, item)?;
    }
    Ok(targets)
}

/// Whether an item defines a toolchain.
pub fn is_toolchain(item: &Item) -> bool
    ensures { result ≡ is_toolchain item.now.kind }
{
    matches!(item.kind, ItemKind::Toolchain)
}

/// The text by which labels name the toolchain that an item defines.
pub fn toolchain_name(alloc: Global, item: &Item) -> Result<Text, AllocError>
    ensures { IfOk result (λ name. name ≡ toolchain_name item.now) }
{
    item.label.print(alloc, &item.label.toolchain)
}

// The pools of tools.
fn pools_among(alloc: Global, tools: &[Tool]) -> Result<Vec<Label>, AllocError>
    ensures { IfOk result (λ pools. pools.items ≡ flat_map pools_of tools.now) }
{
    let mut pools = Vec::new(alloc);
    for tool in tools {
        append_labels(alloc, &mut pools, tool.fields.labels(Variable::Pool))?;
    }
    Ok(pools)
}

// What a toolchain needs.
fn toolchain_needs(alloc: Global, item: &Item) -> Result<ToolchainNeeds, AllocError>
    ensures { IfOk result (λ toolchain. toolchain_view toolchain ≡ toolchain_of item.now) }
{
    let name = toolchain_name(alloc, item)?;
    let pools = pools_among(alloc, item.tools.as_slice())?;
    Ok(ToolchainNeeds { name, pools })
}

// Puts what an item needs behind the toolchains, where it is one.
fn push_toolchain(
    alloc: Global,
    toolchains: &mut Vec<ToolchainNeeds>,
    item: &Item,
) -> Result<(), AllocError>
    ensures { OnOk result (map toolchain_view toolchains.new.items ≡ map toolchain_view toolchains.old.items ++ toolchain_in item.now) }
{
    if is_toolchain(item) {
        toolchains.push(toolchain_needs(alloc, item)?)?;
    }
    Ok(())
}

// The toolchains among items, in their order.
fn toolchains_among(alloc: Global, items: &[Item]) -> Result<Vec<ToolchainNeeds>, AllocError>
    ensures { IfOk result (λ toolchains. map toolchain_view toolchains.items ≡ flat_map toolchain_in items.now) }
{
    let mut toolchains = Vec::new(alloc);
    for item in items {
        push_toolchain(alloc, &mut toolchains, item)?;
    }
    Ok(toolchains)
}

// What a build file needs that has these items.
fn file_needs(alloc: Global, items: &[Item]) -> Result<UnitNeeds, AllocError>
    ensures { IfOk result (λ needs. done_of needs ≡ file_needs items.now) }
{
    let targets = targets_among(alloc, items)?;
    let toolchains = toolchains_among(alloc, items)?;
    Ok(UnitNeeds {
        default: Text::new(alloc),
        targets,
        toolchains,
    })
}

/// The text of the default toolchain that a build configuration has named.
pub fn toolchain_text(alloc: Global, configuration: &Outcome) -> Result<Text, AllocError>
    ensures { IfOk result (λ text. text ≡ toolchain_text configuration.now.default_toolchain) }
{
    match configuration.default_toolchain() {
        Some(named) => named.label.to_toolchain(alloc),
        None => Ok(Text::new(alloc)),
    }
}

// What a build configuration needs: the default toolchain that it has named.
fn configuration_needs(alloc: Global, configuration: &Outcome) -> Result<UnitNeeds, AllocError>
    ensures { IfOk result (λ needs. done_of needs ≡ configuration_needs configuration.now.default_toolchain) }
{
    Ok(UnitNeeds {
        default: toolchain_text(alloc, configuration)?,
        targets: Vec::new(alloc),
        toolchains: Vec::new(alloc),
    })
}

/// What a unit needs of others that has left this: a build configuration leaves what stands beneath the files behind it.
pub(crate) fn unit_needs(
    alloc: Global,
    beneath: &Option<ImportValue>,
    outcome: &Outcome,
) -> Result<UnitNeeds, AllocError>
    ensures { IfOk result (λ needs. done_of needs ≡ needs_of beneath.now outcome.now) }
{
    match beneath {
        Some(_) => configuration_needs(alloc, outcome),
        None => file_needs(alloc, outcome.items()),
    }
}

/// The default toolchain, as a unit says it that has left this.
pub fn default_text(
    alloc: Global,
    beneath: &Option<ImportValue>,
    outcome: &Outcome,
) -> Result<Text, AllocError>
    ensures { IfOk result (λ text. text ≡ (needs_of beneath.now outcome.now).default) }
{
    match beneath {
        Some(_) => toolchain_text(alloc, outcome),
        None => Ok(Text::new(alloc)),
    }
}
