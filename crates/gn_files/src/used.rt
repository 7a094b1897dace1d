// The toolchains and the pools that are used.

ghost use Rattle.std.specs.Prelude.{◌≡◌, ◌++◌, [], List, IfOk, OnOk, map, filter, option_map};
ghost use Rattle.std.specs.List.{fold};
ghost use Rattle.gn_define.specs.Fields.{field_at, labels_of};
ghost use Rattle.gn_rows.specs.declared.variable.Variable.TheVariants.{Pool as PoolOf};
ghost use Rattle.gn_labels.specs.declared.label.Label.{Label as Named};
ghost use Rattle.gn_records.specs.Around.{around};
ghost use Rattle.gn_files.specs.Files.{with_member, toolchains_of, is_other, toolchains_used, is_own_of_ninja, with_pool, with_pools, pools_named, with_pools_of_tool, with_pools_of_tools, item_tools};
ghost use Rattle.gn_files.specs.Known.{known};

use crate::project::{Project, context_of};
use gn_items::{Item, Tool};
use gn_labels::{Label, LabelKey};
use gn_paths::{Text, Texts};
use gn_records::Context;
use gn_rows::Variable;
use gn_writing::pool_name;
use std::alloc::{AllocError, Global};
use std::collections::BTreeMap;

// The toolchains of some targets.
fn table_of(alloc: Global, targets: &[Label]) -> Result<BTreeMap<Text, ()>, AllocError>
    ensures { IfOk result (λ table. table.entries ≡ fold with_member [] (map (λ t. t.toolchain) targets.now)) }
{
    let mut table = BTreeMap::new(alloc);
    for target in targets {
        let text = target.toolchain.copy(alloc)?;
        table.insert(text, ())?;
    }
    Ok(table)
}

/// The toolchains of some targets, in the order of the bytes of their texts, each once.
#[tactic(auto, unfolding(crate::specs::Files::toolchains_of))]
pub(crate) fn toolchains_of(alloc: Global, targets: &[Label]) -> Result<Texts, AllocError>
    ensures { IfOk result (λ texts. texts ≡ toolchains_of targets.now) }
{
    let table = table_of(alloc, targets)?;
    let mut texts = Texts::new(alloc);
    for (text, _) in &table {
        texts.push(text.copy(alloc)?)?;
    }
    Ok(texts)
}

// Puts those of some texts behind others that aren't the default toolchain.
fn push_others(
    alloc: Global,
    texts: &mut Texts,
    default: &Text,
    toolchains: &[Text],
) -> Result<(), AllocError>
    ensures { OnOk result (texts.new ≡ texts.old ++ filter (is_other default.now) toolchains.now) }
{
    for toolchain in toolchains {
        if *toolchain != *default {
            texts.push(toolchain.copy(alloc)?)?;
        }
    }
    Ok(())
}

/// The toolchains that have a file, by those of some targets: the default one always and first.
#[tactic(auto, unfolding(crate::specs::Files::toolchains_used))]
pub(crate) fn toolchains_used(
    alloc: Global,
    default: &Text,
    toolchains: &[Text],
) -> Result<Texts, AllocError>
    ensures { IfOk result (λ texts. (ts : List Named) → toolchains.now ≡ toolchains_of ts → texts ≡ toolchains_used default.now ts) }
{
    let mut texts = Texts::new(alloc);
    texts.push(default.copy(alloc)?)?;
    push_others(alloc, &mut texts, default, toolchains)?;
    Ok(texts)
}

// Whether a pool is Ninja's own.
fn is_own_of_ninja(alloc: Global, default: &Text, pool: &Label) -> Result<bool, AllocError>
    ensures { IfOk result (λ b. b ≡ is_own_of_ninja default.now pool.now) }
{
    let name = pool_name(alloc, pool, default)?;
    Ok(name.as_bytes() == b"console".as_slice())
}

// Puts a pool in, unless it is Ninja's own.
fn put_pool(
    alloc: Global,
    pools: &mut BTreeMap<LabelKey, Label>,
    default: &Text,
    pool: &Label,
) -> Result<(), AllocError>
    ensures { OnOk result (pools.new.entries ≡ with_pool default.now pools.old.entries pool.now) }
{
    if is_own_of_ninja(alloc, default, pool)? {
        return Ok(());
    }
    let key = LabelKey::new(pool.copy(alloc)?, default);
    let label = pool.copy(alloc)?;
    pools.insert(key, label)?;
    Ok(())
}

// Puts pools in.
fn put_pools(
    alloc: Global,
    pools: &mut BTreeMap<LabelKey, Label>,
    default: &Text,
    named: &[Label],
) -> Result<(), AllocError>
    ensures { OnOk result (pools.new.entries ≡ with_pools default.now pools.old.entries named.now) }
{
    for pool in named {
        put_pool(alloc, pools, default, pool)?;
    }
    Ok(())
}

// The pools that an item names; none where there is no item.
fn pools_named(item: Option<&Item>) -> &[Label]
    ensures { result.now ≡ pools_named (option_map (λ i. i.now) item.entry) }
{
    match item {
        None => &[],
        Some(item) => item.fields.labels(Variable::Pool),
    }
}

/// Puts the pools in that an item names.
pub(crate) fn put_pools_of_item(
    alloc: Global,
    pools: &mut BTreeMap<LabelKey, Label>,
    default: &Text,
    item: Option<&Item>,
) -> Result<(), AllocError>
    ensures { OnOk result (pools.new.entries ≡ with_pools default.now pools.old.entries (pools_named (option_map (λ i. i.now) item.entry))) }
{
    put_pools(alloc, pools, default, pools_named(item))
}

// Puts the pools in that tools name.
fn put_pools_of_tools(
    alloc: Global,
    pools: &mut BTreeMap<LabelKey, Label>,
    default: &Text,
    tools: &[Tool],
) -> Result<(), AllocError>
    ensures { OnOk result (pools.new.entries ≡ fold (with_pools_of_tool default.now) pools.old.entries tools.now) }
{
    for tool in tools {
        put_pools(alloc, pools, default, tool.fields.labels(Variable::Pool))?;
    }
    Ok(())
}

// The tools of a toolchain; none where it isn't known.
fn item_tools<'a>(context: Option<Context<'a>>) -> &'a [Tool]
    ensures { result.now ≡ item_tools (option_map around context.entry) }
{
    match context {
        None => &[],
        Some(context) => context.tools.as_slice(),
    }
}

/// Puts the pools in that the tools of toolchains name.
pub(crate) fn put_pools_of_toolchains(
    alloc: Global,
    pools: &mut BTreeMap<LabelKey, Label>,
    project: &Project<'_, '_>,
    toolchains: &[Text],
) -> Result<(), AllocError>
    ensures { OnOk result (pools.new.entries ≡ fold (with_pools_of_tools project.now.surroundings.default.now (known project.now)) pools.old.entries toolchains.now) }
{
    for toolchain in toolchains {
        let tools = item_tools(context_of(project, toolchain));
        put_pools_of_tools(alloc, pools, project.surroundings.default, tools)?;
    }
    Ok(())
}
