// What an item makes by its own texts.

ghost use Rattle.std.specs.Prelude.{◌≡◌, [], ◌++◌, IfOk, OnOk};
ghost use Rattle.std.specs.List.{fold, flat_map};
ghost use Rattle.gn_text.specs.Names.{with_name};
ghost use Rattle.gn_paths.specs.Resolve.{path_meant};
ghost use Rattle.gn_substs.specs.Expansions.{expanded};
ghost use Rattle.gn_records.specs.Around.{around};
ghost use Rattle.gn_records.specs.Outputs.{output_position, for_source, for_none, meant_by, outs_given, source_outs, item_outs};

use crate::context::Context;
use gn_items::{Item, ItemKind};
use gn_paths::{Path, PathFault, Texts, path_meant};
use gn_rows::Variable;
use gn_substs::{Around, Given, Position, Subst};
use gn_writing::each_once;
use std::alloc::{AllocError, Global};

// The position of the texts of outputs of items of this kind.
fn output_position(kind: ItemKind) -> Position
    ensures { result ≡ output_position kind }
{
    match kind {
        ItemKind::ActionForeach => Position::ForeachOutputs,
        ItemKind::Copy => Position::CopyOutputs,
        _ => Position::NoNames,
    }
}

/// What is given to a text at a position for a source of the item.
pub fn for_source(
    alloc: Global,
    context: &Context<'_>,
    item: &Item,
    position: Position,
    source: &Path,
) -> Result<Given, AllocError>
    ensures { IfOk result (λ given. given ≡ for_source (around context.now) item.now position source.now) }
{
    let around = Around {
        target: &item.label.dir,
        build: context.build,
        out: context.out,
    };
    Given::of_source(alloc, position, source, &around)
}

/// What is given where no substitution stands. It takes no memory.
pub fn for_none(alloc: Global) -> Given
    ensures { result ≡ for_none }
{
    Given::new(Position::NoNames, Texts::new(alloc))
}

// The path that a text means with what is given, or why it means none.
pub(crate) fn meant_path(
    alloc: Global,
    current: &Path,
    given: &Given,
    text: &Subst,
) -> Result<Result<Path, PathFault>, AllocError>
    ensures { IfOk result (λ meant. meant ≡ path_meant current.now (expanded given.now text.now)) }
{
    let expanded = text.expand(alloc, given)?;
    let meant = path_meant(alloc, current, expanded.as_bytes());
    drop(expanded);
    meant
}

// Puts the path that a text means behind the others, where it means one.
pub(crate) fn push_meant(
    alloc: Global,
    paths: &mut Texts,
    context: &Context<'_>,
    item: &Item,
    given: &Given,
    text: &Subst,
) -> Result<(), AllocError>
    ensures { OnOk result (paths.new ≡ paths.old ++ meant_by (around context.now) item.now given.now text.now) }
{
    match meant_path(alloc, &item.label.dir, given, text)? {
        Ok(path) => {
            let seen = path.seen_from(alloc, context.build);
            drop(path);
            paths.push(seen?)
        }
        Err(_) => Ok(()),
    }
}

// The paths that texts mean.
fn all_meant(
    alloc: Global,
    context: &Context<'_>,
    item: &Item,
    given: &Given,
    texts: &[Subst],
) -> Result<Texts, AllocError>
    ensures { IfOk result (λ paths. paths ≡ flat_map (meant_by (around context.now) item.now given.now) texts.now) }
{
    let mut paths = Texts::new(alloc);
    for text in texts {
        push_meant(alloc, &mut paths, context, item, given, text)?;
    }
    Ok(paths)
}

// The texts, each once.
#[tactic(auto, using(crate::proofs::Lists::joined_one))]
pub(crate) fn once(alloc: Global, texts: &Texts) -> Result<Texts, AllocError>
    ensures { IfOk result (λ kept. kept ≡ fold with_name [] texts.now) }
{
    each_once(alloc, &[texts])
}

// What the item makes at once, by what is given.
fn outs_given(
    alloc: Global,
    context: &Context<'_>,
    item: &Item,
    given: &Given,
) -> Result<Texts, AllocError>
    ensures { IfOk result (λ outs. outs ≡ outs_given (around context.now) item.now given.now) }
{
    let paths = all_meant(
        alloc,
        context,
        item,
        given,
        item.fields.substs(Variable::Outputs),
    )?;
    let outs = once(alloc, &paths);
    drop(paths);
    outs
}

// What the item makes of a source.
pub(crate) fn source_outs(
    alloc: Global,
    context: &Context<'_>,
    item: &Item,
    source: &Path,
) -> Result<Texts, AllocError>
    ensures { IfOk result (λ outs. outs ≡ source_outs (around context.now) item.now source.now) }
{
    let given = for_source(alloc, context, item, output_position(item.kind), source)?;
    let outs = outs_given(alloc, context, item, &given);
    drop(given);
    outs
}

// What the item makes of all its sources together.
pub(crate) fn item_outs(
    alloc: Global,
    context: &Context<'_>,
    item: &Item,
) -> Result<Texts, AllocError>
    ensures { IfOk result (λ outs. outs ≡ item_outs (around context.now) item.now) }
{
    outs_given(alloc, context, item, &for_none(alloc))
}
