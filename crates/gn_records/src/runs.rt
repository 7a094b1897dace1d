// The runs of actions.

ghost use Rattle.std.specs.Prelude.{◌≡◌, [], ◌∷◌, ◌++◌, IfOk, OnOk, map};
ghost use Rattle.gn_paths.specs.Rebase.{seen_from};
ghost use Rattle.gn_rows.specs.declared.variable.Variable.TheVariants.{ResponseFileContents};
ghost use Rattle.gn_substs.specs.Expansions.{expanded};
ghost use Rattle.gn_define.specs.Fields.{field_at, texts_of};
ghost use Rattle.gn_records.specs.Around.{around};
ghost use Rattle.gn_records.specs.Actions.{args_given, first_of, first_meant, depfile_given, where_set, run_of, run_for};
ghost use Rattle.gn_records.specs.Outputs.{meant_by};

use crate::context::Context;
use crate::keeping::beside;
use crate::outputs::{for_none, for_source, item_outs, meant_path, source_outs};
use crate::paths::paths_at;
use crate::stamps::response;
use crate::texts::{copies, only};
use gn_items::Item;
use gn_paths::{Path, Text, Texts};
use gn_rows::Variable;
use gn_substs::{Given, Position, Subst};
use gn_writing::{Run, Runs};
use std::alloc::{AllocError, Global};

// Texts with what is given in place of their substitutions.
fn all_expanded(alloc: Global, texts: &[Subst], given: &Given) -> Result<Texts, AllocError>
    ensures { IfOk result (λ list. list ≡ map (expanded given.now) texts.now) }
{
    let mut list = Vec::with_capacity(alloc, texts.len())?;
    for text in texts {
        list.push(text.expand(alloc, given)?)?;
    }
    Ok(Texts::from_vec(list))
}

// The arguments of a run.
fn args_given(alloc: Global, item: &Item, given: &Given) -> Result<Texts, AllocError>
    ensures { IfOk result (λ args. args ≡ args_given item.now given.now) }
{
    all_expanded(alloc, item.fields.substs(Variable::Args), given)
}

// The path that the first of these texts means, where there is one.
fn first_meant(
    alloc: Global,
    context: &Context<'_>,
    item: &Item,
    given: &Given,
    texts: &[Subst],
) -> Result<Option<Text>, AllocError>
    ensures { IfOk result (λ path. path ≡ first_meant (around context.now) item.now given.now texts.now) }
{
    match texts {
        [text, ..] => path_of(alloc, context, item, given, text),
        [] => Ok(None),
    }
}

// The path that a text means, where it means one.
fn path_of(
    alloc: Global,
    context: &Context<'_>,
    item: &Item,
    given: &Given,
    text: &Subst,
) -> Result<Option<Text>, AllocError>
    ensures { IfOk result (λ path. path ≡ first_of (meant_by (around context.now) item.now given.now text.now)) }
{
    match meant_path(alloc, &item.label.dir, given, text)? {
        Ok(path) => {
            let seen = path.seen_from(alloc, context.build);
            drop(path);
            Ok(Some(seen?))
        }
        Err(_) => Ok(None),
    }
}

// The file that says what a run has read, where one is set.
fn depfile_given(
    alloc: Global,
    context: &Context<'_>,
    item: &Item,
    given: &Given,
) -> Result<Option<Text>, AllocError>
    ensures { IfOk result (λ path. path ≡ depfile_given (around context.now) item.now given.now) }
{
    first_meant(
        alloc,
        context,
        item,
        given,
        item.fields.substs(Variable::Depfile),
    )
}

// The response file, where the item says what it holds.
fn response_file(
    alloc: Global,
    context: &Context<'_>,
    item: &Item,
) -> Result<Option<Text>, AllocError>
    ensures { IfOk result (λ file. file ≡ (run_of (around context.now) item.now).response_file) }
{
    match item.fields.get(Variable::ResponseFileContents) {
        Some(_) => Ok(Some(response(alloc, context, &item.label)?)),
        None => Ok(None),
    }
}

// The words of the response file.
fn response_words(alloc: Global, item: &Item) -> Result<Option<Texts>, AllocError>
    ensures { IfOk result (λ words. words ≡ where_set (field_at item.now.fields ResponseFileContents) (texts_of (field_at item.now.fields ResponseFileContents))) }
{
    let words = item.fields.texts(Variable::ResponseFileContents);
    match item.fields.get(Variable::ResponseFileContents) {
        Some(_) => Ok(Some(copies(alloc, words)?)),
        None => Ok(None),
    }
}

// The arguments of an action's run.
fn args_of(alloc: Global, context: &Context<'_>, item: &Item) -> Result<Texts, AllocError>
    ensures { IfOk result (λ args. args ≡ (run_of (around context.now) item.now).args) }
{
    let file = only(alloc, response(alloc, context, &item.label)?)?;
    let given = Given::new(Position::ActionArgs, file);
    let args = args_given(alloc, item, &given);
    drop(given);
    args
}

// The file that says what an action's run has read.
fn depfile_of(alloc: Global, context: &Context<'_>, item: &Item) -> Result<Option<Text>, AllocError>
    ensures { IfOk result (λ path. path ≡ (run_of (around context.now) item.now).depfile) }
{
    let none = for_none(alloc);
    let depfile = depfile_given(alloc, context, item, &none);
    drop(none);
    depfile
}

// The one run of an action.
pub(crate) fn run_of(alloc: Global, context: &Context<'_>, item: &Item) -> Result<Run, AllocError>
    ensures { IfOk result (λ run. run ≡ run_of (around context.now) item.now) }
{
    let outs = item_outs(alloc, context, item)?;
    let ends = beside(outs, paths_at(alloc, context, item, Variable::Sources))?;
    let used = beside(ends, args_of(alloc, context, item))?;
    let files = beside(used, depfile_of(alloc, context, item))?;
    let answered = beside(files, response_file(alloc, context, item))?;
    let made = beside(answered, response_words(alloc, item))?;
    let (((((outs, sources), args), depfile), response_file), response) = made;
    Ok(Run {
        outs,
        ins: Texts::new(alloc),
        sources,
        args,
        depfile,
        response_file,
        response,
    })
}

// What a run for a source is given as its arguments.
fn args_for(
    alloc: Global,
    context: &Context<'_>,
    item: &Item,
    source: &Path,
) -> Result<Texts, AllocError>
    ensures { IfOk result (λ args. args ≡ (run_for (around context.now) item.now source.now).args) }
{
    let given = for_source(alloc, context, item, Position::ForeachArgs, source)?;
    let args = args_given(alloc, item, &given);
    drop(given);
    args
}

// The file that says what a run for a source has read.
fn depfile_for(
    alloc: Global,
    context: &Context<'_>,
    item: &Item,
    source: &Path,
) -> Result<Option<Text>, AllocError>
    ensures { IfOk result (λ path. path ≡ (run_for (around context.now) item.now source.now).depfile) }
{
    let given = for_source(alloc, context, item, Position::ForeachDepfile, source)?;
    let depfile = depfile_given(alloc, context, item, &given);
    drop(given);
    depfile
}

// The source of a run, as a list.
fn ins_for(alloc: Global, context: &Context<'_>, source: &Path) -> Result<Texts, AllocError>
    ensures { IfOk result (λ ins. ins ≡ (seen_from context.now.build.now source.now) ∷ []) }
{
    only(alloc, source.seen_from(alloc, context.build)?)
}

// The run for a source.
fn run_for(
    alloc: Global,
    context: &Context<'_>,
    item: &Item,
    source: &Path,
) -> Result<Run, AllocError>
    ensures { IfOk result (λ run. run ≡ run_for (around context.now) item.now source.now) }
{
    let outs = source_outs(alloc, context, item, source)?;
    let ends = beside(outs, ins_for(alloc, context, source))?;
    let files = beside(ends, depfile_for(alloc, context, item, source))?;
    let made = beside(files, args_for(alloc, context, item, source))?;
    let (((outs, ins), depfile), args) = made;
    Ok(Run {
        outs,
        ins,
        sources: Texts::new(alloc),
        args,
        depfile,
        response_file: None,
        response: None,
    })
}

// The one run of an action, as a list.
pub(crate) fn only_run(
    alloc: Global,
    context: &Context<'_>,
    item: &Item,
) -> Result<Runs, AllocError>
    ensures { IfOk result (λ runs. runs ≡ run_of (around context.now) item.now ∷ []) }
{
    let mut runs = Vec::with_capacity(alloc, 1)?;
    runs.push(run_of(alloc, context, item)?)?;
    Ok(Runs::from_vec(runs))
}

// Puts the run for a source behind others.
fn push_run(
    alloc: Global,
    context: &Context<'_>,
    item: &Item,
    runs: &mut Vec<Run>,
    source: &Path,
) -> Result<(), AllocError>
    ensures { OnOk result (runs.new.items ≡ runs.old.items ++ run_for (around context.now) item.now source.now ∷ []) }
{
    let run = run_for(alloc, context, item, source)?;
    runs.push(run)?;
    Ok(())
}

// The runs for sources, in order.
pub(crate) fn runs_for(
    alloc: Global,
    context: &Context<'_>,
    item: &Item,
    sources: &[Path],
) -> Result<Runs, AllocError>
    ensures { IfOk result (λ runs. runs ≡ map (run_for (around context.now) item.now) sources.now) }
{
    let mut runs = Vec::with_capacity(alloc, sources.len())?;
    for source in sources {
        push_run(alloc, context, item, &mut runs, source)?;
    }
    Ok(Runs::from_vec(runs))
}
