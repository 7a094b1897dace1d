// The faults of the graph of a build: those of its files, and then those of its targets.

ghost use Rattle.std.specs.Prelude.{◌≡◌, IfOk, None, map, option_map};
ghost use Rattle.std.specs.List.{list_any};
ghost use Rattle.gn_labelled.specs.Index.{lent};
ghost use Rattle.gn_projects.specs.Loaded.{declared_by_build, items_of_build, default_named};
ghost use Rattle.gn_built.specs.Built.{build_of};
ghost use Rattle.gn_built.specs.Files.{files_of, paths_lent};
ghost use Rattle.gn_file_faults.specs.Faults.{file_fault as least_of_files};
ghost use Rattle.gn_file_faults.specs.Writes.{execution_of};
ghost use Rattle.gn_toolchains.specs.Frames.{surroundings as given};
ghost use Rattle.gn_top.specs.GraphFaults.{defines, is_defined, execution_in, has_some, has_written, made_where, fault_of_files as files_fault_meant, label_fault, graph_fault, AreTargets};

use gn_build_faults::{JudgedTargets, judge_generated, made_by};
use gn_built::{Built, WrittenFiles};
use gn_faults::Fault;
use gn_file_faults::{FileFacts, FilesWritten, file_fault};
use gn_items::{Declaration, DefaultToolchain, Item, ItemKind, Written};
use gn_labelled::ItemIndex;
use gn_labels::Label;
use gn_paths::{Path, Text};
use gn_toolchains::Surroundings;
use indexmap::IndexSet;
use std::alloc::{AllocError, Global};
use std::thread::Threads;

// Whether an item defines the default toolchain as it is named.
fn defines(default: &Text, named: &DefaultToolchain, item: &Item) -> bool
    ensures { result ≡ defines default.now named.now item.now }
{
    matches!(item.kind, ItemKind::Toolchain)
        && (item.label.toolchain == *default
            && (item.label.dir == named.label.dir && item.label.name == named.label.name))
}

// Whether an item defines the default toolchain, if one is named.
fn is_defined(default: &Text, items: &[&Item], named: Option<&DefaultToolchain>) -> bool
    ensures { result ≡ is_defined default.now (lent items.now) (option_map (λ d. d.now) named.entry) }
{
    let Some(named) = named else {
        return false;
    };
    for item in items {
        if defines(default, named, item) {
            return true;
        }
    }
    false
}

// The executions of a build with the files that they have written.
fn executions_of<'a>(
    alloc: Global,
    written: &[WrittenFiles<'a>],
) -> Result<Vec<FilesWritten<'a>>, AllocError>
    ensures { IfOk result (λ es. map execution_of es.items ≡ map execution_in (files_of written.now)) }
{
    let mut executions = Vec::new(alloc);
    for execution in written {
        executions.push(FilesWritten {
            toolchain: execution.toolchain,
            files: execution.files,
        })?;
    }
    Ok(executions)
}

// Whether there is a file that is written.
fn has_some(files: &[Written]) -> bool
    ensures { result ≡ has_some files.now }
{
    match files {
        [] => false,
        [_, ..] => true,
    }
}

// Whether one of the executions has written a file.
fn have_written(executions: &[FilesWritten<'_>]) -> bool
    ensures { result ≡ list_any has_written (map execution_of executions.now) }
{
    for execution in executions {
        if has_some(execution.files) {
            return true;
        }
    }
    false
}

// What generated targets make, where one of the executions has written a file.
fn made_where<'a>(
    alloc: Global,
    surroundings: Surroundings<'a>,
    items: &'a ItemIndex<'_>,
    executions: &[FilesWritten<'_>],
    generated: &[Label],
) -> Result<IndexSet<Text>, AllocError>
    ensures { IfOk result (λ made. made.keys ≡ made_where (given surroundings.entry) items.now (map execution_of executions.now) generated.now) }
{
    if have_written(executions) {
        made_by(alloc, surroundings, items, generated)
    } else {
        Ok(IndexSet::new(alloc))
    }
}

// The lists by which the faults of files are told.
#[derive(Clone, Copy)]
struct Lists<'a> {
    declarations: &'a [&'a Declaration],
    executions: &'a [FilesWritten<'a>],
    imported: &'a [&'a Path],
}

// The least fault of files by these lists, where these build files are loaded and targets make these paths.
fn fault_by<'a>(
    alloc: Global,
    lists: Lists<'a>,
    loaded: &[&Path],
    default: Option<&'a DefaultToolchain>,
    is_toolchain: bool,
    made: &'a IndexSet<Text>,
    build: &'a Path,
) -> Result<Option<Fault>, AllocError>
    ensures { IfOk result (λ fault. fault ≡ least_of_files (record {
      declarations = map (λ d. d.now) lists.entry.declarations.now;
      default = option_map (λ d. d.now) default.entry;
      is_toolchain = is_toolchain;
      executions = map execution_of lists.entry.executions.now;
      made = made.now.keys;
      build = build.now;
      loaded = map (λ p. p.now) loaded.now;
      imported = map (λ p. p.now) lists.entry.imported.now;
    })) }
{
    file_fault(
        alloc,
        &FileFacts {
            declarations: lists.declarations,
            default,
            is_toolchain,
            executions: lists.executions,
            made,
            build,
            loaded,
            imported: lists.imported,
        },
    )
}

// The least fault of the files of a build, if there is one, by its items and the build files that are loaded.
#[tactic(auto, unfolding(crate::specs::GraphFaults::fault_of_files))]
fn fault_of_files<'a>(
    alloc: Global,
    surroundings: Surroundings<'a>,
    built: &Built,
    items: &'a ItemIndex<'_>,
    loaded: &[&Path],
) -> Result<Option<Fault>, AllocError>
    requires default { (given surroundings).default ≡ (build_of built.now).default }
    requires items { items.now ≡ items_of_build (build_of built.now) }
    requires loaded { paths_lent loaded.now ≡ (build_of built.now).loaded }
    ensures { IfOk result (λ fault. fault ≡ files_fault_meant (given surroundings.entry) (build_of built.now)) }
{
    let declarations = built.declarations(alloc)?;
    let imported = built.imported_files(alloc)?;
    let written = built.written(alloc)?;
    let executions = executions_of(alloc, written.as_slice())?;
    let made = made_where(
        alloc,
        surroundings,
        items,
        executions.as_slice(),
        built.generated(),
    )?;
    let lists = Lists {
        declarations: declarations.as_slice(),
        executions: executions.as_slice(),
        imported: imported.as_slice(),
    };
    let default = built.default_named();
    let is_toolchain = is_defined(surroundings.default, items.items(), default);
    fault_by(
        alloc,
        lists,
        loaded,
        default,
        is_toolchain,
        &made,
        surroundings.build,
    )
}

// What is told of the targets of a build, by its items.
fn judge_targets<'a, R: Threads + Sync>(
    rt: &R,
    alloc: Global,
    surroundings: Surroundings<'a>,
    built: &Built,
    items: &'a ItemIndex<'_>,
) -> Result<JudgedTargets, AllocError>
    requires default { (given surroundings).default ≡ (build_of built.now).default }
    requires items { items.now ≡ items_of_build (build_of built.now) }
    ensures fault { IfOk result (λ judged. judged.fault ≡ label_fault (given surroundings.entry) (build_of built.now)) }
    ensures others { IfOk result (λ judged. AreTargets (build_of built.now) (option_map (λ targets. targets.items) judged.others)) }
{
    judge_generated(rt, alloc, surroundings, items, built.generated())
}

/// What is told of the graph of a build, by its items and the build files that are loaded: the faults of its files stand before those of
/// its targets. No fault comes exactly where it has none.
pub(crate) fn judge_graph<'a, R: Threads + Sync>(
    rt: &R,
    alloc: Global,
    surroundings: Surroundings<'a>,
    built: &Built,
    items: &'a ItemIndex<'_>,
    loaded: &[&Path],
) -> Result<JudgedTargets, AllocError>
    requires default { (given surroundings).default ≡ (build_of built.now).default }
    requires items { items.now ≡ items_of_build (build_of built.now) }
    requires loaded { paths_lent loaded.now ≡ (build_of built.now).loaded }
    ensures fault { IfOk result (λ judged. judged.fault ≡ graph_fault (given surroundings.entry) (build_of built.now)) }
    ensures others { IfOk result (λ judged. judged.fault ≡ None → AreTargets (build_of built.now) (option_map (λ targets. targets.items) judged.others)) }
{
    match fault_of_files(alloc, surroundings, built, items, loaded)? {
        Some(fault) => Ok(JudgedTargets {
            fault: Some(fault),
            others: None,
        }),
        None => judge_targets(rt, alloc, surroundings, built, items),
    }
}

/// The items of a build by their labels.
pub(crate) fn index_of(alloc: Global, built: &Built) -> Result<ItemIndex<'_>, AllocError>
    ensures { IfOk result (λ items. items ≡ items_of_build (build_of built.now)) }
{
    let items = built.items(alloc)?;
    ItemIndex::of(alloc, items.as_slice())
}
