// What is gathered of the targets that are generated: each is looked up once among the items and among the records.

ghost use Rattle.std.specs.Prelude.{◌≡◌, ◌++◌, ◌∷◌, [], IfOk, OnOk, map, option_map};
ghost use Rattle.std.specs.List.{fold};
ghost use Rattle.gn_ninja.specs.Claims.{claimant};
ghost use Rattle.gn_labelled.specs.Graphs.{kind_at};
ghost use Rattle.gn_items.specs.Effects.{item_at};
ghost use Rattle.gn_files.specs.Files.{is_executable, done_in, written_in, target_text, target_out, claimants_of, all_written, with_pools_of_target, pool_table, toolchains_of};
ghost use Rattle.gn_files.specs.Known.{surroundings_in, known};
ghost use Rattle.gn_files.specs.Gathered.{AreGathered, IsGathered};
ghost use Rattle.gn_files.specs.Making.{text_of, file_of};

use crate::project::{Project, out_of, record_of};
use crate::target_files::TargetFile;
use crate::used::{put_pools_of_item, put_pools_of_toolchains};
use gn_items::{Item, ItemKind};
use gn_labels::{Label, LabelKey};
use gn_ninja::Claimant;
use gn_paths::Text;
use gn_records::Record;
use gn_writing::Written;
use std::alloc::{AllocError, Global};
use std::collections::BTreeMap;

/// What is gathered of targets.
#[derive(Drop)]
pub(crate) struct Gathered<'a> {
    /// The pools that they and their toolchains name, by their keys.
    pub(crate) pools: BTreeMap<LabelKey, Label>,
    /// What is written of those that have records.
    pub(crate) written: Vec<&'a Written>,
    /// Those of the default toolchain, which may have names besides their done files.
    pub(crate) claimants: Vec<Claimant<'a>>,
    /// What their files are made of.
    pub(crate) files: Vec<TargetFile<'a>>,
}

// Whether an item is an executable.
fn is_executable(item: Option<&Item>) -> bool
    ensures { result ≡ is_executable (kind_at (option_map (λ i. i.now) item.entry)) }
{
    match item {
        None => false,
        Some(item) => matches!(item.kind, ItemKind::Executable),
    }
}

// The done file of a record; where there is none, the text that is handed in, which is empty.
fn done_in<'a>(record: Option<&'a Record>, none: &'a Text) -> &'a Text
    requires { none.now ≡ [] }
    ensures { result.now ≡ done_in (option_map (λ r. r.now) record.entry) }
{
    match record {
        None => none,
        Some(record) => &record.exports.done,
    }
}

// What is written of a target; nothing where it has no record.
fn written_in<'a>(record: Option<&'a Record>) -> Option<&'a Written>
    ensures { text_of result ≡ target_text (option_map (λ r. r.now) record.entry) }
{
    match record {
        None => None,
        Some(record) => Some(&record.written),
    }
}

// Puts what is written of a target behind the others, where it has a record.
fn push_written<'a>(
    written: &mut Vec<&'a Written>,
    record: Option<&'a Record>,
) -> Result<(), AllocError>
    ensures { OnOk result (map (λ w. w.now) written.new.items ≡ map (λ w. w.now) written.old.items ++ written_in (option_map (λ r. r.now) record.entry)) }
{
    match record {
        None => Ok(()),
        Some(record) => {
            written.push(&record.written)?;
            Ok(())
        }
    }
}

// Puts a target behind the others that may have names besides its done file.
fn push_claimant<'a>(
    claimants: &mut Vec<Claimant<'a>>,
    project: &'a Project<'_, '_>,
    target: &'a Label,
    item: Option<&'a Item>,
    found: Option<&'a Record>,
    none: &'a Text,
) -> Result<(), AllocError>
    requires none { none.now ≡ [] }
    requires item { option_map (λ i. i.now) item ≡ item_at target.now project.now.items.now }
    requires found { option_map (λ r. r.now) found ≡ (known project.now).target target.now }
    ensures { OnOk result (map claimant claimants.new.items
        ≡ map claimant claimants.old.items ++ claimants_of project.now.surroundings.default.now (known project.now) project.now.items.now (target.now ∷ [])) }
{
    if target.toolchain == *project.surroundings.default {
        claimants.push(Claimant {
            label: target,
            is_executable: is_executable(item),
            done: done_in(found, none),
        })?;
    }
    Ok(())
}

// Puts what the file of a target is made of behind the others.
fn push_file<'a>(
    files: &mut Vec<TargetFile<'a>>,
    project: &'a Project<'_, '_>,
    target: &'a Label,
    found: Option<&'a Record>,
) -> Result<(), AllocError>
    requires { option_map (λ r. r.now) found ≡ (known project.now).target target.now }
    ensures { OnOk result (map file_of files.new.items ≡ map file_of files.old.items ++ target_out (surroundings_in project.now) (known project.now) target.now ∷ []) }
{
    files.push(TargetFile {
        target,
        out: out_of(project, &target.toolchain),
        written: written_in(found),
    })?;
    Ok(())
}

// Gathers what is known of a target.
fn gather_one<'a>(
    alloc: Global,
    gathered: &mut Gathered<'a>,
    project: &'a Project<'_, '_>,
    target: &'a Label,
    none: &'a Text,
) -> Result<(), AllocError>
    requires { none.now ≡ [] }
    ensures pools { OnOk result (gathered.new.pools.entries ≡ with_pools_of_target project.now.surroundings.default.now project.now.items.now gathered.old.pools.entries target.now) }
    ensures written { OnOk result (map (λ w. w.now) gathered.new.written.items ≡ map (λ w. w.now) gathered.old.written.items ++ all_written (known project.now) (target.now ∷ [])) }
    ensures claimants { OnOk result (map claimant gathered.new.claimants.items
        ≡ map claimant gathered.old.claimants.items ++ claimants_of project.now.surroundings.default.now (known project.now) project.now.items.now (target.now ∷ [])) }
    ensures files { OnOk result (map file_of gathered.new.files.items ≡ map file_of gathered.old.files.items ++ target_out (surroundings_in project.now) (known project.now) target.now ∷ []) }
{
    let item = project.items.item(target);
    let record = record_of(project, target);
    put_pools_of_item(
        alloc,
        &mut gathered.pools,
        project.surroundings.default,
        item,
    )?;
    push_written(&mut gathered.written, record)?;
    push_claimant(&mut gathered.claimants, project, target, item, record, none)?;
    push_file(&mut gathered.files, project, target, record)
}

// Gathers what is known of all targets into what is empty.
fn gather_targets<'a>(
    alloc: Global,
    gathered: &mut Gathered<'a>,
    project: &'a Project<'_, '_>,
    none: &'a Text,
) -> Result<(), AllocError>
    requires none { none.now ≡ [] }
    requires written { gathered.old.written.items ≡ [] }
    requires claimants { gathered.old.claimants.items ≡ [] }
    requires files { gathered.old.files.items ≡ [] }
    ensures pools { OnOk result (gathered.new.pools.entries
        ≡ fold (with_pools_of_target project.now.surroundings.default.now project.now.items.now) gathered.old.pools.entries project.now.targets.now) }
    ensures targets { OnOk result (AreGathered project.now project.now.targets.now gathered.new) }
{
    for target in project.targets {
        gather_one(alloc, gathered, project, target, none)?;
    }
    Ok(())
}

// The same, and the pools that toolchains name.
fn gather_all<'a>(
    alloc: Global,
    gathered: &mut Gathered<'a>,
    project: &'a Project<'_, '_>,
    toolchains: &[Text],
    none: &'a Text,
) -> Result<(), AllocError>
    requires toolchains { toolchains.now ≡ toolchains_of project.now.targets.now }
    requires none { none.now ≡ [] }
    requires pools { gathered.old.pools.entries ≡ [] }
    requires written { gathered.old.written.items ≡ [] }
    requires claimants { gathered.old.claimants.items ≡ [] }
    requires files { gathered.old.files.items ≡ [] }
    ensures { OnOk result (IsGathered project.now gathered.new) }
{
    gather_targets(alloc, gathered, project, none)?;
    put_pools_of_toolchains(alloc, &mut gathered.pools, project, toolchains)
}

/// What is gathered of the targets that are generated, whose toolchains these are. The text is the empty one, which stands for the
/// done file of a target without a record.
pub(crate) fn gather<'a>(
    alloc: Global,
    project: &'a Project<'_, '_>,
    toolchains: &[Text],
    none: &'a Text,
) -> Result<Gathered<'a>, AllocError>
    requires toolchains { toolchains.now ≡ toolchains_of project.now.targets.now }
    requires none { none.now ≡ [] }
    ensures { IfOk result (IsGathered project.now) }
{
    let mut gathered = Gathered {
        pools: BTreeMap::new(alloc),
        written: Vec::new(alloc),
        claimants: Vec::new(alloc),
        files: Vec::new(alloc),
    };
    if let Err(error) = gather_all(alloc, &mut gathered, project, toolchains, none) {
        drop(gathered);
        return Err(error);
    }
    Ok(gathered)
}
