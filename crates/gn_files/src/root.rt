// build.ninja.

ghost use Rattle.std.specs.Prelude.{◌≡◌, IfOk, map, option_map};
ghost use Rattle.std.specs.List.{list_any};
ghost use Rattle.gn_ninja.specs.Format.{text_of_file};
ghost use Rattle.gn_ninja.specs.Claims.{claimant, claims_of};
ghost use Rattle.gn_ninja.specs.Root.{root_of as root_held, root_blocks};
ghost use Rattle.gn_ninja.specs.Taken.{taken_by};
ghost use Rattle.gn_out_files.specs.Files.{put_of};
ghost use Rattle.gn_files.specs.Files.{seen, toolchain_path, toolchains_used, is_default, root_of, pool_table, depth_in, pool_out, pools_out, claimants_of};
ghost use Rattle.gn_files.specs.Making.{root_made};
ghost use Rattle.gn_files.specs.Known.{surroundings_in, known};

use crate::paths::path_in;
use crate::project::{Project, toolchain_path};
use gn_items::Item;
use gn_labelled::ItemIndex;
use gn_labels::{Label, LabelKey};
use gn_ninja::{Claimant, Pool, Root, append_root};
use gn_out_files::OutFile;
use gn_paths::{Path, Text, Texts};
use gn_rows::Variable;
use gn_writing::{Written, pool_name};
use std::alloc::{AllocError, Global};
use std::collections::BTreeMap;

// How many commands a pool runs at once.
fn depth_in(item: Option<&Item>) -> i64
    ensures { result ≡ depth_in (option_map (λ i. i.now) item.entry) }
{
    match item {
        None => 0,
        Some(item) => match item.fields.count(Variable::Depth) {
            None => 0,
            Some(depth) => depth,
        },
    }
}

// A pool that is used.
fn pool_out(
    alloc: Global,
    default: &Text,
    items: &ItemIndex<'_>,
    pool: &Label,
) -> Result<Pool, AllocError>
    ensures { IfOk result (λ p. p ≡ pool_out default.now items.now pool.now) }
{
    let name = pool_name(alloc, pool, default)?;
    Ok(Pool {
        name,
        depth: depth_in(items.item(pool)),
    })
}

// The pools that are used, in label order.
#[tactic(auto, unfolding(crate::specs::Files::pools_used))]
fn pools_out(
    alloc: Global,
    project: &Project<'_, '_>,
    table: &BTreeMap<LabelKey, Label>,
) -> Result<Vec<Pool>, AllocError>
    requires { table.now.entries ≡ pool_table project.now.surroundings.default.now (known project.now) project.now.items.now project.now.targets.now }
    ensures { IfOk result (λ ps. ps.items ≡ pools_out project.now.surroundings.default.now (known project.now) project.now.items.now project.now.targets.now) }
{
    let mut pools = Vec::new(alloc);
    for (_, pool) in table {
        pools.push(pool_out(alloc, project.surroundings.default, project.items, pool)?)?;
    }
    Ok(pools)
}

// The path of the file of a toolchain, as build.ninja names it.
fn seen_path(alloc: Global, project: &Project<'_, '_>, toolchain: &Text) -> Result<Text, AllocError>
    ensures { IfOk result (λ p. p ≡ seen (surroundings_in project.now) (toolchain_path (surroundings_in project.now) (known project.now) toolchain.now)) }
{
    let path = toolchain_path(alloc, project, toolchain)?;
    path.seen_from(alloc, project.surroundings.build)
}

// The files of toolchains.
fn toolchain_files(
    alloc: Global,
    project: &Project<'_, '_>,
    toolchains: &[Text],
) -> Result<Texts, AllocError>
    ensures { IfOk result (λ files. files ≡ map (λ toolchain. seen (surroundings_in project.now) (toolchain_path (surroundings_in project.now) (known project.now) toolchain)) toolchains.now) }
{
    let mut files = Texts::new(alloc);
    for toolchain in toolchains {
        files.push(seen_path(alloc, project, toolchain)?)?;
    }
    Ok(files)
}

// The done files of targets.
fn dones(alloc: Global, targets: &[Claimant<'_>]) -> Result<Texts, AllocError>
    ensures { IfOk result (λ files. files ≡ map (λ c. c.done) (map claimant targets.now)) }
{
    let mut files = Texts::new(alloc);
    for target in targets {
        files.push(target.done.copy(alloc)?)?;
    }
    Ok(files)
}

// Whether a target is `//:default`.
fn is_default(default: &Text, target: &Label) -> bool
    ensures { result ≡ is_default default.now target.now }
{
    target.toolchain == *default
        && (target.dir.as_bytes() == b"//".as_slice()
            && target.name.as_bytes() == b"default".as_slice())
}

// Whether one of the targets is.
fn has_default(default: &Text, targets: &[Label]) -> bool
    ensures { result ≡ list_any (is_default default.now) targets.now }
{
    for target in targets {
        if is_default(default, target) {
            return true;
        }
    }
    false
}

/// What build.ninja is made of but for its names, by the toolchains that have a file, the pools that are used, and the targets of the
/// default toolchain.
#[tactic(auto, using(crate::proofs::Dones::dones_are))]
pub(crate) fn root_of(
    alloc: Global,
    project: &Project<'_, '_>,
    toolchains: &[Text],
    pools: &BTreeMap<LabelKey, Label>,
    claimants: &[Claimant<'_>],
) -> Result<Root, AllocError>
    requires toolchains { toolchains.now ≡ toolchains_used project.now.surroundings.default.now project.now.targets.now }
    requires pools { pools.now.entries ≡ pool_table project.now.surroundings.default.now (known project.now) project.now.items.now project.now.targets.now }
    requires claimants { map claimant claimants.now ≡ claimants_of project.now.surroundings.default.now (known project.now) project.now.items.now project.now.targets.now }
    ensures { IfOk result (λ r. root_held r ≡ root_of (surroundings_in project.now) (known project.now) project.now.items.now project.now.targets.now) }
{
    let pools = pools_out(alloc, project, pools)?;
    let files = toolchain_files(alloc, project, toolchains)?;
    let dones = dones(alloc, claimants)?;
    Ok(Root {
        pools,
        toolchains: files,
        dones,
        has_default: has_default(project.surroundings.default, project.targets),
    })
}

// The text of build.ninja.
fn root_text(
    alloc: Global,
    root: &Root,
    written: &[&Written],
    claimants: &[Claimant<'_>],
) -> Result<Text, AllocError>
    ensures { IfOk result (λ t. t ≡ text_of_file (root_blocks (root_held root.now) (taken_by (map (λ w. w.now) written.now)) (claims_of (map claimant claimants.now)))) }
{
    let mut text = Vec::new(alloc);
    append_root(alloc, &mut text, root, written, claimants)?;
    Ok(Text::from_vec(text))
}

/// build.ninja in the build directory.
pub(crate) fn root_file(
    alloc: Global,
    build: &Path,
    root: &Root,
    written: &[&Written],
    claimants: &[Claimant<'_>],
) -> Result<OutFile, AllocError>
    ensures { IfOk result (λ made. put_of made ≡ root_made build.now (root_held root.now) (map (λ w. w.now) written.now) (map claimant claimants.now)) }
{
    let bytes = root_text(alloc, root, written, claimants)?;
    let path = path_in(alloc, build, b"build.ninja")?;
    Ok(OutFile { path, bytes })
}
