// build.ninja.

ghost use Rattle.std.specs.Prelude.{◌≡◌, OnOk, map};
ghost use Rattle.gn_ninja.specs.Format.{with_block, with_blocks};
ghost use Rattle.gn_ninja.specs.Claims.{claimant, claims_of};
ghost use Rattle.gn_ninja.specs.Taken.{taken_by};
ghost use Rattle.gn_ninja.specs.Root.{version_block, pool_block, all_block, default_name, root_of, root_blocks};

use crate::blocks::{append_bindings, append_build, append_default, append_pool, append_subninjas};
use crate::claims::{Claimant, claims_of};
use crate::lines::{Binding, Build, Bytes, Paths, Value};
use crate::phony::{Claim, append_phonies};
use crate::taken::taken_by;
use gn_paths::{Text, Texts};
use gn_text::{Names, decimal};
use gn_writing::Written;
use std::alloc::{AllocError, Global};

/// A pool that is used.
#[derive(Drop)]
pub struct Pool {
    /// Its name.
    pub name: Text,
    /// How many commands it runs at once, from 0.
    pub depth: i64,
}

/// What is known of a build when build.ninja is written. Paths are as seen from the build directory.
#[derive(Drop)]
pub struct Root {
    /// The pools that are used, by label, but the one that Ninja has itself.
    pub pools: Vec<Pool>,
    /// The files of the toolchains that have generated targets, the default one first.
    pub toolchains: Texts,
    /// The done files of the default toolchain's generated targets, in label order.
    pub dones: Texts,
    /// Whether one of these is `//:default`.
    pub has_default: bool,
}

// Puts the version of the format at the end.
fn append_version(alloc: Global, text: &mut Vec<u8>) -> Result<(), AllocError>
    ensures { OnOk result (text.new.items ≡ with_block text.old.items version_block) }
{
    append_bindings(
        alloc,
        text,
        &[Binding {
            name: b"ninja_required_version",
            value: Value::Plain(Bytes::Fixed(b"1.7.2")),
        }],
    )
}

// Puts the block of a pool at the end.
fn append_one_pool(alloc: Global, text: &mut Vec<u8>, pool: &Pool) -> Result<(), AllocError>
    ensures { OnOk result (text.new.items ≡ with_block text.old.items (pool_block pool.now)) }
{
    let depth = Text::from_vec(decimal(alloc, pool.depth)?);
    append_pool(
        alloc,
        text,
        &pool.name,
        &[Binding {
            name: b"depth",
            value: Value::Plain(Bytes::Of(&depth)),
        }],
    )
}

// Puts the blocks of pools at the end.
fn append_pools(alloc: Global, text: &mut Vec<u8>, pools: &[Pool]) -> Result<(), AllocError>
    ensures { OnOk result (text.new.items ≡ with_blocks text.old.items (map pool_block pools.now)) }
{
    for pool in pools {
        append_one_pool(alloc, text, pool)?;
    }
    Ok(())
}

// Puts the line that makes all done files at the end.
fn append_all_line(alloc: Global, text: &mut Vec<u8>, dones: &Texts) -> Result<(), AllocError>
    ensures { OnOk result (text.new.items ≡ with_block text.old.items (all_block dones.now)) }
{
    let all = Text::from_bytes(alloc, b"all")?;
    append_build(
        alloc,
        text,
        Build {
            outs: &[Paths::One(&all)],
            rule: Bytes::Fixed(b"phony"),
            ins: &[Paths::All(dones)],
            implicit: &[],
            order: &[],
        },
        &[],
    )
}

// What is made where nothing is asked for.
fn default_name(has_default: bool) -> &'static [u8]
    ensures { result.now ≡ default_name has_default }
{
    if has_default { b"default" } else { b"all" }
}

// Puts build.ninja at the end, where these names are taken and these are claimed.
fn append_blocks(
    alloc: Global,
    text: &mut Vec<u8>,
    root: &Root,
    taken: &Names,
    claims: Vec<Claim>,
) -> Result<(), AllocError>
    ensures { OnOk result (text.new.items ≡ with_blocks text.old.items (root_blocks (root_of root.now) taken.now claims.items)) }
{
    append_version(alloc, text)?;
    append_pools(alloc, text, root.pools.as_slice())?;
    append_subninjas(text, root.toolchains.as_slice())?;
    append_phonies(alloc, text, taken, claims)?;
    append_all_line(alloc, text, &root.dones)?;
    append_default(text, default_name(root.has_default))
}

/// Puts build.ninja at the end of a text: the pools, the files of toolchains, the names that targets have besides their done
/// files, and what is made by default. `targets` are all generated targets, since no name hides what one of them makes;
/// `claimants` those of the default toolchain, in label order.
pub fn append_root(
    alloc: Global,
    text: &mut Vec<u8>,
    root: &Root,
    targets: &[&Written],
    claimants: &[Claimant<'_>],
) -> Result<(), AllocError>
    ensures { OnOk result (text.new.items ≡ with_blocks text.old.items (root_blocks (root_of root.now) (taken_by (map (λ t. t.now) targets.now)) (claims_of (map claimant claimants.now)))) }
{
    let taken = taken_by(alloc, targets)?;
    let claims = claims_of(alloc, claimants)?;
    append_blocks(alloc, text, root, &taken, claims)
}
