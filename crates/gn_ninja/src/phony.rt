// The phony lines of build.ninja.

ghost use Rattle.std.specs.Prelude.{◌≡◌, ◌++◌, OnOk, IfOk, map};
ghost use Rattle.std.specs.List.{flat_map};
ghost use Rattle.gn_ninja.specs.Format.{line_text, with_block};
ghost use Rattle.gn_ninja.specs.Phony.{winners, with_claim, phony_line, phony_block};

use crate::blocks::{append_build_line, part_block};
use crate::lines::{Build, Bytes, Paths};
use gn_paths::Text;
use gn_text::Names;
use gn_writing::is_missing;
use std::alloc::{AllocError, Global};
use std::collections::BTreeMap;

// A name that a target may have, and its done file.
#[derive(Drop)]
pub(crate) struct Claim {
    pub name: Text,
    pub done: Text,
}

// Puts a claim before the names that are given.
fn give(named: &mut BTreeMap<Text, Text>, taken: &Names, claim: Claim) -> Result<(), AllocError>
    ensures { OnOk result (named.new.entries ≡ with_claim taken.now claim named.old.entries) }
{
    if !is_missing(taken, &claim.name) {
        drop(claim);
        return Ok(());
    }
    let Claim { name, done } = claim;
    let _later = named.insert(name, done)?;
    Ok(())
}

// Gives each name that isn't taken to its first claim.
fn winners(
    alloc: Global,
    taken: &Names,
    claims: Vec<Claim>,
) -> Result<BTreeMap<Text, Text>, AllocError>
    ensures { IfOk result (λ named. named.entries ≡ winners taken.now claims.items) }
{
    let mut claims = claims;
    let mut named = BTreeMap::new(alloc);
    while let Some(claim) = claims.pop() {
        give(&mut named, taken, claim)?;
    }
    Ok(named)
}

// Puts a phony line at the end.
fn append_phony(
    alloc: Global,
    text: &mut Vec<u8>,
    name: &Text,
    done: &Text,
) -> Result<(), AllocError>
    ensures { OnOk result (text.new.items ≡ text.old.items ++ line_text (phony_line (name.now, done.now))) }
{
    append_build_line(
        alloc,
        text,
        Build {
            outs: &[Paths::One(name)],
            rule: Bytes::Fixed(b"phony"),
            ins: &[Paths::One(done)],
            implicit: &[],
            order: &[],
        },
    )
}

// Puts phony lines at the end.
fn append_named(
    alloc: Global,
    text: &mut Vec<u8>,
    named: &BTreeMap<Text, Text>,
) -> Result<(), AllocError>
    ensures { OnOk result (text.new.items ≡ text.old.items ++ flat_map line_text (map phony_line named.now.entries)) }
{
    for (name, done) in named {
        append_phony(alloc, text, name, done)?;
    }
    Ok(())
}

// Puts the block of phony lines at the end, unless there are none.
#[tactic(auto, unfolding(crate::specs::Format::with_block))]
fn append_winners(
    alloc: Global,
    text: &mut Vec<u8>,
    named: &BTreeMap<Text, Text>,
) -> Result<(), AllocError>
    ensures { OnOk result (text.new.items ≡ with_block text.old.items (map phony_line named.now.entries)) }
{
    if named.is_empty() {
        return Ok(());
    }
    part_block(text)?;
    append_named(alloc, text, named)
}

// Puts the block of phony lines at the end.
pub(crate) fn append_phonies(
    alloc: Global,
    text: &mut Vec<u8>,
    taken: &Names,
    claims: Vec<Claim>,
) -> Result<(), AllocError>
    ensures { OnOk result (text.new.items ≡ with_block text.old.items (phony_block taken.now claims.items)) }
{
    let named = winners(alloc, taken, claims)?;
    append_winners(alloc, text, &named)
}
