// Blocks of lines.

ghost use Rattle.std.specs.Prelude.{◌≡◌, ◌++◌, ◌∷◌, [], OnOk, map};
ghost use Rattle.std.specs.List.{flat_map};
ghost use Rattle.gn_writing.specs.Lines.{a_build, a_rule, a_pool, a_subninja, a_default};
ghost use Rattle.gn_ninja.specs.Format.{head_text, parts_text, build_text, line_text, parted, with_block};
ghost use Rattle.gn_ninja.specs.Code.{line_of, bound, indented};

use crate::lines::{Binding, Build};
use crate::parts::{append_part, append_spaced};
use crate::values::{append_bound, append_indented};
use gn_paths::Text;
use std::alloc::{AllocError, Global};

// Puts an empty line behind what stands there.
pub(crate) fn part_block(text: &mut Vec<u8>) -> Result<(), AllocError>
    ensures { OnOk result (text.new.items ≡ parted text.old.items) }
{
    if text.is_empty() {
        return Ok(());
    }
    text.push(b'\n')?;
    Ok(())
}

// Puts `build OUTS: RULE` at the end.
fn append_head(alloc: Global, text: &mut Vec<u8>, build: Build<'_>) -> Result<(), AllocError>
    ensures { OnOk result (text.new.items ≡ text.old.items ++ head_text (line_of build.entry)) }
{
    text.extend_from_slice(b"build")?;
    append_part(alloc, text, b"", build.outs)?;
    text.extend_from_slice(b": ")?;
    text.extend_from_slice(build.rule.get())
}

// Puts `INS | IMPLICIT || ORDER` at the end.
fn append_parts(alloc: Global, text: &mut Vec<u8>, build: Build<'_>) -> Result<(), AllocError>
    ensures { OnOk result (text.new.items ≡ text.old.items ++ parts_text (line_of build.entry)) }
{
    append_part(alloc, text, b"", build.ins)?;
    append_part(alloc, text, b" |", build.implicit)?;
    append_part(alloc, text, b" ||", build.order)
}

// Puts a build line at the end.
#[tactic(auto, unfolding(crate::specs::Format::build_text))]
pub(crate) fn append_build_line(
    alloc: Global,
    text: &mut Vec<u8>,
    build: Build<'_>,
) -> Result<(), AllocError>
    ensures { OnOk result (text.new.items ≡ text.old.items ++ build_text (line_of build.entry)) }
{
    append_head(alloc, text, build)?;
    append_parts(alloc, text, build)?;
    text.push(b'\n')?;
    Ok(())
}

// Puts the block of a build line and its bindings at the end.
#[tactic(auto, unfolding(crate::specs::Format::with_block))]
pub(crate) fn append_build(
    alloc: Global,
    text: &mut Vec<u8>,
    build: Build<'_>,
    bindings: &[Binding<'_>],
) -> Result<(), AllocError>
    ensures { OnOk result (text.new.items ≡ with_block text.old.items (a_build (line_of build.entry) ∷ map indented bindings.now)) }
{
    part_block(text)?;
    append_build_line(alloc, text, build)?;
    append_indented(alloc, text, bindings)
}

// Puts the block of a rule and its lines at the end.
#[tactic(auto, unfolding(crate::specs::Format::with_block))]
pub(crate) fn append_rule(
    alloc: Global,
    text: &mut Vec<u8>,
    name: &Text,
    bindings: &[Binding<'_>],
) -> Result<(), AllocError>
    ensures { OnOk result (text.new.items ≡ with_block text.old.items (a_rule name.now ∷ map indented bindings.now)) }
{
    part_block(text)?;
    text.extend_from_slice(b"rule ")?;
    text.extend_from_slice(name.as_bytes())?;
    text.push(b'\n')?;
    append_indented(alloc, text, bindings)
}

// Puts the block of bindings of the file at the end.
#[tactic(auto, unfolding(crate::specs::Format::with_block))]
pub(crate) fn append_bindings(
    alloc: Global,
    text: &mut Vec<u8>,
    bindings: &[Binding<'_>],
) -> Result<(), AllocError>
    ensures { OnOk result (text.new.items ≡ with_block text.old.items (map bound bindings.now)) }
{
    if bindings.is_empty() {
        return Ok(());
    }
    part_block(text)?;
    append_bound(alloc, text, bindings)
}

// Puts a line of a file that is read at the end.
fn append_subninja(text: &mut Vec<u8>, path: &[u8]) -> Result<(), AllocError>
    ensures { OnOk result (text.new.items ≡ text.old.items ++ line_text (a_subninja path.now)) }
{
    text.extend_from_slice(b"subninja")?;
    append_spaced(text, path)?;
    text.push(b'\n')?;
    Ok(())
}

// Puts the lines of files that are read at the end.
fn append_files(text: &mut Vec<u8>, paths: &[Text]) -> Result<(), AllocError>
    ensures { OnOk result (text.new.items ≡ text.old.items ++ flat_map line_text (map (λ p. a_subninja p) paths.now)) }
{
    for path in paths {
        append_subninja(text, path.as_bytes())?;
    }
    Ok(())
}

// Puts the block of files that are read at the end.
#[tactic(auto, unfolding(crate::specs::Format::with_block))]
pub(crate) fn append_subninjas(text: &mut Vec<u8>, paths: &[Text]) -> Result<(), AllocError>
    ensures { OnOk result (text.new.items ≡ with_block text.old.items (map (λ p. a_subninja p) paths.now)) }
{
    if paths.is_empty() {
        return Ok(());
    }
    part_block(text)?;
    append_files(text, paths)
}

// Puts the block of a pool and its lines at the end.
#[tactic(auto, unfolding(crate::specs::Format::with_block))]
pub(crate) fn append_pool(
    alloc: Global,
    text: &mut Vec<u8>,
    name: &Text,
    bindings: &[Binding<'_>],
) -> Result<(), AllocError>
    ensures { OnOk result (text.new.items ≡ with_block text.old.items (a_pool name.now ∷ map indented bindings.now)) }
{
    part_block(text)?;
    text.extend_from_slice(b"pool ")?;
    text.extend_from_slice(name.as_bytes())?;
    text.push(b'\n')?;
    append_indented(alloc, text, bindings)
}

// Puts the block that says what is made where nothing is asked for at the end.
#[tactic(auto, unfolding(crate::specs::Format::with_block))]
pub(crate) fn append_default(text: &mut Vec<u8>, name: &[u8]) -> Result<(), AllocError>
    ensures { OnOk result (text.new.items ≡ with_block text.old.items (a_default name.now ∷ [])) }
{
    part_block(text)?;
    text.extend_from_slice(b"default ")?;
    text.extend_from_slice(name)?;
    text.push(b'\n')?;
    Ok(())
}
