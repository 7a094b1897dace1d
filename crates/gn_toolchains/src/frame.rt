// What never changes for the targets of a toolchain.

ghost use Rattle.std.specs.Prelude.{◌≡◌, IfOk, option_map};
ghost use Rattle.gn_paths.specs.Components.{two_slashes};
ghost use Rattle.gn_paths.specs.Directory.{gen_directory_of};
ghost use Rattle.gn_labels.specs.Toolchains.{toolchain_named};
ghost use Rattle.gn_writing.specs.Names.{rule_prefix};
ghost use Rattle.gn_records.specs.Around.{around};
ghost use Rattle.gn_toolchains.specs.Toolchains.{lent, prefix_name, around_with, around_of};
ghost use Rattle.gn_toolchains.specs.Frames.{surroundings as given, around_in};

use crate::defined::tools_of;
use crate::surroundings::Surroundings;
use gn_calls_path::out_directory;
use gn_items::{Item, Tools};
use gn_labels::Named;
use gn_paths::{Path, Text, gen_directory};
use gn_records::{BoundNames, Context, bound_names};
use gn_writing::rule_prefix;
use std::alloc::{AllocError, Global};

/// What never changes for the targets of a toolchain, beside what never changes in a build.
#[derive(Drop)]
pub struct Frame {
    // The text of the toolchain.
    pub(crate) text: Text,
    // Its output directory, and that of its generated files.
    out: Path,
    generated: Path,
    // What stands before the names of its tools in its rules.
    prefix: Text,
    // Its tools, and the names that their texts have.
    tools: Tools,
    bound: BoundNames,
}

impl Frame {
    /// What is known around a target of the toolchain.
    pub(crate) fn context<'a>(&'a self, surroundings: Surroundings<'a>) -> Context<'a>
        ensures { around result ≡ around_in (given surroundings.entry) self.now }
    {
        Context {
            build: surroundings.build,
            default: surroundings.default,
            program: surroundings.program,
            out: &self.out,
            generated: &self.generated,
            prefix: &self.prefix,
            tools: &self.tools,
            bound: self.bound,
        }
    }
}

// The directory of generated files in an output directory.
fn generated_in(alloc: Global, out: &Path) -> Result<Path, AllocError>
    ensures { IfOk result (λ d. d ≡ gen_directory_of out.now two_slashes) }
{
    let root = Path::root(alloc)?;
    gen_directory(alloc, out, &root)
}

// The prefix of a toolchain by the name that its text spells, where it spells one.
fn prefix_of(alloc: Global, text: &[u8]) -> Result<Text, AllocError>
    ensures { IfOk result (λ t. t ≡ rule_prefix (option_map (λ n. n.name) (toolchain_named text.now))) }
{
    match Named::of_toolchain(alloc, text)? {
        Some(named) => rule_prefix(alloc, Some(&named.name)),
        None => rule_prefix(alloc, None),
    }
}

// What stands before the names of a toolchain's tools in its rules.
fn prefix_in(alloc: Global, default: &Text, text: &Text) -> Result<Text, AllocError>
    ensures { IfOk result (λ t. t ≡ rule_prefix (prefix_name default.now text.now)) }
{
    if *text == *default {
        return rule_prefix(alloc, None);
    }
    prefix_of(alloc, text.as_bytes())
}

// What never changes for the targets of a toolchain with these tools.
fn frame_with(
    alloc: Global,
    surroundings: Surroundings<'_>,
    text: &Text,
    tools: Tools,
) -> Result<Frame, AllocError>
    ensures around { IfOk result (λ f. around_in (given surroundings.entry) f ≡ around_with (given surroundings.entry) text.now tools) }
    ensures text { IfOk result (λ f. f.text ≡ text.now) }
{
    let out = out_directory(alloc, surroundings.build, surroundings.default, text)?;
    let generated = generated_in(alloc, &out)?;
    let prefix = prefix_in(alloc, surroundings.default, text)?;
    let bound = bound_names(&tools);
    Ok(Frame {
        text: text.copy(alloc)?,
        out,
        generated,
        prefix,
        tools,
        bound,
    })
}

/// What never changes for the targets of a toolchain.
#[tactic(auto, unfolding(crate::specs::Toolchains::around_of))]
pub(crate) fn frame_of(
    alloc: Global,
    surroundings: Surroundings<'_>,
    items: &[&Item],
    text: &Text,
) -> Result<Frame, AllocError>
    ensures around { IfOk result (λ f. around_in (given surroundings.entry) f ≡ around_of (given surroundings.entry) (lent items.now) f.text) }
    ensures text { IfOk result (λ f. f.text ≡ text.now) }
{
    let tools = tools_of(alloc, surroundings.default, text, items)?;
    frame_with(alloc, surroundings, text, tools)
}
