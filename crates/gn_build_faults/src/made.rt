// What the targets of a build make.

ghost use Rattle.std.specs.Prelude.{◌≡◌, [], IfOk, OnOk, option_map};
ghost use Rattle.gn_records.specs.Around.{around};
ghost use Rattle.gn_toolchains.specs.Frames.{surroundings as given, with_text, known_of};
ghost use Rattle.gn_build_faults.specs.Outputs.{with_each};
ghost use Rattle.gn_build_faults.specs.Faults.{with_outputs};
ghost use Rattle.gn_build_faults.specs.Made.{outputs_among, made_by};

use crate::outputs::made_around;
use gn_labelled::ItemIndex;
use gn_labels::Label;
use gn_paths::Text;
use gn_records::Context;
use gn_toolchains::{Frames, Surroundings};
use indexmap::IndexSet;
use std::alloc::{AllocError, Global};

// Puts a copy of an output with others, unless it is there.
fn add_text(alloc: Global, made: &mut IndexSet<Text>, output: &Text) -> Result<(), AllocError>
    ensures { OnOk result (made.new.keys ≡ with_text made.old.keys output.now) }
{
    let text = output.copy(alloc)?;
    made.insert(text)?;
    Ok(())
}

// Puts outputs with others, each once.
fn add_texts(alloc: Global, made: &mut IndexSet<Text>, outputs: &[Text]) -> Result<(), AllocError>
    ensures { OnOk result (made.new.keys ≡ with_each made.old.keys outputs.now) }
{
    for output in outputs {
        add_text(alloc, made, output)?;
    }
    Ok(())
}

// Puts what a target makes with the rest, where something is known around it.
fn add_around(
    alloc: Global,
    items: &ItemIndex<'_>,
    context: Option<Context<'_>>,
    made: &mut IndexSet<Text>,
    target: &Label,
) -> Result<(), AllocError>
    ensures { OnOk result (made.new.keys ≡ with_outputs items.now (option_map around context.entry) made.old.keys target.now) }
{
    match context {
        None => Ok(()),
        Some(context) => {
            let outputs = made_around(alloc, &context, items.item(target))?;
            let added = add_texts(alloc, made, outputs.as_slice());
            drop(outputs);
            added
        }
    }
}

// The same by the frames of toolchains.
fn add_framed(
    alloc: Global,
    items: &ItemIndex<'_>,
    frames: &Frames<'_>,
    made: &mut IndexSet<Text>,
    target: &Label,
) -> Result<(), AllocError>
    ensures { OnOk result (made.new.keys ≡ with_outputs items.now (known_of frames.now target.now.toolchain) made.old.keys target.now) }
{
    let context = frames.context(&target.toolchain);
    add_around(alloc, items, context, made, target)
}

// Puts what targets make with the rest, by the frames of toolchains.
fn add_targets(
    alloc: Global,
    items: &ItemIndex<'_>,
    frames: &Frames<'_>,
    made: &mut IndexSet<Text>,
    targets: &[Label],
) -> Result<(), AllocError>
    ensures { OnOk result (made.new.keys ≡ outputs_among items.now (known_of frames.now) made.old.keys targets.now) }
{
    for target in targets {
        add_framed(alloc, items, frames, made, target)?;
    }
    Ok(())
}

// What these targets make, by the frames of toolchains.
fn made_among(
    alloc: Global,
    items: &ItemIndex<'_>,
    frames: &Frames<'_>,
    targets: &[Label],
) -> Result<IndexSet<Text>, AllocError>
    ensures { IfOk result (λ made. made.keys ≡ outputs_among items.now (known_of frames.now) [] targets.now) }
{
    let mut made = IndexSet::new(alloc);
    if let Err(error) = add_targets(alloc, items, frames, &mut made, targets) {
        drop(made);
        return Err(error);
    }
    Ok(made)
}

/// What these targets make, each output once, as the build directory sees it, by what never changes in the build and the items that it
/// defines. An output of a tool's text that is no path isn't there.
pub fn made_by<'a>(
    alloc: Global,
    surroundings: Surroundings<'a>,
    items: &ItemIndex<'_>,
    targets: &[Label],
) -> Result<IndexSet<Text>, AllocError>
    ensures { IfOk result (λ made. made.keys ≡ made_by (given surroundings.entry) items.now targets.now) }
{
    let frames = Frames::of(alloc, surroundings, items.items(), targets)?;
    let made = made_among(alloc, items, &frames, targets);
    drop(frames);
    made
}
