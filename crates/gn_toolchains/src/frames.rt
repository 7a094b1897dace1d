// What never changes for the targets of each toolchain of a build.

ghost use Rattle.std.specs.Prelude.{◌≡◌, ◌∷◌, ◌++◌, [], IfOk, OnOk, option_map};
ghost use Rattle.gn_records.specs.Around.{around};
ghost use Rattle.gn_toolchains.specs.Toolchains.{lent};
ghost use Rattle.gn_toolchains.specs.Frames.{surroundings as given, frame_at, texts_in, has_text, with_text, with_toolchains, AreRight, known_of, IsOver};

use crate::frame::{Frame, frame_of};
use crate::surroundings::Surroundings;
use gn_items::Item;
use gn_labels::Label;
use gn_paths::Text;
use gn_records::Context;
use std::alloc::{AllocError, Global};

/// What never changes for the targets of each of some toolchains, made once for all of them.
#[derive(Drop)]
pub struct Frames<'a> {
    surroundings: Surroundings<'a>,
    list: Vec<Frame>,
}

// The frame of the toolchain of this text.
fn frame_at<'a>(frames: &'a [Frame], text: &Text) -> Option<&'a Frame>
    ensures { option_map (λ f. f.now) result ≡ frame_at text.now frames.now }
{
    for frame in frames {
        if *text == frame.text {
            return Some(frame);
        }
    }
    None
}

// Whether the toolchain of this text has a frame.
fn has_frame(frames: &[Frame], text: &Text) -> bool
    ensures { result ≡ has_text (texts_in frames.now) text.now }
{
    for frame in frames {
        if *text == frame.text {
            return true;
        }
    }
    false
}

// Puts a frame behind the others.
#[tactic(auto, using(crate::proofs::Framing::right_more, crate::proofs::Framing::texts_more))]
fn push_frame(
    alloc: Global,
    list: &mut Vec<Frame>,
    surroundings: Surroundings<'_>,
    items: &[&Item],
    text: &Text,
) -> Result<(), AllocError>
    requires { AreRight (given surroundings) (lent items.now) list.old.items }
    ensures right { OnOk result (AreRight (given surroundings.entry) (lent items.now) list.new.items) }
    ensures texts { OnOk result (texts_in list.new.items ≡ texts_in list.old.items ++ text.now ∷ []) }
{
    let frame = frame_of(alloc, surroundings, items, text)?;
    list.push(frame)?;
    Ok(())
}

// Puts a frame for a toolchain behind the others, unless there is one.
fn add_text(
    alloc: Global,
    list: &mut Vec<Frame>,
    surroundings: Surroundings<'_>,
    items: &[&Item],
    text: &Text,
) -> Result<(), AllocError>
    requires { AreRight (given surroundings) (lent items.now) list.old.items }
    ensures right { OnOk result (AreRight (given surroundings.entry) (lent items.now) list.new.items) }
    ensures texts { OnOk result (texts_in list.new.items ≡ with_text (texts_in list.old.items) text.now) }
{
    if has_frame(list.as_slice(), text) {
        return Ok(());
    }
    push_frame(alloc, list, surroundings, items, text)
}

// Puts frames for the toolchains of targets behind the others, each once.
fn add_all(
    alloc: Global,
    list: &mut Vec<Frame>,
    surroundings: Surroundings<'_>,
    items: &[&Item],
    targets: &[Label],
) -> Result<(), AllocError>
    requires { AreRight (given surroundings) (lent items.now) list.old.items }
    ensures right { OnOk result (AreRight (given surroundings.entry) (lent items.now) list.new.items) }
    ensures texts { OnOk result (texts_in list.new.items ≡ with_toolchains (texts_in list.old.items) targets.now) }
{
    for target in targets {
        add_text(alloc, list, surroundings, items, &target.toolchain)?;
    }
    Ok(())
}

impl<'a> Frames<'a> {
    /// What never changes for the targets of the default toolchain and of each toolchain that one of these targets has. It goes
    /// through the items once for each of these toolchains.
    pub fn of(
        alloc: Global,
        surroundings: Surroundings<'a>,
        items: &[&Item],
        targets: &[Label],
    ) -> Result<Frames<'a>, AllocError>
        ensures { IfOk result (λ frames. IsOver (given surroundings.entry) (lent items.now) targets.now frames) }
    {
        let mut list = Vec::new(alloc);
        add_text(alloc, &mut list, surroundings, items, surroundings.default)?;
        add_all(alloc, &mut list, surroundings, items, targets)?;
        Ok(Frames { surroundings, list })
    }

    /// What is known around a target of the toolchain of this text; None where no frame was made for it. It takes no memory.
    pub fn context(&self, toolchain: &Text) -> Option<Context<'_>>
        ensures { option_map around result ≡ known_of self.now toolchain.now }
    {
        match frame_at(self.list.as_slice(), toolchain) {
            None => None,
            Some(frame) => Some(frame.context(self.surroundings)),
        }
    }
}
