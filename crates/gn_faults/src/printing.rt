// The pieces of a fault's line.

ghost use Rattle.std.specs.Prelude.{◌≡◌, ◌++◌, ◌∷◌, OnOk, codes, decimal};
ghost use Rattle.std.specs.List.{flat_map, join_by};
ghost use Rattle.gn_faults.specs.Texts.{filled, message_behind, tail, text_of};
ghost use Rattle.gn_faults.specs.Printed.{place_text};

use crate::code::Code;
use gn_paths::{Place, Text};
use itoa::Buffer;
use std::alloc::AllocError;

// Puts the place of a fault at the end, if it has one.
pub(crate) fn append_place(text: &mut Text, place: &Option<Place>) -> Result<(), AllocError>
    ensures { OnOk result (text.new ≡ text.old ++ place_text place.now) }
{
    let Some(place) = place else {
        return Ok(());
    };
    text.append(b" at ")?;
    text.append(place.file.as_bytes())?;
    append_number(text, place.line)?;
    append_number(text, place.column)
}

// Puts a colon and a number at the end.
fn append_number(text: &mut Text, number: u32) -> Result<(), AllocError>
    ensures { OnOk result (text.new ≡ text.old ++ 58 ∷ decimal number) }
{
    let mut buffer = Buffer::new();
    text.push(b':')?;
    text.append(buffer.format(number).as_bytes())
}

// Puts the text of a code with these details at the end.
#[tactic(auto, unfolding(crate::specs::Texts::text_of))]
pub(crate) fn append_text(text: &mut Text, code: Code, details: &[Text]) -> Result<(), AllocError>
    ensures { OnOk result (text.new ≡ text.old ++ text_of code details.now) }
{
    append_filled(text, code.template(), details)?;
    append_tail(text, code, details)
}

// Puts a template at the end, with the details in it.
fn append_filled(text: &mut Text, template: &[u8], details: &[Text]) -> Result<(), AllocError>
    ensures { OnOk result (text.new ≡ text.old ++ filled template.now details.now) }
{
    let mut rest = details;
    for byte in template {
        if *byte != b'%' {
            text.push(*byte)?;
        } else if let Some((detail, others)) = rest.split_first() {
            text.append(detail.as_bytes())?;
            rest = others;
        }
    }
    Ok(())
}

// Puts at the end what stands behind the template of a code.
#[tactic(auto, unfolding(crate::specs::Texts::tail))]
fn append_tail(text: &mut Text, code: Code, details: &[Text]) -> Result<(), AllocError>
    ensures { OnOk result (text.new ≡ text.old ++ tail code details.now) }
{
    match code {
        Code::Cycle => append_joined(text, details),
        Code::AssertFailed => append_message(text, details),
        _ => Ok(()),
    }
}

// Puts labels at the end, with an arrow between two.
fn append_joined(text: &mut Text, labels: &[Text]) -> Result<(), AllocError>
    ensures { OnOk result (text.new ≡ text.old ++ join_by (λ label. label) (codes " -> ") labels.now) }
{
    match labels.split_first() {
        Some((first, others)) => {
            text.append(first.as_bytes())?;
            append_pointed(text, others)
        }
        None => Ok(()),
    }
}

// Puts labels at the end, with an arrow before each.
fn append_pointed(text: &mut Text, labels: &[Text]) -> Result<(), AllocError>
    ensures { OnOk result (text.new ≡ text.old ++ flat_map (λ label. codes " -> " ++ label) labels.now) }
{
    for label in labels {
        text.append(b" -> ")?;
        text.append(label.as_bytes())?;
    }
    Ok(())
}

// Puts a message at the end behind a space, if there is one.
fn append_message(text: &mut Text, details: &[Text]) -> Result<(), AllocError>
    ensures { OnOk result (text.new ≡ text.old ++ message_behind details.now) }
{
    match details.first() {
        Some(message) => {
            text.push(b' ')?;
            text.append(message.as_bytes())
        }
        None => Ok(()),
    }
}
