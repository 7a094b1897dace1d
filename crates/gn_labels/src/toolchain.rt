// The toolchain that a text names in parentheses, and a text's two parts.

ghost use Rattle.std.specs.Prelude.{◌≡◌, Ok, Some, IfOk, take, ◌-◌, length};
ghost use Rattle.gn_labels.specs.Labels.{spelling};
ghost use Rattle.std.specs.List.{list_any};
ghost use Rattle.gn_labels.specs.Reading.{is_parenthesis, without_last, is_closed, toolchain_read, toolchain_in, told, both};

use crate::bytes::len_before;
use crate::error::LabelFault;
use crate::label::spell;
use crate::label_reading::read_named;
use crate::named::Named;
use gn_paths::{Path, Text};
use std::alloc::{AllocError, Global};

fn has_parenthesis(text: &[u8]) -> bool
    ensures { result ≡ list_any is_parenthesis text.now }
{
    text.iter().any(|byte| *byte == b'(' || *byte == b')')
}

fn without_last(text: &[u8]) -> &[u8]
    ensures { result.now ≡ without_last text.now }
{
    &text[..text.len().saturating_sub(1)]
}

// Whether what stands behind an opening parenthesis ends in a closing one, and holds no other.
fn is_closed(tail: &[u8]) -> bool
    ensures { result ≡ is_closed tail.now }
{
    tail.ends_with(b")") && !has_parenthesis(without_last(tail))
}

fn toolchain_of(alloc: Global, part: &Named) -> Result<Result<Option<Text>, LabelFault>, AllocError>
    ensures { IfOk result (λ found. found ≡ Ok (Some (spelling part.now.dir part.now.name))) }
{
    let text = spell(alloc, &part.dir, &part.name)?;
    Ok(Ok(Some(text)))
}

fn read_toolchain(
    alloc: Global,
    current: &Path,
    tail: &[u8],
) -> Result<Result<Option<Text>, LabelFault>, AllocError>
    ensures { IfOk result (λ found. found ≡ toolchain_read current.now tail.now) }
{
    if !is_closed(tail) {
        return Ok(Err(LabelFault::BadLabel));
    }
    match read_named(alloc, current, without_last(tail))? {
        Ok(part) => toolchain_of(alloc, &part),
        Err(fault) => Ok(Err(fault)),
    }
}

// The toolchain that a text names in parentheses, if it names one.
#[tactic(auto, unfolding(crate::specs::Reading::toolchain_in))]
pub(crate) fn toolchain_in(
    alloc: Global,
    current: &Path,
    text: &[u8],
) -> Result<Result<Option<Text>, LabelFault>, AllocError>
    ensures { IfOk result (λ found. found ≡ toolchain_in current.now text.now) }
{
    let n = len_before(text, b'(');
    if n < text.len() {
        read_toolchain(alloc, current, &text[n + 1..])
    } else {
        Ok(Ok(None))
    }
}

// Which of two faults is told.
fn told(first: LabelFault, second: LabelFault) -> LabelFault
    ensures { result ≡ told first second }
{
    match (first, second) {
        (LabelFault::Path(fault), LabelFault::Path(_)) => LabelFault::Path(fault),
        _ => LabelFault::BadLabel,
    }
}

// A text's two parts, or the fault of them that is told.
pub(crate) fn both<A: Drop>(
    first: Result<A, LabelFault>,
    toolchain: Result<Option<Text>, LabelFault>,
) -> Result<(A, Option<Text>), LabelFault>
    ensures { result ≡ both first toolchain }
{
    match first {
        Ok(part) => match toolchain {
            Ok(toolchain) => Ok((part, toolchain)),
            Err(fault) => Err(fault),
        },
        Err(fault) => match toolchain {
            Ok(_) => Err(fault),
            Err(second) => Err(told(fault, second)),
        },
    }
}
