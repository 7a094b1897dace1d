// The labels of targets, as they are listed.

ghost use Rattle.std.specs.Prelude.{◌≡◌, ◌++◌, OnOk, option_map};
ghost use Rattle.gn_top.specs.Labels.{label_line, is_listed, listed_line, listing};

use gn_labels::{Label, Pattern};
use gn_paths::Text;
use std::alloc::{AllocError, Global};

/// Puts labels at the end, one a line, in their order; with a pattern, those that it matches.
#[tactic(auto, unfolding(crate::specs::Labels::listing))]
pub fn append_labels(
    alloc: Global,
    text: &mut Vec<u8>,
    default: &Text,
    pattern: Option<&Pattern>,
    labels: &[Label],
) -> Result<(), AllocError>
    ensures { OnOk result (text.new.items ≡ text.old.items ++ listing default.now (option_map (λ p. p.now) pattern.entry) labels.now) }
{
    for label in labels {
        append_listed(alloc, text, default, pattern, label)?;
    }
    Ok(())
}

// Whether a label is listed.
fn is_listed(pattern: Option<&Pattern>, label: &Label) -> bool
    ensures { result ≡ is_listed (option_map (λ p. p.now) pattern.entry) label.now }
{
    match pattern {
        Some(pattern) => pattern.matches(label),
        None => true,
    }
}

// Puts a label and a newline at the end, if it is listed.
fn append_listed(
    alloc: Global,
    text: &mut Vec<u8>,
    default: &Text,
    pattern: Option<&Pattern>,
    label: &Label,
) -> Result<(), AllocError>
    ensures { OnOk result (text.new.items ≡ text.old.items ++ listed_line default.now (option_map (λ p. p.now) pattern.entry) label.now) }
{
    if is_listed(pattern, label) {
        append_label(alloc, text, default, label)
    } else {
        Ok(())
    }
}

// Puts a label and a newline at the end.
fn append_label(
    alloc: Global,
    text: &mut Vec<u8>,
    default: &Text,
    label: &Label,
) -> Result<(), AllocError>
    ensures { OnOk result (text.new.items ≡ text.old.items ++ label_line default.now label.now) }
{
    text.extend_from_slice(label.print(alloc, default)?.as_bytes())?;
    text.push(b'\n')?;
    Ok(())
}
