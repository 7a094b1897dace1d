// What a fault of a target tells.

ghost use Rattle.std.specs.Prelude.{◌≡◌, ◌++◌, ◌∷◌, [], IfOk, OnOk, map, option_map};
ghost use Rattle.gn_labels.specs.Labels.{printed};
ghost use Rattle.gn_graph_faults.specs.Faults.{toolchain_told, fault_told};

use crate::places::Places;
use gn_faults::{Code, Fault, Stage};
use gn_labels::Label;
use gn_paths::{Place, Text, Texts};
use std::alloc::{AllocError, Global};

// A copy of a place, if there is one.
fn copied(alloc: Global, place: Option<&Place>) -> Result<Option<Place>, AllocError>
    ensures { IfOk result (λ copy. copy ≡ option_map (λ place. place.now) place.entry) }
{
    match place {
        None => Ok(None),
        Some(place) => Ok(Some(place.copy(alloc)?)),
    }
}

// The toolchain of a label's fault.
fn toolchain_of(alloc: Global, label: &Label, default: &Text) -> Result<Text, AllocError>
    ensures { IfOk result (λ text. text ≡ toolchain_told default.now label.now.toolchain) }
{
    if label.toolchain == *default {
        Ok(Text::new(alloc))
    } else {
        label.toolchain.copy(alloc)
    }
}

// Puts a label as it is printed behind the texts.
fn append(alloc: Global, texts: &mut Texts, label: &Label, default: &Text) -> Result<(), AllocError>
    ensures { OnOk result (texts.new ≡ texts.old ++ printed default.now label.now ∷ []) }
{
    let text = label.print(alloc, default)?;
    texts.push(text)
}

// Puts labels as they are printed behind the texts.
fn append_all(
    alloc: Global,
    texts: &mut Texts,
    labels: &[Label],
    default: &Text,
) -> Result<(), AllocError>
    ensures { OnOk result (texts.new ≡ texts.old ++ map (printed default.now) labels.now) }
{
    for label in labels {
        append(alloc, texts, label, default)?;
    }
    Ok(())
}

// A target and other labels as they are printed.
fn details(
    alloc: Global,
    target: &Label,
    others: &[Label],
    default: &Text,
) -> Result<Texts, AllocError>
    ensures { IfOk result (λ texts. texts ≡ map (printed default.now) (target.now ∷ others.now)) }
{
    let mut texts = Texts::new(alloc);
    append(alloc, &mut texts, target, default)?;
    append_all(alloc, &mut texts, others, default)?;
    Ok(texts)
}

// The fault of a target with this code and these labels.
fn fault_of<G: Places>(
    alloc: Global,
    target: &Label,
    graph: &G,
    code: Code,
    others: &[Label],
) -> Result<Fault, AllocError>
    ensures { IfOk result (λ fault. fault ≡ fault_told (G.default graph.now) (G.places graph.now target.now) target.now code others.now) }
{
    let default = graph.default_toolchain();
    Ok(Fault {
        stage: Stage::Graph,
        place: copied(alloc, graph.place(target))?,
        toolchain: toolchain_of(alloc, target, default)?,
        code,
        detail: details(alloc, target, others, default)?,
    })
}

// Puts the fault of a target with this code and these labels behind the others.
pub(crate) fn add_fault<G: Places>(
    alloc: Global,
    out: &mut Vec<Fault>,
    target: &Label,
    graph: &G,
    code: Code,
    others: &[Label],
) -> Result<(), AllocError>
    ensures { OnOk result (out.new.items ≡ out.old.items ++ fault_told (G.default graph.now) (G.places graph.now target.now) target.now code others.now ∷ []) }
{
    let fault = fault_of(alloc, target, graph, code, others)?;
    out.push(fault)?;
    Ok(())
}
