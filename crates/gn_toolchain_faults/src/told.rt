// What the faults of toolchains tell.

ghost use Rattle.std.specs.Prelude.{◌≡◌, ◌∷◌, [], Some, IfOk};
ghost use Rattle.gn_labels.specs.Labels.{printed};
ghost use Rattle.gn_graph_faults.specs.Faults.{toolchain_told, fault_told};
ghost use Rattle.gn_toolchains.specs.Frames.{surroundings as given};
ghost use Rattle.gn_toolchain_faults.specs.Faults.{file_in, file_of, file_told};

use crate::used::text_of;
use gn_calls_path::out_directory;
use gn_faults::{Code, Fault, Stage};
use gn_items::Item;
use gn_labels::Label;
use gn_paths::{Path, Text, Texts, path_meant};
use gn_toolchains::Surroundings;
use std::alloc::{AllocError, Global};

// The toolchain under which the item of a label is defined, as faults tell it.
fn toolchain_of(alloc: Global, default: &Text, label: &Label) -> Result<Text, AllocError>
    ensures { IfOk result (λ text. text ≡ toolchain_told default.now label.now.toolchain) }
{
    if label.toolchain == *default {
        Ok(Text::new(alloc))
    } else {
        label.toolchain.copy(alloc)
    }
}

// Two labels as they are printed.
fn both(alloc: Global, default: &Text, label: &Label, pool: &Label) -> Result<Texts, AllocError>
    ensures { IfOk result (λ texts. texts ≡ printed default.now label.now ∷ printed default.now pool.now ∷ []) }
{
    let mut texts = Texts::new(alloc);
    let label = label.print(alloc, default)?;
    texts.push(label)?;
    let pool = pool.print(alloc, default)?;
    texts.push(pool)?;
    Ok(texts)
}

/// The fault of this code that tells a pool of a toolchain's tools.
pub(crate) fn pool_told(
    alloc: Global,
    default: &Text,
    item: &Item,
    code: Code,
    pool: &Label,
) -> Result<Fault, AllocError>
    ensures { IfOk result (λ fault. fault ≡ fault_told default.now (Some item.now.place) item.now.label code (pool.now ∷ [])) }
{
    let place = item.place.copy(alloc)?;
    let toolchain = toolchain_of(alloc, default, &item.label)?;
    let detail = both(alloc, default, &item.label, pool)?;
    Ok(Fault {
        stage: Stage::Graph,
        place: Some(place),
        toolchain,
        code,
        detail,
    })
}

// The path of the file of a toolchain in its output directory.
fn file_in(alloc: Global, out: &Path) -> Result<Text, AllocError>
    ensures { IfOk result (λ path. path ≡ file_in out.now) }
{
    match path_meant(alloc, out, b"toolchain.ninja")? {
        Ok(path) => path.as_text().copy(alloc),
        Err(_) => out.as_text().copy(alloc),
    }
}

// The path of the file of a toolchain.
fn file_of(alloc: Global, surroundings: Surroundings<'_>, label: &Label) -> Result<Text, AllocError>
    ensures { IfOk result (λ path. path ≡ file_of (given surroundings.entry) label.now) }
{
    let text = text_of(alloc, label)?;
    let out = out_directory(alloc, surroundings.build, surroundings.default, &text)?;
    file_in(alloc, &out)
}

// A text alone.
fn alone(alloc: Global, text: Text) -> Result<Texts, AllocError>
    ensures { IfOk result (λ texts. texts ≡ text ∷ []) }
{
    let mut texts = Texts::new(alloc);
    texts.push(text)?;
    Ok(texts)
}

/// The fault that tells the file of a toolchain.
pub(crate) fn file_told(
    alloc: Global,
    surroundings: Surroundings<'_>,
    item: &Item,
) -> Result<Fault, AllocError>
    ensures { IfOk result (λ fault. fault ≡ file_told (given surroundings.entry) item.now) }
{
    let place = item.place.copy(alloc)?;
    let toolchain = toolchain_of(alloc, surroundings.default, &item.label)?;
    let file = file_of(alloc, surroundings, &item.label)?;
    let detail = alone(alloc, file)?;
    Ok(Fault {
        stage: Stage::Graph,
        place: Some(place),
        toolchain,
        code: Code::SameOutput,
        detail,
    })
}
