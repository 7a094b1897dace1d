// The done files of targets.

ghost use Rattle.std.specs.Prelude.{◌≡◌, ◌++◌, ◌∷◌, [], IfOk, OnOk, option_map};
ghost use Rattle.gn_dependencies.specs.Shape.{near};
ghost use Rattle.gn_labelled.specs.Graphs.{shape_of};
ghost use Rattle.gn_resolve.specs.Table.{exports_known, dones_in, dones_from};

use crate::table::{Known, Resolved};
use gn_chains::Graph;
use gn_labels::Label;
use gn_paths::{Text, Texts};
use gn_records::Record;
use gn_rows::Variable;
use gn_writing::Dones;
use std::alloc::{AllocError, Global};

// A copy of the done file of a target; the empty text where it has no record.
fn done_of(alloc: Global, known: Option<&Record>) -> Result<Text, AllocError>
    ensures { IfOk result (λ t. t ≡ (exports_known (option_map (λ r. r.now) known.entry)).done) }
{
    match known {
        None => Ok(Text::new(alloc)),
        Some(record) => record.exports.done.copy(alloc),
    }
}

// Puts a copy of the done file of a target behind the others.
fn add_done(
    alloc: Global,
    out: &mut Texts,
    records: &Resolved,
    label: &Label,
) -> Result<(), AllocError>
    ensures { OnOk result (out.new ≡ out.old ++ dones_in records.now (label.now ∷ [])) }
{
    let done = done_of(alloc, records.get(label))?;
    out.push(done)
}

// Puts copies of the done files of targets behind the others.
fn add_dones(
    alloc: Global,
    out: &mut Texts,
    records: &Resolved,
    labels: &[Label],
) -> Result<(), AllocError>
    ensures { OnOk result (out.new ≡ out.old ++ dones_in records.now labels.now) }
{
    for label in labels {
        add_done(alloc, out, records, label)?;
    }
    Ok(())
}

// Copies of the done files of targets, in their order.
pub(crate) fn dones_of(
    alloc: Global,
    records: &Resolved,
    labels: &[Label],
) -> Result<Texts, AllocError>
    ensures { IfOk result (λ texts. texts ≡ dones_in records.now labels.now) }
{
    let mut out = Texts::new(alloc);
    add_dones(alloc, &mut out, records, labels)?;
    Ok(out)
}

// Copies of the done files of the public and private dependencies of a target.
fn near_dones(alloc: Global, graph: &Known<'_>, target: &Label) -> Result<Texts, AllocError>
    ensures { IfOk result (λ texts. texts ≡ dones_in graph.now.records (near (shape_of graph.now.items) target.now)) }
{
    let mut out = Texts::new(alloc);
    let public = graph.labels(target, Variable::PublicDeps);
    add_dones(alloc, &mut out, &graph.records, public)?;
    let private = graph.labels(target, Variable::Deps);
    add_dones(alloc, &mut out, &graph.records, private)?;
    Ok(out)
}

// The done files of the dependencies of a target.
pub(crate) fn dones(alloc: Global, graph: &Known<'_>, target: &Label) -> Result<Dones, AllocError>
    ensures { IfOk result (λ dones. dones ≡ dones_from graph.now.items graph.now.records target.now) }
{
    let deps = near_dones(alloc, graph, target)?;
    let data = graph.labels(target, Variable::DataDeps);
    let data_deps = dones_of(alloc, &graph.records, data)?;
    Ok(Dones { deps, data_deps })
}
