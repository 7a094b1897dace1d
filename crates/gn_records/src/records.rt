// What is known of a target that is resolved.

ghost use Rattle.std.specs.Prelude.{◌≡◌, IfOk};
ghost use Rattle.gn_records.specs.Around.{around, fields_of};
ghost use Rattle.gn_records.specs.Records.{is_plain, plain_written, plain_exports, plain_record, record_of};

use crate::actions::{action, action_foreach};
use crate::compiled::compiled;
use crate::context::Context;
use crate::copies::copy;
use crate::groups::group;
use crate::inherited::Inherited;
use crate::keeping::beside;
use crate::stamps::stamp;
use gn_define::Fields;
use gn_items::{Item, ItemKind};
use gn_paths::{Text, Texts};
use gn_writing::{Dones, Written};
use std::alloc::{AllocError, Global};

/// What a target gives to those that depend on it.
#[derive(Drop)]
pub struct Exports {
    /// The file that stands for it once it is made, as seen from the build directory.
    pub done: Text,
    /// What is linked of it where another target inherits it as a library.
    pub linked: Text,
    /// The libraries that are linked with it, its own and those of its configurations; none unless it is a source set or a static
    /// library.
    pub libs: Texts,
    /// The directories of libraries, in the same way.
    pub lib_dirs: Texts,
}

/// What is known of a target that is resolved.
#[derive(Drop)]
pub struct Record {
    /// What its Ninja file is made of.
    pub written: Written,
    /// What it gives to those that depend on it.
    pub exports: Exports,
}

// What a target gives that has no objects: its stamp is its done file.
fn plain_exports(alloc: Global, context: &Context<'_>, item: &Item) -> Result<Exports, AllocError>
    ensures { IfOk result (λ e. e ≡ plain_exports (around context.now) item.now) }
{
    let done = stamp(alloc, context, &item.label)?;
    Ok(Exports {
        done,
        linked: Text::new(alloc),
        libs: Texts::new(alloc),
        lib_dirs: Texts::new(alloc),
    })
}

// The record of a target that has no objects.
fn plain_record(
    alloc: Global,
    context: &Context<'_>,
    item: &Item,
    dones: Dones,
) -> Result<Record, AllocError>
    ensures { IfOk result (λ r. r ≡ plain_record (around context.now) item.now dones) }
{
    let written = plain_written(alloc, context, item, dones)?;
    let (written, exports) = beside(written, plain_exports(alloc, context, item))?;
    Ok(Record { written, exports })
}

// What is written of a target that has no objects.
pub(crate) fn plain_written(
    alloc: Global,
    context: &Context<'_>,
    item: &Item,
    dones: Dones,
) -> Result<Written, AllocError>
    ensures { IfOk result (λ w. w ≡ plain_written item.now.kind (around context.now) item.now dones) }
{
    match item.kind {
        ItemKind::Copy => copy(alloc, context, item, dones),
        ItemKind::Action => action(alloc, context, item, dones),
        ItemKind::ActionForeach => action_foreach(alloc, context, item, dones),
        _ => group(alloc, context, &item.label, dones),
    }
}

// Whether targets of the kind have no objects.
pub(crate) fn is_plain(kind: ItemKind) -> bool
    ensures { result ≡ is_plain kind }
{
    matches!(
        kind,
        ItemKind::Group | ItemKind::Copy | ItemKind::Action | ItemKind::ActionForeach
    )
}

/// The record of a target. `configs` are the fields of the configurations applied to it, in order; `inherited` is what it takes from
/// the libraries that it inherits; `dones` are the done files of its dependencies; `hard` are those for which its objects wait.
#[tactic(auto, unfolding(crate::specs::Records::record_of))]
pub fn record_of(
    alloc: Global,
    context: &Context<'_>,
    item: &Item,
    configs: &[&Fields],
    inherited: &Inherited,
    dones: Dones,
    hard: &Texts,
) -> Result<Record, AllocError>
    ensures { IfOk result (λ r. r ≡ record_of (around context.now) item.now (fields_of configs.now) inherited.now dones hard.now) }
{
    if is_plain(item.kind) {
        return plain_record(alloc, context, item, dones);
    }
    let record = compiled(alloc, context, item, configs, inherited, &dones, hard);
    drop(dones);
    record
}
