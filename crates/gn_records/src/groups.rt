// Groups.

ghost use Rattle.std.specs.Prelude.{◌≡◌, IfOk};
ghost use Rattle.gn_records.specs.Around.{around};
ghost use Rattle.gn_records.specs.Plain.{group_record};

use crate::context::Context;
use crate::keeping::beside;
use crate::stamps::stamp_step;
use gn_labels::Label;
use gn_writing::{Dones, Group, Written};
use std::alloc::{AllocError, Global};

// What is written of a group: a stamp that stands for its dependencies.
pub(crate) fn group(
    alloc: Global,
    context: &Context<'_>,
    label: &Label,
    dones: Dones,
) -> Result<Written, AllocError>
    ensures { IfOk result (λ w. w ≡ group_record (around context.now) label.now dones) }
{
    let (dones, stamp) = beside(dones, stamp_step(alloc, context, label))?;
    Ok(Written::Group(Group { stamp, dones }))
}
