// How a step ends that asks nothing and has no value.

use gn_faults::Fault;
use std::alloc::AllocError;

/// Why a step that asks nothing has no value. Want of memory aside, a step ends so exactly where the meaning has a
/// fault.
#[derive(Drop)]
pub enum StepEnd {
    /// The first fault of the step, from left to right.
    Wrong(Fault),
    /// Want of memory.
    Memory,
}

impl From<AllocError> for StepEnd {
    ghost use Rattle.std.specs.Prelude.{◌≡◌};
    ghost use Rattle.gn_steps.specs.declared.step.StepEnd.TheVariants.{Memory};

    ghost from_gives = { λ _ e. e ≡ Memory };

    fn from(_error: AllocError) -> StepEnd {
        StepEnd::Memory
    }
}
