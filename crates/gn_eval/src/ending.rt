// How an evaluation ends where it has no value.

ghost use Rattle.std.specs.Prelude.{◌≡◌};
ghost use Rattle.gn_eval.specs.Ends.{lifted};

use crate::library::LibStop;
use gn_faults::Fault;
use gn_paths::{Path, Place};
use gn_steps::StepEnd;
use std::alloc::AllocError;

/// Why an evaluation has no value.
#[derive(Debug, Drop)]
pub enum EvalEnd {
    /// The first fault, from left to right.
    Wrong(Fault),
    /// The first import that can't be used: the path of the file, and where the call stands.
    Spoiled(Path, Place),
    /// The library has stopped: it lacks the answer that it has noted.
    Stopped,
    /// Want of memory.
    Memory,
}

impl From<AllocError> for EvalEnd {
    ghost use Rattle.std.specs.Prelude.{◌≡◌};
    ghost use Rattle.gn_eval.specs.declared.ending.EvalEnd.TheVariants.{Memory};

    ghost from_gives = { λ _ e. e ≡ Memory };

    fn from(_error: AllocError) -> EvalEnd {
        EvalEnd::Memory
    }
}

impl From<StepEnd> for EvalEnd {
    ghost use Rattle.std.specs.Prelude.{◌≡◌};
    ghost use Rattle.gn_eval.specs.Ends.{end_of_step};

    ghost from_gives = { λ s e. e ≡ end_of_step s };

    fn from(end: StepEnd) -> EvalEnd {
        match end {
            StepEnd::Wrong(fault) => EvalEnd::Wrong(fault),
            StepEnd::Memory => EvalEnd::Memory,
        }
    }
}

impl From<LibStop> for EvalEnd {
    ghost use Rattle.std.specs.Prelude.{◌≡◌};
    ghost use Rattle.gn_eval.specs.Ends.{end_of_stop};

    ghost from_gives = { λ s e. e ≡ end_of_stop s };

    fn from(stop: LibStop) -> EvalEnd {
        match stop {
            LibStop::Stopped => EvalEnd::Stopped,
            LibStop::Memory => EvalEnd::Memory,
        }
    }
}

/// The end of an evaluation with a step that asks nothing.
pub(crate) fn lift<T: Drop>(done: Result<T, StepEnd>) -> Result<T, EvalEnd>
    ensures { result ≡ lifted done }
{
    match done {
        Ok(value) => Ok(value),
        Err(end) => Err(end.into()),
    }
}
