// What a call refuses.

ghost use Rattle.std.specs.Prelude.{◌≡◌};
ghost use Rattle.gn_calls_text.specs.declared.error.CallError.TheVariants.{Memory};

use gn_faults::Code;
use std::alloc::AllocError;

/// Why a call gives no value.
#[derive(Clone, Copy, Debug)]
pub enum CallError {
    /// The call is refused.
    Refused {
        /// The code of the fault.
        code: Code,
        /// The argument at which the fault stands, counted from 0. None is the name of the call.
        argument: Option<u32>,
    },
    /// Want of memory.
    Memory,
}

impl From<AllocError> for CallError {
    ghost from_gives = { λ _ e. e ≡ Memory };

    fn from(_error: AllocError) -> CallError {
        CallError::Memory
    }
}
