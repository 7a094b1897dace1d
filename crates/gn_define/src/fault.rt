// What is wrong with an item.

ghost use Rattle.std.specs.Prelude.{◌≡◌, option_map};
ghost use Rattle.gn_define.specs.Faults.{code_of, detail_of};
ghost use Rattle.gn_define.specs.declared.fault.ReadError.TheVariants as read_errors;

use gn_faults::Code;
use gn_rows::{ItemKind, Variable};
use std::alloc::{AllocError, AllocFailed};

/// The first fault of an item's definition.
#[derive(Clone, Copy)]
pub enum ItemFault {
    /// The name given to the call isn't one of a label.
    BadName,
    /// No tool has the name given to the call.
    UnknownTool,
    /// A fault of a variable: of its value, or that it is missing or excluded.
    Variable {
        /// The variable.
        variable: Variable,
        /// The code of the fault.
        code: Code,
    },
}

impl ItemFault {
    /// The code of the fault.
    pub fn code(self) -> Code
        ensures { result ≡ code_of self }
    {
        match self {
            ItemFault::BadName => Code::BadLabel,
            ItemFault::UnknownTool => Code::Excluded,
            ItemFault::Variable { code, .. } => code,
        }
    }

    /// The text that the fault shows, if it shows one, for an item of this kind and name: the variable of a wrong type, of
    /// one that is missing or excluded; the kind of a value that isn't taken; the name of a tool that isn't known.
    pub fn detail(self, kind: ItemKind, name: &[u8]) -> Option<&[u8]>
        ensures { option_map (λ t. t.now) result ≡ detail_of kind name.now self }
    {
        match self {
            ItemFault::BadName => None,
            ItemFault::UnknownTool => Some(name),
            ItemFault::Variable { variable, code } => match code {
                Code::WrongType | Code::Missing | Code::Excluded => Some(variable.name()),
                Code::BadArguments => Some(kind.name()),
                _ => None,
            },
        }
    }
}

/// Why an item isn't defined.
#[derive(Clone, Copy)]
pub enum DefineError {
    /// The item has a fault. This is its first one.
    Wrong(ItemFault),
    /// Want of memory.
    Memory,
}

/// Why a value isn't read.
#[derive(Clone, Copy)]
pub(crate) enum ReadError {
    /// The value has a fault of this code.
    Wrong(Code),
    /// Want of memory.
    Memory,
}

impl From<Code> for ReadError {
    ghost from_gives = { λ code e. e ≡ read_errors.Wrong code };

    fn from(code: Code) -> ReadError {
        ReadError::Wrong(code)
    }
}

impl From<AllocError> for ReadError {
    ghost from_gives = { λ _ e. e ≡ read_errors.Memory };

    fn from(_error: AllocError) -> ReadError {
        ReadError::Memory
    }
}

impl<T: Drop> From<AllocFailed<T>> for ReadError {
    ghost from_gives = { λ _ e. e ≡ read_errors.Memory };

    fn from(_error: AllocFailed<T>) -> ReadError {
        ReadError::Memory
    }
}
