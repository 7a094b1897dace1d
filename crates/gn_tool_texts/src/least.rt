// The least of the faults of texts.

ghost use Rattle.std.specs.Prelude.{◌≡◌, option_map};
ghost use Rattle.gn_tool_texts.specs.Least.{lesser, path_code};

use gn_faults::Code;
use gn_paths::PathFault;

// The lesser of two faults, where there is one.
pub(crate) fn lesser(fault: Option<PathFault>, other: Option<PathFault>) -> Option<PathFault>
    ensures { result ≡ lesser fault other }
{
    match (fault, other) {
        (None, _) => other,
        (Some(PathFault::BadPath), Some(_)) => other,
        _ => fault,
    }
}

// The code of a fault, where there is one.
pub(crate) fn code_of(fault: Option<PathFault>) -> Option<Code>
    ensures { result ≡ option_map path_code fault }
{
    match fault {
        Some(PathFault::AboveRoot) => Some(Code::AboveRoot),
        Some(PathFault::BadPath) => Some(Code::BadPath),
        None => None,
    }
}
