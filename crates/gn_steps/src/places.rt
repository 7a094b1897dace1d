// Where calls stand, and the codes of texts that mean no path.

ghost use Rattle.std.specs.Prelude.{◌≡◌, IfOk};
ghost use Rattle.gn_meaning.specs.Imports.{place_here, path_code};

use gn_env::Env;
use gn_faults::Code;
use gn_paths::{PathFault, Place};
use gn_tree::Position;
use std::alloc::{AllocError, Global};

/// Where a call stands: the position in the file that is evaluated; or want of memory.
pub fn place_here(alloc: Global, position: Position, env: &Env) -> Result<Place, AllocError>
    ensures { IfOk result (λ place. place ≡ place_here position env.now) }
{
    Ok(Place {
        file: env.file().copy(alloc)?,
        line: position.line,
        column: position.column,
    })
}

/// The code of a text that means no path: `AboveRoot` where it leads out of the source tree, else `BadPath`.
pub fn path_code(fault: PathFault) -> Code
    ensures { result ≡ path_code fault }
{
    match fault {
        PathFault::AboveRoot => Code::AboveRoot,
        PathFault::BadPath => Code::BadPath,
    }
}
