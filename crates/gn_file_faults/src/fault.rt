// The least fault of the files of a build.

ghost use Rattle.std.specs.Prelude.{◌≡◌, ◌++◌, IfOk, OnOk};
ghost use Rattle.gn_file_faults.specs.Faults.{facts_of, file_faults, file_fault};

use crate::arguments::add_argument_faults;
use crate::defaults::add_default_fault;
use crate::facts::FileFacts;
use crate::imports::add_import_faults;
use crate::least::copy_least;
use crate::writes::add_write_faults;
use gn_faults::Fault;
use std::alloc::{AllocError, Global};

// Puts the faults of files behind the others, kind by kind.
fn add_faults(
    alloc: Global,
    faults: &mut Vec<Fault>,
    facts: &FileFacts<'_>,
) -> Result<(), AllocError>
    ensures { OnOk result (faults.new.items ≡ faults.old.items ++ file_faults (facts_of facts.now)) }
{
    add_argument_faults(alloc, faults, facts.declarations)?;
    add_default_fault(alloc, faults, facts.default, facts.is_toolchain)?;
    add_write_faults(alloc, faults, facts.made, facts.build, facts.executions)?;
    add_import_faults(alloc, faults, facts.loaded, facts.imported)
}

/// The least fault of the files of a build, by file, toolchain, line and column, if there is one: of build arguments that are declared
/// twice, of a default toolchain that isn't defined, of files that are written twice or made by a target, and of build files that are
/// imported. It takes time in proportion to what it is given, and in a build without such a fault makes none.
#[tactic(auto, unfolding(crate::specs::Faults::file_fault))]
pub fn file_fault(alloc: Global, facts: &FileFacts<'_>) -> Result<Option<Fault>, AllocError>
    ensures { IfOk result (λ fault. fault ≡ file_fault (facts_of facts.now)) }
{
    let mut faults = Vec::new(alloc);
    add_faults(alloc, &mut faults, facts)?;
    copy_least(alloc, faults.as_slice())
}
