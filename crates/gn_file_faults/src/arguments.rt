// Build arguments that are declared at two places.

ghost use Rattle.std.specs.Prelude.{◌≡◌, ◌++◌, IfOk, OnOk, map};
ghost use Rattle.gn_file_faults.specs.Uses.{meant};
ghost use Rattle.gn_file_faults.specs.Arguments.{argument_use, argument_faults, repeated_fault};

use crate::least::copy_least;
use crate::uses::{NameUse, add_again};
use gn_faults::{Code, Fault};
use gn_items::Declaration;
use std::alloc::{AllocError, Global};

// The declarations as uses of their names, all under one toolchain.
#[tactic(auto, using(crate::proofs::WriteLemmas::pushed))]
fn argument_uses<'a, 'b>(
    alloc: Global,
    toolchain: &'a [u8],
    declarations: &'a [&'b Declaration],
) -> Result<Vec<NameUse<'a>>, AllocError>
    ensures { IfOk result (λ uses. map meant uses.items ≡ map (argument_use toolchain.now) (map (λ d. d.now) declarations.now)) }
{
    let mut uses = Vec::new(alloc);
    for declaration in declarations {
        uses.push(NameUse {
            name: &declaration.name,
            toolchain,
            place: &declaration.place,
            number: 0,
            is_taken: false,
        })?;
    }
    Ok(uses)
}

/// Puts the faults of build arguments that are declared twice behind the others: one at each place but the least one of its name.
pub(crate) fn add_argument_faults(
    alloc: Global,
    faults: &mut Vec<Fault>,
    declarations: &[&Declaration],
) -> Result<(), AllocError>
    ensures { OnOk result (faults.new.items ≡ faults.old.items ++ argument_faults (map (λ d. d.now) declarations.now)) }
{
    let uses = argument_uses(alloc, b"", declarations)?;
    add_again(alloc, faults, Code::DuplicateArgument, uses.as_slice())
}

/// The least fault of a build argument that is declared twice, if there is one: it stands at each place but the least one of its
/// name. It looks each declaration up among the names.
#[tactic(auto, unfolding(crate::specs::Arguments::repeated_fault))]
pub fn repeated_fault(
    alloc: Global,
    declarations: &[&Declaration],
) -> Result<Option<Fault>, AllocError>
    ensures { IfOk result (λ fault. fault ≡ repeated_fault (map (λ d. d.now) declarations.now)) }
{
    let mut faults = Vec::new(alloc);
    add_argument_faults(alloc, &mut faults, declarations)?;
    copy_least(alloc, faults.as_slice())
}
