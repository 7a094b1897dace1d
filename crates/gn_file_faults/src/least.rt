// The least of several faults.

ghost use Rattle.std.specs.Prelude.{◌≡◌, IfOk, option_map};
ghost use Rattle.gn_file_faults.specs.Least.{lesser, least_of};

use gn_faults::Fault;
use std::alloc::{AllocError, Global};

// The lesser of a fault and one that was found before, if there was one.
fn lesser<'a>(found: Option<&'a Fault>, fault: &'a Fault) -> &'a Fault
    ensures { result.now ≡ lesser (option_map (λ f. f.now) found.entry) fault.now }
{
    match found {
        None => fault,
        Some(other) => { if fault.before(other) { fault } else { other } }
    }
}

// The least of these faults.
fn least(faults: &[Fault]) -> Option<&Fault>
    ensures { option_map (λ f. f.now) result ≡ least_of faults.now }
{
    let mut found = None;
    for fault in faults {
        found = Some(lesser(found, fault));
    }
    found
}

/// A new fault equal to the least of these, if there is one.
pub(crate) fn copy_least(alloc: Global, faults: &[Fault]) -> Result<Option<Fault>, AllocError>
    ensures { IfOk result (λ fault. fault ≡ least_of faults.now) }
{
    match least(faults) {
        Some(fault) => Ok(Some(fault.copy(alloc)?)),
        None => Ok(None),
    }
}
