// The first of faults.

ghost use Rattle.std.specs.Prelude.{◌≡◌};
ghost use Rattle.gn_build_faults.specs.Faults.{first_of};

use gn_faults::Fault;

/// The first of two faults, if there is one.
pub(crate) fn first_of(fault: Option<Fault>, other: Option<Fault>) -> Option<Fault>
    ensures { result ≡ first_of fault other }
{
    match fault {
        None => other,
        Some(fault) => Some(fault),
    }
}
