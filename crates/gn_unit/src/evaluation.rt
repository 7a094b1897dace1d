// The evaluation of what a key names.

ghost use Rattle.std.specs.Prelude.{◌≡◌, ◌<◌, IfOk, IfErr, IfSome, Some};
ghost use Rattle.gn_tree.specs.Depth.{IsShallow};
ghost use Rattle.gn_runs.specs.Runs.{Answers};
ghost use Rattle.gn_meaning.specs.Meaning.{configuration_ends};
ghost use Rattle.gn_eval.specs.Library.{Includes, GoesOn};
ghost use Rattle.gn_executions.specs.Base.{BaseState};
ghost use Rattle.gn_unit.specs.Ends.{IsExecuted, IsSetupOf, IsLoadOf, IsImportOf, Executes, load_ends, import_ends, IsUnitOf, IsNeedOf, IsRestOf, WhereStopped, WherePaused, IsKept, KeepsOn, HasAskedOf, WhereTree, IsRead};
ghost use Rattle.gn_unit.specs.Begun.{Reads, load_reads, setup_reads, import_reads};
ghost use Rattle.gn_executions.specs.Units.{import_execution};
ghost use Rattle.gn_executions.specs.Found.{found_load_execution};
ghost use Rattle.gn_executions.specs.Setups.{setup_execution};

use crate::configuration::begin_setup;
use crate::defining::Defining;
use crate::ending::{ended, import_on, load_on, setup_on};
use crate::execution::{begin_import, begin_load};
use crate::unit::{EvalStop, Unit};
use gn_eval::{Definer, Library};
use gn_evaluation_base::Base;
use gn_items::{Claim, Key, Outcome, When};
use gn_outermost::Paused;
use gn_paths::{Path, Text};
use gn_syntax::Parsed;
use std::alloc::Global;

// The unit of a build file, whose tree may be known before.
fn load_unit<L: Library + Definer>(
    alloc: Global,
    base: &Base,
    directory: &Path,
    toolchain: &Text,
    known: Option<Parsed>,
    library: &mut L,
) -> Result<Unit, EvalStop>
    requires { IfSome known (Reads (L.state library.old).told (load_reads base.now directory.now toolchain.now)) }
    ensures unit { Executes IsLoadOf load_ends (L.state library.old) (L.state library.new) result (found_load_execution base.now directory.now toolchain.now) }
    ensures tree { IfErr result (λ stop. WhereTree stop (Reads (L.state library.new).told (load_reads base.now directory.now toolchain.now))) }
{
    let mut out = Outcome::new(alloc);
    match begin_load(alloc, base, directory, toolchain, known, &mut out, library) {
        Ok((tree, env)) => load_on(
            alloc,
            Paused {
                tree,
                next: 0,
                env,
                out,
            },
            library,
        ),
        Err(end) => ended(end, out.into_asked()),
    }
}

// The unit of the build configuration, whose tree may be known before.
fn setup_unit<L: Library + Definer>(
    alloc: Global,
    base: &Base,
    toolchain: &Text,
    known: Option<Parsed>,
    library: &mut L,
) -> Result<Unit, EvalStop>
    requires { IfSome known (Reads (L.state library.old).told (setup_reads base.now toolchain.now)) }
    ensures unit { Executes IsSetupOf configuration_ends (L.state library.old) (L.state library.new) result (setup_execution base.now toolchain.now) }
    ensures tree { IfErr result (λ stop. WhereTree stop (Reads (L.state library.new).told (setup_reads base.now toolchain.now))) }
{
    let mut out = Outcome::new(alloc);
    match begin_setup(alloc, base, toolchain, known, &mut out, library) {
        Ok((tree, env)) => setup_on(
            alloc,
            Paused {
                tree,
                next: 0,
                env,
                out,
            },
            library,
        ),
        Err(end) => ended(end, out.into_asked()),
    }
}

// The unit of a file that is imported, whose tree may be known before.
fn import_unit<L: Library + Definer>(
    alloc: Global,
    base: &Base,
    when: When,
    toolchain: &Text,
    path: &Path,
    known: Option<Parsed>,
    library: &mut L,
) -> Result<Unit, EvalStop>
    requires { IfSome known (Reads (L.state library.old).told (import_reads base.now when toolchain.now path.now)) }
    ensures unit { Executes IsImportOf import_ends (L.state library.old) (L.state library.new) result (import_execution base.now when toolchain.now path.now) }
    ensures tree { IfErr result (λ stop. WhereTree stop (Reads (L.state library.new).told (import_reads base.now when toolchain.now path.now))) }
{
    let mut out = Outcome::new(alloc);
    match begin_import(alloc, base, when, toolchain, path, known, &mut out, library) {
        Ok((tree, env)) => import_on(
            alloc,
            Paused {
                tree,
                next: 0,
                env,
                out,
            },
            library,
        ),
        Err(end) => ended(end, out.into_asked()),
    }
}

// The unit that a key names, whose tree may be known before.
fn unit_of<L: Library + Definer>(
    alloc: Global,
    base: &Base,
    key: &Key,
    known: Option<Parsed>,
    library: &mut L,
) -> Result<Unit, EvalStop>
    requires executed { IsExecuted key.now }
    requires known { IfSome known (IsRead base.now key.now (L.state library.old).told) }
    ensures unit { IfOk result (λ unit. (a : Answers) → Includes (L.state library.new).told a → IsUnitOf base.now key.now unit a) }
    ensures asked { IfOk result (λ unit. (a : Answers) → Includes (L.state library.new).told a → HasAskedOf base.now key.now unit a) }
    ensures need { IfErr result (λ stop. WhereStopped stop
        (λ asked. (a : Answers) → (L.state library.new).told ≡ Some a → IsNeedOf base.now key.now (L.state library.new).need asked a)) }
    ensures kept { IfErr result (λ stop. WherePaused stop (IsKept base.now key.now (L.state library.new).told)) }
    ensures tree { IfErr result (λ stop. WhereTree stop (IsRead base.now key.now (L.state library.new).told)) }
    ensures goes { GoesOn (L.state library.old) (L.state library.new) }
    ensures rose { IfErr result (λ stop. WhereStopped stop (λ asked. (L.state library.old).stops < (L.state library.new).stops)) }
{
    match key {
        Key::Load(directory, toolchain) => {
            load_unit(alloc, base, directory, toolchain, known, library)
        }
        Key::Import(when, toolchain, path) => import_unit(
            alloc, base, *when, toolchain, path, known, library,
        ),
        Key::Setup(toolchain) => setup_unit(alloc, base, toolchain, known, library),
        Key::Read(_) | Key::Resolve(_) => unreachable!(),
    }
}

/// Executes the file that the key of a claim names, under the toolchain of the key, from its start, over a base and what the
/// library tells. The claim comes back. What is answered is how that execution ends over all answers that include those
/// told, and what it asked. `Stopped`, `Paused` and `Again` come where the library lacks an answer: over just what it tells, the execution needs
/// the one that it has noted, and asks it behind the questions that come back. What comes back with `Paused` is kept of the execution, and `go_on`
/// goes on there; with `Again` the tree of the file comes back, and `evaluate_again` begins anew with it. The base is that of the evaluations under this toolchain: what its context says is taken.
pub fn evaluate<L: Library>(
    alloc: Global,
    claim: Claim,
    base: &Base,
    library: &mut L,
) -> Result<(Claim, Unit), (Claim, EvalStop)>
    requires { IsExecuted claim.key }
    ensures claim { IfOk result (λ r. r.0 ≡ claim) }
    ensures claim_back { IfErr result (λ r. r.0 ≡ claim) }
    ensures unit { IfOk result (λ r. (a : Answers) → Includes (L.state library.new).told a → IsUnitOf base.now claim.key r.1 a) }
    ensures asked { IfOk result (λ r. (a : Answers) → Includes (L.state library.new).told a → HasAskedOf base.now claim.key r.1 a) }
    ensures need { IfErr result (λ r. WhereStopped r.1
        (λ asked. (a : Answers) → (L.state library.new).told ≡ Some a → IsNeedOf base.now claim.key (L.state library.new).need asked a)) }
    ensures kept { IfErr result (λ r. WherePaused r.1 (IsKept base.now claim.key (L.state library.new).told)) }
    ensures tree { IfErr result (λ r. WhereTree r.1 (IsRead base.now claim.key (L.state library.new).told)) }
    ensures goes { GoesOn (L.state library.old) (L.state library.new) }
    ensures rose { IfErr result (λ r. WhereStopped r.1 (λ asked. (L.state library.old).stops < (L.state library.new).stops)) }
{
    let mut defining = Defining { library };
    match unit_of(alloc, base, &claim.key, None, &mut defining) {
        Ok(unit) => Ok((claim, unit)),
        Err(stop) => Err((claim, stop)),
    }
}

/// The same of the file that a key names, whose tree has come back of an evaluation before: it isn't parsed again, and all else is
/// answered as by `evaluate`.
pub fn evaluate_again<L: Library>(
    alloc: Global,
    key: &Key,
    base: &Base,
    tree: Parsed,
    library: &mut L,
) -> Result<Unit, EvalStop>
    requires executed { IsExecuted key.now }
    requires read { IsRead base.now key.now (L.state library.old).told tree }
    ensures unit { IfOk result (λ unit. (a : Answers) → Includes (L.state library.new).told a → IsUnitOf base.now key.now unit a) }
    ensures asked { IfOk result (λ unit. (a : Answers) → Includes (L.state library.new).told a → HasAskedOf base.now key.now unit a) }
    ensures need { IfErr result (λ stop. WhereStopped stop
        (λ asked. (a : Answers) → (L.state library.new).told ≡ Some a → IsNeedOf base.now key.now (L.state library.new).need asked a)) }
    ensures kept { IfErr result (λ stop. WherePaused stop (IsKept base.now key.now (L.state library.new).told)) }
    ensures tree { IfErr result (λ stop. WhereTree stop (IsRead base.now key.now (L.state library.new).told)) }
    ensures goes { GoesOn (L.state library.old) (L.state library.new) }
    ensures rose { IfErr result (λ stop. WhereStopped stop (λ asked. (L.state library.old).stops < (L.state library.new).stops)) }
{
    let mut defining = Defining { library };
    unit_of(alloc, base, key, Some(tree), &mut defining)
}

// The unit that a key names, from where its execution has stopped.
fn rest_of<L: Library + Definer>(
    alloc: Global,
    key: &Key,
    paused: Paused,
    library: &mut L,
) -> Result<Unit, EvalStop>
    requires executed { IsExecuted key.now }
    requires shallow { IsShallow paused.tree }
    ensures unit { IfOk result (λ unit. (base : BaseState) (a : Answers) → Includes (L.state library.new).told a → IsRestOf base key.now paused a → IsUnitOf base key.now unit a) }
    ensures asked { IfOk result (λ unit. (base : BaseState) (a : Answers) → Includes (L.state library.new).told a → IsRestOf base key.now paused a → HasAskedOf base key.now unit a) }
    ensures need { IfErr result (λ stop. WhereStopped stop (λ asked. (base : BaseState) (a : Answers) → (L.state library.new).told ≡ Some a →
        IsRestOf base key.now paused a → IsNeedOf base key.now (L.state library.new).need asked a)) }
    ensures kept { IfErr result (λ stop. WherePaused stop (KeepsOn key.now (L.state library.new).told paused)) }
    ensures tree { IfErr result (λ stop. WhereTree stop (λ tree. tree ≡ paused.tree)) }
    ensures goes { GoesOn (L.state library.old) (L.state library.new) }
    ensures rose { IfErr result (λ stop. WhereStopped stop (λ asked. (L.state library.old).stops < (L.state library.new).stops)) }
{
    match key {
        Key::Load(..) => load_on(alloc, paused, library),
        Key::Import(..) => import_on(alloc, paused, library),
        Key::Setup(_) => setup_on(alloc, paused, library),
        Key::Read(_) | Key::Resolve(_) => unreachable!(),
    }
}

/// Goes on with the execution of the file that a key names, from where it has stopped, over what the library tells by now. Where what is
/// kept is the rest of that execution over a base, the answer is that of `evaluate` over this base: of all answers that include those told,
/// over which it is the rest. The tree that comes back is that of the file.
pub fn go_on<L: Library>(
    alloc: Global,
    key: &Key,
    paused: Paused,
    library: &mut L,
) -> Result<Unit, EvalStop>
    requires executed { IsExecuted key.now }
    requires shallow { IsShallow paused.tree }
    ensures unit { IfOk result (λ unit. (base : BaseState) (a : Answers) → Includes (L.state library.new).told a → IsRestOf base key.now paused a → IsUnitOf base key.now unit a) }
    ensures asked { IfOk result (λ unit. (base : BaseState) (a : Answers) → Includes (L.state library.new).told a → IsRestOf base key.now paused a → HasAskedOf base key.now unit a) }
    ensures need { IfErr result (λ stop. WhereStopped stop (λ asked. (base : BaseState) (a : Answers) → (L.state library.new).told ≡ Some a →
        IsRestOf base key.now paused a → IsNeedOf base key.now (L.state library.new).need asked a)) }
    ensures kept { IfErr result (λ stop. WherePaused stop (KeepsOn key.now (L.state library.new).told paused)) }
    ensures tree { IfErr result (λ stop. WhereTree stop (λ tree. tree ≡ paused.tree)) }
    ensures goes { GoesOn (L.state library.old) (L.state library.new) }
    ensures rose { IfErr result (λ stop. WhereStopped stop (λ asked. (L.state library.old).stops < (L.state library.new).stops)) }
{
    let mut defining = Defining { library };
    rest_of(alloc, key, paused, &mut defining)
}
