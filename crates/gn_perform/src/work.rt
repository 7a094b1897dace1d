// The work on one claim, outside the book.

ghost use Rattle.std.specs.Prelude.{◌≡◌, ℕ, List, IfOk, IfSome, Some};
ghost use Rattle.gn_executions.specs.Base.{BaseState};
ghost use Rattle.gn_outside.specs.Tree.{Tree};
ghost use Rattle.gn_core.specs.Keys.{Read, Unit_of, Key as Asked, Filed as Answers};
ghost use Rattle.gn_book.specs.Keys.{key_of};
ghost use Rattle.gn_perform.specs.Kept.{IsKeptOf};
ghost use Rattle.gn_closure.specs.Reach.{Load as load};
ghost use Rattle.gn_perform.specs.Performing.{IsPerformed, IsPerformedOver, IsAnsweredOver, KeepsFor, IsOfTree, IsWorkOf, HasWork, IsEvaluated};

use crate::evaluating::{perform_import, perform_load, perform_setup};
use crate::kept::{Kept, Rest};
use gn_answers::{Filed, Part, PerformStop, read_content};
use gn_items::Key;
use gn_outside::Source;
use gn_paths::{Path, Place, Text};
use gn_unit::Base;
use std::alloc::{AllocError, Global};

/// What comes of the work on a claim.
#[derive(Drop)]
pub enum Performed {
    /// The answer of its key.
    Answered(Filed),
    /// The evaluation needs the answer of this key first, for a call at this place; and what is kept of it.
    Needs(Key, Place, Kept),
}

// An evaluation reads nothing.
fn evaluated(done: Result<Performed, AllocError>) -> Result<Performed, PerformStop>
    ensures { IsEvaluated done result }
{
    match done {
        Ok(done) => Ok(done),
        Err(_) => Err(PerformStop::Memory),
    }
}

// The work on the claim of a read: what the source has at the path. It looks at no part of the answers that are filed.
fn perform_read<S: Source>(
    alloc: Global,
    path: &Path,
    source: &mut S,
) -> Result<Performed, PerformStop>
    ensures done { IfOk result (λ done. (start : BaseState) (part : Answers) → IsPerformed start part (Read path.now) done) }
    ensures tree { IfOk result (λ done. (tree : Tree) → (S.state source.old).tree ≡ Some tree → IsOfTree tree (Read path.now) done) }
    ensures reads { IsWorkOf (Read path.now) (S.state source.old) (S.state source.new) result }
{
    match read_content(alloc, path, source) {
        Ok(content) => Ok(Performed::Answered(Filed::Content(content))),
        Err(stop) => Err(stop),
    }
}

/// The work on the claim of a key, over a base and some part of the answers that are filed: a read of its path, or an evaluation that
/// reads nothing, and goes on where something is left of it, with the tree of its file, which isn't parsed again. What is answered is right over that part, and what is needed is needed over it, where the base is that of the key's
/// layer. What is kept is what is left of the evaluation then. `Failed` comes exactly where the source's count of faults rose. It makes no record of a label.
pub fn perform<P: Part, S: Source>(
    alloc: Global,
    key: &Key,
    base: &Base,
    part: &P,
    source: &mut S,
    rest: Option<Rest>,
) -> Result<Performed, PerformStop>
    requires work { HasWork (key_of key.now) }
    requires rest { IfSome rest (IsKeptOf base.now (P.answers part.now) key.now) }
    ensures done { IfOk result (IsPerformedOver base.now (P.answers part.now) (key_of key.now)) }
    ensures kept { IfOk result (KeepsFor base.now (P.answers part.now) key.now) }
    ensures tree { IfOk result (λ done. (tree : Tree) → (S.state source.old).tree ≡ Some tree → IsOfTree tree (key_of key.now) done) }
    ensures reads { IsWorkOf (key_of key.now) (S.state source.old) (S.state source.new) result }
{
    match key {
        Key::Read(path) => {
            drop(rest);
            perform_read(alloc, path, source)
        }
        Key::Import(when, toolchain, path) => {
            evaluated(perform_import(alloc, base, part, *when, toolchain, path, rest))
        }
        Key::Setup(toolchain) => evaluated(perform_setup(alloc, base, part, toolchain, rest)),
        Key::Load(directory, toolchain) => {
            evaluated(perform_load(alloc, base, part, directory, toolchain, rest))
        }
        Key::Resolve(_) => unreachable!(),
    }
}

// What the work on a claim has answered, where it needs nothing else.
fn answer_in(done: Performed) -> Option<Filed>
    ensures { (base : BaseState) (part : Answers) (key : Asked) → IsPerformedOver base part key done → IsAnsweredOver base part key result }
{
    match done {
        Performed::Answered(answer) => Some(answer),
        Performed::Needs(..) => None,
    }
}

/// The answer of a build file, over a base and some part of the answers that are filed, before it is claimed: what the work on its
/// claim comes to from its beginning. None comes where that needs another answer first. It reads nothing.
pub fn load_answer<P: Part>(
    alloc: Global,
    base: &Base,
    part: &P,
    directory: &Path,
    toolchain: &Text,
) -> Result<Option<Filed>, AllocError>
    ensures { IfOk result (IsAnsweredOver base.now (P.answers part.now) (Unit_of (load directory.now toolchain.now))) }
{
    let done = perform_load(alloc, base, part, directory, toolchain, None)?;
    Ok(answer_in(done))
}
