// Which names targets may have besides their done files.

ghost use Rattle.std.specs.Prelude.{◌≡◌, ◌∷◌, [], ◌++◌, List, ℕ, Some, IfOk, OnOk, map};
ghost use Rattle.std.specs.List.{flat_map};
ghost use Rattle.std.specs.Str.{bytes_eq};
ghost use Rattle.gn_text.specs.Names.{with_name};
ghost use Rattle.gn_paths.specs.Parts.{file_of};
ghost use Rattle.gn_ninja.specs.Claims.{claimant, AreNoted, IsRepeated, is_one_of, bare, stands_twice, names_of, executable_names, name_where, name_in, claim_to, claims_in, claims_of};

use crate::phony::Claim;
use gn_labels::Label;
use gn_paths::{PathPart, Text, part};
use gn_text::Names;
use gn_writing::is_missing;
use std::alloc::{AllocError, Global};

/// A generated target of the default toolchain, which may have names besides its done file.
#[derive(Clone, Copy)]
pub struct Claimant<'a> {
    /// Its label.
    pub label: &'a Label,
    /// Whether it is an executable.
    pub is_executable: bool,
    /// Its done file.
    pub done: &'a Text,
}

// The classes of names, of which the first that has a name gives it.
#[derive(Clone, Copy)]
pub(crate) enum Class {
    // The names of targets of the root directory.
    OfRoot,
    // The name of a target whose directory stands in the root and has its name.
    OfItself,
    // The name of an executable, where no other has it.
    OnlyExecutable,
    // The name of a target, where no other has it.
    OnlyTarget,
    // The directory and the name, of every target.
    WithDirectory,
    // The directory, of a target whose name it ends in.
    OfDirectory,
}

pub(crate) static CLASSES: [Class; 6] = [
    Class::OfRoot,
    Class::OfItself,
    Class::OnlyExecutable,
    Class::OnlyTarget,
    Class::WithDirectory,
    Class::OfDirectory,
];

// The names that stand more than once among those of the targets, and among those of the executables.
#[derive(Drop)]
struct Repeated {
    targets: Names,
    executables: Names,
}

// Puts a name among those of a table.
fn put(names: &mut Names, name: &Text) -> Result<(), AllocError>
    ensures { OnOk result (names.new ≡ with_name names.old name.now) }
{
    names.intern(name.as_bytes())?;
    Ok(())
}

// Notes a name: among those that stand there, or where it stands there already among those that stand there again.
#[tactic(auto, using(crate::proofs::Twice::noted_new, crate::proofs::Twice::noted_old))]
fn note(once: &mut Names, again: &mut Names, name: &Text) -> Result<(), AllocError>
    ensures { OnOk result ((names : List (List ℕ)) → AreNoted names once.old again.old → AreNoted (names ++ name.now ∷ []) once.new again.new) }
{
    if is_missing(once, name) {
        put(once, name)
    } else {
        put(again, name)
    }
}

// The names of the targets that stand more than once.
#[tactic(auto, using(crate::proofs::Twice::nothing_noted))]
fn repeated_targets(alloc: Global, targets: &[Claimant<'_>]) -> Result<Names, AllocError>
    ensures { IfOk result (λ again. (q : List ℕ) → is_one_of again q ≡ stands_twice (names_of (map claimant targets.now)) q) }
{
    let mut once = Names::new(alloc);
    let mut again = Names::new(alloc);
    for target in targets {
        note(&mut once, &mut again, &target.label.name)?;
    }
    Ok(again)
}

// Notes the name of a target where it is an executable.
fn note_executable(
    once: &mut Names,
    again: &mut Names,
    target: &Claimant<'_>,
) -> Result<(), AllocError>
    ensures { OnOk result ((names : List (List ℕ)) → AreNoted names once.old again.old → AreNoted (names ++ executable_names (claimant target.now ∷ [])) once.new again.new) }
{
    if target.is_executable {
        note(once, again, &target.label.name)
    } else {
        Ok(())
    }
}

// The names of the executables that stand more than once.
#[tactic(auto, using(crate::proofs::Twice::nothing_noted))]
fn repeated_executables(alloc: Global, targets: &[Claimant<'_>]) -> Result<Names, AllocError>
    ensures { IfOk result (λ again. (q : List ℕ) → is_one_of again q ≡ stands_twice (executable_names (map claimant targets.now)) q) }
{
    let mut once = Names::new(alloc);
    let mut again = Names::new(alloc);
    for target in targets {
        note_executable(&mut once, &mut again, target)?;
    }
    Ok(again)
}

// The names of targets and of executables that stand more than once.
fn repeated_names(alloc: Global, targets: &[Claimant<'_>]) -> Result<Repeated, AllocError>
    ensures { IfOk result (λ r. IsRepeated (map claimant targets.now) r) }
{
    let of_targets = repeated_targets(alloc, targets)?;
    let of_executables = repeated_executables(alloc, targets)?;
    Ok(Repeated {
        targets: of_targets,
        executables: of_executables,
    })
}

// A name, where that holds.
fn name_where(alloc: Global, holds: bool, name: &[u8]) -> Result<Option<Text>, AllocError>
    ensures { IfOk result (λ n. n ≡ name_where holds name.now) }
{
    if holds {
        Ok(Some(Text::from_bytes(alloc, name)?))
    } else {
        Ok(None)
    }
}

// The bytes of a directory of the source tree without its `//`.
fn bare(dir: &[u8]) -> &[u8]
    ensures { result.now ≡ bare dir.now }
{
    if dir.len() < 2 { b"" } else { &dir[2..] }
}

// The directory and the name of a target, with a colon between.
fn with_directory(alloc: Global, label: &Label) -> Result<Option<Text>, AllocError>
    ensures { IfOk result (λ n. n ≡ Some (bare label.now.dir ++ 58 ∷ label.now.name)) }
{
    let mut text = Text::from_bytes(alloc, bare(label.dir.as_bytes()))?;
    text.push(b':')?;
    text.append(label.name.as_bytes())?;
    Ok(Some(text))
}

// The directory of a target, where it ends in the target's name.
fn of_directory(alloc: Global, label: &Label) -> Result<Option<Text>, AllocError>
    ensures { IfOk result (λ n. n ≡ name_where (bytes_eq (file_of label.now.dir) label.now.name) (bare label.now.dir)) }
{
    let last = part(alloc, label.dir.as_bytes(), PathPart::File)?;
    name_where(alloc, last == label.name, bare(label.dir.as_bytes()))
}

// The name that a target has in a class, where it has one.
fn name_in(
    alloc: Global,
    repeated: &Repeated,
    class: Class,
    target: &Claimant<'_>,
) -> Result<Option<Text>, AllocError>
    ensures { IfOk result (λ n. n ≡ name_in (is_one_of repeated.now.executables) (is_one_of repeated.now.targets) class (claimant target.now)) }
{
    let dir = target.label.dir.as_bytes();
    let name = target.label.name.as_bytes();
    match class {
        Class::OfRoot => name_where(alloc, dir == b"//".as_slice(), name),
        Class::OfItself => name_where(alloc, bare(dir) == name, name),
        Class::OnlyExecutable => name_where(
            alloc,
            target.is_executable && is_missing(&repeated.executables, &target.label.name),
            name,
        ),
        Class::OnlyTarget => name_where(
            alloc,
            is_missing(&repeated.targets, &target.label.name),
            name,
        ),
        Class::WithDirectory => with_directory(alloc, target.label),
        Class::OfDirectory => of_directory(alloc, target.label),
    }
}

// Puts the claim of a target to a name behind the others.
fn push_claim(
    alloc: Global,
    claims: &mut Vec<Claim>,
    target: &Claimant<'_>,
    name: Option<Text>,
) -> Result<(), AllocError>
    ensures { OnOk result (claims.new.items ≡ claims.old.items ++ claim_to (claimant target.now) name) }
{
    match name {
        Some(name) => push_named(alloc, claims, target, name),
        None => Ok(()),
    }
}

// Puts the claim of a target to this name behind the others.
fn push_named(
    alloc: Global,
    claims: &mut Vec<Claim>,
    target: &Claimant<'_>,
    name: Text,
) -> Result<(), AllocError>
    ensures { OnOk result (claims.new.items ≡ claims.old.items ++ record { name = name; done = target.now.done.now } ∷ []) }
{
    let done = target.done.copy(alloc)?;
    claims.push(Claim { name, done })?;
    Ok(())
}

// Puts the claims of a class behind the others.
fn add_class(
    alloc: Global,
    claims: &mut Vec<Claim>,
    repeated: &Repeated,
    class: Class,
    targets: &[Claimant<'_>],
) -> Result<(), AllocError>
    ensures { OnOk result (claims.new.items ≡ claims.old.items ++ claims_in (is_one_of repeated.now.executables) (is_one_of repeated.now.targets) (map claimant targets.now) class) }
{
    for target in targets {
        let name = name_in(alloc, repeated, class, target)?;
        push_claim(alloc, claims, target, name)?;
    }
    Ok(())
}

// Puts the claims of some classes behind one another.
fn add_classes(
    alloc: Global,
    claims: &mut Vec<Claim>,
    repeated: &Repeated,
    classes: &[Class],
    targets: &[Claimant<'_>],
) -> Result<(), AllocError>
    ensures { OnOk result (claims.new.items ≡ claims.old.items ++ flat_map (claims_in (is_one_of repeated.now.executables) (is_one_of repeated.now.targets) (map claimant targets.now)) classes.now) }
{
    for class in classes {
        add_class(alloc, claims, repeated, *class, targets)?;
    }
    Ok(())
}

// Which names the targets claim, which stand in label order: class by class, so that of two claims of a name the first
// has it.
#[tactic(auto, using(crate::proofs::Claimed::claims_are))]
pub(crate) fn claims_of(alloc: Global, targets: &[Claimant<'_>]) -> Result<Vec<Claim>, AllocError>
    ensures { IfOk result (λ claims. claims.items ≡ claims_of (map claimant targets.now)) }
{
    let repeated = repeated_names(alloc, targets)?;
    let mut claims = Vec::new(alloc);
    add_classes(alloc, &mut claims, &repeated, &CLASSES, targets)?;
    Ok(claims)
}
