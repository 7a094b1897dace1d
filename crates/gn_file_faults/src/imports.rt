// Files that are both loaded and imported.

ghost use Rattle.std.specs.Prelude.{◌≡◌, ◌++◌, ◌∷◌, [], ◌||◌, List, ℕ, IfOk, OnOk, map};
ghost use Rattle.std.specs.List.{filter};
ghost use Rattle.std.specs.Str.{bytes_eq};
ghost use Rattle.gn_file_faults.specs.Imports.{has, is_among, import_fault, import_faults};

use gn_faults::{Code, Fault, Stage};
use gn_paths::{Path, Place, Text, Texts};
use indexmap::IndexSet;
use std::alloc::{AllocError, Global};

// Puts a path with the others.
fn put_path<'a>(set: &mut IndexSet<&'a Path>, path: &'a Path) -> Result<(), AllocError>
    ensures { OnOk result ((other : List ℕ) → has set.new other ≡ (bytes_eq path.now other || has set.old other)) }
{
    set.insert(path)?;
    Ok(())
}

// These paths as a set.
#[tactic(auto, using(crate::proofs::WriteLemmas::one_more))]
fn set_of<'a>(alloc: Global, paths: &[&'a Path]) -> Result<IndexSet<&'a Path>, AllocError>
    ensures { IfOk result (λ set. (path : List ℕ) → has set path ≡ is_among (map (λ p. p.now) paths.now) path) }
{
    let mut set = IndexSet::new(alloc);
    for path in paths {
        put_path(&mut set, *path)?;
    }
    Ok(set)
}

// The place at the beginning of a file.
fn beginning(alloc: Global, path: &Path) -> Result<Place, AllocError>
    ensures { IfOk result (λ place. place ≡ record { file = path.now; line = 1; column = 1 }) }
{
    Ok(Place {
        file: path.as_text().copy(alloc)?,
        line: 1,
        column: 1,
    })
}

// The fault of a file that is both loaded and imported.
fn import_fault(alloc: Global, path: &Path) -> Result<Fault, AllocError>
    ensures { IfOk result (λ f. f ≡ import_fault path.now) }
{
    let mut detail = Texts::new(alloc);
    detail.push(path.as_text().copy(alloc)?)?;
    let place = beginning(alloc, path)?;
    Ok(Fault {
        stage: Stage::Graph,
        place: Some(place),
        toolchain: Text::new(alloc),
        code: Code::ImportedBuildFile,
        detail,
    })
}

// Puts the fault of a file behind the others.
fn push_fault(alloc: Global, faults: &mut Vec<Fault>, path: &Path) -> Result<(), AllocError>
    ensures { OnOk result (faults.new.items ≡ faults.old.items ++ import_fault path.now ∷ []) }
{
    faults.push(import_fault(alloc, path)?)?;
    Ok(())
}

// Whether a set has a path.
fn is_loaded<'a>(loaded: &IndexSet<&'a Path>, path: &'a Path) -> bool
    ensures { result ≡ has loaded.now path.now }
{
    loaded.contains(&path)
}

// Puts the faults of the imported files that a set has behind the others.
fn push_imported<'a>(
    alloc: Global,
    faults: &mut Vec<Fault>,
    loaded: &IndexSet<&'a Path>,
    imported: &[&'a Path],
) -> Result<(), AllocError>
    ensures { OnOk result (faults.new.items ≡ faults.old.items ++ map import_fault (filter (has loaded.now) (map (λ p. p.now) imported.now))) }
{
    for path in imported {
        if is_loaded(loaded, *path) {
            push_fault(alloc, faults, *path)?;
        }
    }
    Ok(())
}

/// Puts the faults of the imported files that are loaded too behind the others. It looks each file up among those that are loaded.
pub(crate) fn add_import_faults<'a>(
    alloc: Global,
    faults: &mut Vec<Fault>,
    loaded: &[&'a Path],
    imported: &[&'a Path],
) -> Result<(), AllocError>
    ensures { OnOk result (faults.new.items ≡ faults.old.items ++ import_faults (map (λ p. p.now) loaded.now) (map (λ p. p.now) imported.now)) }
{
    let set = set_of(alloc, loaded)?;
    push_imported(alloc, faults, &set, imported)
}
