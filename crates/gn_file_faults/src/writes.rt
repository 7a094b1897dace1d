// Files that are written twice, or that a target makes.

ghost use Rattle.std.specs.Prelude.{◌≡◌, ◌++◌, ◌∷◌, [], ◌||◌, List, ℕ, IfOk, OnOk, map, not, if◌then◌else◌};
ghost use Rattle.std.specs.Str.{bytes_eq};
ghost use Rattle.gn_file_faults.specs.Uses.{meant};
ghost use Rattle.gn_file_faults.specs.Imports.{has};
ghost use Rattle.gn_file_faults.specs.Writes.{counted, is_made, write_use, writes_from, execution_of, write_faults};

use crate::facts::FilesWritten;
use crate::uses::{NameUse, add_again};
use gn_faults::{Code, Fault};
use gn_items::Written;
use gn_paths::{Path, Text};
use indexmap::IndexSet;
use std::alloc::{AllocError, Global};

// Whether targets make a path.
fn is_made(
    alloc: Global,
    made: &IndexSet<Text>,
    build: &Path,
    path: &Path,
) -> Result<bool, AllocError>
    ensures { IfOk result (λ taken. taken ≡ is_made made.now.keys build.now path.now) }
{
    let text = path.seen_from(alloc, build)?;
    Ok(made.contains(&text))
}

// A call as a use of the path that it writes.
fn write_use<'a>(
    alloc: Global,
    made: &IndexSet<Text>,
    build: &Path,
    toolchain: &'a [u8],
    number: usize,
    file: &'a Written,
) -> Result<NameUse<'a>, AllocError>
    ensures { IfOk result (λ one. meant one ≡ write_use made.now.keys build.now toolchain.now number file.now) }
{
    let is_taken = is_made(alloc, made, build, &file.path)?;
    Ok(NameUse {
        name: file.path.as_text(),
        toolchain,
        place: &file.place,
        number,
        is_taken,
    })
}

// Puts a path with those that later calls write, if it isn't there, and says whether it isn't.
fn is_last<'a>(later: &mut IndexSet<&'a Text>, path: &'a Text) -> Result<bool, AllocError>
    ensures said { IfOk result (λ last. last ≡ not (has later.old path.now)) }
    ensures later { OnOk result ((other : List ℕ) → has later.new other ≡ (bytes_eq path.now other || has later.old other)) }
{
    if later.contains(&path) {
        return Ok(false);
    }
    later.insert(path)?;
    Ok(true)
}

// Puts a call behind those that count, unless a later one writes its path.
fn push_write<'a>(
    alloc: Global,
    uses: &mut Vec<NameUse<'a>>,
    later: &mut IndexSet<&'a Text>,
    made: &IndexSet<Text>,
    build: &Path,
    toolchain: &'a [u8],
    number: usize,
    file: &'a Written,
) -> Result<(), AllocError>
    ensures uses { OnOk result (map meant uses.new.items
        ≡ map meant uses.old.items ++ (if has later.old file.now.path then [] else write_use made.now.keys build.now toolchain.now number file.now ∷ [])) }
    ensures later { OnOk result ((other : List ℕ) → has later.new other ≡ (bytes_eq file.now.path other || has later.old other)) }
{
    if is_last(later, file.path.as_text())? {
        uses.push(write_use(alloc, made, build, toolchain, number, file)?)?;
    }
    Ok(())
}

// Puts the calls of an execution that count behind the others, the last one first.
fn push_writes<'a>(
    alloc: Global,
    uses: &mut Vec<NameUse<'a>>,
    made: &IndexSet<Text>,
    build: &Path,
    number: usize,
    execution: &FilesWritten<'a>,
) -> Result<(), AllocError>
    ensures { OnOk result (map meant uses.new.items
        ≡ map meant uses.old.items ++ map (write_use made.now.keys build.now execution.now.toolchain.now number) (counted execution.now.files.now)) }
{
    let mut later = IndexSet::new(alloc);
    let mut i = execution.files.len();
    while i > 0 {
        i -= 1;
        let file = &execution.files[i];
        push_write(
            alloc,
            uses,
            &mut later,
            made,
            build,
            execution.toolchain,
            number,
            file,
        )?;
    }
    Ok(())
}

// The calls that count, of executions in the order of the build.
fn writes_of<'a>(
    alloc: Global,
    made: &IndexSet<Text>,
    build: &Path,
    executions: &[FilesWritten<'a>],
) -> Result<Vec<NameUse<'a>>, AllocError>
    ensures { IfOk result (λ uses. map meant uses.items ≡ writes_from made.now.keys build.now 0 (map execution_of executions.now)) }
{
    let mut uses = Vec::new(alloc);
    for (number, execution) in executions.iter().enumerate() {
        push_writes(alloc, &mut uses, made, build, number, execution)?;
    }
    Ok(uses)
}

/// Puts the faults of files that are written twice, or that a target makes, behind the others. Of the calls of one execution for a path
/// the last counts. Each path is looked up among what is written and what is made.
pub(crate) fn add_write_faults(
    alloc: Global,
    faults: &mut Vec<Fault>,
    made: &IndexSet<Text>,
    build: &Path,
    executions: &[FilesWritten<'_>],
) -> Result<(), AllocError>
    ensures { OnOk result (faults.new.items ≡ faults.old.items ++ write_faults made.now.keys build.now (map execution_of executions.now)) }
{
    let uses = writes_of(alloc, made, build, executions)?;
    add_again(alloc, faults, Code::SameOutput, uses.as_slice())
}
