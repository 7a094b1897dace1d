// The files that a build puts.

ghost use Rattle.std.specs.Prelude.{◌≡◌, ◌++◌, ◌∷◌, [], IfOk, OnOk, Some, map};
ghost use Rattle.gn_values.specs.Tables.{with_name, with_names};
ghost use Rattle.gn_out_files.specs.Files.{put_of};
ghost use Rattle.gn_built.specs.Files.{files_of};
ghost use Rattle.gn_top.specs.Files.{written_file, written_files, arguments_file, files_made, files_put};
ghost use Rattle.gn_top.specs.Building.{request_view, build_view, faultless_view};

use crate::building::Build;
use crate::faultless::Faultless;
use crate::first::{Request, arguments_path};
use crate::ninja::ninja_files;
use gn_built::WrittenFiles;
use gn_items::Written;
use gn_out_files::{OutFile, OutFiles};
use gn_paths::{Path, Text};
use std::alloc::{AllocError, Global};
use std::collections::BTreeMap;
use std::thread::Threads;

// Puts a file that was written among others, in place of one of its path.
fn put_written(
    alloc: Global,
    table: &mut BTreeMap<Path, Text>,
    file: &Written,
) -> Result<(), AllocError>
    ensures { OnOk result (table.new.entries ≡ with_name file.now.path file.now.bytes table.old.entries) }
{
    let path = file.path.copy(alloc)?;
    let _former = table.insert(path, file.bytes.copy(alloc)?)?;
    Ok(())
}

// Puts the files that an execution has written among others, in place of those of their paths.
fn put_all_written(
    alloc: Global,
    table: &mut BTreeMap<Path, Text>,
    files: &[Written],
) -> Result<(), AllocError>
    ensures { OnOk result (table.new.entries ≡ with_names (map written_file files.now) table.old.entries) }
{
    for file in files {
        put_written(alloc, table, file)?;
    }
    Ok(())
}

// The files that were written, by their paths.
#[tactic(auto, unfolding(crate::specs::Files::written_files))]
fn written_table(
    alloc: Global,
    written: &[WrittenFiles<'_>],
) -> Result<BTreeMap<Path, Text>, AllocError>
    ensures { IfOk result (λ table. table.entries ≡ written_files (files_of written.now)) }
{
    let mut table = BTreeMap::new(alloc);
    for execution in written {
        put_all_written(alloc, &mut table, execution.files)?;
    }
    Ok(table)
}

// Puts the files of a table behind others.
fn append_table(files: &mut Vec<OutFile>, table: BTreeMap<Path, Text>) -> Result<(), AllocError>
    ensures { OnOk result (map put_of files.new.items ≡ map put_of files.old.items ++ table.entries) }
{
    for (path, bytes) in table {
        files.push(OutFile { path, bytes })?;
    }
    Ok(())
}

// Puts the files behind others that a build has written.
fn append_written(alloc: Global, files: &mut Vec<OutFile>, build: &Build) -> Result<(), AllocError>
    ensures { OnOk result (map put_of files.new.items ≡ map put_of files.old.items ++ written_files (build_view build.now).loaded.written) }
{
    let table = written_table(alloc, &build.loaded.written(alloc)?)?;
    append_table(files, table)
}

// The file that keeps build arguments.
fn arguments_of(alloc: Global, directory: &Path, text: &[u8]) -> Result<OutFile, AllocError>
    ensures { IfOk result (λ file. put_of file ∷ [] ≡ arguments_file directory.now (Some text.now)) }
{
    let mut bytes = Text::from_bytes(alloc, text)?;
    bytes.push(b'\n')?;
    Ok(OutFile {
        path: arguments_path(alloc, directory)?,
        bytes,
    })
}

// Puts the file behind others that keeps the build arguments of the command line, if it gives any.
fn append_arguments(
    alloc: Global,
    files: &mut Vec<OutFile>,
    request: &Request<'_>,
) -> Result<(), AllocError>
    ensures { OnOk result (map put_of files.new.items ≡ map put_of files.old.items ++ arguments_file (request_view request.now).directory (request_view request.now).arguments) }
{
    let Some(text) = request.arguments else {
        return Ok(());
    };
    files.push(arguments_of(alloc, &request.directory, text)?)?;
    Ok(())
}

// All files of a build.
fn files_made<R: Threads + Sync>(
    rt: &R,
    alloc: Global,
    request: &Request<'_>,
    build: &Faultless<'_, '_>,
) -> Result<Vec<OutFile>, AllocError>
    ensures { IfOk result (λ files. map put_of files.items ≡ files_made (request_view request.now) (faultless_view build.now)) }
{
    let mut files = ninja_files(rt, alloc, build)?;
    append_written(alloc, &mut files, build.build)?;
    append_arguments(alloc, &mut files, request)?;
    Ok(files)
}

/// The files that a build puts, in the order of their paths.
#[tactic(auto, unfolding(crate::specs::Files::files_put))]
pub(crate) fn files_put<R: Threads + Sync>(
    rt: &R,
    alloc: Global,
    request: &Request<'_>,
    build: &Faultless<'_, '_>,
) -> Result<OutFiles, AllocError>
    ensures { IfOk result (λ files. files ≡ files_put (request_view request.now) (faultless_view build.now)) }
{
    OutFiles::in_order(alloc, files_made(rt, alloc, request, build)?)
}
