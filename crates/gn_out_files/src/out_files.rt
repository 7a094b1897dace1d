// Files in the order of their paths.

ghost use Rattle.std.specs.Prelude.{◌≡◌, ◌+◌, IfOk, OnOk, map};
ghost use Rattle.gn_out_files.specs.Files.{put_of, with_file, in_path_order};
ghost use Rattle.gn_out_files.specs.Keys.{files_of, AreFrom};

use crate::out_file::OutFile;
use crate::putting::{announce_each, put_each};
use gn_outside::{Sink, SinkStop};
use gn_paths::{Path, Text};
use std::alloc::{AllocError, Global};
use std::collections::BTreeMap;
use std::marker::Model;

// Where a file stands among others: in the order of paths, and those of one path in that of their numbers.
#[derive(Drop, PartialEq, Eq, PartialOrd, Ord)]
pub(crate) struct FileKey {
    pub(crate) path: Path,
    pub(crate) number: usize,
}

/// Files in the order of their paths. Contracts see the list.
#[derive(Drop)]
pub struct OutFiles {
    // What each file holds.
    files: BTreeMap<FileKey, Text>,
}

impl Model for OutFiles {
    ghost use Rattle.std.specs.Prelude.{List};
    ghost use Rattle.std.specs.Coded.{coded_list, coded_ℕ, coded×};
    ghost use Rattle.gn_outside.specs.States.{PutFile};
    ghost use Rattle.gn_out_files.specs.Keys.{files_of};

    ghost Value = { List PutFile };

    ghost coded = { coded_list (coded× (coded_list coded_ℕ) (coded_list coded_ℕ)) };

    ghost view = { λ f. files_of f.files.entries };
}

// Puts a file among others whose numbers are greater.
fn put_among(
    files: &mut BTreeMap<FileKey, Text>,
    file: OutFile,
    number: usize,
) -> Result<(), AllocError>
    requires { AreFrom (number + 1) files.old.entries }
    ensures files { OnOk result (files_of files.new.entries ≡ with_file (put_of file) (files_of files.old.entries)) }
    ensures numbers { OnOk result (AreFrom number files.new.entries) }
{
    let OutFile { path, bytes } = file;
    let _former = files.insert(FileKey { path, number }, bytes)?;
    Ok(())
}

// These files in the order of their paths.
fn in_order(alloc: Global, files: Vec<OutFile>) -> Result<BTreeMap<FileKey, Text>, AllocError>
    ensures { IfOk result (λ ordered. files_of ordered.entries ≡ in_path_order (map put_of files.items)) }
{
    let mut files = files;
    let mut ordered = BTreeMap::new(alloc);
    while let Some(file) = files.pop() {
        put_among(&mut ordered, file, files.len())?;
    }
    Ok(ordered)
}

impl OutFiles {
    ghost use Rattle.std.specs.Prelude.{◌≡◌, [], IfOk, map};
    ghost use Rattle.gn_out_files.specs.Files.{put_of, in_path_order, PutsAll};

    /// No files. It takes no memory.
    pub fn new(alloc: Global) -> OutFiles
        ensures { result ≡ [] }
    {
        OutFiles {
            files: BTreeMap::new(alloc),
        }
    }

    /// These files in the order of their paths; those of one path stay in their order.
    pub fn in_order(alloc: Global, files: Vec<OutFile>) -> Result<OutFiles, AllocError>
        ensures { IfOk result (λ ordered. ordered ≡ in_path_order (map put_of files.items)) }
    {
        Ok(OutFiles {
            files: in_order(alloc, files)?,
        })
    }

    /// Puts the files one after the other, up to the first that can't be put. All of them are announced before.
    pub fn put<K: Sink>(&self, sink: &mut K) -> Result<(), SinkStop>
        ensures { PutsAll (K.state sink.old) (K.state sink.new) self.now result }
    {
        announce_each(&self.files, sink);
        put_each(&self.files, sink)
    }
}
