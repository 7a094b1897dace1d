// Trees in memory, and the source and the sink over them.

use crate::rows::{field, is_shown, number, table};
use gn_outside::{ReadStop, Sink, SinkStop, Source, Tree, TreeFile, TreeSink, TreeSource};
use std::alloc::{AllocError, Global};

/// A path, and the bytes that the tree has there, or that it has none.
pub(crate) const FILES: &str = table! {
    "//BUILD.gn", "new";
    "//a", "";
    "//big", "TooBig";
    "//b", "None";
};

fn put_all(tree: &mut Tree) -> Result<(), AllocError> {
    tree.put("//BUILD.gn", b"old")?;
    tree.put("//a", b"")?;
    tree.put("//BUILD.gn", b"new")?;
    tree.mark("//big")
}

fn is_file(found: Option<TreeFile<'_>>, wanted: &str) -> bool {
    match found {
        Some(TreeFile::Bytes(bytes)) => bytes == wanted.as_bytes(),
        Some(TreeFile::TooBig) => wanted == "TooBig",
        None => wanted == "None",
    }
}

/// Whether a tree has what the row expects at its path.
pub(crate) fn is_there(alloc: Global, row: &str) -> Result<bool, AllocError> {
    let mut tree = Tree::new(alloc);
    let is_put = put_all(&mut tree);
    let is_there = is_file(tree.get(field(row, 0)), field(row, 1));
    drop(tree);
    is_put?;
    Ok(is_there)
}

/// How long a file is, and what its read answers: how long it is, or why there is none.
pub(crate) const LENGTHS: &str = table! {
    16777216, "Ok(Some(16777216))";
    16777217, "Err(TooBig(16777217))";
};

fn file_of(alloc: Global, len: usize) -> Result<Tree, AllocError> {
    let bytes = vec![in alloc; 7; len]?;
    let mut tree = Tree::new(alloc);
    let is_put = tree.put("//long", &bytes);
    drop(bytes);
    match is_put {
        Ok(()) => Ok(tree),
        Err(error) => {
            drop(tree);
            Err(error)
        }
    }
}

fn length(source: &mut TreeSource, alloc: Global) -> Result<Option<usize>, ReadStop> {
    match source.read(alloc, "//long") {
        Ok(Some(bytes)) => Ok(Some(bytes.len())),
        Ok(None) => Ok(None),
        Err(stop) => Err(stop),
    }
}

/// Whether the read of a file that is so long answers what the row expects.
pub(crate) fn is_long(alloc: Global, row: &str) -> Result<bool, AllocError> {
    let tree = file_of(alloc, number(row, 0))?;
    let mut source = TreeSource::new(alloc, tree, Vec::new(alloc));
    let length = length(&mut source, alloc);
    drop(source);
    is_shown(alloc, length, field(row, 1))
}

// The reads from a source that fails at the second, in order, with the bytes that each answers, or why there are none.
const READS: &str = table! {
    "//a", "1";
    "//b", "Failed";
    "//c", "None";
};

/// The path of each read by its number.
pub(crate) const READ_PATHS: &str = table! {
    0, "Some(\"//a\")";
    1, "Some(\"//b\")";
    2, "Some(\"//c\")";
    3, "None";
};

// A source may go to a thread.
fn sent<S: Source + Send>(source: S) -> S {
    source
}

fn one_file(alloc: Global) -> Result<Tree, AllocError> {
    let mut tree = Tree::new(alloc);
    tree.put("//a", b"1")?;
    Ok(tree)
}

fn failing_source(alloc: Global) -> Result<TreeSource, AllocError> {
    let failing = [2].to_vec(alloc)?;
    Ok(sent(TreeSource::new(alloc, one_file(alloc)?, failing)))
}

fn is_read(read: &Result<Option<Vec<u8>>, ReadStop>, wanted: &str) -> bool {
    match read {
        Ok(Some(bytes)) => bytes.as_slice() == wanted.as_bytes(),
        Ok(None) => wanted == "None",
        Err(ReadStop::Failed) => wanted == "Failed",
        Err(_) => false,
    }
}

fn answers_all(source: &mut TreeSource, alloc: Global) -> bool {
    for row in READS.split_terminator('\x1e') {
        if !is_read(&source.read(alloc, field(row, 0)), field(row, 1)) {
            return false;
        }
    }
    true
}

/// Whether a source that fails at times has read the path of the row.
pub(crate) fn has_read(alloc: Global, row: &str) -> Result<bool, AllocError> {
    let mut source = failing_source(alloc)?;
    let answers = answers_all(&mut source, alloc);
    let is_path = is_shown(alloc, source.read_path(number(row, 0)), field(row, 1));
    drop(source);
    Ok(answers && is_path?)
}

// The calls of a sink that fails at the second and the fifth, in order, with their answers: bytes that are said, and then
// bytes that are put at a path.
const CALLS: &str = table! {
    "say", "a", "Ok(())";
    "say", "b", "Err(Failed)";
    "say", "c", "Ok(())";
    "x", "1", "Ok(())";
    "y", "2", "Err(Failed)";
    "z", "3", "Ok(())";
};

/// The files of the sink then by their numbers: a path and its bytes.
pub(crate) const PUT: &str = table! {
    0, "x", "1";
    1, "z", "3";
    2, "None", "";
};

fn made(sink: &mut TreeSink, row: &str) -> Result<(), SinkStop> {
    match field(row, 0) {
        "say" => sink.say(field(row, 1).as_bytes()),
        path => sink.put(path, field(row, 1).as_bytes()),
    }
}

fn takes_all(alloc: Global, sink: &mut TreeSink) -> Result<bool, AllocError> {
    for row in CALLS.split_terminator('\x1e') {
        if !is_shown(alloc, made(sink, row), field(row, 2))? {
            return Ok(false);
        }
    }
    Ok(true)
}

fn is_put(found: Option<(&str, &[u8])>, row: &str) -> bool {
    match found {
        Some((path, bytes)) => path == field(row, 1) && bytes == field(row, 2).as_bytes(),
        None => field(row, 1) == "None",
    }
}

/// Whether a sink that fails at times has the file of the row.
pub(crate) fn has_taken(alloc: Global, row: &str) -> Result<bool, AllocError> {
    let failing = [2, 5].to_vec(alloc)?;
    let mut sink = TreeSink::new(alloc, failing);
    let takes = takes_all(alloc, &mut sink);
    let is_put = sink.said() == b"ac".as_slice() && is_put(sink.file(number(row, 0)), row);
    drop(sink);
    Ok(is_put && takes?)
}

const MANY: u64 = 10_000;

fn put_numbered(alloc: Global, tree: &mut Tree, number: u64) -> Result<(), AllocError> {
    let path = format!(in alloc; "//dir{number}/BUILD.gn")?;
    tree.put(path.as_str(), b"group")
}

fn has_numbered(alloc: Global, tree: &Tree, number: u64) -> Result<bool, AllocError> {
    let path = format!(in alloc; "//dir{number}/BUILD.gn")?;
    Ok(tree.get(path.as_str()).is_some())
}

fn many_files(alloc: Global) -> Result<Tree, AllocError> {
    let mut tree = Tree::new(alloc);
    for number in 0..MANY {
        put_numbered(alloc, &mut tree, number)?;
    }
    Ok(tree)
}

fn has_all(alloc: Global, tree: &Tree) -> Result<bool, AllocError> {
    for number in 0..MANY {
        if !has_numbered(alloc, tree, number)? {
            return Ok(false);
        }
    }
    Ok(true)
}

/// Whether a tree has each of many files that were put.
pub(crate) fn has_many(alloc: Global) -> Result<bool, AllocError> {
    let tree = many_files(alloc)?;
    let has_all = has_all(alloc, &tree);
    drop(tree);
    has_all
}
