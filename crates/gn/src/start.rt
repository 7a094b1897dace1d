// What the program hands to the top call.
ghost use Rattle.std.specs.Prelude.{◌≡◌, IfOk, string_bytes, vec_len};
ghost use Rattle.std.specs.Bool.{OnTrue};
ghost use Rattle.gn_top.specs.Hosts.{IsRoot};
ghost use Rattle.gn.specs.Starts.{HasRoot};

use crate::file_source::FileSource;
use gn_top::Host;
use std::alloc::{AllocError, Global};
use std::io::ErrorKind;
use std::rt::{Env, Files};
use std::{env, io};

// How many sources the program has, and so how many workers at most.
const SOURCE_COUNT: usize = 8;

/// What the command line and its surroundings come to.
pub enum Start {
    /// The words without the program's name, and the host.
    Run(Vec<String>, Host),
    /// A word isn't UTF-8, or the current folder is no source root.
    NoForm,
    /// Want of memory.
    NoMemory,
}

/// The words of the command line, and the current folder as source root.
pub fn start_of<R: Env + AllocGlobal>(rt: &R) -> Start
    ensures { HasRoot result }
{
    let words = match words(rt) {
        Ok(words) => words,
        Err(error) => return no_start(error),
    };
    let root = match current_folder(rt) {
        Ok(root) => root,
        Err(error) => return no_start(error),
    };
    if !is_root(&root) {
        return Start::NoForm;
    }
    match host(rt.alloc(), root) {
        Ok(host) => Start::Run(words, host),
        Err(_) => Start::NoMemory,
    }
}

/// The sources of the program: eight over the files below the current folder.
pub fn sources<R: Files + Drop + Copy>(
    alloc: Global,
    rt: R,
) -> Result<Vec<FileSource<R>>, AllocError>
    ensures { IfOk result (λ sources. vec_len sources ≡ 8) }
{
    let mut sources = Vec::new(alloc);
    for _ in 0..SOURCE_COUNT {
        sources.push(FileSource::new(rt))?;
    }
    Ok(sources)
}

// Why there is no start.
fn no_start(error: io::Error) -> Start
    ensures { HasRoot result }
{
    match error.kind() {
        ErrorKind::OutOfMemory => Start::NoMemory,
        _ => Start::NoForm,
    }
}

// The words of the command line, without the program's name.
fn words<R: Env + AllocGlobal>(rt: &R) -> io::Result<Vec<String>> {
    let mut words = Vec::new(rt.alloc());
    for word in env::args(rt)?.skip(1) {
        words.push(word)?;
    }
    Ok(words)
}

// The path of the current folder.
fn current_folder<R: Env + AllocGlobal>(rt: &R) -> io::Result<String> {
    let folder = env::current_dir(rt)?;
    Ok(String::from_str(rt.alloc(), folder.as_str())?)
}

// It begins with a slash and doesn't end with one.
fn is_root(path: &str) -> bool
    ensures { OnTrue result (IsRoot path.now) }
{
    let bytes = path.as_bytes();
    bytes.first() == Some(&b'/') && bytes.last() != Some(&b'/')
}

// This program's host.
fn host(alloc: Global, root: String) -> Result<Host, AllocError>
    ensures { IfOk result (λ host. host.root ≡ root) }
{
    Ok(Host {
        os: String::from_str(alloc, "linux")?,
        cpu: String::from_str(alloc, "x64")?,
        root,
    })
}
