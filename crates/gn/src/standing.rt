// What stands at the paths of files that were announced. Several threads look at the next of them together.

use std::alloc::{AllocError, Global};
use std::collections::VecDeque;
use std::io::Read;
use std::rt::Files;
use std::{fs, io};

// How many files are looked at together.
const FILES_TOGETHER: usize = 1024;

/// How many of them a thread takes at once.
pub const FILES_AT_ONCE: usize = 4;

// How long a file may be that is held until it is compared.
const LONGEST: usize = 262_144;

/// What stands at a path where a file is going to be put.
#[derive(Drop)]
pub enum Standing {
    /// Nothing that could be the file.
    Other,
    /// A file of these bytes.
    Bytes(Vec<u8>),
    /// It isn't known.
    Unknown,
}

/// A file that was announced.
#[derive(Drop)]
pub struct File {
    /// Its path.
    path: String,
    /// How many bytes it is going to have.
    length: usize,
}

/// What looks at what stands at the paths of the first of some files, so many of them.
#[derive(Drop)]
pub struct Look {
    /// Gives it in the order of the files.
    pub at: Box<dyn Fn(&VecDeque<File>, usize) -> Result<Vec<Standing>, AllocError>>,

    ghost callable: { IsAlwaysCallable at },
}

/// Files that were announced and aren't put yet, and what stands at the paths of the first of them.
#[derive(Drop)]
pub struct Announced {
    look: Look,
    files: VecDeque<File>,
    standing: VecDeque<Standing>,
    // Whether a file was written since it was looked.
    has_written: bool,
}

impl Announced {
    /// No files. It takes no memory.
    pub fn new(alloc: Global, look: Look) -> Announced {
        Announced {
            look,
            files: VecDeque::new(alloc),
            standing: VecDeque::new(alloc),
            has_written: false,
        }
    }

    /// Puts a file behind the others. Where memory is wanted for it, it isn't one of them.
    pub fn push(&mut self, alloc: Global, path: &str, length: usize) {
        if let Ok(path) = String::from_str(alloc, path) {
            let _ = self.files.push_back(File { path, length });
        }
    }

    /// Takes out the first of the files, if it is that of a path, with what stands there.
    pub fn take(&mut self, path: &str) -> Standing {
        match self.files.front() {
            Some(first) if first.path.as_str() == path => {}
            _ => return Standing::Unknown,
        }
        if self.standing.is_empty() {
            let _ = self.look_on();
        }
        self.files.pop_front();
        match self.standing.pop_front() {
            None => Standing::Unknown,
            // The path may be another name of a file that was written since.
            Some(Standing::Bytes(_)) if self.has_written => Standing::Unknown,
            Some(standing) => standing,
        }
    }

    /// A file was written, or may have been.
    pub fn note_write(&mut self) {
        self.has_written = true;
    }

    // Looks at the next files.
    fn look_on(&mut self) -> Result<(), AllocError> {
        self.has_written = false;
        for standing in self.next_standing()? {
            self.standing.push_back(standing)?;
        }
        Ok(())
    }

    // What stands at the paths of the next files.
    fn next_standing(&self) -> Result<Vec<Standing>, AllocError> {
        let look = &self.look;
        let at = &look.at;
        at(&self.files, self.files.len().min(FILES_TOGETHER))
    }
}

/// What stands at the path of one of some files.
pub fn standing_at<R: Files + AllocGlobal>(
    rt: &R,
    files: &VecDeque<File>,
    place: usize,
) -> Standing {
    match files.get(place) {
        Some(file) => standing_of(rt, file),
        None => Standing::Unknown,
    }
}

// What stands at the path of a file.
fn standing_of<R: Files + AllocGlobal>(rt: &R, file: &File) -> Standing {
    let name = file_name(file.path.as_str());
    if !is_of_length(rt, name, file.length) {
        return Standing::Other;
    }
    if file.length > LONGEST {
        return Standing::Unknown;
    }
    match read_held(rt, name, file.length) {
        Ok(bytes) => Standing::Bytes(bytes),
        Err(_) => Standing::Other,
    }
}

/// The name below the current folder, or the system's path.
pub fn file_name(path: &str) -> &str {
    path.strip_prefix("//").unwrap_or(path)
}

/// Whether a file holds just these bytes. A link, a folder and a named pipe don't, and aren't opened; neither does what can't be read.
pub fn holds<R: Files + AllocGlobal>(rt: &R, name: &str, bytes: &[u8]) -> bool {
    is_of_length(rt, name, bytes.len())
        && match read_held(rt, name, bytes.len()) {
            Ok(held) => held.as_slice() == bytes,
            Err(_) => false,
        }
}

// Whether there is a file of so many bytes.
fn is_of_length<R: Files>(rt: &R, name: &str, length: usize) -> bool {
    match fs::symlink_metadata(rt, name) {
        Ok(metadata) => metadata.is_file() && metadata.len() == length as u64,
        Err(_) => false,
    }
}

// The first bytes of a file, so many of them.
fn read_held<R: Files + AllocGlobal>(rt: &R, name: &str, length: usize) -> io::Result<Vec<u8>> {
    let mut file = fs::open(rt, name)?;
    let mut held = Vec::new(rt.alloc());
    held.resize(length, 0)?;
    file.read_exact(held.as_mut_slice())?;
    Ok(held)
}
