// A sink over standard output and the files below the current folder. It tells nothing of their content.
ghost use Rattle.std.specs.Prelude.{None};

use crate::standing::{Announced, Look, Standing, file_name, holds};
use gn_outside::{Sink, SinkStop};
use std::io::{ErrorKind, Write};
use std::rt::Files;
use std::{fs, io};

// The name under which a file is written, in the folder in which it will stand.
const UNFINISHED: &str = ".gn-new";

/// Standard output, and the files below the current folder.
#[derive(Drop)]
pub struct FileSink<R: Files + Print + Drop + AllocGlobal> {
    rt: R,
    faults: u64,
    announced: Announced,
}

impl<R: Files + Print + Drop + AllocGlobal> FileSink<R> {
    /// A sink that hasn't failed yet, and that looks ahead so at what stands where files are going to be put.
    pub fn new(rt: R, look: Look) -> Self {
        let announced = Announced::new(rt.alloc(), look);
        FileSink {
            rt,
            faults: 0,
            announced,
        }
    }
}

impl<R: Files + Print + Drop + AllocGlobal> Sink for FileSink<R> {
    ghost state = { λ s. record { events = None; faults = s.faults } };

    fn say(&mut self, bytes: &[u8]) -> Result<(), SinkStop> {
        if self.faults == u64::MAX {
            return Err(SinkStop::Memory);
        }
        let mut out = io::writer(&self.rt);
        if out.write_all(bytes).is_ok() && out.flush().is_ok() {
            return Ok(());
        }
        self.faults += 1;
        Err(SinkStop::Failed)
    }

    fn put(&mut self, path: &str, bytes: &[u8]) -> Result<(), SinkStop> {
        if self.faults == u64::MAX {
            return Err(SinkStop::Memory);
        }
        let name = file_name(path);
        let standing = self.announced.take(path);
        if is_there(&self.rt, &standing, name, bytes) {
            return Ok(());
        }
        self.announced.note_write();
        match write_file(&self.rt, name, bytes) {
            Ok(()) => Ok(()),
            Err(error) if error.kind() == ErrorKind::OutOfMemory => Err(SinkStop::Memory),
            Err(_) => {
                self.faults += 1;
                Err(SinkStop::Failed)
            }
        }
    }

    fn announce(&mut self, path: &str, bytes: &[u8]) {
        self.announced.push(self.rt.alloc(), path, bytes.len());
    }
}

// Whether a file stands at a path already, by what is known of it. So the time at which it was changed stays with what it holds.
fn is_there<R: Files + AllocGlobal>(rt: &R, standing: &Standing, name: &str, bytes: &[u8]) -> bool {
    match standing {
        Standing::Other => false,
        Standing::Bytes(held) => held.as_slice() == bytes,
        Standing::Unknown => holds(rt, name, bytes),
    }
}

// Writes a file whole, and makes the folders above it where they are missing.
fn write_file<R: Files + AllocGlobal>(rt: &R, name: &str, bytes: &[u8]) -> io::Result<()> {
    let Some((folder, _)) = name.rsplit_once('/') else {
        return write_beside(rt, UNFINISHED, name, bytes);
    };
    make_folder(rt, folder)?;
    let beside = format!(in rt.alloc(); "{folder}/{UNFINISHED}")?;
    write_beside(rt, beside.as_str(), name, bytes)
}

// Makes a folder and those above it, where they are missing.
fn make_folder<R: Files>(rt: &R, folder: &str) -> io::Result<()> {
    match fs::create_dir(rt, folder) {
        Ok(()) => Ok(()),
        Err(error) if error.kind() == ErrorKind::AlreadyExists => Ok(()),
        Err(_) => fs::create_dir_all(rt, folder),
    }
}

// Writes a file whole under the first name, and only then gives it the second one, under which so never stands a part of it.
// A failure leaves no file under the first name, where that can be removed.
fn write_beside<R: Files>(rt: &R, beside: &str, name: &str, bytes: &[u8]) -> io::Result<()> {
    let written = write_and_rename(rt, beside, name, bytes);
    if written.is_err() {
        let _ = fs::remove_file(rt, beside);
    }
    written
}

fn write_and_rename<R: Files>(rt: &R, beside: &str, name: &str, bytes: &[u8]) -> io::Result<()> {
    fs::write(rt, beside, bytes)?;
    fs::rename(rt, beside, name)
}
