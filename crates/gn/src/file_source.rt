// A source over the files below the current folder. It tells nothing of their content.
ghost use Rattle.std.specs.Prelude.{◌≢◌, ◌+◌, ◌<◌, ◌≤◌, None, [], IfOk, OnOk, length, vec_len};
ghost use Rattle.gn_value_model.specs.Limits.{max_bytes};
ghost use Rattle.gn.specs.Ends.{IsWithin};

use gn_outside::{MAX_BYTES, ReadStop, Source};
use std::alloc::{AllocError, Global};
use std::io::{ErrorKind, Read};
use std::os::unix::fs::FileTypeExt;
use std::rt::Files;
use std::{fs, io};

// So many reads of a file may give nothing new.
const IDLE_LIMIT: u32 = MAX_BYTES as u32 + 1;

// More reads than a file of the longest size and idle reads up to their limit can take.
const READ_LIMIT: u32 = 33_554_440;

// For how many bytes there is room at once behind those that a file is told to have.
const CHUNK: u64 = 16_384;

/// The files below the current folder.
#[derive(Drop)]
pub struct FileSource<R: Files + Drop> {
    rt: R,
    faults: u64,
}

// How reading a file ended.
enum FileEnd {
    Absent,
    Whole(Vec<u8>),
    TooBig,
    Failed,
    Memory,
}

impl<R: Files + Drop> FileSource<R> {
    /// A source that hasn't failed yet.
    pub fn new(rt: R) -> Self {
        FileSource { rt, faults: 0 }
    }
}

impl<R: Files + Drop> Source for FileSource<R> {
    ghost state = { λ s. record { tree = None; reads = None; faults = s.faults } };

    fn read(&mut self, alloc: Global, path: &str) -> Result<Option<Vec<u8>>, ReadStop> {
        match read_named(&self.rt, alloc, file_name(path)) {
            FileEnd::Absent => Ok(None),
            FileEnd::Whole(bytes) => Ok(Some(bytes)),
            FileEnd::TooBig => Err(ReadStop::TooBig(MAX_BYTES as u64 + 1)),
            FileEnd::Memory => Err(ReadStop::Memory),
            FileEnd::Failed if self.faults == u64::MAX => Err(ReadStop::Memory),
            FileEnd::Failed => {
                self.faults += 1;
                Err(ReadStop::Failed)
            }
        }
    }
}

// The name below the current folder, or the system's path. The source root is the current folder itself: it has a name too,
// since to open an empty one would look like absence.
fn file_name(path: &str) -> &str
    ensures { result.now ≢ [] }
{
    let name = path.strip_prefix("//").unwrap_or(path);
    if name.is_empty() { "." } else { name }
}

// What stands at a name. A named pipe isn't opened, since that would wait for somebody to write into it.
fn read_named<R: Files>(rt: &R, alloc: Global, name: &str) -> FileEnd
    requires { name.now ≢ [] }
    ensures { IsWithin result }
{
    let length = match fs::metadata(rt, name) {
        Ok(metadata) if metadata.file_type().is_fifo() => return FileEnd::Failed,
        Ok(metadata) => metadata.len(),
        Err(error) if is_absence(error.kind()) => return FileEnd::Absent,
        Err(_) => 0,
    };
    match fs::open(rt, name) {
        Ok(mut file) => read_file(alloc, &mut file, length),
        Err(error) if is_absence(error.kind()) => FileEnd::Absent,
        Err(_) => FileEnd::Failed,
    }
}

// There is no file at the path, or the path goes through something that is no folder.
fn is_absence(kind: ErrorKind) -> bool {
    matches!(kind, ErrorKind::NotFound | ErrorKind::NotADirectory)
}

// All the bytes of a reader, up to the limit. Where it is told to have so many, and a read gives the last of them and had room for
// more, there are no more.
fn read_file<F: Read>(alloc: Global, file: &mut F, length: u64) -> FileEnd
    ensures { IsWithin result }
{
    let mut bytes = Vec::new(alloc);
    let mut filled = 0;
    let mut idle = 0;
    for _ in 0..READ_LIMIT {
        if make_room(&mut bytes, filled, length).is_err() {
            return FileEnd::Memory;
        }
        match read_behind(file, bytes.as_mut_slice(), filled) {
            Ok(0) => return whole(bytes, filled),
            Ok(count) => {
                filled += count;
                if filled > MAX_BYTES {
                    return FileEnd::TooBig;
                }
                if filled as u64 == length && filled < bytes.len() {
                    return whole(bytes, filled);
                }
            }
            Err(error) if error.kind() == ErrorKind::Interrupted && idle < IDLE_LIMIT => idle += 1,
            Err(_) => return FileEnd::Failed,
        }
    }
    FileEnd::Failed
}

// The first bytes, so many of them, as what a file holds.
fn whole(bytes: Vec<u8>, filled: usize) -> FileEnd
    requires { filled ≤ max_bytes }
    ensures { IsWithin result }
{
    let mut bytes = bytes;
    bytes.truncate(filled);
    FileEnd::Whole(bytes)
}

// Makes room behind the bytes that are filled, if there is none: at first for all bytes that a file is told to have and one more.
fn make_room(bytes: &mut Vec<u8>, filled: usize, length: u64) -> Result<(), AllocError>
    requires within { filled ≤ vec_len bytes.old }
    requires limit { filled ≤ max_bytes }
    ensures { OnOk result (filled < vec_len bytes.new) }
{
    if filled < bytes.len() {
        return Ok(());
    }
    let more = if filled == 0 { length } else { CHUNK };
    let end = (filled as u64 + more.min(MAX_BYTES as u64)).min(MAX_BYTES as u64) as usize + 1;
    bytes.resize(end, 0)
}

// One read into what stands behind the bytes that are filled.
fn read_behind<F: Read>(file: &mut F, bytes: &mut [u8], filled: usize) -> io::Result<usize>
    requires { filled ≤ length bytes.old }
    ensures { IfOk result (λ count. filled + count ≤ length bytes.new) }
{
    file.read(&mut bytes[filled..])
}
