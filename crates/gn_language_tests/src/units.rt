// Executions over a library that has one file.

ghost use Rattle.std.specs.Prelude.{None, IfSome};
ghost use Rattle.gn_unit.specs.Ends.{IsRead, IsExecuted, WhereTree};

use gn_eval::{Found, Imported, LibStop, Library};
use gn_faults::{Code, Fault};
use gn_items::{Claim, Key, Outcome, Question, When};
use gn_paths::{Path, Place, Text, resolve};
use gn_unit::{Base, EvalStop, Parsed, Unit, evaluate, evaluate_again};
use std::alloc::Global;
use std::test::Fail;

/// What there is at each path.
#[derive(Clone, Copy)]
pub(crate) enum File<'a> {
    /// A file of these bytes.
    Bytes(&'a [u8]),
    /// No file.
    Absent,
    /// A file that is too big.
    TooBig,
    /// Nothing is known yet.
    Unread,
    /// A build file of these bytes, and of other files nothing is known yet.
    Alone(&'a [u8]),
    // Its bytes, for which there is no memory.
    Unkept,
}

// What there is at a path.
fn at<'a>(file: File<'a>, path: &Path) -> File<'a> {
    match file {
        File::Alone(bytes) => {
            if path.as_text().as_bytes().ends_with(b"/BUILD.gn") {
                File::Bytes(bytes)
            } else {
                File::Unread
            }
        }
        _ => file,
    }
}

/// A library that tells nothing of which something is claimed.
#[derive(Drop)]
pub(crate) struct OneFile<'a> {
    /// What there is at each path.
    pub(crate) file: File<'a>,
    /// How often the library has stopped.
    pub(crate) stops: u64,
}

impl Library for OneFile<'_> {
    ghost use Rattle.std.specs.Prelude.{[], None};
    ghost use Rattle.gn_runs.specs.Runs.{content_of};

    ghost state = { λ s. record {
      told = None;
      need = record { question = content_of []; place = record { file = []; line = 1; column = 1 } };
      stops = s.stops;
      references = [];
    } };

    fn import(&mut self, _: Global, _: &Path, _: &Place) -> Result<Imported, LibStop> {
        Err(LibStop::Memory)
    }

    fn bytes(&mut self, alloc: Global, path: &Path, _: &Place) -> Result<Found, LibStop> {
        match at(self.file, path) {
            File::Bytes(bytes) if bytes.len() <= 16_777_216 => {
                match Text::from_bytes(alloc, bytes) {
                    Ok(bytes) => Ok(Found::Bytes(bytes)),
                    Err(_) => Err(LibStop::Memory),
                }
            }
            File::Absent => Ok(Found::Absent),
            File::Unread => match self.stops.checked_add(1) {
                Some(stops) => {
                    self.stops = stops;
                    Err(LibStop::Stopped)
                }
                None => Err(LibStop::Memory),
            },
            File::Unkept => Err(LibStop::Memory),
            _ => Ok(Found::TooBig),
        }
    }
}

/// What an execution has ended with.
pub(crate) type Done = Result<(Claim, Unit), (Claim, EvalStop)>;

// The execution of a build file.
fn load(alloc: Global, directory: &[u8], file: File<'_>) -> Result<Done, Fail> {
    let root = Path::root(alloc)?;
    let directory = resolve(alloc, &root, directory)?;
    let key = Key::Load(directory, Text::new(alloc));
    let base = Base::plain(alloc)?;
    let mut library = OneFile { file, stops: 0 };
    Ok(evaluate(alloc, Claim::issue(key, 0, 0), &base, &mut library))
}

// The execution of a file that is imported.
fn import(alloc: Global, path: &[u8], file: File<'_>) -> Result<Done, Fail> {
    let root = Path::root(alloc)?;
    let path = resolve(alloc, &root, path)?;
    let key = Key::Import(When::Usual, Text::new(alloc), path);
    let base = Base::plain(alloc)?;
    let mut library = OneFile { file, stops: 0 };
    Ok(evaluate(alloc, Claim::issue(key, 0, 0), &base, &mut library))
}

// The execution of the build configuration.
fn set_up(alloc: Global, file: File<'_>) -> Result<Done, Fail> {
    let key = Key::Setup(Text::new(alloc));
    let base = Base::plain(alloc)?;
    let mut library = OneFile { file, stops: 0 };
    Ok(evaluate(alloc, Claim::issue(key, 0, 0), &base, &mut library))
}

// What is expected of an execution.
#[derive(Clone, Copy)]
enum Expected<'a> {
    // So many lines of a build file.
    Built(usize),
    // So many lines of a build configuration.
    Configured(usize),
    // So many lines of a file that is imported.
    Imported(usize),
    // A fault with this code in this file, in this line.
    Wrong(Code, &'a [u8], u32),
    // The library has stopped.
    Stopped,
    // Want of memory.
    Memory,
}

// Whether a fault has this code in this file, in this line.
fn is_fault(fault: &Fault, code: Code, file: &[u8], line: u32) -> bool {
    match &fault.place {
        Some(place) => fault.code == code && place.file.as_bytes() == file && place.line == line,
        None => false,
    }
}

// Whether just the content of this file was asked for.
fn is_own(asked: &[Question], file: &[u8]) -> bool {
    match asked {
        [Question::Content(path)] => path.as_text().as_bytes() == file,
        _ => false,
    }
}

// Whether so many lines are left, and one question was asked.
fn has_lines(outcome: &Outcome, lines: usize) -> bool {
    outcome.prints().len() == lines && outcome.asked().len() == 1
}

// Whether an execution has ended so.
fn is_so(done: &Done, expected: Expected<'_>) -> bool {
    match (done, expected) {
        (Ok((_, Unit::Load(outcome))), Expected::Built(lines)) => has_lines(outcome, lines),
        (Ok((_, Unit::Setup(_, outcome))), Expected::Configured(lines)) => has_lines(
            outcome, lines,
        ),
        (Ok((_, Unit::Import(_, outcome))), Expected::Imported(lines)) => has_lines(outcome, lines),
        (Ok((_, Unit::Wrong(fault, asked))), Expected::Wrong(code, file, line)) => {
            is_fault(fault, code, file, line) && is_own(asked.as_slice(), file)
        }
        (Err((_, EvalStop::Stopped(asked))), Expected::Stopped) => asked.is_empty(),
        (Err((_, EvalStop::Memory)), Expected::Memory) => true,
        _ => false,
    }
}

// Whether a build file ends so.
fn loads(
    alloc: Global,
    directory: &[u8],
    file: File<'_>,
    expected: Expected<'_>,
) -> Result<bool, Fail> {
    let done = load(alloc, directory, file)?;
    Ok(is_so(&done, expected))
}

// Whether a file that is imported ends so.
fn imports(alloc: Global, file: File<'_>, expected: Expected<'_>) -> Result<bool, Fail> {
    let done = import(alloc, b"//a/b.gni", file)?;
    Ok(is_so(&done, expected))
}

// Whether a build configuration ends so.
fn sets_up(alloc: Global, file: File<'_>, expected: Expected<'_>) -> Result<bool, Fail> {
    let done = set_up(alloc, file)?;
    Ok(is_so(&done, expected))
}

#[test]
fn files_are_executed_by_their_keys(rt: HostRuntime) -> Result<(), Fail> {
    let alloc = rt.alloc();
    let lines = File::Bytes(b"print(\"a\")\n");
    assert!(rt; loads(alloc, b"//", lines, Expected::Built(1))?);
    assert!(rt; imports(alloc, lines, Expected::Imported(1))?);
    let named = File::Bytes(b"set_default_toolchain(\":t\")\nprint(\"a\")\n");
    assert!(rt; sets_up(alloc, named, Expected::Configured(1))?);
    let unnamed = Expected::Wrong(Code::Missing, b"//", 1);
    assert!(rt; sets_up(alloc, lines, unnamed)?);
    Ok(())
}

// A name that nothing reads is a fault of a build file, and none of a file that is imported.
#[test]
fn what_nothing_reads_is_a_fault_of_a_build_file(rt: HostRuntime) -> Result<(), Fail> {
    let alloc = rt.alloc();
    let name = File::Bytes(b"x = 1\n");
    let unread = Expected::Wrong(Code::NoEffect, b"//a/BUILD.gn", 1);
    assert!(rt; loads(alloc, b"//a", name, unread)?);
    assert!(rt; imports(alloc, name, Expected::Imported(0))?);
    Ok(())
}

#[test]
fn files_that_cannot_run_are_wrong(rt: HostRuntime) -> Result<(), Fail> {
    let alloc = rt.alloc();
    let absent = Expected::Wrong(Code::NoFile, b"//a/BUILD.gn", 1);
    assert!(rt; loads(alloc, b"//a", File::Absent, absent)?);
    let large = Expected::Wrong(Code::FileTooBig, b"//a/BUILD.gn", 1);
    assert!(rt; loads(alloc, b"//a", File::TooBig, large)?);
    let bad = Expected::Wrong(Code::Unexpected, b"//a/b.gni", 2);
    assert!(rt; imports(alloc, File::Bytes(b"\nx = = 1\n"), bad)?);
    assert!(rt; imports(alloc, File::Unread, Expected::Stopped)?);
    assert!(rt; imports(alloc, File::Unkept, Expected::Memory)?);
    Ok(())
}

// The tree of a file with which its execution is to begin again.
fn tree_of(stop: EvalStop) -> Option<Parsed>
    ensures { IfSome result (λ tree. (base : _) (key : _) → WhereTree stop (IsRead base key None) → IsRead base key None tree) }
{
    match stop {
        EvalStop::Again(tree, _) => Some(tree),
        _ => None,
    }
}

// Whether the execution of a build file that begins again with its tree leaves so many lines, over a library that has this file.
fn builds_again(
    alloc: Global,
    key: &Key,
    base: &Base,
    tree: Parsed,
    file: File<'_>,
    lines: usize,
) -> bool
    requires executed { IsExecuted key.now }
    requires read { IsRead base.now key.now None tree }
{
    let mut library = OneFile { file, stops: 0 };
    match evaluate_again(alloc, key, base, tree, &mut library) {
        Ok(Unit::Load(outcome)) => outcome.prints().len() == lines,
        _ => false,
    }
}

// Whether the execution of a build file of these bytes, alone, stops, and leaves so many lines once it begins again over a library that
// has this file.
fn begins_again(alloc: Global, bytes: &[u8], file: File<'_>, lines: usize) -> Result<bool, Fail> {
    let root = Path::root(alloc)?;
    let key = Key::Load(resolve(alloc, &root, b"//a")?, Text::new(alloc));
    let base = Base::plain(alloc)?;
    let mut library = OneFile {
        file: File::Alone(bytes),
        stops: 0,
    };
    match evaluate(alloc, Claim::issue(key, 0, 0), &base, &mut library) {
        Ok(_) => Ok(false),
        Err(end) => {
            let claim = end.0;
            let stop = end.1;
            match tree_of(stop) {
                None => Ok(false),
                Some(tree) => Ok(builds_again(alloc, &claim.key, &base, tree, file, lines)),
            }
        }
    }
}

// What the library has of the build file when its execution begins again is no build file, and isn't read.
#[test]
fn a_file_is_parsed_once(rt: HostRuntime) -> Result<(), Fail> {
    let alloc = rt.alloc();
    let inner = b"if (true) {\n  print(read_file(\"b\", \"string\"))\n}\n";
    assert!(rt; begins_again(alloc, inner, File::Bytes(b"= ="), 1)?);
    Ok(())
}
