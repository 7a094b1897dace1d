// Reads and writes that fail.

use crate::runs::{is_end, run, tree_of};
use gn_outside::{Sink, SinkStop, TreeSink, TreeSource};
use std::alloc::{AllocError, Global};
use std::test::Fail;
use std::thread::Threads;

const GROUPS: &str = "//BUILD.gn\x1fgroup(\"b\") {\n}\ngroup(\"a\") {\n}\n\x1d";

const IMPORTS: &str =
    "//BUILD.gn\x1fimport(\"//z.gni\")\nimport(\"//d.gni\")\n\x1d//d.gni\x1f\x1d//z.gni\x1f\x1d";

const NOTHING: &str = "//BUILD.gn\x1f\x1d";

// How many files are read over the imports.
const READS: u64 = 7;

// A command line over a tree, the number of the read that fails or 0, and the end where the sink says half of a piece and fails.
const HALVES: [(&str, &str, u64, &str); 4] = [
    ("ls out", GROUPS, 0, "4//:a\n"),
    ("ls out", GROUPS, 1, "4gn: cannot "),
    ("frob", GROUPS, 0, "4usage: gn gen|ls|desc|refs|"),
    ("ls out", NOTHING, 0, "0"),
];

// A sink that says the first half of a piece and then fails.
#[derive(Drop)]
struct HalfSink {
    said: Vec<u8>,
    faults: u64,
}

impl Sink for HalfSink {
    ghost use Rattle.std.specs.Prelude.{None};

    ghost state = { λ s. record { events = None; faults = s.faults } };

    fn say(&mut self, bytes: &[u8]) -> Result<(), SinkStop> {
        if self.faults == u64::MAX {
            return Err(SinkStop::Memory);
        }
        self.said.extend_from_slice(&bytes[..bytes.len() / 2])?;
        self.faults += 1;
        Err(SinkStop::Failed)
    }

    fn put(&mut self, _path: &str, _bytes: &[u8]) -> Result<(), SinkStop> {
        Err(SinkStop::Memory)
    }
}

fn source(alloc: Global, tree: &str, failing: &[u64]) -> Result<TreeSource, AllocError> {
    Ok(TreeSource::new(alloc, tree_of(alloc, tree)?, failing.to_vec(alloc)?))
}

// Whether a run says that the read of this number has failed, at which its source fails, and whether that was its last read.
fn stops_there<R: Threads + Sync>(rt: &R, alloc: Global, number: u64) -> Result<bool, AllocError> {
    let mut source = source(alloc, IMPORTS, &[number])?;
    let mut sink = TreeSink::new(alloc, Vec::new(alloc));
    let one = run(rt, alloc, "ls out", &mut source, &mut sink)?;
    let end = format!(in alloc; "3gn: cannot read {}\n", last_path(&source, number))?;
    Ok(is_end(one.status, sink.said(), &end))
}

// The path of the read of this number where it is the last one, and no path else.
fn last_path(source: &TreeSource, number: u64) -> &str {
    let Ok(count) = usize::try_from(number) else {
        return "";
    };
    if source.read_path(count).is_some() {
        return "";
    }
    source.read_path(count.saturating_sub(1)).unwrap_or("")
}

// Whether a run whose first write fails has said nothing.
fn says_nothing<R: Threads + Sync>(rt: &R, alloc: Global) -> Result<bool, AllocError> {
    let mut source = source(alloc, GROUPS, &[])?;
    let mut sink = TreeSink::new(alloc, [1].to_vec(alloc)?);
    let one = run(rt, alloc, "ls out", &mut source, &mut sink)?;
    Ok(is_end(one.status, sink.said(), "4"))
}

// Whether a run ends so whose sink says half of a piece.
fn half_ends_so<R: Threads + Sync>(
    rt: &R,
    alloc: Global,
    row: &(&str, &str, u64, &str),
) -> Result<bool, AllocError> {
    let mut source = source(alloc, row.1, &[row.2])?;
    let mut sink = HalfSink {
        said: Vec::new(alloc),
        faults: 0,
    };
    let one = run(rt, alloc, row.0, &mut source, &mut sink)?;
    Ok(is_end(one.status, &sink.said, row.3))
}

#[test]
fn a_failed_read_is_the_last_one(rt: HostRuntime) -> Result<(), Fail> {
    for number in 1..READS + 1 {
        assert!(rt; stops_there(&rt, rt.alloc(), number)?, "{number}");
    }
    Ok(())
}

#[test]
fn a_failed_write_says_a_first_part_or_nothing(rt: HostRuntime) -> Result<(), Fail> {
    assert!(rt; says_nothing(&rt, rt.alloc())?);
    for row in &HALVES {
        assert!(rt; half_ends_so(&rt, rt.alloc(), row)?, "{}", row.3);
    }
    Ok(())
}
