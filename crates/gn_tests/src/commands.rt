// What command lines say, and what is read for them. The expected texts stand in docs/OUTPUT.md.

use crate::runs::{is_line_end, run, tree_of};
use gn_outside::{TreeSink, TreeSource};
use std::alloc::{AllocError, Global};
use std::test::Fail;
use std::thread::Threads;

// A command line, the build file of the source root, the status, the text, and how many build files are loaded.
macro_rules! runs {
    ($($line:literal, $($file:literal)? => $status:literal $text:literal, $units:literal;)+) => {
        concat!($($line, "\x1c", $("//BUILD.gn\x1f", $file, "\x1d",)? "\x1c", $units, $status, $text, "\x1e"),+)
    };
}

const RUNS: &str = runs! {
    "ls out", "group(\"b\") {\n}\ngroup(\"a\") {\n}\n" => 0 "//:a\n//:b\n", 2;
    "ls _A9", "" => 0 "", 2;
    "ls out", => 1 "ERROR at //BUILD.gn:1:1: No such file \"//BUILD.gn\".\n", 2;
    "", "group(\"b\") {\n}\ngroup(\"a\") {\n}\n" => 2 "usage: gn gen|ls|desc|refs|path|check|args|sample ...\n", 0;
    "frob", "group(\"b\") {\n}\ngroup(\"a\") {\n}\n" => 2 "usage: gn gen|ls|desc|refs|path|check|args|sample ...\n", 0;
    "gen", "group(\"b\") {\n}\ngroup(\"a\") {\n}\n" => 2 "usage: gn gen|ls|desc|refs|path|check|args|sample ...\n", 0;
    "gen out --threads=0", "group(\"b\") {\n}\ngroup(\"a\") {\n}\n"
        => 2 "usage: gn gen|ls|desc|refs|path|check|args|sample ...\n", 0;
    "ls", => 2 "usage: gn gen|ls|desc|refs|path|check|args|sample ...\n", 0;
    "ls a-b", "group(\"b\") {\n}\ngroup(\"a\") {\n}\n" => 0 "//:a\n//:b\n", 2;
    "ls //out/x/", "group(\"a\") {\n}\n" => 0 "//:a\n", 2;
    "ls out/../y", "group(\"a\") {\n}\n" => 0 "//:a\n", 2;
    "ls .", "" => 2 "usage: gn gen|ls|desc|refs|path|check|args|sample ...\n", 0;
    "ls //", "" => 2 "usage: gn gen|ls|desc|refs|path|check|args|sample ...\n", 0;
    "ls /x", "" => 2 "usage: gn gen|ls|desc|refs|path|check|args|sample ...\n", 0;
    "ls ../x", "" => 2 "usage: gn gen|ls|desc|refs|path|check|args|sample ...\n", 0;
    "ls out --threads=1", "group(\"b\") {\n}\ngroup(\"a\") {\n}\n" => 0 "//:a\n//:b\n", 2;
    "ls --threads=64 out --threads=9", "" => 0 "", 2;
    "ls --threads=0 --threads=2 out", "" => 2 "usage: gn gen|ls|desc|refs|path|check|args|sample ...\n", 0;
    "ls out --threads=65", "" => 2 "usage: gn gen|ls|desc|refs|path|check|args|sample ...\n", 0;
    "ls out --threads=08", "" => 2 "usage: gn gen|ls|desc|refs|path|check|args|sample ...\n", 0;
    "ls out --threads", "" => 2 "usage: gn gen|ls|desc|refs|path|check|args|sample ...\n", 0;
    "ls out --all", "" => 2 "usage: gn gen|ls|desc|refs|path|check|args|sample ...\n", 0;
    "ls out --", "" => 2 "usage: gn gen|ls|desc|refs|path|check|args|sample ...\n", 0;
    "--threads=1 ls out", "" => 2 "usage: gn gen|ls|desc|refs|path|check|args|sample ...\n", 0;
    "ls out a b", "" => 2 "usage: gn gen|ls|desc|refs|path|check|args|sample ...\n", 0;
    "ls out :b", "print(1)\ngroup(\"b\") {\n}\ngroup(\"a\") {\n}\n" => 0 "1\n//:b\n", 2;
    "ls out //*", "group(\"b\") {\n}\ngroup(\"a\") {\n}\n" => 0 "//:a\n//:b\n", 2;
    "ls out //x:*", "group(\"b\") {\n}\n" => 0 "", 2;
    "ls out //a*", "group(\"b\") {\n}\n" => 1 "ERROR: Invalid pattern.\n", 2;
    "ls out //..", "" => 1 "ERROR: Path is above the source root.\n", 2;
    "ls out a", "" => 1 "ERROR: Invalid pattern.\n", 2;
    "ls out //a*", "x = 1\n" => 1 "ERROR at //BUILD.gn:1:3: Assignment had no effect: \"x\".\n", 2;
};

// Whether so many build files have been read, none or two, behind three other files, and none was put.
fn has_read(source: &TreeSource, sink: &TreeSink, files: u64) -> bool {
    source.read_path(4).is_some() == (files == 2)
        && source.read_path(5).is_none()
        && sink.file(0).is_none()
}

// Whether a command line over a tree ends so, and reads the build files that it loads.
fn says<R: Threads + Sync>(
    rt: &R,
    alloc: Global,
    line: &str,
    files: &str,
    end: &str,
) -> Result<bool, AllocError> {
    let tree = tree_of(alloc, files)?;
    let mut source = TreeSource::new(alloc, tree, Vec::new(alloc));
    let mut sink = TreeSink::new(alloc, Vec::new(alloc));
    let one = run(rt, alloc, line, &mut source, &mut sink)?;
    Ok(is_line_end(&one, sink.said(), end) && has_read(&source, &sink, one.units))
}

// Whether a row holds.
fn holds<R: Threads + Sync>(rt: &R, alloc: Global, row: &str) -> Result<bool, AllocError> {
    let Some((line, rest)) = row.split_once('\x1c') else {
        return Ok(false);
    };
    match rest.split_once('\x1c') {
        Some((files, end)) => says(rt, alloc, line, files, end),
        None => Ok(false),
    }
}

#[test]
fn a_run_says_the_meaning_of_its_words(rt: HostRuntime) -> Result<(), Fail> {
    for row in RUNS.split_terminator('\x1e') {
        assert!(rt; holds(&rt, rt.alloc(), row)?, "at {row}");
    }
    Ok(())
}
