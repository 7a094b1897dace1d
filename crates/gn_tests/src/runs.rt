// Runs over trees in memory. A table of runs is one text, in which a row is the files of a tree, the byte 28, and then the
// status and the text with which the run ends; the byte 30 ends a row. The files are each a path, the byte 31, the text of
// the file and the byte 29. A table of lines has a command line and the byte 28 before the files, and the number of build files
// that are loaded before the status.
ghost use Rattle.std.specs.Prelude.{IfOk, string_bytes};
ghost use Rattle.gn_top.specs.Hosts.{IsRoot};

use gn_outside::{Sink, Tree, TreeSink, TreeSource};
use gn_top::{Host, One, run_one};
use std::alloc::{AllocError, Global};
use std::thread::Threads;

/// The host of all runs.
pub(crate) fn host(alloc: Global) -> Result<Host, AllocError>
    ensures { IfOk result (λ host. IsRoot (string_bytes host.root)) }
{
    Ok(Host {
        os: String::from_str(alloc, "linux")?,
        cpu: String::from_str(alloc, "x64")?,
        root: String::from_str(alloc, "/src")?,
    })
}

/// The words of a command line.
pub(crate) fn words(alloc: Global, line: &str) -> Result<Vec<String>, AllocError> {
    let mut words = Vec::new(alloc);
    for word in line.split_whitespace() {
        words.push(String::from_str(alloc, word)?)?;
    }
    Ok(words)
}

// Puts a file of a row.
fn put(tree: &mut Tree, file: &str) -> Result<(), AllocError> {
    match file.split_once('\x1f') {
        Some((path, text)) => tree.put(path, text.as_bytes()),
        None => Ok(()),
    }
}

// The build file that defines the default toolchain, with a tool for each kind of target.
const TOOLCHAIN: &[u8] =
    b"toolchain(\"t\") {\n  tool(\"cc\") {\n    command = \"cc {{source}} {{output}}\"\n    outputs = [ \"{{source_out_dir}}/{{source_name_part}}.o\" ]\n  }\n  tool(\"cxx\") {\n    command = \"cxx {{source}} {{output}}\"\n    outputs = [ \"{{source_out_dir}}/{{source_name_part}}.o\" ]\n  }\n  tool(\"alink\") {\n    command = \"ar {{output}}\"\n    outputs = [ \"{{target_out_dir}}/{{target_output_name}}.a\" ]\n  }\n  tool(\"solink\") {\n    command = \"ld {{output}}\"\n    outputs = [ \"{{root_out_dir}}/{{target_output_name}}.so\" ]\n  }\n  tool(\"solink_module\") {\n    command = \"ld {{output}}\"\n    outputs = [ \"{{root_out_dir}}/{{target_output_name}}.so\" ]\n  }\n  tool(\"link\") {\n    command = \"ld {{output}}\"\n    outputs = [ \"{{root_out_dir}}/{{target_output_name}}\" ]\n  }\n  tool(\"stamp\") {\n    command = \"touch {{output}}\"\n  }\n  tool(\"copy\") {\n    command = \"cp {{source}} {{output}}\"\n  }\n}\n";

/// A tree with a dotfile, a build configuration that names its default toolchain and nothing else, and the build file that
/// defines this toolchain.
pub(crate) fn base_tree(alloc: Global) -> Result<Tree, AllocError> {
    let mut tree = Tree::new(alloc);
    tree.put("//.gn", b"buildconfig = \"//b.gn\"\n")?;
    tree.put("//b.gn", b"set_default_toolchain(\"//t:t\")\n")?;
    tree.put("//t/BUILD.gn", TOOLCHAIN)?;
    Ok(tree)
}

/// The tree of a row's files, over that tree.
pub(crate) fn tree_of(alloc: Global, files: &str) -> Result<Tree, AllocError> {
    let mut tree = base_tree(alloc)?;
    for file in files.split_terminator('\x1d') {
        put(&mut tree, file)?;
    }
    Ok(tree)
}

/// A run of a command line.
pub(crate) fn run<R: Threads + Sync, K: Sink>(
    rt: &R,
    alloc: Global,
    line: &str,
    source: &mut TreeSource,
    sink: &mut K,
) -> Result<One, AllocError> {
    let words = words(alloc, line)?;
    let host = host(alloc)?;
    Ok(run_one(rt, alloc, &words, &host, source, sink))
}

// Whether this status and this text are those at the end of a row: its first byte is the status as a digit.
fn ends_so(status: u8, said: &[u8], end: &[u8]) -> bool {
    match end.split_first() {
        Some((digit, text)) => *digit == b'0'.wrapping_add(status) && said == text,
        None => false,
    }
}

/// Whether this status and this text are those of a row.
pub(crate) fn is_end(status: u8, said: &[u8], end: &str) -> bool {
    ends_so(status, said, end.as_bytes())
}

/// Whether a run has ended as the row of a line has it: behind the number of build files that are loaded, as a digit, are the
/// status and the text.
pub(crate) fn is_line_end(one: &One, said: &[u8], end: &str) -> bool {
    match end.as_bytes().split_first() {
        Some((digit, rest)) => {
            u64::from(*digit) == one.units.wrapping_add(48) && ends_so(one.status, said, rest)
        }
        None => false,
    }
}

// Whether a command line over a tree ends so.
fn line_says<R: Threads + Sync>(
    rt: &R,
    alloc: Global,
    line: &str,
    files: &str,
    end: &str,
) -> Result<bool, AllocError> {
    let tree = tree_of(alloc, files)?;
    let mut source = TreeSource::new(alloc, tree, Vec::new(alloc));
    let mut sink = TreeSink::new(alloc, Vec::new(alloc));
    let one = run(rt, alloc, line, &mut source, &mut sink)?;
    Ok(is_line_end(&one, sink.said(), end))
}

/// Whether the row of a line holds.
pub(crate) fn line_holds<R: Threads + Sync>(
    rt: &R,
    alloc: Global,
    row: &str,
) -> Result<bool, AllocError> {
    let Some((line, rest)) = row.split_once('\x1c') else {
        return Ok(false);
    };
    match rest.split_once('\x1c') {
        Some((files, end)) => line_says(rt, alloc, line, files, end),
        None => Ok(false),
    }
}

/// Whether `ls out` over a tree ends so, says this text, and loads so many build files.
pub(crate) fn tree_loads<R: Threads + Sync>(
    rt: &R,
    alloc: Global,
    tree: Tree,
    units: u64,
    end: &str,
) -> Result<bool, AllocError> {
    let mut source = TreeSource::new(alloc, tree, Vec::new(alloc));
    let mut sink = TreeSink::new(alloc, Vec::new(alloc));
    let one = run(rt, alloc, "ls out", &mut source, &mut sink)?;
    Ok(one.units == units && is_end(one.status, sink.said(), end))
}

/// The same with two build files: that of the source root and that of the default toolchain.
pub(crate) fn tree_says<R: Threads + Sync>(
    rt: &R,
    alloc: Global,
    tree: Tree,
    end: &str,
) -> Result<bool, AllocError> {
    tree_loads(rt, alloc, tree, 2, end)
}

/// Whether `ls out` over this build file of the source root ends so and says this text.
pub(crate) fn file_says<R: Threads + Sync>(
    rt: &R,
    alloc: Global,
    file: &[u8],
    end: &str,
) -> Result<bool, AllocError> {
    let mut tree = base_tree(alloc)?;
    tree.put("//BUILD.gn", file)?;
    tree_says(rt, alloc, tree, end)
}

/// Whether `ls out` over the tree of a row ends as the row has it.
pub(crate) fn row_holds<R: Threads + Sync>(
    rt: &R,
    alloc: Global,
    row: &str,
) -> Result<bool, AllocError> {
    match row.split_once('\x1c') {
        Some((files, end)) => tree_says(rt, alloc, tree_of(alloc, files)?, end),
        None => Ok(false),
    }
}
