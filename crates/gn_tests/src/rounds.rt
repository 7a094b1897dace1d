// Runs over a tree of 120 build files that are found at once, so that they are read and executed ahead of the seat that loads.

use crate::runs::{base_tree, is_end, run};
use gn_outside::{Tree, TreeSink, TreeSource};
use std::alloc::{AllocError, Global};
use std::test::Fail;
use std::thread::Threads;

// Puts the build file of a directory, which needs an import and one more build file, and prints this.
fn put_needing(alloc: Global, tree: &mut Tree, n: u32, printed: &str) -> Result<(), AllocError> {
    let path = format!(in alloc; "//d{n}/BUILD.gn")?;
    let text = format!(in alloc;
        "import(\"//i.gni\")\nprint(v, {printed})\ngroup(\"d{n}\") {{\n  deps = [ \"//e\" ]\n}}\n"
    )?;
    tree.put(&path, text.as_bytes())
}

// The build file of the source root, whose target depends on one of each directory.
fn root_file(alloc: Global) -> Result<String, AllocError> {
    let mut file = String::from_str(alloc, "group(\"a\") {\n  deps = [\n")?;
    for n in 100..220 {
        let line = format!(in alloc; "    \"//d{n}\",\n")?;
        file.push_str(&line)?;
    }
    file.push_str("  ]\n}\n")?;
    Ok(file)
}

// The tree, in which the build files of every tenth directory behind the first so many print this.
fn wide_tree(alloc: Global, sound: u32, printed: &str) -> Result<Tree, AllocError> {
    let mut tree = base_tree(alloc)?;
    let root = root_file(alloc)?;
    tree.put("//BUILD.gn", root.as_bytes())?;
    tree.put("//i.gni", b"v = 1\n")?;
    tree.put("//e/BUILD.gn", b"group(\"e\") {\n}\n")?;
    for n in 100..220 {
        let text = if n >= sound && n % 10 == 0 {
            printed
        } else {
            "v"
        };
        put_needing(alloc, &mut tree, n, text)?;
    }
    Ok(tree)
}

// What `ls out` says of the tree: what each build file prints, and all targets.
fn wide_text(alloc: Global) -> Result<String, AllocError> {
    let mut text = String::new(alloc);
    for _ in 100..220 {
        text.push_str("1 1\n")?;
    }
    text.push_str("//:a\n")?;
    for n in 100..220 {
        let line = format!(in alloc; "//d{n}:d{n}\n")?;
        text.push_str(&line)?;
    }
    text.push_str("//e:e\n")?;
    Ok(text)
}

// Whether the first so many paths that a source has read have this one not among them, and the next is it.
fn is_read_behind(source: &TreeSource, path: &str, count: usize) -> bool {
    for n in 0..count {
        if source.read_path(n) == Some(path) {
            return false;
        }
    }
    source.read_path(count) == Some(path)
}

// Whether `ls out` over the tree ends so and loads 123 build files, and the import is read behind the 120 that need it, those of the
// source root and of the toolchain and the three files of the first stage.
fn wide_says<R: Threads + Sync>(
    rt: &R,
    alloc: Global,
    tree: Tree,
    end: &str,
) -> Result<bool, AllocError> {
    let mut source = TreeSource::new(alloc, tree, Vec::new(alloc));
    let mut sink = TreeSink::new(alloc, Vec::new(alloc));
    let one = run(rt, alloc, "ls out", &mut source, &mut sink)?;
    Ok(
        one.units == 123
            && is_end(one.status, sink.said(), end)
            && is_read_behind(&source, "//i.gni", 125),
    )
}

// Whether the tree without a fault says all its lines and labels.
fn wide_is_listed<R: Threads + Sync>(rt: &R, alloc: Global) -> Result<bool, AllocError> {
    let mut end = String::from_str(alloc, "0")?;
    let text = wide_text(alloc)?;
    end.push_str(&text)?;
    let tree = wide_tree(alloc, 220, "v")?;
    wide_says(rt, alloc, tree, &end)
}

// Whether the tree says this where the build files of every tenth directory from the fourth tenth on print something that isn't defined.
fn wide_fails<R: Threads + Sync>(rt: &R, alloc: Global, end: &str) -> Result<bool, AllocError> {
    let tree = wide_tree(alloc, 131, "nope")?;
    wide_says(rt, alloc, tree, end)
}

#[test]
fn build_files_that_are_found_at_once_are_read_ahead(rt: HostRuntime) -> Result<(), Fail> {
    assert!(rt; wide_is_listed(&rt, rt.alloc())?);
    Ok(())
}

#[test]
fn the_least_fault_of_build_files_that_are_executed_ahead_is_told(
    rt: HostRuntime,
) -> Result<(), Fail> {
    let undefined = "1ERROR at //d140/BUILD.gn:2:10: Undefined identifier \"nope\".\n";
    assert!(rt; wide_fails(&rt, rt.alloc(), undefined)?);
    Ok(())
}
