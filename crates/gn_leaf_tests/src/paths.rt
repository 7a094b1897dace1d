// The calls on paths, with values that the language's rules give.

use crate::rows::{bytes_of, calls, field, is_shown};
use gn_paths::{
    Path, PathError, PathFault, PathPart, Text, directory, gen_directory, is_system, obj_directory,
    part, path_meant, rebase, resolve,
};
use std::alloc::{AllocError, Global};

/// Calls, each with what it answers or why it doesn't. Where a path is an argument, it is what the text means at the root.
pub(crate) const CALLS: &str = calls! {
    resolve("//", "a/b/") => "//a/b/";
    resolve("//", "//.") => "//";
    resolve("//", "\u{E9}/b") => "//\u{E9}/b";
    resolve("//c", "/src//a/../x") => "/src//a/../x";
    resolve("//c/d", "./x//y") => "//c/d/x/y";
    resolve("//c/d/", "../x") => "//c/x";
    resolve("//c/d", "../../") => "//";
    resolve("//c", "//x/./y/../z/") => "//x/z/";
    resolve("/src//a", "x") => "/src//a/x";
    resolve("/src/", "..") => "/";
    resolve("//", "../x") => "AboveRoot";
    resolve("//", "//..") => "AboveRoot";
    resolve("//", "") => "BadPath";
    resolve("//", "../\n") => "BadPath";
    resolve("//", "a\0") => "BadPath";
    // Texts that aren't UTF-8: each character stands for the byte of its number.
    resolve_bytes("../\u{FF}") => "BadPath";
    resolve_bytes("a\u{C3}/b") => "BadPath";
    resolve_bytes("a\u{C3}") => "BadPath";
    resolve_bytes("\u{ED}\u{A0}\u{80}") => "BadPath";
    path_meant("//c/d", "../x") => "//c/x";
    path_meant("//", "..") => "AboveRoot";
    path_meant("//", "../\n") => "BadPath";
    // Where no directory is given, a path is shown as the system's.
    rebase("a/b/", "//c") => "../a/b/";
    rebase("//c", "//c") => ".";
    rebase("//c/", "//c") => "./";
    rebase("//.", "") => "/src";
    rebase("/src/a/x", "//c") => "../a/x";
    rebase("//", "//c") => "..";
    rebase("//a/b/", "") => "/src/a/b/";
    rebase("/x//y", "") => "/x//y";
    rebase("//a/x", "//a/b/c") => "../../x";
    rebase("/src//a/x", "//out") => "..//a/x";
    rebase("//ab", "//a") => "../ab";
    rebase("/src//", "//") => "./";
    rebase("/src//a", "//") => "./a";
    rebase("/u/x", "/u//") => "x";
    rebase("/src/x", "/src/out//") => "../x";
    rebase("//c", "//c/") => ".";
    rebase("/", "/") => "./";
    seen_from("//a.cc", "//out") => "../a.cc";
    seen_from("//out", "//out") => ".";
    seen_from("//out/", "//out") => "./";
    seen_from("//out/obj/x", "//out") => "obj/x";
    seen_from("//a/", "//out") => "../a/";
    seen_from("//", "//out") => "..";
    seen_from("/usr/x/", "//out") => "/usr/x/";
    directory("/") => "/";
    directory("/a") => "/";
    directory("/s//a") => "/s";
    directory("/s/a/") => "/s/a";
    directory("//a/b.gni") => "//a";
    directory("//b.gni") => "//";
    directory("//a/b/") => "//a/b";
    directory("//") => "//";
    to_directory("/src//") => "/src";
    to_directory("/") => "/";
    to_directory("//") => "//";
    to_directory("//a/") => "//a";
    is_below("//out/x", "//out") => true;
    is_below("//out/x/", "//out/") => true;
    is_below("//x", "//") => true;
    is_below("/x", "/") => true;
    is_below("//out", "//out") => false;
    is_below("//out/", "//out") => false;
    is_below("//output", "//out") => false;
    is_below("//", "//") => false;
    is_below("//x", "/") => false;
    is_below("/s//", "/s") => false;
    obj_directory("//out", "//a/b") => "//out/obj/a/b";
    obj_directory("//out", "//") => "//out/obj";
    obj_directory("//out", "/usr") => "//out/obj/usr";
    obj_directory("//out", "/") => "//out/obj";
    obj_directory("//out", "/s//a/../b/.") => "//out/obj/s/a/b";
    gen_directory("//out/t", "//a") => "//out/t/gen/a";
    gen_directory("//out", "//") => "//out/gen";
    is_system("/x") => true;
    is_system("//x") => false;
    is_system("x") => false;
    is_system("") => false;
    part("a/b.c.d", "File") => "b.c.d";
    part("dir/", "File") => "";
    part("//f", "File") => "f";
    part("a/b.c.d", "Name") => "b.c";
    part("x", "Name") => "x";
    part(".h", "Name") => "";
    part("a/b.c.d", "Extension") => "d";
    part("a.b/x", "Extension") => "";
    part("bar.txt", "Dir") => ".";
    part("a/b", "Dir") => "a";
    part("a/", "Dir") => "a";
    part("/a", "Dir") => "/.";
    part("//a", "Dir") => "//.";
};

// What a text means at the root.
fn at_root(alloc: Global, text: &[u8]) -> Result<Path, PathError> {
    let root = Path::root(alloc)?;
    resolve(alloc, &root, text)
}

fn name_of(error: &PathError) -> &'static str {
    match error {
        PathError::AboveRoot => "AboveRoot",
        PathError::BadPath => "BadPath",
        PathError::Memory => "Memory",
    }
}

fn is_answer(found: &Result<Path, PathError>, wanted: &str) -> bool {
    match found {
        Ok(path) => path.as_str() == wanted,
        Err(error) => name_of(error) == wanted,
    }
}

fn is_found(found: Result<Path, PathError>, row: &str) -> bool {
    let is_so = is_answer(&found, field(row, 1));
    drop(found);
    is_so
}

fn are_bytes_resolved(alloc: Global, row: &str) -> Result<bool, AllocError> {
    let bytes = bytes_of(alloc, field(row, 2))?;
    let found = at_root(alloc, &bytes);
    drop(bytes);
    Ok(is_found(found, row))
}

fn is_meaning(meant: &Result<Path, PathFault>, wanted: &str) -> bool {
    match meant {
        Ok(path) => path.as_str() == wanted,
        Err(PathFault::AboveRoot) => wanted == "AboveRoot",
        Err(PathFault::BadPath) => wanted == "BadPath",
    }
}

fn is_meant(alloc: Global, directory: &Path, row: &str) -> Result<bool, AllocError> {
    let meant = path_meant(alloc, directory, field(row, 3).as_bytes())?;
    let is_so = is_meaning(&meant, field(row, 1));
    drop(meant);
    Ok(is_so)
}

fn is_path(made: Result<Path, AllocError>, row: &str) -> Result<bool, AllocError> {
    let path = made?;
    let is_so = path.as_str() == field(row, 1);
    drop(path);
    Ok(is_so)
}

fn is_text(made: Result<Text, AllocError>, row: &str) -> Result<bool, AllocError> {
    let text = made?;
    let is_so = text.as_bytes() == field(row, 1).as_bytes();
    drop(text);
    Ok(is_so)
}

// How a path is shown from a directory that is a text itself, where one is given.
fn shown(alloc: Global, path: &Path, base: &str) -> Result<Text, PathError> {
    if base.is_empty() {
        return rebase(alloc, path, b"", b"/src");
    }
    let directory = at_root(alloc, base.as_bytes())?;
    let shown = rebase(alloc, path, directory.as_bytes(), b"/src");
    drop(directory);
    shown
}

fn is_rebased(alloc: Global, path: &Path, row: &str) -> bool {
    match shown(alloc, path, field(row, 3)) {
        Ok(text) => {
            let is_so = text.as_bytes() == field(row, 1).as_bytes();
            drop(text);
            is_so
        }
        Err(_) => false,
    }
}

// Whether a call on two paths answers what its row expects.
fn is_answered_of_two(
    alloc: Global,
    first: &Path,
    second: &Path,
    row: &str,
) -> Result<bool, AllocError> {
    match field(row, 0) {
        "seen_from" => is_text(first.seen_from(alloc, second), row),
        "is_below" => is_shown(alloc, first.is_below(second), field(row, 1)),
        "obj_directory" => is_path(obj_directory(alloc, first, second), row),
        "gen_directory" => is_path(gen_directory(alloc, first, second), row),
        _ => Ok(false),
    }
}

fn is_second_answered(alloc: Global, first: &Path, row: &str) -> Result<bool, AllocError> {
    match at_root(alloc, field(row, 3).as_bytes()) {
        Ok(second) => {
            let is_so = is_answered_of_two(alloc, first, &second, row);
            drop(second);
            is_so
        }
        Err(_) => Ok(false),
    }
}

// Whether a call whose first argument is a path answers what its row expects.
fn is_first_answered(alloc: Global, first: &Path, row: &str) -> Result<bool, AllocError> {
    match field(row, 0) {
        "resolve" => Ok(is_found(resolve(alloc, first, field(row, 3).as_bytes()), row)),
        "path_meant" => is_meant(alloc, first, row),
        "rebase" => Ok(is_rebased(alloc, first, row)),
        "directory" => is_path(directory(alloc, first), row),
        "to_directory" => is_path(first.to_directory(alloc), row),
        _ => is_second_answered(alloc, first, row),
    }
}

fn is_path_answered(alloc: Global, row: &str) -> Result<bool, AllocError> {
    match at_root(alloc, field(row, 2).as_bytes()) {
        Ok(first) => {
            let is_so = is_first_answered(alloc, &first, row);
            drop(first);
            is_so
        }
        Err(_) => Ok(false),
    }
}

fn part_named(name: &str) -> PathPart {
    match name {
        "File" => PathPart::File,
        "Name" => PathPart::Name,
        "Extension" => PathPart::Extension,
        _ => PathPart::Dir,
    }
}

fn is_of_system(alloc: Global, row: &str) -> Result<bool, AllocError> {
    is_shown(alloc, is_system(field(row, 2).as_bytes()), field(row, 1))
}

/// Whether a call answers what its row expects.
pub(crate) fn is_answered(alloc: Global, row: &str) -> Result<bool, AllocError> {
    match field(row, 0) {
        "resolve_bytes" => are_bytes_resolved(alloc, row),
        "is_system" => is_of_system(alloc, row),
        "part" => is_text(
            part(alloc, field(row, 2).as_bytes(), part_named(field(row, 3))),
            row,
        ),
        _ => is_path_answered(alloc, row),
    }
}
