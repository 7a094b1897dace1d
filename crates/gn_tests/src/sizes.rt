// The greatest size of a file and of a string.

use crate::runs::{base_tree, file_says, tree_loads, tree_says};
use std::alloc::{AllocError, Global};
use std::test::Fail;
use std::thread::Threads;

// Whether a build file of so many spaces ends so.
fn spaces_say<R: Threads + Sync>(
    rt: &R,
    alloc: Global,
    size: usize,
    end: &str,
) -> Result<bool, AllocError> {
    let mut spaces = Vec::new(alloc);
    spaces.resize(size, b' ')?;
    file_says(rt, alloc, &spaces, end)
}

// Whether a file ends so in which a string of one byte is doubled 24 times, to the greatest length.
fn doubled_says<R: Threads + Sync>(
    rt: &R,
    alloc: Global,
    behind: &str,
    end: &str,
) -> Result<bool, AllocError> {
    let mut file = String::from_str(alloc, "s = \"a\"\n")?;
    for _ in 0..24 {
        file.push_str("s += s\n")?;
    }
    file.push_str(behind)?;
    file_says(rt, alloc, file.as_bytes(), end)
}

#[test]
fn a_string_grows_up_to_the_limit(rt: HostRuntime) -> Result<(), Fail> {
    let too_long = "1ERROR at //BUILD.gn:26:3: Value is too long.\n";
    assert!(rt; doubled_says(&rt, rt.alloc(), "print(s == \"\")\n", "0false\n")?);
    assert!(rt; doubled_says(&rt, rt.alloc(), "s += \"a\"\nprint(s == \"\")\n", too_long)?);
    Ok(())
}

// All parts of a string are evaluated before its length is judged.
#[test]
fn a_string_is_too_long_once_its_parts_are_evaluated(rt: HostRuntime) -> Result<(), Fail> {
    let too_long = "1ERROR at //BUILD.gn:26:7: Value is too long.\n";
    let undefined = "1ERROR at //BUILD.gn:26:12: Undefined identifier \"nope\".\n";
    assert!(rt; doubled_says(&rt, rt.alloc(), "print(\"$s$s\")\n", too_long)?);
    assert!(rt; doubled_says(&rt, rt.alloc(), "print(\"$s$s$nope\")\n", undefined)?);
    Ok(())
}

#[test]
fn a_file_of_the_limit_is_read_and_a_longer_one_is_too_big(rt: HostRuntime) -> Result<(), Fail> {
    let too_big = "1ERROR at //BUILD.gn:1:1: File \"//BUILD.gn\" is too big.\n";
    assert!(rt; spaces_say(&rt, rt.alloc(), 16_777_216, "0")?);
    assert!(rt; spaces_say(&rt, rt.alloc(), 16_777_217, too_big)?);
    Ok(())
}

// Whether `ls out` ends so, with so many build files loaded, over an empty build file and so many spaces at a path.
fn spaces_end<R: Threads + Sync>(
    rt: &R,
    alloc: Global,
    path: &str,
    size: usize,
    units: u64,
    end: &str,
) -> Result<bool, AllocError> {
    let mut spaces = Vec::new(alloc);
    spaces.resize(size, b' ')?;
    let mut tree = base_tree(alloc)?;
    tree.put("//BUILD.gn", b"")?;
    tree.put(path, &spaces)?;
    tree_loads(rt, alloc, tree, units, end)
}

// Whether a build file ends so beside which so many bytes stand at `//x`, each of them this one.
fn beside_says<R: Threads + Sync>(
    rt: &R,
    alloc: Global,
    byte: u8,
    size: usize,
    file: &str,
    end: &str,
) -> Result<bool, AllocError> {
    let mut bytes = Vec::new(alloc);
    bytes.resize(size, byte)?;
    let mut tree = base_tree(alloc)?;
    tree.put("//BUILD.gn", file.as_bytes())?;
    tree.put("//x", &bytes)?;
    tree_says(rt, alloc, tree, end)
}

#[test]
fn a_file_of_the_limit_can_be_asked_for_and_a_longer_one_is_too_big(
    rt: HostRuntime,
) -> Result<(), Fail> {
    let file = "print(read_file(\"x\", \"string\") == \"\")\n";
    let too_big = "1ERROR at //BUILD.gn:1:17: File \"//x\" is too big.\n";
    assert!(rt; beside_says(&rt, rt.alloc(), b'a', 16_777_216, file, "0false\n")?);
    assert!(rt; beside_says(&rt, rt.alloc(), b'a', 16_777_217, file, too_big)?);
    Ok(())
}

#[test]
fn a_file_has_as_many_lines_as_a_list_holds(rt: HostRuntime) -> Result<(), Fail> {
    let file = "x = read_file(\"x\", \"list lines\")\nprint(x == [])\n";
    let too_long = "1ERROR at //BUILD.gn:1:5: Value is too long.\n";
    assert!(rt; beside_says(&rt, rt.alloc(), b'\n', 1_048_576, file, "0false\n")?);
    assert!(rt; beside_says(&rt, rt.alloc(), b'\n', 1_048_577, file, too_long)?);
    Ok(())
}

#[test]
fn a_list_of_the_limit_is_written(rt: HostRuntime) -> Result<(), Fail> {
    let file = "x = read_file(\"x\", \"list lines\")\nwrite_file(\"//out/x\", x)\n";
    assert!(rt; beside_says(&rt, rt.alloc(), b'\n', 1_048_576, file, "0")?);
    Ok(())
}

#[test]
fn a_string_of_the_limit_is_written(rt: HostRuntime) -> Result<(), Fail> {
    assert!(rt; doubled_says(&rt, rt.alloc(), "write_file(\"//out/x\", s)\n", "0")?);
    assert!(rt; doubled_says(&rt, rt.alloc(), "write_file(\"//out/x\", [ s, s ])\n", "0")?);
    Ok(())
}

#[test]
fn a_dotfile_of_the_limit_is_read_and_a_longer_one_is_too_big(rt: HostRuntime) -> Result<(), Fail> {
    let empty = "1ERROR at //.gn:1:1: \"buildconfig\" is missing.\n";
    let too_big = "1ERROR at //.gn:1:1: File \"//.gn\" is too big.\n";
    assert!(rt; spaces_end(&rt, rt.alloc(), "//.gn", 16_777_216, 0, empty)?);
    assert!(rt; spaces_end(&rt, rt.alloc(), "//.gn", 16_777_217, 0, too_big)?);
    Ok(())
}

#[test]
fn build_arguments_of_the_limit_are_read_and_longer_ones_are_too_big(
    rt: HostRuntime,
) -> Result<(), Fail> {
    let too_big = "1ERROR at //out/args.gn:1:1: File \"//out/args.gn\" is too big.\n";
    assert!(rt; spaces_end(&rt, rt.alloc(), "//out/args.gn", 16_777_216, 2, "0")?);
    assert!(rt; spaces_end(&rt, rt.alloc(), "//out/args.gn", 16_777_217, 0, too_big)?);
    Ok(())
}

#[test]
fn a_build_configuration_of_the_limit_is_read_and_a_longer_one_is_too_big(
    rt: HostRuntime,
) -> Result<(), Fail> {
    let empty = "1ERROR at //b.gn:1:1: \"set_default_toolchain\" is missing.\n";
    let too_big = "1ERROR at //b.gn:1:1: File \"//b.gn\" is too big.\n";
    assert!(rt; spaces_end(&rt, rt.alloc(), "//b.gn", 16_777_216, 0, empty)?);
    assert!(rt; spaces_end(&rt, rt.alloc(), "//b.gn", 16_777_217, 0, too_big)?);
    Ok(())
}
