// What `gen` puts and says. The expected files and texts stand in docs/OUTPUT.md.

use crate::runs::{is_end, run, tree_of};
use gn_outside::{Sink, SinkStop, TreeSink, TreeSource};
use std::alloc::{AllocError, Global};
use std::test::Fail;
use std::thread::Threads;

// A command line, the files of a tree, the files that are put, in their order, and behind them the status and the text. A file
// may stand in several pieces. In a row the status comes first, and then each file: its path, the byte 31, its bytes and the byte 29.
macro_rules! runs {
    ($($line:literal, $($path:literal: $($piece:literal)+,)* puts $($put:literal: $($block:literal)+,)* => $status:literal $text:literal;)+) => {
        concat!($($line, "\x1c", $($path, "\x1f", $($piece,)+ "\x1d",)* "\x1c", $status, $($put, "\x1f", $($block,)+ "\x1d",)* $text, "\x1e"),+)
    };
}

// The same over a toolchain that copies and stamps: of its file the lines are given that name targets.
macro_rules! stamped {
    ($($line:literal, $($path:literal: $($piece:literal)+,)* puts $($put:literal: $($block:literal)+,)* toolchain $targets:literal,
        $($later:literal: $($end:literal)+,)* => $status:literal $text:literal;)+) => {
        runs! { $($line,
            "//t/BUILD.gn":
                "toolchain(\"t\") {\n"
                "  tool(\"copy\") {\n    command = \"cp {{source}} {{output}}\"\n  }\n"
                "  tool(\"stamp\") {\n    command = \"touch {{output}}\"\n  }\n"
                "}\n",
            $($path: $($piece)+,)*
            puts
            $($put: $($block)+,)*
            "//out/toolchain.ninja":
                "rule copy\n  command = cp ${in} ${out}\n\n"
                "rule stamp\n  command = touch ${out}\n"
                $targets,
            $($later: $($end)+,)*
            => $status $text;
        )+ }
    };
}

const STAMPED: &str = stamped! {
    // A group alone.
    "gen out",
        "//BUILD.gn": "group(\"g\") {\n}\n",
        puts
        "//out/build.ninja":
            "ninja_required_version = 1.7.2\n\n"
            "subninja toolchain.ninja\n\n"
            "build $:g: phony obj/g.stamp\nbuild g: phony obj/g.stamp\n\n"
            "build all: phony obj/g.stamp\n\n"
            "default all\n",
        "//out/obj/g.ninja": "build obj/g.stamp: stamp\n",
        toolchain "\nsubninja obj/g.ninja\n",
        => 0 "Done. Made 1 targets from 2 files\n";
    // A group needs what it depends on, and only orders data. What is made by default is `//:default`.
    "gen out",
        "//BUILD.gn": "group(\"default\") {\n  public_deps = [ \"//b:c\" ]\n  deps = [ \":x\" ]\n  data_deps = [ \"//b:d\" ]\n}\ngroup(\"x\") {\n}\n",
        "//b/BUILD.gn": "group(\"c\") {\n}\ngroup(\"d\") {\n}\n",
        puts
        "//out/build.ninja":
            "ninja_required_version = 1.7.2\n\n"
            "subninja toolchain.ninja\n\n"
            "build $:default: phony obj/default.stamp\nbuild $:x: phony obj/x.stamp\nbuild b$:c: phony obj/b/c.stamp\nbuild b$:d: phony obj/b/d.stamp\nbuild c: phony obj/b/c.stamp\nbuild d: phony obj/b/d.stamp\nbuild default: phony obj/default.stamp\nbuild x: phony obj/x.stamp\n\n"
            "build all: phony obj/default.stamp obj/x.stamp obj/b/c.stamp obj/b/d.stamp\n\n"
            "default default\n",
        "//out/obj/b/c.ninja": "build obj/b/c.stamp: stamp\n",
        "//out/obj/b/d.ninja": "build obj/b/d.stamp: stamp\n",
        "//out/obj/default.ninja": "build obj/default.stamp: stamp obj/b/c.stamp obj/x.stamp || obj/b/d.stamp\n",
        "//out/obj/x.ninja": "build obj/x.stamp: stamp\n",
        toolchain "\nsubninja obj/default.ninja\nsubninja obj/x.ninja\nsubninja obj/b/c.ninja\nsubninja obj/b/d.ninja\n",
        => 0 "Done. Made 4 targets from 3 files\n";
    // A copy.
    "gen out",
        "//BUILD.gn":
            "copy(\"c\") {\n  sources = [ \"a.txt\", \"d/b.txt\" ]\n  outputs = [ \"$root_out_dir/copied/{{source_file_part}}\" ]\n  deps = [ \":g\" ]\n  data_deps = [ \":h\" ]\n}\n"
            "group(\"g\") {\n}\n"
            "group(\"h\") {\n}\n",
        puts
        "//out/build.ninja":
            "ninja_required_version = 1.7.2\n\n"
            "subninja toolchain.ninja\n\n"
            "build $:c: phony obj/c.stamp\nbuild $:g: phony obj/g.stamp\nbuild $:h: phony obj/h.stamp\nbuild c: phony obj/c.stamp\nbuild g: phony obj/g.stamp\nbuild h: phony obj/h.stamp\n\n"
            "build all: phony obj/c.stamp obj/g.stamp obj/h.stamp\n\n"
            "default all\n",
        "//out/obj/c.ninja":
            "build copied/a.txt: copy ../a.txt || obj/g.stamp\n\n"
            "build copied/b.txt: copy ../d/b.txt || obj/g.stamp\n\n"
            "build obj/c.stamp: stamp copied/a.txt copied/b.txt || obj/h.stamp\n",
        "//out/obj/g.ninja": "build obj/g.stamp: stamp\n",
        "//out/obj/h.ninja": "build obj/h.stamp: stamp\n",
        toolchain "\nsubninja obj/c.ninja\nsubninja obj/g.ninja\nsubninja obj/h.ninja\n",
        => 0 "Done. Made 3 targets from 2 files\n";
    // An action with a depfile and a response file.
    "gen out",
        "//BUILD.gn":
            "action(\"a\") {\n  script = \"//tools/a.py\"\n  inputs = [ \"in.txt\" ]\n  sources = [ \"s.txt\" ]\n  outputs = [ \"$target_gen_dir/a.h\", \"$root_out_dir/a.c\" ]\n  depfile = \"$target_gen_dir/a.d\"\n  args = [ \"-o\", \"two words\", rebase_path(\"//x\", root_build_dir), \"@{{response_file_name}}\" ]\n  response_file_contents = [ \"r\", \"a b\" ]\n  deps = [ \":g\" ]\n}\n"
            "group(\"g\") {\n}\n",
        puts
        "//out/build.ninja":
            "ninja_required_version = 1.7.2\n\n"
            "subninja toolchain.ninja\n\n"
            "build $:a: phony obj/a.stamp\nbuild $:g: phony obj/g.stamp\nbuild a: phony obj/a.stamp\nbuild g: phony obj/g.stamp\n\n"
            "build all: phony obj/a.stamp obj/g.stamp\n\n"
            "default all\n",
        "//out/obj/a.ninja":
            "rule _2f_2f_3aa_28_2f_2ft_3at_29\n  command = python3 ../tools/a.py ${args}\n  description = ACTION //:a\n  restat = 1\n\n"
            "build gen/a.h a.c: _2f_2f_3aa_28_2f_2ft_3at_29 | ../tools/a.py ../in.txt ../s.txt || obj/g.stamp\n  args = -o \"two words\" ../x @obj/a.stamp.rsp\n  depfile = gen/a.d\n  deps = gcc\n  rspfile = obj/a.stamp.rsp\n  rspfile_content = r \"a b\"\n\n"
            "build obj/a.stamp: stamp gen/a.h a.c\n",
        "//out/obj/g.ninja": "build obj/g.stamp: stamp\n",
        toolchain "\nsubninja obj/a.ninja\nsubninja obj/g.ninja\n",
        => 0 "Done. Made 2 targets from 2 files\n";
    // An action for each of two sources, by the interpreter that the dotfile names.
    "gen out",
        "//.gn": "buildconfig = \"//b.gn\"\nscript_executable = \"python3 -B\"\n",
        "//BUILD.gn": "group(\"g\") {\n  deps = [ \"//d:f\" ]\n}\n",
        "//d/BUILD.gn": "action_foreach(\"f\") {\n  script = \"f.py\"\n  sources = [ \"x.in\", \"sub/y.in\" ]\n  inputs = [ \"//common.txt\" ]\n  outputs = [ \"{{source_gen_dir}}/{{source_name_part}}.c\", \"$target_out_dir/{{source_file_part}}.h\" ]\n  depfile = \"$target_gen_dir/{{source_name_part}}.d\"\n  args = [ \"{{source}}\", \"--name={{source_name_part}}\", \"{{source_root_relative_dir}}\", \"{{source_target_relative}}\", \"{{source_dir}}\" ]\n}\n",
        puts
        "//out/build.ninja":
            "ninja_required_version = 1.7.2\n\n"
            "subninja toolchain.ninja\n\n"
            "build $:g: phony obj/g.stamp\nbuild d$:f: phony obj/d/f.stamp\nbuild f: phony obj/d/f.stamp\nbuild g: phony obj/g.stamp\n\n"
            "build all: phony obj/g.stamp obj/d/f.stamp\n\n"
            "default all\n",
        "//out/obj/d/f.ninja":
            "rule _2f_2fd_3af_28_2f_2ft_3at_29\n  command = python3 -B ../d/f.py ${args}\n  description = ACTION //d:f\n  restat = 1\n\n"
            "build gen/d/x.c obj/d/x.in.h: _2f_2fd_3af_28_2f_2ft_3at_29 ../d/x.in | ../d/f.py ../common.txt\n  args = ../d/x.in --name=x d x.in ../d\n  depfile = gen/d/x.d\n  deps = gcc\n\n"
            "build gen/d/sub/y.c obj/d/y.in.h: _2f_2fd_3af_28_2f_2ft_3at_29 ../d/sub/y.in | ../d/f.py ../common.txt\n  args = ../d/sub/y.in --name=y d/sub sub/y.in ../d/sub\n  depfile = gen/d/y.d\n  deps = gcc\n\n"
            "build obj/d/f.stamp: stamp gen/d/x.c obj/d/x.in.h gen/d/sub/y.c obj/d/y.in.h\n",
        "//out/obj/g.ninja": "build obj/g.stamp: stamp obj/d/f.stamp\n",
        toolchain "\nsubninja obj/g.ninja\nsubninja obj/d/f.ninja\n",
        => 0 "Done. Made 2 targets from 3 files\n";
    // Files of `write_file` stand among the others, behind one of their path; of the calls of one path the last counts.
    "gen out",
        "//BUILD.gn": "write_file(\"$root_out_dir/w.txt\", \"first\")\nwrite_file(\"$target_gen_dir/t\", \"no newline\")\nwrite_file(\"$root_out_dir/w.txt\", [ \"a\", \"b\" ])\nwrite_file(\"out/build.ninja\", \"own\")\nwrite_file(\"out/a/empty\", \"\")\ngroup(\"g\") {\n}\n",
        puts
        "//out/a/empty": "",
        "//out/build.ninja":
            "ninja_required_version = 1.7.2\n\n"
            "subninja toolchain.ninja\n\n"
            "build $:g: phony obj/g.stamp\nbuild g: phony obj/g.stamp\n\n"
            "build all: phony obj/g.stamp\n\n"
            "default all\n",
        "//out/build.ninja": "own",
        "//out/gen/t": "no newline",
        "//out/obj/g.ninja": "build obj/g.stamp: stamp\n",
        toolchain "\nsubninja obj/g.ninja\n",
        "//out/w.txt": "a\nb\n",
        => 0 "Done. Made 1 targets from 2 files\n";
    // The text of `--args` is put, and what is printed and warned of stands before the last line.
    "gen out --args=x=\"a\"nope=\"b\"",
        "//BUILD.gn": "declare_args() {\n  x = \"c\"\n}\nprint(x)\n",
        "//out/args.gn": "x = y\n",
        puts
        "//out/args.gn": "x=\"a\"nope=\"b\"\n",
        "//out/build.ninja":
            "ninja_required_version = 1.7.2\n\n"
            "subninja toolchain.ninja\n\n"
            "build all: phony\n\n"
            "default all\n",
        toolchain "",
        => 0 "a\nWARNING: The build argument \"nope\" has no effect.\nDone. Made 0 targets from 2 files\n";
    // Build arguments that are kept stay as they are. Each file is put anew, and one that no target has any more isn't put.
    "gen //out/",
        "//BUILD.gn": "declare_args() {\n  x = \"c\"\n}\nprint(x)\n",
        "//out/args.gn": "x = \"a\"\n",
        "//out/build.ninja": "old",
        "//out/obj/g.ninja": "build obj/g.stamp: stamp\n",
        puts
        "//out/build.ninja":
            "ninja_required_version = 1.7.2\n\n"
            "subninja toolchain.ninja\n\n"
            "build all: phony\n\n"
            "default all\n",
        toolchain "",
        => 0 "a\nDone. Made 0 targets from 2 files\n";
};

const FAULTS: &str = runs! {
    // A dependency that isn't defined. The text of `--args` isn't put either.
    "gen out --args=x=1",
        "//BUILD.gn": "declare_args() {\n  x = 2\n}\nprint(x)\nwrite_file(\"out/w.txt\", \"\")\ngroup(\"g\") {\n  deps = [ \":no\" ]\n}\n",
        puts => 1 "ERROR at //BUILD.gn:6:1: \"//:g\" needs \"//:no\", which is not defined.\n";
    // A file that two targets make, and one that a target makes twice.
    "gen out",
        "//BUILD.gn": "action(\"b\") {\n  script = \"s.py\"\n  outputs = [ \"out/x\" ]\n}\ncopy(\"a\") {\n  sources = [ \"a.txt\" ]\n  outputs = [ \"out/x\" ]\n}\n",
        puts => 1 "ERROR at //BUILD.gn:1:1: Output \"//out/x\" is made twice.\n";
    "gen out",
        "//BUILD.gn": "copy(\"c\") {\n  sources = [ \"a/x\", \"b/x\" ]\n  outputs = [ \"out/{{source_file_part}}\" ]\n}\n",
        puts => 1 "ERROR at //BUILD.gn:1:1: Output \"//out/x\" is made twice.\n";
    // A tool that the toolchain lacks.
    "gen out",
        "//BUILD.gn": "group(\"g\") {\n}\nexecutable(\"e\") {\n  sources = [ \"a.c\", \"b.s\" ]\n}\n",
        puts => 1 "ERROR at //BUILD.gn:3:1: \"//:e\" needs \"asm\", which is not defined.\n";
    // A file that two files write.
    "gen out",
        "//BUILD.gn": "group(\"g\") {\n  deps = [ \"//a\" ]\n}\nwrite_file(\"out/w.txt\", \"b\")\n",
        "//a/BUILD.gn": "group(\"a\") {\n}\nwrite_file(\"//out/w.txt\", \"a\")\n",
        puts => 1 "ERROR at //a/BUILD.gn:3:1: Output \"//out/w.txt\" is made twice.\n";
    // A file that a file writes and a target makes.
    "gen out",
        "//BUILD.gn": "write_file(\"out/x\", \"b\")\naction(\"a\") {\n  script = \"s.py\"\n  outputs = [ \"out/x\" ]\n}\n",
        puts => 1 "ERROR at //BUILD.gn:1:1: Output \"//out/x\" is made twice.\n";
    // An output that is above the source root by the text of its tool.
    "gen out",
        "//BUILD.gn": "group(\"g\") {\n}\nstatic_library(\"l\") {\n  output_name = \"../../../../l\"\n  deps = [ \":no\" ]\n}\n",
        puts => 1 "ERROR at //BUILD.gn:3:1: Path is above the source root.\n";
    // A pool that a tool names and nothing defines. Its toolchain stands before the target whose dependency is missing.
    "gen out",
        "//BUILD.gn": "group(\"g\") {\n  deps = [ \"//a:b(//a:u)\", \"//z:b(//z:u)\" ]\n}\n",
        "//a/BUILD.gn": "group(\"b\") {\n}\ntoolchain(\"u\") {\n  tool(\"stamp\") {\n    command = \"touch {{output}}\"\n    pool = \"//:none\"\n  }\n}\n",
        "//z/BUILD.gn": "group(\"b\") {\n  deps = [ \":no\" ]\n}\ntoolchain(\"u\") {\n  tool(\"stamp\") {\n    command = \"touch {{output}}\"\n  }\n}\n",
        puts => 1 "ERROR at //a/BUILD.gn:3:1: \"//a:u\" needs \"//:none\", which is not defined.\n";
    // Two toolchains of one name.
    "gen out",
        "//BUILD.gn": "group(\"g\") {\n  deps = [ \"//a:b(//a:u)\", \"//z:b(//z:u)\" ]\n}\n",
        "//a/BUILD.gn": "group(\"b\") {\n}\ntoolchain(\"u\") {\n  tool(\"stamp\") {\n    command = \"touch {{output}}\"\n  }\n}\n",
        "//z/BUILD.gn": "group(\"b\") {\n}\ntoolchain(\"u\") {\n  tool(\"stamp\") {\n    command = \"touch {{output}}\"\n  }\n}\n",
        puts => 1 "ERROR at //z/BUILD.gn:3:1: Output \"//out/u/toolchain.ninja\" is made twice.\n";
    // A name that begins with the prefix of its tool has it once.
    "gen out",
        "//t/BUILD.gn": "toolchain(\"t\") {\n  tool(\"alink\") {\n    command = \"ar {{output}}\"\n    outputs = [ \"{{target_output_name}}\" ]\n    output_prefix = \"lib\"\n  }\n}\n",
        "//BUILD.gn": "static_library(\"libx\") {\n}\nstatic_library(\"x\") {\n}\n",
        puts => 1 "ERROR at //BUILD.gn:3:1: Output \"//out/libx\" is made twice.\n";
    // The stamp of an action is made too.
    "gen out",
        "//BUILD.gn": "write_file(\"out/obj/a.stamp\", \"\")\naction(\"a\") {\n  script = \"s.py\"\n  outputs = [ \"out/x\" ]\n}\n",
        puts => 1 "ERROR at //BUILD.gn:1:1: Output \"//out/obj/a.stamp\" is made twice.\n";
    // A tool that is lacking is told before a cycle, and what a target has by itself before an output that is made twice.
    "gen out",
        "//BUILD.gn": "executable(\"e\") {\n  sources = [ \"a.s\" ]\n  deps = [ \":e\" ]\n}\n",
        puts => 1 "ERROR at //BUILD.gn:1:1: \"//:e\" needs \"asm\", which is not defined.\n";
    "gen out",
        "//BUILD.gn": "copy(\"c\") {\n  sources = [ \"a/x\", \"b/x\" ]\n  outputs = [ \"out/{{source_file_part}}\" ]\n  deps = [ \":no\" ]\n}\n",
        puts => 1 "ERROR at //BUILD.gn:1:1: \"//:c\" needs \"//:no\", which is not defined.\n";
    // Of two toolchains the first is told, and of its pools the first.
    "gen out",
        "//t/BUILD.gn":
            "toolchain(\"t\") {\n  tool(\"copy\") {\n    command = \"x\"\n    pool = \"//:b\"\n  }\n  tool(\"stamp\") {\n    command = \"x\"\n    pool = \"//:a\"\n  }\n}\n"
            "toolchain(\"u\") {\n  tool(\"stamp\") {\n    command = \"x\"\n    pool = \"//:a\"\n  }\n}\n",
        "//BUILD.gn": "group(\"g\") {\n  deps = [ \":k(//t:u)\" ]\n}\ngroup(\"k\") {\n}\n",
        puts => 1 "ERROR at //t/BUILD.gn:1:1: \"//t:t\" needs \"//:a\", which is not defined.\n";
    // A default directory that is no path is told, and a text that uses it isn't looked at.
    "gen out",
        "//t/BUILD.gn": "toolchain(\"t\") {\n  tool(\"link\") {\n    command = \"x\"\n    outputs = [ \"../..{{output_dir}}\" ]\n    default_output_dir = \"\"\n  }\n}\n",
        "//BUILD.gn": "executable(\"e\") {\n}\n",
        puts => 1 "ERROR at //BUILD.gn:1:1: Invalid path.\n";
    // Of two texts of a shared library the lesser fault is told.
    "gen out",
        "//t/BUILD.gn": "toolchain(\"t\") {\n  tool(\"solink\") {\n    command = \"x\"\n    outputs = [ \"a\" ]\n    link_output = \"\"\n    depend_output = \"../../a\"\n  }\n}\n",
        "//BUILD.gn": "shared_library(\"s\") {\n}\n",
        puts => 1 "ERROR at //BUILD.gn:1:1: Path is above the source root.\n";
};

// A sink that records what is put and said, in order: of a file its path, the byte 31, its bytes and the byte 29.
#[derive(Drop)]
struct RecordingSink {
    recorded: Vec<u8>,
}

impl Sink for RecordingSink {
    ghost use Rattle.std.specs.Prelude.{None};

    ghost state = { λ _. record { events = None; faults = 0 } };

    fn say(&mut self, bytes: &[u8]) -> Result<(), SinkStop> {
        self.recorded.extend_from_slice(bytes)?;
        Ok(())
    }

    fn put(&mut self, path: &str, bytes: &[u8]) -> Result<(), SinkStop> {
        self.recorded.extend_from_slice(path.as_bytes())?;
        self.recorded.push(0x1f)?;
        self.recorded.extend_from_slice(bytes)?;
        self.recorded.push(0x1d)?;
        Ok(())
    }
}

// Whether a run over this source ends so, and puts and says just this.
fn puts_and_says<R: Threads + Sync>(
    rt: &R,
    alloc: Global,
    line: &str,
    source: &mut TreeSource,
    end: &str,
) -> Result<bool, AllocError> {
    let mut sink = RecordingSink {
        recorded: Vec::new(alloc),
    };
    let one = run(rt, alloc, line, source, &mut sink)?;
    Ok(is_end(one.status, &sink.recorded, end))
}

// Whether a command line over a tree puts and says this, and a second time too.
fn twice_so<R: Threads + Sync>(
    rt: &R,
    alloc: Global,
    line: &str,
    files: &str,
    end: &str,
) -> Result<bool, AllocError> {
    let mut source = TreeSource::new(alloc, tree_of(alloc, files)?, Vec::new(alloc));
    if !puts_and_says(rt, alloc, line, &mut source, end)? {
        return Ok(false);
    }
    puts_and_says(rt, alloc, line, &mut source, end)
}

/// Whether a row holds.
pub(crate) fn holds<R: Threads + Sync>(
    rt: &R,
    alloc: Global,
    row: &str,
) -> Result<bool, AllocError> {
    let Some((line, rest)) = row.split_once('\x1c') else {
        return Ok(false);
    };
    match rest.split_once('\x1c') {
        Some((files, end)) => twice_so(rt, alloc, line, files, end),
        None => Ok(false),
    }
}

#[test]
fn gen_puts_stamps_copies_and_actions(rt: HostRuntime) -> Result<(), Fail> {
    for row in STAMPED.split_terminator('\x1e') {
        assert!(rt; holds(&rt, rt.alloc(), row)?, "at {row}");
    }
    Ok(())
}

#[test]
fn with_a_fault_gen_puts_nothing(rt: HostRuntime) -> Result<(), Fail> {
    for row in FAULTS.split_terminator('\x1e') {
        assert!(rt; holds(&rt, rt.alloc(), row)?, "at {row}");
    }
    Ok(())
}

// A tree of which three files are put.
const GROUP: &str = "//BUILD.gn\x1fgroup(\"g\") {\n}\n\x1d";

// The number of the write that fails, how many files are put then, and the end.
const FAILED_WRITES: [(u64, usize, &str); 5] = [
    (1, 0, "4"),
    (2, 1, "4"),
    (3, 2, "4"),
    (4, 3, "4"),
    (5, 3, "0Done. Made 1 targets from 2 files\n"),
];

// Whether so many files were put.
fn has_put(sink: &TreeSink, files: usize) -> bool {
    sink.file(files).is_none() && (files == 0 || sink.file(files.wrapping_sub(1)).is_some())
}

// Whether a run stops so at a write that fails.
fn stops_so<R: Threads + Sync>(
    rt: &R,
    alloc: Global,
    row: &(u64, usize, &str),
) -> Result<bool, AllocError> {
    let mut source = TreeSource::new(alloc, tree_of(alloc, GROUP)?, Vec::new(alloc));
    let mut sink = TreeSink::new(alloc, [row.0].to_vec(alloc)?);
    let one = run(rt, alloc, "gen out", &mut source, &mut sink)?;
    Ok(is_end(one.status, sink.said(), row.2) && has_put(&sink, row.1))
}

// The text is said behind the last file, and where a write fails there is nothing but the files before it.
#[test]
fn files_come_before_the_text(rt: HostRuntime) -> Result<(), Fail> {
    for row in &FAILED_WRITES {
        assert!(rt; stops_so(&rt, rt.alloc(), row)?, "{}", row.0);
    }
    Ok(())
}
