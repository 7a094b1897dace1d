// Calls that depend on where they stand: in the build file of `//a`, where the build directory is `//out`, the source root
// `/src`, the toolchain `//t:u` and the default one `//t:t`.

use crate::units::{Done, File, OneFile};
use gn_environment::Context;
use gn_executions::HostNames;
use gn_faults::{Code, Stage};
use gn_items::{Claim, Key, Outcome, Written};
use gn_paths::{Path, PathError, Text, resolve};
use gn_unit::{Base, Unit, evaluate};
use gn_values::Bindings;
use std::alloc::{AllocError, Global};
use std::sync::Arc;
use std::test::Fail;

// A file, and what it leaves: the lines that it prints, and then the path, the line and the bytes of each file that it writes.
macro_rules! left {
    ($($file:literal => $text:literal;)+) => {
        concat!($($file, "\x1c", $text, "\x1e"),+)
    };
}

const LEFT: &str = left! {
    "print(rebase_path(\"//.\"), rebase_path(\"//\"), rebase_path(\"x\"), rebase_path(\"/src/b/x\", \"//c\"), rebase_path(\"/u/x\", \"//\"))"
        => "/src /src/ /src/a/x ../b/x ../u/x\n";
    "print(host_os, host_cpu, \"$current_os$current_cpu$target_os$target_cpu\", current_toolchain, default_toolchain, root_build_dir)"
        => "linux x64  //t:u //t:t //out\n";
    "print(root_out_dir, root_gen_dir, target_out_dir, target_gen_dir)"
        => "//out/u //out/u/gen //out/u/obj/a //out/u/gen/a\n";
    "host_os = \"x\"\nprint(host_os)\ntemplate(\"t\") {\n  print(host_cpu)\n}\nt(\"n\") {\n}" => "x\nx64\n";
    "print(get_path_info(\"x/y.c\", \"out_dir\"), get_path_info(\"//y.c\", \"gen_dir\"))"
        => "//out/u/obj/a/x //out/u/gen\n";
    "print(get_label_info(\":b\", \"label_with_toolchain\"), get_label_info(\":b\", \"toolchain\"), get_label_info(\"//c(//t:t)\", \"target_out_dir\"))"
        => "//a:b(//t:u) //t:u //out/obj/c\n";
    "print(get_label_info(\":b\", \"root_out_dir\"), get_label_info(\":b\", \"root_gen_dir\"), get_label_info(\":b\", \"target_gen_dir\"))"
        => "//out/u //out/u/gen //out/u/gen/a\n";
    "print(label_matches(\":b\", [ \"//a:b(//t:u)\" ]), label_matches(\":b\", [ \"//a:b(//t:t)\" ]))"
        => "true false\n";
    "print(process_file_template([ \"x.c\" ], \"{{source_out_dir}}/{{source_name_part}}.o\"))"
        => "[\"//out/u/obj/a/x.o\"]\n";
    "write_file(\"//out/w.txt\", [ \"a\", \"b\" ])\nprint(\"c\")\n  write_file(\"../out/w.txt\", \"d\")"
        => "c\n//out/w.txt:1: a\nb\n//out/w.txt:3: d";
};

// Files that write where nothing may be written.
const MISPLACED: [&[u8]; 4] = [
    b"write_file(\"x\", \"\")",
    b"write_file(\"//out\", \"\")",
    b"write_file(\"//out/\", \"\")",
    b"write_file(\"/src/out/x\", \"\")",
];

fn context(alloc: Global) -> Result<Context, PathError> {
    let root = Path::root(alloc)?;
    let build_directory = resolve(alloc, &root, b"//out")?;
    let toolchain = Text::from_bytes(alloc, b"//t:u")?;
    let fault_toolchain = Text::from_bytes(alloc, b"//t:u")?;
    let default_toolchain = Text::from_bytes(alloc, b"//t:t")?;
    let source_root = Text::from_bytes(alloc, b"/src")?;
    Ok(Context {
        stage: Stage::Loading,
        toolchain,
        fault_toolchain,
        default_toolchain,
        build_directory,
        source_root,
        overrides: Bindings::new(alloc),
    })
}

fn shared(alloc: Global, context: Context) -> Result<Arc<Context>, AllocError> {
    Ok(Arc::new(alloc, context)?)
}

fn host(alloc: Global) -> Result<HostNames, AllocError> {
    let os = Text::from_bytes(alloc, b"linux")?;
    let cpu = Text::from_bytes(alloc, b"x64")?;
    Ok(HostNames { os, cpu })
}

fn base(alloc: Global) -> Result<Base, PathError> {
    let context = shared(alloc, context(alloc)?)?;
    let root = Path::root(alloc)?;
    let configuration = resolve(alloc, &root, b"//c.gn")?;
    Ok(Base::of_configuration(alloc, context, host(alloc)?, configuration, None)?)
}

// The execution of a build file.
fn executed(alloc: Global, file: &[u8]) -> Result<Done, PathError> {
    let root = Path::root(alloc)?;
    let directory = resolve(alloc, &root, b"//a")?;
    let toolchain = Text::from_bytes(alloc, b"//t:u")?;
    let key = Key::Load(directory, toolchain);
    let base = base(alloc)?;
    let mut library = OneFile {
        file: File::Bytes(file),
        stops: 0,
    };
    Ok(evaluate(alloc, Claim::issue(key, 0, 0), &base, &mut library))
}

fn show_written(alloc: Global, shown: &mut Text, file: &Written) -> Result<(), AllocError> {
    let line = format!(in alloc; ":{}: ", file.place.line)?;
    shown.append(file.path.as_bytes())?;
    shown.append(line.as_bytes())?;
    shown.append(file.bytes.as_bytes())
}

fn shown(alloc: Global, outcome: &Outcome) -> Result<Text, AllocError> {
    let mut shown = Text::new(alloc);
    for line in outcome.prints() {
        shown.append(line.as_bytes())?;
    }
    for file in outcome.written() {
        show_written(alloc, &mut shown, file)?;
    }
    Ok(shown)
}

fn shows(alloc: Global, done: &Done, text: &str) -> Result<bool, AllocError> {
    match done {
        Ok((_, Unit::Load(outcome))) => {
            let shown = shown(alloc, outcome)?;
            Ok(shown.as_bytes() == text.as_bytes())
        }
        _ => Ok(false),
    }
}

// Whether the file of a row leaves what the row says.
fn leaves(alloc: Global, row: &str) -> Result<bool, PathError> {
    let Some((file, text)) = row.split_once('\x1c') else {
        return Ok(false);
    };
    let done = executed(alloc, file.as_bytes())?;
    let shows = shows(alloc, &done, text);
    drop(done);
    Ok(shows?)
}

#[test]
fn calls_see_where_they_stand(rt: HostRuntime) -> Result<(), Fail> {
    for row in LEFT.split_terminator('\x1e') {
        assert!(rt; leaves(rt.alloc(), row)?, "at {row}");
    }
    Ok(())
}

fn is_bad_path(done: &Done) -> bool {
    match done {
        Ok((_, Unit::Wrong(fault, _))) => fault.code == Code::BadPath,
        _ => false,
    }
}

// Whether the path of a file that is written is wrong.
fn is_misplaced(alloc: Global, file: &[u8]) -> Result<bool, PathError> {
    let done = executed(alloc, file)?;
    let is_bad = is_bad_path(&done);
    drop(done);
    Ok(is_bad)
}

#[test]
fn files_are_written_below_the_build_directory(rt: HostRuntime) -> Result<(), Fail> {
    for row in 0..MISPLACED.len() {
        assert!(rt; is_misplaced(rt.alloc(), MISPLACED[row])?, "at row {row}");
    }
    Ok(())
}
