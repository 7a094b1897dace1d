// Definitions of items: each kind on its happy path, its demands, and the order of faults.

ghost use Rattle.std.specs.Prelude.{◌≡◌, option_map};
ghost use Rattle.gn_values.specs.Operators.{value_at};
ghost use Rattle.gn_values.specs.View.{val_of};

use crate::rows::{before, field, is_shown, quoted, value};
use crate::standing::at_root;
use gn_define::{Block, DefineError, Field, Fields, ItemFault, Where, define};
use gn_labels::Label;
use gn_paths::{Path, PathError, Text};
use gn_rows::{ItemKind, rows_of};
use gn_substs::Subst;
use gn_values::{Entries, Value};
use std::alloc::{AllocError, Global};
use std::test::Fail;

// A table of items with their blocks, each with what it defines: a variable that has a text as one of its items, or the code
// of a fault, with the text that the fault shows, if any.
macro_rules! items {
    ($($kind:ident($name:literal) { $($variable:ident = $value:expr;)* } => $outcome:expr;)+) => {
        concat!($(stringify!($kind), "\x1f", $name, "\x1f", $(stringify!($variable), " = ", stringify!($value), "\x1d",)* "\x1f", stringify!($outcome), "\x1f\x1e"),+)
    };
}

const ITEMS: &str = items! {
    group("g") { deps = [":b"]; } => deps.has("//:b");
    group("g") { deps = 1; } => WrongType("deps");
    group("a:b") { deps = 1; } => BadLabel;
    group("g") { deps = ["", "a␊"]; } => WrongType("deps");
    group("g") { deps = [""]; sources = 1; } => BadLabel;
    group("g") { deps = [":b"]; sources = 1; } => WrongType("sources");
    group("g") { outputs = ["x"]; } => BadPath;
    executable("e") { script = ""; } => BadPath;
    group("g") { testonly = 1; } => WrongType("testonly");
    group("g") { visibility = "*"; } => visibility.has("*");
    group("g") { visibility = ["a"]; } => BadPattern;
    group("g") { libs = ["z"]; } => libs.has("z");
    group("g") { libs = ["a/b"]; } => libs.has("//a/b");
    group("g") { libs = ["../b"]; } => AboveRoot;
    group("g") { args = ["{{x}}"]; } => args.has("{{x}}");
    group("g") { depfile = "{{x}}"; } => UnknownSubstitution;
    group("g") { friend = 1; } => friend.has("");
    action("a") { script = "s.py"; } => Missing("outputs");
    action("a") { script = ""; outputs = ["//out/x"]; } => Missing("script");
    action("a") { script = "s.py"; outputs = ["//out/x"]; } => outputs.has("//out/x");
    action("a") { script = "s.py"; outputs = ["//out"]; } => BadPath;
    action("a") { script = "s.py"; outputs = ["//out/x"]; depfile = ""; } => BadPath;
    action("a") { args = ["{{source}}"]; } => UnknownSubstitution;
    action_foreach("a") { script = "s.py"; outputs = ["//out/x"]; } => Missing("sources");
    action_foreach("a") { sources = ["a"]; script = "s.py"; outputs = ["//out/{{source_name_part}}"]; } => sources.has("//a");
    action_foreach("a") { sources = ["a"]; script = "s.py"; outputs = ["//out/x"]; response_file_contents = []; } => Excluded("response_file_contents");
    copy("c") { sources = ["a", "b"]; outputs = ["{{source_gen_dir}}/x"]; } => sources.has("//b");
    copy("c") { sources = ["//out/a", "b"]; outputs = ["{{source_dir}}/x"]; } => BadPath;
    copy("c") { sources = ["a"]; outputs = ["//out/x", "//out/y"]; } => BadArguments("copy");
    copy("c") { sources = []; outputs = ["x"]; } => Missing("sources");
    config("c") { cflags = ["-g"]; deps = 1; inputs = 1; } => cflags.has("-g");
    pool("p") { depth = -1; } => WrongType("depth");
    pool("p") { } => Missing("depth");
    pool("p") { depth = 0; } => depth.has("0");
    toolchain("a/b") { toolchain_args = 1; } => WrongType("toolchain_args");
    tool("cc") { command = "x"; outputs = ["y"]; } => outputs.has("y");
    tool("cc") { command = ""; outputs = ["y"]; } => Missing("command");
    tool("cc") { command = "x"; outputs = []; } => Missing("outputs");
    tool("stamp") { command = "x"; } => command.has("x");
    tool("frob") { command = 1; } => Excluded("frob");
    tool("cc") { depsformat = "msvc"; } => BadArguments("tool");
    tool("cc") { command = "{{x}}"; } => UnknownSubstitution;
    action("a") { outputs = ["//out/x"]; } => Missing("script");
    action("a") { script = "s.py"; outputs = []; } => Missing("outputs");
    action_foreach("a") { sources = ["a"]; outputs = ["//out/x"]; } => Missing("script");
    action_foreach("a") { sources = ["a"]; script = ""; outputs = ["//out/x"]; } => Missing("script");
    action_foreach("a") { sources = ["a"]; script = "s.py"; } => Missing("outputs");
    action_foreach("a") { sources = ["a"]; script = "s.py"; outputs = []; } => Missing("outputs");
    action_foreach("a") { sources = []; script = "s.py"; outputs = ["//out/x"]; } => Missing("sources");
    copy("c") { outputs = ["//out/x"]; } => Missing("sources");
    copy("c") { sources = ["a"]; } => Missing("outputs");
    copy("c") { sources = ["a"]; outputs = []; } => Missing("outputs");
    tool("cc") { outputs = ["y"]; } => Missing("command");
    tool("cc") { command = "x"; } => Missing("outputs");
    tool("stamp") { } => Missing("command");
    tool("copy") { command = ""; } => Missing("command");
    // A value of a wrong type and a bad content of each row.
    group("g") { testonly = "x"; } => WrongType("testonly");
    group("g") { check_includes = "x"; } => WrongType("check_includes");
    group("g") { output_prefix_override = "x"; } => WrongType("output_prefix_override");
    group("g") { visibility = 1; } => WrongType("visibility");
    group("g") { visibility = ["*", "a␊"]; } => WrongType("visibility");
    group("g") { visibility = ""; } => BadPattern;
    group("g") { visibility = ["*", "../a:*"]; } => AboveRoot;
    group("g") { public_deps = ":a"; } => WrongType("public_deps");
    group("g") { public_deps = [":a␀"]; } => WrongType("public_deps");
    group("g") { public_deps = [":a", "a/b:"]; } => BadLabel;
    group("g") { deps = ":a"; } => WrongType("deps");
    group("g") { deps = [":a␀"]; } => WrongType("deps");
    group("g") { deps = [":a", "a/b:"]; } => BadLabel;
    group("g") { deps = [":a", "../a:b"]; } => AboveRoot;
    group("g") { data_deps = ":a"; } => WrongType("data_deps");
    group("g") { data_deps = [":a␀"]; } => WrongType("data_deps");
    group("g") { data_deps = [":a", "a/b:"]; } => BadLabel;
    group("g") { configs = ":a"; } => WrongType("configs");
    group("g") { configs = [":a␀"]; } => WrongType("configs");
    group("g") { configs = [":a", "a/b:"]; } => BadLabel;
    group("g") { public_configs = ":a"; } => WrongType("public_configs");
    group("g") { public_configs = [":a␀"]; } => WrongType("public_configs");
    group("g") { public_configs = [":a", "a/b:"]; } => BadLabel;
    group("g") { all_dependent_configs = ":a"; } => WrongType("all_dependent_configs");
    group("g") { all_dependent_configs = [":a␀"]; } => WrongType("all_dependent_configs");
    group("g") { all_dependent_configs = [":a", "a/b:"]; } => BadLabel;
    group("g") { allow_circular_includes_from = ":a"; } => WrongType("allow_circular_includes_from");
    group("g") { allow_circular_includes_from = [":a␀"]; } => WrongType("allow_circular_includes_from");
    group("g") { allow_circular_includes_from = [":a", "a/b:"]; } => BadLabel;
    group("g") { assert_no_deps = "*"; } => WrongType("assert_no_deps");
    group("g") { assert_no_deps = ["*", 1]; } => WrongType("assert_no_deps");
    group("g") { assert_no_deps = ["*", "a␊"]; } => WrongType("assert_no_deps");
    group("g") { assert_no_deps = ["*", "../a:*"]; } => AboveRoot;
    group("g") { assert_no_deps = ["*a"]; } => BadPattern;
    group("g") { sources = "a"; } => WrongType("sources");
    group("g") { sources = ["a␊"]; } => WrongType("sources");
    group("g") { sources = ["a", "../b"]; } => AboveRoot;
    group("g") { public = "a"; } => WrongType("public");
    group("g") { public = ["a␊"]; } => WrongType("public");
    group("g") { public = ["a", "../b"]; } => AboveRoot;
    group("g") { inputs = "a"; } => WrongType("inputs");
    group("g") { inputs = ["a␊"]; } => WrongType("inputs");
    group("g") { inputs = ["a", "../b"]; } => AboveRoot;
    group("g") { data = "a"; } => WrongType("data");
    group("g") { data = ["a␊"]; } => WrongType("data");
    group("g") { data = ["a", "../b"]; } => AboveRoot;
    group("g") { include_dirs = "a"; } => WrongType("include_dirs");
    group("g") { include_dirs = ["a␊"]; } => WrongType("include_dirs");
    group("g") { include_dirs = ["a", "../b"]; } => AboveRoot;
    group("g") { lib_dirs = "a"; } => WrongType("lib_dirs");
    group("g") { lib_dirs = ["a␊"]; } => WrongType("lib_dirs");
    group("g") { lib_dirs = ["a", "../b"]; } => AboveRoot;
    group("g") { defines = "a"; } => WrongType("defines");
    group("g") { defines = ["a␊"]; } => WrongType("defines");
    group("g") { asmflags = "a"; } => WrongType("asmflags");
    group("g") { asmflags = ["a␊"]; } => WrongType("asmflags");
    group("g") { cflags = "a"; } => WrongType("cflags");
    group("g") { cflags = ["a␊"]; } => WrongType("cflags");
    group("g") { cflags_c = "a"; } => WrongType("cflags_c");
    group("g") { cflags_c = ["a␊"]; } => WrongType("cflags_c");
    group("g") { cflags_cc = "a"; } => WrongType("cflags_cc");
    group("g") { cflags_cc = ["a␊"]; } => WrongType("cflags_cc");
    group("g") { ldflags = "a"; } => WrongType("ldflags");
    group("g") { ldflags = ["a␊"]; } => WrongType("ldflags");
    group("g") { libs = "a"; } => WrongType("libs");
    group("g") { libs = ["a␊"]; } => WrongType("libs");
    group("g") { libs = ["z", "../b"]; } => AboveRoot;
    group("g") { args = "a"; } => WrongType("args");
    group("g") { args = ["a␊"]; } => WrongType("args");
    action("g") { args = ["a", "{{x}}"]; } => UnknownSubstitution;
    action_foreach("g") { args = ["{{source}}", "{{x}}"]; } => UnknownSubstitution;
    group("g") { response_file_contents = "a"; } => WrongType("response_file_contents");
    group("g") { response_file_contents = ["a␊"]; } => WrongType("response_file_contents");
    group("g") { output_name = ["a"]; } => WrongType("output_name");
    group("g") { output_name = "a␊"; } => WrongType("output_name");
    group("g") { output_extension = ["a"]; } => WrongType("output_extension");
    group("g") { output_extension = "a␊"; } => WrongType("output_extension");
    group("g") { output_dir = ["a"]; } => WrongType("output_dir");
    group("g") { output_dir = "a␊"; } => WrongType("output_dir");
    group("g") { output_dir = "../a"; } => AboveRoot;
    group("g") { script = ["a"]; } => WrongType("script");
    group("g") { script = "a␊"; } => WrongType("script");
    group("g") { script = "../a"; } => AboveRoot;
    group("g") { outputs = "//out/a"; } => WrongType("outputs");
    group("g") { outputs = ["//out/a␊"]; } => WrongType("outputs");
    group("g") { outputs = ["{{source}}"]; } => UnknownSubstitution;
    group("g") { outputs = ["//out/a", "//b"]; } => BadPath;
    group("g") { outputs = ["//out/a", "../b"]; } => AboveRoot;
    action_foreach("g") { sources = ["a"]; outputs = ["{{source_gen_dir}}/../../../a"]; } => AboveRoot;
    copy("g") { sources = ["a"]; outputs = ["//out/{{x}}"]; } => UnknownSubstitution;
    group("g") { depfile = ["a"]; } => WrongType("depfile");
    group("g") { depfile = "a␊"; } => WrongType("depfile");
    group("g") { depfile = "../a"; } => AboveRoot;
    action("g") { depfile = "{{source}}"; } => UnknownSubstitution;
    group("g") { pool = [":a"]; } => WrongType("pool");
    group("g") { pool = ":a␊"; } => WrongType("pool");
    group("g") { pool = ""; } => BadLabel;
    group("g") { pool = "../a:b"; } => AboveRoot;
    config("g") { defines = "a"; } => WrongType("defines");
    config("g") { asmflags = "a"; } => WrongType("asmflags");
    config("g") { cflags = "a"; } => WrongType("cflags");
    config("g") { cflags_c = "a"; } => WrongType("cflags_c");
    config("g") { cflags_cc = "a"; } => WrongType("cflags_cc");
    config("g") { ldflags = "a"; } => WrongType("ldflags");
    config("g") { libs = "a"; } => WrongType("libs");
    config("g") { include_dirs = "a"; } => WrongType("include_dirs");
    config("g") { lib_dirs = "a"; } => WrongType("lib_dirs");
    config("g") { visibility = 1; } => WrongType("visibility");
    config("g") { defines = ["a", "b␀"]; } => WrongType("defines");
    config("g") { asmflags = ["a", "b␀"]; } => WrongType("asmflags");
    config("g") { cflags = ["a", "b␀"]; } => WrongType("cflags");
    config("g") { cflags_c = ["a", "b␀"]; } => WrongType("cflags_c");
    config("g") { cflags_cc = ["a", "b␀"]; } => WrongType("cflags_cc");
    config("g") { ldflags = ["a", "b␀"]; } => WrongType("ldflags");
    config("g") { libs = ["a", "b␀"]; } => WrongType("libs");
    config("g") { include_dirs = ["a", "b␀"]; } => WrongType("include_dirs");
    config("g") { lib_dirs = ["a", "b␀"]; } => WrongType("lib_dirs");
    config("g") { visibility = ["*", "a␊"]; } => WrongType("visibility");
    config("g") { visibility = ["*a"]; } => BadPattern;
    config("g") { libs = ["a", "../b"]; } => AboveRoot;
    config("g") { include_dirs = ["a", "../b"]; } => AboveRoot;
    config("g") { lib_dirs = ["a", "../b"]; } => AboveRoot;
    pool("g") { depth = "1"; } => WrongType("depth");
    toolchain("g") { toolchain_args = "a"; } => WrongType("toolchain_args");
    tool("cc") { command = ["a"]; } => WrongType("command");
    tool("cc") { depfile = ["a"]; } => WrongType("depfile");
    tool("cc") { depsformat = ["a"]; } => WrongType("depsformat");
    tool("cc") { description = ["a"]; } => WrongType("description");
    tool("cc") { rspfile = ["a"]; } => WrongType("rspfile");
    tool("cc") { rspfile_content = ["a"]; } => WrongType("rspfile_content");
    tool("cc") { lib_switch = ["a"]; } => WrongType("lib_switch");
    tool("cc") { lib_dir_switch = ["a"]; } => WrongType("lib_dir_switch");
    tool("cc") { default_output_extension = ["a"]; } => WrongType("default_output_extension");
    tool("cc") { default_output_dir = ["a"]; } => WrongType("default_output_dir");
    tool("cc") { output_prefix = ["a"]; } => WrongType("output_prefix");
    tool("cc") { link_output = ["a"]; } => WrongType("link_output");
    tool("cc") { depend_output = ["a"]; } => WrongType("depend_output");
    tool("cc") { pool = ["a"]; } => WrongType("pool");
    tool("cc") { outputs = "a"; } => WrongType("outputs");
    tool("cc") { restat = "a"; } => WrongType("restat");
    tool("cc") { command = "a␊"; } => WrongType("command");
    tool("cc") { depfile = "a␊"; } => WrongType("depfile");
    tool("cc") { depsformat = "a␊"; } => WrongType("depsformat");
    tool("cc") { description = "a␊"; } => WrongType("description");
    tool("cc") { rspfile = "a␊"; } => WrongType("rspfile");
    tool("cc") { rspfile_content = "a␊"; } => WrongType("rspfile_content");
    tool("cc") { lib_switch = "a␊"; } => WrongType("lib_switch");
    tool("cc") { lib_dir_switch = "a␊"; } => WrongType("lib_dir_switch");
    tool("cc") { default_output_extension = "a␊"; } => WrongType("default_output_extension");
    tool("cc") { default_output_dir = "a␊"; } => WrongType("default_output_dir");
    tool("cc") { output_prefix = "a␊"; } => WrongType("output_prefix");
    tool("cc") { link_output = "a␊"; } => WrongType("link_output");
    tool("cc") { depend_output = "a␊"; } => WrongType("depend_output");
    tool("cc") { pool = "a␊"; } => WrongType("pool");
    tool("cc") { outputs = ["a", "b␀"]; } => WrongType("outputs");
    tool("cc") { default_output_dir = "{{source}}"; } => UnknownSubstitution;
    tool("cc") { link_output = "{{source}}"; } => UnknownSubstitution;
    tool("cc") { depend_output = "{{source}}"; } => UnknownSubstitution;
    tool("cc") { depfile = "{{x}}"; } => UnknownSubstitution;
    tool("cc") { description = "{{x}}"; } => UnknownSubstitution;
    tool("cc") { rspfile = "{{x}}"; } => UnknownSubstitution;
    tool("cc") { rspfile_content = "{{x}}"; } => UnknownSubstitution;
    tool("cc") { outputs = ["a", "{{x}}"]; } => UnknownSubstitution;
    tool("cc") { pool = ""; } => BadLabel;
};

static KINDS: [ItemKind; 13] = [
    ItemKind::Group,
    ItemKind::Executable,
    ItemKind::StaticLibrary,
    ItemKind::SharedLibrary,
    ItemKind::SourceSet,
    ItemKind::LoadableModule,
    ItemKind::Action,
    ItemKind::ActionForeach,
    ItemKind::Copy,
    ItemKind::Config,
    ItemKind::Pool,
    ItemKind::Toolchain,
    ItemKind::Tool,
];

fn kind_named(name: &str) -> Option<ItemKind> {
    for kind in &KINDS {
        if kind.name() == name.as_bytes() {
            return Some(*kind);
        }
    }
    None
}

// A block whose values stand in a scope.
#[derive(Drop)]
struct Assignments {
    entries: Entries,
}

impl Block for Assignments {
    ghost values = { λ t name. value_at name t.entries };

    fn value(&self, name: &[u8]) -> Option<&Value> {
        self.entries.get(name)
    }
}

fn set(block: &mut Assignments, name: Text, value: Value) -> Result<(), AllocError> {
    match block.entries.set(name, value) {
        Ok(()) => Ok(()),
        Err(_) => Err(AllocError),
    }
}

fn assign(alloc: Global, block: &mut Assignments, assignment: &str) -> Result<(), AllocError> {
    let (name, text) = assignment.split_once(" = ").unwrap_or((assignment, ""));
    let name = Text::from_bytes(alloc, name.as_bytes())?;
    let value = value(alloc, text)?;
    set(block, name, value)
}

fn block(alloc: Global, assignments: &str) -> Result<Assignments, AllocError> {
    let mut made = Assignments {
        entries: Entries::new(alloc),
    };
    for assignment in assignments.split_terminator('\x1d') {
        assign(alloc, &mut made, assignment)?;
    }
    Ok(made)
}

fn place(alloc: Global, kind: ItemKind) -> Result<Where, PathError> {
    Ok(Where {
        kind,
        directory: Path::root(alloc)?,
        toolchain: Text::from_bytes(alloc, b"//t:t")?,
        build: at_root(alloc, "//out")?,
        out: at_root(alloc, "//out")?,
    })
}

fn is_label(alloc: Global, label: &Label, text: &str) -> Result<bool, AllocError> {
    let default = Text::from_bytes(alloc, b"//t:t")?;
    let printed = label.print(alloc, &default);
    drop(default);
    let printed = printed?;
    Ok(printed.as_bytes() == text.as_bytes())
}

fn has_label(alloc: Global, labels: &[Label], text: &str) -> Result<bool, AllocError> {
    for label in labels {
        if is_label(alloc, label, text)? {
            return Ok(true);
        }
    }
    Ok(false)
}

fn is_plain(subst: &Subst, text: &[u8]) -> bool {
    subst.pieces.as_slice().is_empty() && subst.last.as_bytes() == text
}

// Whether a text is one of the items of a field that has no labels.
fn has_text(held: &Field, text: &[u8]) -> bool {
    match held {
        Field::Count(count) => *count == 0 && text == b"0".as_slice(),
        Field::Texts(texts) => texts.iter().any(|one| one.as_bytes() == text),
        Field::Paths(paths) => paths.iter().any(|one| one.as_bytes() == text),
        Field::Patterns(patterns) => patterns.iter().any(|one| one.text().as_bytes() == text),
        Field::Substs(substs) => substs.iter().any(|one| is_plain(one, text)),
        Field::Unused => text.is_empty(),
        _ => false,
    }
}

fn has(alloc: Global, held: &Field, text: &str) -> Result<bool, AllocError> {
    match held {
        Field::Labels(labels) => has_label(alloc, labels.as_slice(), text),
        _ => Ok(has_text(held, text.as_bytes())),
    }
}

// What the variable of this name holds.
fn field_named<'a>(fields: &'a Fields, name: &str) -> Option<&'a Field> {
    for entry in fields.entries() {
        if entry.variable.name() == name.as_bytes() {
            return fields.get(entry.variable);
        }
    }
    None
}

fn is_held(alloc: Global, fields: &Fields, wanted: &str) -> Result<bool, AllocError> {
    match field_named(fields, before(wanted, '.')) {
        Some(held) => has(alloc, held, quoted(wanted)),
        None => Ok(false),
    }
}

fn is_fault(
    alloc: Global,
    fault: ItemFault,
    detail: Option<&[u8]>,
    wanted: &str,
) -> Result<bool, AllocError> {
    let is_detail = detail.unwrap_or(b"") == quoted(wanted).as_bytes();
    Ok(is_detail && is_shown(alloc, fault.code(), before(wanted, '('))?)
}

fn is_outcome(
    alloc: Global,
    row: &str,
    kind: ItemKind,
    defined: &Result<Fields, DefineError>,
) -> Result<bool, AllocError> {
    match defined {
        Ok(fields) => is_held(alloc, fields, field(row, 3)),
        Err(DefineError::Wrong(fault)) => {
            let detail = fault.detail(kind, field(row, 1).as_bytes());
            is_fault(alloc, *fault, detail, field(row, 3))
        }
        Err(DefineError::Memory) => Ok(false),
    }
}

fn defines(alloc: Global, row: &str, kind: ItemKind) -> Result<bool, PathError> {
    let block = block(alloc, field(row, 2))?;
    let at = place(alloc, kind)?;
    let name = field(row, 1).as_bytes();
    let defined = define(alloc, &at, rows_of(kind), name, &block);
    drop(at);
    drop(block);
    let is_so = is_outcome(alloc, row, kind, &defined);
    drop(defined);
    Ok(is_so?)
}

fn is_defined(alloc: Global, row: &str) -> Result<bool, PathError> {
    match kind_named(field(row, 0)) {
        Some(kind) => defines(alloc, row, kind),
        None => Ok(false),
    }
}

#[test]
fn items_are_defined(rt: HostRuntime) -> Result<(), Fail> {
    for row in ITEMS.split_terminator('\x1e') {
        assert!(rt; is_defined(rt.alloc(), row)?, "at {row}");
    }
    Ok(())
}
