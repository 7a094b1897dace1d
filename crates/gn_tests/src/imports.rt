// What trees say whose files import others, and what is read of them.

use crate::runs::{row_holds, run, tree_of, tree_says};
use gn_outside::{Tree, TreeSink, TreeSource};
use std::alloc::{AllocError, Global};
use std::test::Fail;
use std::thread::Threads;

// The files of a tree, and the status and the text of `ls out` over it.
macro_rules! trees {
    ($($($path:literal: $file:literal,)+ => $status:literal $text:literal;)+) => {
        concat!($($($path, "\x1f", $file, "\x1d",)+ "\x1c", $status, $text, "\x1e"),+)
    };
}

// The same of a tree that also has a file with a name of each kind.
macro_rules! told {
    ($($($path:literal: $file:literal,)+ => $status:literal $text:literal;)+) => {
        trees! { $(
            "//told.gni": "p = 1\n_q = 2\nset_defaults(\"w\") {\n  d = 4\n}\ntemplate(\"w\") {\n  print(target_name, invoker.x, invoker.d, p)\n}\ntemplate(\"v\") {\n  print(nope)\n}\n",
            $($path: $file,)+ => $status $text;
        )+ }
    };
}

const TREES: &str = trees! {
    // A name that begins with `_` isn't imported, and an equal value is no conflict.
    "//BUILD.gn": "p = 1\nimport(\"//d.gni\")\nprint(p, defined(_q))\n",
    "//d.gni": "p = 1\n_q = 2\n",
    => 0 "1 false\n";
    "//BUILD.gn": "import(\"//d.gni\")\nprint(_q)\n",
    "//d.gni": "_q = 2\n",
    => 1 "ERROR at //BUILD.gn:2:7: Undefined identifier \"_q\".\n";
    // Conflicts with the importer, and of two imports.
    "//BUILD.gn": "p = 2\nimport(\"//d.gni\")\nprint(p, defined(_q))\n",
    "//d.gni": "p = 1\n_q = 2\n",
    => 1 "ERROR at //BUILD.gn:2:1: Value collision on import: \"p\".\n";
    "//BUILD.gn": "import(\"//a.gni\")\nimport(\"//b.gni\")\n",
    "//a.gni": "x = 1\n",
    "//b.gni": "x = 2\n",
    => 1 "ERROR at //BUILD.gn:2:1: Value collision on import: \"x\".\n";
    // What imports print comes in the order of their paths, and before what the build file prints.
    "//BUILD.gn": "print(\"build\")\nimport(\"//z.gni\")\nimport(\"d/a.gni\")\n",
    "//d/a.gni": "import(\"b.gni\")\nprint(\"a\")\n",
    "//d/b.gni": "print(\"b\")\n",
    "//z.gni": "print(\"z\")\n",
    => 0 "a\nb\nz\nbuild\n";
    // What an import and a scope bring into a block that declares arguments is declared there.
    "//BUILD.gn": "declare_args() {\n  import(\"//d.gni\")\n  print(defined(p))\n  y = p\n}\n",
    "//d.gni": "p = 1\n",
    => 1 "ERROR at //BUILD.gn:4:7: Undefined identifier \"p\".\n";
    "//BUILD.gn": "s = { a = 1 b = 2 }\ndeclare_args() {\n  forward_variables_from(s, [ \"a\" ])\n  import(\"//d.gni\")\n  forward_variables_from(s, \"*\")\n  print(defined(a), defined(b), defined(p))\n}\nprint(a, b, p)\n",
    "//d.gni": "p = 3\n",
    => 0 "false false false\n1 2 3\n";
    "//BUILD.gn": "p = 1\nprint(p)\ndeclare_args() {\n  import(\"//d.gni\")\n}\n",
    "//d.gni": "p = 1\n",
    => 1 "ERROR at //BUILD.gn:3:1: \"p\" is already set.\n";
    // A file that is imported declares arguments.
    "//BUILD.gn": "import(\"//d.gni\")\nprint(p)\n",
    "//d.gni": "declare_args() {\n  p = 1\n}\n",
    => 0 "1\n";
    // A file that two others import is run once.
    "//BUILD.gn": "import(\"//b.gni\")\nimport(\"//a.gni\")\nprint(x)\n",
    "//a.gni": "import(\"//c.gni\")\nprint(\"a\", x)\n",
    "//b.gni": "import(\"//c.gni\")\nprint(\"b\", x)\n",
    "//c.gni": "print(\"c\")\nx = 1\n",
    => 0 "a 1\nb 1\nc\n1\n";
    // An import cycle has its least place, from wherever it is entered.
    "//BUILD.gn": "import(\"//y.gni\")\n",
    "//x.gni": "import(\"//y.gni\")\n",
    "//y.gni": "import(\"//x.gni\")\n",
    => 1 "ERROR at //x.gni:1:1: Import cycle.\n";
    "//BUILD.gn": "import(\"//x.gni\")\n",
    "//x.gni": "import(\"//y.gni\")\n",
    "//y.gni": "import(\"//x.gni\")\n",
    => 1 "ERROR at //x.gni:1:1: Import cycle.\n";
    "//BUILD.gn": "import(\"//a.gni\")\n",
    "//a.gni": "import(\"//y.gni\")\n",
    "//x.gni": "\nimport(\"//y.gni\")\n",
    "//y.gni": "import(\"//x.gni\")\n",
    => 1 "ERROR at //x.gni:2:1: Import cycle.\n";
    "//BUILD.gn": "import(\"//x.gni\")\n",
    "//x.gni": "import(\"//x.gni\")\n",
    => 1 "ERROR at //x.gni:1:1: Import cycle.\n";
    // A wrong file's own fault is told.
    "//BUILD.gn": "import(\"//a.gni\")\nprint(nope)\n",
    "//a.gni": "import(\"//b.gni\")\n",
    "//b.gni": "print(\"b\")\nprint(nope)\n",
    => 1 "ERROR at //b.gni:2:7: Undefined identifier \"nope\".\n";
    "//BUILD.gn": "import(\"//d.gni\")\n",
    "//d.gni": "group(\"g\") {\n}\n",
    => 1 "ERROR at //d.gni:1:1: \"group\" is not allowed here.\n";
    // A file that isn't there.
    "//BUILD.gn": "import(\"//no.gni\")\n",
    => 1 "ERROR at //BUILD.gn:1:8: No such file \"//no.gni\".\n";
    "//BUILD.gn": "import(\"//a.gni\")\n",
    "//a.gni": "import(\"no.gni\")\n",
    => 1 "ERROR at //a.gni:1:8: No such file \"//no.gni\".\n";
    // Paths that are none.
    "//BUILD.gn": "import(\"\")\n",
    => 1 "ERROR at //BUILD.gn:1:8: Invalid path.\n";
    "//BUILD.gn": "import(\"../a.gni\")\n",
    => 1 "ERROR at //BUILD.gn:1:8: Path is above the source root.\n";
    "//BUILD.gn": "import(\"/a.gni\")\n",
    => 1 "ERROR at //BUILD.gn:1:8: Invalid path.\n";
    // Contents that are read, by a build file and by a file that is imported.
    "//BUILD.gn": "print(read_file(\"d.txt\", \"string\"), read_file(\"//d.txt\", \"list lines\"), read_file(\"d.txt\", \"trim string\"), read_file(\"d.txt\", \"trim list lines\"))\n",
    "//d.txt": "\n a b \r\nc\n\n",
    => 0 "\n a b \r\nc\n\n [\"\", \"a b\", \"c\", \"\"] a b \r\nc [\"a b\", \"c\"]\n";
    "//BUILD.gn": "read_file(\"//e.txt\", \"\")\nprint(read_file(\"//e.txt\", \"list lines\"), read_file(\"//e.txt\", \"string\") == \"\")\n",
    "//e.txt": "",
    => 0 "[] true\n";
    "//BUILD.gn": "print(read_file(\"//e.txt\", \"list lines\"), read_file(\"//f.txt\", \"list lines\"))\n",
    "//e.txt": " \n",
    "//f.txt": "a\n \n ",
    => 0 "[\"\"] [\"a\", \"\"]\n";
    "//BUILD.gn": "import(\"//d/a.gni\")\nprint(x, read_file(\"//BUILD.gn\", \"list lines\") == [])\n",
    "//d/a.gni": "x = read_file(\"x.txt\", \"string\")\n",
    "//d/x.txt": "y",
    => 0 "y false\n";
    "//BUILD.gn": "read_file(\"//no.txt\", \"\")\n",
    => 1 "ERROR at //BUILD.gn:1:11: No such file \"//no.txt\".\n";
    "//BUILD.gn": "write_file(\"out/d.txt\", \"b\")\nprint(read_file(\"out/d.txt\", \"string\"))\n",
    "//out/d.txt": "a",
    => 0 "a\n";
    "//BUILD.gn": "read_file(\"d.txt/\", \"string\")\n",
    "//d.txt": "a",
    => 1 "ERROR at //BUILD.gn:1:11: No such file \"//d.txt/\".\n";
    "//BUILD.gn": "import(\"//a.gni\")\nprint(nope)\n",
    "//a.gni": "\nread_file(\"no.txt\", \"string\")\n",
    => 1 "ERROR at //a.gni:2:11: No such file \"//no.txt\".\n";
    // Contents that are expressions, in an empty scope of their own.
    "//BUILD.gn": "print(read_file(\"v.txt\", \"value\"), read_file(\"v.txt\", \"trim value\"))\n",
    "//v.txt": "\n[ 1, \"a\" + 2 ] # a list\n",
    => 0 "[1, \"a2\"] [1, \"a2\"]\n";
    "//BUILD.gn": "x = read_file(\"v.txt\", \"value\")\nprint(x.b, x.c)\n",
    "//v.txt": "{\n  a = 1\n  print(\"in\")\n  import(\"w.gni\")\n  b = a + 1\n}\n",
    "//w.gni": "c = 3\n",
    => 0 "in\n2 3\n";
    "//BUILD.gn": "print(read_file(\"v.txt\", \"value\"))\n",
    "//v.txt": "1 2\n",
    => 1 "ERROR at //BUILD.gn:1:7: Wrong arguments to \"read_file\".\n";
    "//BUILD.gn": "x = 1\nprint(x, read_file(\"v.txt\", \"value\"))\n",
    "//v.txt": "x",
    => 1 "ERROR at //BUILD.gn:2:10: Wrong arguments to \"read_file\".\n";
    "//BUILD.gn": "print(read_file(\"v.txt\", \"value\"))\n",
    "//v.txt": "read_file(\"v.txt\", \"value\")",
    => 1 "ERROR at //BUILD.gn:1:7: Wrong arguments to \"read_file\".\n";
    "//BUILD.gn": "read_file(\"v.txt\", \"value\")\n",
    "//v.txt": "{ import(\"w.gni\") }",
    "//w.gni": "x = nope\n",
    => 1 "ERROR at //w.gni:1:5: Undefined identifier \"nope\".\n";
    "//BUILD.gn": "read_file(\"v.txt\", \"trim value\")\n",
    "//v.txt": " \n",
    => 1 "ERROR at //BUILD.gn:1:1: Wrong arguments to \"read_file\".\n";
    "//BUILD.gn": "read_file(\"no.txt\", \"value\")\n",
    "//v.txt": "1",
    => 1 "ERROR at //BUILD.gn:1:11: No such file \"//no.txt\".\n";
    // What may be called in such an expression: no template of the reader, items where the reader may define them.
    "//BUILD.gn": "template(\"t\") {\n}\nread_file(\"v.txt\", \"value\")\n",
    "//v.txt": "{ t(\"x\") { } }",
    => 1 "ERROR at //BUILD.gn:3:1: Wrong arguments to \"read_file\".\n";
    "//BUILD.gn": "read_file(\"v.txt\", \"value\")\n",
    "//v.txt": "{ group(\"h\") { } }",
    => 0 "//:h\n";
    "//BUILD.gn": "group(\"g\") {\n  read_file(\"v.txt\", \"value\")\n}\n",
    "//v.txt": "{ group(\"h\") { } }",
    => 1 "ERROR at //BUILD.gn:2:3: Wrong arguments to \"read_file\".\n";
    // An import in it may bring the template whose body reads it.
    "//BUILD.gn": "import(\"//d.gni\")\nt(\"out\") {\n  file = \"//v.txt\"\n}\n",
    "//d.gni": "template(\"t\") {\n  x = read_file(invoker.file, \"value\")\n  print(target_name, x)\n}\n",
    "//v.txt": "{ import(\"//d.gni\") t(\"in\") { file = \"//w.txt\" } }",
    "//w.txt": "1",
    => 0 "in 1\nout {\n}\n";
    // How deep an import may stand.
    "//BUILD.gn": "if (true) {\nif (true) {\nif (true) {\nif (true) {\nimport(\"//d.gni\")\n}\n}\n}\n}\n",
    "//d.gni": "",
    => 0 "";
    "//BUILD.gn": "if (true) {\nif (true) {\nif (true) {\nif (true) {\nif (true) {\nimport(\"//d.gni\")\n}\n}\n}\n}\n}\n",
    "//d.gni": "",
    => 1 "ERROR at //BUILD.gn:6:1: Evaluation is nested too deeply.\n";
    // Templates and forwarding.
    "//BUILD.gn": "template(\"w\") {\n  group(target_name) {\n    forward_variables_from(invoker, [ \"deps\" ])\n  }\n}\nw(\"x\") {\n  deps = [ \":y\" ]\n}\ngroup(\"y\") {\n}\n",
    => 0 "//:x\n//:y\n";
    "//BUILD.gn": "template(\"w\") {\n  group(target_name) {\n    forward_variables_from(invoker, [ \"deps\" ])\n  }\n}\nw(\"x\") {\n  deps = [ \":y\" ]\n  junk = 1\n}\ngroup(\"y\") {\n}\n",
    => 1 "ERROR at //BUILD.gn:8:8: Assignment had no effect: \"junk\".\n";
    "//BUILD.gn": "template(\"w\") {\n  group(target_name) {\n    deps = []\n    forward_variables_from(invoker, [ \"deps\" ])\n  }\n}\nw(\"x\") {\n  deps = [ \":y\" ]\n}\ngroup(\"y\") {\n}\n",
    => 1 "ERROR at //BUILD.gn:4:5: \"deps\" is already set.\n";
    "//BUILD.gn": "template(\"group\") {\n  target(\"group\", target_name) {\n    forward_variables_from(invoker, \"*\")\n  }\n}\ngroup(\"a\") {\n}\n",
    => 0 "//:a\n";
    "//BUILD.gn": "a = 1\ntemplate(\"t\") {\n  print(a, target_name, invoker.x)\n}\nt(\"n\") {\n  x = 2\n}\n",
    => 0 "1 n 2\n";
    "//BUILD.gn": "template(\"t\") {\n}\ntemplate(\"t\") {\n}\n",
    => 1 "ERROR at //BUILD.gn:3:1: \"t\" is already set.\n";
    "//BUILD.gn": "import(\"//d.gni\")\nw(\"x\") {\n}\n",
    "//d.gni": "template(\"w\") {\n  print(target_name)\n}\n",
    => 0 "x\n";
    "//BUILD.gn": "target(\"nope\", \"a\") {\n}\n",
    => 1 "ERROR at //BUILD.gn:1:1: Wrong arguments to \"target\".\n";
    "//BUILD.gn": "a = 1\nb = 2\nnot_needed(\"*\", [ \"b\" ])\nnot_needed([ \"b\" ])\n",
    => 0 "";
    // The invoker as a value, what is forwarded from around its block, and which of its names count as read.
    "//BUILD.gn": "template(\"t\") {\n  y = invoker\n  print(y)\n}\nt(\"n\") {\n  b = 1\n  a = 2\n}\n",
    => 0 "{\n  a = 2\n  b = 1\n  target_name = \"n\"\n}\n";
    "//BUILD.gn": "x = 5\ntemplate(\"t\") {\n  forward_variables_from(invoker, [ \"x\" ])\n  print(x)\n}\ngroup(\"g\") {\n  x = 6\n  t(\"n\") {\n  }\n}\n",
    => 0 "6\n//:g\n";
    "//BUILD.gn": "template(\"t\") {\n  forward_variables_from(invoker, \"*\", [ \"b\" ])\n  print(a, defined(b))\n}\nt(\"n\") {\n  a = 1\n  b = 2\n}\n",
    => 0 "1 false\n";
    "//BUILD.gn": "template(\"t\") {\n  not_needed(invoker, [ \"a\" ])\n}\nt(\"n\") {\n  a = 1\n  b = 2\n}\n",
    => 1 "ERROR at //BUILD.gn:6:5: Assignment had no effect: \"b\".\n";
    "//BUILD.gn": "a = 1\nnot_needed([ \"a\", \"b\" ])\nc = 1\nnot_needed(\"*\", [ \"c\" ])\n",
    => 1 "ERROR at //BUILD.gn:3:3: Assignment had no effect: \"c\".\n";
    // Defaults are given at the template's call and at the call of its kind.
    "//BUILD.gn": "set_defaults(\"group\") {\n  deps = [ \":d\" ]\n}\ntemplate(\"group\") {\n  target(\"group\", target_name) {\n    print(deps)\n    forward_variables_from(invoker, \"*\")\n  }\n}\ngroup(\"g\") {\n}\nsource_set(\"d\") {\n}\n",
    => 0 "[\":d\"]\n//:d\n//:g\n";
    // Equal defaults merge, others don't; the first name that differs is told; a template sees what its file keeps.
    "//BUILD.gn": "import(\"//a.gni\")\nimport(\"//a.gni\")\nimport(\"//b.gni\")\n",
    "//a.gni": "set_defaults(\"k\") {\n  a = 1\n}\n",
    "//b.gni": "set_defaults(\"k\") {\n  a = 2\n}\n",
    => 1 "ERROR at //BUILD.gn:3:1: Value collision on import: \"k\".\n";
    "//BUILD.gn": "if (true) {\n  b = 0\n  template(\"a\") {\n  }\n  import(\"//d.gni\")\n}\n",
    "//d.gni": "b = 1\ntemplate(\"a\") {\n}\n",
    => 1 "ERROR at //BUILD.gn:5:3: Value collision on import: \"a\".\n";
    "//BUILD.gn": "import(\"//a.gni\")\nt(\"n\") {\n}\n",
    "//a.gni": "_p = 7\ntemplate(\"t\") {\n  print(_p)\n}\n",
    => 0 "7\n";
    // In the scope of a body the invoker is something else than any variable of its name.
    "//BUILD.gn": "template(\"t\") {\n  a = 1\n  z = 1\n  import(\"//d.gni\")\n}\nt(\"n\") {\n}\n",
    "//d.gni": "invoker = 1\nz = 2\n",
    => 1 "ERROR at //BUILD.gn:4:3: Value collision on import: \"invoker\".\n";
    "//BUILD.gn": "template(\"t\") {\n  a = 1\n  import(\"//d.gni\")\n}\nt(\"n\") {\n}\n",
    "//d.gni": "invoker = 1\na = 2\n",
    => 1 "ERROR at //BUILD.gn:3:3: Value collision on import: \"a\".\n";
    "//BUILD.gn": "template(\"t\") {\n  group(\"g\") {\n    import(\"//d.gni\")\n    print(invoker)\n  }\n}\nt(\"n\") {\n}\n",
    "//d.gni": "invoker = 1\n",
    => 0 "1\n//:g\n";
    "//BUILD.gn": "template(\"t\") {\n  import(\"//d.gni\")\n  print(invoker.a)\n}\nt(\"n\") {\n  a = 1\n}\n",
    "//d.gni": "template(\"invoker\") {\n}\n",
    => 0 "1\n";
};

// What comes along with a template: its file's names, and the defaults of its calls. Faults in a body stand in its file.
const TOLD: &str = told! {
    "//BUILD.gn": "import(\"//told.gni\")\nimport(\"told.gni\")\nw(\"n\") {\n  x = 3\n}\n",
    => 0 "n 3 4 1\n";
    "//BUILD.gn": "import(\"//told.gni\")\nv(\"n\") {\n}\n",
    => 1 "ERROR at //told.gni:10:9: Undefined identifier \"nope\".\n";
    "//BUILD.gn": "import(\"//a.gni\")\nprint(p, r, defined(_s))\n",
    "//a.gni": "import(\"//told.gni\")\nr = 3\n_s = 4\n",
    => 0 "1 3 false\n";
};

#[test]
fn imports_and_templates_have_their_texts_and_faults(rt: HostRuntime) -> Result<(), Fail> {
    for row in TREES.split_terminator('\x1e') {
        assert!(rt; row_holds(&rt, rt.alloc(), row)?, "at {row}");
    }
    Ok(())
}

#[test]
fn what_an_import_tells_comes_along(rt: HostRuntime) -> Result<(), Fail> {
    for row in TOLD.split_terminator('\x1e') {
        assert!(rt; row_holds(&rt, rt.alloc(), row)?, "at {row}");
    }
    Ok(())
}

// A file that two others import.
const TWICE: &str = concat!(
    "//BUILD.gn\x1fimport(\"//b.gni\")\nimport(\"//a.gni\")\n\x1d",
    "//a.gni\x1fimport(\"//c.gni\")\n\x1d",
    "//b.gni\x1fimport(\"//c.gni\")\n\x1d",
    "//c.gni\x1f\x1d",
);

// Whether a read is one of these paths.
fn is_one_of(read: Option<&str>, paths: &[&str]) -> bool {
    for i in 0..paths.len() {
        if read == Some(paths[i]) {
            return true;
        }
    }
    false
}

// Whether these paths have been read, in whatever order, and no others. No path is read twice.
fn has_read(source: &TreeSource, paths: &[&str]) -> bool {
    for i in 0..paths.len() {
        if !is_one_of(source.read_path(i), paths) {
            return false;
        }
    }
    source.read_path(paths.len()).is_none()
}

// Whether `ls out` over a tree says nothing, ends well, loads two build files and reads these paths.
fn tree_reads<R: Threads + Sync>(
    rt: &R,
    alloc: Global,
    tree: Tree,
    paths: &[&str],
) -> Result<bool, AllocError> {
    let mut source = TreeSource::new(alloc, tree, Vec::new(alloc));
    let mut sink = TreeSink::new(alloc, Vec::new(alloc));
    let one = run(rt, alloc, "ls out", &mut source, &mut sink)?;
    Ok(one.units == 2 && one.status == 0 && sink.said().is_empty() && has_read(&source, paths))
}

#[test]
fn a_file_that_is_imported_twice_is_read_once(rt: HostRuntime) -> Result<(), Fail> {
    let tree = tree_of(rt.alloc(), TWICE)?;
    let read = [
        "//.gn",
        "//out/args.gn",
        "//b.gn",
        "//BUILD.gn",
        "//t/BUILD.gn",
        "//b.gni",
        "//c.gni",
        "//a.gni",
    ];
    assert!(rt; tree_reads(&rt, rt.alloc(), tree, &read)?);
    Ok(())
}

// Puts an import that imports the next one of a cycle of 150, from 100 to 249.
fn put_link(alloc: Global, tree: &mut Tree, n: u32) -> Result<(), AllocError> {
    let next = if n == 249 { 100 } else { n.wrapping_add(1) };
    let path = format!(in alloc; "//{n}.gni")?;
    let text = format!(in alloc; "import(\"//{next}.gni\")\n")?;
    tree.put(&path, text.as_bytes())
}

// A build file that imports one of a cycle of 150 imports.
fn cycle(alloc: Global) -> Result<Tree, AllocError> {
    let mut tree = tree_of(alloc, "//BUILD.gn\x1fimport(\"//177.gni\")\n\x1d")?;
    for n in 100..250 {
        put_link(alloc, &mut tree, n)?;
    }
    Ok(tree)
}

// Whether such a cycle ends so.
fn cycle_says<R: Threads + Sync>(rt: &R, alloc: Global, end: &str) -> Result<bool, AllocError> {
    let tree = cycle(alloc)?;
    tree_says(rt, alloc, tree, end)
}

#[test]
fn a_cycle_of_150_imports_has_its_least_place(rt: HostRuntime) -> Result<(), Fail> {
    let line = "1ERROR at //100.gni:1:1: Import cycle.\n";
    assert!(rt; cycle_says(&rt, rt.alloc(), line)?);
    Ok(())
}
