// Builds over several directories and toolchains. The expected texts stand in docs/OUTPUT.md.

use crate::runs::{base_tree, is_end, line_holds, run, tree_loads, tree_of};
use gn_outside::{Tree, TreeSink, TreeSource};
use std::alloc::{AllocError, Global};
use std::test::Fail;
use std::thread::Threads;

// A command line, the files of a tree over one whose build configuration names its default toolchain, how many build files are
// loaded, the status and the text.
macro_rules! builds {
    ($($line:literal, $($path:literal: $file:literal,)* => $units:literal $status:literal $text:literal;)+) => {
        concat!($($line, "\x1c", $($path, "\x1f", $file, "\x1d",)* "\x1c", $units, $status, $text, "\x1e"),+)
    };
}

// The same of a tree that defines three toolchains: the default one, `//t:u` and `//t:v`.
macro_rules! toolchains {
    ($($line:literal, $($path:literal: $file:literal,)* => $units:literal $status:literal $text:literal;)+) => {
        builds! { $($line,
            "//t/BUILD.gn": "toolchain(\"t\") {\n  tool(\"stamp\") {\n    command = \"touch {{output}}\"\n  }\n}\ntoolchain(\"u\") {\n  tool(\"stamp\") {\n    command = \"touch {{output}}\"\n  }\n  toolchain_args = {\n    x = 2\n  }\n}\ntoolchain(\"v\") {\n  tool(\"stamp\") {\n    command = \"touch {{output}}\"\n  }\n}\n",
            $($path: $file,)* => $units $status $text;
        )+ }
    };
}

const DIRECTORIES: &str = builds! {
    // What a generated target needs is loaded, and all targets under the default toolchain are generated.
    "ls out",
        "//BUILD.gn": "group(\"g\") {\n  deps = [ \"//z\", \"//a\" ]\n}\n",
        "//a/BUILD.gn": "group(\"b\") {\n}\ngroup(\"a\") {\n}\n",
        "//z/BUILD.gn": "group(\"z\") {\n}\n",
        => 4 0 "//:g\n//a:a\n//a:b\n//z:z\n";
    "ls out",
        "//BUILD.gn": "group(\"g\") {\n  public_deps = [ \"//a:x\" ]\n}\n",
        "//a/BUILD.gn": "group(\"x\") {\n  data_deps = [ \"//b:y\" ]\n  configs = [ \"//c:k\" ]\n  pool = \"//d:p\"\n}\n",
        "//b/BUILD.gn": "group(\"y\") {\n}\n",
        "//c/BUILD.gn": "config(\"k\") {\n}\ngroup(\"z\") {\n}\n",
        "//d/BUILD.gn": "pool(\"p\") {\n  depth = 1\n}\n",
        => 6 0 "//:g\n//a:x\n//b:y\n//c:z\n";
    "ls out //a:*",
        "//BUILD.gn": "group(\"g\") {\n  deps = [ \"//z\", \"//a\" ]\n}\n",
        "//a/BUILD.gn": "group(\"a\") {\n}\n",
        "//z/BUILD.gn": "group(\"z\") {\n}\n",
        => 4 0 "//a:a\n";
    "ls out //a",
        "//BUILD.gn": "group(\"g\") {\n  deps = [ \"//z\", \"//a\" ]\n}\n",
        "//a/BUILD.gn": "group(\"a\") {\n}\n",
        "//z/BUILD.gn": "group(\"z\") {\n}\n",
        => 4 0 "//a:a\n";
    // Lines come in the order of the directories, behind those of the imports.
    "ls out",
        "//BUILD.gn": "print(1)\nimport(\"//z.gni\")\ngroup(\"g\") {\n  deps = [ \"//c\", \"//a\" ]\n}\n",
        "//z.gni": "print(\"z\")",
        "//y.gni": "print(\"y\")",
        "//a/BUILD.gn": "import(\"//y.gni\")\nprint(2)\ngroup(\"a\") {\n}\n",
        "//c/BUILD.gn": "import(\"//z.gni\")\nprint(3)\ngroup(\"c\") {\n}\n",
        => 4 0 "y\nz\n1\n2\n3\n//:g\n//a:a\n//c:c\n";
    // A directory without a build file, that of the default toolchain too.
    "ls out",
        "//BUILD.gn": "group(\"g\") {\n  deps = [ \"//no:x\" ]\n}\n",
        => 3 1 "ERROR at //no/BUILD.gn:1:1: No such file \"//no/BUILD.gn\".\n";
    "ls out",
        "//b.gn": "set_default_toolchain(\"//no:t\")",
        "//BUILD.gn": "",
        => 2 1 "ERROR at //no/BUILD.gn:1:1: No such file \"//no/BUILD.gn\".\n";
    // The secondary source tree has what the source tree lacks, in the same directory.
    "ls out",
        "//.gn": "buildconfig = \"//b.gn\"\nsecondary_source = \"//s\"",
        "//BUILD.gn": "group(\"g\") {\n  deps = [ \"//a\", \"//c\" ]\n}\n",
        "//a/BUILD.gn": "group(\"a\") {\n}\n",
        "//s/a/BUILD.gn": "x = y\n",
        "//s/c/BUILD.gn": "print(target_gen_dir)\ngroup(\"c\") {\n}\n",
        => 4 0 "//out/gen/c\n//:g\n//a:a\n//c:c\n";
    "ls out",
        "//.gn": "buildconfig = \"//b.gn\"\nsecondary_source = \"//s\"",
        "//BUILD.gn": "group(\"g\") {\n  deps = [ \"//c\" ]\n}\n",
        "//s/c/BUILD.gn": "x = y\n",
        => 3 1 "ERROR at //s/c/BUILD.gn:1:5: Undefined identifier \"y\".\n";
    "ls out",
        "//.gn": "buildconfig = \"//b.gn\"\nsecondary_source = \"//s\"",
        "//BUILD.gn": "group(\"g\") {\n  deps = [ \"//c\" ]\n}\n",
        => 3 1 "ERROR at //c/BUILD.gn:1:1: No such file \"//c/BUILD.gn\".\n";
    // The least of several errors, by the path of the file: that of a build file, of an import and of a cycle.
    "ls out",
        "//BUILD.gn": "group(\"g\") {\n  deps = [ \"//z\", \"//a\" ]\n}\n",
        "//a/BUILD.gn": "\n\n\n\n\n\n\n\nx = q\n",
        "//z/BUILD.gn": "x = q\n",
        => 4 1 "ERROR at //a/BUILD.gn:9:5: Undefined identifier \"q\".\n";
    "ls out",
        "//BUILD.gn": "group(\"g\") {\n  deps = [ \"//z\", \"//a\" ]\n}\n",
        "//a/BUILD.gn": "import(\"//x.gni\")\n",
        "//x.gni": "\nx = q\n",
        "//z/BUILD.gn": "x = q\n",
        => 4 1 "ERROR at //x.gni:2:5: Undefined identifier \"q\".\n";
    "ls out",
        "//BUILD.gn": "group(\"g\") {\n  deps = [ \"//a\", \"//b\" ]\n}\n",
        "//a/BUILD.gn": "import(\"//x.gni\")\n",
        "//b/BUILD.gn": "import(\"//y.gni\")\n",
        "//x.gni": "import(\"//y.gni\")\n",
        "//y.gni": "import(\"//x.gni\")\n",
        => 4 1 "ERROR at //x.gni:1:1: Import cycle.\n";
    "ls out",
        "//BUILD.gn": "group(\"g\") {\n  deps = [ \"//c\", \"//b\", \"//a\" ]\n}\n",
        "//a/BUILD.gn": "import(\"//y.gni\")\n",
        "//b/BUILD.gn": "import(\"//z.gni\")\n",
        "//c/BUILD.gn": "import(\"//x.gni\")\n",
        "//x.gni": "\nimport(\"//y.gni\")\n",
        "//y.gni": "\n\nimport(\"//z.gni\")\n",
        "//z.gni": "import(\"//x.gni\")\n",
        => 5 1 "ERROR at //x.gni:2:1: Import cycle.\n";
    // What a wrong build file needs isn't loaded.
    "ls out",
        "//BUILD.gn": "group(\"g\") {\n  deps = [ \"//a\" ]\n}\nx = q\n",
        "//a/BUILD.gn": "x = q\n",
        => 2 1 "ERROR at //BUILD.gn:4:5: Undefined identifier \"q\".\n";
    // An argument that two build files declare; errors of loading come before.
    "ls out",
        "//BUILD.gn": "declare_args() {\n  x = 1\n}\ngroup(\"g\") {\n  deps = [ \"//a\" ]\n}\n",
        "//a/BUILD.gn": "declare_args() {\n  x = 1\n}\ngroup(\"a\") {\n}\n",
        => 3 1 "ERROR at //a/BUILD.gn:2:5: Duplicate build argument \"x\".\n";
    "ls out a",
        "//BUILD.gn": "declare_args() {\n  x = 1\n}\ngroup(\"g\") {\n  deps = [ \"//a\", \"//c\" ]\n}\n",
        "//a/BUILD.gn": "declare_args() {\n  x = 1\n}\ngroup(\"a\") {\n}\n",
        "//c/BUILD.gn": "x = q\n",
        => 4 1 "ERROR at //c/BUILD.gn:1:5: Undefined identifier \"q\".\n";
    // The faults of targets: the first of the first target that has one, in label order. They stand behind those of files and before that of
    // the pattern.
    "ls out a",
        "//BUILD.gn": "group(\"h\") {\n  deps = [ \":no\" ]\n}\ngroup(\"g\") {\n  deps = [ \":z\", \":b\" ]\n}\n",
        => 2 1 "ERROR at //BUILD.gn:4:1: \"//:g\" needs \"//:b\", which is not defined.\n";
    "ls out",
        "//BUILD.gn": "config(\"k\") {\n}\ngroup(\"g\") {\n  deps = [ \":k\" ]\n}\n",
        => 2 1 "ERROR at //BUILD.gn:3:1: \"//:g\" names \"//:k\", which is of another kind.\n";
    "ls out",
        "//BUILD.gn": "group(\"g\") {\n  data_deps = [ \"//a\" ]\n}\n",
        "//a/BUILD.gn": "group(\"a\") {\n  deps = [ \":b\" ]\n}\ngroup(\"b\") {\n  public_deps = [ \":a\" ]\n}\n",
        => 3 1 "ERROR at //a/BUILD.gn:1:1: Dependency cycle: //a:a -> //a:b -> //a:a\n";
    "ls out",
        "//BUILD.gn": "group(\"g\") {\n  configs = [ \"//a:k\" ]\n}\n",
        "//a/BUILD.gn": "config(\"k\") {\n  visibility = [ \":*\" ]\n}\n",
        => 3 1 "ERROR at //BUILD.gn:1:1: \"//:g\" may not depend on \"//a:k\" (visibility).\n";
    "ls out",
        "//BUILD.gn": "group(\"g\") {\n  deps = [ \":t\" ]\n}\ngroup(\"t\") {\n  testonly = true\n}\n",
        => 2 1 "ERROR at //BUILD.gn:1:1: \"//:g\" may not depend on \"//:t\" (testonly).\n";
    "ls out",
        "//BUILD.gn": "group(\"g\") {\n  deps = [ \":m\" ]\n  assert_no_deps = [ \"//a:*\" ]\n}\ngroup(\"m\") {\n  deps = [ \"//a:y\", \"//a:x\" ]\n}\n",
        "//a/BUILD.gn": "group(\"x\") {\n}\ngroup(\"y\") {\n}\n",
        => 3 1 "ERROR at //BUILD.gn:1:1: \"//:g\" must not reach \"//a:x\".\n";
    "ls out",
        "//BUILD.gn": "declare_args() {\n  x = 1\n}\ngroup(\"g\") {\n  deps = [ \"//a\", \":no\" ]\n}\n",
        "//a/BUILD.gn": "declare_args() {\n  x = 1\n}\ngroup(\"a\") {\n}\n",
        => 3 1 "ERROR at //a/BUILD.gn:2:5: Duplicate build argument \"x\".\n";
    "ls out a",
        "//BUILD.gn": "group(\"g\") {\n  deps = [ \"//a\" ]\n}\n",
        "//a/BUILD.gn": "group(\"a\") {\n}\n",
        => 3 1 "ERROR: Invalid pattern.\n";
};

const TOOLCHAINS: &str = toolchains! {
    // Under another toolchain a target is generated only where a generated target depends on it.
    "ls out",
        "//BUILD.gn": "group(\"g\") {\n  deps = [ \":k(//t:u)\" ]\n}\ngroup(\"k\") {\n}\nif (current_toolchain != default_toolchain) {\n  group(\"h\") {\n    deps = [ \":nope\" ]\n  }\n}\n",
        => 3 0 "//:g\n//:k\n//:k(//t:u)\n";
    // Labels go by their directories, names and toolchains, of which the default one is the first.
    "ls out",
        "//BUILD.gn": "group(\"g\") {\n  deps = [ \":k(//t:v)\", \":k(//t:u)\", \"//a:l(//t:u)\", \":k\" ]\n}\ngroup(\"k\") {\n}\ngroup(\"l\") {\n}\n",
        "//a/BUILD.gn": "group(\"l\") {\n  deps = [ \"//:l\" ]\n}\n",
        => 5 0 "//:g\n//:k\n//:k(//t:u)\n//:k(//t:v)\n//:l\n//:l(//t:u)\n//a:l(//t:u)\n";
    "ls out :k",
        "//BUILD.gn": "group(\"g\") {\n  deps = [ \":k(//t:v)\", \":k(//t:u)\" ]\n}\ngroup(\"k\") {\n}\n",
        => 4 0 "//:k\n//:k(//t:u)\n//:k(//t:v)\n";
    "ls out //:k(//t:t)",
        "//BUILD.gn": "group(\"g\") {\n  deps = [ \":k(//t:v)\", \":k(//t:u)\" ]\n}\ngroup(\"k\") {\n}\n",
        => 4 0 "//:k\n";
    "ls out //:*(//t:u)",
        "//BUILD.gn": "group(\"g\") {\n  deps = [ \":k(//t:v)\", \":k(//t:u)\" ]\n}\ngroup(\"k\") {\n}\n",
        => 4 0 "//:k(//t:u)\n";
    "ls out *(//t:v)",
        "//BUILD.gn": "group(\"g\") {\n  deps = [ \":k(//t:v)\", \":k(//t:u)\" ]\n}\ngroup(\"k\") {\n}\n",
        => 4 0 "//:k(//t:v)\n";
    // Each toolchain executes the build configuration, what it imports, and the rest; toolchains are defined under the default one
    // alone.
    "ls out",
        "//b.gn": "set_default_toolchain(\"//t:t\")\nprint(\"b\", current_toolchain)\nimport(\"//e.gni\")\n",
        "//e.gni": "print(\"e\", current_toolchain)\n",
        "//i.gni": "print(\"i\", current_toolchain)\n",
        "//BUILD.gn": "import(\"//i.gni\")\nprint(\"l\", current_toolchain)\ngroup(\"g\") {\n  deps = [ \"//a(//t:u)\" ]\n}\n",
        "//a/BUILD.gn": "print(\"a\", current_toolchain)\nimport(\"//i.gni\")\ntoolchain(q) {\n}\ngroup(\"a\") {\n}\n",
        => 3 0 "b \ne \ni //t:t\nl //t:t\nb //t:u\ne //t:u\ni //t:u\na //t:u\n//:g\n//a:a(//t:u)\n";
    // What a build configuration leaves stands beneath the files of its toolchain.
    "ls out",
        "//b.gn": "set_default_toolchain(\"//t:t\")\nx = current_toolchain\n",
        "//BUILD.gn": "print(x, default_toolchain, root_out_dir)\ngroup(\"g\") {\n  deps = [ \":k(//t:u)\" ]\n}\ngroup(\"k\") {\n}\n",
        => 3 0 " //t:t //out\n//t:u //t:t //out/u\n//:g\n//:k\n//:k(//t:u)\n";
    // The arguments of a toolchain win over all others under it, also in its build configuration.
    "ls out --args=x=3",
        "//b.gn": "set_default_toolchain(\"//t:t\")\ndeclare_args() {\n  x = 1\n}\nprint(x)\n",
        "//BUILD.gn": "print(x + 0)\ngroup(\"g\") {\n  deps = [ \":k(//t:u)\", \":k(//t:v)\" ]\n}\ngroup(\"k\") {\n}\n",
        => 4 0 "3\n3\n2\n2\n3\n3\n//:g\n//:k\n//:k(//t:u)\n//:k(//t:v)\n";
    // A toolchain that another directory defines.
    "ls out",
        "//BUILD.gn": "group(\"g\") {\n  deps = [ \":k(//w:w)\" ]\n}\ngroup(\"k\") {\n}\n",
        "//w/BUILD.gn": "toolchain(\"w\") {\n  tool(\"stamp\") {\n    command = \"touch {{output}}\"\n  }\n}\ngroup(\"x\") {\n}\n",
        => 4 0 "//:g\n//:k\n//:k(//w:w)\n//w:x\n";
    "ls out",
        "//BUILD.gn": "group(\"g\") {\n  deps = [ \":k(//w:w)\" ]\n}\ngroup(\"k\") {\n}\n",
        => 3 1 "ERROR at //w/BUILD.gn:1:1: No such file \"//w/BUILD.gn\".\n";
    // The pools of the tools of a toolchain under which a target is generated.
    "ls out",
        "//BUILD.gn": "group(\"g\") {\n  deps = [ \":k(//w:w)\" ]\n}\ngroup(\"k\") {\n}\n",
        "//w/BUILD.gn": "toolchain(\"w\") {\n  tool(\"stamp\") {\n    command = \"x\"\n    pool = \"//p:p\"\n  }\n}\n",
        => 5 1 "ERROR at //p/BUILD.gn:1:1: No such file \"//p/BUILD.gn\".\n";
    // Of the errors of one file that of the default toolchain comes first.
    "ls out",
        "//BUILD.gn": "group(\"g\") {\n  deps = [ \"//a\", \"//a(//t:u)\" ]\n}\n",
        "//a/BUILD.gn": "if (current_toolchain != default_toolchain) {\n  x = p\n}\nx = q\n",
        => 4 1 "ERROR at //a/BUILD.gn:4:5: Undefined identifier \"q\".\n";
    "ls out",
        "//BUILD.gn": "group(\"g\") {\n  deps = [ \"//a(//t:v)\", \"//a(//t:u)\" ]\n}\n",
        "//a/BUILD.gn": "if (current_toolchain == \"//t:v\") {\n  x = p\n}\nx = q\n",
        => 4 1 "ERROR at //a/BUILD.gn:4:5: Undefined identifier \"q\".\n";
    // Behind a build configuration that is wrong under its toolchain nothing is loaded.
    "ls out",
        "//b.gn": "set_default_toolchain(\"//t:t\")\nif (current_toolchain == \"//t:u\") {\n  x = q\n}\n",
        "//BUILD.gn": "group(\"g\") {\n  deps = [ \":k(//t:u)\", \"//a(//t:v)\" ]\n}\ngroup(\"k\") {\n}\n",
        "//a/BUILD.gn": "group(\"a\") {\n}\n",
        => 3 1 "ERROR at //b.gn:3:7: Undefined identifier \"q\".\n";
    // An argument that is declared at one place under two toolchains is declared once.
    "ls out --args=y=5",
        "//BUILD.gn": "declare_args() {\n  y = 1\n}\nprint(y)\ngroup(\"g\") {\n  deps = [ \":k(//t:v)\" ]\n}\ngroup(\"k\") {\n}\n",
        => 3 0 "5\n5\n//:g\n//:k\n//:k(//t:v)\n";
};

#[test]
fn builds_go_from_directory_to_directory(rt: HostRuntime) -> Result<(), Fail> {
    for row in DIRECTORIES.split_terminator('\x1e') {
        assert!(rt; line_holds(&rt, rt.alloc(), row)?, "at {row}");
    }
    Ok(())
}

#[test]
fn toolchains_are_loaded_behind_their_build_configurations(rt: HostRuntime) -> Result<(), Fail> {
    for row in TOOLCHAINS.split_terminator('\x1e') {
        assert!(rt; line_holds(&rt, rt.alloc(), row)?, "at {row}");
    }
    Ok(())
}

// Puts an import that imports the next one.
fn put_link(alloc: Global, tree: &mut Tree, n: u32) -> Result<(), AllocError> {
    let next = n.wrapping_add(1);
    let path = format!(in alloc; "//i{n}.gni")?;
    let text = format!(in alloc; "import(\"//i{next}.gni\")\n")?;
    tree.put(&path, text.as_bytes())
}

// A build file that imports the first of a chain of so many imports and one more, and needs this build file of `//a`.
fn chain(alloc: Global, links: u32, file: &str) -> Result<Tree, AllocError> {
    let mut tree = base_tree(alloc)?;
    tree.put(
        "//BUILD.gn",
        b"import(\"//i0.gni\")\ngroup(\"g\") {\n  deps = [ \"//a\" ]\n}\n",
    )?;
    tree.put("//a/BUILD.gn", file.as_bytes())?;
    for n in 0..links {
        put_link(alloc, &mut tree, n)?;
    }
    let last = format!(in alloc; "//i{links}.gni")?;
    tree.put(&last, b"")?;
    Ok(tree)
}

// Whether a build with such a chain ends so.
fn chain_says<R: Threads + Sync>(
    rt: &R,
    alloc: Global,
    links: u32,
    file: &str,
    end: &str,
) -> Result<bool, AllocError> {
    let tree = chain(alloc, links, file)?;
    tree_loads(rt, alloc, tree, 3, end)
}

// An import needs no more than 200 imports, itself counted; that it needs more stands before every other error of loading.
#[test]
fn an_import_needs_up_to_200_imports(rt: HostRuntime) -> Result<(), Fail> {
    let right = "group(\"a\") {\n}\n";
    let large = "1ERROR: The build is larger than a limit.\n";
    let wrong = "1ERROR at //a/BUILD.gn:1:5: Undefined identifier \"q\".\n";
    assert!(rt; chain_says(&rt, rt.alloc(), 199, right, "0//:g\n//a:a\n")?);
    assert!(rt; chain_says(&rt, rt.alloc(), 199, "x = q\n", wrong)?);
    assert!(rt; chain_says(&rt, rt.alloc(), 200, right, large)?);
    assert!(rt; chain_says(&rt, rt.alloc(), 200, "x = q\n", large)?);
    Ok(())
}

// Whether a command over a tree ends so and says this text, however many build files it loads.
fn ends<R: Threads + Sync>(
    rt: &R,
    alloc: Global,
    line: &str,
    tree: Tree,
    end: &str,
) -> Result<bool, AllocError> {
    let mut source = TreeSource::new(alloc, tree, Vec::new(alloc));
    let mut sink = TreeSink::new(alloc, Vec::new(alloc));
    let one = run(rt, alloc, line, &mut source, &mut sink)?;
    Ok(is_end(one.status, sink.said(), end))
}

// Puts the call that defines a toolchain, and a dependency on a target under it.
fn push_toolchain(
    alloc: Global,
    n: u32,
    defined: &mut Vec<u8>,
    needed: &mut Vec<u8>,
) -> Result<(), AllocError> {
    let call = format!(in alloc; "toolchain(\"n{n}\")")?;
    defined.extend_from_slice(call.as_bytes())?;
    defined.extend_from_slice(b" {\n  tool(\"stamp\") {\n    command = \"x\"\n  }\n}\n")?;
    let label = format!(in alloc; "    \":k(//n:n{n})\",\n")?;
    needed.extend_from_slice(label.as_bytes())
}

// A build of so many toolchains beside the default one.
fn many_toolchains(alloc: Global, count: u32) -> Result<Tree, AllocError> {
    let mut tree = base_tree(alloc)?;
    let mut defined = Vec::new(alloc);
    let mut needed = Vec::new(alloc);
    needed.extend_from_slice(b"group(\"k\") {\n}\ngroup(\"g\") {\n  deps = [\n")?;
    for n in 0..count {
        push_toolchain(alloc, n, &mut defined, &mut needed)?;
    }
    needed.extend_from_slice(b"  ]\n}\n")?;
    tree.put("//n/BUILD.gn", defined.as_slice())?;
    tree.put("//BUILD.gn", needed.as_slice())?;
    Ok(tree)
}

// A build has up to 256 toolchains, the default one counted.
#[test]
fn a_build_has_up_to_256_toolchains(rt: HostRuntime) -> Result<(), Fail> {
    let right = many_toolchains(rt.alloc(), 255)?;
    let large = many_toolchains(rt.alloc(), 256)?;
    assert!(rt; ends(&rt, rt.alloc(), "ls out //:g", right, "0//:g\n")?);
    assert!(rt;
        ends(
            &rt,
            rt.alloc(),
            "ls out //:g",
            large,
            "1ERROR: The build is larger than a limit.\n"
        )?
    );
    Ok(())
}

// A build of 20 wrong build files, which are needed from the last to the first.
fn wrong_files(alloc: Global) -> Result<Tree, AllocError> {
    let mut tree = base_tree(alloc)?;
    let mut needed = Vec::new(alloc);
    needed.extend_from_slice(b"group(\"g\") {\n  deps = [\n")?;
    for n in 0u32..20 {
        let last = 29u32.wrapping_sub(n);
        let label = format!(in alloc; "    \"//w{last}\",\n")?;
        needed.extend_from_slice(label.as_bytes())?;
        let path = format!(in alloc; "//w{last}/BUILD.gn")?;
        tree.put(&path, b"x = q\n")?;
    }
    needed.extend_from_slice(b"  ]\n}\n")?;
    tree.put("//BUILD.gn", needed.as_slice())?;
    Ok(tree)
}

// Of the errors of many files the least is told, and all of them are loaded.
#[test]
fn the_least_of_twenty_errors_is_told(rt: HostRuntime) -> Result<(), Fail> {
    let tree = wrong_files(rt.alloc())?;
    let end = "1ERROR at //w10/BUILD.gn:1:5: Undefined identifier \"q\".\n";
    assert!(rt; tree_loads(&rt, rt.alloc(), tree, 22, end)?);
    Ok(())
}

// What two toolchains execute is read once.
const TWICE: &str = concat!(
    "//t/BUILD.gn\x1ftoolchain(\"t\") {\n  tool(\"stamp\") {\n    command = \"touch {{output}}\"\n  }\n}\ntoolchain(\"u\") {\n  tool(\"stamp\") {\n    command = \"touch {{output}}\"\n  }\n}\n\x1d",
    "//BUILD.gn\x1fimport(\"//i.gni\")\ngroup(\"g\") {\n  deps = [ \":k(//t:u)\" ]\n}\ngroup(\"k\") {\n}\n\x1d",
    "//i.gni\x1f\x1d",
);

// Whether a run over it has read six files.
fn six_are_read<R: Threads + Sync>(rt: &R, alloc: Global) -> Result<bool, AllocError> {
    let tree = tree_of(alloc, TWICE)?;
    let mut source = TreeSource::new(alloc, tree, Vec::new(alloc));
    let mut sink = TreeSink::new(alloc, Vec::new(alloc));
    let one = run(rt, alloc, "ls out", &mut source, &mut sink)?;
    Ok(one.units == 3 && source.read_path(5).is_some() && source.read_path(6).is_none())
}

#[test]
fn what_two_toolchains_execute_is_read_once(rt: HostRuntime) -> Result<(), Fail> {
    assert!(rt; six_are_read(&rt, rt.alloc())?);
    Ok(())
}
