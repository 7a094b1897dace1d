// Builds, stage by stage: the dotfile, the build arguments, the build configuration and the build files. The expected texts stand in
// docs/OUTPUT.md.

use crate::runs::line_holds;
use std::test::Fail;

// A command line, the files of a tree over one whose build configuration names its default toolchain, how many build files are
// loaded, the status and the text.
macro_rules! builds {
    ($($line:literal, $($path:literal: $file:literal,)* => $units:literal $status:literal $text:literal;)+) => {
        concat!($($line, "\x1c", $($path, "\x1f", $file, "\x1d",)* "\x1c", $units, $status, $text, "\x1e"),+)
    };
}

const DOTFILES: &str = builds! {
    // The dotfile is the first file, and then the arguments.
    "ls out",
        "//.gn": "x = \n",
        "//out/args.gn": "y = \n",
        "//b.gn": "z = \n",
        => 0 1 "ERROR at //.gn:2:1: Unexpected token.\n";
    "ls out",
        "//out/args.gn": "y = \n",
        "//b.gn": "z = \n",
        => 0 1 "ERROR at //out/args.gn:2:1: Unexpected token.\n";
    "ls out",
        "//b.gn": "z = \n",
        => 0 1 "ERROR at //b.gn:2:1: Unexpected token.\n";
    "ls out",
        "//.gn": "",
        => 0 1 "ERROR at //.gn:1:1: \"buildconfig\" is missing.\n";
    "ls out",
        "//.gn": "buildconfig = \"//b.gn/\"",
        => 0 1 "ERROR at //b.gn/:1:1: No such file \"//b.gn/\".\n";
    "ls out",
        "//.gn": "buildconfig = \"//d/c.gn\"",
        => 0 1 "ERROR at //d/c.gn:1:1: No such file \"//d/c.gn\".\n";
    "ls out",
        "//.gn": "buildconfig = \"//d/c.gn\"\nsecondary_source = \"//s\"",
        => 0 1 "ERROR at //d/c.gn:1:1: No such file \"//d/c.gn\".\n";
    "ls out",
        "//.gn": "buildconfig = \"//d/c.gn\"\nsecondary_source = \"//s/\"",
        "//s/d/c.gn": "x = y",
        => 0 1 "ERROR at //s/d/c.gn:1:5: Undefined identifier \"y\".\n";
    "ls out",
        "//.gn": "buildconfig = \"//d/c.gn\"\nsecondary_source = \"//s\"",
        "//s/d/c.gn": "set_default_toolchain(\":t\")\nprint(target_gen_dir)",
        "//s/d/BUILD.gn": "print(target_gen_dir)\ntoolchain(\"t\") {\n}",
        "//BUILD.gn": "print(default_toolchain)",
        => 2 0 "//out/gen/d\n//d:t\n//out/gen/d\n";
    "ls out",
        "//.gn": "buildconfig = \"//d/c.gn\"\nsecondary_source = \"//s\"",
        "//d/c.gn": "set_default_toolchain(\":t\")",
        "//d/BUILD.gn": "toolchain(\"t\") {\n}",
        "//s/d/c.gn": "x = y",
        "//BUILD.gn": "",
        => 2 0 "";
    "ls out",
        "//.gn": "buildconfig = \"//d/c.gn\"\nsecondary_source = \"//s\"",
        "//s/d/c.gn": "",
        => 0 1 "ERROR at //s/d/c.gn:1:1: \"set_default_toolchain\" is missing.\n";
    // A file of the first stage may be run again, as another one.
    "ls out",
        "//.gn": "buildconfig = \"//.gn\"",
        => 0 1 "ERROR at //.gn:1:1: \"set_default_toolchain\" is missing.\n";
    "ls .gn --args=",
        "//BUILD.gn": "print(root_build_dir)",
        => 2 0 "//.gn\n";
    "ls out",
        "//out/args.gn": "print(current_toolchain)",
        "//BUILD.gn": "import(\"//out/args.gn\")",
        => 2 0 "\n//t:t\n";
    // Lines come in the order of the files.
    "ls out",
        "//.gn": "print(1)\nbuildconfig = \"//b.gn\"",
        "//out/args.gn": "print(2)",
        "//b.gn": "print(3)\nimport(\"//z.gni\")\nimport(\"//e.gni\")\nset_default_toolchain(\"//:t\")",
        "//e.gni": "print(4)",
        "//z.gni": "print(5)",
        "//a.gni": "print(6)",
        "//BUILD.gn": "print(7)\nimport(\"//a.gni\")\ntoolchain(\"t\") {\n}",
        => 1 0 "1\n2\n3\n4\n5\n6\n7\n";
};

const CONFIGURATIONS: &str = builds! {
    // The default toolchain has to be named, and the last call counts.
    "ls out",
        "//b.gn": "",
        "//BUILD.gn": "",
        => 0 1 "ERROR at //b.gn:1:1: \"set_default_toolchain\" is missing.\n";
    "ls out",
        "//b.gn": "set_default_toolchain(\"//a:b(//c:d)\")\nset_default_toolchain(\":e\")\nprint(current_toolchain)",
        "//BUILD.gn": "print(current_toolchain, default_toolchain)\ngroup(\"g\") {\n}\ntoolchain(\"e\") {\n  tool(\"stamp\") {\n    command = \"touch {{output}}\"\n  }\n}",
        => 1 0 "\n//:e //:e\n//:g\n";
    "ls out //:g(//a:b)",
        "//b.gn": "set_default_toolchain(\"//a:b(//c:d)\")",
        "//a/BUILD.gn": "toolchain(\"b\") {\n  tool(\"stamp\") {\n    command = \"touch {{output}}\"\n  }\n}",
        "//BUILD.gn": "print(get_label_info(\":g\", \"label_with_toolchain\"), root_out_dir)\ngroup(\"g\") {\n}",
        => 2 0 "//:g(//a:b) //out\n//:g\n";
    "ls out",
        "//b.gn": "set_default_toolchain(\"b\")",
        "//BUILD.gn": "",
        => 0 1 "ERROR at //b.gn:1:23: Invalid label.\n";
    "ls out",
        "//b.gn": "set_default_toolchain(1)",
        "//BUILD.gn": "",
        => 0 1 "ERROR at //b.gn:1:23: Wrong type of value.\n";
    "ls out",
        "//BUILD.gn": "set_default_toolchain(\"//:t\")",
        => 2 1 "ERROR at //BUILD.gn:1:1: \"set_default_toolchain\" is not allowed here.\n";
    // What it leaves stands beneath the build file and its imports, which can't change it.
    "ls out",
        "//b.gn": "set_default_toolchain(\"//:t\")\nx = [ 1 ]\n_y = 2\ntemplate(\"t\") {\n  print(target_name, x)\n}\nset_defaults(\"t\") {\n  d = 1\n}",
        "//a.gni": "print(x)\nx += [ 2 ]",
        "//BUILD.gn": "import(\"//a.gni\")\nprint(x, _y)\nt(\"n\") {\n  print(d)\n}\ntoolchain(\"t\") {\n}",
        => 1 0 "[1]\n[1, 2] 2\n1\nn [1]\n";
    "ls out",
        "//b.gn": "set_default_toolchain(\"//:t\")\ngroup(\"g\") {\n}",
        "//BUILD.gn": "",
        => 0 1 "ERROR at //b.gn:2:1: \"group\" is not allowed here.\n";
    // Nothing that it sets has to be read.
    "ls out",
        "//b.gn": "set_default_toolchain(\"//:t\")\nx = 1",
        "//BUILD.gn": "toolchain(\"t\") {\n}",
        => 1 0 "";
    // Its imports are early: they see the built-in variables alone, and are kept apart.
    "ls out",
        "//b.gn": "set_default_toolchain(\"//:t\")\nx = 1\nimport(\"//a.gni\")",
        "//a.gni": "print(defined(x), host_os, root_build_dir)",
        "//BUILD.gn": "import(\"//a.gni\")\ntoolchain(\"t\") {\n}",
        => 1 0 "false linux //out\ntrue linux //out\n";
    "ls out",
        "//b.gn": "import(\"//b.gn\")\nset_default_toolchain(\"//:t\")",
        "//BUILD.gn": "",
        => 0 1 "ERROR at //b.gn:1:1: Import cycle.\n";
    "ls out",
        "//b.gn": "import(\"//a.gni\")",
        "//a.gni": "x = y",
        "//BUILD.gn": "",
        => 0 1 "ERROR at //a.gni:1:5: Undefined identifier \"y\".\n";
    "ls out",
        "//b.gn": "import(\"//a.gni\")",
        "//a.gni": "set_default_toolchain(\"//:t\")",
        "//BUILD.gn": "",
        => 0 1 "ERROR at //a.gni:1:1: \"set_default_toolchain\" is not allowed here.\n";
    // A fault of the pattern comes behind those of the build.
    "ls out b",
        "//BUILD.gn": "x = y",
        => 2 1 "ERROR at //BUILD.gn:1:5: Undefined identifier \"y\".\n";
    "ls out b",
        => 2 1 "ERROR at //BUILD.gn:1:1: No such file \"//BUILD.gn\".\n";
};

const ARGUMENTS: &str = builds! {
    // Later ones win: the default in the block, those of the dotfile, those that are kept or those of the command line.
    "ls out",
        "//BUILD.gn": "declare_args() {\n  x = 1\n}\nprint(x)",
        => 2 0 "1\n";
    "ls out",
        "//.gn": "buildconfig = \"//b.gn\"\ndefault_args = {\n  x = 2\n  y = 2\n}",
        "//BUILD.gn": "declare_args() {\n  x = 1\n}\nprint(x)",
        => 2 0 "2\n";
    "ls out",
        "//.gn": "buildconfig = \"//b.gn\"\ndefault_args = {\n  x = 2\n}",
        "//out/args.gn": "x = 3",
        "//BUILD.gn": "declare_args() {\n  x = 1\n}\nprint(x)",
        => 2 0 "3\n";
    "ls out --args=x=4",
        "//out/args.gn": "x = 3\ny = 1",
        "//BUILD.gn": "declare_args() {\n  x = 1\n}\nprint(x)",
        => 2 0 "4\n";
    "ls out --args=",
        "//out/args.gn": "x =",
        "//BUILD.gn": "print(1)",
        => 2 0 "1\n";
    "ls out --args=x=",
        "//BUILD.gn": "",
        => 0 1 "ERROR at --args:1:3: Unexpected token.\n";
    "ls out --args=x=y --args=x=1",
        "//BUILD.gn": "",
        => 2 0 "WARNING: The build argument \"x\" has no effect.\n";
    // Names of no effect, in their order, behind the lines and before the labels.
    "ls out",
        "//out/args.gn": "z = 1\nhost_os = \"h\"\nroot_out_dir = 1\na = 1\nx = 2",
        "//b.gn": "set_default_toolchain(\"//:t\")\ndeclare_args() {\n  x = 1\n}",
        "//BUILD.gn": "print(x, host_os, root_out_dir)\ngroup(\"g\") {\n}\ntoolchain(\"t\") {\n  tool(\"stamp\") {\n    command = \"touch {{output}}\"\n  }\n}",
        => 1 0 "2 h //out\nWARNING: The build argument \"a\" has no effect.\nWARNING: The build argument \"z\" has no effect.\n//:g\n";
    // It can't be read in its block.
    "ls out",
        "//BUILD.gn": "declare_args() {\n  x = 1\n  y = x\n}",
        => 2 1 "ERROR at //BUILD.gn:3:7: Undefined identifier \"x\".\n";
    // An argument that is declared twice: at each place but the least one of its name.
    "ls out",
        "//BUILD.gn": "import(\"//a.gni\")\nimport(\"//c.gni\")",
        "//a.gni": "declare_args() {\n  _x = 1\n  _y = 1\n}",
        "//c.gni": "declare_args() {\n  _y = 1\n  _x = 1\n}",
        => 2 1 "ERROR at //c.gni:2:6: Duplicate build argument \"_y\".\n";
    // The same place twice is one: early and usual.
    "ls out --args=x=2",
        "//b.gn": "set_default_toolchain(\"//:t\")\nimport(\"//a.gni\")",
        "//a.gni": "declare_args() {\n  x = 1\n}",
        "//BUILD.gn": "import(\"//a.gni\")\nprint(x)\ntoolchain(\"t\") {\n}",
        => 1 0 "2\n";
    // Faults of the build come first, then those of the pattern.
    "ls out b",
        "//BUILD.gn": "declare_args() {\n  x = 1\n}\ntoolchain(\"t\") {\n}",
        "//b.gn": "set_default_toolchain(\"//:t\")\ndeclare_args() {\n  x = 1\n}",
        => 1 1 "ERROR at //b.gn:3:5: Duplicate build argument \"x\".\n";
    "ls out",
        "//BUILD.gn": "group(\"g\") {\n  declare_args() {\n  }\n}",
        => 2 1 "ERROR at //BUILD.gn:2:3: \"declare_args\" is not allowed here.\n";
};

#[test]
fn builds_go_from_file_to_file(rt: HostRuntime) -> Result<(), Fail> {
    for row in DOTFILES.split_terminator('\x1e') {
        assert!(rt; line_holds(&rt, rt.alloc(), row)?, "at {row}");
    }
    Ok(())
}

#[test]
fn build_configurations_stand_beneath_build_files(rt: HostRuntime) -> Result<(), Fail> {
    for row in CONFIGURATIONS.split_terminator('\x1e') {
        assert!(rt; line_holds(&rt, rt.alloc(), row)?, "at {row}");
    }
    Ok(())
}

#[test]
fn build_arguments_override_their_defaults(rt: HostRuntime) -> Result<(), Fail> {
    for row in ARGUMENTS.split_terminator('\x1e') {
        assert!(rt; line_holds(&rt, rt.alloc(), row)?, "at {row}");
    }
    Ok(())
}
