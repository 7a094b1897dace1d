// What `gen` puts and says of what is compiled and linked, and of several toolchains. The expected files stand in docs/OUTPUT.md.

use crate::puts::holds;
use std::test::Fail;

// Rows as in `puts`.
macro_rules! runs {
    ($($line:literal, $($path:literal: $($piece:literal)+,)* puts $($put:literal: $($block:literal)+,)* => $status:literal $text:literal;)+) => {
        concat!($($line, "\x1c", $($path, "\x1f", $($piece,)+ "\x1d",)* "\x1c", $status, $($put, "\x1f", $($block,)+ "\x1d",)* $text, "\x1e"),+)
    };
}

// The same over a toolchain that compiles and links: of its file the lines are given that name targets.
macro_rules! linked {
    ($($line:literal, $($path:literal: $($piece:literal)+,)* puts $($put:literal: $($block:literal)+,)* toolchain $targets:literal,
        $($later:literal: $($end:literal)+,)* => $status:literal $text:literal;)+) => {
        runs! { $($line,
            "//t/BUILD.gn":
                "toolchain(\"t\") {\n"
                "  lib = \"{{output_dir}}/{{target_output_name}}{{output_extension}}\"\n"
                "  tool(\"alink\") {\n    command = \"ar {{output}} {{inputs}}\"\n    outputs = [ \"{{target_out_dir}}/{{target_output_name}}{{output_extension}}\" ]\n    default_output_extension = \".a\"\n    output_prefix = \"lib\"\n  }\n"
                "  tool(\"cc\") {\n    command = \"cc {{defines}} {{include_dirs}} {{cflags}} {{cflags_c}} {{source}} {{output}}\"\n    outputs = [ \"{{source_out_dir}}/{{target_output_name}}.{{source_name_part}}.o\" ]\n    depfile = \"{{output}}.d\"\n    depsformat = \"gcc\"\n  }\n"
                "  tool(\"copy\") {\n    command = \"cp {{source}} {{output}}\"\n  }\n"
                "  tool(\"cxx\") {\n    command = \"c++ {{defines}} {{include_dirs}} {{cflags}} {{cflags_cc}} {{source}} {{output}}\"\n    outputs = [ \"{{source_out_dir}}/{{target_output_name}}.{{source_name_part}}.o\" ]\n    description = \"CXX {{output}}\"\n  }\n"
                "  tool(\"link\") {\n    command = \"ld {{ldflags}} {{output}} {{inputs}} {{solibs}} {{libs}}\"\n    outputs = [ lib ]\n    lib_switch = \"-l\"\n    lib_dir_switch = \"-L\"\n    rspfile = \"{{output}}.rsp\"\n    rspfile_content = \"{{inputs_newline}}\"\n  }\n"
                "  tool(\"solink\") {\n    command = \"ld -shared {{ldflags}} {{output}} {{inputs}}\"\n    outputs = [ lib, \"$lib.TOC\" ]\n    link_output = lib\n    depend_output = \"$lib.TOC\"\n    default_output_extension = \".so\"\n    output_prefix = \"lib\"\n    restat = true\n  }\n"
                "  tool(\"stamp\") {\n    command = \"touch {{output}}\"\n  }\n"
                "}\n",
            $($path: $($piece)+,)*
            puts
            $($put: $($block)+,)*
            "//out/toolchain.ninja":
                "rule alink\n  command = ar ${out} ${in}\n\n"
                "rule cc\n  command = cc ${defines} ${include_dirs} ${cflags} ${cflags_c} ${in} ${out}\n  depfile = ${out}.d\n  deps = gcc\n\n"
                "rule copy\n  command = cp ${in} ${out}\n\n"
                "rule cxx\n  command = c++ ${defines} ${include_dirs} ${cflags} ${cflags_cc} ${in} ${out}\n  description = CXX ${out}\n\n"
                "rule link\n  command = ld ${ldflags} ${out} ${in} ${solibs} ${libs}\n  rspfile = ${out}.rsp\n  rspfile_content = ${in_newline}\n\n"
                "rule solink\n  command = ld -shared ${ldflags} ${out} ${in}\n  restat = 1\n\n"
                "rule stamp\n  command = touch ${out}\n"
                $targets,
            $($later: $($end)+,)*
            => $status $text;
        )+ }
    };
}

const LINKED: &str = linked! {
    // An executable of C and C++ and a static library, with flags of its own and of a configuration.
    "gen out",
        "//BUILD.gn": "executable(\"app\") {\n  sources = [ \"main.cc\", \"util.c\", \"util.h\" ]\n  include_dirs = [ \".\" ]\n  cflags = [ \"-g\" ]\n  cflags_c = [ \"-std=c11\" ]\n  ldflags = [ \"-s\" ]\n  libs = [ \"m\", \"//third/x.a\" ]\n  lib_dirs = [ \"//third\" ]\n  deps = [ \"//lib:base\" ]\n}\n",
        "//lib/BUILD.gn":
            "config(\"inc\") {\n  include_dirs = [ \"include\" ]\n  defines = [ \"LIB=1\", \"NAME=\\\"a b\\\"\" ]\n}\n"
            "static_library(\"base\") {\n  sources = [ \"base.c\" ]\n  public_configs = [ \":inc\" ]\n  libs = [ \"z\" ]\n}\n",
        puts
        "//out/build.ninja":
            "ninja_required_version = 1.7.2\n\n"
            "subninja toolchain.ninja\n\n"
            "build $:app: phony app\nbuild base: phony obj/lib/libbase.a\nbuild lib$:base: phony obj/lib/libbase.a\n\n"
            "build all: phony app obj/lib/libbase.a\n\n"
            "default all\n",
        "//out/obj/app.ninja":
            "asmflags =\ncflags = -g\ncflags_c = -std=c11\ncflags_cc =\ndefines = -DLIB=1 \"-DNAME=\\\"a b\\\"\"\ninclude_dirs = -I.. -I../lib/include\nlabel = //:app\nlabel_name = app\nldflags = -s -L../third\nlibs = -lm ../third/x.a -lz\noutput_dir = .\noutput_extension =\nroot_out_dir = .\nsolibs =\ntarget_out_dir = obj\ntarget_output_name = app\n\n"
            "build obj/app.main.o: cxx ../main.cc\n  source_file_part = main.cc\n  source_name_part = main\n\n"
            "build obj/app.util.o: cc ../util.c\n  source_file_part = util.c\n  source_name_part = util\n\n"
            "build app: link obj/app.main.o obj/app.util.o obj/lib/libbase.a\n",
        "//out/obj/lib/base.ninja":
            "asmflags =\ncflags =\ncflags_c =\ncflags_cc =\ndefines = -DLIB=1 \"-DNAME=\\\"a b\\\"\"\ninclude_dirs = -I../lib/include\nlabel = //lib:base\nlabel_name = base\nldflags =\nlibs =\noutput_dir = .\noutput_extension = .a\nroot_out_dir = .\nsolibs =\ntarget_out_dir = obj/lib\ntarget_output_name = libbase\n\n"
            "build obj/lib/libbase.base.o: cc ../lib/base.c\n  source_file_part = base.c\n  source_name_part = base\n\n"
            "build obj/lib/libbase.a: alink obj/lib/libbase.base.o\n",
        toolchain "\nsubninja obj/app.ninja\nsubninja obj/lib/base.ninja\n",
        => 0 "Done. Made 2 targets from 3 files\n";
    // A shared library has the objects of a source set. What depends on it is linked with one of its files, and made again
    // after another.
    "gen out",
        "//BUILD.gn":
            "executable(\"app\") {\n  sources = [ \"main.cc\" ]\n  output_dir = \"$root_out_dir/bin\"\n  output_extension = \"bin\"\n  deps = [ \":dyn\" ]\n  data_deps = [ \":data\" ]\n}\n"
            "group(\"data\") {\n}\n"
            "shared_library(\"dyn\") {\n  sources = [ \"dyn.c\" ]\n  deps = [ \":set\" ]\n}\n"
            "source_set(\"set\") {\n  sources = [ \"set.c\", \"given.o\" ]\n}\n",
        puts
        "//out/build.ninja":
            "ninja_required_version = 1.7.2\n\n"
            "subninja toolchain.ninja\n\n"
            "build $:app: phony bin/app.bin\nbuild $:data: phony obj/data.stamp\nbuild $:dyn: phony libdyn.so.TOC\nbuild $:set: phony obj/set.stamp\nbuild app: phony bin/app.bin\nbuild data: phony obj/data.stamp\nbuild dyn: phony libdyn.so.TOC\nbuild set: phony obj/set.stamp\n\n"
            "build all: phony bin/app.bin obj/data.stamp libdyn.so.TOC obj/set.stamp\n\n"
            "default all\n",
        "//out/obj/app.ninja":
            "asmflags =\ncflags =\ncflags_c =\ncflags_cc =\ndefines =\ninclude_dirs =\nlabel = //:app\nlabel_name = app\nldflags =\nlibs =\noutput_dir = bin\noutput_extension = .bin\nroot_out_dir = .\nsolibs = libdyn.so\ntarget_out_dir = obj\ntarget_output_name = app\n\n"
            "build obj/app.main.o: cxx ../main.cc\n  source_file_part = main.cc\n  source_name_part = main\n\n"
            "build bin/app.bin: link obj/app.main.o | libdyn.so.TOC || obj/data.stamp\n",
        "//out/obj/data.ninja": "build obj/data.stamp: stamp\n",
        "//out/obj/dyn.ninja":
            "asmflags =\ncflags =\ncflags_c =\ncflags_cc =\ndefines =\ninclude_dirs =\nlabel = //:dyn\nlabel_name = dyn\nldflags =\nlibs =\noutput_dir = .\noutput_extension = .so\nroot_out_dir = .\nsolibs =\ntarget_out_dir = obj\ntarget_output_name = libdyn\n\n"
            "build obj/libdyn.dyn.o: cc ../dyn.c\n  source_file_part = dyn.c\n  source_name_part = dyn\n\n"
            "build libdyn.so libdyn.so.TOC: solink obj/libdyn.dyn.o obj/set.set.o ../given.o\n",
        "//out/obj/set.ninja":
            "asmflags =\ncflags =\ncflags_c =\ncflags_cc =\ndefines =\ninclude_dirs =\nlabel = //:set\nlabel_name = set\nldflags =\nlibs =\noutput_dir = .\noutput_extension =\nroot_out_dir = .\nsolibs =\ntarget_out_dir = obj\ntarget_output_name = set\n\n"
            "build obj/set.set.o: cc ../set.c\n  source_file_part = set.c\n  source_name_part = set\n\n"
            "build obj/set.stamp: stamp obj/set.set.o ../given.o\n",
        toolchain "\nsubninja obj/app.ninja\nsubninja obj/data.ninja\nsubninja obj/dyn.ninja\nsubninja obj/set.ninja\n",
        => 0 "Done. Made 4 targets from 2 files\n";
    // Sources are compiled behind the actions and copies that the target reaches without data.
    "gen out",
        "//BUILD.gn":
            "executable(\"app\") {\n  sources = [ \"main.c\" ]\n  inputs = [ \"main.in\" ]\n  deps = [ \":z\", \":g\" ]\n  data_deps = [ \":d\" ]\n}\n"
            "group(\"g\") {\n  public_deps = [ \":act\" ]\n}\n"
            "action(\"act\") {\n  script = \"act.py\"\n  outputs = [ \"$target_gen_dir/act.h\" ]\n}\n"
            "copy(\"z\") {\n  sources = [ \"z.in\" ]\n  outputs = [ \"$target_gen_dir/z\" ]\n}\n"
            "copy(\"d\") {\n  sources = [ \"d.in\" ]\n  outputs = [ \"$target_gen_dir/d\" ]\n}\n",
        puts
        "//out/build.ninja":
            "ninja_required_version = 1.7.2\n\n"
            "subninja toolchain.ninja\n\n"
            "build $:act: phony obj/act.stamp\nbuild $:app: phony app\nbuild $:d: phony obj/d.stamp\nbuild $:g: phony obj/g.stamp\nbuild $:z: phony obj/z.stamp\nbuild act: phony obj/act.stamp\nbuild d: phony obj/d.stamp\nbuild g: phony obj/g.stamp\nbuild z: phony obj/z.stamp\n\n"
            "build all: phony obj/act.stamp app obj/d.stamp obj/g.stamp obj/z.stamp\n\n"
            "default all\n",
        "//out/obj/act.ninja":
            "rule _2f_2f_3aact_28_2f_2ft_3at_29\n  command = python3 ../act.py ${args}\n  description = ACTION //:act\n  restat = 1\n\n"
            "build gen/act.h: _2f_2f_3aact_28_2f_2ft_3at_29 | ../act.py\n  args =\n\n"
            "build obj/act.stamp: stamp gen/act.h\n",
        "//out/obj/app.ninja":
            "asmflags =\ncflags =\ncflags_c =\ncflags_cc =\ndefines =\ninclude_dirs =\nlabel = //:app\nlabel_name = app\nldflags =\nlibs =\noutput_dir = .\noutput_extension =\nroot_out_dir = .\nsolibs =\ntarget_out_dir = obj\ntarget_output_name = app\n\n"
            "build obj/app.main.o: cc ../main.c | ../main.in || obj/act.stamp obj/z.stamp\n  source_file_part = main.c\n  source_name_part = main\n\n"
            "build app: link obj/app.main.o || obj/z.stamp obj/g.stamp obj/d.stamp\n",
        "//out/obj/d.ninja":
            "build gen/d: copy ../d.in\n\n"
            "build obj/d.stamp: stamp gen/d\n",
        "//out/obj/g.ninja": "build obj/g.stamp: stamp obj/act.stamp\n",
        "//out/obj/z.ninja":
            "build gen/z: copy ../z.in\n\n"
            "build obj/z.stamp: stamp gen/z\n",
        toolchain "\nsubninja obj/act.ninja\nsubninja obj/app.ninja\nsubninja obj/d.ninja\nsubninja obj/g.ninja\nsubninja obj/z.ninja\n",
        => 0 "Done. Made 5 targets from 2 files\n";
};

const TOOLCHAINS: &str = runs! {
    // Two toolchains: the rules of the other one have its name before them, and all that it makes stands in its directory.
    "gen out",
        "//t/BUILD.gn":
            "toolchain(\"t\") {\n  tool(\"cc\") {\n    command = \"cc {{source}} {{output}}\"\n    outputs = [ \"{{source_out_dir}}/{{source_name_part}}.o\" ]\n  }\n  tool(\"link\") {\n    command = \"ld {{inputs}} {{output}}\"\n    outputs = [ \"{{root_out_dir}}/{{target_output_name}}\" ]\n  }\n  tool(\"stamp\") {\n    command = \"touch {{output}}\"\n  }\n}\n"
            "toolchain(\"u-v\") {\n  tool(\"cc\") {\n    command = \"cc -u {{source}} {{output}}\"\n    outputs = [ \"{{source_out_dir}}/{{source_name_part}}.o\" ]\n  }\n  tool(\"link\") {\n    command = \"ld -u {{inputs}} {{output}}\"\n    description = \"LINK {{label_no_toolchain}}\"\n    outputs = [ \"{{root_out_dir}}/{{target_output_name}}\" ]\n  }\n}\n",
        "//BUILD.gn":
            "group(\"g\") {\n  deps = [ \":k(//t:u-v)\" ]\n}\n"
            "executable(\"k\") {\n  sources = [ \"k.c\" ]\n  defines = [ \"T=$current_toolchain\" ]\n}\n",
        puts
        "//out/build.ninja":
            "ninja_required_version = 1.7.2\n\n"
            "subninja toolchain.ninja\nsubninja u-v/toolchain.ninja\n\n"
            "build $:g: phony obj/g.stamp\nbuild $:k: phony k\nbuild g: phony obj/g.stamp\n\n"
            "build all: phony obj/g.stamp k\n\n"
            "default all\n",
        "//out/obj/g.ninja": "build obj/g.stamp: stamp u-v/k\n",
        "//out/obj/k.ninja":
            "asmflags =\ncflags =\ncflags_c =\ncflags_cc =\ndefines = -DT=//t:t\ninclude_dirs =\nlabel = //:k\nlabel_name = k\nldflags =\nlibs =\noutput_dir = .\noutput_extension =\nroot_out_dir = .\nsolibs =\ntarget_out_dir = obj\ntarget_output_name = k\n\n"
            "build obj/k.o: cc ../k.c\n  source_file_part = k.c\n  source_name_part = k\n\n"
            "build k: link obj/k.o\n",
        "//out/toolchain.ninja":
            "rule cc\n  command = cc ${in} ${out}\n\n"
            "rule link\n  command = ld ${in} ${out}\n\n"
            "rule stamp\n  command = touch ${out}\n\n"
            "subninja obj/g.ninja\nsubninja obj/k.ninja\n",
        "//out/u-v/obj/k.ninja":
            "asmflags =\ncflags =\ncflags_c =\ncflags_cc =\ndefines = -DT=//t:u-v\ninclude_dirs =\nlabel = //:k(//t:u-v)\nlabel_name = k\nlabel_no_toolchain = //:k\nldflags =\nlibs =\noutput_dir = u-v\noutput_extension =\nroot_out_dir = u-v\nsolibs =\ntarget_out_dir = u-v/obj\ntarget_output_name = k\n\n"
            "build u-v/obj/k.o: u_2dv_cc ../k.c\n  source_file_part = k.c\n  source_name_part = k\n\n"
            "build u-v/k: u_2dv_link u-v/obj/k.o\n",
        "//out/u-v/toolchain.ninja":
            "rule u_2dv_cc\n  command = cc -u ${in} ${out}\n\n"
            "rule u_2dv_link\n  command = ld -u ${in} ${out}\n  description = LINK ${label_no_toolchain}\n\n"
            "subninja u-v/obj/k.ninja\n",
        => 0 "Done. Made 3 targets from 2 files\n";
    // Files of toolchains stand by their texts, and in the order of paths they may stand before build.ninja.
    "gen out",
        "//t/BUILD.gn":
            "toolchain(\"t\") {\n  tool(\"stamp\") {\n    command = \"touch {{output}}\"\n  }\n}\n"
            "toolchain(\"b\") {\n  tool(\"stamp\") {\n    command = \"b {{output}}\"\n  }\n}\n",
        "//t/a/BUILD.gn": "toolchain(\"c\") {\n  tool(\"stamp\") {\n    command = \"c {{output}}\"\n  }\n}\n",
        "//BUILD.gn": "group(\"g\") {\n  deps = [ \":k(//t:b)\", \":k(//t/a:c)\" ]\n}\ngroup(\"k\") {\n}\n",
        puts
        "//out/b/obj/k.ninja": "build b/obj/k.stamp: b_stamp\n",
        "//out/b/toolchain.ninja":
            "rule b_stamp\n  command = b ${out}\n\n"
            "subninja b/obj/k.ninja\n",
        "//out/build.ninja":
            "ninja_required_version = 1.7.2\n\n"
            "subninja toolchain.ninja\nsubninja c/toolchain.ninja\nsubninja b/toolchain.ninja\n\n"
            "build $:g: phony obj/g.stamp\nbuild $:k: phony obj/k.stamp\nbuild g: phony obj/g.stamp\nbuild k: phony obj/k.stamp\n\n"
            "build all: phony obj/g.stamp obj/k.stamp\n\n"
            "default all\n",
        "//out/c/obj/k.ninja": "build c/obj/k.stamp: c_stamp\n",
        "//out/c/toolchain.ninja":
            "rule c_stamp\n  command = c ${out}\n\n"
            "subninja c/obj/k.ninja\n",
        "//out/obj/g.ninja": "build obj/g.stamp: stamp b/obj/k.stamp c/obj/k.stamp\n",
        "//out/obj/k.ninja": "build obj/k.stamp: stamp\n",
        "//out/toolchain.ninja":
            "rule stamp\n  command = touch ${out}\n\n"
            "subninja obj/g.ninja\nsubninja obj/k.ninja\n",
        => 0 "Done. Made 4 targets from 3 files\n";
    // Pools that a tool and targets name. Ninja's own one isn't written.
    "gen out",
        "//t/BUILD.gn": "toolchain(\"t\") {\n  tool(\"stamp\") {\n    command = \"touch {{output}}\"\n    pool = \"//:two\"\n  }\n}\n",
        "//BUILD.gn":
            "pool(\"console\") {\n  depth = 1\n}\n"
            "pool(\"two\") {\n  depth = 2\n}\n"
            "pool(\"unused\") {\n  depth = 9\n}\n"
            "action(\"a\") {\n  script = \"a.py\"\n  outputs = [ \"$target_gen_dir/a\" ]\n  pool = \":console\"\n}\n"
            "action(\"b\") {\n  script = \"b.py\"\n  outputs = [ \"$target_gen_dir/b\" ]\n  pool = \"//p:three\"\n}\n",
        "//p/BUILD.gn": "pool(\"three\") {\n  depth = 3\n}\n",
        puts
        "//out/build.ninja":
            "ninja_required_version = 1.7.2\n\n"
            "pool _2f_2f_3atwo\n  depth = 2\n\n"
            "pool _2f_2fp_3athree\n  depth = 3\n\n"
            "subninja toolchain.ninja\n\n"
            "build $:a: phony obj/a.stamp\nbuild $:b: phony obj/b.stamp\nbuild a: phony obj/a.stamp\nbuild b: phony obj/b.stamp\n\n"
            "build all: phony obj/a.stamp obj/b.stamp\n\n"
            "default all\n",
        "//out/obj/a.ninja":
            "rule _2f_2f_3aa_28_2f_2ft_3at_29\n  command = python3 ../a.py ${args}\n  description = ACTION //:a\n  pool = console\n  restat = 1\n\n"
            "build gen/a: _2f_2f_3aa_28_2f_2ft_3at_29 | ../a.py\n  args =\n\n"
            "build obj/a.stamp: stamp gen/a\n",
        "//out/obj/b.ninja":
            "rule _2f_2f_3ab_28_2f_2ft_3at_29\n  command = python3 ../b.py ${args}\n  description = ACTION //:b\n  pool = _2f_2fp_3athree\n  restat = 1\n\n"
            "build gen/b: _2f_2f_3ab_28_2f_2ft_3at_29 | ../b.py\n  args =\n\n"
            "build obj/b.stamp: stamp gen/b\n",
        "//out/toolchain.ninja":
            "rule stamp\n  command = touch ${out}\n  pool = _2f_2f_3atwo\n\n"
            "subninja obj/a.ninja\nsubninja obj/b.ninja\n",
        => 0 "Done. Made 2 targets from 3 files\n";
    // Blanks, colons and dollars in paths, in values and in words.
    "gen out",
        "//t/BUILD.gn": "toolchain(\"t\") {\n  tool(\"copy\") {\n    command = \"cp {{source}} {{output}}\"\n  }\n  tool(\"stamp\") {\n    command = \" touch {{output}}\"\n    description = \"is: \\$5\"\n  }\n}\n",
        "//BUILD.gn":
            "copy(\"the copy\") {\n  sources = [ \"a b:c.txt\", \"\\$e.txt\" ]\n  outputs = [ \"$target_out_dir/{{source_file_part}}\" ]\n}\n"
            "action(\"x\\$y\") {\n  script = \"s t.py\"\n  outputs = [ \"$target_gen_dir/o p\" ]\n  args = [ \"\", \"one\", \"a b\", \"\\$HOME\", \"it's\", \"q\\\"\", \"b\\\\s\", \"`d`\", \"*\", \"a:b\" ]\n  deps = [ \":the copy\" ]\n}\n",
        puts
        "//out/build.ninja":
            "ninja_required_version = 1.7.2\n\n"
            "subninja toolchain.ninja\n\n"
            "build $:the$ copy: phony obj/the$ copy.stamp\nbuild $:x$$y: phony obj/x$$y.stamp\nbuild the$ copy: phony obj/the$ copy.stamp\nbuild x$$y: phony obj/x$$y.stamp\n\n"
            "build all: phony obj/the$ copy.stamp obj/x$$y.stamp\n\n"
            "default all\n",
        "//out/obj/the copy.ninja":
            "build obj/a$ b$:c.txt: copy ../a$ b$:c.txt\n\n"
            "build obj/$$e.txt: copy ../$$e.txt\n\n"
            "build obj/the$ copy.stamp: stamp obj/a$ b$:c.txt obj/$$e.txt\n",
        "//out/obj/x$y.ninja":
            "rule _2f_2f_3ax_24y_28_2f_2ft_3at_29\n  command = python3 \"../s t.py\" ${args}\n  description = ACTION //:x$$y\n  restat = 1\n\n"
            "build gen/o$ p: _2f_2f_3ax_24y_28_2f_2ft_3at_29 | ../s$ t.py || obj/the$ copy.stamp\n  args = \"\" one \"a b\" \"\\$$HOME\" \"it's\" \"q\\\"\" \"b\\\\s\" \"\\`d\\`\" \"*\" a:b\n\n"
            "build obj/x$$y.stamp: stamp gen/o$ p\n",
        "//out/toolchain.ninja":
            "rule copy\n  command = cp ${in} ${out}\n\n"
            "rule stamp\n  command = $ touch ${out}\n  description = is: $$5\n\n"
            "subninja obj/the$ copy.ninja\nsubninja obj/x$$y.ninja\n",
        => 0 "Done. Made 2 targets from 2 files\n";
    // Names of targets: the first that claims one has it, and what a build line makes, and `all`, is left out.
    "gen out",
        "//t/BUILD.gn": "toolchain(\"t\") {\n  tool(\"link\") {\n    command = \"ld {{output}}\"\n    outputs = [ \"{{root_out_dir}}/{{target_output_name}}\" ]\n  }\n  tool(\"stamp\") {\n    command = \"touch {{output}}\"\n  }\n}\n",
        "//BUILD.gn": "group(\"x\") {\n  deps = [ \"//a:only\", \"//a/x\", \"//all\", \"//b:y\", \"//x\" ]\n}\n",
        "//a/BUILD.gn": "group(\"only\") {\n}\ngroup(\"program\") {\n}\ngroup(\"y\") {\n}\n",
        "//a/x/BUILD.gn": "group(\"x\") {\n}\n",
        "//all/BUILD.gn": "group(\"all\") {\n}\n",
        "//b/BUILD.gn": "executable(\"y\") {\n  output_name = \"program\"\n}\n",
        "//x/BUILD.gn": "group(\"x\") {\n}\n",
        puts
        "//out/build.ninja":
            "ninja_required_version = 1.7.2\n\n"
            "subninja toolchain.ninja\n\n"
            "build $:x: phony obj/x.stamp\nbuild a/x: phony obj/a/x/x.stamp\nbuild a/x$:x: phony obj/a/x/x.stamp\nbuild a$:only: phony obj/a/only.stamp\nbuild a$:program: phony obj/a/program.stamp\nbuild a$:y: phony obj/a/y.stamp\nbuild all$:all: phony obj/all/all.stamp\nbuild b$:y: phony program\nbuild only: phony obj/a/only.stamp\nbuild x: phony obj/x.stamp\nbuild x$:x: phony obj/x/x.stamp\nbuild y: phony program\n\n"
            "build all: phony obj/x.stamp obj/a/only.stamp obj/a/program.stamp obj/a/y.stamp obj/a/x/x.stamp obj/all/all.stamp program obj/x/x.stamp\n\n"
            "default all\n",
        "//out/obj/a/only.ninja": "build obj/a/only.stamp: stamp\n",
        "//out/obj/a/program.ninja": "build obj/a/program.stamp: stamp\n",
        "//out/obj/a/x/x.ninja": "build obj/a/x/x.stamp: stamp\n",
        "//out/obj/a/y.ninja": "build obj/a/y.stamp: stamp\n",
        "//out/obj/all/all.ninja": "build obj/all/all.stamp: stamp\n",
        "//out/obj/b/y.ninja":
            "asmflags =\ncflags =\ncflags_c =\ncflags_cc =\ndefines =\ninclude_dirs =\nlabel = //b:y\nlabel_name = y\nldflags =\nlibs =\noutput_dir = .\noutput_extension =\nroot_out_dir = .\nsolibs =\ntarget_out_dir = obj/b\ntarget_output_name = program\n\n"
            "build program: link\n",
        "//out/obj/x.ninja": "build obj/x.stamp: stamp obj/a/only.stamp obj/a/x/x.stamp obj/all/all.stamp program obj/x/x.stamp\n",
        "//out/obj/x/x.ninja": "build obj/x/x.stamp: stamp\n",
        "//out/toolchain.ninja":
            "rule link\n  command = ld ${out}\n\n"
            "rule stamp\n  command = touch ${out}\n\n"
            "subninja obj/x.ninja\nsubninja obj/a/only.ninja\nsubninja obj/a/program.ninja\nsubninja obj/a/y.ninja\nsubninja obj/a/x/x.ninja\nsubninja obj/all/all.ninja\nsubninja obj/b/y.ninja\nsubninja obj/x/x.ninja\n",
        => 0 "Done. Made 8 targets from 7 files\n";
};

#[test]
fn gen_puts_what_is_compiled_and_linked(rt: HostRuntime) -> Result<(), Fail> {
    for row in LINKED.split_terminator('\x1e') {
        assert!(rt; holds(&rt, rt.alloc(), row)?, "at {row}");
    }
    Ok(())
}

#[test]
fn gen_puts_toolchains_pools_and_names(rt: HostRuntime) -> Result<(), Fail> {
    for row in TOOLCHAINS.split_terminator('\x1e') {
        assert!(rt; holds(&rt, rt.alloc(), row)?, "at {row}");
    }
    Ok(())
}
