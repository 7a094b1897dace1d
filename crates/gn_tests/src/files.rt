// What files say that import nothing. The expected texts stand in docs/LANGUAGE.md and docs/OUTPUT.md.

use crate::runs::row_holds;
use std::test::Fail;

// A file, and what it says: its lines, and then the labels of its targets.
macro_rules! said {
    ($($file:literal => $text:literal;)+) => {
        concat!($("//BUILD.gn\x1f", $file, "\x1d\x1c0", $text, "\x1e"),+)
    };
}

// A file, where its first fault stands, and its text.
macro_rules! faults {
    ($($file:literal => $place:literal, $text:literal;)+) => {
        concat!($("//BUILD.gn\x1f", $file, "\x1d\x1c1ERROR at //BUILD.gn:", $place, ": ", $text, "\n\x1e"),+)
    };
}

const SAID: &str = said! {
    "a = [ 1 ]\na = []\na = [ 2 ]\nprint(a)\n" => "[2]\n";
    "group(\"g\") {\n  x = 1\n  print(x)\n  x += 1\n}\n" => "1\n//:g\n";
    "i = 7\nl = [ 1, 2 ]\nforeach(i, l) {\n  l += [ i ]\n}\nprint(i, l)\n" => "7 [1, 2, 1, 2]\n";
    "print(\"a$0x0Ab\")\n" => "a\nb\n";
    "print(\"a\\n\")\n" => "a\\n\n";
    "# only a comment" => "";
    "group(\"a\"){deps=[\":b\",]}group(\"b\"){deps=[]}" => "//:a\n//:b\n";
    "deps = [ \":b\" ]\ngroup(\"a\") {\n}\ngroup(\"b\") {\n  deps = []\n}\n" => "//:a\n//:b\n";
    "executable(\"e\") {\n  sources = [ \"a.cc\" ]\n  defines = [ \"X=1\" ]\n  deps = [ \":s\" ]\n}\nsource_set(\"s\") {\n}\n" => "//:e\n//:s\n";
    "target(\"static_library\", \"l\") {\n  cflags = [ \"-g\" ]\n}\nshared_library(\"d\") {\n}\nloadable_module(\"m\") {\n}\n"
        => "//:d\n//:l\n//:m\n";
    "action(\"a\") {\n  script = \"s.py\"\n  outputs = [ \"//out/x\" ]\n  args = [ \"{{response_file_name}}\" ]\n}\n" => "//:a\n";
    "action_foreach(\"f\") {\n  script = \"s.py\"\n  sources = [ \"a.c\" ]\n  outputs = [ \"{{source_gen_dir}}/{{source_name_part}}.o\" ]\n}\n" => "//:f\n";
    "copy(\"c\") {\n  sources = [ \"a\", \"b\" ]\n  outputs = [ \"out/x/{{source_file_part}}\" ]\n}\n" => "//:c\n";
    "config(\"c\") {\n  cflags = [ \"-g\" ]\n  visibility = [ \"*\" ]\n}\npool(\"p\") {\n  depth = 0\n}\ngroup(\"g\") {\n  configs = [ \":c\" ]\n  pool = \":p\"\n}\n" => "//:g\n";
    "set_defaults(\"config\") {\n  target_name = 1\n}\nconfig(\"c\") {\n  print(target_name)\n}\n" => "1\n";
    "toolchain(\"t\") {\n  x = \"touch\"\n  tool(\"stamp\") {\n    command = \"$x {{output}}\"\n  }\n  tool(\"cc\") {\n    command = \"cc\"\n    outputs = [ \"{{source_name_part}}.o\" ]\n  }\n  toolchain_args = { a = 1 }\n}\ntoolchain(\"u\") {\n  command = \"c\"\n  tool(\"copy\") {\n  }\n}\n" => "";
    "template(\"t\") {\n  tool(target_name) {\n    command = invoker.c\n  }\n}\ntoolchain(\"t\") {\n  t(\"stamp\") {\n    c = \"x\"\n  }\n}\ngroup(\"stamp\") {\n}\n" => "//:stamp\n";
    "action(\"a\") {\n  script = \"s.py\"\n  outputs = [ \"out/x\", \"//out/y\", \"out/x\" ]\n}\nprint(get_target_outputs(\":a\"))\n" => "[\"//out/x\", \"//out/y\"]\n//:a\n";
    "copy(\"c\") {\n  sources = [ \"a/b.c\", \"d.h\" ]\n  outputs = [ \"$root_out_dir/o/{{source_name_part}}\" ]\n}\nprint(get_target_outputs(\"//:c\"))\n" => "[\"//out/o/b\", \"//out/o/d\"]\n//:c\n";
    // An item of 10,000 sources.
    "d = [ 0, 1, 2, 3, 4, 5, 6, 7, 8, 9 ]\ns = []\nforeach(i, d) { foreach(j, d) { foreach(k, d) { foreach(l, d) { s += [ \"$i$j$k$l.c\" ] } } } }\naction_foreach(\"f\") {\n  script = \"s.py\"\n  sources = s\n  outputs = [ \"out/{{source_name_part}}.o\" ]\n}\no = get_target_outputs(\":f\")\nprint(o[0], o[4711], o[9999])\n"
        => "//out/0000.o //out/4711.o //out/9999.o\n//:f\n";
    "testonly = true\ngroup(\"g\") {\n  friend = [ 1 ]\n  metadata = { a = 1 }\n}\n" => "//:g\n";
    "template(\"executable\") {\n  target(\"executable\", target_name) {\n    forward_variables_from(invoker, \"*\")\n  }\n}\nexecutable(\"e\") {\n  ldflags = [ \"-s\" ]\n}\n" => "//:e\n";
    "group(\"z\") {\n}\ngroup(\"a/b\") {\n}\ngroup(\"Z\") {\n}\n" => "//:Z\n//:a/b\n//:z\n";
    "foreach(v, [ 1, 2 ]) {\n  print(v)\n}\nprint(defined(v))\n" => "1\n2\nfalse\n";
    "a = { x = 1 }\nb = a\nb.x = 2\nprint(a.x, b.x, b[\"x\"])\n" => "1 2 2\n";
    "print(1 + 2, \"a\" + 1, [ 1, \"b\" ], true)" => "3 a1 [1, \"b\"] true\n";
    "print(1 <= 1, 2 > 1, 1 >= 2, 1 < 1, 3 - 4, [ 1, 2, 1 ] - [ 1 ])" => "true true false false -1 [2]\n";
    "print([ 1 ] == [ 1 ], 1 == \"1\", 1 != 1, !(1 == 2))" => "true false false true\n";
    "print(false && q, true || q, true && false, false || true)" => "false true false true\n";
    "print(1 + 2 - 3 == 0 && !false || false, 1 < 2 == true, 5 - 1 - 1)" => "true true 3\n";
    "print(\"a b\", [ \"x\", 1, [ ] ], { b = 1 a = \"q\\\"\" }, [ { } ])"
        => "a b [\"x\", 1, []] {\n  a = \"q\\\"\"\n  b = 1\n} [{\n}]\n";
    "a = 1\nl = [ \"x\", \"y\" ]\ns = { k = \"v\" }\ni = 1\nprint(\"$a|${a}|${l[0]}|${l[i]}|${s.k}|$0x41|\\$a|$l|\\\\|\\q\")"
        => "1|1|x|y|v|A|$a|[\"x\", \"y\"]|\\|\\q\n";
    "x = 1\nx += 2\nx -= 4\nprint(x)" => "-1\n";
    "a = [ 1 ]\na[0] += 4\ns = { }\ns.b = 2\ns[\"c\"] = 3\nprint(a, s.b, s.c)" => "[5] 2 3\n";
    "if (1 < 2) { print(1) } else { print(2) }" => "1\n";
    "if (false) { print(1) } else if (true) { print(2) } else { print(3) }" => "2\n";
    "if (false) { print(1) } else if (false) { print(2) } else { print(3) }" => "3\n";
    "if (false) { print(1) }" => "";
    "s = { a = 1 }\nprint(defined(s.a), defined(s[\"b\"]), defined(s), defined(q))" => "true false true false\n";
    "assert(true)\nassert(1 == 1, \"m\")\nprint(\"end\")" => "end\n";
    "a = [ 1 ]\ngroup(\"g\") {\n  a += [ 2 ]\n  print(a, target_name)\n}\nprint(a)" => "[1, 2] g\n[1]\n//:g\n";
    "a = 1\ntemplate(\"t\") {\n  print(a, target_name, invoker.x)\n}\nt(\"n\") {\n  x = 2\n}" => "1 n 2\n";
    "a = 1\ntemplate(\"t\") {\n  print(a)\n}\na = 2\nt(\"n\") {\n}" => "1\n";
    "template(\"t\") {\n  print(invoker.x, \"${invoker.y}\", defined(invoker.z))\n}\nt(\"n\") {\n  x = 1\n  y = \"b\"\n}"
        => "1 b false\n";
    "template(\"t\") {\n  print(2)\n}\nt(\"n\") {\n  print(1)\n}" => "1\n2\n";
    "template(\"group\") {\n  target(\"group\", target_name) {\n    forward_variables_from(invoker, \"*\")\n  }\n}\ngroup(\"a\") {\n}"
        => "//:a\n";
    "template(\"t\") {\n  print(target_name)\n}\ntarget(\"t\", \"n\") {\n}\ntarget(\"group\", \"g\") {\n}"
        => "n\n//:g\n";
    "set_defaults(\"group\") {\n  a = 1\n}\ngroup(\"g\") {\n  print(a)\n}\nprint(defined(a))" => "1\nfalse\n//:g\n";
    // Names that a block declares aren't read in it, and are set around it.
    "declare_args() {\n  x = 1\n}\nprint(x)" => "1\n";
    "declare_args() {\n  x = 1\n  y = 2\n}\nprint(defined(y))" => "true\n";
    "declare_args() {\n  x = [ 1 ]\n  x += [ 2 ]\n  print(defined(x))\n}\nprint(x)" => "false\n[1, 2]\n";
    "o = 5\ndeclare_args() {\n  x = o\n}\nprint(x, o)" => "5 5\n";
    "declare_args() {\n  foreach(i, [ 1, 2 ]) {\n    print(i)\n  }\n}" => "1\n2\n";
    "declare_args() {\n  declare_args() {\n    x = 1\n  }\n  print(defined(x))\n}\nprint(x)" => "false\n1\n";
    "declare_args() {\n  group(\"g\") {\n  }\n}" => "//:g\n";
    "template(\"t\") {\n  declare_args() {\n    x = 1\n  }\n  print(x)\n}\nt(\"n\") {\n}" => "1\n";
    "s = {\n  declare_args() {\n    x = 1\n  }\n}\nprint(s.x, defined(x))" => "1 false\n";
    "s = {\n  a = 1\n  b = 2\n}\nforward_variables_from(s, [ \"a\", \"c\" ])\nprint(a, defined(b))" => "1 false\n";
    "a = 0\ns = {\n  a = 1\n  b = 2\n}\nforward_variables_from(s, \"*\", [ \"b\" ])\nprint(a, defined(b))"
        => "1 false\n";
    "a = 1\nb = 2\nnot_needed(\"*\", [ \"b\" ])\nnot_needed([ \"b\" ])" => "";
    "template(\"t\") {\n  not_needed(invoker, \"*\")\n}\nt(\"n\") {\n  x = 1\n}" => "";
    "print(1 + \"a\", \"a\" + \"a\", [ 1, 2, 1 ] + [ 2 ] == [ 1, 2, 1, 2 ], [ 1 ] != [ 2 ])" => "1a aa true true\n";
    "print([ 0, 10, 9, 8, 7, 6, 5, 4, 3, 2, 1, 11 ] - [ 1, 2, 3, 4, 5, 6, 7, 8, 9, 10 ])" => "[0, 11]\n";
    "print([ \"a\", \"b\", \"c\", \"d\", \"e\", \"f\", \"g\", \"h\", \"i\", \"j\", \"k\", \"l\" ] - [ \"a\", \"b\", \"c\", \"d\", \"e\", \"f\", \"g\", \"h\", \"i\", \"j\" ])"
        => "[\"k\", \"l\"]\n";
    "print([ 1, \"1\", true, [ 1 ], { a = 1 } ] - [ \"1\", [ 1 ], { a = 1 } ])" => "[1, true]\n";
    "print({ c = true a = { b = 1 } })" => "{\n  a = {\n  b = 1\n}\n  c = true\n}\n";
    "l = [ 1, 3 ]\nl += [ 1, 2 ]\nprint(l)\nl -= [ 1 ]\nprint(l)" => "[1, 3, 1, 2]\n[3, 2]\n";
    "a = [ 1, 2 ]\na[1] = 5\na[0] += 1\na[0] -= 3\nprint(a)" => "[-1, 5]\n";
    "s = { }\ns.b = 1\ns.b += 2\nprint(s.b)\ns[\"b\"] = 4\nprint(s.b)" => "3\n4\n";
    "x = [ 1 ]\nx -= [ 1 ]\nx = [ 2 ]\nprint(x)" => "[2]\n";
    // A read goes outwards; `=` makes a name of its own; `+=` and an element's assignment copy inwards.
    "group(\"g\") {\n  x = 1\n  print(x)\n  x = 2\n}" => "1\n//:g\n";
    "s = {\n  x = 1\n}\nprint(s.x)" => "1\n";
    "x = 1\ngroup(\"g\") {\n  print(x)\n}" => "1\n//:g\n";
    "x = 1\ns = {\n  y = x\n}\nprint(s.y)" => "1\n";
    "x = 1\ngroup(\"g\") {\n  x += 1\n  print(x)\n  x += 1\n}" => "2\n//:g\n";
    "x = [ 1 ]\ngroup(\"g\") {\n  x[0] += 3\n  print(x)\n  x[0] += 3\n}\nprint(x)" => "[4]\n[1]\n//:g\n";
    "a = 1\ntemplate(\"t\") {\n  a += 1\n  print(a)\n}\nt(\"n\") {\n}\nprint(a)" => "2\n1\n";
    "a = [ 1 ]\ntemplate(\"t\") {\n  a[0] += 1\n  print(a)\n}\nt(\"n\") {\n}\nprint(a)" => "[2]\n[1]\n";
    "template(\"t\") {\n  invoker.x += 1\n  print(invoker.x)\n}\nt(\"n\") {\n  x = 2\n}" => "3\n";
    // A definition keeps of each name what stands innermost; the invoker has the names of its block alone; `"*"` copies all
    // but the name of the target.
    "x = 1\nprint(x)\ngroup(\"g\") {\n  x = 2\n  template(\"t\") {\n    print(x)\n  }\n  t(\"n\") {\n  }\n}" => "1\n2\n//:g\n";
    "z = 1\ntemplate(\"t\") {\n  print(defined(invoker.z))\n}\nt(\"n\") {\n}\nprint(z)" => "false\n1\n";
    "template(\"t\") {\n  group(\"g\") {\n    forward_variables_from(invoker, \"*\")\n    print(target_name)\n  }\n}\nt(\"n\") {\n}"
        => "g\n//:g\n";
    // The invoker is a name of the scope of a body, set and read. A scope further in has none of that name.
    "template(\"t\") {\n  invoker = 1\n  invoker = 2\n}\nt(\"n\") {\n}" => "";
    "template(\"t\") {\n  invoker.x = 1\n}\nt(\"n\") {\n  a = 1\n}" => "";
    "template(\"t\") {\n  invoker = { }\n  invoker = { y = 1 }\n  print(invoker.y)\n}\nt(\"n\") {\n}" => "1\n";
    "invoker = 1\ntemplate(\"t\") {\n  print(invoker.target_name)\n}\nt(\"n\") {\n}" => "n\n";
    "s = { invoker = 1 }\ntemplate(\"t\") {\n  forward_variables_from(s, \"*\")\n  print(invoker)\n}\nt(\"n\") {\n}"
        => "1\n";
    "s = { invoker = 1 }\ntemplate(\"t\") {\n  group(\"g\") {\n    forward_variables_from(s, [ \"invoker\" ])\n    print(invoker)\n  }\n}\nt(\"n\") {\n}"
        => "1\n//:g\n";
    "template(\"t\") {\n  foreach(invoker, [ 1 ]) {\n    print(invoker)\n  }\n  print(invoker.a)\n}\nt(\"n\") {\n  a = 2\n}"
        => "1\n2\n";
    // Where the call of a template stands in the body of another one, the invoker of that body is a name around the call: a list
    // finds it, but not `"*"`, and where no such body is, or it is excepted, it isn't there. All its names count as read.
    "template(\"i\") {\n  group(\"g\") {\n    forward_variables_from(invoker, [ \"invoker\" ])\n    print(invoker.a)\n  }\n}\ntemplate(\"o\") {\n  i(\"x\") {\n  }\n}\no(\"n\") {\n  a = 1\n  b = 2\n}"
        => "1\n//:g\n";
    "template(\"i\") {\n  group(\"g\") {\n    forward_variables_from(invoker, [ \"invoker\" ])\n    print(invoker.a)\n  }\n}\ntemplate(\"m\") {\n  i(\"x\") {\n  }\n}\ntemplate(\"o\") {\n  print(invoker.a)\n  m(\"y\") {\n    a = 2\n  }\n}\no(\"n\") {\n  a = 1\n}"
        => "1\n2\n//:g\n";
    "invoker = { a = 3 }\ntemplate(\"i\") {\n  group(\"g\") {\n    forward_variables_from(invoker, [ \"invoker\" ])\n    print(invoker.a)\n  }\n}\ntemplate(\"o\") {\n  i(\"x\") {\n  }\n}\no(\"n\") {\n  a = 1\n}"
        => "1\n//:g\n";
    "template(\"i\") {\n  group(\"g\") {\n    forward_variables_from(invoker, [ \"invoker\" ])\n    print(invoker.a)\n  }\n}\ntemplate(\"o\") {\n  invoker = { }\n  invoker.a = 4\n  i(\"x\") {\n  }\n}\no(\"n\") {\n}"
        => "4\n//:g\n";
    "template(\"i\") {\n  group(\"g\") {\n    forward_variables_from(invoker, [ \"invoker\" ])\n    print(invoker.a)\n  }\n}\ni(\"x\") {\n  a = 5\n}"
        => "5\n//:g\n";
    "template(\"i\") {\n  forward_variables_from(invoker, [ \"invoker\" ])\n  print(invoker.a)\n}\ni(\"x\") {\n  a = 5\n}"
        => "5\n";
    "template(\"i\") {\n  forward_variables_from(invoker, [ \"a\", \"invoker\" ], [ \"invoker\" ])\n  print(a, invoker.target_name)\n}\ntemplate(\"o\") {\n  i(\"x\") {\n    a = 1\n  }\n}\no(\"n\") {\n}"
        => "1 x\n";
    "template(\"i\") {\n  group(\"g\") {\n    forward_variables_from(invoker, \"*\")\n    print(invoker.target_name)\n  }\n}\ntemplate(\"o\") {\n  i(\"x\") {\n  }\n}\no(\"n\") {\n}"
        => "x\n//:g\n";
    // Calls on texts and lists, each on its good way and at its bounds.
    "print(string_replace(\"aaa\", \"a\", \"b\", 2), string_split(\"a,,b\", \",\"), split_list([ 1, 2, 3, 4, 5 ], 2))"
        => "bba [\"a\", \"\", \"b\"] [[1, 2, 3], [4, 5]]\n";
    "print(filter_include([ \"a.cc\", \"b.h\", \"c.cc\" ], [ \"*.cc\", \"?\" ]), filter_exclude([ \"a.cc\", \"b.h\" ], [ \"*.cc\" ]))"
        => "[\"a.cc\", \"c.cc\"] [\"b.h\"]\n";
    "print(filter_include([], [ \"*\" ]), filter_include([ \"a\" ], []), filter_exclude([ \"a\" ], []), filter_include([ \"\" ], [ \"\" ]))"
        => "[] [] [\"a\"] [\"\"]\n";
    "print(filter_include([ \"a/foo\", \"foo\", \"afoo\" ], [ \"*\\bfoo\" ]))" => "[\"a/foo\", \"foo\"]\n";
    "print(split_list([], 2), split_list([ \"a\" ], 1), split_list([ true ], 3))" => "[[], []] [[\"a\"]] [[true], [], []]\n";
    "print(string_join(\", \", [ \"a\", \"b\" ]), string_join(\",\", []) == \"\", string_join(\"\", [ \"a\", \"\", \"b\" ]))"
        => "a, b true ab\n";
    "print(string_replace(\"aaa\", \"a\", \"aa\"), string_replace(\"aaa\", \"a\", \"b\", 0), string_replace(\"abab\", \"ab\", \"\") == \"\")"
        => "aaaaaa aaa true\n";
    "print(string_split(\" a  b\"), string_split(\"\"), string_split(\"\", \",\"), string_split(\"a b\", \" b\"))"
        => "[\"a\", \"b\"] [] [\"\"] [\"a\", \"\"]\n";
    "foreach(part, string_split(string_join(\"-\", [ \"x\", \"y\" ]), \"-\")) {\n  group(part) {\n    print(split_list([ part ], 1))\n  }\n}"
        => "[[\"x\"]]\n[[\"y\"]]\n//:x\n//:y\n";
    "string_join(\"\", [])\ntemplate(\"string_join\") {\n  print(target_name)\n}\nstring_join(\"n\") {\n}" => "n\n";
    // Calls on paths and labels, which stand in the root directory, and files that are written.
    "print(rebase_path(\"a/b/\", \"//c\"), rebase_path(\"//c\", \"//c\"), rebase_path(\"//c/\", \"//c\"), rebase_path(\"//\", \"//c\"))"
        => "../a/b/ . ./ ../\n";
    "print(rebase_path([ \"x\", \"y/\" ], \"a\", \"b\"), rebase_path(\"x\", \"a\"))" => "[\"../b/x\", \"../b/y/\"] ../x\n";
    "print([ get_path_info(\"bar.txt\", \"dir\"), get_path_info(\"a/b.tar.gz\", \"name\"), get_path_info(\"a/b.tar.gz\", \"extension\"), get_path_info(\"a/b\", \"file\"), get_path_info(\"x/../y\", \"abspath\") ])"
        => "[\".\", \"b.tar\", \"gz\", \"b\", \"//y\"]\n";
    "print(get_path_info([ \"a\", \"//b/c\" ], \"abspath\"))" => "[\"//a\", \"//b/c\"]\n";
    "print(get_label_info(\"//a:b\", \"name\"), get_label_info(\":c\", \"dir\"), get_label_info(\"//d\", \"label_no_toolchain\"))"
        => "b // //d:d\n";
    "print(label_matches(\"//a:b\", [ \"//a:*\" ]), label_matches(\":x\", [ \"//a/*\", \"y:x\" ]), label_matches(\"//a:b\", []))"
        => "true false false\n";
    "print(process_file_template([ \"a/b.cc\", \"c.h\" ], [ \"{{source_name_part}}.o\", \"{{source}}\" ]))"
        => "[\"b.o\", \"//a/b.cc\", \"c.o\", \"//c.h\"]\n";
    "print(process_file_template([ \"a/b.cc\" ], \"{{source_root_relative_dir}}/{{source_file_part}}\"))"
        => "[\"a/b.cc\"]\n";
    "template(\"t\") {\n  print(rebase_path(\"x\", \"//a\"))\n}\nt(\"n\") {\n}" => "../x\n";
    "write_file(\"out/x\", \"a\")\nwrite_file(\"//out/x\", [ \"a\", \"b\" ])\nwrite_file(\"out/y/\", [])" => "";
};

// Faults of tokens, operators and calls.
const FAULTS: &str = faults! {
    "@\n" => "1:1", "Invalid token.";
    "x = 01\n" => "1:5", "Invalid number.";
    "x = \"abc\n" => "1:5", "Unterminated string literal.";
    "x = \"a$\"\n" => "1:7", "Invalid expansion in string.";
    "a = 1\ny = a -1\nprint(y)\n" => "2:7", "Unexpected token.";
    "x = = @\n" => "1:5", "Unexpected token.";
    "x =\n" => "2:1", "Unexpected token.";
    "group(\"a:b\") {\n}\n" => "1:1", "Invalid label.";
    "group(\"a*\") {\n  x = 1\n}\n" => "1:1", "Invalid label.";
    "x = 1 + true\n" => "1:7", "Wrong type of value.";
    "x = print(1)\n" => "1:5", "Wrong type of value.";
    "x = 9223372036854775807 + 1\n" => "1:25", "Integer overflow.";
    "print([ 2 ] - [ 3 ])\n" => "1:13", "Item not found in the list.";
    "x = [ 1 ]\ny = x[1]\n" => "2:6", "Index out of range.";
    "print(defined(q.x))\n" => "1:15", "Undefined identifier \"q\".";
    "a = [ 1 ]\na = [ 2 ]\nprint(a)\n" => "2:3", "Replacing nonempty list or scope \"a\".";
    "a = [ 1 ] a = [ 2 ]" => "1:13", "Replacing nonempty list or scope \"a\".";
    "if (1) {\n}\n" => "1:5", "Condition is not a boolean.";
    "nope()\n" => "1:1", "Unknown function \"nope\".";
    "print(1) {\n}\n" => "1:1", "Wrong arguments to \"print\".";
    "assert(false)\n" => "1:1", "Assertion failed.";
    "assert(1 == 2, \"one is \" + 1)\n" => "1:1", "Assertion failed. one is 1";
    "exec_script(\"x.py\")\n" => "1:1", "\"exec_script\" is not in this profile.";
    "group(\"a\") {\n  deps = 1\n}\n" => "1:1", "Wrong type for \"deps\".";
    "group(\"a\") {\n  deps = [ 1 ]\n}\n" => "1:1", "Wrong type for \"deps\".";
    "group(\"a\") {\n  deps = \":b\"\n}\n" => "1:1", "Wrong type for \"deps\".";
    "group(\"a\") {\n  deps = [ \":b$0x0A\" ]\n}\n" => "1:1", "Wrong type for \"deps\".";
    "\n  group(\"a\") {\n  deps = [ \":b\", \"$0x00\" ]\n}\n" => "2:3", "Wrong type for \"deps\".";
    "deps = [ \":b$0x0A\" ]\ngroup(\"a\") {\n  x = 1\n}\n" => "2:1", "Wrong type for \"deps\".";
    "group(\"a:b\") {\n  deps = [ \":b$0x0A\" ]\n}\n" => "1:1", "Invalid label.";
    "group(\"a\") {\n}\ngroup(\"a\") {\n  deps = [ 1 ]\n}\n" => "3:1", "Wrong type for \"deps\".";
    "group(\"a\") {\n  deps = [ \":b\", \"b:\" ]\n}\n" => "1:1", "Invalid label.";
    "executable(\"a\") {\n  sources = [ \"../x\" ]\n}\n" => "1:1", "Path is above the source root.";
    "group(\"a\") {\n  visibility = [ \":b\", \"b\" ]\n  sources = 1\n}\n" => "1:1", "Invalid pattern.";
    "action(\"a\") {\n  outputs = [ \"x\" ]\n}\n" => "1:1", "Invalid path.";
    "action(\"a\") {\n  outputs = [ \"out/x\" ]\n}\n" => "1:1", "\"script\" is missing.";
    "copy(\"a\") {\n  sources = [ \"x\" ]\n  outputs = [ \"out/y\", \"out/z\" ]\n}\n" => "1:1", "Wrong arguments to \"copy\".";
    "action_foreach(\"a\") {\n  script = \"s.py\"\n  sources = [ \"x\" ]\n  outputs = [ \"{{y}}\" ]\n}\n" => "1:1", "Unknown substitution.";
    "source_set(\"a\") {\n  junk = 1\n}\n" => "2:8", "Assignment had no effect: \"junk\".";
    "source_set(\"a\") {\n}\ngroup(\"a\") {\n}\n" => "3:1", "Duplicate item \"//:a\".";
    "pool(\"p\") {\n  depth = -1\n}\n" => "1:1", "Wrong type for \"depth\".";
    "pool(\"p\") {\n}\n" => "1:1", "\"depth\" is missing.";
    "config(\"c\") {\n  group(\"g\") {\n  }\n}\n" => "2:3", "\"group\" is not allowed here.";
    "config(\"c\") {\n  deps = []\n}\n" => "2:8", "Assignment had no effect: \"deps\".";
    "config(\"c\") {\n  print(target_name)\n}\n" => "2:9", "Undefined identifier \"target_name\".";
    "config(\"a\") {\n}\ngroup(\"a\") {\n}\n" => "3:1", "Duplicate item \"//:a\".";
    "tool(\"stamp\") {\n  command = \"x\"\n}\n" => "1:1", "\"tool\" is not allowed here.";
    "toolchain(\"t\") {\n  tool(\"frob\") {\n  }\n}\n" => "2:3", "\"frob\" is not in this profile.";
    "toolchain(\"t\") {\n  tool(\"cc\") {\n    command = \"x\"\n  }\n}\n" => "2:3", "\"outputs\" is missing.";
    "toolchain(\"t\") {\n  tool(\"stamp\") {\n    command = \"x\"\n  }\n  tool(\"stamp\") {\n    command = \"y\"\n  }\n}\n" => "5:3", "Duplicate item \"stamp\".";
    "toolchain(\"t\") {\n  tool(\"stamp\") {\n    command = \"x\"\n    junk = 1\n  }\n}\n" => "4:10", "Assignment had no effect: \"junk\".";
    "toolchain(\"t\") {\n  tool(\"stamp\") {\n    command = \"x\"\n    tool(\"cc\") {\n    }\n  }\n}\n" => "4:5", "\"tool\" is not allowed here.";
    "toolchain(\"t\") {\n  group(\"g\") {\n  }\n}\n" => "2:3", "\"group\" is not allowed here.";
    "toolchain(\"t\") {\n}\nconfig(\"t\") {\n}\n" => "3:1", "Duplicate item \"//:t\".";
    "pool(\"p\") {\n  depth = 1\n}\nexecutable(\"p\") {\n}\n" => "4:1", "Duplicate item \"//:p\".";
    "copy(\"c\") {\n  sources = [ \"a\" ]\n  outputs = [ \"out/b\" ]\n}\npool(\"c\") {\n  depth = 1\n}\n" => "5:1", "Duplicate item \"//:c\".";
    "action(\"a\") {\n  pool(\"p\") {\n  }\n}\n" => "2:3", "\"pool\" is not allowed here.";
    "pool(\"p\") {\n  config(\"c\") {\n  }\n}\n" => "2:3", "\"config\" is not allowed here.";
    "copy(\"c\") {\n  toolchain(\"t\") {\n  }\n}\n" => "2:3", "\"toolchain\" is not allowed here.";
    "toolchain(\"t\") {\n  toolchain_args = 1\n}\n" => "1:1", "Wrong type for \"toolchain_args\".";
    "group(\"g\") {\n}\nprint(get_target_outputs(\":g\"))\n" => "3:7", "Wrong arguments to \"get_target_outputs\".";
    "print(get_target_outputs(\":a\"))\naction(\"a\") {\n  script = \"s.py\"\n  outputs = [ \"out/x\" ]\n}\n" => "1:7", "Wrong arguments to \"get_target_outputs\".";
    "print(get_target_outputs(1))\n" => "1:26", "Wrong type of value.";
    "print(get_target_outputs(\"b:\"))\n" => "1:26", "Invalid label.";
    "group(\"g\") {\n  executable(\"e\") {\n  }\n}\n" => "2:3", "\"executable\" is not allowed here.";
    "group(\"a\") {\n}\ngroup(\"a\") {\n}\n" => "3:1", "Duplicate item \"//:a\".";
    "print(1)\nprint(nope)\n" => "2:7", "Undefined identifier \"nope\".";
    "x = y\nx = 1 + true" => "1:5", "Undefined identifier \"y\".";
    "x = 1\nprint(x + q + r)" => "2:11", "Undefined identifier \"q\".";
    "x = 1 && q" => "1:7", "Wrong type of value.";
    "x = true && 1" => "1:10", "Wrong type of value.";
    "x = \"a\" < \"b\"" => "1:9", "Wrong type of value.";
    "x = !1" => "1:5", "Wrong type of value.";
    "x = [ 1 ]\ny = x[-1]" => "2:6", "Index out of range.";
    "x = [ 1 ]\ny = x[q]" => "2:7", "Undefined identifier \"q\".";
    "x = q[r]" => "1:5", "Undefined identifier \"q\".";
    "s = { }\nx = s.y" => "2:6", "Undefined identifier \"y\".";
    "print(\"ab$nope\")" => "1:10", "Undefined identifier \"nope\".";
    "y = [ 1 ]\nx = \"a${y[1]}\"" => "2:7", "Index out of range.";
    "x += 1" => "1:1", "Undefined identifier \"x\".";
    "x = 1\nx += true" => "2:3", "Wrong type of value.";
    "x = [ 1 ]\nx[1] = 3" => "2:2", "Index out of range.";
    "x[0] = 3" => "1:1", "Undefined identifier \"x\".";
    "s = { }\ns.y += 3" => "2:2", "Undefined identifier \"y\".";
    "if (  \"a\" + \"b\") {\n}" => "1:7", "Condition is not a boolean.";
    "print()" => "1:1", "Wrong arguments to \"print\".";
    "print(q) { }" => "1:1", "Wrong arguments to \"print\".";
    "assert(1)" => "1:8", "Wrong type of value.";
    "assert(true, 1)" => "1:14", "Wrong type of value.";
    "x = 1\ndefined(x.a)" => "2:9", "Wrong type of value.";
    "foreach(i, 1) { }" => "1:12", "Wrong type of value.";
    "group(\"g\") { group(\"h\") { } }" => "1:14", "\"group\" is not allowed here.";
    "x = -9223372036854775808 - 1" => "1:26", "Integer overflow.";
    "print([ 1, 2, 3, 4, 5, 6, 7, 8, 9, 10 ] - [ 1, 2, 3, 4, 5, 6, 7, 8, 9, 10, 11 ])"
        => "1:41", "Item not found in the list.";
    "a = [ 1, 2 ]\na[1] += 9223372036854775807" => "2:6", "Integer overflow.";
    "a = [ 1 ]\na[0] += true" => "2:6", "Wrong type of value.";
    "x = [ 1 ]\nx -= []\nx = [ 2 ]" => "3:3", "Replacing nonempty list or scope \"x\".";
    // Calls on texts and lists: the number of arguments and the block, the arguments from left to right, the types from left
    // to right, then values that they don't take, then the limits.
    "print(filter_include([]))" => "1:7", "Wrong arguments to \"filter_include\".";
    "filter_exclude(q, q, q)" => "1:1", "Wrong arguments to \"filter_exclude\".";
    "split_list(q)" => "1:1", "Wrong arguments to \"split_list\".";
    "split_list([], 1, q)" => "1:1", "Wrong arguments to \"split_list\".";
    "string_join(q)" => "1:1", "Wrong arguments to \"string_join\".";
    "string_replace(q, q)" => "1:1", "Wrong arguments to \"string_replace\".";
    "string_replace(q, q, q, q, q)" => "1:1", "Wrong arguments to \"string_replace\".";
    "string_split()" => "1:1", "Wrong arguments to \"string_split\".";
    "string_split(q, q, q)" => "1:1", "Wrong arguments to \"string_split\".";
    "string_split(q) {\n}" => "1:1", "Wrong arguments to \"string_split\".";
    "filter_include(q, q, q)" => "1:1", "Wrong arguments to \"filter_include\".";
    "filter_include(q, q) {\n}" => "1:1", "Wrong arguments to \"filter_include\".";
    "filter_exclude(q)" => "1:1", "Wrong arguments to \"filter_exclude\".";
    "filter_exclude(q, q) {\n}" => "1:1", "Wrong arguments to \"filter_exclude\".";
    "split_list(q, q) {\n}" => "1:1", "Wrong arguments to \"split_list\".";
    "string_join(q, q, q)" => "1:1", "Wrong arguments to \"string_join\".";
    "string_join(q, q) {\n}" => "1:1", "Wrong arguments to \"string_join\".";
    "string_replace(q, q, q) {\n}" => "1:1", "Wrong arguments to \"string_replace\".";
    "filter_include(1, [ q ])" => "1:21", "Undefined identifier \"q\".";
    "split_list(1, q)" => "1:15", "Undefined identifier \"q\".";
    "string_join(1, q)" => "1:16", "Undefined identifier \"q\".";
    "string_replace(1, 1, 1, q)" => "1:25", "Undefined identifier \"q\".";
    "string_split(1, q)" => "1:17", "Undefined identifier \"q\".";
    "filter_include(\"a\", 1)" => "1:16", "Wrong type of value.";
    "filter_exclude([ \"a\", 1 ], [])" => "1:16", "Wrong type of value.";
    "filter_include([], \"*\")" => "1:20", "Wrong type of value.";
    "filter_exclude([], [ 1 ])" => "1:20", "Wrong type of value.";
    "split_list(\"a\", \"a\")" => "1:12", "Wrong type of value.";
    "split_list([], (\"1\"))" => "1:16", "Wrong type of value.";
    "string_join(1, 1)" => "1:13", "Wrong type of value.";
    "string_join(\",\", \"a\")" => "1:18", "Wrong type of value.";
    "string_join(\",\", [ [ \"a\" ] ])" => "1:18", "Wrong type of value.";
    "string_replace(1, 1, 1)" => "1:16", "Wrong type of value.";
    "string_replace(\"a\", 1, 1)" => "1:21", "Wrong type of value.";
    "string_replace(\"a\", \"\", true)" => "1:25", "Wrong type of value.";
    "string_replace(\"a\", \"\", \"b\", \"c\")" => "1:30", "Wrong type of value.";
    "string_split([ \"a\" ])" => "1:14", "Wrong type of value.";
    "string_split(\"a\", 1)" => "1:19", "Wrong type of value.";
    "split_list([ 1 ], 0)" => "1:1", "Wrong arguments to \"split_list\".";
    "x = split_list([ 1 ], -1)" => "1:5", "Wrong arguments to \"split_list\".";
    "string_replace(\"a\", \"\", \"b\")" => "1:1", "Wrong arguments to \"string_replace\".";
    "string_replace(\"a\", \"b\", \"c\", -1)" => "1:1", "Wrong arguments to \"string_replace\".";
    "string_split(\"a\", \"\")" => "1:1", "Wrong arguments to \"string_split\".";
    "x = split_list([], 1048577)" => "1:5", "Value is too long.";
    // Calls on paths, labels and files: types first, then what can't be asked, then paths, labels, patterns and substitutions,
    // argument by argument.
    "get_label_info(q)" => "1:1", "Wrong arguments to \"get_label_info\".";
    "label_matches(q, q) {\n}" => "1:1", "Wrong arguments to \"label_matches\".";
    "rebase_path()" => "1:1", "Wrong arguments to \"rebase_path\".";
    "rebase_path(q, q, q, q)" => "1:1", "Wrong arguments to \"rebase_path\".";
    "process_file_template(q, q, q)" => "1:1", "Wrong arguments to \"process_file_template\".";
    "get_label_info(q, q, q)" => "1:1", "Wrong arguments to \"get_label_info\".";
    "get_label_info(q, q) {\n}" => "1:1", "Wrong arguments to \"get_label_info\".";
    "get_path_info(q)" => "1:1", "Wrong arguments to \"get_path_info\".";
    "get_path_info(q, q, q)" => "1:1", "Wrong arguments to \"get_path_info\".";
    "get_path_info(q, q) {\n}" => "1:1", "Wrong arguments to \"get_path_info\".";
    "label_matches(q)" => "1:1", "Wrong arguments to \"label_matches\".";
    "label_matches(q, q, q)" => "1:1", "Wrong arguments to \"label_matches\".";
    "rebase_path(q) {\n}" => "1:1", "Wrong arguments to \"rebase_path\".";
    "process_file_template(q)" => "1:1", "Wrong arguments to \"process_file_template\".";
    "process_file_template(q, q) {\n}" => "1:1", "Wrong arguments to \"process_file_template\".";
    "get_path_info(1, q)" => "1:18", "Undefined identifier \"q\".";
    "get_path_info(\"a\", 1)" => "1:20", "Wrong type of value.";
    "label_matches(\":b\", \"*\")" => "1:21", "Wrong type of value.";
    "x = rebase_path(\"a\", \"b\", 1)" => "1:27", "Wrong type of value.";
    "get_path_info(\"\", \"nope\")" => "1:1", "Wrong arguments to \"get_path_info\".";
    "get_label_info(\":b\", \"nope\")" => "1:1", "Wrong arguments to \"get_label_info\".";
    "get_path_info(\"../..\", \"file\")" => "1:15", "Path is above the source root.";
    "get_path_info([ \"a\", \"\" ], \"file\")" => "1:15", "Invalid path.";
    "get_label_info(\"x\", \"name\")" => "1:16", "Invalid label.";
    "label_matches(\"//a:b\", [ \"//a*:b\" ])" => "1:24", "Invalid pattern.";
    "process_file_template([ \"a\" ], \"{{nope}}\")" => "1:32", "Unknown substitution.";
    "process_file_template([ \"../a\" ], \"{{nope}}\")" => "1:23", "Path is above the source root.";
    "print(rebase_path(\"../x\"))" => "1:19", "Path is above the source root.";
    "rebase_path(\"a\", \"../b\")" => "1:18", "Path is above the source root.";
    "write_file(\"x\")" => "1:1", "Wrong arguments to \"write_file\".";
    "write_file(q, q, q)" => "1:1", "Wrong arguments to \"write_file\".";
    "write_file(q, q) {\n}" => "1:1", "Wrong arguments to \"write_file\".";
    "write_file(1, 1)" => "1:12", "Wrong type of value.";
    "write_file(\"../x\", 1)" => "1:20", "Wrong type of value.";
    "write_file(\"x\", [ 1 ])" => "1:17", "Wrong type of value.";
    "write_file(\"../x\", \"\")" => "1:12", "Path is above the source root.";
    "write_file(\"//\", \"\")" => "1:12", "Invalid path.";
    "write_file(\"/x\", \"\")" => "1:12", "Invalid path.";
    "write_file(\"\", \"\")" => "1:12", "Invalid path.";
    "write_file(\"//out/a$0x00b\", \"\")" => "1:12", "Invalid path.";
    "write_file(\"//out/a$0x0Ab\", \"\")" => "1:12", "Invalid path.";
    "write_file(\"//out/$0xFF\", \"\")" => "1:12", "Invalid path.";
    "write_file(\"//out/x\", { })" => "1:23", "Wrong type of value.";
    "write_file(\"//out/x\", true)" => "1:23", "Wrong type of value.";
    "x = write_file(\"out/y\", \"\")" => "1:5", "Wrong type of value.";
    "write_file(\"y\", \"\")" => "1:12", "Invalid path.";
    "read_file(q)" => "1:1", "Wrong arguments to \"read_file\".";
    "read_file(q, q, q)" => "1:1", "Wrong arguments to \"read_file\".";
    "read_file(q, q) {\n}" => "1:1", "Wrong arguments to \"read_file\".";
    "read_file(1, 1)" => "1:11", "Wrong type of value.";
    "read_file(\"\", 1)" => "1:15", "Wrong type of value.";
    "read_file(\"\", \"json\")" => "1:1", "\"json\" is not in this profile.";
    "read_file(\"\", \"string\")" => "1:11", "Invalid path.";
    "read_file(\"../x\", \"\")" => "1:11", "Path is above the source root.";
    "read_file(\"/x\", \"string\")" => "1:11", "Invalid path.";
    "read_file(\"a$0x00b\", \"\")" => "1:11", "Invalid path.";
    "read_file(\"a$0x0Ab\", \"\")" => "1:11", "Invalid path.";
    "read_file(\"$0xFF\", \"\")" => "1:11", "Invalid path.";
    "x = read_file(\"//BUILD.gn\", \"\")" => "1:5", "Wrong type of value.";
};

// Faults of scopes and templates. A checked scope reports the name whose last assignment stands first, where nothing has
// read it.
const SCOPE_FAULTS: &str = faults! {
    "group(\"g\") {\n  x = 1\n}\n" => "2:5", "Assignment had no effect: \"x\".";
    "a = 1\nb = 2\na = 3\n" => "2:3", "Assignment had no effect: \"b\".";
    "template(\"t\") {\n}\ntemplate(\"t\") {\n}" => "3:1", "\"t\" is already set.";
    "template(\"t\") {\n  t(\"m\") {\n  }\n}\nt(\"n\") {\n}" => "2:3", "Unknown function \"t\".";
    "template(\"w\") {\n  y = 1\n}\nw(\"x\") {\n  junk = 1\n}" => "5:8", "Assignment had no effect: \"junk\".";
    // Declared arguments.
    "declare_args() {\n  x = 1\n  y = x\n}" => "3:7", "Undefined identifier \"x\".";
    "declare_args() {\n  x = 1\n  s = {\n    y = x\n  }\n}" => "4:9", "Undefined identifier \"x\".";
    "o = 5\ndeclare_args() {\n  o += 1\n  x = o\n}" => "4:7", "Undefined identifier \"o\".";
    "a = 1\nb = 1\nprint(a, b)\ndeclare_args() {\n  b = 2\n  a = 2\n}" => "4:1", "\"a\" is already set.";
    "template(\"t\") {\n  declare_args() {\n    invoker = 1\n  }\n}\nt(\"n\") {\n}" => "2:3", "\"invoker\" is already set.";
    "group(\"g\") {\n  declare_args() {\n  }\n}" => "2:3", "\"declare_args\" is not allowed here.";
    "group(\"g\") {\n  declare_args(1)\n}" => "2:3", "\"declare_args\" is not allowed here.";
    "declare_args(q) {\n}" => "1:1", "Wrong arguments to \"declare_args\".";
    "declare_args()" => "1:1", "Wrong arguments to \"declare_args\".";
    // The build configuration alone names the default toolchain.
    "set_default_toolchain(\"//t:t\")" => "1:1", "\"set_default_toolchain\" is not allowed here.";
    "set_default_toolchain()" => "1:1", "\"set_default_toolchain\" is not allowed here.";
    "template(\"w\") {\n  y = 1\n}\nw(\"x\") {\n}" => "2:5", "Assignment had no effect: \"y\".";
    "template(\"w\") {\n  not_needed(invoker, [ \"a\" ])\n}\nw(\"x\") {\n  a = 1\n  b = 1\n}"
        => "6:5", "Assignment had no effect: \"b\".";
    "template(\"w\") {\n  print(defined(invoker))\n}\nw(\"x\") {\n  a = 1\n}" => "5:5", "Assignment had no effect: \"a\".";
    "template(\"w\") {\n  group(target_name) {\n    x = []\n    forward_variables_from(invoker, [ \"x\" ])\n  }\n}\nw(\"x\") {\n  x = []\n}"
        => "4:5", "\"x\" is already set.";
    "target(\"nope\", \"a\") {\n}" => "1:1", "Wrong arguments to \"target\".";
    "target(\"config\", \"a\") {\n}" => "1:1", "Wrong arguments to \"target\".";
    "target(\"generated_file\", \"a\") {\n}" => "1:1", "Wrong arguments to \"target\".";
    "target(1, 2) {\n}" => "1:8", "Wrong type of value.";
    "set_defaults(\"group\") {\n  target_name = 1\n}\ngroup(\"g\") {\n}" => "4:1", "\"target_name\" is already set.";
    "forward_variables_from(1, \"*\")" => "1:24", "Wrong type of value.";
    "forward_variables_from({ }, \"a\")" => "1:1", "Wrong arguments to \"forward_variables_from\".";
    "import(\"\")" => "1:8", "Invalid path.";
    "group(\"g\") {\n  x = 1\n  x = 2\n}" => "3:5", "Assignment had no effect: \"x\".";
    "x = 1\ngroup(\"g\") {\n}" => "1:3", "Assignment had no effect: \"x\".";
    "x = 1\ns = {\n  x = 2\n}\nprint(s.x)" => "1:3", "Assignment had no effect: \"x\".";
    "x = 1\ngroup(\"g\") {\n  x = 2\n  print(x)\n}" => "1:3", "Assignment had no effect: \"x\".";
    "x = 1\ngroup(\"g\") {\n  x += 2\n}" => "3:5", "Assignment had no effect: \"x\".";
    "x = 1\ngroup(\"g\") {\n  x += 2\n  x += 3\n}" => "4:5", "Assignment had no effect: \"x\".";
    "x = [ 1 ]\ngroup(\"g\") {\n  x[0] += 2\n}" => "3:8", "Assignment had no effect: \"x\".";
    // The invoker is a name of the scope of a body, set and read.
    "template(\"t\") {\n  invoker = { y = 1 }\n}\nt(\"n\") {\n}" => "2:11", "Replacing nonempty list or scope \"invoker\".";
    "template(\"o\") {\n  template(\"i\") {\n    invoker = { y = 1 }\n  }\n  i(\"x\") {\n    invoker = { z = 1 }\n  }\n}\no(\"n\") {\n}"
        => "3:13", "Replacing nonempty list or scope \"invoker\".";
    "template(\"t\") {\n  invoker += 1\n}\nt(\"n\") {\n}" => "2:11", "Wrong type of value.";
    "template(\"t\") {\n  invoker = 1\n}\nt(\"n\") {\n  a = 1\n}" => "5:5", "Assignment had no effect: \"a\".";
    "template(\"t\") {\n  group(\"g\") {\n    invoker = { y = 1 }\n  }\n}\nt(\"n\") {\n}"
        => "3:13", "Assignment had no effect: \"invoker\".";
    "template(\"t\") {\n  group(\"g\") {\n    invoker.x = 1\n  }\n}\nt(\"n\") {\n}"
        => "3:15", "Assignment had no effect: \"invoker\".";
    "s = { invoker = 1 }\ntemplate(\"t\") {\n  forward_variables_from(s, [ \"invoker\" ])\n}\nt(\"n\") {\n}"
        => "3:3", "\"invoker\" is already set.";
    "invoker = 1\ntemplate(\"t\") {\n  forward_variables_from(invoker, [ \"invoker\" ])\n}\nt(\"n\") {\n}"
        => "3:3", "\"invoker\" is already set.";
    "set_defaults(\"t\") {\n  invoker = 1\n}\ntemplate(\"t\") {\n  forward_variables_from(invoker, [ \"invoker\" ])\n}\nt(\"n\") {\n}"
        => "5:3", "\"invoker\" is already set.";
    // So is that of the body in which the call stands, as a name around the call.
    "template(\"i\") {\n  forward_variables_from(invoker, [ \"invoker\" ])\n}\ntemplate(\"o\") {\n  i(\"x\") {\n  }\n}\no(\"n\") {\n}"
        => "2:3", "\"invoker\" is already set.";
    "template(\"i\") {\n  forward_variables_from(invoker, [ \"invoker\" ])\n}\ntemplate(\"m\") {\n  i(\"x\") {\n  }\n}\ntemplate(\"o\") {\n  m(\"y\") {\n  }\n}\no(\"n\") {\n}"
        => "2:3", "\"invoker\" is already set.";
    "template(\"i\") {\n  forward_variables_from(invoker, [ \"invoker\" ])\n}\ntemplate(\"o\") {\n  group(\"g\") {\n    i(\"x\") {\n    }\n  }\n}\no(\"n\") {\n}"
        => "2:3", "\"invoker\" is already set.";
    "template(\"o\") {\n  template(\"i\") {\n    forward_variables_from(invoker, [ \"invoker\" ])\n  }\n  i(\"x\") {\n  }\n}\no(\"n\") {\n}"
        => "3:5", "\"invoker\" is already set.";
    "template(\"i\") {\n  forward_variables_from(invoker, [ \"a\", \"b\", \"invoker\" ], [ \"b\" ])\n}\ntemplate(\"o\") {\n  b = 1\n  i(\"x\") {\n    a = 1\n  }\n}\no(\"n\") {\n}"
        => "2:3", "\"invoker\" is already set.";
    "template(\"i\") {\n  a = 1\n  forward_variables_from(invoker, [ \"a\", \"invoker\" ])\n}\ntemplate(\"o\") {\n  i(\"x\") {\n    a = 2\n  }\n}\no(\"n\") {\n}"
        => "3:3", "\"a\" is already set.";
    "template(\"i\") {\n  group(\"g\") {\n    forward_variables_from(invoker, [ \"invoker\" ])\n    print(invoker.a)\n  }\n}\ntemplate(\"o\") {\n  i(\"x\") {\n    b = 1\n  }\n}\no(\"n\") {\n  a = 1\n}"
        => "9:7", "Assignment had no effect: \"b\".";
};

#[test]
fn files_say_their_lines_and_then_their_labels(rt: HostRuntime) -> Result<(), Fail> {
    for row in SAID.split_terminator('\x1e') {
        assert!(rt; row_holds(&rt, rt.alloc(), row)?, "at {row}");
    }
    Ok(())
}

#[test]
fn faults_are_said_with_their_places(rt: HostRuntime) -> Result<(), Fail> {
    for row in FAULTS.split_terminator('\x1e') {
        assert!(rt; row_holds(&rt, rt.alloc(), row)?, "at {row}");
    }
    Ok(())
}

#[test]
fn faults_of_scopes_are_said_with_their_places(rt: HostRuntime) -> Result<(), Fail> {
    for row in SCOPE_FAULTS.split_terminator('\x1e') {
        assert!(rt; row_holds(&rt, rt.alloc(), row)?, "at {row}");
    }
    Ok(())
}
