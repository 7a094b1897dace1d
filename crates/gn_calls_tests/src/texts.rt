// Calls on texts and lists: each on its happy path and at its bounds, and the order of its faults.

use crate::rows::{calls, field, is_answer, values};
use gn_calls_text::{TextCall, call_text};
use std::alloc::{AllocError, Global};

/// Calls with their answers.
pub(crate) const TEXTS: &str = calls! {
    filter_include(["a.cc", "b.h"], ["*.cc"]) => ["a.cc"];
    filter_exclude(["a.cc", "b.h"], ["*.cc"]) => ["b.h"];
    filter_include([], ["*"]) => [];
    filter_include(["a"], []) => [];
    filter_exclude(["a"], []) => ["a"];
    filter_include(["", "a"], [""]) => [""];
    filter_include(["", "a"], ["*"]) => ["", "a"];
    filter_include(["b", "a", "b"], ["a", "b"]) => ["b", "a", "b"];
    filter_include(["a/foo", "foo", "afoo"], [r"*\bfoo"]) => ["a/foo", "foo"];
    filter_include(["foo/a", "foo", "fooa"], [r"foo\b*"]) => ["foo/a", "foo"];
    filter_include(["", "/", "//", "///"], [r"\b\b"]) => ["", "/", "//"];
    filter_include([r"a\", "a"], [r"a\"]) => ["a\\"];
    filter_include([r"\\b", r"\/", r"\"], [r"\\b"]) => ["\\/", "\\"];
    filter_include([r"\x", "x", r"\"], [r"\*"]) => ["\\x", "\\"];
    filter_include(["x␀y␊z", "ÿ"], ["x␀*␊*"]) => ["x␀y␊z"];
    filter_exclude(["x␀y", "ÿþ"], ["*þ"]) => ["x␀y"];
    filter_include(["aaaaaaaaaaaaaaaaaaaaaaaab", "b"], ["*a*a*a*a*a*a*a*a*a*a*a*a*a*a*a*a*a*a*a*a*c"]) => [];
    filter_include([1], "*") => BadTypes(0);
    filter_include("a", ["*"]) => BadTypes(0);
    filter_include(["a"], "*") => BadTypes(1);
    filter_exclude(["a"], [1]) => BadTypes(1);
    filter_include(["a"]) => BadArguments;
    filter_exclude() => BadArguments;
    filter_include(1, 1, 1) => BadArguments;
    filter_include() => BadArguments;
    filter_exclude(["a"]) => BadArguments;
    filter_exclude(1, 1, 1) => BadArguments;
    filter_include({}, []) => BadTypes(0);
    filter_include(true, true) => BadTypes(0);
    filter_include(deep(2), []) => BadTypes(0);
    filter_exclude(1, ["*"]) => BadTypes(0);
    filter_exclude("a", ["*"]) => BadTypes(0);
    filter_exclude(["a", 1], [1]) => BadTypes(0);
    filter_include([], {}) => BadTypes(1);
    filter_exclude([], true) => BadTypes(1);
    filter_exclude([], deep(2)) => BadTypes(1);
    filter_include([], []) => [];
    filter_exclude([], [""]) => [];
    filter_exclude(["", "a"], [""]) => ["a"];
    filter_exclude(["a␊b", "␊"], ["␊"]) => ["a␊b"];
    filter_include(["ÿ", "þ"], ["ÿ", "ÿ*"]) => ["ÿ"];
    split_list([1, 2, 3, 4, 5], 2) => [[1, 2, 3], [4, 5]];
    split_list([1, 2, 3, 4], 2) => [[1, 2], [3, 4]];
    split_list([1, 2, 3, 4, 5], 3) => [[1, 2], [3, 4], [5]];
    split_list([1, 2], 3) => [[1], [2], []];
    split_list([], 2) => [[], []];
    split_list(["a"], 1) => [["a"]];
    split_list(deep(200), 1) => TooLong;
    split_list([1], 1048577) => TooLong;
    split_list([1], 9223372036854775807) => TooLong;
    split_list([1], 0) => BadArguments;
    split_list([1], -1) => BadArguments;
    split_list(deep(200), -9223372036854775808) => BadArguments;
    split_list("a", "b") => BadTypes(0);
    split_list(deep(200), "b") => BadTypes(1);
    split_list([1]) => BadArguments;
    split_list(1, 1, 1) => BadArguments;
    split_list() => BadArguments;
    split_list({}, 1) => BadTypes(0);
    split_list(true, 1) => BadTypes(0);
    split_list(1, 1) => BadTypes(0);
    split_list([1], true) => BadTypes(1);
    split_list([1], [1]) => BadTypes(1);
    split_list([], {}) => BadTypes(1);
    split_list([], 1) => [[]];
    split_list([], 0) => BadArguments;
    split_list(["␀", "␊", "ÿ"], 2) => [["␀", "␊"], ["ÿ"]];
    string_join(", ", ["a", "b", "c"]) => "a, b, c";
    string_join("", ["a", "", "b"]) => "ab";
    string_join("␀", ["ÿ", "␊"]) => "ÿ␀␊";
    string_join(",", []) => "";
    string_join(",", ["a"]) => "a";
    string_join(long(1048576), ["a"]) => "a";
    string_join(long(1048576), ["", "", "", "", "", "", "", "", "", "", "", "", "", "", "", "", "", ""]) => TooLong;
    string_join(1, [1]) => BadTypes(0);
    string_join(",", "a") => BadTypes(1);
    string_join(",", [1, 2]) => BadTypes(1);
    string_join(",") => BadArguments;
    string_join(",", [], 1) => BadArguments;
    string_join() => BadArguments;
    string_join([], ["a"]) => BadTypes(0);
    string_join(true, 1) => BadTypes(0);
    string_join({}, []) => BadTypes(0);
    string_join(",", {}) => BadTypes(1);
    string_join(",", true) => BadTypes(1);
    string_join(",", deep(2)) => BadTypes(1);
    string_join("", []) => "";
    string_join("", [""]) => "";
    string_replace("aaa", "a", "b", 2) => "bba";
    string_replace("aaa", "a", "b") => "bbb";
    string_replace("aaa", "a", "aa") => "aaaaaa";
    string_replace("aaaaa", "aa", "b") => "bba";
    string_replace("abcabc", "bc", "") => "aa";
    string_replace("abc", "x", "y") => "abc";
    string_replace("a", "abc", "y") => "a";
    string_replace("", "a", "b") => "";
    string_replace("x␀yÿ", "␀", "␊") => "x␊yÿ";
    string_replace("aa", "a", "b", 0) => "aa";
    string_replace("aa", "a", "b", 9223372036854775807) => "bb";
    string_replace("aaaaaaaaaaaaaaaaa", "a", long(1048576)) => TooLong;
    string_replace("aa", "a", "b", -1) => BadArguments;
    string_replace("aa", "a", "b", -9223372036854775808) => BadArguments;
    string_replace("a", "", "b") => BadArguments;
    string_replace("a", "", "b", "c") => BadTypes(3);
    string_replace("a", "", 1) => BadTypes(2);
    string_replace("a", 1, 1, 1) => BadTypes(1);
    string_replace(1, 1, 1) => BadTypes(0);
    string_replace("a", "a") => BadArguments;
    string_replace() => BadArguments;
    string_replace("a") => BadArguments;
    string_replace("a", "a", "b", 1, 1) => BadArguments;
    string_replace({}, "a", "b") => BadTypes(0);
    string_replace(["a"], "a", "b") => BadTypes(0);
    string_replace("a", true, "b") => BadTypes(1);
    string_replace("a", "a", ["b"]) => BadTypes(2);
    string_replace("a", "a", "b", true) => BadTypes(3);
    string_replace("a", "a", "b", [1]) => BadTypes(3);
    string_replace("", "", "") => BadArguments;
    string_replace("", "", "", -1) => BadArguments;
    string_replace("a", "", "b", 0) => BadArguments;
    string_replace("", "a", "") => "";
    string_replace("a", "a", "") => "";
    string_replace("a", "a", "a") => "a";
    string_replace("a␊b␊", "␊", "␀") => "a␀b␀";
    string_replace("aÿÿþ", "ÿ", "þ", 1) => "aþÿþ";
    string_split("a,,b", ",") => ["a", "", "b"];
    string_split(",a,", ",") => ["", "a", ""];
    string_split("aXXXb", "XX") => ["a", "Xb"];
    string_split("", ",") => [""];
    string_split("a␀ÿ", "␀") => ["a", "ÿ"];
    string_split("") => [];
    string_split(" ␉␍␊") => [];
    string_split(" a␉bc␍␊␌ ␀ ") => ["a", "bc", "␌", "␀"];
    string_split("a", "") => BadArguments;
    string_split(1) => BadTypes(0);
    string_split(1, 1) => BadTypes(0);
    string_split("a", []) => BadTypes(1);
    string_split() => BadArguments;
    string_split("a", "a", 1) => BadArguments;
    string_split({}) => BadTypes(0);
    string_split(["a"]) => BadTypes(0);
    string_split(true, "a") => BadTypes(0);
    string_split("a", true) => BadTypes(1);
    string_split("a", 0) => BadTypes(1);
    string_split("", {}) => BadTypes(1);
    string_split("", "") => BadArguments;
    string_split("a␊b", "␊") => ["a", "b"];
    string_split("aÿbÿÿ", "ÿ") => ["a", "b", "", ""];
    string_split("ÿ␊þ␀") => ["ÿ", "þ␀"];
    string_split("a", "a") => ["", ""];
};

fn call_named(name: &str) -> Option<TextCall> {
    match name {
        "filter_include" => Some(TextCall::FilterInclude),
        "filter_exclude" => Some(TextCall::FilterExclude),
        "split_list" => Some(TextCall::SplitList),
        "string_join" => Some(TextCall::StringJoin),
        "string_replace" => Some(TextCall::StringReplace),
        "string_split" => Some(TextCall::StringSplit),
        _ => None,
    }
}

fn answers(alloc: Global, row: &str, call: TextCall) -> Result<bool, AllocError> {
    let values = values(alloc, field(row, 1))?;
    let answered = call_text(alloc, call, values.as_slice());
    drop(values);
    let is_so = is_answer(alloc, &answered, field(row, 2));
    drop(answered);
    is_so
}

/// Whether the call of a row answers what the row expects.
pub(crate) fn is_answered(alloc: Global, row: &str) -> Result<bool, AllocError> {
    match call_named(field(row, 0)) {
        Some(call) => answers(alloc, row, call),
        None => Ok(false),
    }
}
