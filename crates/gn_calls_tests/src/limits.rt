// Calls on strings of 16,777,216 bytes and lists of 1,048,576 items, which are the longest, and answers that would be longer.

use crate::rows::calls;

/// Calls on texts and lists.
pub(crate) const TEXTS: &str = calls! {
    filter_include(many(1048576, "a"), ["a"]) => many(1048576);
    filter_include([long(16777216), "b"], ["*a"]) => many(1);
    filter_include(["a"], [long(16777216)]) => [];
    filter_include(["a"], many(1048576, "b")) => [];
    filter_exclude(many(1048576, "a"), ["b"]) => many(1048576);
    filter_exclude([long(16777216), "b"], ["*a"]) => ["b"];
    filter_exclude(["a"], many(1048576, "b")) => ["a"];
    split_list(deep(199), 1) => many(1);
    split_list(many(1048576, ""), 1048576) => many(1048576);
    split_list([long(16777216)], 1) => many(1);
    string_join("aaaaaaaaaaaaaaa", many(1048576, "a")) => long(16777201);
    string_join("", [long(16777216)]) => long(16777216);
    string_join("", [long(16777216), "a"]) => TooLong;
    string_join(long(8388608), ["", "", ""]) => long(16777216);
    string_join(long(8388608), ["", "a", ""]) => TooLong;
    string_replace(long(16777216), "b", "c") => long(16777216);
    string_replace(long(16777216), "a", "aa", 0) => long(16777216);
    string_replace(long(16777216), "a", "aa", 1) => TooLong;
    string_replace(long(8388608), long(1048576), long(2097152)) => long(16777216);
    string_replace(long(8388609), long(1048576), long(2097152)) => TooLong;
    string_replace("a", "a", long(16777216)) => long(16777216);
    string_replace("ab", "a", long(16777216)) => TooLong;
    string_split(long(16777216)) => many(1);
    string_split(long(16777216), long(16777216)) => ["", ""];
    string_split(long(1048575), "a") => many(1048576);
    string_split(long(1048576), "a") => TooLong;
    string_split(repeat(1048576, "a␊")) => many(1048576);
    string_split(repeat(1048577, "a␊")) => TooLong;
};

/// Calls on labels and paths, with their places.
pub(crate) const PATHS: &str = calls! {
    root: get_label_info(long(16777216), "name") => BadLabel(0);
    root: get_label_info(long(16777215, ":"), "name") => long(16777215);
    root: get_label_info(long(16777213, ":"), "label_no_toolchain") => long(16777216);
    root: get_label_info(long(16777214, ":"), "label_no_toolchain") => TooLong;
    inner: label_matches(long(16777215, ":"), [":b", "*"]) => true;
    inner: label_matches(":b", many(1048576, "*")) => true;
    root: process_file_template(many(1024, "f"), many(1024, "a")) => many(1048576);
    root: process_file_template(many(1024, "f"), many(1025, "a")) => TooLong;
    root: process_file_template(many(1048576, "f"), ["a"]) => many(1048576);
    root: process_file_template(["f"], long(16777216)) => many(1);
    root: process_file_template(["f"], long(16777206, "{{source}}")) => many(1);
    root: process_file_template(["ffffffff"], long(16777206, "{{source}}")) => many(1);
    root: process_file_template(["fffffffff"], long(16777206, "{{source}}")) => TooLong;
    root: rebase_path(long(16777211)) => long(16777216);
    root: rebase_path(long(16777212)) => TooLong;
    root: rebase_path("a", long(16777216)) => "../a";
    root: rebase_path(many(1048576, "a"), "//c") => many(1048576);
    root: rebase_path(["b", long(16777214)], "//c") => TooLong;
    root: get_path_info(long(16777214), "abspath") => long(16777216);
    root: get_path_info(long(16777216), "file") => long(16777216);
    root: get_path_info(repeat(8388604, "/a"), "gen_dir") => long(16777215);
    root: get_path_info(repeat(8388605, "/a"), "out_dir") => TooLong;
    root: get_path_info(many(1048576, "a"), "dir") => many(1048576);
};

/// Contents in their forms.
pub(crate) const CONTENTS: &str = calls! {
    string(long(16777216)) => long(16777216);
    string(long(16777217)) => TooLong;
    trim_string(long(16777216, " ␊")) => long(16777216);
    trim_string(repeat(8388608, " ␊")) => "";
    lines(long(16777216)) => many(1);
    lines(repeat(1048576, "a␊")) => many(1048576);
    lines(repeat(1048577, "a␊")) => TooLong;
    trim_lines(repeat(1048576, "a␊")) => many(1048576);
    trim_lines(repeat(1048577, "a␊")) => TooLong;
};
