// Names of rules and pools.

use crate::rows::{files, is_wanted, label, optional, value};
use gn_paths::{PathError, Text};
use gn_rows::ToolName;
use gn_writing::{action_rule_name, mangled, pool_name, rule_prefix, tool_rule};
use std::alloc::{AllocError, Global};
use std::test::Fail;

// Labels are printed where `//t:t` is the default toolchain.
const NAMES: &str = files! {
    { call: "mangled", of: "aZ09", } => "aZ09";
    { call: "mangled", of: "", } => "";
    { call: "mangled", of: "_", } => "_5f";
    { call: "mangled", of: "\0 /\u{7f}é", } => "_00_20_2f_7f_c3_a9";
    { call: "mangled", of: "//build:p1", } => "_2f_2fbuild_3ap1";
    { call: "tool", of: "", } => "cc";
    { call: "tool", of: "host", } => "host_cc";
    { call: "tool", of: "a/b", } => "a_2fb_cc";
    { call: "pool", dir: "//", of: "console", toolchain: "//t:t", } => "console";
    { call: "pool", dir: "//", of: "console", toolchain: "//t:u", } => "_2f_2f_3aconsole_28_2f_2ft_3au_29";
    { call: "pool", dir: "//a", of: "console", toolchain: "//t:t", } => "_2f_2fa_3aconsole";
    { call: "pool", dir: "//", of: "p", toolchain: "//t:t", } => "_2f_2f_3ap";
    { call: "pool", dir: "//build", of: "p1", toolchain: "//t:t", } => "_2f_2fbuild_3ap1";
    { call: "action", dir: "//", of: "a", toolchain: "//t:t", } => "_2f_2f_3aa_28_2f_2ft_3at_29";
    { call: "action", dir: "//test", of: "main-1", toolchain: "//tc:gcc", } => "_2f_2ftest_3amain_2d1_28_2f_2ftc_3agcc_29";
};

fn is_mangled(alloc: Global, row: &str) -> Result<bool, AllocError> {
    let name = mangled(alloc, value(row, "of").as_bytes())?;
    Ok(is_wanted(name.as_bytes(), row))
}

fn prefix(alloc: Global, row: &str) -> Result<Text, AllocError> {
    let toolchain = optional(alloc, value(row, "of"))?;
    rule_prefix(alloc, toolchain.as_ref())
}

fn is_rule_of_tool(alloc: Global, row: &str) -> Result<bool, AllocError> {
    let prefix = prefix(alloc, row)?;
    let name = tool_rule(alloc, &prefix, ToolName::Cc)?;
    Ok(is_wanted(name.as_bytes(), row))
}

fn name_of_pool(alloc: Global, row: &str) -> Result<Text, PathError> {
    let pool = label(
        alloc,
        value(row, "dir"),
        value(row, "of"),
        value(row, "toolchain"),
    )?;
    let default = Text::from_bytes(alloc, b"//t:t")?;
    Ok(pool_name(alloc, &pool, &default)?)
}

fn is_name_of_pool(alloc: Global, row: &str) -> Result<bool, PathError> {
    let name = name_of_pool(alloc, row)?;
    Ok(is_wanted(name.as_bytes(), row))
}

fn rule_of_action(alloc: Global, row: &str) -> Result<Text, PathError> {
    let action = label(
        alloc,
        value(row, "dir"),
        value(row, "of"),
        value(row, "toolchain"),
    )?;
    Ok(action_rule_name(alloc, &action)?)
}

fn is_rule_of_action(alloc: Global, row: &str) -> Result<bool, PathError> {
    let name = rule_of_action(alloc, row)?;
    Ok(is_wanted(name.as_bytes(), row))
}

fn is_named(alloc: Global, row: &str) -> Result<bool, PathError> {
    match value(row, "call") {
        "mangled" => Ok(is_mangled(alloc, row)?),
        "tool" => Ok(is_rule_of_tool(alloc, row)?),
        "pool" => is_name_of_pool(alloc, row),
        _ => is_rule_of_action(alloc, row),
    }
}

#[test]
fn rules_and_pools_are_named(rt: HostRuntime) -> Result<(), Fail> {
    for row in NAMES.split_terminator('\x1e') {
        assert!(rt; is_named(rt.alloc(), row)?, "at {row}");
    }
    Ok(())
}
