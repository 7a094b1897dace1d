// Names of functions and of kinds of targets.

use gn_functions::{Changing, Function, Named, Opening, Plain, target_kind};
use gn_items::ItemKind;
use std::test::Fail;

static FUNCTIONS: [(&[u8], Named); 25] = [
    (b"assert", Named::Function(Function::Plain(Plain::Assert))),
    (b"defined", Named::Function(Function::Defined)),
    (b"foreach", Named::Function(Function::Foreach)),
    (
        b"forward_variables_from",
        Named::Function(Function::Changing(Changing::ForwardVariablesFrom)),
    ),
    (
        b"import",
        Named::Function(Function::Changing(Changing::Import)),
    ),
    (
        b"not_needed",
        Named::Function(Function::Changing(Changing::NotNeeded)),
    ),
    (b"print", Named::Function(Function::Plain(Plain::Print))),
    (b"read_file", Named::Function(Function::ReadFile)),
    (
        b"set_defaults",
        Named::Function(Function::Opening(Opening::SetDefaults)),
    ),
    (
        b"set_default_toolchain",
        Named::Function(Function::Changing(Changing::SetDefaultToolchain)),
    ),
    (
        b"declare_args",
        Named::Function(Function::Opening(Opening::DeclareArguments)),
    ),
    (
        b"target",
        Named::Function(Function::Opening(Opening::Target)),
    ),
    (
        b"template",
        Named::Function(Function::Changing(Changing::Template)),
    ),
    (
        b"group",
        Named::Function(Function::Opening(Opening::Item(ItemKind::Group))),
    ),
    (
        b"write_file",
        Named::Function(Function::Plain(Plain::WriteFile)),
    ),
    (
        b"executable",
        Named::Function(Function::Opening(Opening::Item(ItemKind::Executable))),
    ),
    (
        b"config",
        Named::Function(Function::Opening(Opening::Item(ItemKind::Config))),
    ),
    (
        b"tool",
        Named::Function(Function::Opening(Opening::Item(ItemKind::Tool))),
    ),
    (b"getenv", Named::Excluded),
    (b"path_exists", Named::Excluded),
    (b"groups", Named::Unknown),
    (b"Print", Named::Unknown),
    (b"templat", Named::Unknown),
    (b"invoker", Named::Unknown),
    (b"", Named::Unknown),
];

static KINDS: [(&[u8], Option<ItemKind>); 8] = [
    (b"group", Some(ItemKind::Group)),
    (b"action", Some(ItemKind::Action)),
    (b"source_set", Some(ItemKind::SourceSet)),
    (b"static_library", Some(ItemKind::StaticLibrary)),
    (b"config", None),
    (b"generated_file", None),
    (b"template", None),
    (b"", None),
];

fn calls(row: &(&[u8], Named)) -> bool {
    Named::of(row.0) == row.1
}

fn is_kind(row: &(&[u8], Option<ItemKind>)) -> bool {
    target_kind(row.0) == row.1
}

#[test]
fn names_call_functions(rt: HostRuntime) -> Result<(), Fail> {
    for row in 0..FUNCTIONS.len() {
        assert!(rt; calls(&FUNCTIONS[row]), "at row {row}");
    }
    Ok(())
}

#[test]
fn texts_name_kinds_of_targets(rt: HostRuntime) -> Result<(), Fail> {
    for row in 0..KINDS.len() {
        assert!(rt; is_kind(&KINDS[row]), "at row {row}");
    }
    Ok(())
}
