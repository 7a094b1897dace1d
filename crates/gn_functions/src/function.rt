// The calls of the language by their names, and the kinds of targets.

ghost use Rattle.std.specs.Prelude.{◌≡◌};
ghost use Rattle.std.specs.List.{list_any};
ghost use Rattle.std.specs.Str.{bytes_eq};
ghost use Rattle.gn_functions.specs.Rows.{first_named};
ghost use Rattle.gn_functions.specs.Functions.{excluded_names, plain_of, excluded_or_unknown, other_function_of, item_or_other, function_of, as_target, target_kind_of};

use gn_calls_path::PathCall;
use gn_calls_text::TextCall;
use gn_rows::ItemKind;

/// A function that needs nothing but the values of its arguments, where it stands and what has been defined before.
#[derive(Clone, Copy, PartialEq, Eq)]
pub enum Plain {
    /// `assert`
    Assert,
    /// `print`
    Print,
    /// `write_file`
    WriteFile,
    /// A call on texts and lists.
    Text(TextCall),
    /// A call on paths and labels.
    Path(PathCall),
    /// `get_target_outputs`
    TargetOutputs,
}

/// A function that needs the values of its arguments and changes where it stands.
#[derive(Clone, Copy, PartialEq, Eq)]
pub enum Changing {
    /// `import`
    Import,
    /// `template`, whose block isn't run
    Template,
    /// `forward_variables_from`
    ForwardVariablesFrom,
    /// `not_needed`
    NotNeeded,
    /// `set_default_toolchain`
    SetDefaultToolchain,
}

/// A function that opens a scope, in which its block runs.
#[derive(Clone, Copy, PartialEq, Eq)]
pub enum Opening {
    /// The definition of an item of this kind.
    Item(ItemKind),
    /// `target`
    Target,
    /// `set_defaults`
    SetDefaults,
    /// `declare_args`
    DeclareArguments,
}

/// A function of the language.
#[derive(Clone, Copy, PartialEq, Eq)]
pub enum Function {
    /// A function that needs nothing but the values of its arguments and where it stands.
    Plain(Plain),
    /// A function that needs the values of its arguments and changes where it stands.
    Changing(Changing),
    /// A function that opens a scope, in which its block runs.
    Opening(Opening),
    /// `defined`, whose argument isn't evaluated
    Defined,
    /// `foreach`, whose block runs for each item of a list
    Foreach,
    /// `read_file`, which asks for the content of a file and may evaluate it
    ReadFile,
}

/// What a name calls.
#[derive(Clone, Copy, PartialEq, Eq)]
pub enum Named {
    /// A function.
    Function(Function),
    /// A function of GN that this program leaves out.
    Excluded,
    /// No function.
    Unknown,
}

// The plain calls by their names.
const PLAIN: [(&[u8], Option<Plain>); 15] = [
    (b"assert", Some(Plain::Assert)),
    (b"print", Some(Plain::Print)),
    (b"write_file", Some(Plain::WriteFile)),
    (
        b"filter_exclude",
        Some(Plain::Text(TextCall::FilterExclude)),
    ),
    (
        b"filter_include",
        Some(Plain::Text(TextCall::FilterInclude)),
    ),
    (b"split_list", Some(Plain::Text(TextCall::SplitList))),
    (b"string_join", Some(Plain::Text(TextCall::StringJoin))),
    (
        b"string_replace",
        Some(Plain::Text(TextCall::StringReplace)),
    ),
    (b"string_split", Some(Plain::Text(TextCall::StringSplit))),
    (b"get_label_info", Some(Plain::Path(PathCall::GetLabelInfo))),
    (b"get_path_info", Some(Plain::Path(PathCall::GetPathInfo))),
    (b"label_matches", Some(Plain::Path(PathCall::LabelMatches))),
    (
        b"process_file_template",
        Some(Plain::Path(PathCall::ProcessFileTemplate)),
    ),
    (b"rebase_path", Some(Plain::Path(PathCall::RebasePath))),
    (b"get_target_outputs", Some(Plain::TargetOutputs)),
];

// What else is called by a name, but for items.
const OTHERS: [(&[u8], Named); 11] = [
    (b"defined", Named::Function(Function::Defined)),
    (b"foreach", Named::Function(Function::Foreach)),
    (
        b"import",
        Named::Function(Function::Changing(Changing::Import)),
    ),
    (
        b"template",
        Named::Function(Function::Changing(Changing::Template)),
    ),
    (
        b"target",
        Named::Function(Function::Opening(Opening::Target)),
    ),
    (
        b"set_defaults",
        Named::Function(Function::Opening(Opening::SetDefaults)),
    ),
    (
        b"declare_args",
        Named::Function(Function::Opening(Opening::DeclareArguments)),
    ),
    (
        b"forward_variables_from",
        Named::Function(Function::Changing(Changing::ForwardVariablesFrom)),
    ),
    (
        b"not_needed",
        Named::Function(Function::Changing(Changing::NotNeeded)),
    ),
    (b"read_file", Named::Function(Function::ReadFile)),
    (
        b"set_default_toolchain",
        Named::Function(Function::Changing(Changing::SetDefaultToolchain)),
    ),
];

// The functions of GN that define no items and are left out: those that the profile leaves out for good, and those that aren't
// built yet.
const EXCLUDED: [&[u8]; 11] = [
    b"bundle_data",
    b"create_bundle",
    b"exec_script",
    b"filter_labels_exclude",
    b"filter_labels_include",
    b"generated_file",
    b"getenv",
    b"path_exists",
    b"rust_library",
    b"rust_proc_macro",
    b"string_hash",
];

impl Named {
    /// What the name calls. It takes no memory.
    #[tactic(auto, unfolding(crate::specs::Functions::function_of))]
    pub fn of(name: &[u8]) -> Named
        ensures { result ≡ function_of name.now }
    {
        match plain_of(name) {
            Some(plain) => Named::Function(Function::Plain(plain)),
            None => item_or_other(ItemKind::named(name), name),
        }
    }
}

// What a name calls that is no plain call's, where it is that of this kind of items, if it is one.
fn item_or_other(kind: Option<ItemKind>, name: &[u8]) -> Named
    ensures { result ≡ item_or_other kind name.now }
{
    match kind {
        Some(kind) => Named::Function(Function::Opening(Opening::Item(kind))),
        None => other_function_of(name),
    }
}

// The plain call of this name.
#[tactic(auto, unfolding(crate::specs::Functions::plain_of))]
fn plain_of(name: &[u8]) -> Option<Plain>
    ensures { result ≡ plain_of name.now }
{
    first_named(&PLAIN, name, None)
}

// What a name calls that is no plain call's and defines no item.
#[tactic(auto, unfolding(crate::specs::Functions::other_function_of))]
fn other_function_of(name: &[u8]) -> Named
    ensures { result ≡ other_function_of name.now }
{
    first_named(&OTHERS, name, excluded_or_unknown(name))
}

// What stands at the first of these rows that has the name, or the other value where none has it.
fn first_named<T: Copy>(rows: &[(&[u8], T)], name: &[u8], otherwise: T) -> T
    ensures { result ≡ first_named rows.now name.now otherwise }
{
    for (called, value) in rows {
        if name == *called {
            return *value;
        }
    }
    otherwise
}

// The kind, if it is one of targets.
fn as_target(kind: Option<ItemKind>) -> Option<ItemKind>
    ensures { result ≡ as_target kind }
{
    match kind {
        Some(kind) if kind.is_target() => Some(kind),
        _ => None,
    }
}

/// The kind of target that a text names, as the first argument of `target` does where no template in scope has that name; None
/// exactly where it names none. It takes no memory.
pub fn target_kind(name: &[u8]) -> Option<ItemKind>
    ensures { result ≡ target_kind_of name.now }
{
    as_target(ItemKind::named(name))
}

// What a name is that calls nothing.
fn excluded_or_unknown(name: &[u8]) -> Named
    ensures { result ≡ excluded_or_unknown name.now }
{
    if is_excluded(name) {
        Named::Excluded
    } else {
        Named::Unknown
    }
}

// Whether the name is one of a function that is left out.
#[tactic(auto, unfolding(crate::specs::Functions::excluded_names))]
fn is_excluded(name: &[u8]) -> bool
    ensures { result ≡ list_any (bytes_eq name.now) excluded_names }
{
    is_one_of(name, &EXCLUDED)
}

// Whether the name is one of these.
fn is_one_of(name: &[u8], names: &[&[u8]]) -> bool
    ensures { result ≡ list_any (λ other. bytes_eq name.now other.now) names.now }
{
    for other in names {
        if name == *other {
            return true;
        }
    }
    false
}
