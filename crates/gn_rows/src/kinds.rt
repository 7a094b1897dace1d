// The kinds of items, and the names of tools.

ghost use Rattle.std.specs.Prelude.{◌≡◌};
ghost use Rattle.gn_rows.specs.Names.{kind_name, is_target, first_kind_named, kind_named, tool_name, first_named, tool_named};

/// The kind of an item: the nine kinds of targets, and what else a build file defines.
#[derive(Clone, Copy, Debug, PartialEq, Eq)]
pub enum ItemKind {
    /// `group`.
    Group,
    /// `executable`.
    Executable,
    /// `static_library`.
    StaticLibrary,
    /// `shared_library`.
    SharedLibrary,
    /// `source_set`.
    SourceSet,
    /// `loadable_module`.
    LoadableModule,
    /// `action`.
    Action,
    /// `action_foreach`.
    ActionForeach,
    /// `copy`.
    Copy,
    /// `config`.
    Config,
    /// `pool`.
    Pool,
    /// `toolchain`.
    Toolchain,
    /// `tool`.
    Tool,
}

/// A tool that a toolchain can have. Tools of other names aren't in this profile.
#[derive(Clone, Copy, Debug, PartialEq, Eq)]
pub enum ToolName {
    /// `alink`.
    Alink,
    /// `asm`.
    Asm,
    /// `cc`.
    Cc,
    /// `copy`.
    Copy,
    /// `cxx`.
    Cxx,
    /// `link`.
    Link,
    /// `solink`.
    Solink,
    /// `solink_module`.
    SolinkModule,
    /// `stamp`.
    Stamp,
}

// All kinds.
static KINDS: [ItemKind; 13] = [
    ItemKind::Group,
    ItemKind::Executable,
    ItemKind::StaticLibrary,
    ItemKind::SharedLibrary,
    ItemKind::SourceSet,
    ItemKind::LoadableModule,
    ItemKind::Action,
    ItemKind::ActionForeach,
    ItemKind::Copy,
    ItemKind::Config,
    ItemKind::Pool,
    ItemKind::Toolchain,
    ItemKind::Tool,
];

// All tools, by their names.
static TOOLS: [ToolName; 9] = [
    ToolName::Alink,
    ToolName::Asm,
    ToolName::Cc,
    ToolName::Copy,
    ToolName::Cxx,
    ToolName::Link,
    ToolName::Solink,
    ToolName::SolinkModule,
    ToolName::Stamp,
];

impl ItemKind {
    /// The name of the call that defines an item of the kind.
    pub fn name(self) -> &'static [u8]
        ensures { result.now ≡ kind_name self }
    {
        match self {
            ItemKind::Group => b"group",
            ItemKind::Executable => b"executable",
            ItemKind::StaticLibrary => b"static_library",
            ItemKind::SharedLibrary => b"shared_library",
            ItemKind::SourceSet => b"source_set",
            ItemKind::LoadableModule => b"loadable_module",
            ItemKind::Action => b"action",
            ItemKind::ActionForeach => b"action_foreach",
            ItemKind::Copy => b"copy",
            ItemKind::Config => b"config",
            ItemKind::Pool => b"pool",
            ItemKind::Toolchain => b"toolchain",
            ItemKind::Tool => b"tool",
        }
    }

    /// The kind of the item that a call of this name defines; None exactly where there is none.
    pub fn named(name: &[u8]) -> Option<ItemKind>
        ensures { result ≡ kind_named name.now }
    {
        first_kind_named(&KINDS, name)
    }

    /// Whether it is a kind of target.
    pub fn is_target(self) -> bool
        ensures { result ≡ is_target self }
    {
        !matches!(
            self,
            ItemKind::Config | ItemKind::Pool | ItemKind::Toolchain | ItemKind::Tool
        )
    }
}

// The first of these kinds that has the name.
fn first_kind_named(kinds: &[ItemKind], name: &[u8]) -> Option<ItemKind>
    ensures { result ≡ first_kind_named kinds.now name.now }
{
    for kind in kinds {
        if kind.name() == name {
            return Some(*kind);
        }
    }
    None
}

impl ToolName {
    /// The name of the tool.
    pub fn name(self) -> &'static [u8]
        ensures { result.now ≡ tool_name self }
    {
        match self {
            ToolName::Alink => b"alink",
            ToolName::Asm => b"asm",
            ToolName::Cc => b"cc",
            ToolName::Copy => b"copy",
            ToolName::Cxx => b"cxx",
            ToolName::Link => b"link",
            ToolName::Solink => b"solink",
            ToolName::SolinkModule => b"solink_module",
            ToolName::Stamp => b"stamp",
        }
    }

    /// The tool of this name; None exactly where there is none.
    pub fn named(name: &[u8]) -> Option<ToolName>
        ensures { result ≡ tool_named name.now }
    {
        first_named(&TOOLS, name)
    }
}

// The first of these tools that has the name.
fn first_named(tools: &[ToolName], name: &[u8]) -> Option<ToolName>
    ensures { result ≡ first_named tools.now name.now }
{
    for tool in tools {
        if tool.name() == name {
            return Some(*tool);
        }
    }
    None
}
