// The variables of items, and their names.

ghost use Rattle.std.specs.Prelude.{◌≡◌};
ghost use Rattle.std.specs.Str.{bytes_eq};
ghost use Rattle.gn_rows.specs.Names.{variable_name};

/// A variable that the block of an item can set.
#[derive(Clone, Copy, Debug, PartialEq, Eq)]
pub enum Variable {
    /// `testonly`.
    Testonly,
    /// `check_includes`.
    CheckIncludes,
    /// `output_prefix_override`.
    OutputPrefixOverride,
    /// `visibility`.
    Visibility,
    /// `public_deps`.
    PublicDeps,
    /// `deps`.
    Deps,
    /// `data_deps`.
    DataDeps,
    /// `configs`.
    Configs,
    /// `public_configs`.
    PublicConfigs,
    /// `all_dependent_configs`.
    AllDependentConfigs,
    /// `allow_circular_includes_from`.
    AllowCircularIncludesFrom,
    /// `assert_no_deps`.
    AssertNoDeps,
    /// `sources`.
    Sources,
    /// `public`.
    Public,
    /// `inputs`.
    Inputs,
    /// `data`.
    Data,
    /// `include_dirs`.
    IncludeDirs,
    /// `lib_dirs`.
    LibDirs,
    /// `defines`.
    Defines,
    /// `asmflags`.
    Asmflags,
    /// `cflags`.
    Cflags,
    /// `cflags_c`.
    CflagsC,
    /// `cflags_cc`.
    CflagsCc,
    /// `ldflags`.
    Ldflags,
    /// `libs`.
    Libs,
    /// `args`.
    Args,
    /// `response_file_contents`.
    ResponseFileContents,
    /// `output_name`.
    OutputName,
    /// `output_extension`.
    OutputExtension,
    /// `output_dir`.
    OutputDir,
    /// `script`.
    Script,
    /// `outputs`.
    Outputs,
    /// `depfile`.
    Depfile,
    /// `pool`.
    Pool,
    /// `friend`.
    Friend,
    /// `write_runtime_deps`.
    WriteRuntimeDeps,
    /// `arflags`.
    Arflags,
    /// `cflags_objc`.
    CflagsObjc,
    /// `cflags_objcc`.
    CflagsObjcc,
    /// `frameworks`.
    Frameworks,
    /// `metadata`.
    Metadata,
    /// `depth`.
    Depth,
    /// `toolchain_args`.
    ToolchainArgs,
    /// `command`.
    Command,
    /// `depsformat`.
    Depsformat,
    /// `description`.
    Description,
    /// `rspfile`.
    Rspfile,
    /// `rspfile_content`.
    RspfileContent,
    /// `lib_switch`.
    LibSwitch,
    /// `lib_dir_switch`.
    LibDirSwitch,
    /// `default_output_extension`.
    DefaultOutputExtension,
    /// `default_output_dir`.
    DefaultOutputDir,
    /// `output_prefix`.
    OutputPrefix,
    /// `link_output`.
    LinkOutput,
    /// `depend_output`.
    DependOutput,
    /// `restat`.
    Restat,
    /// `runtime_outputs`.
    RuntimeOutputs,
    /// `partial_outputs`.
    PartialOutputs,
}

impl Variable {
    /// Whether the two have one name, as a build file writes it. It takes one comparison, since no two variables have one name.
    pub fn has_name_of(self, other: Variable) -> bool
        ensures { result ≡ bytes_eq (variable_name self) (variable_name other) }
    {
        self == other
    }

    /// The name of the variable, as a build file writes it.
    pub fn name(self) -> &'static [u8]
        ensures { result.now ≡ variable_name self }
    {
        match self {
            Variable::Testonly => b"testonly",
            Variable::CheckIncludes => b"check_includes",
            Variable::OutputPrefixOverride => b"output_prefix_override",
            Variable::Visibility => b"visibility",
            Variable::PublicDeps => b"public_deps",
            Variable::Deps => b"deps",
            Variable::DataDeps => b"data_deps",
            Variable::Configs => b"configs",
            Variable::PublicConfigs => b"public_configs",
            Variable::AllDependentConfigs => b"all_dependent_configs",
            Variable::AllowCircularIncludesFrom => b"allow_circular_includes_from",
            Variable::AssertNoDeps => b"assert_no_deps",
            Variable::Sources => b"sources",
            Variable::Public => b"public",
            Variable::Inputs => b"inputs",
            Variable::Data => b"data",
            Variable::IncludeDirs => b"include_dirs",
            Variable::LibDirs => b"lib_dirs",
            Variable::Defines => b"defines",
            Variable::Asmflags => b"asmflags",
            Variable::Cflags => b"cflags",
            Variable::CflagsC => b"cflags_c",
            Variable::CflagsCc => b"cflags_cc",
            Variable::Ldflags => b"ldflags",
            Variable::Libs => b"libs",
            Variable::Args => b"args",
            Variable::ResponseFileContents => b"response_file_contents",
            Variable::OutputName => b"output_name",
            Variable::OutputExtension => b"output_extension",
            Variable::OutputDir => b"output_dir",
            Variable::Script => b"script",
            Variable::Outputs => b"outputs",
            Variable::Depfile => b"depfile",
            Variable::Pool => b"pool",
            Variable::Friend => b"friend",
            Variable::WriteRuntimeDeps => b"write_runtime_deps",
            Variable::Arflags => b"arflags",
            Variable::CflagsObjc => b"cflags_objc",
            Variable::CflagsObjcc => b"cflags_objcc",
            Variable::Frameworks => b"frameworks",
            Variable::Metadata => b"metadata",
            Variable::Depth => b"depth",
            Variable::ToolchainArgs => b"toolchain_args",
            Variable::Command => b"command",
            Variable::Depsformat => b"depsformat",
            Variable::Description => b"description",
            Variable::Rspfile => b"rspfile",
            Variable::RspfileContent => b"rspfile_content",
            Variable::LibSwitch => b"lib_switch",
            Variable::LibDirSwitch => b"lib_dir_switch",
            Variable::DefaultOutputExtension => b"default_output_extension",
            Variable::DefaultOutputDir => b"default_output_dir",
            Variable::OutputPrefix => b"output_prefix",
            Variable::LinkOutput => b"link_output",
            Variable::DependOutput => b"depend_output",
            Variable::Restat => b"restat",
            Variable::RuntimeOutputs => b"runtime_outputs",
            Variable::PartialOutputs => b"partial_outputs",
        }
    }
}
