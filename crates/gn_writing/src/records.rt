// What is known of a target when its file is written. Paths are as seen from the build directory.

use crate::record_lists::{CopiedFiles, Runs, Units};
use gn_paths::{Text, Texts};

/// A build line that a tool of the toolchain carries out.
#[derive(Drop)]
pub struct Step {
    /// The rule of the tool.
    pub rule: Text,
    /// What is made; nothing where the toolchain lacks the tool.
    pub outs: Texts,
}

/// The done files of a target's dependencies.
#[derive(Drop)]
pub struct Dones {
    /// Those of `public_deps`, then of `deps`.
    pub deps: Texts,
    /// Those of `data_deps`.
    pub data_deps: Texts,
}

/// A group, which makes nothing but its stamp.
#[derive(Drop)]
pub struct Group {
    /// The stamp.
    pub stamp: Step,
    /// What it stands for.
    pub dones: Dones,
}

/// A file that a copy makes.
#[derive(Drop)]
pub struct Copied {
    /// The source.
    pub source: Text,
    /// What is made of it; nothing where the toolchain lacks the tool.
    pub outs: Texts,
}

/// A copy.
#[derive(Drop)]
pub struct CopyTarget {
    /// The rule of the tool that copies.
    pub rule: Text,
    /// The files that are made, in the order of the sources.
    pub files: CopiedFiles,
    /// The stamp.
    pub stamp: Step,
    /// What it waits for.
    pub dones: Dones,
}

/// One run of an action's script.
#[derive(Drop)]
pub struct Run {
    /// What it makes.
    pub outs: Texts,
    /// The source of which it is the run; none where the script runs once for all.
    pub ins: Texts,
    /// The sources of a script that runs once for all.
    pub sources: Texts,
    /// The arguments.
    pub args: Texts,
    /// The file that says what the run has read, where there is one.
    pub depfile: Option<Text>,
    /// The response file, where there is one.
    pub response_file: Option<Text>,
    /// The words of the response file.
    pub response: Option<Texts>,
}

/// The rule of an action.
#[derive(Drop)]
pub struct ActionRule {
    /// The name of the rule.
    pub name: Text,
    /// The text of the command.
    pub command: Text,
    /// The text of the description.
    pub description: Text,
    /// The name of the pool, empty where none is set.
    pub pool: Text,
}

/// An action, which runs its script once, or an action_foreach, which runs it once for each source.
#[derive(Drop)]
pub struct Action {
    /// The rule.
    pub rule: ActionRule,
    /// The script.
    pub script: Text,
    /// The inputs.
    pub inputs: Texts,
    /// The runs.
    pub runs: Runs,
    /// The stamp.
    pub stamp: Step,
    /// What it waits for.
    pub dones: Dones,
}

/// A source that is built, and what it is built into.
#[derive(Drop)]
pub struct Unit {
    /// The rule of the tool that builds it.
    pub rule: Text,
    /// The source.
    pub source: Text,
    /// The source's file.
    pub file_part: Text,
    /// The source's file without its extension.
    pub name_part: Text,
    /// What it is built into; nothing where the toolchain lacks the tool.
    pub outs: Texts,
}

/// The lists that the compilers of a target bind, each as words of a command.
#[derive(Drop)]
pub struct CompileFlags {
    /// Flags of the assembler.
    pub asmflags: Texts,
    /// Flags of all compilers.
    pub cflags: Texts,
    /// Flags of the C compiler.
    pub cflags_c: Texts,
    /// Flags of the C++ compiler.
    pub cflags_cc: Texts,
    /// The defines, without their `-D`.
    pub defines: Texts,
    /// The directories of headers, without their `-I`.
    pub include_dirs: Texts,
}

/// The lists that the linker of a target binds, each as words of a command; none where nothing is linked.
#[derive(Drop)]
pub struct LinkFlags {
    /// Flags of the linker, and the directories of libraries behind its switch.
    pub ldflags: Texts,
    /// The libraries, behind the switch of the linker or as paths.
    pub libs: Texts,
    /// The shared libraries that are linked.
    pub solibs: Texts,
}

/// How a compiled target is called.
#[derive(Drop)]
pub struct LabelTexts {
    /// The label.
    pub label: Text,
    /// The name in the label.
    pub name: Text,
    /// The label without its toolchain, where a text of a tool has it.
    pub no_toolchain: Option<Text>,
}

/// The output of a compiled target.
#[derive(Drop)]
pub struct OutputTexts {
    /// Its directory.
    pub directory: Text,
    /// Its extension, with the dot.
    pub extension: Text,
    /// Its name.
    pub name: Text,
}

/// The directories of a compiled target and of its toolchain.
#[derive(Drop)]
pub struct Directories {
    /// The root of the toolchain's generated files, where a text of a tool has it.
    pub root_gen_dir: Option<Text>,
    /// The root of the toolchain's outputs.
    pub root_out_dir: Text,
    /// The gen directory of the target's directory, where a text of a tool has it.
    pub target_gen_dir: Option<Text>,
    /// The obj directory of the target's directory.
    pub target_out_dir: Text,
}

/// What a compiled target makes of its own sources.
#[derive(Drop)]
pub struct OwnSources {
    /// What each object is made of besides its source.
    pub inputs: Texts,
    /// The done files for which each object waits.
    pub hard: Texts,
    /// The sources that are built.
    pub units: Units,
    /// The objects, in the order of the sources.
    pub objects: Texts,
}

/// What joins the objects of a compiled target.
#[derive(Drop)]
pub struct Join {
    /// The tool that joins them: `stamp`, `alink`, or that of the linked kind.
    pub step: Step,
    /// The objects of inherited source sets.
    pub set_objects: Texts,
    /// The inherited static libraries.
    pub statics: Texts,
    /// The done files of inherited shared libraries.
    pub shared: Texts,
    /// The done files that are made before it besides those that it joins.
    pub rest: Texts,
}

/// A target whose sources are compiled: a source_set, a static_library, or one of the linked kinds.
#[derive(Drop)]
pub struct Compiled {
    /// What its compilers bind.
    pub compile: CompileFlags,
    /// What its linker binds.
    pub link: LinkFlags,
    /// How it is called.
    pub names: LabelTexts,
    /// Its output.
    pub output: OutputTexts,
    /// Its directories.
    pub directories: Directories,
    /// Its sources.
    pub sources: OwnSources,
    /// Its last line.
    pub join: Join,
}

/// A target, by what its file is made of.
#[derive(Drop)]
pub enum Written {
    /// A group.
    Group(Group),
    /// A copy.
    Copy(CopyTarget),
    /// An action or action_foreach.
    Action(Action),
    /// A target whose sources are compiled.
    Compiled(Compiled),
}

/// A tool of a toolchain. Of each text the substitutions are written as Ninja variables, and a text that isn't set is empty.
#[derive(Drop)]
pub struct Tool {
    /// The name of the rule.
    pub rule: Text,
    /// The command.
    pub command: Text,
    /// The file that says what the command has read.
    pub depfile: Text,
    /// The form of that file.
    pub depsformat: Text,
    /// The description.
    pub description: Text,
    /// The name of the pool.
    pub pool: Text,
    /// `1` where outputs that stay as they were make nothing new.
    pub restat: Text,
    /// The response file.
    pub rspfile: Text,
    /// What the response file holds.
    pub rspfile_content: Text,
}
