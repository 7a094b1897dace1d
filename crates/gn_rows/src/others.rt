// The variables of configurations, pools, toolchains and tools, and what these demand.

use crate::row::RowType::{Boolean, Count, Many, One, OneOrMany, Scope, Unused};
use crate::row::StringKind::{Command, DepsFormat, Label, Library, Path, Pattern, Subst, Text};
use crate::row::{Demand, Row, Rule, demand, row};
use crate::variable::Variable;
use gn_substs::Position::{
    ToolDefaultOutputDir, ToolDependOutput, ToolLinkOutput, ToolOutputs, ToolText,
};

pub(crate) static CONFIG_ROWS: [Row; 18] = [
    row!(Visibility, OneOrMany(Pattern)),
    row!(Inputs, Unused),
    row!(IncludeDirs, Many(Path)),
    row!(LibDirs, Many(Path)),
    row!(Defines, Many(Text)),
    row!(Asmflags, Many(Text)),
    row!(Cflags, Many(Text)),
    row!(CflagsC, Many(Text)),
    row!(CflagsCc, Many(Text)),
    row!(Ldflags, Many(Text)),
    row!(Libs, Many(Library)),
    row!(Friend, Unused),
    row!(WriteRuntimeDeps, Unused),
    row!(Arflags, Unused),
    row!(CflagsObjc, Unused),
    row!(CflagsObjcc, Unused),
    row!(Frameworks, Unused),
    row!(Metadata, Unused),
];

pub(crate) static POOL_ROWS: [Row; 1] = [row!(Depth, Count)];

pub(crate) static POOL_DEMANDS: [Demand; 1] = [demand!(Depth, Required)];

pub(crate) static TOOLCHAIN_ROWS: [Row; 1] = [row!(ToolchainArgs, Scope)];

pub(crate) static TOOL_ROWS: [Row; 18] = [
    row!(Command, One(Command)),
    row!(Depfile, One(Subst(ToolText))),
    row!(Depsformat, One(DepsFormat)),
    row!(Description, One(Subst(ToolText))),
    row!(Rspfile, One(Subst(ToolText))),
    row!(RspfileContent, One(Subst(ToolText))),
    row!(LibSwitch, One(Text)),
    row!(LibDirSwitch, One(Text)),
    row!(DefaultOutputExtension, One(Text)),
    row!(DefaultOutputDir, One(Subst(ToolDefaultOutputDir))),
    row!(OutputPrefix, One(Text)),
    row!(LinkOutput, One(Subst(ToolLinkOutput))),
    row!(DependOutput, One(Subst(ToolDependOutput))),
    row!(Outputs, Many(Subst(ToolOutputs))),
    row!(Restat, Boolean),
    row!(Pool, One(Label)),
    row!(RuntimeOutputs, Unused),
    row!(PartialOutputs, Unused),
];

pub(crate) static TOOL_DEMANDS: [Demand; 2] = [
    demand!(Command, Required),
    demand!(Outputs, Required),
];

// What is demanded of `copy` and `stamp`, whose outputs each target gives.
pub(crate) static PLAIN_TOOL_DEMANDS: [Demand; 1] = [demand!(Command, Required)];
