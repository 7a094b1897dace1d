// The variables of targets, in the order in which they are looked at, and what the kinds of targets demand.

use crate::row::RowType::{Boolean, Many, One, OneOrMany, Unused};
use crate::row::StringKind::{
    Argument, Depfile, Label, Library, Output, Path, Pattern, Script, Text,
};
use crate::row::{Demand, Row, Rule, demand, row};
use crate::variable::Variable;

// A target of any kind.
pub(crate) static TARGET_ROWS: [Row; 41] = [
    row!(Testonly, Boolean),
    row!(CheckIncludes, Boolean),
    row!(OutputPrefixOverride, Boolean),
    row!(Visibility, OneOrMany(Pattern)),
    row!(PublicDeps, Many(Label)),
    row!(Deps, Many(Label)),
    row!(DataDeps, Many(Label)),
    row!(Configs, Many(Label)),
    row!(PublicConfigs, Many(Label)),
    row!(AllDependentConfigs, Many(Label)),
    row!(AllowCircularIncludesFrom, Many(Label)),
    row!(AssertNoDeps, Many(Pattern)),
    row!(Sources, Many(Path)),
    row!(Public, Many(Path)),
    row!(Inputs, Many(Path)),
    row!(Data, Many(Path)),
    row!(IncludeDirs, Many(Path)),
    row!(LibDirs, Many(Path)),
    row!(Defines, Many(Text)),
    row!(Asmflags, Many(Text)),
    row!(Cflags, Many(Text)),
    row!(CflagsC, Many(Text)),
    row!(CflagsCc, Many(Text)),
    row!(Ldflags, Many(Text)),
    row!(Libs, Many(Library)),
    row!(Args, Many(Argument)),
    row!(ResponseFileContents, Many(Text)),
    row!(OutputName, One(Text)),
    row!(OutputExtension, One(Text)),
    row!(OutputDir, One(Path)),
    row!(Script, One(Script)),
    row!(Outputs, Many(Output)),
    row!(Depfile, One(Depfile)),
    row!(Pool, One(Label)),
    row!(Friend, Unused),
    row!(WriteRuntimeDeps, Unused),
    row!(Arflags, Unused),
    row!(CflagsObjc, Unused),
    row!(CflagsObjcc, Unused),
    row!(Frameworks, Unused),
    row!(Metadata, Unused),
];

pub(crate) static ACTION_DEMANDS: [Demand; 2] = [
    demand!(Script, Required),
    demand!(Outputs, Required),
];

pub(crate) static FOREACH_DEMANDS: [Demand; 4] = [
    demand!(Script, Required),
    demand!(Outputs, Required),
    demand!(Sources, Required),
    demand!(ResponseFileContents, Excluded),
];

pub(crate) static COPY_DEMANDS: [Demand; 3] = [
    demand!(Sources, Required),
    demand!(Outputs, Required),
    demand!(Outputs, AtMostOne),
];
