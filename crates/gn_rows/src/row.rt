// A row of a table: a variable and its type, and what a kind demands of its variables.

use crate::variable::Variable;
use gn_substs::Position;

/// What a string of a value is read as.
#[derive(Clone, Copy)]
pub enum StringKind {
    /// The string itself.
    Text,
    /// A path, from the directory of the file.
    Path,
    /// A path; an empty one of an action is none.
    Script,
    /// A library: a path where it holds a slash, else a name.
    Library,
    /// A label.
    Label,
    /// A pattern of labels.
    Pattern,
    /// A word of a command: a substitution text of an action, the string itself of all other kinds.
    Argument,
    /// A substitution text whose paths stand below the build directory.
    Output,
    /// A substitution text whose paths stand anywhere.
    Depfile,
    /// The command of a tool: a substitution text; an empty one is none.
    Command,
    /// A substitution text of a tool at this position.
    Subst(Position),
    /// The one way in which a tool tells what it has read: `gcc`.
    DepsFormat,
}

/// The type of a variable. A string that holds a newline or a NUL is of none of these types.
#[derive(Clone, Copy)]
pub enum RowType {
    /// A boolean.
    Boolean,
    /// An integer from 0.
    Count,
    /// A string.
    One(StringKind),
    /// A list of strings.
    Many(StringKind),
    /// A string or a list of strings.
    OneOrMany(StringKind),
    /// A scope.
    Scope,
    /// Any value: the variable is read and not used.
    Unused,
}

/// A variable and its type.
#[derive(Clone, Copy)]
pub struct Row {
    /// The variable.
    pub variable: Variable,
    /// The type.
    pub row_type: RowType,
}

/// What a kind demands of a variable.
#[derive(Clone, Copy)]
pub enum Rule {
    /// It has to be set and, where it is a list, to hold something.
    Required,
    /// It can't be set, not even to an empty list.
    Excluded,
    /// It holds one item at most.
    AtMostOne,
}

/// A variable and what a kind demands of it.
#[derive(Clone, Copy)]
pub struct Demand {
    /// The variable.
    pub variable: Variable,
    /// What is demanded.
    pub rule: Rule,
}

// A row, written `row!(Deps, Many(Label))`.
macro_rules! row {
    ($variable:ident, $row_type:expr) => {
        Row {
            variable: Variable::$variable,
            row_type: $row_type,
        }
    };
}

// A demand, written `demand!(Sources, Required)`.
macro_rules! demand {
    ($variable:ident, $rule:ident) => {
        Demand {
            variable: Variable::$variable,
            rule: Rule::$rule,
        }
    };
}

pub(crate) use demand;
pub(crate) use row;
