// What a variable of an item holds.

use gn_labels::{Label, Pattern};
use gn_paths::{Path, Text};
use gn_substs::Subst;
use gn_values::Value;

/// What a variable holds. One string is a list of one.
#[derive(Drop)]
pub enum Field {
    /// A boolean.
    Boolean(bool),
    /// An integer.
    Count(i64),
    /// Strings.
    Texts(Vec<Text>),
    /// Paths.
    Paths(Vec<Path>),
    /// Labels.
    Labels(Vec<Label>),
    /// Patterns of labels.
    Patterns(Vec<Pattern>),
    /// Substitution texts.
    Substs(Vec<Subst>),
    /// A scope.
    Scope(Value),
    /// A value that is read and not used.
    Unused,
}
