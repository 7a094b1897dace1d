// The fields of an item.

ghost use Rattle.std.specs.Prelude.{◌≡◌, IfOk, option_map};
ghost use Rattle.gn_values.specs.View.{val_of};
ghost use Rattle.gn_define.specs.Held.{held_of};
ghost use Rattle.gn_define.specs.Fields.{entries_of, field_at, boolean_of, count_of, texts_of, paths_of, labels_of, patterns_of, substs_of, scope_of};

use crate::field::Field;
use gn_labels::{Label, Pattern};
use gn_paths::{Path, Text};
use gn_rows::Variable;
use gn_substs::Subst;
use gn_values::Value;
use std::alloc::{AllocError, Global};
use std::marker::Model;
use std::sync::Arc;

/// A variable and what it holds.
#[derive(Drop)]
pub struct Entry {
    /// The variable.
    pub variable: Variable,
    /// What it holds.
    pub field: Field,
}

/// The fields of an item, in the order of the rows of its kind. A variable that the block doesn't set has none. Several may
/// have them at once: a copy copies none of them. Contracts see a list of pairs of a variable and what it holds.
#[derive(Drop)]
pub struct Fields {
    entries: Arc<Vec<Entry>>,
}

impl Model for Fields {
    ghost use Rattle.std.specs.Prelude.{List};
    ghost use Rattle.gn_rows.specs.declared.variable.Variable.{Variable};
    ghost use Rattle.gn_define.specs.Held.{Held};
    ghost use Rattle.gn_define.specs.HeldCode.{fields_code};

    ghost Value = { List (Variable × Held) };

    ghost coded = { fields_code };

    ghost use Rattle.gn_define.specs.Fields.{entries_of};

    ghost view = { λ f. entries_of f.entries.value.items };
}

/// What a variable holds among these; None where it isn't set.
pub(crate) fn field_at(entries: &[Entry], variable: Variable) -> Option<&Field>
    ensures { option_map (λ f. held_of f.now) result ≡ field_at (entries_of entries.now) variable }
{
    for entry in entries {
        if entry.variable.has_name_of(variable) {
            return Some(&entry.field);
        }
    }
    None
}

/// The paths that a variable holds among these.
pub(crate) fn paths_at(entries: &[Entry], variable: Variable) -> &[Path]
    ensures { result.now ≡ paths_of (field_at (entries_of entries.now) variable) }
{
    match field_at(entries, variable) {
        Some(Field::Paths(paths)) => paths.as_slice(),
        _ => &[],
    }
}

impl Fields {
    /// The fields with these entries, which nobody else has.
    pub fn from_vec(alloc: Global, entries: Vec<Entry>) -> Result<Fields, AllocError>
        ensures { IfOk result (λ f. f ≡ entries_of entries.items) }
    {
        Ok(Fields {
            entries: Arc::new(alloc, entries)?,
        })
    }

    /// The same fields once more. None of them is copied.
    pub fn copy(&self) -> Result<Fields, AllocError>
        ensures { IfOk result (λ f. f ≡ self.now) }
    {
        Ok(Fields {
            entries: self.entries.clone()?,
        })
    }

    /// The variables that are set, in the order of the rows, each with what it holds.
    pub fn entries(&self) -> &[Entry]
        ensures { entries_of result.now ≡ self.now }
    {
        self.entries.as_slice()
    }

    /// What a variable holds; None where it isn't set.
    pub fn get(&self, variable: Variable) -> Option<&Field>
        ensures { option_map (λ f. held_of f.now) result ≡ field_at self.now variable }
    {
        field_at(self.entries.as_slice(), variable)
    }

    /// The boolean that a variable holds; None where it isn't set, or holds none.
    pub fn boolean(&self, variable: Variable) -> Option<bool>
        ensures { result ≡ boolean_of (field_at self.now variable) }
    {
        match self.get(variable) {
            Some(Field::Boolean(held)) => Some(*held),
            _ => None,
        }
    }

    /// The integer that a variable holds; None where it isn't set, or holds none.
    pub fn count(&self, variable: Variable) -> Option<i64>
        ensures { result ≡ count_of (field_at self.now variable) }
    {
        match self.get(variable) {
            Some(Field::Count(number)) => Some(*number),
            _ => None,
        }
    }

    /// The strings that a variable holds; none where it isn't set, or holds something else.
    pub fn texts(&self, variable: Variable) -> &[Text]
        ensures { result.now ≡ texts_of (field_at self.now variable) }
    {
        match self.get(variable) {
            Some(Field::Texts(texts)) => texts.as_slice(),
            _ => &[],
        }
    }

    /// The paths that a variable holds; none where it isn't set, or holds something else.
    pub fn paths(&self, variable: Variable) -> &[Path]
        ensures { result.now ≡ paths_of (field_at self.now variable) }
    {
        paths_at(self.entries.as_slice(), variable)
    }

    /// The labels that a variable holds; none where it isn't set, or holds something else.
    pub fn labels(&self, variable: Variable) -> &[Label]
        ensures { result.now ≡ labels_of (field_at self.now variable) }
    {
        match self.get(variable) {
            Some(Field::Labels(labels)) => labels.as_slice(),
            _ => &[],
        }
    }

    /// The patterns that a variable holds; none where it isn't set, or holds something else.
    pub fn patterns(&self, variable: Variable) -> &[Pattern]
        ensures { result.now ≡ patterns_of (field_at self.now variable) }
    {
        match self.get(variable) {
            Some(Field::Patterns(patterns)) => patterns.as_slice(),
            _ => &[],
        }
    }

    /// The substitution texts that a variable holds; none where it isn't set, or holds something else.
    pub fn substs(&self, variable: Variable) -> &[Subst]
        ensures { result.now ≡ substs_of (field_at self.now variable) }
    {
        match self.get(variable) {
            Some(Field::Substs(substs)) => substs.as_slice(),
            _ => &[],
        }
    }

    /// The scope that a variable holds; None where it isn't set, or holds none.
    pub fn scope(&self, variable: Variable) -> Option<&Value>
        ensures { option_map (λ v. val_of v.now) result ≡ scope_of (field_at self.now variable) }
    {
        match self.get(variable) {
            Some(Field::Scope(scope)) => Some(scope),
            _ => None,
        }
    }
}
