// Names that nothing reads.

ghost use Rattle.std.specs.Prelude.{◌≡◌, option_map};
ghost use Rattle.std.specs.Ordering.{nat_cmp, ordering_then};
ghost use Rattle.gn_layers.specs.Named.{key, numbered_name, texted, texted_layer};
ghost use Rattle.gn_environment.specs.Unread.{reported, first_unread_of, earlier, unread_at, stands_before};
ghost use Rattle.gn_layers.specs.View.{variables_in};

use crate::key::NameKey;
use crate::layer::Layer;
use crate::variable::Variable;
use gn_text::{Name, Names};
use gn_tree::Position;
use std::cmp::Ordering;
use std::collections::BTreeMap;

impl Layer {
    /// What the end of the layer reports: the number of the unread name whose last assignment stands first, of two at one
    /// position the lesser one, and that position. None comes exactly where the layer isn't checked or every name was
    /// read. It takes no memory.
    #[tactic(auto, unfolding(gn_environment::specs::Unread::reported))]
    pub fn unread(&self) -> Option<(Name, Position)>
        ensures { option_map (λ p. (key p.0, p.1)) result ≡ reported self.now }
    {
        if !self.checked {
            return None;
        }
        first_unread(&self.variables)
    }

    /// The same by names: what the end of the layer reports whose variables stand by the names of their numbers, of which
    /// `names` has each one at its number. It takes no memory.
    #[tactic(auto, unfolding(gn_environment::specs::Unread::reported))]
    pub fn unread_name<'a>(&self, names: &'a Names) -> Option<(&'a [u8], Position)>
        ensures { option_map (λ p. (p.0.now, p.1)) result ≡ reported (texted_layer names.now self.now) }
    {
        if !self.checked {
            return None;
        }
        first_unread_name(names, &self.variables)
    }
}

// The number of the unread name whose last assignment stands first.
fn first_unread(variables: &BTreeMap<NameKey, Variable>) -> Option<(Name, Position)>
    ensures { option_map (λ p. (key p.0, p.1)) result
        ≡ first_unread_of (variables_in variables.now.entries) }
{
    let mut first = None;
    for (number, variable) in variables {
        first = earlier_number(first, number.number(), variable.unread);
    }
    first
}

// The unread name whose last assignment stands first, and where that stands; `names` are those that the numbers stand for.
fn first_unread_name<'a>(
    names: &'a Names,
    variables: &BTreeMap<NameKey, Variable>,
) -> Option<(&'a [u8], Position)>
    ensures { option_map (λ p. (p.0.now, p.1)) result
        ≡ first_unread_of (texted names.now (variables_in variables.now.entries)) }
{
    let mut first = None;
    for (number, variable) in variables {
        first = earlier_name(first, numbered_name(names, number), variable.unread);
    }
    first
}

/// The name that has this number; the empty one where none has it. It takes no memory.
pub(crate) fn numbered_name<'a>(names: &'a Names, number: &NameKey) -> &'a [u8]
    ensures { result.now ≡ numbered_name names.now number.now }
{
    match names.name(number.number()) {
        Some(name) => name,
        None => b"".as_slice(),
    }
}

// Of a number at a position and a number whose name may be unread the one whose position stands first.
fn earlier_number(
    first: Option<(Name, Position)>,
    number: Name,
    unread: Option<Position>,
) -> Option<(Name, Position)>
    ensures { option_map (λ p. (key p.0, p.1)) result
        ≡ earlier (option_map (λ p. (key p.0, p.1)) first) (unread_at (key number) unread) }
{
    match (first, unread) {
        (None, None) => None,
        (None, Some(position)) => Some((number, position)),
        (Some(first), None) => Some(first),
        (Some(first), Some(position)) => {
            if number_stands_before(number, position, first) {
                Some((number, position))
            } else {
                Some(first)
            }
        }
    }
}

// The same of names.
fn earlier_name<'a>(
    first: Option<(&'a [u8], Position)>,
    name: &'a [u8],
    unread: Option<Position>,
) -> Option<(&'a [u8], Position)>
    ensures { option_map (λ p. (p.0.now, p.1)) result
        ≡ earlier (option_map (λ p. (p.0.now, p.1)) first.entry) (unread_at name.now unread) }
{
    match (first, unread) {
        (None, None) => None,
        (None, Some(position)) => Some((name, position)),
        (Some(first), None) => Some(first),
        (Some(first), Some(position)) => {
            if name_stands_before(name, position, first) {
                Some((name, position))
            } else {
                Some(first)
            }
        }
    }
}

fn number_stands_before(number: Name, position: Position, other: (Name, Position)) -> bool
    ensures { result ≡ stands_before (key number, position) (key other.0, other.1) }
{
    match order(position, other.1) {
        Ordering::Less => true,
        Ordering::Equal => number < other.0,
        Ordering::Greater => false,
    }
}

fn name_stands_before(name: &[u8], position: Position, other: (&[u8], Position)) -> bool
    ensures { result ≡ stands_before (name.now, position) (other.entry.0.now, other.entry.1) }
{
    match order(position, other.1) {
        Ordering::Less => true,
        Ordering::Equal => name < other.0,
        Ordering::Greater => false,
    }
}

// How a position stands to another: by line, then by column.
fn order(position: Position, other: Position) -> Ordering
    ensures { result ≡ ordering_then (nat_cmp position.line other.line) (nat_cmp position.column other.column) }
{
    match position.line.cmp(&other.line) {
        Ordering::Equal => position.column.cmp(&other.column),
        unequal => unequal,
    }
}
