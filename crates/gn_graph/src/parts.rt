// What is kept of rules, by parts.

ghost use Rattle.std.specs.Prelude.{◌≡◌, []};

use crate::clause::{Clause, Uses};
use crate::fact::Fact;
use crate::held::Held;
use crate::hints::Hints;
use indexmap::IndexSet;
use std::alloc::Global;

/// Rules that wait, and the facts that hold.
#[derive(Drop)]
pub(crate) struct Parts {
    // The facts that rules name: a fact's number is its place.
    pub(crate) facts: IndexSet<Fact>,
    pub(crate) hints: Hints,
    pub(crate) clauses: Vec<Clause>,
    // The facts that hold, in the order in which they were found.
    pub(crate) held: Held,
    pub(crate) uses: Uses,
}

/// No rules. It takes no memory.
pub(crate) fn no_parts(alloc: Global) -> Parts
    ensures facts { result.facts.keys ≡ [] }
    ensures clauses { result.clauses.items ≡ [] }
    ensures held { result.held ≡ [] }
{
    Parts {
        facts: IndexSet::new(alloc),
        hints: Hints::new(alloc),
        clauses: Vec::new(alloc),
        held: Held::new(alloc),
        uses: Vec::new(alloc),
    }
}
