// The numbers by which the variables of layers are found.

ghost use Rattle.std.specs.Prelude.{◌≡◌, nat_eq, Some, refl};
ghost use Rattle.std.specs.Ordering.{nat_cmp};
ghost use Rattle.std.specs.Cmp.Lexicographic.{pointwise, slice_cmp, nat_list_eq_equiv, nat_list_cmp_total, texts_ties, texts_po};
ghost use Rattle.std.specs.Cmp.{partial_equiv_from_equiv};
ghost use Rattle.gn_layers.specs.Named.{key};

use gn_text::Name;
use std::cmp::Ordering;
use std::marker::Model;

/// The number of a name. Contracts see it as the list of the number alone, so that the words on layers serve names and
/// their numbers alike.
#[derive(Drop)]
pub struct NameKey {
    number: Name,
}

impl Model for NameKey {
    ghost use Rattle.std.specs.Prelude.{List, ℕ};
    ghost use Rattle.std.specs.Coded.{coded_list, coded_ℕ};
    ghost use Rattle.gn_layers.specs.Named.{key};

    ghost Value = { List ℕ };

    ghost coded = { coded_list coded_ℕ };

    ghost view = { λ a. key a.number };
}

impl NameKey {
    /// The key that is this number.
    pub fn new(number: Name) -> NameKey
        ensures { result ≡ key number }
    {
        NameKey { number }
    }

    /// The number.
    pub fn number(&self) -> Name
        ensures { self.now ≡ key result }
    {
        self.number
    }
}

impl PartialEq for NameKey {
    ghost eq = { pointwise nat_eq };

    ghost laws = { partial_equiv_from_equiv nat_list_eq_equiv };

    fn eq(&self, other: &NameKey) -> bool {
        self.number == other.number
    }
}

impl Eq for NameKey {
    ghost laws = { nat_list_eq_equiv };
}

impl PartialOrd for NameKey {
    ghost partial_cmp = { λ x y. Some (slice_cmp nat_cmp x y) };

    ghost laws = { texts_po };

    fn partial_cmp(&self, other: &NameKey) -> Option<Ordering> {
        Some(self.cmp(other))
    }
}

impl Ord for NameKey {
    ghost cmp = { slice_cmp nat_cmp };

    ghost total = { nat_list_cmp_total };

    ghost matches_partial_cmp = { λ x y. refl };

    ghost matches_eq = { texts_ties };

    fn cmp(&self, other: &NameKey) -> Ordering {
        self.number.cmp(&other.number)
    }
}
