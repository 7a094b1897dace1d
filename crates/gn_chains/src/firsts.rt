// Labels of which each counts once, at its first place.

ghost use Rattle.std.specs.Prelude.{◌≡◌, ◌<◌, ◌++◌, ◌∷◌, [], OnOk, IfOk, IfSome, IfNone, if◌then◌else◌, length, slice_get, Some, false};
ghost use Rattle.std.specs.List.{IsDistinct};
ghost use Rattle.gn_dependencies.specs.Lists.{same_label, has, added};

use gn_labels::Label;
use indexmap::IndexSet;
use std::alloc::{AllocError, Global};
use std::marker::Model;

/// Labels of which each stands once, at its first place. Contracts see the list of them.
#[derive(Drop)]
pub struct Firsts {
    alloc: Global,
    labels: IndexSet<Label>,
}

impl Model for Firsts {
    ghost use Rattle.std.specs.Prelude.{List};
    ghost use Rattle.std.specs.Coded.{coded_list};
    ghost use Rattle.std.specs.List.{IsDistinct};
    ghost use Rattle.gn_labels.specs.declared.label.Label.{Label};
    ghost use Rattle.gn_labels.specs.contracts.label.Label.{the_row};
    ghost use Rattle.gn_dependencies.specs.Lists.{same_label};

    ghost Value = { List Label };

    ghost coded = { coded_list the_row.coded };

    ghost view = { λ s. s.labels.keys };

    ghost invariant = { λ s. IsDistinct same_label s.labels.keys };
}

impl Firsts {
    /// No labels. It takes no memory.
    pub fn new(alloc: Global) -> Firsts
        ensures { result ≡ [] }
    {
        Firsts {
            alloc,
            labels: IndexSet::new(alloc),
        }
    }

    /// Puts a label behind the others, unless it is there.
    pub fn add(&mut self, label: &Label) -> Result<(), AllocError>
        ensures { OnOk result (self.new ≡ (if has self.old label.now then self.old else self.old ++ label.now ∷ [])) }
    {
        if self.labels.contains(label) {
            return Ok(());
        }
        let label = label.copy(self.alloc)?;
        self.labels.insert(label)?;
        Ok(())
    }

    /// Puts those of the labels behind the others that aren't there.
    pub fn add_all(&mut self, labels: &[Label]) -> Result<(), AllocError>
        ensures { OnOk result (self.new ≡ added self.old labels.now) }
    {
        for label in labels {
            self.add(label)?;
        }
        Ok(())
    }

    /// Whether a label is there. It takes no memory.
    pub fn has(&self, label: &Label) -> bool
        ensures { result ≡ has self.now label.now }
    {
        self.labels.contains(label)
    }

    /// The labels, in order. It takes no memory.
    pub fn as_slice(&self) -> &[Label]
        ensures labels { result.now ≡ self.now }
        ensures once { IsDistinct same_label self.now }
    {
        self.labels.as_slice()
    }

    /// How many labels there are. It takes no memory.
    pub fn len(&self) -> usize
        ensures len { result ≡ length self.now }
        ensures once { IsDistinct same_label self.now }
    {
        self.labels.as_slice().len()
    }

    /// The label at a place, from 0, at which there must be one. It takes no memory.
    pub fn at(&self, place: usize) -> &Label
        requires { place < length self.now }
        ensures { slice_get self.now place ≡ Some result.now }
    {
        &self.labels.as_slice()[place]
    }

    /// The place of a label; None where it isn't there. It takes no memory.
    pub fn number(&self, label: &Label) -> Option<usize>
        ensures found { IfSome result (λ n. slice_get self.now n ≡ Some label.now) }
        ensures lacking { IfNone result (has self.now label.now ≡ false) }
        ensures once { IsDistinct same_label self.now }
    {
        self.labels.get_index_of(label)
    }

    /// The labels, in order.
    pub fn into_vec(self) -> Result<Vec<Label>, AllocError>
        ensures { IfOk result (λ labels. labels.items ≡ self) }
    {
        self.labels.into_iter().collect(self.alloc)
    }
}
