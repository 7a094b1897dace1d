// What the records of targets hand on.

ghost use Rattle.std.specs.Prelude.{◌≡◌};
ghost use Rattle.gn_dependencies.specs.Configurations.{Records};
ghost use Rattle.gn_labelled.specs.Graphs.{no_records};

use gn_labels::Label;

/// What the records of the targets that were resolved hand on. No call takes memory.
pub trait HandedOn {
    // what the records say that targets hand on
    ghost handed_on: { Self → Records };

    /// What the record of the label hands on to all that depend on it; none where it has no record.
    fn pushed(&self, label: &Label) -> &[Label]
        ensures { result.now ≡ (handed_on self.now).pushed label.now };

    /// What the record of the label hands on to those that have it as a dependency; none where it has no record.
    fn pushed_public(&self, label: &Label) -> &[Label]
        ensures { result.now ≡ (handed_on self.now).pushed_public label.now };
}

/// No target is resolved. The rules of a graph ask nothing of records.
#[derive(Clone, Copy)]
pub struct NoRecords;

impl HandedOn for NoRecords {
    ghost handed_on = { λ _. no_records };

    fn pushed(&self, _label: &Label) -> &[Label] {
        &[]
    }

    fn pushed_public(&self, _label: &Label) -> &[Label] {
        &[]
    }
}
