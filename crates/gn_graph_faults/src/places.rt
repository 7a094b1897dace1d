// What the faults of targets ask of a graph beside its rules.

ghost use Rattle.std.specs.Prelude.{◌≡◌, Option, option_map};
ghost use Rattle.gn_paths.specs.declared.place.Place.{Place as Standing};
ghost use Rattle.gn_labels.specs.declared.label.Label.{Label as Named};

use gn_labels::Label;
use gn_paths::Place;
use gn_rules::Marks;

/// A graph that says where the calls stand that define its items. No call takes memory.
pub trait Places: Marks {
    // where the calls stand that define the items
    ghost places: { Self → Named → Option Standing };

    /// The place of the call that defines the item of the label; None where no item has it.
    fn place(&self, label: &Label) -> Option<&Place>
        ensures { option_map (λ place. place.now) result ≡ places self.now label.now };
}
