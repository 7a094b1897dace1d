// Targets and what they make, in memory.

ghost use Rattle.std.specs.Prelude.{◌≡◌, option_map};
ghost use Rattle.gn_chains_tests.specs.Makers.{made_in, outputs_in};

use gn_labels::Label;
use gn_paths::Text;
use gn_rules::Outputs;
use indexmap::IndexMap;

/// Targets, and what each of them makes.
#[derive(Drop)]
pub struct Makers {
    /// The targets that are generated, in label order.
    pub targets: Vec<Label>,
    /// What targets make.
    pub outputs: IndexMap<Label, Vec<Text>>,
}

impl Makers {
    // What a target makes, if it is there.
    fn outputs_of(&self, label: &Label) -> Option<&Vec<Text>>
        ensures { option_map (λ outputs. outputs.now) result ≡ outputs_in self.now label.now }
    {
        self.outputs.get(label)
    }
}

impl Outputs for Makers {
    ghost generated = { λ m. m.targets.items };

    ghost made = { made_in };

    fn generated(&self) -> &[Label] {
        self.targets.as_slice()
    }

    fn made(&self, label: &Label) -> &[Text] {
        match self.outputs_of(label) {
            None => &[],
            Some(outputs) => outputs.as_slice(),
        }
    }
}
