// Outputs that are made twice over the whole build.

ghost use Rattle.std.specs.Prelude.{◌≡◌, ◌++◌, ◌∷◌, [], List, ℕ, OnOk, IfOk};
ghost use Rattle.gn_labels.specs.declared.label.Label.{Label as Named};
ghost use Rattle.gn_rules.specs.declared.outputs.MadeOutput.{MadeOutput as Made};
ghost use Rattle.gn_rules.specs.Outputs.{output_of, made_by, made_again, repeated_outputs};

use gn_labels::Label;
use gn_paths::Text;
use indexmap::IndexSet;
use std::alloc::{AllocError, Global};

/// A graph that says which targets are generated, and what each of them makes. No call takes memory.
pub trait Outputs {
    // the targets that are generated, in label order
    ghost generated: { Self → List Named };

    // the left sides of all build lines of the file of a target
    ghost made: { Self → Named → List (List ℕ) };

    /// The targets that are generated, in label order.
    fn generated(&self) -> &[Label]
        ensures { result.now ≡ generated self.now };

    /// What a target makes: the left sides of all build lines of its file; nothing where no target has the label.
    fn made(&self, label: &Label) -> &[Text]
        ensures { result.now ≡ made self.now label.now };
}

/// An output and the target that makes it.
#[derive(Drop)]
pub struct MadeOutput {
    /// The target.
    pub label: Label,
    /// The output.
    pub output: Text,
}

// Puts an output that is made again behind the others.
fn push_again(
    alloc: Global,
    again: &mut Vec<MadeOutput>,
    label: &Label,
    output: &Text,
) -> Result<(), AllocError>
    ensures { OnOk result (again.new.items ≡ again.old.items ++ output_of label.now output.now ∷ []) }
{
    let label = label.copy(alloc)?;
    let output = output.copy(alloc)?;
    again.push(MadeOutput { label, output })?;
    Ok(())
}

// Sees an output of a target: puts it with those that were seen, or behind those that are made again.
fn see(
    alloc: Global,
    seen: &mut IndexSet<Text>,
    again: &mut Vec<MadeOutput>,
    label: &Label,
    output: &Text,
) -> Result<(), AllocError>
    ensures { OnOk result ((rest : List Made) → again.old.items ++ made_again seen.old.keys (output_of label.now output.now ∷ rest)
        ≡ again.new.items ++ made_again seen.new.keys rest) }
{
    if seen.contains(output) {
        return push_again(alloc, again, label, output);
    }
    let text = output.copy(alloc)?;
    seen.insert(text)?;
    Ok(())
}

// Sees the outputs of a target.
fn see_all(
    alloc: Global,
    seen: &mut IndexSet<Text>,
    again: &mut Vec<MadeOutput>,
    label: &Label,
    outputs: &[Text],
) -> Result<(), AllocError>
    ensures { OnOk result ((rest : List Made) → again.old.items ++ made_again seen.old.keys (made_by label.now outputs.now ++ rest)
        ≡ again.new.items ++ made_again seen.new.keys rest) }
{
    for output in outputs {
        see(alloc, seen, again, label, output)?;
    }
    Ok(())
}

/// The outputs that are made again over the whole build: of the outputs of the generated targets, by targets in label order, those
/// that stand at an earlier place too, be it of a lesser target or of the same one.
pub fn repeated_outputs<G: Outputs>(alloc: Global, graph: &G) -> Result<Vec<MadeOutput>, AllocError>
    ensures { IfOk result (λ again. again.items ≡ repeated_outputs (G.made graph.now) (G.generated graph.now)) }
{
    let mut seen = IndexSet::new(alloc);
    let mut again = Vec::new(alloc);
    for label in graph.generated() {
        see_all(alloc, &mut seen, &mut again, label, graph.made(label))?;
    }
    Ok(again)
}
