// A build whose graph has no fault.

ghost use Rattle.std.specs.Prelude.{◌≡◌, None, length};
ghost use Rattle.gn_projects.specs.Loaded.{items_of_build};
ghost use Rattle.gn_top.specs.GraphFaults.{graph_fault, targets_in};
ghost use Rattle.gn_top.specs.Stages.{surroundings_of};
ghost use Rattle.gn_top.specs.Views.{build_view};

use crate::building::Build;
use gn_labelled::ItemIndex;
use gn_labels::Label;

/// A build whose graph has no fault, with what was made to find that out.
#[derive(Clone, Copy)]
pub(crate) struct Faultless<'a, 'b> {
    /// The build.
    pub(crate) build: &'a Build,
    /// Its items.
    pub(crate) items: &'a ItemIndex<'b>,
    /// The targets that it generates and all that dependencies lead to from them.
    pub(crate) targets: &'a [Label],
    /// How many build files are loaded.
    pub(crate) loaded: usize,

    ghost faultless: { graph_fault (surroundings_of (build_view build.now)) (build_view build.now).loaded ≡ None },
    ghost indexed: { items.now ≡ items_of_build (build_view build.now).loaded },
    ghost counted: { loaded ≡ length (build_view build.now).loaded.loaded },
    ghost reached: { targets.now ≡ targets_in (build_view build.now).loaded },
}
