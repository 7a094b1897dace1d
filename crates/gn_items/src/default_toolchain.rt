// The default toolchain, as a build configuration names it.

use gn_labels::Named;
use gn_paths::Place;

/// The default toolchain, as a build configuration names it.
#[derive(Drop)]
pub struct DefaultToolchain {
    /// The directory and the name of its label.
    pub label: Named,
    /// Where the name of the call stands that names it.
    pub place: Place,
}
