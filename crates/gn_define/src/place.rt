// Where an item is defined.

use gn_paths::{Path, Text};
use gn_rows::ItemKind;

/// Where an item is defined: its kind, and what its texts depend on.
#[derive(Drop)]
pub struct Where {
    /// The kind of the item.
    pub kind: ItemKind,
    /// The directory of the file, at which relative texts start.
    pub directory: Path,
    /// The label of the toolchain under which the file is evaluated, spelled `//dir:name`.
    pub toolchain: Text,
    /// The build directory.
    pub build: Path,
    /// The output directory of the toolchain: `root_out_dir`.
    pub out: Path,
}
