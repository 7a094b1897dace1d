// Paths that stand once each.

ghost use Rattle.std.specs.Prelude.{◌≡◌, [], OnOk};
ghost use Rattle.gn_define.specs.Outputs.{with_new};

use gn_paths::Text;
use std::alloc::{AllocError, Global};
use std::collections::BTreeSet;
use std::marker::Model;

/// Paths in the order in which they came, each once. Whether a path is new is found among logarithmically many.
#[derive(Drop)]
pub(crate) struct DistinctPaths {
    alloc: Global,
    paths: Vec<Text>,
    // The same paths, to be looked up.
    known: BTreeSet<Text>,
}

impl Model for DistinctPaths {
    ghost use Rattle.std.specs.Prelude.{List, ℕ};
    ghost use Rattle.std.specs.Coded.{coded_list, coded_ℕ};

    ghost Value = { List (List ℕ) };

    ghost coded = { coded_list (coded_list coded_ℕ) };

    ghost view = { λ d. d.paths.items };

    ghost use Rattle.gn_define.specs.Known.{HasPaths};

    ghost invariant = { λ d. HasPaths d.known d.paths.items };
}

impl DistinctPaths {
    // No paths. It takes no memory.
    pub(crate) fn new(alloc: Global) -> DistinctPaths
        ensures { result ≡ [] }
    {
        DistinctPaths {
            alloc,
            paths: Vec::new(alloc),
            known: BTreeSet::new(alloc),
        }
    }

    // Puts a path behind the others, if it isn't there yet.
    pub(crate) fn put(&mut self, path: Text) -> Result<(), AllocError>
        ensures { OnOk result (self.new ≡ with_new self.old path) }
    {
        if self.known.contains(&path) {
            return Ok(());
        }
        let key = path.copy(self.alloc)?;
        self.paths.reserve(1)?;
        self.known.insert(key)?;
        self.paths.push(path)?;
        Ok(())
    }

    // The paths in their order. It takes no memory.
    pub(crate) fn into_vec(self) -> Vec<Text>
        ensures { result.items ≡ self }
    {
        self.paths
    }
}
