// The default toolchain.

ghost use Rattle.std.specs.Prelude.{◌≡◌, IfOk};
ghost use Rattle.gn_graph.specs.Facts.{place_of};
ghost use Rattle.gn_graph.specs.Needs.{home};

use crate::fact::Place;
use crate::home::home;
use gn_paths::{Path, Text};
use std::alloc::{AllocError, Global};
use std::marker::Model;

/// The text of the default toolchain's label, with the directory of the file that defines it.
#[derive(Drop)]
pub(crate) struct DefaultToolchain {
    name: Text,
    dir: Path,
}

impl Model for DefaultToolchain {
    ghost use Rattle.std.specs.Prelude.{List, ℕ, ◌≡◌};
    ghost use Rattle.gn_graph.specs.Needs.{home};

    ghost Value = { List ℕ };

    ghost view = { λ t. t.name };

    ghost invariant = { λ t. t.dir ≡ home t.name };
}

impl DefaultToolchain {
    /// The toolchain of the text of a label.
    pub(crate) fn new(alloc: Global, name: &Text) -> Result<DefaultToolchain, AllocError>
        ensures { IfOk result (λ t. t ≡ name.now) }
    {
        let dir = home(alloc, name)?;
        let name = name.copy(alloc)?;
        Ok(DefaultToolchain { name, dir })
    }

    /// The text of its label.
    pub(crate) fn name(&self) -> &Text
        ensures { result.now ≡ self.now }
    {
        &self.name
    }

    /// The directory of the file that defines it.
    pub(crate) fn place(&self) -> Place<'_>
        ensures { place_of result ≡ home self.now }
    {
        Place::Dir(&self.dir)
    }

    /// The directory of the file that defines a toolchain.
    pub(crate) fn home_of<'a>(&'a self, toolchain: &'a Text) -> Place<'a>
        ensures { place_of result ≡ home toolchain.now }
    {
        if *toolchain == self.name {
            self.place()
        } else {
            Place::Home(toolchain)
        }
    }
}
