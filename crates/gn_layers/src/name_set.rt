// A list of names in which a name is found fast.

ghost use Rattle.std.specs.Prelude.{◌≡◌, IfOk};
ghost use Rattle.gn_environment.specs.Chains.{is_one_of};

use gn_paths::Texts;
use gn_text::Names;
use std::alloc::{AllocError, Global};
use std::marker::Model;

/// A list of names. Whether a name is one of them takes about the same time however many they are.
#[derive(Drop)]
pub struct NameSet<'a> {
    names: &'a Texts,
    table: Names,
}

impl<'a> Model for NameSet<'a> {
    ghost use Rattle.std.specs.Prelude.{List, ℕ};
    ghost use Rattle.gn_layers.specs.NameSets.{HasAll};

    ghost Value = { List (List ℕ) };

    ghost view = { λ a. a.names.now };

    ghost invariant = { λ a. HasAll a.table a.names.now };
}

impl<'a> NameSet<'a> {
    /// The set of these names.
    pub fn new(alloc: Global, names: &'a Texts) -> Result<NameSet<'a>, AllocError>
        ensures { IfOk result (λ s. s ≡ names.now) }
    {
        let mut table = Names::new(alloc);
        for name in names.as_slice() {
            table.intern(name.as_bytes())?;
        }
        Ok(NameSet { names, table })
    }

    /// Whether a name is one of them. It takes no memory.
    pub fn has(&self, name: &[u8]) -> bool
        ensures { result ≡ is_one_of name.now self.now }
    {
        self.table.number(name).is_some()
    }
}
