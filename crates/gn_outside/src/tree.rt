// A tree of files in memory.
ghost use Rattle.std.specs.Prelude.{◌≡◌, OnOk, OnErr, option_map};
ghost use Rattle.std.specs.Option.{option_copied};
ghost use Rattle.gn_outside.specs.Tree.{answer_of};
ghost use Rattle.gn_outside.specs.Entries.{content_of};
ghost use Rattle.gn_outside.specs.Shown.{answer_shown};
ghost use Rattle.std.specs.FinMap as map;

use std::alloc::{AllocError, Global};
use std::collections::BTreeMap;
use std::marker::Model;

/// How many bytes a file may have whose bytes are read: a longer one is too big.
pub const MAX_BYTES: usize = 16_777_216;

/// What a tree has at a path.
#[derive(Clone, Copy, Debug, PartialEq, Eq)]
pub enum TreeFile<'a> {
    /// The bytes of a file of at most 16,777,216 bytes.
    Bytes(&'a [u8]),
    /// A longer file, or the mark of one.
    TooBig,
}

/// Files by their paths. Beside a path stands either the file's bytes or the mark of a file that is too big.
#[derive(Drop)]
pub struct Tree {
    alloc: Global,
    files: BTreeMap<String, Option<Vec<u8>>>,
}

impl Model for Tree {
    ghost use Rattle.gn_outside.specs.Tree.{Tree as TreeValue};
    ghost use Rattle.gn_outside.specs.TreeCode.{tree_code};

    ghost Value = { TreeValue };

    ghost coded = { tree_code };

    ghost use Rattle.gn_outside.specs.Entries.{tree_of};

    ghost view = { λ t. tree_of t.files.entries };
}

impl Tree {
    ghost use Rattle.gn_outside.specs.Tree.{Whole, Marked, read_of};

    /// An empty tree. It takes no memory.
    pub fn new(alloc: Global) -> Self
        ensures { result ≡ map.empty }
    {
        Tree {
            alloc,
            files: BTreeMap::new(alloc),
        }
    }

    /// Sets the file at a path, in place of what stood there.
    ///
    /// It fails for want of memory alone, and then the tree is as before.
    pub fn put(&mut self, path: &str, bytes: &[u8]) -> Result<(), AllocError>
        ensures ok { OnOk result (self.new ≡ map.insert self.old path.now (Whole bytes.now)) }
        ensures err { OnErr result (self.new ≡ self.old) }
    {
        let path = String::from_str(self.alloc, path)?;
        let bytes = bytes.to_vec(self.alloc)?;
        self.files.insert(path, Some(bytes))?;
        Ok(())
    }

    /// Sets at a path the mark of a file that is too big, in place of what stood there.
    ///
    /// It fails for want of memory alone, and then the tree is as before.
    pub fn mark(&mut self, path: &str) -> Result<(), AllocError>
        ensures ok { OnOk result (self.new ≡ map.insert self.old path.now Marked) }
        ensures err { OnErr result (self.new ≡ self.old) }
    {
        let path = String::from_str(self.alloc, path)?;
        self.files.insert(path, None)?;
        Ok(())
    }

    /// What stands at a path, or None where nothing does. It takes no memory.
    pub fn get(&self, path: &str) -> Option<TreeFile<'_>>
        ensures { answer_shown result ≡ read_of self.now path.now }
    {
        shown(self.files.get(path))
    }
}

// What is shown of an entry's bytes.
fn shown(found: Option<&Option<Vec<u8>>>) -> Option<TreeFile<'_>>
    ensures { answer_shown result ≡ answer_of (option_map content_of (option_copied found.entry)) }
{
    let bytes = found?;
    Some(match bytes {
        Some(bytes) if bytes.len() <= MAX_BYTES => TreeFile::Bytes(bytes),
        _ => TreeFile::TooBig,
    })
}
