// A path in normal form.

ghost use Rattle.std.specs.Prelude.{◌≡◌, IfOk, Some, nat_eq, refl};
ghost use Rattle.std.specs.Ordering.{nat_cmp};
ghost use Rattle.std.specs.Hash as fed;
ghost use Rattle.std.specs.Cmp.Lexicographic.{pointwise, slice_cmp, nat_list_eq_equiv, nat_list_cmp_total, texts_ties, texts_po};
ghost use Rattle.std.specs.Cmp.{partial_equiv_from_equiv};
ghost use Rattle.std.specs.Cmp.Rules.{hashing};
ghost use Rattle.std.proofs.Common.{rules};
ghost use Rattle.gn_paths.specs.Components.{two_slashes, is_system};
ghost use Rattle.gn_paths.specs.Normal.{IsNormal};

use crate::components::is_system;
use crate::text::Text;
use std::alloc::{AllocError, Global};
use std::cmp::Ordering;
use std::hash::{Hash, Hasher};
use std::marker::Model;

/// A path in normal form: `//` and plain components of the source tree, or a system path as it
/// stands; it is UTF-8 and holds no NUL and no newline. Two paths are equal where their bytes are,
/// and their order is that of their bytes.
#[derive(Debug, Drop)]
pub struct Path {
    text: Text,
}

impl Model for Path {
    ghost use Rattle.std.specs.Prelude.{List, ℕ};
    ghost use Rattle.std.specs.Coded.{coded_list, coded_ℕ};
    ghost use Rattle.gn_paths.specs.Normal.{IsNormal};

    ghost Value = { List ℕ };

    ghost coded = { coded_list coded_ℕ };

    ghost view = { λ p. p.text };

    ghost invariant = { λ p. IsNormal p.text };
}

impl Path {
    /// The source root, `//`.
    pub fn root(alloc: Global) -> Result<Path, AllocError>
        ensures { IfOk result (λ p. p ≡ two_slashes) }
    {
        Ok(Path {
            text: Text::from_bytes(alloc, b"//")?,
        })
    }

    // The path of a text in normal form.
    pub(crate) fn from_normal(text: Text) -> Path
        requires { IsNormal text }
        ensures { result ≡ text }
    {
        Path { text }
    }

    /// Whether the path is a system path, and no path of the source tree.
    pub fn is_system(&self) -> bool
        ensures { result ≡ is_system self.now }
    {
        is_system(self.as_bytes())
    }

    /// The bytes of the path.
    pub fn as_bytes(&self) -> &[u8]
        ensures value { result.now ≡ self.now }
        ensures normal { IsNormal self.now }
    {
        self.text.as_bytes()
    }

    /// The path as a text.
    pub fn as_text(&self) -> &Text
        ensures value { result.now ≡ self.now }
        ensures normal { IsNormal self.now }
    {
        &self.text
    }

    /// The path as a `&str`.
    pub fn as_str(&self) -> &str
        ensures value { result.now ≡ self.now }
        ensures normal { IsNormal self.now }
    {
        str::from_utf8(self.text.as_bytes()).unwrap()
    }

    /// A new path equal to this one.
    pub fn copy(&self, alloc: Global) -> Result<Path, AllocError>
        ensures { IfOk result (λ p. p ≡ self.now) }
    {
        Ok(Path {
            text: self.text.copy(alloc)?,
        })
    }
}

impl PartialEq for Path {
    ghost eq = { pointwise nat_eq };

    ghost laws = { partial_equiv_from_equiv nat_list_eq_equiv };

    fn eq(&self, other: &Path) -> bool {
        self.as_bytes() == other.as_bytes()
    }
}

impl Eq for Path {
    ghost laws = { nat_list_eq_equiv };
}

impl PartialOrd for Path {
    ghost partial_cmp = { λ x y. Some (slice_cmp nat_cmp x y) };

    ghost laws = { texts_po };

    fn partial_cmp(&self, other: &Path) -> Option<Ordering> {
        Some(self.cmp(other))
    }
}

impl Ord for Path {
    ghost cmp = { slice_cmp nat_cmp };

    ghost total = { nat_list_cmp_total };

    ghost matches_partial_cmp = { λ x y. refl };

    ghost matches_eq = { texts_ties };

    fn cmp(&self, other: &Path) -> Ordering {
        self.as_bytes().cmp(other.as_bytes())
    }
}

impl Hash for Path {
    ghost hash_input = { fed.slice fed.u8 };

    ghost respects_eq = { Prim.search (hashing, rules) };

    fn hash<H: Hasher>(&self, state: &mut H) {
        self.as_bytes().hash(state);
    }
}
