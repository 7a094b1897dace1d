// The pieces of a substitution text.

ghost use Rattle.std.specs.Prelude.{◌≡◌, IfOk};

use crate::names::Substitution;
use gn_paths::Text;
use std::alloc::{AllocError, Global};
use std::marker::Model;

/// Bytes, and the substitution that stands behind them.
#[derive(Debug, Drop)]
pub struct SubstPiece {
    /// The bytes before the substitution, in which there is no `{{`.
    pub before: Text,
    /// The substitution.
    pub substitution: Substitution,
}

impl SubstPiece {
    /// A new piece equal to this one.
    pub fn copy(&self, alloc: Global) -> Result<SubstPiece, AllocError>
        ensures { IfOk result (λ p. p ≡ self.now) }
    {
        let before = self.before.copy(alloc)?;
        Ok(SubstPiece {
            before,
            substitution: self.substitution,
        })
    }
}

/// Pieces in order.
#[derive(Debug, Drop)]
pub struct Pieces {
    list: Vec<SubstPiece>,
}

impl Model for Pieces {
    ghost use Rattle.std.specs.Prelude.{List};
    ghost use Rattle.gn_substs.specs.declared.pieces.SubstPiece.{SubstPiece};

    ghost Value = { List SubstPiece };

    ghost view = { λ p. p.list.items };
}

impl Pieces {
    /// These pieces, which takes no memory.
    pub fn from_vec(list: Vec<SubstPiece>) -> Pieces
        ensures { result ≡ list.items }
    {
        Pieces { list }
    }

    /// The pieces, in order.
    pub fn as_slice(&self) -> &[SubstPiece]
        ensures { result.now ≡ self.now }
    {
        self.list.as_slice()
    }

    /// New pieces equal to these.
    pub fn copy(&self, alloc: Global) -> Result<Pieces, AllocError>
        ensures { IfOk result (λ p. p ≡ self.now) }
    {
        let mut list = Vec::with_capacity(alloc, self.list.len())?;
        for piece in self.list.as_slice() {
            list.push(piece.copy(alloc)?)?;
        }
        Ok(Pieces { list })
    }
}
