// A string literal, cut into what stands for itself and what is expanded.

ghost use Rattle.std.specs.Prelude.{◌≡◌};

use crate::position::Position;
use gn_paths::Text;
use std::marker::Model;

/// What stands between the square brackets of an expansion.
#[derive(Debug, Drop)]
pub enum Subscript {
    /// An identifier, whose value is the subscript.
    Name(Text),
    /// An integer.
    Integer(i64),
}

/// A piece of a string literal.
#[derive(Debug, Drop)]
pub enum Piece {
    /// Bytes that stand for themselves, the escapes and `$0xHH` among them already replaced.
    Bytes(Text),
    /// `$name` or `${name}`
    Name {
        /// Where the `$` stands.
        position: Position,
        /// The name.
        name: Text,
    },
    /// `${base[subscript]}`
    Item {
        /// Where the `$` stands.
        position: Position,
        /// The name of the list or scope.
        base: Text,
        /// What stands between the square brackets.
        subscript: Subscript,
    },
    /// `${base.entry}`
    Entry {
        /// Where the `$` stands.
        position: Position,
        /// The name of the scope.
        base: Text,
        /// The name of the entry.
        entry: Text,
    },
}

/// The pieces of a string literal, in order.
#[derive(Debug, Drop)]
pub struct Pieces {
    pieces: Vec<Piece>,
}

impl Model for Pieces {
    ghost use Rattle.std.specs.Prelude.{List};
    ghost use Rattle.gn_tree.specs.declared.piece.Piece.{Piece};

    ghost Value = { List Piece };

    ghost view = { λ p. p.pieces.items };
}

impl Pieces {
    /// The string of these pieces, which takes no memory.
    pub fn from_vec(pieces: Vec<Piece>) -> Pieces
        ensures { result ≡ pieces.items }
    {
        Pieces { pieces }
    }

    /// The pieces, in order.
    pub fn as_slice(&self) -> &[Piece]
        ensures { result.now ≡ self.now }
    {
        self.pieces.as_slice()
    }
}
