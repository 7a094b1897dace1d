// Substitution texts.

ghost use Rattle.std.specs.Prelude.{◌≡◌, ◌++◌, [], ◌∷◌, ◌+◌, ◌<◌, ◌≤◌, length, drop, Ok, IfOk, IfSome, OnOk, IfErr};
ghost use Rattle.gn_substs.specs.Pieces.{pair_at, name_from, piece_of};
ghost use Rattle.gn_substs.specs.Reading.{IsErrorOf, subst_read};
ghost use Rattle.gn_substs.specs.Expansions.{expanded, text_in, piece_with};

use crate::error::SubstError;
use crate::given::Given;
use crate::names::Substitution;
use crate::pairs::pair_at;
use crate::pieces::{Pieces, SubstPiece};
use crate::positions::{Position, substitution_at};
use gn_paths::Text;
use std::alloc::{AllocError, Global};

/// A text with substitutions: pieces, and the bytes behind the last of them.
#[derive(Debug, Drop)]
pub struct Subst {
    /// The substitutions in order, each with the bytes before it.
    pub pieces: Pieces,
    /// The bytes behind the last substitution, in which there is no `{{`.
    pub last: Text,
}

// A substitution between its braces: where these begin and end, and the substitution.
#[derive(Clone, Copy)]
pub(crate) struct BracedName {
    pub start: usize,
    pub substitution: Substitution,
    pub end: usize,
}

// The bytes from `start` on.
#[tactic(auto, using(std::proofs::lemmas::List::take_rest))]
fn from(text: &[u8], start: usize) -> &[u8]
    requires { start ≤ length text.now }
    ensures { result.now ≡ drop start text.now }
{
    &text[start..]
}

// The substitution whose `{{` stands at `start`.
#[tactic(auto, using(crate::proofs::PieceLemmas::named_there, crate::proofs::PieceLemmas::not_closed, crate::proofs::PieceLemmas::not_named))]
fn name_from(text: &[u8], start: usize, position: Position) -> Option<BracedName>
    requires { start + 2 ≤ length text.now }
    ensures value { result ≡ name_from position text.now start }
    ensures start { IfSome result (λ f. f.start ≡ start) }
    ensures after { IfSome result (λ f. start + 2 ≤ f.end) }
    ensures within { IfSome result (λ f. f.end ≤ length text.now) }
{
    let inside = from(text, start + 2);
    let close = pair_at(inside, b'}');
    if close == inside.len() {
        return None;
    }
    match substitution_at(position, &inside[..close]) {
        Some(substitution) => Some(BracedName {
            start,
            substitution,
            end: start + 2 + close + 2,
        }),
        None => None,
    }
}

// Puts the piece that ends with `found` behind the others.
fn push_piece(
    alloc: Global,
    pieces: &mut Vec<SubstPiece>,
    text: &[u8],
    found: BracedName,
) -> Result<(), AllocError>
    requires { found.start ≤ length text.now }
    ensures { OnOk result (pieces.new.items ≡ pieces.old.items ++ piece_of text.now found ∷ []) }
{
    let before = Text::from_bytes(alloc, &text[..found.start])?;
    pieces.push(SubstPiece {
        before,
        substitution: found.substitution,
    })?;
    Ok(())
}

// Puts the bytes of a piece, and what is given for its substitution, at the end.
fn append_piece(text: &mut Text, piece: &SubstPiece, given: &Given) -> Result<(), AllocError>
    ensures { OnOk result (text.new ≡ text.old ++ piece_with (text_in given.now) piece.now) }
{
    text.append(piece.before.as_bytes())?;
    text.append(given.text(piece.substitution))
}

impl Subst {
    /// Reads a text of a position: `{{`, a name of the position and `}}` is a substitution, and every other byte stands
    /// for itself.
    #[tactic(auto, using(crate::proofs::ReadLemmas::read_of_pieces, crate::proofs::ReadLemmas::read_of_bad))]
    pub fn read(alloc: Global, text: &[u8], position: Position) -> Result<Subst, SubstError>
        ensures pieces { IfOk result (λ s. subst_read position text.now ≡ Ok s) }
        ensures error { IfErr result (λ e. IsErrorOf e (subst_read position text.now)) }
    {
        let mut pieces = Vec::new(alloc);
        let mut rest = text;
        loop {
            let start = pair_at(rest, b'{');
            if start == rest.len() {
                break;
            }
            let Some(found) = name_from(rest, start, position) else {
                return Err(SubstError::UnknownSubstitution(text.len() - rest.len() + start));
            };
            push_piece(alloc, &mut pieces, rest, found)?;
            rest = from(rest, found.end);
        }
        let last = Text::from_bytes(alloc, rest)?;
        Ok(Subst {
            pieces: Pieces::from_vec(pieces),
            last,
        })
    }

    /// A new text equal to this one.
    pub fn copy(&self, alloc: Global) -> Result<Subst, AllocError>
        ensures { IfOk result (λ s. s ≡ self.now) }
    {
        let pieces = self.pieces.copy(alloc)?;
        let last = self.last.copy(alloc)?;
        Ok(Subst { pieces, last })
    }

    /// The text with what is given in place of each substitution.
    pub fn expand(&self, alloc: Global, given: &Given) -> Result<Text, AllocError>
        ensures { IfOk result (λ t. t ≡ expanded given.now self.now) }
    {
        let mut text = Text::new(alloc);
        for piece in self.pieces.as_slice() {
            append_piece(&mut text, piece, given)?;
        }
        text.append(self.last.as_bytes())?;
        Ok(text)
    }
}
