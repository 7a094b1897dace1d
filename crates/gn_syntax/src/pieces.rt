// The pieces of a string literal.

ghost use Rattle.std.specs.Prelude.{◌≡◌, ◌≢◌, ◌++◌, ◌∷◌, ◌+◌, ◌≤◌, ◌&&◌, ◌==◌, [], true, false, length, drop, IfOk, OnOk, IfErr, MatchOption};
ghost use Rattle.gn_tokens.specs.declared.token.TokenKind.{TokenKind};
ghost use Rattle.gn_tokens.specs.Token.{IsToken};
ghost use Rattle.gn_tokens.specs.Bytes.{begins, is_escapable};
ghost use Rattle.gn_tokens.specs.Text.{item_bytes, is_stop, first_or_zero, front_item, expansion_item};
ghost use Rattle.gn_grammar.specs.Position.{further};
ghost use Rattle.gn_grammar.specs.Pieces.{pieces_of};
ghost use Rattle.gn_syntax.specs.Literals.{run_pieces, Expands, IsRest, Took, Stepped};

use crate::error::Stop;
use crate::expansion::{after_one, bytes_behind, hex_byte, is_next, named};
use gn_paths::Text;
use gn_tokens::string_is_its_items;
use gn_tree::{Piece, Pieces, Position};
use std::alloc::Global;

// What has been read of a literal: complete pieces, and the bytes behind the last of them.
#[derive(Drop)]
struct Reading {
    alloc: Global,
    pieces: Vec<Piece>,
    run: Text,
}

// The position so many bytes further in the line.
fn further(position: Position, count: usize) -> Position
    ensures { result ≡ further count position }
{
    let column = (position.column as usize).saturating_add(count);
    Position {
        line: position.line,
        column: if column < 4294967295 {
            column as u32
        } else {
            4294967295
        },
    }
}

fn first_byte(bytes: &[u8]) -> Option<u8>
    ensures { MatchOption result (bytes.now ≡ []) (λ b. bytes.now ≡ b ∷ drop 1 bytes.now) }
{
    match bytes {
        [first, ..] => Some(*first),
        [] => None,
    }
}

// Whether a literal ends at this byte.
fn is_stop(byte: u8) -> bool
    ensures { result ≡ is_stop byte }
{
    byte == b'"' || byte == b'\n'
}

// The byte that a backslash takes for itself, if the first byte is one and stands before such a byte.
fn escaped(first: u8, rest: &[u8]) -> Option<u8>
    ensures { MatchOption result ((first == 92 && begins is_escapable rest.now) ≡ false) (λ b. ((first == 92 && begins is_escapable rest.now) ≡ true) × (b ≡ first_or_zero rest.now)) }
{
    if first != b'\\' {
        return None;
    }
    match rest {
        [byte @ (b'"' | b'$' | b'\\'), ..] => Some(*byte),
        _ => None,
    }
}

impl Reading {
    // One byte more.
    fn push_byte(&mut self, byte: u8) -> Result<(), Stop>
        ensures run { OnOk result (self.new.run ≡ self.old.run ++ byte ∷ []) }
        ensures pieces { OnOk result (self.new.pieces.items ≡ self.old.pieces.items) }
        ensures err { IfErr result (λ e. e ≡ Stop.Memory) }
    {
        self.run.push(byte)?;
        Ok(())
    }

    // Ends the run of bytes.
    fn end_run(&mut self) -> Result<(), Stop>
        ensures run { OnOk result (self.new.run ≡ []) }
        ensures pieces { OnOk result (self.new.pieces.items ≡ self.old.pieces.items ++ run_pieces self.old.run) }
        ensures err { IfErr result (λ e. e ≡ Stop.Memory) }
    {
        if self.run.is_empty() {
            return Ok(());
        }
        let run = std::mem::replace(&mut self.run, Text::new(self.alloc));
        self.pieces.push(Piece::Bytes(run))?;
        Ok(())
    }

    // A piece more.
    fn push_piece(&mut self, piece: Piece) -> Result<(), Stop>
        ensures run { OnOk result (self.new.run ≡ []) }
        ensures pieces { OnOk result (self.new.pieces.items ≡ (self.old.pieces.items ++ run_pieces self.old.run) ++ piece ∷ []) }
        ensures err { IfErr result (λ e. e ≡ Stop.Memory) }
    {
        self.end_run()?;
        self.pieces.push(piece)?;
        Ok(())
    }

    // What stands behind a `$`, and how many bytes it has with the `$`.
    #[tactic(auto, using(crate::proofs::Literals::took_piece, crate::proofs::Literals::took_hex, crate::proofs::Literals::hex_right, crate::proofs::Literals::hex_len))]
    fn dollar(&mut self, position: Position, rest: &[u8]) -> Result<usize, Stop>
        requires { Expands rest.now }
        ensures took { OnOk result (Took position (expansion_item rest.now) self.old.pieces.items self.old.run self.new.pieces.items self.new.run) }
        ensures len { IfOk result (λ n. n ≡ length (item_bytes (expansion_item rest.now))) }
        ensures err { IfErr result (λ e. e ≡ Stop.Memory) }
    {
        if is_next(b'0', rest) {
            self.push_byte(hex_byte(rest))?;
            return Ok(5);
        }
        let (piece, len) = named(self.alloc, position, rest)?;
        self.push_piece(piece)?;
        Ok(len)
    }

    // The item at the front, and how many bytes it has.
    #[tactic(auto, using(crate::proofs::Literals::front_dollar, crate::proofs::Literals::took_dollar, crate::proofs::Literals::took_plain, crate::proofs::Literals::took_escape, crate::proofs::Literals::plain_len, crate::proofs::Literals::escape_len))]
    fn item(&mut self, position: Position, first: u8, rest: &[u8]) -> Result<usize, Stop>
        requires { first ≡ 36 → Expands rest.now }
        ensures took { OnOk result (Took position (front_item first rest.now) self.old.pieces.items self.old.run self.new.pieces.items self.new.run) }
        ensures len { IfOk result (λ n. n ≡ length (item_bytes (front_item first rest.now))) }
        ensures err { IfErr result (λ e. e ≡ Stop.Memory) }
    {
        if first == b'$' {
            let len = self.dollar(position, rest)?;
            return Ok(len);
        }
        if let Some(byte) = escaped(first, rest) {
            self.push_byte(byte)?;
            return Ok(2);
        }
        self.push_byte(first)?;
        Ok(1)
    }

    // The item at the front of the bytes, of which the first has this offset, and how many bytes it has; 0 at the end.
    #[tactic(auto, using(crate::proofs::Literals::front_right, crate::proofs::Literals::stepped_item, crate::proofs::Literals::stepped_end, crate::proofs::Literals::stepped_stop))]
    fn step(&mut self, position: Position, at: usize, bytes: &[u8]) -> Result<usize, Stop>
        requires { IsRest bytes.now }
        ensures ok { IfOk result (λ n. Stepped position at bytes.now self.old.pieces.items self.old.run self.new.pieces.items self.new.run n) }
        ensures err { IfErr result (λ e. e ≡ Stop.Memory) }
    {
        let Some(first) = first_byte(bytes) else {
            return Ok(0);
        };
        if is_stop(first) {
            return Ok(0);
        }
        let len = self.item(further(position, at), first, after_one(bytes))?;
        Ok(len)
    }
}

/// The pieces of a string literal with these bytes, quotes and all, whose opening quote stands at the position.
#[tactic(auto, using(crate::proofs::Literals::literal_rest, crate::proofs::Literals::literal_long, crate::proofs::Literals::literal_more, crate::proofs::Literals::rest_more, crate::proofs::Literals::literal_whole))]
pub(crate) fn pieces(alloc: Global, position: Position, text: &[u8]) -> Result<Pieces, Stop>
    requires { IsToken TokenKind.Str text.now }
    ensures ok { IfOk result (λ p. p ≡ pieces_of position text.now) }
    ensures err { IfErr result (λ e. e ≡ Stop.Memory) }
{
    string_is_its_items();
    let mut read = Reading {
        alloc,
        pieces: Vec::new(alloc),
        run: Text::new(alloc),
    };
    let mut at = 1;
    'more: loop {
        let len = read.step(position, at, bytes_behind(text, at))?;
        if len == 0 {
            read.end_run()?;
            return Ok(Pieces::from_vec(read.pieces));
        }
        at += len;
    }
}
