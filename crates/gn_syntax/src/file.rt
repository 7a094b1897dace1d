// The parser as its callers see it.

ghost use Rattle.std.specs.Prelude.{◌≡◌, ◌≤◌, IfOk, [], length};
ghost use Rattle.gn_value_model.specs.Limits.{max_bytes};
ghost use Rattle.gn_tree.specs.Depth.{max_tree_depth, expr_depth, IsShallow};
ghost use Rattle.gn_grammar.specs.Lexemes.{lexemes, last_of};
ghost use Rattle.gn_grammar.specs.Grammar.{Spells, SpellsStatements};
ghost use Rattle.gn_grammar.specs.Machine.{verdict, Good};
ghost use Rattle.gn_grammar.specs.Start.{File, Expression, wanted_of};
ghost use Rattle.gn_syntax.specs.Parsing.{Steps};
ghost use Rattle.gn_syntax.specs.Reading.{reading, expr_reading, IsAnswer};

use crate::error::{Stop, SyntaxError, error_of};
use crate::lookahead::Lookahead;
use crate::parser::Parser;
use gn_grammar::machine_is_right;
use gn_tree::{Block, SubExpr};
use std::alloc::Global;
use std::marker::Model;

/// A file that was parsed. Contracts see its tree.
#[derive(Drop)]
pub struct Parsed {
    block: Block,
}

impl Model for Parsed {
    ghost use Rattle.gn_tree.specs.Tree.{BlockTree};
    ghost use Rattle.gn_tree.specs.Code.{block_code};

    ghost Value = { BlockTree };

    ghost coded = { block_code };

    ghost view = { λ p. p.block };
}

impl Parsed {
    /// The statements of the file.
    pub fn block(&self) -> &Block
        ensures { result.now ≡ self.now }
    {
        &self.block
    }
}

/// Parses a file: the tree that the bytes spell, or their first error, of a token, of the grammar or of the nesting, whose
/// limit is 200; or want of memory.
pub fn parse(alloc: Global, bytes: &[u8]) -> Result<Parsed, SyntaxError>
    ensures read { IsAnswer result (reading bytes.now) }
    ensures shallow { IfOk result (λ parsed. length bytes.now ≤ max_bytes → IsShallow parsed) }
{
    machine_is_right();
    match whole(alloc, bytes) {
        Ok(block) => Ok(Parsed { block }),
        Err(stop) => Err(error_of(stop)),
    }
}

/// Parses one expression, which is all that the bytes hold but for white space and comments: the tree that the bytes
/// spell, or their first error, as that of a file; or want of memory.
pub fn parse_expr(alloc: Global, bytes: &[u8]) -> Result<SubExpr, SyntaxError>
    ensures read { IsAnswer result (expr_reading bytes.now) }
    ensures shallow { IfOk result (λ expr. length bytes.now ≤ max_bytes → expr_depth expr ≤ max_tree_depth) }
{
    machine_is_right();
    match whole_expr(alloc, bytes) {
        Ok(expr) => Ok(expr),
        Err(stop) => Err(error_of(stop)),
    }
}

// A parser before the first token.
fn begin(alloc: Global, bytes: &[u8]) -> Parser<'_>
    ensures tokens { result.ahead.tokens ≡ lexemes bytes.now }
    ensures last { result.ahead.last ≡ last_of bytes.now }
    ensures nesting { result.nesting ≡ 0 }
{
    Parser {
        alloc,
        ahead: Lookahead::new(bytes),
        nesting: 0,
    }
}

// The statements of a whole file. Where they are no file, the error is the verdict of the machine.
#[tactic(auto, using(crate::proofs::Whole::whole_refused, crate::proofs::Whole::whole_ends, crate::proofs::Whole::nothing_left))]
fn whole(alloc: Global, bytes: &[u8]) -> Result<Block, Stop>
    ensures tree { IfOk result (λ block. SpellsStatements block (lexemes bytes.now) []) }
    ensures reads { Steps result (verdict (last_of bytes.now) (wanted_of File) (lexemes bytes.now)) Good }
{
    let mut parser = begin(alloc, bytes);
    let block = parser.statements()?;
    if !parser.ahead.is_at_end() {
        return Err(Stop::Fault(parser.refuse()));
    }
    Ok(block)
}

// The expression that is all of the bytes. Where they are none, the error is the verdict of the machine.
#[tactic(auto, using(crate::proofs::Whole::expr_refused, crate::proofs::Whole::expr_ends, crate::proofs::Whole::nothing_left))]
fn whole_expr(alloc: Global, bytes: &[u8]) -> Result<SubExpr, Stop>
    ensures tree { IfOk result (λ expr. Spells 1 expr (lexemes bytes.now) []) }
    ensures reads { Steps result (verdict (last_of bytes.now) (wanted_of Expression) (lexemes bytes.now)) Good }
{
    let mut parser = begin(alloc, bytes);
    let expr = parser.binary(1)?;
    if !parser.ahead.is_at_end() {
        return Err(Stop::Fault(parser.refuse()));
    }
    Ok(SubExpr::new(alloc, expr)?)
}
