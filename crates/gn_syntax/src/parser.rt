// The state of the parser, and its steps.

ghost use Rattle.std.specs.Prelude.{◌≡◌, ◌≢◌, ◌+◌, ◌<◌, ◌≤◌, true, false, Some, IfOk, OnOk, IfErr, MatchOption};
ghost use Rattle.gn_tokens.specs.declared.token.TokenKind.{TokenKind};
ghost use Rattle.gn_grammar.specs.Grammar.{priority, mark_of};
ghost use Rattle.gn_syntax.specs.Parsing.{front, rest_of, start_of, position_at, text_at, level, refusal};

use crate::error::Stop;
use crate::lookahead::Lookahead;
use crate::operator::{operator_of, priority};
use gn_grammar::SyntaxFault;
use gn_paths::Text;
use gn_tokens::TokenKind;
use gn_tree::{BinaryOp, Position};
use std::alloc::Global;

const MAX_NESTING: u32 = 200;

/// Reads a file: the tokens that are left of it, and how deep the next one is nested.
#[derive(Drop)]
pub(crate) struct Parser<'a> {
    pub(crate) alloc: Global,
    pub(crate) ahead: Lookahead<'a>,
    pub(crate) nesting: u32,
}

impl<'a> Parser<'a> {
    /// The kind of the next token.
    pub(crate) fn peek(&self) -> Option<TokenKind>
        ensures { result ≡ front self.now.ahead.tokens }
    {
        self.ahead.peek()
    }

    /// The position of the next token.
    pub(crate) fn position(&self) -> Position
        ensures { result ≡ position_at self.now.ahead.tokens }
    {
        self.ahead.position()
    }

    /// The error of a file in which the next token cannot come.
    pub(crate) fn refuse(&self) -> SyntaxFault
        ensures { result ≡ refusal self.now.ahead.last self.now.ahead.tokens }
    {
        self.ahead.refuse()
    }

    /// Goes past the next token.
    pub(crate) fn advance(&mut self)
        ensures tokens { self.new.ahead.tokens ≡ rest_of self.old.ahead.tokens }
        ensures last { self.new.ahead.last ≡ self.old.ahead.last }
        ensures nesting { self.new.nesting ≡ self.old.nesting }
    {
        self.ahead.advance();
    }

    /// Goes past the next token, behind which the nesting is one more.
    pub(crate) fn deepen(&mut self) -> Result<(), Stop>
        ensures nesting { OnOk result ((self.new.nesting ≡ self.old.nesting + 1) × (self.new.nesting ≤ 200)) }
        ensures tokens { OnOk result (self.new.ahead.tokens ≡ rest_of self.old.ahead.tokens) }
        ensures last { self.new.ahead.last ≡ self.old.ahead.last }
        ensures err { IfErr result (λ e. (e ≡ Stop.Fault (SyntaxFault.TooDeep (start_of self.old.ahead.tokens))) × (200 ≤ self.old.nesting)) }
    {
        if self.nesting >= MAX_NESTING {
            return Err(Stop::Fault(SyntaxFault::TooDeep(self.ahead.start())));
        }
        self.nesting += 1;
        self.advance();
        Ok(())
    }

    /// The operator that is next, if it binds at least so tightly.
    pub(crate) fn operator(&self, least: u8) -> Option<BinaryOp>
        requires { 1 ≤ least }
        ensures { MatchOption result (level self.now.ahead.tokens < least) (λ op. (least ≤ priority op) × (priority op ≤ 5) × (level self.now.ahead.tokens ≡ priority op) × (front self.now.ahead.tokens ≡ Some (mark_of op))) }
    {
        let Some(kind) = self.peek() else {
            return None;
        };
        let operator = operator_of(kind)?;
        if priority(operator) < least {
            None
        } else {
            Some(operator)
        }
    }

    /// Goes past the next token if it is of this kind.
    pub(crate) fn eat(&mut self, kind: TokenKind) -> bool
        ensures taken { result ≡ true → (front self.old.ahead.tokens ≡ Some kind) × (self.new.ahead.tokens ≡ rest_of self.old.ahead.tokens) }
        ensures left { result ≡ false → (front self.old.ahead.tokens ≢ Some kind) × (self.new.ahead.tokens ≡ self.old.ahead.tokens) }
        ensures last { self.new.ahead.last ≡ self.old.ahead.last }
        ensures nesting { self.new.nesting ≡ self.old.nesting }
    {
        let is_next = self.peek() == Some(kind);
        if is_next {
            self.advance();
        }
        is_next
    }

    /// Goes past the next token, which has to be of this kind.
    pub(crate) fn expect(&mut self, kind: TokenKind) -> Result<(), Stop>
        ensures ok { OnOk result ((front self.old.ahead.tokens ≡ Some kind) × (self.new.ahead.tokens ≡ rest_of self.old.ahead.tokens)) }
        ensures err { IfErr result (λ e. (e ≡ Stop.Fault (refusal self.old.ahead.last self.old.ahead.tokens)) × (front self.old.ahead.tokens ≢ Some kind)) }
        ensures last { self.new.ahead.last ≡ self.old.ahead.last }
        ensures nesting { self.new.nesting ≡ self.old.nesting }
    {
        let fault = self.refuse();
        if self.eat(kind) {
            Ok(())
        } else {
            Err(Stop::Fault(fault))
        }
    }

    /// Goes past the next token and gives a copy of its bytes.
    pub(crate) fn take_text(&mut self) -> Result<Text, Stop>
        ensures text { IfOk result (λ text. text ≡ text_at self.old.ahead.tokens) }
        ensures tokens { OnOk result (self.new.ahead.tokens ≡ rest_of self.old.ahead.tokens) }
        ensures last { self.new.ahead.last ≡ self.old.ahead.last }
        ensures nesting { self.new.nesting ≡ self.old.nesting }
        ensures err { IfErr result (λ e. e ≡ Stop.Memory) }
    {
        let text = Text::from_bytes(self.alloc, self.ahead.text())?;
        self.advance();
        Ok(text)
    }
}
