// The grammar, by recursive descent. What is counted in the nesting bounds the depth of the recursion.

ghost use Rattle.std.specs.Prelude.{◌≡◌, ◌≢◌, ◌+◌, ◌<◌, ◌≤◌, ◌∷◌, [], List, length, IfOk, OnOk, Some};
ghost use Rattle.gn_tree.specs.Tree.{binary_expr};
ghost use Rattle.gn_tree.specs.Views.{expr_of, exprs_of, call_of, body_of, target_of, condition_of, otherwise_of, statement_of, block_of};
ghost use Rattle.gn_tokens.specs.declared.token.TokenKind.{TokenKind};
ghost use Rattle.gn_tree.specs.declared.position.Position.{Position};
ghost use Rattle.gn_grammar.specs.Lexemes.{Lexeme};
ghost use Rattle.gn_grammar.specs.Grammar.{boolean_word, assign_mark, IsToken, IsMark, IsKind, Encloses, Brackets, LastComma, Spells, SpellsList, SpellsCall, SpellsBody, SpellsTarget, SpellsStatement, SpellsCondition, SpellsOtherwise, SpellsStatements};
ghost use Rattle.gn_grammar.specs.Machine as machine;
ghost use Rattle.gn_syntax.specs.Parsing.{front, rest_of, level, Reads, ReadsOperand};

use crate::error::Stop;
use crate::operator::{priority, sign_of};
use crate::parser::Parser;
use crate::pieces::pieces;
use gn_paths::Text;
use gn_tokens::{TokenKind, integer_value};
use gn_tree::{
    AssignOp, BinaryOp, Block, Call, Condition, Expr, Exprs, Otherwise, Position, Statement,
    SubCondition, SubExpr, Target,
};
use std::alloc::{AllocError, Global};

// An operator with its operands.
fn joined(
    alloc: Global,
    operator: BinaryOp,
    position: Position,
    left: Expr,
    right: Expr,
) -> Result<Expr, AllocError>
    ensures { IfOk result (λ e. expr_of e ≡ binary_expr operator position (expr_of left) (expr_of right)) }
{
    let left = SubExpr::new(alloc, left)?;
    let right = SubExpr::new(alloc, right)?;
    Ok(Expr::Binary {
        operator,
        position,
        left,
        right,
    })
}

impl<'a> Parser<'a> {
    // An integer.
    fn integer(&mut self) -> Expr
        requires { front self.old.ahead.tokens ≡ Some TokenKind.Integer }
        ensures spells { Spells 6 (expr_of result) self.old.ahead.tokens self.new.ahead.tokens }
        ensures tokens { self.new.ahead.tokens ≡ rest_of self.old.ahead.tokens }
        ensures nesting { self.new.nesting ≡ self.old.nesting }
        ensures last { self.new.ahead.last ≡ self.old.ahead.last }
    {
        let position = self.position();
        let value = integer_value(self.ahead.text());
        self.advance();
        Expr::Integer { position, value }
    }

    // `true` or `false`.
    fn boolean(&mut self, value: bool) -> Expr
        requires { front self.old.ahead.tokens ≡ Some (boolean_word value) }
        ensures spells { Spells 6 (expr_of result) self.old.ahead.tokens self.new.ahead.tokens }
        ensures tokens { self.new.ahead.tokens ≡ rest_of self.old.ahead.tokens }
        ensures nesting { self.new.nesting ≡ self.old.nesting }
        ensures last { self.new.ahead.last ≡ self.old.ahead.last }
    {
        let position = self.position();
        self.advance();
        Expr::Boolean { position, value }
    }

    // A string literal.
    fn string(&mut self) -> Result<Expr, Stop>
        requires { front self.old.ahead.tokens ≡ Some TokenKind.Str }
        ensures spells { IfOk result (λ e. Spells 6 (expr_of e) self.old.ahead.tokens self.new.ahead.tokens) }
        ensures reads { ReadsOperand result self.old.ahead.last self.old.nesting self.old.ahead.tokens self.new.ahead.tokens }
        ensures nesting { OnOk result (self.new.nesting ≡ self.old.nesting) }
        ensures last { self.new.ahead.last ≡ self.old.ahead.last }
        ensures shorter { OnOk result (length self.new.ahead.tokens < length self.old.ahead.tokens) }
    {
        let position = self.position();
        let pieces = pieces(self.alloc, position, self.ahead.text())?;
        self.advance();
        Ok(Expr::String { position, pieces })
    }

    // The name behind a dot.
    #[tactic(auto, using(crate::proofs::Trees::entry_spelled))]
    fn entry(&mut self) -> Result<Text, Stop>
        ensures spells { IfOk result (λ t. (at : Position) × IsToken TokenKind.Identifier at t self.old.ahead.tokens self.new.ahead.tokens) }
        ensures reads { Reads result self.old.ahead.last (machine.Name ∷ []) self.old.ahead.tokens ([]) self.new.ahead.tokens }
        ensures nesting { OnOk result (self.new.nesting ≡ self.old.nesting) }
        ensures last { self.new.ahead.last ≡ self.old.ahead.last }
        ensures shorter { OnOk result (length self.new.ahead.tokens < length self.old.ahead.tokens) }
    {
        if self.peek() != Some(TokenKind::Identifier) {
            return Err(Stop::Fault(self.refuse()));
        }
        self.take_text()
    }

    // An operand.
    #[cycle(parser)]
    #[tactic(auto, using(crate::proofs::Steps::operand_refused))]
    fn unary(&mut self) -> Result<Expr, Stop>
        ensures spells { IfOk result (λ e. Spells 6 (expr_of e) self.old.ahead.tokens self.new.ahead.tokens) }
        ensures reads { ReadsOperand result self.old.ahead.last self.old.nesting self.old.ahead.tokens self.new.ahead.tokens }
        ensures nesting { OnOk result (self.new.nesting ≡ self.old.nesting) }
        ensures last { self.new.ahead.last ≡ self.old.ahead.last }
        ensures shorter { OnOk result (length self.new.ahead.tokens < length self.old.ahead.tokens) }
    {
        match self.peek() {
            Some(TokenKind::Identifier) => self.named(),
            Some(TokenKind::Integer) => Ok(self.integer()),
            Some(TokenKind::Str) => self.string(),
            Some(TokenKind::True) => Ok(self.boolean(true)),
            Some(TokenKind::False) => Ok(self.boolean(false)),
            Some(TokenKind::Not) => self.negation(),
            Some(TokenKind::OpenParen) => self.parentheses(),
            Some(TokenKind::OpenBracket) => self.list(),
            Some(TokenKind::OpenBrace) => self.scope(),
            _ => Err(Stop::Fault(self.refuse())),
        }
    }

    // A `!` and its operand.
    #[cycle(parser)]
    fn negation(&mut self) -> Result<Expr, Stop>
        requires { front self.old.ahead.tokens ≡ Some TokenKind.Not }
        ensures spells { IfOk result (λ e. Spells 6 (expr_of e) self.old.ahead.tokens self.new.ahead.tokens) }
        ensures reads { ReadsOperand result self.old.ahead.last self.old.nesting self.old.ahead.tokens self.new.ahead.tokens }
        ensures nesting { OnOk result (self.new.nesting ≡ self.old.nesting) }
        ensures last { self.new.ahead.last ≡ self.old.ahead.last }
        ensures shorter { OnOk result (length self.new.ahead.tokens < length self.old.ahead.tokens) }
    {
        let position = self.position();
        let outer = self.nesting;
        self.deepen()?;
        let operand = self.unary()?;
        self.nesting = outer;
        let operand = SubExpr::new(self.alloc, operand)?;
        Ok(Expr::Not { position, operand })
    }

    // An expression in round brackets.
    #[cycle(parser)]
    #[tactic(auto, using(crate::proofs::Steps::operators_pass, crate::proofs::Steps::close_paren_refused))]
    fn parentheses(&mut self) -> Result<Expr, Stop>
        requires { front self.old.ahead.tokens ≡ Some TokenKind.OpenParen }
        ensures spells { IfOk result (λ e. Spells 6 (expr_of e) self.old.ahead.tokens self.new.ahead.tokens) }
        ensures reads { ReadsOperand result self.old.ahead.last self.old.nesting self.old.ahead.tokens self.new.ahead.tokens }
        ensures nesting { OnOk result (self.new.nesting ≡ self.old.nesting) }
        ensures last { self.new.ahead.last ≡ self.old.ahead.last }
        ensures shorter { OnOk result (length self.new.ahead.tokens < length self.old.ahead.tokens) }
    {
        let position = self.position();
        let outer = self.nesting;
        self.deepen()?;
        let inner = self.binary(1)?;
        self.expect(TokenKind::CloseParen)?;
        self.nesting = outer;
        let inner = SubExpr::new(self.alloc, inner)?;
        Ok(Expr::Parentheses { position, inner })
    }

    // A list.
    #[cycle(parser)]
    fn list(&mut self) -> Result<Expr, Stop>
        requires { front self.old.ahead.tokens ≡ Some TokenKind.OpenBracket }
        ensures spells { IfOk result (λ e. Spells 6 (expr_of e) self.old.ahead.tokens self.new.ahead.tokens) }
        ensures reads { ReadsOperand result self.old.ahead.last self.old.nesting self.old.ahead.tokens self.new.ahead.tokens }
        ensures nesting { OnOk result (self.new.nesting ≡ self.old.nesting) }
        ensures last { self.new.ahead.last ≡ self.old.ahead.last }
        ensures shorter { OnOk result (length self.new.ahead.tokens < length self.old.ahead.tokens) }
    {
        let position = self.position();
        let outer = self.nesting;
        self.deepen()?;
        let items = self.items()?;
        self.nesting = outer;
        Ok(Expr::List { position, items })
    }

    // A scope literal.
    #[cycle(parser)]
    #[tactic(auto, using(crate::proofs::Steps::statements_pass, crate::proofs::Steps::close_brace_refused))]
    fn scope(&mut self) -> Result<Expr, Stop>
        requires { front self.old.ahead.tokens ≡ Some TokenKind.OpenBrace }
        ensures spells { IfOk result (λ e. Spells 6 (expr_of e) self.old.ahead.tokens self.new.ahead.tokens) }
        ensures reads { ReadsOperand result self.old.ahead.last self.old.nesting self.old.ahead.tokens self.new.ahead.tokens }
        ensures nesting { OnOk result (self.new.nesting ≡ self.old.nesting) }
        ensures last { self.new.ahead.last ≡ self.old.ahead.last }
        ensures shorter { OnOk result (length self.new.ahead.tokens < length self.old.ahead.tokens) }
    {
        let position = self.position();
        let outer = self.nesting;
        self.deepen()?;
        let block = self.statements()?;
        self.expect(TokenKind::CloseBrace)?;
        self.nesting = outer;
        Ok(Expr::Scope { position, block })
    }

    // A name, and what makes it a call, an item or an entry.
    #[cycle(parser)]
    #[tactic(auto, using(crate::proofs::Steps::suffix_passes))]
    fn named(&mut self) -> Result<Expr, Stop>
        requires { front self.old.ahead.tokens ≡ Some TokenKind.Identifier }
        ensures spells { IfOk result (λ e. Spells 6 (expr_of e) self.old.ahead.tokens self.new.ahead.tokens) }
        ensures reads { ReadsOperand result self.old.ahead.last self.old.nesting self.old.ahead.tokens self.new.ahead.tokens }
        ensures nesting { OnOk result (self.new.nesting ≡ self.old.nesting) }
        ensures last { self.new.ahead.last ≡ self.old.ahead.last }
        ensures shorter { OnOk result (length self.new.ahead.tokens < length self.old.ahead.tokens) }
    {
        let position = self.position();
        let name = self.take_text()?;
        let behind = self.position();
        let outer = self.nesting;
        match self.peek() {
            Some(TokenKind::OpenParen) => {
                self.deepen()?;
                Ok(Expr::Call(self.call(position, name, outer)?))
            }
            Some(TokenKind::OpenBracket) => {
                self.deepen()?;
                let index = self.index()?;
                self.nesting = outer;
                Ok(Expr::Item {
                    position,
                    base: name,
                    bracket: behind,
                    index: SubExpr::new(self.alloc, index)?,
                })
            }
            Some(TokenKind::Dot) => {
                self.advance();
                Ok(Expr::Entry {
                    position,
                    base: name,
                    dot: behind,
                    entry: self.entry()?,
                })
            }
            _ => Ok(Expr::Name { position, name }),
        }
    }

    // The rest of a call of this name, behind its bracket that opens.
    #[cycle(parser)]
    fn call(&mut self, position: Position, name: Text, outer: u32) -> Result<Call, Stop>
        requires { self.old.nesting ≡ outer + 1 }
        ensures spells { IfOk result (λ c. (s s1 : List Lexeme) → IsToken TokenKind.Identifier position name s s1 → IsKind TokenKind.OpenParen s1 self.old.ahead.tokens → SpellsCall (call_of c) s self.new.ahead.tokens) }
        ensures reads { Reads result self.old.ahead.last (machine.Args self.old.nesting ∷ machine.BlockOr outer ∷ []) self.old.ahead.tokens ([]) self.new.ahead.tokens }
        ensures nesting { OnOk result (self.new.nesting ≡ outer) }
        ensures last { self.new.ahead.last ≡ self.old.ahead.last }
        ensures shorter { OnOk result (length self.new.ahead.tokens < length self.old.ahead.tokens) }
    {
        let arguments = self.arguments()?;
        self.nesting = outer;
        let block = self.body()?;
        Ok(Call {
            position,
            name,
            arguments,
            block,
        })
    }

    // A subscript and its bracket that closes.
    #[cycle(parser)]
    #[tactic(auto, using(crate::proofs::Steps::operators_pass, crate::proofs::Steps::close_bracket_refused))]
    fn index(&mut self) -> Result<Expr, Stop>
        ensures spells { IfOk result (λ e. (s : List Lexeme) × Spells 1 (expr_of e) self.old.ahead.tokens s × IsKind TokenKind.CloseBracket s self.new.ahead.tokens) }
        ensures reads { Reads result self.old.ahead.last (machine.Operand self.old.nesting self.old.nesting ∷ machine.CloseBracket ∷ []) self.old.ahead.tokens ([]) self.new.ahead.tokens }
        ensures last { self.new.ahead.last ≡ self.old.ahead.last }
        ensures shorter { OnOk result (length self.new.ahead.tokens < length self.old.ahead.tokens) }
    {
        let index = self.binary(1)?;
        self.expect(TokenKind::CloseBracket)?;
        Ok(index)
    }

    // The arguments of a call and its bracket that closes.
    #[cycle(parser)]
    #[tactic(auto, using(crate::proofs::Steps::operators_pass, crate::proofs::Steps::more_args_refused, crate::proofs::Steps::arg_comes))]
    fn arguments(&mut self) -> Result<Exprs, Stop>
        ensures spells { IfOk result (λ es. (s : List Lexeme) × SpellsList es self.old.ahead.tokens s × IsKind TokenKind.CloseParen s self.new.ahead.tokens) }
        ensures reads { Reads result self.old.ahead.last (machine.Args self.old.nesting ∷ []) self.old.ahead.tokens ([]) self.new.ahead.tokens }
        ensures last { self.new.ahead.last ≡ self.old.ahead.last }
        ensures shorter { OnOk result (length self.new.ahead.tokens < length self.old.ahead.tokens) }
    {
        let inside = self.nesting;
        let mut arguments = Vec::new(self.alloc);
        if self.eat(TokenKind::CloseParen) {
            return Ok(Exprs::from_vec(arguments));
        }
        'more: loop {
            let argument = self.binary(1)?;
            arguments.push(argument)?;
            self.nesting = inside;
            if !self.eat(TokenKind::Comma) {
                self.expect(TokenKind::CloseParen)?;
                return Ok(Exprs::from_vec(arguments));
            }
        }
    }

    // The items of a list and its bracket that closes.
    #[cycle(parser)]
    #[tactic(auto, using(crate::proofs::Steps::operators_pass, crate::proofs::Steps::more_items_refused, crate::proofs::Steps::item_comes))]
    fn items(&mut self) -> Result<Exprs, Stop>
        ensures spells { IfOk result (λ es. (s s1 : List Lexeme) × SpellsList es self.old.ahead.tokens s × LastComma es s s1 × IsKind TokenKind.CloseBracket s1 self.new.ahead.tokens) }
        ensures reads { Reads result self.old.ahead.last (machine.Items self.old.nesting ∷ []) self.old.ahead.tokens ([]) self.new.ahead.tokens }
        ensures last { self.new.ahead.last ≡ self.old.ahead.last }
        ensures shorter { OnOk result (length self.new.ahead.tokens < length self.old.ahead.tokens) }
    {
        let inside = self.nesting;
        let mut items = Vec::new(self.alloc);
        'more: loop {
            if self.eat(TokenKind::CloseBracket) {
                return Ok(Exprs::from_vec(items));
            }
            let item = self.binary(1)?;
            items.push(item)?;
            self.nesting = inside;
            if !self.eat(TokenKind::Comma) {
                self.expect(TokenKind::CloseBracket)?;
                return Ok(Exprs::from_vec(items));
            }
        }
    }

    // An expression whose operators outside brackets bind at least so tightly.
    #[cycle(parser)]
    pub(crate) fn binary(&mut self, least: u8) -> Result<Expr, Stop>
        requires low { 1 ≤ least }
        requires high { least ≤ 6 }
        ensures spells { IfOk result (λ e. Spells least (expr_of e) self.old.ahead.tokens self.new.ahead.tokens) }
        ensures reads { Reads result self.old.ahead.last (machine.Operand self.old.nesting self.old.nesting ∷ []) self.old.ahead.tokens (machine.Operators self.new.nesting ∷ []) self.new.ahead.tokens }
        ensures last { self.new.ahead.last ≡ self.old.ahead.last }
        ensures shorter { OnOk result (length self.new.ahead.tokens < length self.old.ahead.tokens) }
        ensures stops { OnOk result (level self.new.ahead.tokens < least) }
    {
        let mut left = self.unary()?;
        while let Some(operator) = self.operator(least) {
            let position = self.position();
            self.deepen()?;
            let right = self.binary(priority(operator) + 1)?;
            let whole = joined(self.alloc, operator, position, left, right)?;
            left = whole;
        }
        Ok(left)
    }

    // The block behind a call, if there is one.
    #[cycle(parser)]
    #[tactic(auto, using(crate::proofs::Steps::block_or_passes))]
    fn body(&mut self) -> Result<Option<Block>, Stop>
        ensures spells { IfOk result (λ b. SpellsBody (body_of b) self.old.ahead.tokens self.new.ahead.tokens) }
        ensures reads { Reads result self.old.ahead.last (machine.BlockOr self.old.nesting ∷ []) self.old.ahead.tokens ([]) self.new.ahead.tokens }
        ensures nesting { OnOk result (self.new.nesting ≡ self.old.nesting) }
        ensures last { self.new.ahead.last ≡ self.old.ahead.last }
        ensures shorter { OnOk result (length self.new.ahead.tokens ≤ length self.old.ahead.tokens) }
    {
        if self.peek() == Some(TokenKind::OpenBrace) {
            return Ok(Some(self.block()?));
        }
        Ok(None)
    }

    // A block.
    #[cycle(parser)]
    #[tactic(auto, using(crate::proofs::Steps::block_refused, crate::proofs::Steps::statements_pass, crate::proofs::Steps::close_brace_refused))]
    fn block(&mut self) -> Result<Block, Stop>
        ensures spells { IfOk result (λ b. Brackets TokenKind.OpenBrace (SpellsStatements b) TokenKind.CloseBrace self.old.ahead.tokens self.new.ahead.tokens) }
        ensures reads { Reads result self.old.ahead.last (machine.Block self.old.nesting ∷ []) self.old.ahead.tokens ([]) self.new.ahead.tokens }
        ensures nesting { OnOk result (self.new.nesting ≡ self.old.nesting) }
        ensures last { self.new.ahead.last ≡ self.old.ahead.last }
        ensures shorter { OnOk result (length self.new.ahead.tokens < length self.old.ahead.tokens) }
    {
        if self.peek() != Some(TokenKind::OpenBrace) {
            return Err(Stop::Fault(self.refuse()));
        }
        let outer = self.nesting;
        self.deepen()?;
        let block = self.statements()?;
        self.expect(TokenKind::CloseBrace)?;
        self.nesting = outer;
        Ok(block)
    }

    // Statements, as many as there are.
    #[cycle(parser)]
    pub(crate) fn statements(&mut self) -> Result<Block, Stop>
        ensures spells { IfOk result (λ b. SpellsStatements b self.old.ahead.tokens self.new.ahead.tokens) }
        ensures reads { Reads result self.old.ahead.last (machine.Statements self.old.nesting ∷ []) self.old.ahead.tokens (machine.Statements self.old.nesting ∷ []) self.new.ahead.tokens }
        ensures nesting { OnOk result (self.new.nesting ≡ self.old.nesting) }
        ensures last { self.new.ahead.last ≡ self.old.ahead.last }
        ensures shorter { OnOk result (length self.new.ahead.tokens ≤ length self.old.ahead.tokens) }
        ensures stops { OnOk result ((front self.new.ahead.tokens ≢ Some TokenKind.Identifier) × (front self.new.ahead.tokens ≢ Some TokenKind.If)) }
    {
        let mut statements = Vec::new(self.alloc);
        'more: loop {
            let statement = match self.peek() {
                Some(TokenKind::Identifier) => self.statement()?,
                Some(TokenKind::If) => {
                    self.advance();
                    Statement::Condition(self.condition()?)
                }
                _ => return Ok(Block::new(self.alloc, statements)?),
            };
            statements.push(statement)?;
        }
    }

    // A statement that begins with a name.
    #[cycle(parser)]
    #[tactic(auto, using(crate::proofs::Steps::sign_comes))]
    fn statement(&mut self) -> Result<Statement, Stop>
        requires { front self.old.ahead.tokens ≡ Some TokenKind.Identifier }
        ensures spells { IfOk result (λ s. SpellsStatement (statement_of s) self.old.ahead.tokens self.new.ahead.tokens) }
        ensures reads { Reads result self.old.ahead.last (machine.Statements self.old.nesting ∷ []) self.old.ahead.tokens (machine.Statements self.old.nesting ∷ []) self.new.ahead.tokens }
        ensures nesting { OnOk result (self.new.nesting ≡ self.old.nesting) }
        ensures last { self.new.ahead.last ≡ self.old.ahead.last }
        ensures shorter { OnOk result (length self.new.ahead.tokens < length self.old.ahead.tokens) }
    {
        let position = self.position();
        let name = self.take_text()?;
        let behind = self.position();
        let outer = self.nesting;
        match self.peek() {
            Some(TokenKind::OpenParen) => {
                self.deepen()?;
                Ok(Statement::Call(self.call(position, name, outer)?))
            }
            Some(TokenKind::OpenBracket) => {
                self.deepen()?;
                let index = self.index()?;
                self.nesting = outer;
                self.assignment(Target::Item {
                    position,
                    base: name,
                    bracket: behind,
                    index,
                })
            }
            Some(TokenKind::Dot) => {
                self.advance();
                let entry = self.entry()?;
                self.assignment(Target::Entry {
                    position,
                    base: name,
                    dot: behind,
                    entry,
                })
            }
            _ => self.assignment(Target::Name { position, name }),
        }
    }

    // The operator and the value of an assignment.
    #[cycle(parser)]
    #[tactic(auto, using(crate::proofs::Steps::sign_refused, crate::proofs::Steps::operators_pass))]
    fn assigned(&mut self) -> Result<(AssignOp, Position, Expr), Stop>
        ensures spells { IfOk result (λ a. (s : List Lexeme) × IsMark (assign_mark a.0) a.1 self.old.ahead.tokens s × Spells 1 (expr_of a.2) s self.new.ahead.tokens) }
        ensures reads { Reads result self.old.ahead.last (machine.Sign self.old.nesting ∷ []) self.old.ahead.tokens ([]) self.new.ahead.tokens }
        ensures nesting { OnOk result (self.new.nesting ≡ self.old.nesting) }
        ensures last { self.new.ahead.last ≡ self.old.ahead.last }
        ensures shorter { OnOk result (length self.new.ahead.tokens < length self.old.ahead.tokens) }
    {
        let position = self.position();
        let Some(operator) = sign_of(self.peek()) else {
            return Err(Stop::Fault(self.refuse()));
        };
        self.advance();
        let outer = self.nesting;
        let value = self.binary(1)?;
        self.nesting = outer;
        Ok((operator, position, value))
    }

    // The rest of an assignment to this target.
    #[cycle(parser)]
    fn assignment(&mut self, target: Target) -> Result<Statement, Stop>
        ensures spells { IfOk result (λ st. (s : List Lexeme) → SpellsTarget (target_of target) s self.old.ahead.tokens → SpellsStatement (statement_of st) s self.new.ahead.tokens) }
        ensures reads { Reads result self.old.ahead.last (machine.Sign self.old.nesting ∷ []) self.old.ahead.tokens ([]) self.new.ahead.tokens }
        ensures nesting { OnOk result (self.new.nesting ≡ self.old.nesting) }
        ensures last { self.new.ahead.last ≡ self.old.ahead.last }
        ensures shorter { OnOk result (length self.new.ahead.tokens < length self.old.ahead.tokens) }
    {
        match self.assigned() {
            Ok((operator, position, value)) => Ok(Statement::Assignment {
                target,
                operator,
                position,
                value,
            }),
            Err(stop) => Err(stop),
        }
    }

    // What stands behind the `if` of a condition.
    #[cycle(parser)]
    fn condition(&mut self) -> Result<Condition, Stop>
        ensures spells { IfOk result (λ c. (s : List Lexeme) → IsKind TokenKind.If s self.old.ahead.tokens → SpellsCondition (condition_of c) s self.new.ahead.tokens) }
        ensures reads { Reads result self.old.ahead.last (machine.Test self.old.nesting ∷ machine.Block self.old.nesting ∷ machine.ElseOr self.old.nesting ∷ []) self.old.ahead.tokens ([]) self.new.ahead.tokens }
        ensures nesting { OnOk result (self.new.nesting ≡ self.old.nesting) }
        ensures last { self.new.ahead.last ≡ self.old.ahead.last }
        ensures shorter { OnOk result (length self.new.ahead.tokens < length self.old.ahead.tokens) }
    {
        let test = self.test()?;
        let block = self.block()?;
        let otherwise = self.otherwise()?;
        Ok(Condition {
            test,
            block,
            otherwise,
        })
    }

    // The test of a condition with its brackets.
    #[cycle(parser)]
    #[tactic(auto, using(crate::proofs::Steps::test_refused, crate::proofs::Steps::operators_pass, crate::proofs::Steps::close_paren_refused))]
    fn test(&mut self) -> Result<Expr, Stop>
        ensures spells { IfOk result (λ e. Brackets TokenKind.OpenParen (Spells 1 (expr_of e)) TokenKind.CloseParen self.old.ahead.tokens self.new.ahead.tokens) }
        ensures reads { Reads result self.old.ahead.last (machine.Test self.old.nesting ∷ []) self.old.ahead.tokens ([]) self.new.ahead.tokens }
        ensures nesting { OnOk result (self.new.nesting ≡ self.old.nesting) }
        ensures last { self.new.ahead.last ≡ self.old.ahead.last }
        ensures shorter { OnOk result (length self.new.ahead.tokens < length self.old.ahead.tokens) }
    {
        if self.peek() != Some(TokenKind::OpenParen) {
            return Err(Stop::Fault(self.refuse()));
        }
        let outer = self.nesting;
        self.deepen()?;
        let test = self.binary(1)?;
        self.expect(TokenKind::CloseParen)?;
        self.nesting = outer;
        Ok(test)
    }

    // What stands behind the block of a condition.
    #[cycle(parser)]
    #[tactic(auto, using(crate::proofs::Steps::else_or_passes, crate::proofs::Steps::else_block))]
    fn otherwise(&mut self) -> Result<Otherwise, Stop>
        ensures spells { IfOk result (λ o. SpellsOtherwise (otherwise_of o) self.old.ahead.tokens self.new.ahead.tokens) }
        ensures reads { Reads result self.old.ahead.last (machine.ElseOr self.old.nesting ∷ []) self.old.ahead.tokens ([]) self.new.ahead.tokens }
        ensures nesting { OnOk result (self.new.nesting ≡ self.old.nesting) }
        ensures last { self.new.ahead.last ≡ self.old.ahead.last }
        ensures shorter { OnOk result (length self.new.ahead.tokens ≤ length self.old.ahead.tokens) }
    {
        if !self.eat(TokenKind::Else) {
            return Ok(Otherwise::Nothing);
        }
        if self.peek() != Some(TokenKind::If) {
            return Ok(Otherwise::Else(self.block()?));
        }
        let outer = self.nesting;
        self.deepen()?;
        let condition = self.condition()?;
        self.nesting = outer;
        Ok(Otherwise::ElseIf(SubCondition::new(self.alloc, condition)?))
    }
}
