// The tree of a file. Each recursion goes through a small struct that contracts see as a tree of its own.

ghost use Rattle.std.specs.Prelude.{◌≡◌, IfOk, length};
ghost use Rattle.gn_tree.specs.Views.{expr_of, exprs_of, condition_of, block_of};
ghost use Rattle.gn_tree.specs.Counts.{expr_count, statement_count};
ghost use Rattle.gn_tree.specs.FirstPosition.{first_position};

use crate::operator::{AssignOp, BinaryOp};
use crate::piece::Pieces;
use crate::position::Position;
use gn_paths::Text;
use std::alloc::{AllocError, Global};
use std::marker::Model;
use std::sync::Arc;

/// An expression.
#[cycle(tree)]
#[derive(Drop)]
pub enum Expr {
    /// `name`
    Name {
        /// Where the name stands.
        position: Position,
        /// The name.
        name: Text,
    },
    /// An integer.
    Integer {
        /// Where the integer stands.
        position: Position,
        /// Its value.
        value: i64,
    },
    /// A string literal.
    String {
        /// Where its opening quote stands.
        position: Position,
        /// Its pieces, in order.
        pieces: Pieces,
    },
    /// `true` or `false`
    Boolean {
        /// Where the word stands.
        position: Position,
        /// Its value.
        value: bool,
    },
    /// A call.
    Call(Call),
    /// `base[index]`
    Item {
        /// Where the name of the base stands.
        position: Position,
        /// The name of the base.
        base: Text,
        /// Where the `[` stands.
        bracket: Position,
        /// What stands between the brackets.
        index: SubExpr,
    },
    /// `base.entry`
    Entry {
        /// Where the name of the base stands.
        position: Position,
        /// The name of the base.
        base: Text,
        /// Where the `.` stands.
        dot: Position,
        /// The name of the entry.
        entry: Text,
    },
    /// A scope literal.
    Scope {
        /// Where its `{` stands.
        position: Position,
        /// Its statements.
        block: Block,
    },
    /// `(inner)`
    Parentheses {
        /// Where the `(` stands.
        position: Position,
        /// What stands between them.
        inner: SubExpr,
    },
    /// A list.
    List {
        /// Where its `[` stands.
        position: Position,
        /// Its items, in order.
        items: Exprs,
    },
    /// `!operand`
    Not {
        /// Where the `!` stands.
        position: Position,
        /// The operand.
        operand: SubExpr,
    },
    /// `left operator right`
    Binary {
        /// The operator.
        operator: BinaryOp,
        /// Where the operator stands.
        position: Position,
        /// The left operand.
        left: SubExpr,
        /// The right operand.
        right: SubExpr,
    },
}

/// An expression inside another one.
#[cycle(tree)]
pub struct SubExpr {
    expr: Box<Expr>,
}

/// Expressions in order: the arguments of a call or the items of a list.
#[cycle(tree)]
#[derive(Drop)]
pub struct Exprs {
    exprs: Vec<Expr>,
}

/// A call: `name(arguments)`, or with a block behind it.
#[cycle(tree)]
#[derive(Drop)]
pub struct Call {
    /// Where the name stands.
    pub position: Position,
    /// The name.
    pub name: Text,
    /// The arguments, in order.
    pub arguments: Exprs,
    /// The block, if there is one.
    pub block: Option<Block>,
}

/// What an assignment assigns to.
#[cycle(tree)]
#[derive(Drop)]
pub enum Target {
    /// `name`
    Name {
        /// Where the name stands.
        position: Position,
        /// The name.
        name: Text,
    },
    /// `base[index]`
    Item {
        /// Where the name of the base stands.
        position: Position,
        /// The name of the base.
        base: Text,
        /// Where the `[` stands.
        bracket: Position,
        /// What stands between the brackets.
        index: Expr,
    },
    /// `base.entry`
    Entry {
        /// Where the name of the base stands.
        position: Position,
        /// The name of the base.
        base: Text,
        /// Where the `.` stands.
        dot: Position,
        /// The name of the entry.
        entry: Text,
    },
}

/// A statement.
#[cycle(tree)]
#[derive(Drop)]
pub enum Statement {
    /// `target operator value`
    Assignment {
        /// What is assigned to.
        target: Target,
        /// The operator.
        operator: AssignOp,
        /// Where the operator stands.
        position: Position,
        /// The expression behind the operator.
        value: Expr,
    },
    /// A call.
    Call(Call),
    /// A condition.
    Condition(Condition),
}

/// `if (test) { .. }`, or with an `else` behind it.
#[cycle(tree)]
#[derive(Drop)]
pub struct Condition {
    /// The expression between the parentheses.
    pub test: Expr,
    /// The statements for a test that is true.
    pub block: Block,
    /// What stands behind the block.
    pub otherwise: Otherwise,
}

/// What stands behind the block of a condition.
#[cycle(tree)]
#[derive(Drop)]
pub enum Otherwise {
    /// Nothing.
    Nothing,
    /// `else { .. }`
    Else(Block),
    /// `else if ..`
    ElseIf(SubCondition),
}

/// A condition behind an `else`.
#[cycle(tree)]
#[derive(Drop)]
pub struct SubCondition {
    condition: Box<Condition>,
}

/// Statements in order, between braces or of a whole file. A block can be shared, which copies nothing.
#[cycle(tree)]
#[derive(Drop)]
pub struct Block {
    statements: Arc<Vec<Statement>>,
}

impl Model for SubExpr {
    ghost use Rattle.gn_tree.specs.Tree.{ExprTree};
    ghost use Rattle.gn_tree.specs.Code.{expr_code};

    ghost Value = { ExprTree };

    ghost coded = { expr_code };

    ghost use Rattle.gn_tree.specs.Views.{expr_of};
    ghost use Rattle.gn_tree.specs.Depth.{expr_depth};

    ghost view = { λ a. expr_of a.expr.value };

    ghost size = { expr_depth };

    ghost use Rattle.std.proofs.Common.{arith};
    ghost use Rattle.gn_tree.specs.Falls.{expr_falls};

    ghost size_decreases = { λ a h. omega (arith, expr_falls a.expr.value) };
}

impl Model for Exprs {
    ghost use Rattle.gn_tree.specs.Tree.{ExprTrees};
    ghost use Rattle.gn_tree.specs.Code.{exprs_code};

    ghost Value = { ExprTrees };

    ghost coded = { exprs_code };

    ghost use Rattle.gn_tree.specs.Views.{exprs_of};
    ghost use Rattle.gn_tree.specs.Depth.{exprs_depth};

    ghost view = { λ a. exprs_of a.exprs.items };

    ghost size = { exprs_depth };

    ghost use Rattle.std.proofs.Common.{arith};
    ghost use Rattle.gn_tree.specs.Falls.{exprs_fall};

    ghost size_decreases = { λ a h. omega (arith, exprs_fall a.exprs.items) };
}

impl Model for SubCondition {
    ghost use Rattle.gn_tree.specs.Tree.{ConditionTree};
    ghost use Rattle.gn_tree.specs.Code.{condition_code};

    ghost Value = { ConditionTree };

    ghost coded = { condition_code };

    ghost use Rattle.gn_tree.specs.Views.{condition_of};
    ghost use Rattle.gn_tree.specs.Depth.{condition_depth};

    ghost view = { λ a. condition_of a.condition.value };

    ghost size = { condition_depth };

    ghost use Rattle.std.proofs.Common.{arith};
    ghost use Rattle.gn_tree.specs.Falls.{condition_falls};

    ghost size_decreases = { λ a h. omega (arith, condition_falls a.condition.value) };
}

impl Model for Block {
    ghost use Rattle.gn_tree.specs.Tree.{BlockTree};
    ghost use Rattle.gn_tree.specs.Code.{block_code};

    ghost Value = { BlockTree };

    ghost coded = { block_code };

    ghost use Rattle.gn_tree.specs.Views.{block_of};
    ghost use Rattle.gn_tree.specs.Depth.{block_depth};

    ghost view = { λ a. block_of a.statements.value.items };

    ghost size = { block_depth };

    ghost use Rattle.std.proofs.Common.{arith};
    ghost use Rattle.gn_tree.specs.Falls.{block_falls};

    ghost size_decreases = { λ a h. omega (arith, block_falls a.statements.value.items) };
}

impl Expr {
    /// Where the first token of the expression stands.
    pub fn first_position(&self) -> Position
        ensures { result ≡ first_position (expr_of self.now) }
    {
        let mut expr = self;
        'left: loop {
            match expr {
                Expr::Binary { left, .. } => expr = left.get(),
                Expr::Call(call) => return call.position,
                Expr::Name { position, .. }
                | Expr::Integer { position, .. }
                | Expr::String { position, .. }
                | Expr::Boolean { position, .. }
                | Expr::Item { position, .. }
                | Expr::Entry { position, .. }
                | Expr::Scope { position, .. }
                | Expr::Parentheses { position, .. }
                | Expr::List { position, .. }
                | Expr::Not { position, .. } => return *position,
            }
        }
    }
}

impl SubExpr {
    /// A new part of an expression.
    pub fn new(alloc: Global, expr: Expr) -> Result<SubExpr, AllocError>
        ensures { IfOk result (λ s. s ≡ expr_of expr) }
    {
        Ok(SubExpr {
            expr: Box::new(alloc, expr)?,
        })
    }

    /// The expression.
    pub fn get(&self) -> &Expr
        ensures { expr_of result.now ≡ self.now }
    {
        &self.expr
    }
}

// A drop calls itself for each node on the way down. The limit of 200 on the nesting of a token counts each bracket,
// `!`, right operand and `else if` on that way, and between two of these lie at most five calls. It doesn't count
// left operands: each of 200 brackets can be the leftmost operand of some 200 operators, which makes a tree of over
// 20,000 nodes on one way down. So this drop goes down left operands in a loop, and the stack stays small.
impl Drop for SubExpr {
    #[cycle(tree)]
    fn drop(mut self) {
        'left: loop {
            let SubExpr { expr } = self;
            match Box::into_inner(expr) {
                Expr::Binary { left, .. } => self = left,
                _ => return,
            }
        }
    }
}

impl Exprs {
    /// These expressions in their order, which takes no memory.
    pub fn from_vec(exprs: Vec<Expr>) -> Exprs
        ensures { result ≡ exprs_of exprs.items }
    {
        Exprs { exprs }
    }

    /// The expressions, in order.
    #[tactic(auto, using(crate::proofs::Lists::counts))]
    pub fn as_slice(&self) -> &[Expr]
        ensures exprs { exprs_of result.now ≡ self.now }
        ensures count { length result.now ≡ expr_count self.now }
    {
        self.exprs.as_slice()
    }
}

impl SubCondition {
    /// A new condition behind an `else`.
    pub fn new(alloc: Global, condition: Condition) -> Result<SubCondition, AllocError>
        ensures { IfOk result (λ s. s ≡ condition_of condition) }
    {
        Ok(SubCondition {
            condition: Box::new(alloc, condition)?,
        })
    }

    /// The condition.
    pub fn get(&self) -> &Condition
        ensures { condition_of result.now ≡ self.now }
    {
        &self.condition
    }
}

impl Block {
    /// A new block of these statements in their order.
    pub fn new(alloc: Global, statements: Vec<Statement>) -> Result<Block, AllocError>
        ensures { IfOk result (λ b. b ≡ block_of statements.items) }
    {
        Ok(Block {
            statements: Arc::new(alloc, statements)?,
        })
    }

    /// The statements, in order.
    #[tactic(auto, using(crate::proofs::Lists::counts))]
    pub fn statements(&self) -> &[Statement]
        ensures statements { block_of result.now ≡ self.now }
        ensures count { length result.now ≡ statement_count self.now }
    {
        self.statements.as_slice()
    }

    /// The same block once more. Nothing of it is copied.
    pub fn share(&self) -> Result<Block, AllocError>
        ensures { IfOk result (λ b. b ≡ self.now) }
    {
        Ok(Block {
            statements: self.statements.clone()?,
        })
    }
}
