//! The syntax tree.
#![tactic(auto)]

mod operator;
mod piece;
mod position;
mod tree;

pub use operator::{AssignOp, BinaryOp};
pub use piece::{Piece, Pieces, Subscript};
pub use position::Position;
pub use tree::{
    Block, Call, Condition, Expr, Exprs, Otherwise, Statement, SubCondition, SubExpr, Target,
};
