// An expression as its leftmost operand and the operators behind it. Left operands can be nested far deeper than all
// else, so they are walked in a loop.

ghost use Rattle.std.specs.Prelude.{◌≡◌, min, IfOk};
ghost use Rattle.gn_meaning.specs.Meaning.{operators_in};
ghost use Rattle.gn_tree.specs.Views.{expr_of};
ghost use Rattle.gn_eval.specs.Operations.{IsOperand, joined};

use gn_tree::{BinaryOp, Expr, Position, SubExpr};
use std::alloc::{AllocError, Global};

/// An operator and its right operand.
#[derive(Clone, Copy)]
pub(crate) struct Operation<'a> {
    /// The operator.
    pub(crate) operator: BinaryOp,
    /// Where the operator stands.
    pub(crate) position: Position,
    /// The right operand.
    pub(crate) right: &'a SubExpr,
}

/// The leftmost operand of an expression, and the operators behind it, the outermost one first.
#[tactic(auto, using(crate::proofs::Joined::joined_more))]
pub(crate) fn left_operand<'a>(
    alloc: Global,
    expr: &'a Expr,
) -> Result<(&'a Expr, Vec<Operation<'a>>), AllocError>
    ensures whole { IfOk result (λ r. expr_of expr.now ≡ joined (expr_of r.0.now) r.1.items) }
    ensures operand { IfOk result (λ r. IsOperand (expr_of r.0.now)) }
{
    let mut operations = Vec::new(alloc);
    let mut leftmost = expr;
    'left: while let Expr::Binary {
        operator,
        position,
        left,
        right,
    } = leftmost
    {
        operations.push(Operation {
            operator: *operator,
            position: *position,
            right,
        })?;
        leftmost = left.get();
    }
    Ok((leftmost, operations))
}

/// How many operators between operands an expression has outside its brackets, or as many as the type has room for.
pub(crate) fn operators_in(expr: &Expr) -> u32
    ensures { result ≡ min (operators_in (expr_of expr.now)) u32.MAX }
{
    let mut count: u32 = 0;
    let mut rest = expr;
    'left: while let Expr::Binary { left, right, .. } = rest {
        count = count
            .saturating_add(1)
            .saturating_add(operators_in(right.get()));
        rest = left.get();
    }
    count
}
