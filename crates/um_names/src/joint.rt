//! Nodes of two parts, of which either may be any expression.
ghost use Rattle.std.specs.Prelude.{◌≡◌};
ghost use Rattle.um_tree.specs.ExprTree.{expr_tree};
ghost use Rattle.um_names.specs.Joints.{joint_tree};

use std::boxed::Box;
use um_tree::{Arith, Expr, Node, Sign};

/// What joins two parts into one expression.
#[derive(Clone, Copy)]
pub(crate) enum Joint {
    Arith(Arith),
    Compare(Sign),
    And,
    Or,
    Cons,
}

/// The two parts joined.
pub(crate) fn joined(at: u32, joint: Joint, first: Box<Expr>, second: Box<Expr>) -> Expr
    ensures { expr_tree result ≡ joint_tree joint at (expr_tree first.value) (expr_tree second.value) }
{
    let node = match joint {
        Joint::Arith(op) => Node::Arith(op, first, second),
        Joint::Compare(sign) => Node::Compare(sign, first, second),
        Joint::And => Node::And(first, second),
        Joint::Or => Node::Or(first, second),
        Joint::Cons => Node::Cons(first, second),
    };
    Expr { at, node }
}
