//! Frames: where in the tree the expression stands that is evaluated, and what is still to be done with its value.
ghost use Rattle.std.specs.Prelude.{◌≡◌};
ghost use Rattle.um_eval.specs.Frames.{is_body};

use um_cells::Word;
use um_tree::{Arith, Expr, Sign};

/// The operations of one part.
#[derive(Clone, Copy)]
pub(crate) enum Unary {
    Negate,
    Not,
    /// The power, and the place of the operation
    Power(i32, u32),
    /// The record's number and the field's
    Field(u32, u32),
}

/// The operations of two parts that are both evaluated.
#[derive(Clone, Copy)]
pub(crate) enum Binary {
    /// With the place of the operation
    Arith(Arith, u32),
    Compare(Sign),
    Cons,
}

/// What is made of some values in order.
#[derive(Clone, Copy)]
pub(crate) enum Collection {
    List,
    /// A value of the record of this number
    Rec(u32),
    /// A call of the function of this number, and the place of the call
    Call(u32, u32),
}

/// Where the expression stands that is evaluated.
#[derive(Clone, Copy)]
pub(crate) enum Frame<'a> {
    Operand(Unary),
    /// The second part is still to be evaluated
    Left(Binary, &'a Expr),
    /// The first part's value
    Right(Binary, Word),
    LeftOfAnd(&'a Expr),
    LeftOfOr(&'a Expr),
    /// The two arms of an `if`
    Test(&'a Expr, &'a Expr),
    /// The second part of a `let`
    Bound(&'a Expr),
    /// The two arms of a `match`
    Matched(&'a Expr, &'a Expr),
    /// Behind a binder: how many variables there are outside
    Inner(usize),
    /// The items after it, and where the values of those before it begin
    Item(Collection, &'a [Expr], usize),
    /// The body of a function: where the caller's variables begin, the function's number, and the place of the call
    Body(usize, u32, u32),
}

/// Whether it is the frame of a body.
#[inline(always)]
pub(crate) fn is_body(frame: Frame) -> bool
    ensures { result ≡ is_body frame.entry }
{
    match frame {
        Frame::Body(_, _, _) => true,
        Frame::Operand(_) => false,
        Frame::Left(_, _) => false,
        Frame::Right(_, _) => false,
        Frame::LeftOfAnd(_) => false,
        Frame::LeftOfOr(_) => false,
        Frame::Test(_, _) => false,
        Frame::Bound(_) => false,
        Frame::Matched(_, _) => false,
        Frame::Inner(_) => false,
        Frame::Item(_, _, _) => false,
    }
}
