// What is open around the next operand, with the heights of its parts beside them.
ghost use Rattle.std.specs.Prelude.{◌≡◌, ◌++◌, ◌∷◌, [], IfOk};
ghost use Rattle.um_tree.specs.RawTree.{call_syntax, exprs_in_order};
ghost use Rattle.um_operands.specs.ExprBegun.{bound_of, own_rank, plug, is_pown};
ghost use Rattle.um_operands.specs.ExprLeast.{side};
ghost use Rattle.um_unit_texts.specs.UnitCount.{counted};
ghost use Rattle.um_operands.specs.ExprOperands.{operand_expr, operand_exprs};
ghost use Rattle.um_operands.specs.ExprFrames.{view_frame, is_call};

use crate::infix::Infix;
use crate::matching::Matching;
use crate::operand::Operand;
use crate::operands::{Operands, ReadFields};
use std::alloc::{AllocError, Global};
use um_tree::{Binder, Name};
use um_unit_texts::higher;

/// A form that has begun, up to the operand that is read next. The first number of each variant is its place.
#[derive(Drop)]
pub enum Frame {
    InBracket(u32),
    /// `[` and these items
    InItem(u32, Operands),
    /// `{`, these fields, and a field's name, at its place, with its `=`
    InField(u32, ReadFields, u32, Name),
    /// After `=`; after `in`
    InValue(u32, Binder),
    InBody(u32, Binder, Operand),
    /// After `if`; `then`; `else`
    InTest(u32),
    InThen(u32, Operand),
    InElse(u32, Operand, Operand),
    /// After `match`; the first `->`; the second
    InMatched(u32),
    InEmptyArm(u32, Operand),
    InFullArm(Matching, Box<Binder>, Box<Binder>),
    InNegate(u32),
    InNot(u32),
    /// After `pown`: its power ends it
    InPown(u32),
    InRight(u32, Infix, Operand),
    /// After a name and these arguments
    InArgument(u32, Name, Operands),
}

/// An open frame, and the least height that the parts in it and in the frames around it ask for, counted.
#[derive(Drop)]
pub struct Entry {
    pub frame: Frame,
    pub least: u32,
}

// A call with its last argument, in the box in which that stood.
#[inline(always)]
fn call(at: u32, name: Name, before: Operands, last: Operand) -> Result<Operand, AllocError>
    ensures { IfOk result (λ p. operand_expr p
        ≡ call_syntax at name (exprs_in_order (operand_exprs before ++ operand_expr last ∷ []))) }
{
    match before.with_room(last) {
        Ok((arguments, room)) => Ok(arguments.call(at, name, room)),
        Err(error) => Err(error),
    }
}

// The operand alone, without the frame.
fn unframed(frame: Frame, last: Operand) -> Operand
    ensures { result ≡ last }
{
    drop(frame);
    last
}

impl Frame {
    /// Gives its memory back. A crate that calls this has no proof of its own of how the trees are let go.
    pub fn discard(self) {
        drop(self);
    }

    /// The rank of what stands in it lies below this.
    #[inline(always)]
    pub fn bound(&self) -> u8
        ensures { result ≡ bound_of (view_frame self.now) }
    {
        match self {
            Frame::InNegate(_) => 3,
            Frame::InRight(_, sign, _) => sign.right_bound(),
            Frame::InNot(_) | Frame::InPown(_) | Frame::InArgument(_, _, _) => 1,
            _ => 10,
        }
    }

    /// The rank of what it becomes if no token ends it; otherwise 10.
    #[inline(always)]
    pub fn own_rank(&self) -> u8
        ensures { result ≡ own_rank (view_frame self.now) }
    {
        match self {
            Frame::InBody(_, _, _) => 9,
            Frame::InElse(_, _, _) => 9,
            Frame::InFullArm(_, _, _) => 9,
            Frame::InNegate(_) => 2,
            Frame::InNot(_) => 1,
            Frame::InRight(_, sign, _) => sign.rank(),
            Frame::InArgument(_, _, _) => 1,
            _ => 10,
        }
    }

    /// Whether it is a call.
    pub fn is_call(&self) -> bool
        ensures { result ≡ is_call (view_frame self.now) }
    {
        match self {
            Frame::InArgument(_, _, _) => true,
            _ => false,
        }
    }

    /// Whether it waits for the power of `pown`.
    pub fn is_pown(&self) -> bool
        ensures { result ≡ is_pown (view_frame self.now) }
    {
        match self {
            Frame::InPown(_) => true,
            _ => false,
        }
    }

    /// The greatest height of its own parts, counted.
    #[inline(always)]
    pub fn side(&self) -> u32
        ensures { result ≡ counted (side (view_frame self.now)) }
    {
        match self {
            Frame::InBracket(_) => 0,
            Frame::InItem(_, before) => before.height,
            Frame::InField(_, before, _, _) => before.height,
            Frame::InValue(_, _) => 1,
            Frame::InBody(_, _, value) => value.height,
            Frame::InTest(_) => 1,
            Frame::InThen(_, test) => higher(test.height, 1),
            Frame::InElse(_, test, one) => higher(test.height, one.height),
            Frame::InMatched(_) => 1,
            Frame::InEmptyArm(_, list) => higher(list.height, 1),
            Frame::InFullArm(matching, _, _) => {
                higher(matching.list.height, matching.empty.height)
            }
            Frame::InNegate(_) => 0,
            Frame::InNot(_) => 0,
            Frame::InPown(_) => 0,
            Frame::InRight(_, _, left) => left.height,
            Frame::InArgument(_, _, before) => before.height,
        }
    }

    /// What it is with its last part, if no token ends it.
    #[inline(always)]
    pub fn plug(self, alloc: Global, last: Operand) -> Result<Operand, AllocError>
        ensures { IfOk result (λ p. operand_expr p ≡ plug (view_frame self) (operand_expr last)) }
    {
        match self {
            Frame::InRight(at, sign, left) => left.infix(alloc, at, sign, last),
            Frame::InArgument(at, name, before) => call(at, name, before, last),
            other => other.plug_form(alloc, last),
        }
    }

    // The same for the forms that are rarer than a sign between two operands and a call.
    #[inline(never)]
    fn plug_form(self, alloc: Global, last: Operand) -> Result<Operand, AllocError>
        ensures { IfOk result (λ p. operand_expr p ≡ plug (view_frame self) (operand_expr last)) }
    {
        match self {
            Frame::InBody(at, x, value) => value.bound(alloc, at, x, last),
            Frame::InElse(at, test, one) => test.choice(alloc, at, one, last),
            Frame::InFullArm(matching, head, tail) => matching.whole(alloc, head, tail, last),
            Frame::InNegate(at) => last.negate(alloc, at),
            Frame::InNot(at) => last.not(alloc, at),
            Frame::InRight(at, sign, left) => left.infix(alloc, at, sign, last),
            Frame::InArgument(at, name, before) => call(at, name, before, last),
            other => Ok(unframed(other, last)),
        }
    }
}
