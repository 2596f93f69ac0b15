// What is open around the next part of a unit text, and what stands inside it.
ghost use Rattle.std.specs.Prelude.{◌≡◌, IfOk};
ghost use Rattle.um_unit_texts.specs.UnitMachine.{plug};
ghost use Rattle.um_unit_texts.specs.UnitLeast.{side};
ghost use Rattle.um_unit_texts.specs.UnitCount.{counted};
ghost use Rattle.um_unit_texts.specs.UnitFrames.{operand_syntax, view_frame};

use crate::unit_operand::{Operand, Operands};
use std::alloc::{AllocError, Global};
use std::mem;

/// A unit text that has begun, up to the part that is read next.
#[derive(Drop)]
pub(crate) enum Frame {
    InBracket(u32),
    InInverse(u32),
    InTimes(Operand),
    InOver(Operand),
    InSide(Operands),
}

/// An open frame, and the least height that the parts in it and in the frames around it ask for, counted.
#[derive(Drop)]
pub(crate) struct Entry {
    pub frame: Frame,
    pub least: u32,
}

/// What stands inside the frames: nothing, an atom or a power, or an atom with `^`, or with `^` and `-`.
#[derive(Drop)]
pub(crate) enum Focus {
    Empty,
    Full(Operand),
    Raised(Operand),
    Lowered(Operand),
}

/// A token goes on, or the text stops before it.
#[derive(Clone, Copy)]
pub(crate) enum Step {
    Goes,
    Stops,
}

impl Focus {
    /// From now on this stands inside the frames. If nothing did, there is nothing to let go.
    #[inline(always)]
    pub fn put(&mut self, next: Focus)
        ensures { self.new ≡ next }
    {
        match self {
            Focus::Empty => mem::forget(mem::replace(self, next)),
            Focus::Full(_) | Focus::Raised(_) | Focus::Lowered(_) => {
                drop(mem::replace(self, next));
            }
        }
    }
}

impl Frame {
    /// The height of its own parts, counted.
    pub fn side(&self) -> u32
        ensures { result ≡ counted (side (view_frame self.now)) }
    {
        match self {
            Frame::InBracket(_) => 0,
            Frame::InInverse(_) => 0,
            Frame::InTimes(left) => left.height,
            Frame::InOver(left) => left.height,
            Frame::InSide(earlier) => earlier.height,
        }
    }

    /// What it is with its last part, if no token ends it.
    pub fn plug(self, alloc: Global, last: Operand) -> Result<Operand, AllocError>
        ensures { IfOk result (λ p. operand_syntax p ≡ plug (view_frame self) (operand_syntax last)) }
    {
        match self {
            Frame::InBracket(_) => Ok(last),
            Frame::InInverse(at) => last.inverse(alloc, at),
            Frame::InTimes(left) => left.times(alloc, last),
            Frame::InOver(left) => left.over(alloc, last),
            Frame::InSide(earlier) => Ok(earlier.with(last)?.whole()),
        }
    }
}
