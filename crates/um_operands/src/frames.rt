// The open frames, each with the least height that it and the frames around it ask for.
ghost use Rattle.std.specs.Prelude.{◌≡◌, ◌<◌, ◌∷◌, [], IfSome, OnOk, length, map, reverse, vec_len};
ghost use Rattle.um_unit_texts.specs.UnitCount.{counted};
ghost use Rattle.um_operands.specs.ExprBegun.{top_bound, top_rank};
ghost use Rattle.um_operands.specs.ExprFrames.{view_frame, entry_least, stack, base, bases, Taken};

use crate::frame::{Entry, Frame};
use std::alloc::{AllocError, Global};
use um_unit_texts::{TOO_HIGH, counted_sum, higher, one_higher};

/// The open frames, the innermost last.
#[derive(Drop)]
pub struct Frames {
    pub entries: Vec<Entry>,
    ghost based: { map entry_least (reverse entries.items) ≡ bases (stack entries.items) },
}

impl Frames {
    ghost use Rattle.um_operands.specs.ExprStack.{frames_of};

    /// No frame is open.
    pub fn new(alloc: Global) -> Frames
        ensures { frames_of result ≡ [] }
    {
        Frames {
            entries: Vec::new(alloc),
        }
    }

    /// No frame is open any more. The room that they took is kept.
    pub fn clear(&mut self)
        ensures { frames_of self.new ≡ [] }
    {
        self.entries.clear();
    }

    /// The number of frames, counted.
    pub fn count(&self) -> u32
        ensures { result ≡ counted (length (frames_of self.now)) }
    {
        let count = self.entries.len();
        if count < TOO_HIGH as usize {
            count as u32
        } else {
            TOO_HIGH
        }
    }

    /// The least height that the parts in the frames ask for, counted.
    pub fn least(&self) -> u32
        ensures { result ≡ counted (base (frames_of self.now)) }
    {
        match self.entries.last() {
            Some(entry) => entry.least,
            None => 0,
        }
    }

    /// The rank of what stands in the innermost frame lies below this.
    #[inline(always)]
    pub fn bound(&self) -> u8
        ensures { result ≡ top_bound (frames_of self.now) }
    {
        match self.entries.last() {
            Some(entry) => entry.frame.bound(),
            None => 10,
        }
    }

    /// The rank of what the innermost frame becomes if no token ends it; otherwise 10.
    #[inline(always)]
    pub fn rank(&self) -> u8
        ensures { result ≡ top_rank (frames_of self.now) }
    {
        match self.entries.last() {
            Some(entry) => entry.frame.own_rank(),
            None => 10,
        }
    }

    /// Opens a frame.
    #[inline(always)]
    pub fn push(&mut self, frame: Frame) -> Result<(), AllocError>
        ensures { OnOk result (frames_of self.new ≡ view_frame frame ∷ frames_of self.old) }
    {
        let least = higher(
            self.least(),
            counted_sum(one_higher(frame.side()), self.count()),
        );
        match self.entries.reserve(1) {
            Ok(()) => Ok(self.entries.push_reserved(Entry { frame, least })),
            Err(error) => {
                drop(frame);
                Err(error)
            }
        }
    }

    /// Takes off the innermost frame.
    pub fn pop(&mut self) -> Option<Frame>
        ensures state { Taken (frames_of self.old) result (frames_of self.new) }
        ensures shorter { IfSome result (λ _. vec_len self.new.entries < vec_len self.old.entries) }
    {
        match self.entries.pop() {
            Some(entry) => Some(entry.frame),
            None => None,
        }
    }
}
