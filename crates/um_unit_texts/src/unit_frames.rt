// The open frames, each with the least height that it and the frames around it ask for.
ghost use Rattle.std.specs.Prelude.{◌≡◌, ◌<◌, ◌∷◌, [], IfSome, OnOk, length, map, reverse, vec_len};
ghost use Rattle.um_unit_texts.specs.UnitCount.{counted};
ghost use Rattle.um_unit_texts.specs.UnitFrames.{view_frame, entry_least, stack, base, bases, Taken};

use crate::height::{TOO_HIGH, counted_sum, higher, one_higher};
use crate::unit_frame::{Entry, Frame};
use std::alloc::{AllocError, Global};

/// The open frames, the innermost last.
#[derive(Drop)]
pub(crate) struct Frames {
    pub entries: Vec<Entry>,
    ghost based: { map entry_least (reverse entries.items) ≡ bases (stack entries.items) },
}

impl Frames {
    ghost use Rattle.um_unit_texts.specs.UnitView.{frames_of};

    /// No frame is open.
    pub fn new(alloc: Global) -> Frames
        ensures { frames_of result ≡ [] }
    {
        Frames {
            entries: Vec::new(alloc),
        }
    }

    /// The number of frames, counted.
    pub fn count(&self) -> u32
        ensures { result ≡ counted (length (frames_of self.now)) }
    {
        let count = self.entries.len();
        if count < TOO_HIGH as usize {
            count as u32
        } else {
            TOO_HIGH
        }
    }

    /// The least height that the parts in the frames ask for, counted.
    pub fn least(&self) -> u32
        ensures { result ≡ counted (base (frames_of self.now)) }
    {
        match self.entries.last() {
            Some(entry) => entry.least,
            None => 0,
        }
    }

    /// Opens a frame.
    #[inline(always)]
    pub fn push(&mut self, frame: Frame) -> Result<(), AllocError>
        ensures { OnOk result (frames_of self.new ≡ view_frame frame ∷ frames_of self.old) }
    {
        let own = counted_sum(one_higher(frame.side()), self.count());
        let least = higher(self.least(), own);
        match self.entries.reserve(1) {
            Ok(()) => Ok(self.entries.push_reserved(Entry { frame, least })),
            Err(error) => {
                drop(frame);
                Err(error)
            }
        }
    }

    /// Takes off the innermost frame.
    pub fn pop(&mut self) -> Option<Frame>
        ensures state { Taken (frames_of self.old) result (frames_of self.new) }
        ensures shorter { IfSome result (λ _. vec_len self.new.entries < vec_len self.old.entries) }
    {
        match self.entries.pop() {
            Some(entry) => Some(entry.frame),
            None => None,
        }
    }
}
