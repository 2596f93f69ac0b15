// An expression that has begun, without the note or the type that may be read inside it.
ghost use Rattle.std.specs.Prelude.{◌≡◌, []};
ghost use Rattle.um_operands.specs.ExprBegun.{Need};

use crate::focus::{Focus, Step};
use crate::frames::Frames;
use std::alloc::Global;

/// An expression that has begun: the open frames, and what stands inside the innermost.
pub struct Begun {
    pub frames: Frames,
    pub focus: Focus,
}

// A derived drop would be proved anew in each crate that lets expressions go that have begun. This one is proved here.
impl Drop for Begun {
    fn drop(self) {
        let Begun {
            frames: _,
            focus: _,
        } = self;
    }
}

impl Begun {
    ghost use Rattle.um_operands.specs.ExprFocus.{begun_state};

    /// No token was read yet.
    pub fn new(alloc: Global) -> Begun
        ensures { begun_state result ≡ Need [] }
    {
        Begun {
            frames: Frames::new(alloc),
            focus: Focus::Wanted,
        }
    }

    /// The token goes on, and from now on this stands inside the frames.
    #[inline(always)]
    pub fn goes(&mut self, next: Focus) -> Step
        ensures goes { result ≡ Step.Goes }
        ensures focus { self.new.focus ≡ next }
        ensures frames { self.new.frames ≡ self.old.frames }
    {
        self.focus.put(next);
        Step::Goes
    }
}
