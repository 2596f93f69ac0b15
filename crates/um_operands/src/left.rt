// The frames that would be left once those that need no token to end had ended. Nothing ends here.
ghost use Rattle.std.specs.Prelude.{◌≡◌, ◌≤◌, length, take};
ghost use Rattle.um_operands.specs.ExprBegun.{top_bound};
ghost use Rattle.um_operands.specs.ExprFrames.{stack};
ghost use Rattle.um_operands.specs.ExprStack.{frames_of};
ghost use Rattle.um_operands.specs.Standing.{left};

use crate::frames::Frames;

/// How many frames are left once all up to this rank have ended, from the innermost out.
pub fn frames_left(frames: &Frames, limit: u8) -> usize
    ensures left { stack (take result frames.now.entries.items) ≡ left limit (frames_of frames.now) }
    ensures within { result ≤ length frames.now.entries.items }
{
    for k in (0..frames.entries.len()).rev() {
        if limit < frames.entries[k].frame.own_rank() {
            return k + 1;
        }
    }
    0
}

/// The rank of what stands in the innermost frame that is left lies below this.
pub fn bound_left(frames: &Frames, limit: u8) -> u8
    ensures { result ≡ top_bound (left limit (frames_of frames.now)) }
{
    let count = frames_left(frames, limit);
    if count == 0 {
        return 10;
    }
    frames.entries[count - 1].frame.bound()
}
