// Ending the frames that need no token to end.
ghost use Rattle.std.specs.Prelude.{◌≡◌, ◌<◌, IfOk, IfSome, None, option_map, vec_len};
ghost use Rattle.um_operands.specs.ExprBegun.{Have, reduce, finish};
ghost use Rattle.um_operands.specs.ExprOperands.{operand_expr};
ghost use Rattle.um_operands.specs.ExprStack.{frames_of};
ghost use Rattle.um_operands.specs.ExprFrames.{Ended, left_over};

use crate::frame::Frame;
use crate::frames::Frames;
use crate::operand::Operand;
use std::alloc::{AllocError, Global};

// Takes off the innermost frame if it needs no token to end, and has at most this rank then.
fn pop_ended(frames: &mut Frames, limit: u8) -> Option<Frame>
    requires { limit < 10 }
    ensures state { Ended limit (frames_of frames.old) result (frames_of frames.new) }
    ensures shorter { IfSome result (λ _. vec_len frames.new.entries < vec_len frames.old.entries) }
{
    if limit < frames.rank() {
        None
    } else {
        frames.pop()
    }
}

// Ends all frames up to this rank, one after the other.
#[inline(always)]
fn end_frames(
    alloc: Global,
    frames: &mut Frames,
    limit: u8,
    operand: Operand,
) -> Result<Operand, AllocError>
    requires { limit < 10 }
    ensures { IfOk result (λ t. Have (frames_of frames.new) (operand_expr t)
        ≡ reduce limit (frames_of frames.old) (operand_expr operand)) }
{
    let mut operand = operand;
    while let Some(frame) = pop_ended(frames, limit) {
        operand = frame.plug(alloc, operand)?;
    }
    Ok(operand)
}

/// Ends the innermost frames up to this rank, of those that need no token to end, and gives what stands in the frames
/// that are left.
#[inline(never)]
pub fn ended(
    alloc: Global,
    frames: &mut Frames,
    limit: u8,
    operand: Operand,
) -> Result<Operand, AllocError>
    requires { limit < 10 }
    ensures { IfOk result (λ t. Have (frames_of frames.new) (operand_expr t)
        ≡ reduce limit (frames_of frames.old) (operand_expr operand)) }
{
    if limit < frames.rank() {
        Ok(operand)
    } else {
        end_frames(alloc, frames, limit, operand)
    }
}

/// The operand as the whole expression, if no frame is open around it.
pub fn left_over(outer: Option<Frame>, operand: Operand) -> Option<Operand>
    ensures { option_map operand_expr result ≡ left_over outer (operand_expr operand) }
{
    match outer {
        None => Some(operand),
        Some(frame) => nothing_left(frame, operand),
    }
}

fn nothing_left(frame: Frame, operand: Operand) -> Option<Operand>
    ensures { result ≡ None }
{
    drop(frame);
    drop(operand);
    None
}

/// The expression if all is read after this operand.
pub fn whole(
    alloc: Global,
    frames: &mut Frames,
    operand: Operand,
) -> Result<Option<Operand>, AllocError>
    ensures { IfOk result (λ o. option_map operand_expr o
        ≡ finish (Have (frames_of frames.old) (operand_expr operand))) }
{
    let inner = ended(alloc, frames, 9, operand)?;
    Ok(left_over(frames.pop(), inner))
}
