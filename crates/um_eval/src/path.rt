//! Where an evaluator stopped, read off its frames.
ghost use Rattle.std.specs.Prelude.{◌≡◌, ◌++◌, IfOk, OnOk, reverse};
ghost use Rattle.um_eval.specs.Paths.{IsReadOff, outer_place, spots_at, spots_in};

use crate::evaluator::Evaluator;
use crate::frame::Frame;
use crate::stop::{Path, Spot};
use std::alloc::{AllocError, Global};
use um_units::NoMemory;

/// Where the evaluator stopped. It takes the evaluator's frames away.
pub(crate) fn stop_path(alloc: Global, evaluator: &mut Evaluator) -> Result<Path, NoMemory>
    ensures { IfOk result (λ path. IsReadOff evaluator.old path) }
{
    let at = evaluator.at;
    let operands = evaluator.operands;
    let spots = take_spots(alloc, &mut evaluator.frames, at)?;
    Ok(Path { operands, spots })
}

// The node of this place inside the frames, and the calls around it but for the command's own.
fn take_spots(alloc: Global, frames: &mut Vec<Frame>, place: u32) -> Result<Vec<Spot>, NoMemory>
    ensures { IfOk result (λ spots. spots.items ≡ spots_in place (reverse frames.old.items)) }
{
    let mut spots = Vec::new(alloc);
    let mut at = place;
    while let Some(frame) = frames.pop() {
        at = push_spot(&mut spots, frame, at)?;
    }
    Ok(spots)
}

// Adds the node of this place if the frame is that of the body in which it stands. Gives the place outside the frame.
fn push_spot(spots: &mut Vec<Spot>, frame: Frame, at: u32) -> Result<u32, NoMemory>
    ensures spots { OnOk result (spots.new.items ≡ spots.old.items ++ spots_at frame.entry at) }
    ensures place { IfOk result (λ outer. outer ≡ outer_place frame.entry at) }
{
    match frame {
        Frame::Body(_, function, called) => {
            match spots.push(Spot { function, at }) {
                Ok(()) => Ok(called),
                Err(_) => Err(AllocError),
            }
        }
        Frame::Operand(_) => Ok(at),
        Frame::Left(_, _) => Ok(at),
        Frame::Right(_, _) => Ok(at),
        Frame::LeftOfAnd(_) => Ok(at),
        Frame::LeftOfOr(_) => Ok(at),
        Frame::Test(_, _) => Ok(at),
        Frame::Bound(_) => Ok(at),
        Frame::Matched(_, _) => Ok(at),
        Frame::Inner(_) => Ok(at),
        Frame::Item(_, _, _) => Ok(at),
    }
}
