// The least height of a unit text that begins with what was read.
ghost use Rattle.std.specs.Prelude.{◌≡◌, ◌+◌, nat_lt};
ghost use Rattle.um_unit_texts.specs.UnitStops.{greatest_height};
ghost use Rattle.um_unit_texts.specs.UnitLeast.{least};
ghost use Rattle.um_unit_texts.specs.UnitCount.{counted};
ghost use Rattle.um_unit_texts.specs.UnitView.{state_of, focus_height};

use crate::height::{TOO_HIGH, counted_sum, higher, one_higher};
use crate::unit_frame::Focus;
use crate::unit_frames::Frames;

fn focus_height(focus: &Focus) -> u32
    ensures { result ≡ counted (focus_height focus.now) }
{
    match focus {
        Focus::Empty => 1,
        Focus::Full(operand) => operand.height,
        Focus::Raised(base) => one_higher(base.height),
        Focus::Lowered(base) => one_higher(base.height),
    }
}

/// Whether a unit text within the height begins with what was read.
pub fn is_low(frames: &Frames, focus: &Focus) -> bool
    ensures { result ≡ nat_lt (least (state_of frames.now focus.now)) (greatest_height + 1) }
{
    let height = counted_sum(focus_height(focus), frames.count());
    higher(frames.least(), height) < TOO_HIGH
}
