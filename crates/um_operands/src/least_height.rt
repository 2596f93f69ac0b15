// The least height of an expression that begins with what was read.
ghost use Rattle.std.specs.Prelude.{◌≡◌, ◌+◌, max, nat_lt};
ghost use Rattle.um_tree.specs.Heights.{expr_height};
ghost use Rattle.um_unit_texts.specs.UnitCount.{counted};
ghost use Rattle.um_unit_texts.specs.UnitStops.{greatest_height};
ghost use Rattle.um_operands.specs.ExprLeast.{expected_least, whole_least};
ghost use Rattle.um_operands.specs.ExprOperands.{operand_expr};
ghost use Rattle.um_operands.specs.ExprStack.{frames_of};
ghost use Rattle.um_operands.specs.ExprFocus.{view_expected, focus_height, state_of};

use crate::focus::{Expected, Focus};
use crate::frames::Frames;
use crate::matching::Matching;
use crate::operand::Operand;
use um_unit_texts::{TOO_HIGH, counted_sum, higher, one_higher};

// One above this part, and above a part that is missing.
fn above(part: &Operand) -> u32
    ensures { result ≡ counted (max (expr_height (operand_expr part.now)) 1 + 1) }
{
    one_higher(higher(part.height, 1))
}

// One above both parts of a `match`, and above a part that is missing.
fn above_both(matching: &Matching) -> u32
    ensures { result ≡ counted (max (expr_height (operand_expr matching.now.list))
        (max (expr_height (operand_expr matching.now.empty)) 1) + 1) }
{
    one_higher(higher(matching.list.height, higher(matching.empty.height, 1)))
}

#[inline(never)]
fn expected_height(place: &Expected) -> u32
    ensures { result ≡ counted (expected_least (view_expected place.now)) }
{
    match place {
        Expected::LetBinder(_) => 2,
        Expected::LetEqual(_, _) => 2,
        Expected::FieldName(_, before) => one_higher(higher(before.height, 1)),
        Expected::FieldEqual(_, before, _, _) => one_higher(higher(before.height, 1)),
        Expected::DotName(_, operand) => one_higher(operand.height),
        Expected::ArmBegin(_, list) => above(list),
        Expected::ArmOpen(_, list) => above(list),
        Expected::ArmClose(_, list) => above(list),
        Expected::ArmArrow(_, list) => above(list),
        Expected::HeadBinder(matching) => above_both(matching),
        Expected::HeadCons(matching, _) => above_both(matching),
        Expected::TailBinder(matching, _) => above_both(matching),
        Expected::TailArrow(matching, _, _) => above_both(matching),
        Expected::NilColon(_) => 3,
        Expected::PownMinus(_, operand) => one_higher(operand.height),
        Expected::PownDigits(_, operand) => one_higher(operand.height),
        Expected::PownClose(_, operand, _) => one_higher(operand.height),
    }
}

#[inline(always)]
fn focus_height(focus: &Focus) -> u32
    ensures { result ≡ counted (focus_height focus.now) }
{
    match focus {
        Focus::Wanted => 1,
        Focus::Read(operand) => operand.height,
        Focus::Power(operand) => operand.height,
        Focus::Greater(_, left) => above(left),
        Focus::Inside(place) => expected_height(place),
    }
}

/// Whether an expression within the heights begins with what was read.
#[inline(always)]
pub fn is_low(frames: &Frames, focus: &Focus) -> bool
    ensures { result
        ≡ nat_lt (whole_least (state_of (frames_of frames.now) focus.now)) (greatest_height + 1) }
{
    let height = counted_sum(focus_height(focus), frames.count());
    higher(frames.least(), height) < TOO_HIGH
}
