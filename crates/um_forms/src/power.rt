// The power of `pown`, after its operand.
ghost use Rattle.std.specs.Prelude.{◌≡◌, ◌∷◌, IfOk, None, true};
ghost use Rattle.um_operands.specs.declared.focus.Step.TheVariants.{Stops};
ghost use Rattle.um_operands.specs.ExprBegun.{Have, finish, is_pown};
ghost use Rattle.um_operands.specs.ExprOperands.{operand_expr};
ghost use Rattle.um_operands.specs.ExprFrames.{view_frame};
ghost use Rattle.um_operands.specs.ExprStack.{frames_of};
ghost use Rattle.um_operands.specs.ExprFocus.{open_in};
ghost use Rattle.um_forms.specs.ExprForms.{in_pown, pown_after, number_after, pown_bracket, bracket_after, power_of};
ghost use Rattle.um_forms.specs.ExprSteps.{Simulates, SimulatesAfter};

use crate::argument::begin_argument;
use crate::closing::refuse;
use crate::token::ExprToken;
use std::alloc::{AllocError, Global};
use um_frac::Frac;
use um_operands::{Begun, Expected, Focus, Frame, Frames, Operand, Step};
use um_syntax::{Symbol, Token};
use um_unit_texts::written_power;

/// Whether the power of `pown` is wanted.
pub fn in_pown(frames: &Frames) -> bool
    ensures { result ≡ in_pown (frames_of frames.now) }
{
    match frames.entries.last() {
        Some(entry) => entry.frame.is_pown(),
        None => false,
    }
}

fn no_power(operand: Operand) -> Step
    ensures { result ≡ Stops None }
{
    drop(operand);
    Step::Stops(None)
}

// The number after the operand of this frame is its power.
fn power_ends(
    alloc: Global,
    begun: &mut Begun,
    frame: Frame,
    operand: Operand,
    token: &Token,
) -> Result<Step, AllocError>
    requires { is_pown (view_frame frame) ≡ true }
    ensures { IfOk result
        (λ s. Simulates (finish (Have (view_frame frame ∷ open_in begun.old) (operand_expr operand))) begun.new s
        (pown_after (view_frame frame ∷ open_in begun.old) (operand_expr operand) (power_of token.now))) }
{
    match frame {
        Frame::InPown(at) => match written_power(&token.kind) {
            Some(k) => {
                let power = operand.pown(alloc, at, k)?;
                Ok(begun.goes(Focus::Power(power)))
            }
            None => Ok(no_power(operand)),
        },
        other => Ok(refuse(other, operand)),
    }
}

// A number where the power of `pown` is wanted.
fn pown_after(
    alloc: Global,
    begun: &mut Begun,
    operand: Operand,
    token: &Token,
) -> Result<Step, AllocError>
    requires { in_pown (open_in begun.old) ≡ true }
    ensures { IfOk result
        (λ s. SimulatesAfter begun.old operand begun.new s
        (pown_after (open_in begun.old) (operand_expr operand) (power_of token.now))) }
{
    match begun.frames.pop() {
        Some(frame) => power_ends(alloc, begun, frame, operand, token),
        None => Ok(no_power(operand)),
    }
}

/// A number after an operand: it is the power of `pown` if that is wanted, and otherwise an argument. A power is digits
/// alone, as in a unit text. Fails only for want of memory.
///
/// Source: `pown` of F#'s core library, whose second argument is a literal here.
pub fn number_after(
    alloc: Global,
    begun: &mut Begun,
    operand: Operand,
    value: Frac,
    token: &Token,
) -> Result<Step, AllocError>
    ensures { IfOk result
        (λ s. SimulatesAfter begun.old operand begun.new s
        (number_after (open_in begun.old) (operand_expr operand) value token.now.start (power_of token.now))) }
{
    if in_pown(&begun.frames) {
        pown_after(alloc, begun, operand, token)
    } else {
        begin_argument(alloc, begun, operand, ExprToken::Number(value), token.start)
    }
}

// `(` after the operand of this frame
fn bracket_opens(begun: &mut Begun, frame: Frame, operand: Operand) -> Step
    requires { is_pown (view_frame frame) ≡ true }
    ensures { Simulates (finish (Have (view_frame frame ∷ open_in begun.old) (operand_expr operand))) begun.new result
        (pown_bracket (view_frame frame ∷ open_in begun.old) (operand_expr operand)) }
{
    match frame {
        Frame::InPown(at) => begun.goes(Focus::Inside(Expected::PownMinus(at, operand))),
        other => refuse(other, operand),
    }
}

// `(` where the power of `pown` is wanted
fn pown_bracket(begun: &mut Begun, operand: Operand) -> Step
    requires { in_pown (open_in begun.old) ≡ true }
    ensures { SimulatesAfter begun.old operand begun.new result
        (pown_bracket (open_in begun.old) (operand_expr operand)) }
{
    match begun.frames.pop() {
        Some(frame) => bracket_opens(begun, frame, operand),
        None => no_power(operand),
    }
}

/// `(` after an operand: the power of `pown` begins if that is wanted, and otherwise an argument. Fails only for want
/// of memory.
///
/// Source: as for [`number_after`].
pub fn bracket_after(
    alloc: Global,
    begun: &mut Begun,
    operand: Operand,
    at: u32,
) -> Result<Step, AllocError>
    ensures { IfOk result
        (λ s. SimulatesAfter begun.old operand begun.new s
        (bracket_after (open_in begun.old) (operand_expr operand) at)) }
{
    if in_pown(&begun.frames) {
        Ok(pown_bracket(begun, operand))
    } else {
        begin_argument(
            alloc,
            begun,
            operand,
            ExprToken::Mark(Symbol::LeftParen),
            at,
        )
    }
}
