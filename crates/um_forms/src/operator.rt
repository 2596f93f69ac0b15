// A sign between operands, after the left one.
ghost use Rattle.std.specs.Prelude.{◌≡◌, IfOk, None, true};
ghost use Rattle.um_operands.specs.declared.focus.Step.TheVariants.{Stops};
ghost use Rattle.um_operands.specs.ExprKinds.{is_plain_number};
ghost use Rattle.um_operands.specs.Ranks.{left_limit};
ghost use Rattle.um_operands.specs.ExprBegun.{reduce};
ghost use Rattle.um_operands.specs.ExprOperands.{operand_expr};
ghost use Rattle.um_operands.specs.ExprFocus.{open_in};
ghost use Rattle.um_forms.specs.ExprForms.{infix_after, greater_after, less_after, operator_after};
ghost use Rattle.um_forms.specs.ExprSteps.{SimulatesAfter};

use std::alloc::{AllocError, Global};
use um_operands::{Begun, Focus, Frame, Infix, Operand, Step, composite, ended, whole};
use um_tree::{RawNode, Sign};

/// A sign between two operands, after the left one: the frames that bind more tightly end, and the right operand is
/// wanted. The expression stops before a sign that can't stand here, as the second of two comparisons. Fails only for
/// want of memory.
///
/// Source: the F# specification, Precedence of Symbolic Operators.
#[inline(always)]
pub fn infix_after(
    alloc: Global,
    begun: &mut Begun,
    operand: Operand,
    sign: Infix,
    at: u32,
) -> Result<Step, AllocError>
    ensures { IfOk result
        (λ s. SimulatesAfter begun.old operand begun.new s
        (infix_after sign at (reduce (left_limit sign) (open_in begun.old) (operand_expr operand)))) }
{
    let left = ended(alloc, &mut begun.frames, sign.left_limit(), operand)?;
    if sign.rank() < begun.frames.bound() {
        begun.frames.push(Frame::InRight(at, sign, left))?;
        Ok(begun.goes(Focus::Wanted))
    } else {
        Ok(Step::Stops(whole(alloc, &mut begun.frames, left)?))
    }
}

// The same, out of line.
#[inline(never)]
fn infix_apart(
    alloc: Global,
    begun: &mut Begun,
    operand: Operand,
    sign: Infix,
    at: u32,
) -> Result<Step, AllocError>
    ensures { IfOk result
        (λ s. SimulatesAfter begun.old operand begun.new s
        (infix_after sign at (reduce (left_limit sign) (open_in begun.old) (operand_expr operand)))) }
{
    infix_after(alloc, begun, operand, sign, at)
}

// `>`
fn greater_after(
    alloc: Global,
    begun: &mut Begun,
    operand: Operand,
    at: u32,
) -> Result<Step, AllocError>
    ensures { IfOk result
        (λ s. SimulatesAfter begun.old operand begun.new s
        (greater_after at (reduce 5 (open_in begun.old) (operand_expr operand)))) }
{
    let left = ended(alloc, &mut begun.frames, 5, operand)?;
    if begun.frames.bound() > 6 {
        Ok(begun.goes(Focus::Greater(at, left)))
    } else {
        Ok(Step::Stops(whole(alloc, &mut begun.frames, left)?))
    }
}

// `<` directly after a number, which stays in focus because its box is used again
fn note_opens(begun: &mut Begun, operand: Operand, sign_at: u32) -> Step
    requires { is_plain_number (operand_expr operand) ≡ true }
    ensures { SimulatesAfter begun.old operand begun.new result
        (less_after (open_in begun.old) (operand_expr operand) true sign_at) }
{
    match &operand.tree.node {
        RawNode::Num(value, None) => {
            let given = Step::Note(operand.tree.at, *value);
            begun.focus.put(Focus::Read(operand));
            given
        }
        RawNode::Num(_, Some(_)) | RawNode::Name(_) | RawNode::Pow(_, _) | composite!() => {
            drop(operand);
            Step::Stops(None)
        }
    }
}

/// `<` after an operand. Directly after a number it opens the note of the number; otherwise it is a comparison. Fails
/// only for want of memory.
///
/// Source: the F# specification, Units Of Measure, for the constants with a measure annotation.
#[inline(always)]
pub fn less_after(
    alloc: Global,
    begun: &mut Begun,
    operand: Operand,
    at: u32,
    glued: bool,
) -> Result<Step, AllocError>
    ensures { IfOk result
        (λ s. SimulatesAfter begun.old operand begun.new s
        (less_after (open_in begun.old) (operand_expr operand) glued at)) }
{
    if glued && operand.is_plain_number() {
        Ok(note_opens(begun, operand, at))
    } else {
        infix_apart(alloc, begun, operand, Infix::Compare(Sign::Lt), at)
    }
}

/// A sign between operands, after the left one.
pub fn after_operator(
    alloc: Global,
    begun: &mut Begun,
    operand: Operand,
    sign: Infix,
    at: u32,
    glued: bool,
) -> Result<Step, AllocError>
    ensures { IfOk result
        (λ s. SimulatesAfter begun.old operand begun.new s
        (operator_after (open_in begun.old) (operand_expr operand) sign at glued)) }
{
    match sign {
        Infix::Compare(Sign::Lt) => less_after(alloc, begun, operand, at, glued),
        Infix::Compare(Sign::Gt) => greater_after(alloc, begun, operand, at),
        Infix::Compare(Sign::Ge) => Ok(Step::Stops(whole(alloc, &mut begun.frames, operand)?)),
        Infix::Or
        | Infix::And
        | Infix::Cons
        | Infix::Compare(Sign::Eq)
        | Infix::Compare(Sign::Ne)
        | Infix::Compare(Sign::Le)
        | Infix::Arith(_) => infix_after(alloc, begun, operand, sign, at),
    }
}
