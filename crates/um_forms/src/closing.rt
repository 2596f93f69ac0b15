// A sign or reserved word after an operand that ends the form around it or goes on with it.
ghost use Rattle.std.specs.Prelude.{◌≡◌, ◌∷◌, IfOk, None};
ghost use Rattle.um_operands.specs.declared.focus.Step.TheVariants.{Stops};
ghost use Rattle.um_operands.specs.ExprBegun.{Have, reduce};
ghost use Rattle.um_operands.specs.ExprOperands.{operand_expr};
ghost use Rattle.um_operands.specs.ExprFrames.{view_frame};
ghost use Rattle.um_operands.specs.ExprFocus.{open_in};
ghost use Rattle.um_forms.specs.ExprForms.{close_after, list_after, record_after, semi_after, in_after, then_after};
ghost use Rattle.um_forms.specs.ExprForms.{else_after, with_after, bar_after, mark_ends, word_ends};
ghost use Rattle.um_forms.specs.ExprSteps.{Simulates, SimulatesAfter};

use crate::wanted::{opened, opened_here};
use std::alloc::{AllocError, Global};
use um_operands::{Begun, Expected, Focus, Frame, Matching, Operand, Step, ended};
use um_syntax::{Keyword, Symbol};

/// The refusal of a token that neither ends this frame nor goes on with it. No expression is whole before the token.
pub fn refuse(frame: Frame, inner: Operand) -> Step
    ensures { result ≡ Stops None }
{
    frame.discard();
    drop(inner);
    Step::Stops(None)
}

// `)`
fn close(alloc: Global, begun: &mut Begun, frame: Frame, inner: Operand) -> Result<Step, AllocError>
    ensures { IfOk result
        (λ s. Simulates None begun.new s
        (close_after (Have (view_frame frame ∷ open_in begun.old) (operand_expr inner)))) }
{
    match frame {
        Frame::InBracket(at) => {
            let operand = inner.bracket(alloc, at)?;
            Ok(begun.goes(Focus::Read(operand)))
        }
        other => Ok(refuse(other, inner)),
    }
}

// `]`
fn close_list(
    alloc: Global,
    begun: &mut Begun,
    frame: Frame,
    inner: Operand,
) -> Result<Step, AllocError>
    ensures { IfOk result
        (λ s. Simulates None begun.new s
        (list_after (Have (view_frame frame ∷ open_in begun.old) (operand_expr inner)))) }
{
    match frame {
        Frame::InItem(at, before) => {
            let items = before.with(inner)?;
            let operand = items.list(alloc, at)?;
            Ok(begun.goes(Focus::Read(operand)))
        }
        other => Ok(refuse(other, inner)),
    }
}

// `}`
fn close_record(
    alloc: Global,
    begun: &mut Begun,
    frame: Frame,
    inner: Operand,
) -> Result<Step, AllocError>
    ensures { IfOk result
        (λ s. Simulates None begun.new s
        (record_after (Have (view_frame frame ∷ open_in begun.old) (operand_expr inner)))) }
{
    match frame {
        Frame::InField(at, before, place, name) => {
            let fields = before.with(place, name, inner)?;
            let operand = fields.whole(alloc, at)?;
            Ok(begun.goes(Focus::Read(operand)))
        }
        other => Ok(refuse(other, inner)),
    }
}

// `;`
fn semicolon(begun: &mut Begun, frame: Frame, inner: Operand) -> Result<Step, AllocError>
    ensures { IfOk result
        (λ s. Simulates None begun.new s
        (semi_after (Have (view_frame frame ∷ open_in begun.old) (operand_expr inner)))) }
{
    match frame {
        Frame::InItem(at, before) => opened_here(begun, Frame::InItem(at, before.with(inner)?)),
        Frame::InField(at, before, place, name) => {
            let fields = before.with(place, name, inner)?;
            Ok(begun.goes(Focus::Inside(Expected::FieldName(at, fields))))
        }
        other => Ok(refuse(other, inner)),
    }
}

// `in`
fn body(begun: &mut Begun, frame: Frame, inner: Operand) -> Result<Step, AllocError>
    ensures { IfOk result
        (λ s. Simulates None begun.new s
        (in_after (Have (view_frame frame ∷ open_in begun.old) (operand_expr inner)))) }
{
    match frame {
        Frame::InValue(at, x) => opened(begun, Frame::InBody(at, x, inner)),
        other => Ok(refuse(other, inner)),
    }
}

// `then`
fn first_branch(begun: &mut Begun, frame: Frame, inner: Operand) -> Result<Step, AllocError>
    ensures { IfOk result
        (λ s. Simulates None begun.new s
        (then_after (Have (view_frame frame ∷ open_in begun.old) (operand_expr inner)))) }
{
    match frame {
        Frame::InTest(at) => opened(begun, Frame::InThen(at, inner)),
        other => Ok(refuse(other, inner)),
    }
}

// `else`
fn second_branch(begun: &mut Begun, frame: Frame, inner: Operand) -> Result<Step, AllocError>
    ensures { IfOk result
        (λ s. Simulates None begun.new s
        (else_after (Have (view_frame frame ∷ open_in begun.old) (operand_expr inner)))) }
{
    match frame {
        Frame::InThen(at, test) => opened(begun, Frame::InElse(at, test, inner)),
        other => Ok(refuse(other, inner)),
    }
}

// `with`
fn arms(begun: &mut Begun, frame: Frame, inner: Operand) -> Step
    ensures { Simulates None begun.new result
        (with_after (Have (view_frame frame ∷ open_in begun.old) (operand_expr inner))) }
{
    match frame {
        Frame::InMatched(at) => begun.goes(Focus::Inside(Expected::ArmBegin(at, inner))),
        other => refuse(other, inner),
    }
}

// `|`
fn full_arm(begun: &mut Begun, frame: Frame, inner: Operand) -> Step
    ensures { Simulates None begun.new result
        (bar_after (Have (view_frame frame ∷ open_in begun.old) (operand_expr inner))) }
{
    match frame {
        Frame::InEmptyArm(at, list) => {
            let empty = inner;
            begun.goes(Focus::Inside(Expected::HeadBinder(Matching { at, list, empty })))
        }
        other => refuse(other, inner),
    }
}

// The sign ends the frame, whose last operand is whole, or goes on with it.
fn end_frame_by_mark(
    alloc: Global,
    begun: &mut Begun,
    frame: Frame,
    inner: Operand,
    symbol: Symbol,
) -> Result<Step, AllocError>
    ensures { IfOk result
        (λ s. Simulates None begun.new s
        (mark_ends symbol (Have (view_frame frame ∷ open_in begun.old) (operand_expr inner)))) }
{
    match symbol {
        Symbol::RightParen => close(alloc, begun, frame, inner),
        Symbol::RightBracket => close_list(alloc, begun, frame, inner),
        Symbol::RightBrace => close_record(alloc, begun, frame, inner),
        Symbol::Semicolon => semicolon(begun, frame, inner),
        Symbol::Bar => Ok(full_arm(begun, frame, inner)),
        _ => Ok(refuse(frame, inner)),
    }
}

/// A sign after an operand that ends the innermost frame that a token ends, or goes on with it: `)`, `]`, `}`, `;` or
/// `|`. The expression stops before another sign. Fails only for want of memory.
///
/// Source: the forms of the F# specification, chapter Expressions.
pub fn end_by_mark(
    alloc: Global,
    begun: &mut Begun,
    operand: Operand,
    symbol: Symbol,
) -> Result<Step, AllocError>
    ensures { IfOk result
        (λ s. SimulatesAfter begun.old operand begun.new s
        (mark_ends symbol (reduce 9 (open_in begun.old) (operand_expr operand)))) }
{
    let inner = ended(alloc, &mut begun.frames, 9, operand)?;
    match begun.frames.pop() {
        Some(frame) => end_frame_by_mark(alloc, begun, frame, inner, symbol),
        None => Ok(Step::Stops(Some(inner))),
    }
}

// The reserved word goes on with the frame, whose last operand is whole.
fn end_frame_by_word(
    begun: &mut Begun,
    frame: Frame,
    inner: Operand,
    keyword: Keyword,
) -> Result<Step, AllocError>
    ensures { IfOk result
        (λ s. Simulates None begun.new s
        (word_ends keyword (Have (view_frame frame ∷ open_in begun.old) (operand_expr inner)))) }
{
    match keyword {
        Keyword::In => body(begun, frame, inner),
        Keyword::Then => first_branch(begun, frame, inner),
        Keyword::Else => second_branch(begun, frame, inner),
        Keyword::With => Ok(arms(begun, frame, inner)),
        _ => Ok(refuse(frame, inner)),
    }
}

/// A reserved word after an operand that goes on with the innermost frame that a token ends: `in`, `then`, `else` or
/// `with`. The expression stops before another word. Fails only for want of memory.
///
/// Source: the forms of the F# specification, chapter Expressions.
pub fn end_by_word(
    alloc: Global,
    begun: &mut Begun,
    operand: Operand,
    keyword: Keyword,
) -> Result<Step, AllocError>
    ensures { IfOk result
        (λ s. SimulatesAfter begun.old operand begun.new s
        (word_ends keyword (reduce 9 (open_in begun.old) (operand_expr operand)))) }
{
    let inner = ended(alloc, &mut begun.frames, 9, operand)?;
    match begun.frames.pop() {
        Some(frame) => end_frame_by_word(begun, frame, inner, keyword),
        None => Ok(Step::Stops(Some(inner))),
    }
}
