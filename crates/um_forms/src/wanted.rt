// One token where an operand is wanted.
ghost use Rattle.std.specs.Prelude.{◌≡◌, ◌==◌, ◌∷◌, IfOk, None, vec_len};
ghost use Rattle.um_operands.specs.declared.focus.Step.TheVariants.{Stops};
ghost use Rattle.um_operands.specs.ExprBegun.{Need};
ghost use Rattle.um_operands.specs.ExprOperands.{operand_expr};
ghost use Rattle.um_operands.specs.ExprFrames.{view_frame};
ghost use Rattle.um_operands.specs.ExprFocus.{open_in};
ghost use Rattle.um_forms.specs.declared.token.ExprToken.TheVariants.{Operator as operator, Word as word, Mark as mark};
ghost use Rattle.um_forms.specs.ExprForms.{if_may, empty_list, begin, after_greater};
ghost use Rattle.um_forms.specs.ExprSteps.{Simulates, bracket_empty};

use crate::token::ExprToken;
use std::alloc::{AllocError, Global};
use um_operands::{Begun, Expected, Focus, Frame, Infix, Operand, Operands, ReadFields, Step};
use um_syntax::{Keyword, Symbol, Token};
use um_tree::{Arith, Sign};

/// The form of this frame is open after the token, and an operand is wanted in it. Fails only for want of memory.
#[inline(always)]
pub fn opened_here(begun: &mut Begun, frame: Frame) -> Result<Step, AllocError>
    ensures { IfOk result (λ s. Simulates None begun.new s (Need (view_frame frame ∷ open_in begun.old))) }
{
    begun.frames.push(frame)?;
    Ok(begun.goes(Focus::Wanted))
}

/// The same, for frames that aren't opened at most tokens.
#[inline(never)]
pub fn opened(begun: &mut Begun, frame: Frame) -> Result<Step, AllocError>
    ensures { IfOk result (λ s. Simulates None begun.new s (Need (view_frame frame ∷ open_in begun.old))) }
{
    opened_here(begun, frame)
}

// The same for a form of this rank, if it may stand here.
fn open_if(begun: &mut Begun, rank: u8, frame: Frame) -> Result<Step, AllocError>
    ensures { IfOk result
        (λ s. Simulates None begun.new s
        (if_may (open_in begun.old) rank (Need (view_frame frame ∷ open_in begun.old)))) }
{
    if rank < begun.frames.bound() {
        opened(begun, frame)
    } else {
        Ok(refuse_frame(frame))
    }
}

fn refuse_frame(frame: Frame) -> Step
    ensures { result ≡ Stops None }
{
    frame.discard();
    Step::Stops(None)
}

/// The refusal of a token that can't stand here. No expression is whole before the token.
pub fn refuse_token(kind: ExprToken) -> Step
    ensures { result ≡ Stops None }
{
    drop(kind);
    Step::Stops(None)
}

// Whether no items were read.
fn no_items(before: Operands) -> bool
    ensures { result ≡ (vec_len before.items == 0) }
{
    let none = before.items.is_empty();
    drop(before);
    none
}

// After `[` `]`, whose list is the first thing in brackets.
fn colon_wanted(begun: &mut Begun) -> Step
    ensures { Simulates None begun.new result (bracket_empty (open_in begun.old)) }
{
    match begun.frames.pop() {
        Some(Frame::InBracket(at)) => begun.goes(Focus::Inside(Expected::NilColon(at))),
        Some(other) => refuse_frame(other),
        None => Step::Stops(None),
    }
}

// `]` where an operand is wanted.
fn empty_list(begun: &mut Begun) -> Step
    ensures { Simulates None begun.new result (empty_list (open_in begun.old)) }
{
    match begun.frames.pop() {
        Some(Frame::InItem(_, before)) => {
            if no_items(before) {
                colon_wanted(begun)
            } else {
                Step::Stops(None)
            }
        }
        Some(other) => refuse_frame(other),
        None => Step::Stops(None),
    }
}

// A sign that isn't an operator, where an operand is wanted.
fn begin_mark(alloc: Global, begun: &mut Begun, symbol: Symbol, at: u32) -> Result<Step, AllocError>
    ensures { IfOk result (λ s. Simulates None begun.new s (begin (open_in begun.old) (mark symbol) at)) }
{
    match symbol {
        Symbol::LeftParen => opened(begun, Frame::InBracket(at)),
        Symbol::LeftBracket => opened(begun, Frame::InItem(at, Operands::empty(alloc))),
        Symbol::RightBracket => Ok(empty_list(begun)),
        Symbol::LeftBrace => {
            let fields = ReadFields::empty(alloc);
            Ok(begun.goes(Focus::Inside(Expected::FieldName(at, fields))))
        }
        _ => Ok(Step::Stops(None)),
    }
}

// A reserved word where an operand is wanted.
fn begin_word(begun: &mut Begun, keyword: Keyword, at: u32) -> Result<Step, AllocError>
    ensures { IfOk result (λ s. Simulates None begun.new s (begin (open_in begun.old) (word keyword) at)) }
{
    match keyword {
        Keyword::Let => Ok(if begun.frames.bound() > 9 {
            begun.goes(Focus::Inside(Expected::LetBinder(at)))
        } else {
            Step::Stops(None)
        }),
        Keyword::If => open_if(begun, 9, Frame::InTest(at)),
        Keyword::Match => open_if(begun, 9, Frame::InMatched(at)),
        Keyword::Not => open_if(begun, 1, Frame::InNot(at)),
        Keyword::Pown => open_if(begun, 1, Frame::InPown(at)),
        _ => Ok(Step::Stops(None)),
    }
}

// A sign between operands where an operand is wanted: `-` alone may stand there.
fn begin_operator(begun: &mut Begun, sign: Infix, at: u32) -> Result<Step, AllocError>
    ensures { IfOk result (λ s. Simulates None begun.new s (begin (open_in begun.old) (operator sign) at)) }
{
    match sign {
        Infix::Arith(Arith::Sub) => open_if(begun, 2, Frame::InNegate(at)),
        _ => Ok(Step::Stops(None)),
    }
}

/// One token at a place in the text where an operand is wanted: an operand is read, or a form begins. Fails only for
/// want of memory.
///
/// Source: the forms of the F# specification, chapter Expressions.
pub fn begin(alloc: Global, begun: &mut Begun, kind: ExprToken, at: u32) -> Result<Step, AllocError>
    ensures { IfOk result (λ s. Simulates None begun.new s (begin (open_in begun.old) kind at)) }
{
    match kind {
        ExprToken::Name(name) => {
            let operand = Operand::name(alloc, at, name)?;
            Ok(begun.goes(Focus::Read(operand)))
        }
        ExprToken::Number(value) => {
            let operand = Operand::number(alloc, at, value, None)?;
            Ok(begun.goes(Focus::Read(operand)))
        }
        ExprToken::Truth(value) => {
            let operand = Operand::truth(alloc, at, value)?;
            Ok(begun.goes(Focus::Read(operand)))
        }
        ExprToken::Mark(symbol) => begin_mark(alloc, begun, symbol, at),
        ExprToken::Word(keyword) => begin_word(begun, keyword, at),
        ExprToken::Operator(sign) => begin_operator(begun, sign, at),
        ExprToken::Variable(_) | ExprToken::Hole => Ok(Step::Stops(None)),
    }
}

/// One token after `>`, which stands at its place after its left operand. A `=` directly after it makes the sign `>=`.
/// Fails only for want of memory.
///
/// Source: the F# specification, chapter Expressions; that `>` and `=` may be one sign is this project's own rule.
pub fn after_greater(
    alloc: Global,
    begun: &mut Begun,
    place: u32,
    left: Operand,
    kind: ExprToken,
    token: &Token,
) -> Result<Step, AllocError>
    ensures { IfOk result (λ s. Simulates None begun.new s
        (after_greater (open_in begun.old) place (operand_expr left) kind token.now.start token.now.glued)) }
{
    match kind {
        ExprToken::Operator(Infix::Compare(Sign::Eq)) => {
            let sign = Infix::Compare(Sign::Ge);
            if token.glued {
                opened(begun, Frame::InRight(place, sign, left))
            } else {
                drop(left);
                Ok(Step::Stops(None))
            }
        }
        other => {
            let sign = Infix::Compare(Sign::Gt);
            begun.frames.push(Frame::InRight(place, sign, left))?;
            begin(alloc, begun, other, token.start)
        }
    }
}
