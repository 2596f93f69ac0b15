// Whether an expression would go on with a token. It isn't taken, and nothing changes.
ghost use Rattle.std.specs.Prelude.{◌≡◌, ℕ, Bool, List, None, Some, is_some};
ghost use Rattle.um_frac.specs.declared.number.Frac.{Frac};
ghost use Rattle.um_unit_texts.specs.UnitTokens.{unit_token};
ghost use Rattle.um_unit_texts.specs.UnitMachine.{power_in};
ghost use Rattle.um_tree.specs.RawTree.{ExprSyntax, NoteSyntax, TypeSyntax};
ghost use Rattle.um_types.specs.NoteMachine.{note_act, note_finish};
ghost use Rattle.um_types.specs.NoteView.{note_state};
ghost use Rattle.um_types.specs.TypeMachine.{type_act, type_finish};
ghost use Rattle.um_types.specs.TypeView.{type_state};
ghost use Rattle.um_operands.specs.ExprBegun.{Frame, finish, reduce, whole};
ghost use Rattle.um_operands.specs.ExprOperands.{operand_expr};
ghost use Rattle.um_operands.specs.ExprStack.{frames_of};
ghost use Rattle.um_operands.specs.ExprFocus.{begun_state};
ghost use Rattle.um_operands.specs.Standing.{stands};
ghost use Rattle.um_forms.specs.ExprForms.{after_greater, number_after};
ghost use Rattle.um_forms.specs.ExprTokens.{expr_token, keyword_token, symbol_token};
ghost use Rattle.um_expr.specs.ExprMachine.{act, after, mark_after, note_ends, note_goes, power_after};
ghost use Rattle.um_expr.specs.ExprMachine.{type_ends, type_goes};
ghost use Rattle.um_expr.specs.Standing.{is_equal, is_glued_less};

use um_forms::{
    can_argue, can_be_greater, can_be_less, can_begin, can_close_empty, can_end_by_mark,
    can_end_by_word, can_stand_between, in_pown, is_expected, plain_operator, plain_word,
};
use um_operands::{Begun, Focus, Frames, Operand, frames_left};
use um_syntax::{Keyword, Kind, Symbol};
use um_types::{NoteReader, TypeReader};
use um_unit_texts::written_power;

// A sign that isn't an operator, after an operand.
fn can_follow_mark(frames: &Frames, operand: &Operand, symbol: Symbol) -> bool
    ensures { (at : ℕ) → result ≡ stands (mark_after (frames_of frames.now) (operand_expr operand.now) symbol at) }
{
    match symbol {
        Symbol::LeftParen => in_pown(frames) || can_argue(frames, operand),
        Symbol::LeftBracket => can_argue(frames, operand),
        Symbol::LeftBrace => can_argue(frames, operand),
        Symbol::Dot => !operand.is_power(),
        _ => can_end_by_mark(frames, symbol),
    }
}

// A sign after an operand.
fn can_follow_sign(frames: &Frames, operand: &Operand, symbol: Symbol, glued: bool) -> bool
    ensures { (at : ℕ) → result
        ≡ stands (after (frames_of frames.now) (operand_expr operand.now) (symbol_token symbol) at glued None) }
{
    match symbol {
        Symbol::Less => can_be_less(frames, operand, glued),
        Symbol::Greater => can_be_greater(frames),
        _ => match plain_operator(symbol) {
            Some(sign) => can_stand_between(frames, sign),
            None => can_follow_mark(frames, operand, symbol),
        },
    }
}

// A number after an operand: the power of `pown`, or an argument.
fn can_follow_number(frames: &Frames, operand: &Operand, kind: &Kind) -> bool
    ensures { (c : Frac) (at : ℕ) → result ≡ stands (number_after (frames_of frames.now) (operand_expr operand.now) c at
        (power_in (unit_token kind.now))) }
{
    if in_pown(frames) {
        written_power(kind).is_some()
    } else {
        can_argue(frames, operand)
    }
}

// A reserved word after an operand.
fn can_follow_word(frames: &Frames, operand: &Operand, keyword: Keyword) -> bool
    ensures { (at : ℕ) (glued : Bool) → result
        ≡ stands (after (frames_of frames.now) (operand_expr operand.now) (keyword_token keyword) at glued None) }
{
    match plain_word(keyword) {
        Some(word) => can_end_by_word(frames, word),
        None => can_argue(frames, operand),
    }
}

// A token after an operand.
fn can_follow(frames: &Frames, operand: &Operand, kind: &Kind, glued: bool) -> bool
    ensures { (at : ℕ) → result ≡ stands (after (frames_of frames.now) (operand_expr operand.now) (expr_token kind.now)
        at glued (power_in (unit_token kind.now))) }
{
    match kind {
        Kind::Name(_) => can_argue(frames, operand),
        Kind::Number { .. } => can_follow_number(frames, operand, kind),
        Kind::Word(keyword) => can_follow_word(frames, operand, *keyword),
        Kind::Sign(symbol) => can_follow_sign(frames, operand, *symbol, glued),
        Kind::Var(_) | Kind::Hole => false,
    }
}

// Whether it is `<` directly after what stands before it.
fn is_glued_less(kind: &Kind, glued: bool) -> bool
    ensures { result ≡ is_glued_less kind.now glued }
{
    match kind {
        Kind::Sign(Symbol::Less) => glued,
        _ => false,
    }
}

// A token after a whole power whose number is the last token.
fn can_follow_power(frames: &Frames, operand: &Operand, kind: &Kind, glued: bool) -> bool
    ensures { (at : ℕ) → result ≡ stands (power_after (frames_of frames.now) (operand_expr operand.now)
        (expr_token kind.now) at glued (power_in (unit_token kind.now))) }
{
    if is_glued_less(kind, glued) {
        false
    } else {
        can_follow(frames, operand, kind, glued)
    }
}

fn is_equal(kind: &Kind) -> bool
    ensures { result ≡ is_equal kind.now }
{
    matches!(kind, Kind::Sign(Symbol::Equal))
}

// A token after `>`.
fn can_follow_greater(kind: &Kind, glued: bool) -> bool
    ensures { (frames : List Frame) (place : ℕ) (left : ExprSyntax) (at : ℕ) → result
        ≡ stands (after_greater frames place left (expr_token kind.now) at glued) }
{
    if is_equal(kind) {
        glued
    } else {
        can_begin(6, false, kind)
    }
}

// Whether the token ends the note of a number.
fn ends_note(kind: &Kind) -> bool
    ensures { (frames : List Frame) (at : ℕ) (value : Frac) (note : NoteSyntax) → result
        ≡ stands (note_ends frames at value (Some note) (expr_token kind.now)) }
{
    matches!(kind, Kind::Sign(Symbol::Greater))
}

/// Whether a token of this kind goes on with the note of a number, or ends it.
pub fn can_take_in_note(note: &NoteReader, kind: &Kind) -> bool
    ensures { (frames : List Frame) (place : ℕ) (value : Frac) (at : ℕ) → result
        ≡ stands (note_goes frames place value (note_act (note_state note.now) kind.now at)
        (note_ends frames place value (note_finish (note_state note.now)) (expr_token kind.now))) }
{
    note.can_take(kind) || (note.is_whole() && ends_note(kind))
}

// Whether the token ends the type of an empty list.
fn ends_type(kind: &Kind) -> bool
    ensures { (frames : List Frame) (at : ℕ) (t : TypeSyntax) → result
        ≡ stands (type_ends frames at (Some t) (expr_token kind.now)) }
{
    matches!(kind, Kind::Sign(Symbol::RightParen))
}

/// Whether a token of this kind goes on with the type of an empty list, or ends it.
pub fn can_take_in_type(ty: &TypeReader, kind: &Kind) -> bool
    ensures { (frames : List Frame) (place at : ℕ) → result
        ≡ stands (type_goes frames place (type_act (type_state ty.now) kind.now at)
        (type_ends frames place (type_finish (type_state ty.now)) (expr_token kind.now))) }
{
    ty.can_take(kind) || (ty.is_whole() && ends_type(kind))
}

/// Whether a token of this kind goes on, if no note and no type has begun.
pub fn can_take(begun: &Begun, kind: &Kind, glued: bool) -> bool
    ensures { (at : ℕ) → result ≡ stands (act (begun_state begun.now) (expr_token kind.now) at glued kind.now) }
{
    match &begun.focus {
        Focus::Wanted => can_begin(begun.frames.bound(), can_close_empty(&begun.frames), kind),
        Focus::Read(operand) => can_follow(&begun.frames, operand, kind, glued),
        Focus::Power(operand) => can_follow_power(&begun.frames, operand, kind, glued),
        Focus::Greater(_, _) => can_follow_greater(kind, glued),
        Focus::Inside(wanted) => is_expected(wanted, kind),
    }
}

// Whether no frame is open that only a token ends.
fn none_is_left(frames: &Frames) -> bool
    ensures { (t : ExprSyntax) → result ≡ is_some (whole (reduce 9 (frames_of frames.now) t)) }
{
    frames_left(frames, 9) == 0
}

/// Whether what was read is an expression, if no note and no type has begun.
pub fn is_whole(begun: &Begun) -> bool
    ensures { result ≡ is_some (finish (begun_state begun.now)) }
{
    match &begun.focus {
        Focus::Read(_) | Focus::Power(_) => none_is_left(&begun.frames),
        Focus::Wanted | Focus::Greater(_, _) | Focus::Inside(_) => false,
    }
}
