// Whether a token would go on, form by form. It isn't taken, and nothing changes.
ghost use Rattle.std.specs.Prelude.{◌≡◌, ◌∷◌, ℕ, List, None, is_some};
ghost use Rattle.um_tree.specs.RawTree.{ExprSyntax};
ghost use Rattle.um_operands.specs.Ranks.{left_limit};
ghost use Rattle.um_operands.specs.ExprBegun.{Frame as OpenFrame, Have, reduce, top_bound};
ghost use Rattle.um_operands.specs.ExprOperands.{operand_expr};
ghost use Rattle.um_operands.specs.ExprStack.{frames_of};
ghost use Rattle.um_operands.specs.ExprFrames.{view_frame};
ghost use Rattle.um_operands.specs.ExprFocus.{view_expected};
ghost use Rattle.um_operands.specs.Standing.{stands};
ghost use Rattle.um_unit_texts.specs.UnitTokens.{unit_token};
ghost use Rattle.um_unit_texts.specs.UnitMachine.{power_in};
ghost use Rattle.um_forms.specs.declared.token.ExprToken.TheVariants.{Name as name, Hole as hole};
ghost use Rattle.um_forms.specs.ExprTokens.{expr_token, keyword_token, symbol_token};
ghost use Rattle.um_forms.specs.ExprForms.{argument, begin, empty_list, infix_after, inside, less_after, greater_after};
ghost use Rattle.um_forms.specs.ExprForms.{mark_ends, word_ends};
ghost use Rattle.um_forms.specs.ExprSteps.{expects_digits, is_bracket, is_empty_item};

use crate::argument::in_call;
use um_operands::{Expected, Frame, Frames, Infix, Operand, bound_left, frames_left};
use um_syntax::{Keyword, Kind, Symbol};
use um_tree::Sign;
use um_unit_texts::written_power;

// ---- where an operand is wanted

// A reserved word where an operand is wanted whose rank lies below this bound.
fn can_begin_word(bound: u8, keyword: Keyword) -> bool
    ensures { (frames : List OpenFrame) (at : ℕ) → bound ≡ top_bound frames
        → result ≡ stands (begin frames (keyword_token keyword) at) }
{
    match keyword {
        Keyword::True | Keyword::False => true,
        Keyword::Let | Keyword::If | Keyword::Match => bound > 9,
        Keyword::Not | Keyword::Pown => bound > 1,
        _ => false,
    }
}

// A sign where an operand is wanted. `empty` says whether `]` may stand there.
fn can_begin_sign(bound: u8, empty: bool, symbol: Symbol) -> bool
    ensures { (frames : List OpenFrame) (at : ℕ) → bound ≡ top_bound frames → empty ≡ stands (empty_list frames)
        → result ≡ stands (begin frames (symbol_token symbol) at) }
{
    match symbol {
        Symbol::LeftParen | Symbol::LeftBracket | Symbol::LeftBrace => true,
        Symbol::RightBracket => empty,
        Symbol::Minus => bound > 2,
        _ => false,
    }
}

/// Whether a token of this kind goes on where an operand is wanted, inside frames with this bound; `empty` says whether
/// `]` may stand there.
pub fn can_begin(bound: u8, empty: bool, kind: &Kind) -> bool
    ensures { (frames : List OpenFrame) (at : ℕ) → bound ≡ top_bound frames → empty ≡ stands (empty_list frames)
        → result ≡ stands (begin frames (expr_token kind.now) at) }
{
    match kind {
        Kind::Name(_) | Kind::Number { .. } => true,
        Kind::Word(keyword) => can_begin_word(bound, *keyword),
        Kind::Sign(symbol) => can_begin_sign(bound, empty, *symbol),
        Kind::Var(_) | Kind::Hole => false,
    }
}

fn is_empty_item(frame: &Frame) -> bool
    ensures { result ≡ is_empty_item (view_frame frame.now) }
{
    match frame {
        Frame::InItem(_, before) => before.items.is_empty(),
        _ => false,
    }
}

fn is_bracket(frame: &Frame) -> bool
    ensures { result ≡ is_bracket (view_frame frame.now) }
{
    match frame {
        Frame::InBracket(_) => true,
        _ => false,
    }
}

/// Whether `]` may stand where an operand is wanted: only after `(` `[`.
pub fn can_close_empty(frames: &Frames) -> bool
    ensures { result ≡ stands (empty_list (frames_of frames.now)) }
{
    let count = frames.entries.len();
    count >= 2
        && is_empty_item(&frames.entries[count - 1].frame)
        && is_bracket(&frames.entries[count - 2].frame)
}

// ---- after an operand

/// Whether an atom may follow an operand: it is an argument.
pub fn can_argue(frames: &Frames, operand: &Operand) -> bool
    ensures { result ≡ is_some (argument (frames_of frames.now) (operand_expr operand.now)) }
{
    in_call(frames) || (operand.is_name() && frames.bound() > 1)
}

// Whether a sign ends this frame, whose last operand is whole, or goes on with it.
fn ends_by_mark(frame: &Frame, symbol: Symbol) -> bool
    ensures { (frames : List OpenFrame) (t : ExprSyntax)
        → result ≡ stands (mark_ends symbol (Have (view_frame frame.now ∷ frames) t)) }
{
    match frame {
        Frame::InBracket(_) => matches!(symbol, Symbol::RightParen),
        Frame::InItem(_, _) => matches!(symbol, Symbol::RightBracket | Symbol::Semicolon),
        Frame::InField(_, _, _, _) => matches!(symbol, Symbol::RightBrace | Symbol::Semicolon),
        Frame::InEmptyArm(_, _) => matches!(symbol, Symbol::Bar),
        _ => false,
    }
}

/// Whether a sign after an operand ends the innermost frame that a token ends, or goes on with it.
pub fn can_end_by_mark(frames: &Frames, symbol: Symbol) -> bool
    ensures { (t : ExprSyntax) → result ≡ stands (mark_ends symbol (reduce 9 (frames_of frames.now) t)) }
{
    let left = frames_left(frames, 9);
    left > 0 && ends_by_mark(&frames.entries[left - 1].frame, symbol)
}

// Whether a reserved word goes on with this frame, whose last operand is whole.
fn ends_by_word(frame: &Frame, keyword: Keyword) -> bool
    ensures { (frames : List OpenFrame) (t : ExprSyntax)
        → result ≡ stands (word_ends keyword (Have (view_frame frame.now ∷ frames) t)) }
{
    match frame {
        Frame::InValue(_, _) => matches!(keyword, Keyword::In),
        Frame::InTest(_) => matches!(keyword, Keyword::Then),
        Frame::InThen(_, _) => matches!(keyword, Keyword::Else),
        Frame::InMatched(_) => matches!(keyword, Keyword::With),
        _ => false,
    }
}

/// Whether a reserved word after an operand goes on with the innermost frame that a token ends.
pub fn can_end_by_word(frames: &Frames, keyword: Keyword) -> bool
    ensures { (t : ExprSyntax) → result ≡ stands (word_ends keyword (reduce 9 (frames_of frames.now) t)) }
{
    let left = frames_left(frames, 9);
    left > 0 && ends_by_word(&frames.entries[left - 1].frame, keyword)
}

/// Whether an operator may stand after an operand.
pub fn can_stand_between(frames: &Frames, sign: Infix) -> bool
    ensures { (at : ℕ) (t : ExprSyntax)
        → result ≡ stands (infix_after sign at (reduce (left_limit sign) (frames_of frames.now) t)) }
{
    sign.rank() < bound_left(frames, sign.left_limit())
}

/// Whether `>` may stand after an operand.
pub fn can_be_greater(frames: &Frames) -> bool
    ensures { (at : ℕ) (t : ExprSyntax) → result ≡ stands (greater_after at (reduce 5 (frames_of frames.now) t)) }
{
    bound_left(frames, 5) > 6
}

/// Whether `<` may stand after an operand.
pub fn can_be_less(frames: &Frames, operand: &Operand, glued: bool) -> bool
    ensures { (at : ℕ) → result ≡ stands (less_after (frames_of frames.now) (operand_expr operand.now) glued at) }
{
    (glued && operand.is_plain_number()) || can_stand_between(frames, Infix::Compare(Sign::Lt))
}

// ---- inside a fixed run of tokens

// Whether this sign is expected.
fn is_expected_sign(wanted: &Expected, symbol: Symbol) -> bool
    ensures { (frames : List OpenFrame) (at : ℕ) → result
        ≡ stands (inside frames (view_expected wanted.now) (symbol_token symbol) at None) }
{
    match wanted {
        Expected::LetEqual(_, _) | Expected::FieldEqual(_, _, _, _) => {
            matches!(symbol, Symbol::Equal)
        }
        Expected::ArmBegin(_, _) => matches!(symbol, Symbol::Bar | Symbol::LeftBracket),
        Expected::ArmOpen(_, _) => matches!(symbol, Symbol::LeftBracket),
        Expected::ArmClose(_, _) => matches!(symbol, Symbol::RightBracket),
        Expected::ArmArrow(_, _) | Expected::TailArrow(_, _, _) => matches!(symbol, Symbol::Arrow),
        Expected::HeadCons(_, _) => matches!(symbol, Symbol::ColonColon),
        Expected::NilColon(_) => matches!(symbol, Symbol::Colon),
        Expected::PownMinus(_, _) => matches!(symbol, Symbol::Minus),
        Expected::PownClose(_, _, _) => matches!(symbol, Symbol::RightParen),
        Expected::LetBinder(_)
        | Expected::HeadBinder(_)
        | Expected::TailBinder(_, _)
        | Expected::FieldName(_, _)
        | Expected::DotName(_, _)
        | Expected::PownDigits(_, _) => false,
    }
}

// Whether a binder is expected: a name or `_`.
fn expects_binder(wanted: &Expected) -> bool
    ensures { (frames : List OpenFrame) (at : ℕ) → result
        ≡ stands (inside frames (view_expected wanted.now) hole at None) }
{
    match wanted {
        Expected::LetBinder(_) | Expected::HeadBinder(_) | Expected::TailBinder(_, _) => true,
        _ => false,
    }
}

// Whether a name is expected.
fn expects_name(wanted: &Expected) -> bool
    ensures { (frames : List OpenFrame) (x : List ℕ) (at : ℕ) → result
        ≡ stands (inside frames (view_expected wanted.now) (name x) at None) }
{
    match wanted {
        Expected::FieldName(_, _) | Expected::DotName(_, _) => true,
        Expected::LetBinder(_) | Expected::HeadBinder(_) | Expected::TailBinder(_, _) => true,
        _ => false,
    }
}

// Whether the digits of a power of `pown` are expected, in brackets after its sign.
fn expects_digits(wanted: &Expected) -> bool
    ensures { result ≡ expects_digits (view_expected wanted.now) }
{
    match wanted {
        Expected::PownDigits(_, _) => true,
        _ => false,
    }
}

/// Whether a token of this kind is the one that is expected.
pub fn is_expected(wanted: &Expected, kind: &Kind) -> bool
    ensures { (frames : List OpenFrame) (at : ℕ) → result
        ≡ stands (inside frames (view_expected wanted.now) (expr_token kind.now) at (power_in (unit_token kind.now))) }
{
    match kind {
        Kind::Name(_) => expects_name(wanted),
        Kind::Hole => expects_binder(wanted),
        Kind::Number { .. } => expects_digits(wanted) && written_power(kind).is_some(),
        Kind::Sign(symbol) => is_expected_sign(wanted, *symbol),
        Kind::Var(_) | Kind::Word(_) => false,
    }
}
