// One token more, whatever is in focus.
ghost use Rattle.std.specs.Prelude.{◌≡◌, ◌≤◌, IfOk, IfSome, None, Some, cond, option_map};
ghost use Rattle.um_syntax.specs.Emptied.{emptied};
ghost use Rattle.um_tree.specs.RawTree.{number_syntax, note_syntax, type_syntax};
ghost use Rattle.um_types.specs.TypeHeights.{note_height, whole_height};
ghost use Rattle.um_unit_texts.specs.UnitStops.{greatest_height};
ghost use Rattle.um_operands.specs.declared.focus.Step.TheVariants.{Stops};
ghost use Rattle.um_operands.specs.ExprKinds.{is_power};
ghost use Rattle.um_operands.specs.ExprBegun.{Inside, DotName, Refused, finish};
ghost use Rattle.um_operands.specs.ExprOperands.{operand_expr};
ghost use Rattle.um_operands.specs.ExprFocus.{open_in, begun_state};
ghost use Rattle.um_forms.specs.ExprForms.{power_of};
ghost use Rattle.um_forms.specs.ExprSteps.{Simulates, SimulatesAfter};
ghost use Rattle.um_expr.specs.ExprMachine.{mark_after, after, power_after, note_ends, type_ends, act, step};

use std::alloc::{AllocError, Global};
use std::mem;
use um_forms::{
    ExprToken, after_greater, after_operator, begin, begin_argument, bracket_after, end_by_mark,
    end_by_word, inside, number_after, refuse_token,
};
use um_frac::Frac;
use um_operands::{Begun, Expected, Focus, Infix, Operand, Step, whole};
use um_syntax::{Symbol, Token};
use um_tree::{RawNote, RawType, Sign};

// `.`, which can't follow a whole power
fn field_after(
    alloc: Global,
    begun: &mut Begun,
    operand: Operand,
    at: u32,
) -> Result<Step, AllocError>
    ensures { IfOk result
        (λ s. SimulatesAfter begun.old operand begun.new s
        (cond (is_power (operand_expr operand)) Refused
        (Inside (open_in begun.old) (DotName at (operand_expr operand))))) }
{
    if operand.is_power() {
        Ok(Step::Stops(whole(alloc, &mut begun.frames, operand)?))
    } else {
        Ok(begun.goes(Focus::Inside(Expected::DotName(at, operand))))
    }
}

// A sign after an operand that isn't an operator.
fn after_mark(
    alloc: Global,
    begun: &mut Begun,
    operand: Operand,
    symbol: Symbol,
    at: u32,
) -> Result<Step, AllocError>
    ensures { IfOk result
        (λ s. SimulatesAfter begun.old operand begun.new s
        (mark_after (open_in begun.old) (operand_expr operand) symbol at)) }
{
    match symbol {
        Symbol::LeftParen => bracket_after(alloc, begun, operand, at),
        Symbol::LeftBracket | Symbol::LeftBrace => {
            begin_argument(alloc, begun, operand, ExprToken::Mark(symbol), at)
        }
        Symbol::Dot => field_after(alloc, begun, operand, at),
        _ => end_by_mark(alloc, begun, operand, symbol),
    }
}

// One token after an operand.
fn after(
    alloc: Global,
    begun: &mut Begun,
    operand: Operand,
    kind: ExprToken,
    token: &Token,
) -> Result<Step, AllocError>
    ensures { IfOk result
        (λ s. SimulatesAfter begun.old operand begun.new s
        (after (open_in begun.old) (operand_expr operand) kind token.now.start token.now.glued (power_of token.now))) }
{
    let at = token.start;
    match kind {
        ExprToken::Name(name) => begin_argument(alloc, begun, operand, ExprToken::Name(name), at),
        ExprToken::Number(value) => number_after(alloc, begun, operand, value, token),
        ExprToken::Truth(value) => {
            begin_argument(alloc, begun, operand, ExprToken::Truth(value), at)
        }
        ExprToken::Mark(symbol) => after_mark(alloc, begun, operand, symbol, at),
        ExprToken::Word(keyword) => end_by_word(alloc, begun, operand, keyword),
        ExprToken::Operator(sign) => after_operator(alloc, begun, operand, sign, at, token.glued),
        ExprToken::Variable(_) | ExprToken::Hole => Ok(Step::Stops(whole(
            alloc,
            &mut begun.frames,
            operand,
        )?)),
    }
}

// One token after a whole power whose number is the last token: a `<` directly after it would open a unit.
fn power_after(
    alloc: Global,
    begun: &mut Begun,
    operand: Operand,
    kind: ExprToken,
    token: &Token,
) -> Result<Step, AllocError>
    ensures { IfOk result
        (λ s. SimulatesAfter begun.old operand begun.new s
        (power_after (open_in begun.old) (operand_expr operand) kind token.now.start token.now.glued
        (power_of token.now))) }
{
    match kind {
        ExprToken::Operator(Infix::Compare(Sign::Lt)) => {
            if token.glued {
                Ok(Step::Stops(whole(alloc, &mut begun.frames, operand)?))
            } else {
                let less = Infix::Compare(Sign::Lt);
                after_operator(alloc, begun, operand, less, token.start, false)
            }
        }
        other => after(alloc, begun, operand, other, token),
    }
}

// A token that can't stand after this note: it isn't `>`.
fn refuse_note(kind: ExprToken, note: RawNote) -> Step
    ensures { result ≡ Stops None }
{
    drop(note);
    refuse_token(kind)
}

// A token that can't stand after this type: it isn't `)`.
fn refuse_type(kind: ExprToken, ty: RawType) -> Step
    ensures { result ≡ Stops None }
{
    drop(ty);
    refuse_token(kind)
}

// The number with its note, in its own box if it stands in focus.
fn noted(
    alloc: Global,
    focus: &mut Focus,
    at: u32,
    value: Frac,
    note: RawNote,
) -> Result<Operand, AllocError>
    requires { note_height (note_syntax note) ≤ greatest_height }
    ensures { IfOk result (λ p. operand_expr p ≡ number_syntax at value (Some (note_syntax note))) }
{
    match mem::replace(focus, Focus::Wanted) {
        Focus::Read(operand) => {
            let Operand { tree, .. } = operand;
            Ok(Operand::noted(tree, at, value, note))
        }
        other => {
            other.discard();
            Operand::number(alloc, at, value, Some(note))
        }
    }
}

// The token after the note of a number.
fn note_end(
    alloc: Global,
    begun: &mut Begun,
    at: u32,
    value: Frac,
    note: RawNote,
    kind: ExprToken,
) -> Result<Step, AllocError>
    requires { note_height (note_syntax note) ≤ greatest_height }
    ensures { IfOk result
        (λ s. Simulates None begun.new s (note_ends (open_in begun.old) at value (Some (note_syntax note)) kind)) }
{
    match kind {
        ExprToken::Operator(Infix::Compare(Sign::Gt)) => {
            let number = noted(alloc, &mut begun.focus, at, value, note)?;
            Ok(begun.goes(Focus::Read(number)))
        }
        other => Ok(refuse_note(other, note)),
    }
}

// The token after the type of an empty list.
fn type_end(
    alloc: Global,
    begun: &mut Begun,
    at: u32,
    ty: RawType,
    kind: ExprToken,
) -> Result<Step, AllocError>
    requires { whole_height (type_syntax ty) ≤ greatest_height }
    ensures { IfOk result
        (λ s. Simulates None begun.new s (type_ends (open_in begun.old) at (Some (type_syntax ty)) kind)) }
{
    match kind {
        ExprToken::Mark(Symbol::RightParen) => {
            let empty = Operand::nil(alloc, at, ty)?;
            Ok(begun.goes(Focus::Read(empty)))
        }
        other => Ok(refuse_type(other, ty)),
    }
}

/// The token that the note of a number has refused, if `note` is what was read of it.
pub fn note_ends(
    alloc: Global,
    begun: &mut Begun,
    at: u32,
    value: Frac,
    note: Option<RawNote>,
    kind: ExprToken,
) -> Result<Step, AllocError>
    requires { IfSome note (λ n. note_height (note_syntax n) ≤ greatest_height) }
    ensures { IfOk result
        (λ s. Simulates None begun.new s (note_ends (open_in begun.old) at value (option_map note_syntax note) kind)) }
{
    match note {
        Some(note) => note_end(alloc, begun, at, value, note, kind),
        None => Ok(refuse_token(kind)),
    }
}

/// The token that the type of an empty list has refused, if `ty` is what was read of it.
pub fn type_ends(
    alloc: Global,
    begun: &mut Begun,
    at: u32,
    ty: Option<RawType>,
    kind: ExprToken,
) -> Result<Step, AllocError>
    requires { IfSome ty (λ t. whole_height (type_syntax t) ≤ greatest_height) }
    ensures { IfOk result
        (λ s. Simulates None begun.new s (type_ends (open_in begun.old) at (option_map type_syntax ty) kind)) }
{
    match ty {
        Some(ty) => type_end(alloc, begun, at, ty, kind),
        None => Ok(refuse_token(kind)),
    }
}

// One token more, for which what is in focus is moved out.
fn act_moved(
    alloc: Global,
    begun: &mut Begun,
    kind: ExprToken,
    token: &Token,
) -> Result<Step, AllocError>
    ensures { IfOk result
        (λ s. Simulates (finish (begun_state begun.old)) begun.new s
        (act (begun_state begun.old) kind token.now.start token.now.glued token.now.kind)) }
{
    match mem::replace(&mut begun.focus, Focus::Wanted) {
        Focus::Wanted => begin(alloc, begun, kind, token.start),
        Focus::Read(operand) => after(alloc, begun, operand, kind, token),
        Focus::Power(operand) => power_after(alloc, begun, operand, kind, token),
        Focus::Greater(at, left) => after_greater(alloc, begun, at, left, kind, token),
        Focus::Inside(place) => inside(alloc, begun, place, kind, token),
    }
}

// One token more, and what it is to expressions. If an operand is wanted, nothing is moved.
fn act(alloc: Global, begun: &mut Begun, kind: ExprToken, token: &Token) -> Result<Step, AllocError>
    ensures { IfOk result
        (λ s. Simulates (finish (begun_state begun.old)) begun.new s
        (act (begun_state begun.old) kind token.now.start token.now.glued token.now.kind)) }
{
    match &begun.focus {
        Focus::Wanted => begin(alloc, begun, kind, token.start),
        Focus::Read(_) | Focus::Power(_) | Focus::Greater(_, _) | Focus::Inside(_) => act_moved(
            alloc, begun, kind, token,
        ),
    }
}

/// One token more, from which the letters of a name are taken.
pub fn step(alloc: Global, begun: &mut Begun, token: &mut Token) -> Result<Step, AllocError>
    ensures state { IfOk result
        (λ s. Simulates (finish (begun_state begun.old)) begun.new s (step (begun_state begun.old) token.old)) }
    ensures rest { token.new ≡ emptied token.old }
{
    let kind = ExprToken::of_kind(alloc, &mut token.kind);
    act(alloc, begun, kind, token)
}
