// One token inside a fixed run of tokens.
ghost use Rattle.std.specs.Prelude.{◌≡◌, ℕ, Option, IfOk, None};
ghost use Rattle.um_tree.specs.RawTree.{binder_syntax, pown_syntax};
ghost use Rattle.um_operands.specs.declared.focus.Focus.TheVariants.{Inside as Within};
ghost use Rattle.um_operands.specs.declared.focus.Step.TheVariants.{Goes, Stops};
ghost use Rattle.um_operands.specs.declared.focus.Expected.TheVariants as expected;
ghost use Rattle.um_operands.specs.ExprBegun.{Have, Inside, HeadCons, TailArrow};
ghost use Rattle.um_operands.specs.ExprOperands.{operand_expr};
ghost use Rattle.um_operands.specs.ExprFocus.{open_in, view_expected};
ghost use Rattle.um_forms.specs.ExprForms.{inside, power_of};
ghost use Rattle.um_forms.specs.ExprSteps.{Simulates};

use crate::token::ExprToken;
use crate::wanted::{opened, refuse_token};
use std::alloc::{AllocError, Global};
use um_operands::{Begun, Expected, Focus, Frame, Infix, Matching, Operand, ReadFields, Step};
use um_syntax::{Symbol, Token};
use um_tree::{Arith, Binder, Name, Sign};
use um_unit_texts::written_power;

// A token that can't stand after this operand. A value that holds a tree is dropped by a call: otherwise its drop would
// be written out, and proved, in each caller.
fn refuse_after(kind: ExprToken, operand: Operand) -> Step
    ensures { result ≡ Stops None }
{
    drop(operand);
    refuse_token(kind)
}

// The same after these fields.
fn refuse_after_fields(kind: ExprToken, before: ReadFields) -> Step
    ensures { result ≡ Stops None }
{
    drop(before);
    refuse_token(kind)
}

// The same after a `match` with its empty arm.
fn refuse_after_arm(kind: ExprToken, matching: Matching) -> Step
    ensures { result ≡ Stops None }
{
    drop(matching);
    refuse_token(kind)
}

// After `let`
fn let_binder(begun: &mut Begun, at: u32, kind: ExprToken, token: &Token) -> Step
    ensures { Simulates None begun.new result
        (inside (open_in begun.old) (view_expected (expected.LetBinder at)) kind token.now.start (power_of token.now)) }
{
    match kind {
        ExprToken::Name(name) => {
            let x = Binder {
                at: token.start,
                name: Some(name),
            };
            begun.goes(Focus::Inside(Expected::LetEqual(at, x)))
        }
        ExprToken::Hole => {
            let x = Binder {
                at: token.start,
                name: None,
            };
            begun.goes(Focus::Inside(Expected::LetEqual(at, x)))
        }
        other => refuse_token(other),
    }
}

// After `let` and its binder
fn let_equal(begun: &mut Begun, at: u32, x: Binder, kind: ExprToken) -> Result<Step, AllocError>
    ensures { (p : ℕ) (power : Option ℕ) → IfOk result (λ s. Simulates None begun.new s
        (inside (open_in begun.old) (view_expected (expected.LetEqual at x)) kind p power)) }
{
    match kind {
        ExprToken::Operator(Infix::Compare(Sign::Eq)) => opened(begun, Frame::InValue(at, x)),
        other => Ok(refuse_token(other)),
    }
}

// After `{` or `;` and these fields
fn field_name(
    begun: &mut Begun,
    at: u32,
    before: ReadFields,
    kind: ExprToken,
    token: &Token,
) -> Step
    ensures { Simulates None begun.new result
        (inside (open_in begun.old) (view_expected (expected.FieldName at before)) kind token.now.start
        (power_of token.now)) }
{
    match kind {
        ExprToken::Name(name) => begun.goes(Focus::Inside(Expected::FieldEqual(
            at,
            before,
            token.start,
            name,
        ))),
        other => refuse_after_fields(other, before),
    }
}

// After a field's name, at its place
fn field_equal(
    begun: &mut Begun,
    at: u32,
    before: ReadFields,
    place: u32,
    name: Name,
    kind: ExprToken,
) -> Result<Step, AllocError>
    ensures { (p : ℕ) (power : Option ℕ) → IfOk result (λ s. Simulates None begun.new s
        (inside (open_in begun.old) (view_expected (expected.FieldEqual at before place name)) kind p power)) }
{
    match kind {
        ExprToken::Operator(Infix::Compare(Sign::Eq)) => {
            opened(begun, Frame::InField(at, before, place, name))
        }
        other => Ok(refuse_after_fields(other, before)),
    }
}

// After `.`
fn dot_name(
    alloc: Global,
    begun: &mut Begun,
    at: u32,
    operand: Operand,
    kind: ExprToken,
    token: &Token,
) -> Result<Step, AllocError>
    ensures { IfOk result (λ s. Simulates None begun.new s
        (inside (open_in begun.old) (view_expected (expected.DotName at operand)) kind token.now.start
        (power_of token.now))) }
{
    match kind {
        ExprToken::Name(name) => {
            let field = operand.field(alloc, at, token.start, name)?;
            Ok(begun.goes(Focus::Read(field)))
        }
        other => Ok(refuse_after(other, operand)),
    }
}

// After `with`
fn arm_begin(begun: &mut Begun, at: u32, list: Operand, kind: ExprToken) -> Step
    ensures { (p : ℕ) (power : Option ℕ) → Simulates None begun.new result
        (inside (open_in begun.old) (view_expected (expected.ArmBegin at list)) kind p power) }
{
    match kind {
        ExprToken::Mark(Symbol::Bar) => begun.goes(Focus::Inside(Expected::ArmOpen(at, list))),
        ExprToken::Mark(Symbol::LeftBracket) => {
            begun.goes(Focus::Inside(Expected::ArmClose(at, list)))
        }
        other => refuse_after(other, list),
    }
}

// After the bar of the empty arm
fn arm_open(begun: &mut Begun, at: u32, list: Operand, kind: ExprToken) -> Step
    ensures { (p : ℕ) (power : Option ℕ) → Simulates None begun.new result
        (inside (open_in begun.old) (view_expected (expected.ArmOpen at list)) kind p power) }
{
    match kind {
        ExprToken::Mark(Symbol::LeftBracket) => {
            begun.goes(Focus::Inside(Expected::ArmClose(at, list)))
        }
        other => refuse_after(other, list),
    }
}

// After `[` of the empty arm
fn arm_close(begun: &mut Begun, at: u32, list: Operand, kind: ExprToken) -> Step
    ensures { (p : ℕ) (power : Option ℕ) → Simulates None begun.new result
        (inside (open_in begun.old) (view_expected (expected.ArmClose at list)) kind p power) }
{
    match kind {
        ExprToken::Mark(Symbol::RightBracket) => {
            begun.goes(Focus::Inside(Expected::ArmArrow(at, list)))
        }
        other => refuse_after(other, list),
    }
}

// After `]` of the empty arm
fn arm_arrow(begun: &mut Begun, at: u32, list: Operand, kind: ExprToken) -> Result<Step, AllocError>
    ensures { (p : ℕ) (power : Option ℕ) → IfOk result (λ s. Simulates None begun.new s
        (inside (open_in begun.old) (view_expected (expected.ArmArrow at list)) kind p power)) }
{
    match kind {
        ExprToken::Mark(Symbol::Arrow) => opened(begun, Frame::InEmptyArm(at, list)),
        other => Ok(refuse_after(other, list)),
    }
}

// The binder in a box.
fn in_box(alloc: Global, x: Binder) -> Result<Box<Binder>, AllocError>
    ensures { IfOk result (λ b. b.value ≡ x) }
{
    Ok(Box::new(alloc, x)?)
}

// The head of the full arm was read.
fn head_read(
    alloc: Global,
    begun: &mut Begun,
    matching: Matching,
    head: Binder,
) -> Result<Step, AllocError>
    ensures { IfOk result (λ s. Simulates None begun.new s (Inside (open_in begun.old)
        (HeadCons matching.at (operand_expr matching.list) (operand_expr matching.empty) (binder_syntax head)))) }
{
    match in_box(alloc, head) {
        Ok(head) => Ok(begun.goes(Focus::Inside(Expected::HeadCons(matching, head)))),
        Err(error) => {
            drop(matching);
            Err(error)
        }
    }
}

// After the bar of the full arm
fn head_binder(
    alloc: Global,
    begun: &mut Begun,
    matching: Matching,
    kind: ExprToken,
    token: &Token,
) -> Result<Step, AllocError>
    ensures { IfOk result (λ s. Simulates None begun.new s
        (inside (open_in begun.old) (view_expected (expected.HeadBinder matching)) kind token.now.start
        (power_of token.now))) }
{
    match kind {
        ExprToken::Name(name) => {
            let head = Binder {
                at: token.start,
                name: Some(name),
            };
            head_read(alloc, begun, matching, head)
        }
        ExprToken::Hole => {
            let head = Binder {
                at: token.start,
                name: None,
            };
            head_read(alloc, begun, matching, head)
        }
        other => Ok(refuse_after_arm(other, matching)),
    }
}

// After the head
fn head_cons(begun: &mut Begun, matching: Matching, head: Box<Binder>, kind: ExprToken) -> Step
    ensures { (p : ℕ) (power : Option ℕ) → Simulates None begun.new result
        (inside (open_in begun.old) (view_expected (expected.HeadCons matching head)) kind p power) }
{
    match kind {
        ExprToken::Operator(Infix::Cons) => {
            begun.goes(Focus::Inside(Expected::TailBinder(matching, head)))
        }
        other => refuse_after_arm(other, matching),
    }
}

// The tail of the full arm was read.
fn tail_read(
    alloc: Global,
    begun: &mut Begun,
    matching: Matching,
    head: Box<Binder>,
    tail: Binder,
) -> Result<Step, AllocError>
    ensures { IfOk result (λ s. Simulates None begun.new s (Inside (open_in begun.old)
        (TailArrow matching.at (operand_expr matching.list) (operand_expr matching.empty)
        (binder_syntax head.value) (binder_syntax tail)))) }
{
    match in_box(alloc, tail) {
        Ok(tail) => Ok(begun.goes(Focus::Inside(Expected::TailArrow(matching, head, tail)))),
        Err(error) => {
            drop(matching);
            drop(head);
            Err(error)
        }
    }
}

// After the head and `::`
fn tail_binder(
    alloc: Global,
    begun: &mut Begun,
    matching: Matching,
    head: Box<Binder>,
    kind: ExprToken,
    token: &Token,
) -> Result<Step, AllocError>
    ensures { IfOk result (λ s. Simulates None begun.new s
        (inside (open_in begun.old) (view_expected (expected.TailBinder matching head)) kind token.now.start
        (power_of token.now))) }
{
    match kind {
        ExprToken::Name(name) => {
            let tail = Binder {
                at: token.start,
                name: Some(name),
            };
            tail_read(alloc, begun, matching, head, tail)
        }
        ExprToken::Hole => {
            let tail = Binder {
                at: token.start,
                name: None,
            };
            tail_read(alloc, begun, matching, head, tail)
        }
        other => Ok(refuse_after_arm(other, matching)),
    }
}

// After the tail
fn tail_arrow(
    begun: &mut Begun,
    matching: Matching,
    head: Box<Binder>,
    tail: Box<Binder>,
    kind: ExprToken,
) -> Result<Step, AllocError>
    ensures { (p : ℕ) (power : Option ℕ) → IfOk result (λ s. Simulates None begun.new s
        (inside (open_in begun.old) (view_expected (expected.TailArrow matching head tail)) kind p power)) }
{
    match kind {
        ExprToken::Mark(Symbol::Arrow) => opened(begun, Frame::InFullArm(matching, head, tail)),
        other => Ok(refuse_after_arm(other, matching)),
    }
}

// After `(` `[` `]`
fn nil_colon(begun: &Begun, at: u32, kind: ExprToken) -> Step
    ensures { (p : ℕ) (power : Option ℕ) → Simulates None begun.now result
        (inside (open_in begun.now) (view_expected (expected.NilColon at)) kind p power) }
{
    match kind {
        ExprToken::Mark(Symbol::Colon) => Step::Type(at),
        other => refuse_token(other),
    }
}

// After `pown`, its operand and `(`
fn pown_minus(begun: &mut Begun, at: u32, operand: Operand, kind: ExprToken) -> Step
    ensures { (p : ℕ) (power : Option ℕ) → Simulates None begun.new result
        (inside (open_in begun.old) (view_expected (expected.PownMinus at operand)) kind p power) }
{
    match kind {
        ExprToken::Operator(Infix::Arith(Arith::Sub)) => {
            begun.goes(Focus::Inside(Expected::PownDigits(at, operand)))
        }
        other => refuse_after(other, operand),
    }
}

// After `-` of a power
fn pown_digits(begun: &mut Begun, at: u32, operand: Operand, kind: ExprToken, token: &Token) -> Step
    ensures { Simulates None begun.new result
        (inside (open_in begun.old) (view_expected (expected.PownDigits at operand)) kind token.now.start
        (power_of token.now)) }
{
    match written_power(&token.kind) {
        Some(power) => goes_to_close(begun, at, operand, -power, kind),
        None => refuse_after(kind, operand),
    }
}

fn goes_to_close(begun: &mut Begun, at: u32, operand: Operand, power: i32, kind: ExprToken) -> Step
    ensures goes { result ≡ Goes }
    ensures focus { begun.new.focus ≡ Within (expected.PownClose at operand power) }
    ensures frames { begun.new.frames ≡ begun.old.frames }
{
    drop(kind);
    begun.goes(Focus::Inside(Expected::PownClose(at, operand, power)))
}

// The brackets around a power close.
fn pown_ends(
    alloc: Global,
    begun: &mut Begun,
    at: u32,
    operand: Operand,
    power: i32,
) -> Result<Step, AllocError>
    ensures { IfOk result (λ s. Simulates None begun.new s
        (Have (open_in begun.old) (pown_syntax at (operand_expr operand) power))) }
{
    let operand = operand.pown(alloc, at, power)?;
    Ok(begun.goes(Focus::Read(operand)))
}

/// One token inside a fixed run of tokens, of which this one is expected. The binder, name or power that it is becomes
/// part of the form; a token that isn't expected is refused. Fails only for want of memory.
///
/// Source: the forms of the F# specification, chapter Expressions.
pub fn inside(
    alloc: Global,
    begun: &mut Begun,
    wanted: Expected,
    kind: ExprToken,
    token: &Token,
) -> Result<Step, AllocError>
    ensures { IfOk result (λ s. Simulates None begun.new s
        (inside (open_in begun.old) (view_expected wanted) kind token.now.start (power_of token.now))) }
{
    match wanted {
        Expected::LetBinder(at) => Ok(let_binder(begun, at, kind, token)),
        Expected::LetEqual(at, x) => let_equal(begun, at, x, kind),
        Expected::FieldName(at, before) => Ok(field_name(begun, at, before, kind, token)),
        Expected::FieldEqual(at, before, place, name) => {
            field_equal(begun, at, before, place, name, kind)
        }
        Expected::DotName(at, operand) => dot_name(alloc, begun, at, operand, kind, token),
        Expected::ArmBegin(at, list) => Ok(arm_begin(begun, at, list, kind)),
        Expected::ArmOpen(at, list) => Ok(arm_open(begun, at, list, kind)),
        Expected::ArmClose(at, list) => Ok(arm_close(begun, at, list, kind)),
        Expected::ArmArrow(at, list) => arm_arrow(begun, at, list, kind),
        Expected::HeadBinder(matching) => head_binder(alloc, begun, matching, kind, token),
        Expected::HeadCons(matching, head) => Ok(head_cons(begun, matching, head, kind)),
        Expected::TailBinder(matching, head) => {
            tail_binder(alloc, begun, matching, head, kind, token)
        }
        Expected::TailArrow(matching, head, tail) => {
            tail_arrow(begun, matching, head, tail, kind)
        }
        Expected::NilColon(at) => Ok(nil_colon(begun, at, kind)),
        Expected::PownMinus(at, operand) => Ok(pown_minus(begun, at, operand, kind)),
        Expected::PownDigits(at, operand) => Ok(pown_digits(begun, at, operand, kind, token)),
        Expected::PownClose(at, operand, power) => match kind {
            ExprToken::Mark(Symbol::RightParen) => pown_ends(alloc, begun, at, operand, power),
            other => Ok(refuse_after(other, operand)),
        },
    }
}
