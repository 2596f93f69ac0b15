// The texts of expressions.
ghost use Rattle.std.specs.Prelude.{◌≡◌, ◌++◌, ◌∷◌, [], OnOk, map};
ghost use Rattle.um_tree.specs.RawTree.{written_note, type_syntax, binder_syntax, expr_syntax, exprs_in_order};
ghost use Rattle.um_tree.specs.RawTree.{field_part};
ghost use Rattle.um_tree.specs.RawTree.{fields_in_order, number_syntax, call_syntax, pown_syntax, if_syntax};
ghost use Rattle.um_tree.specs.RawTree.{let_syntax, match_syntax};
ghost use Rattle.um_tree.specs.RawTree.{nil_syntax, list_syntax, fields_syntax, field_syntax, bracket_expr_syntax};
ghost use Rattle.um_show.specs.Pieces.{text_of, piece_text};
ghost use Rattle.um_show.specs.Layout.{truth_piece, binder_piece, arith_piece, compare_pieces, expr_pieces};
ghost use Rattle.um_show.specs.Layout.{argument_pieces, item_pieces, field_pieces};
ghost use Rattle.um_show.specs.Lists.{spaced_text, let_text, arms_text, part_text};

use crate::number::{push_number, push_whole_power};
use crate::text::{push_binder, push_gap, push_name};
use crate::types::push_type;
use crate::unit::push_written;
use std::alloc::AllocError;
use um_frac::Frac;
use um_tree::{Arith, Binder, Name, RawExpr, RawField, RawNode, RawNote, RawType, Sign};

/// Adds an expression.
#[cycle(push_expr)]
pub(crate) fn push_expr(text: &mut Vec<u8>, e: &RawExpr) -> Result<(), AllocError>
    ensures { OnOk result (text.new.items ≡ text.old.items ++ text_of (expr_pieces (expr_syntax e.now))) }
{
    match &e.node {
        RawNode::Bool(b) => push_truth(text, *b),
        RawNode::Num(c, note) => push_literal(text, *c, note),
        RawNode::Name(name) => push_name(text, name),
        RawNode::Call(name, items) => push_call(text, name, &items.items),
        RawNode::Neg(a) => {
            text.push(b'-')?;
            push_expr(text, a)
        }
        RawNode::Not(a) => {
            text.extend_from_slice(b"not ")?;
            push_expr(text, a)
        }
        RawNode::Pow(a, k) => push_pown(text, a, *k),
        RawNode::Arith(op, a, b) => push_infix(text, a, arith_sign(*op), b),
        RawNode::Compare(sign, a, b) => push_infix(text, a, compare_sign(*sign), b),
        RawNode::And(a, b) => push_infix(text, a, b" && ", b),
        RawNode::Or(a, b) => push_infix(text, a, b" || ", b),
        RawNode::If(c, a, b) => push_if(text, c, a, b),
        RawNode::Let(x, a, b) => push_let(text, x, a, b),
        RawNode::Match(l, a, x, y, b) => push_match(text, l, a, x, y, b),
        RawNode::Nil(ty) => push_empty(text, ty),
        RawNode::List(items) => push_list(text, &items.items),
        RawNode::Cons(a, b) => push_infix(text, a, b" :: ", b),
        RawNode::Rec(fields) => push_record(text, &fields.items),
        RawNode::Field(_, name, a) => push_access(text, a, name),
        RawNode::Bracket(a) => push_bracketed(text, a),
    }
}

/// Adds a number with its note.
fn push_literal(text: &mut Vec<u8>, c: Frac, note: &Option<RawNote>) -> Result<(), AllocError>
    ensures { OnOk result (text.new.items ≡ text.old.items
        ++ text_of (expr_pieces (number_syntax 0 c (written_note note.now)))) }
{
    push_number(text, c)?;
    push_written(text, note)
}

/// Adds a call.
#[cycle(push_expr)]
fn push_call(text: &mut Vec<u8>, name: &Name, items: &[RawExpr]) -> Result<(), AllocError>
    ensures { OnOk result (text.new.items ≡ text.old.items
        ++ text_of (expr_pieces (call_syntax 0 name.now (exprs_in_order (map expr_syntax items.now))))) }
{
    push_name(text, name)?;
    push_arguments(text, items)
}

/// Adds a whole power.
#[cycle(push_expr)]
fn push_pown(text: &mut Vec<u8>, a: &RawExpr, power: i32) -> Result<(), AllocError>
    ensures { OnOk result (text.new.items ≡ text.old.items
        ++ text_of (expr_pieces (pown_syntax 0 (expr_syntax a.now) power))) }
{
    text.extend_from_slice(b"pown ")?;
    push_expr(text, a)?;
    text.push(b' ')?;
    push_whole_power(text, power)
}

/// Adds two operands and the sign between them, which has its spaces.
#[cycle(push_expr)]
fn push_infix(text: &mut Vec<u8>, a: &RawExpr, sign: &[u8], b: &RawExpr) -> Result<(), AllocError>
    ensures { OnOk result (text.new.items ≡ text.old.items
        ++ (text_of (expr_pieces (expr_syntax a.now)) ++ sign.now ++ text_of (expr_pieces (expr_syntax b.now)))) }
{
    push_expr(text, a)?;
    text.extend_from_slice(sign)?;
    push_expr(text, b)
}

/// Adds a condition and its arms.
#[cycle(push_expr)]
fn push_if(text: &mut Vec<u8>, c: &RawExpr, a: &RawExpr, b: &RawExpr) -> Result<(), AllocError>
    ensures { OnOk result (text.new.items ≡ text.old.items
        ++ text_of (expr_pieces (if_syntax 0 (expr_syntax c.now) (expr_syntax a.now) (expr_syntax b.now)))) }
{
    text.extend_from_slice(b"if ")?;
    push_expr(text, c)?;
    text.extend_from_slice(b" then ")?;
    push_expr(text, a)?;
    text.extend_from_slice(b" else ")?;
    push_expr(text, b)
}

/// Adds a bound expression and what it is bound in.
#[cycle(push_expr)]
fn push_let(text: &mut Vec<u8>, x: &Binder, a: &RawExpr, b: &RawExpr) -> Result<(), AllocError>
    ensures { OnOk result (text.new.items ≡ text.old.items
        ++ text_of (expr_pieces (let_syntax 0 (binder_syntax x.now) (expr_syntax a.now) (expr_syntax b.now)))) }
{
    push_let_head(text, x)?;
    push_expr(text, a)?;
    text.extend_from_slice(b" in ")?;
    push_expr(text, b)
}

/// Adds a list and its two arms.
#[cycle(push_expr)]
fn push_match(
    text: &mut Vec<u8>,
    l: &RawExpr,
    a: &RawExpr,
    x: &Binder,
    y: &Binder,
    b: &RawExpr,
) -> Result<(), AllocError>
    ensures { OnOk result (text.new.items ≡ text.old.items
        ++ text_of (expr_pieces (match_syntax 0 (expr_syntax l.now) (expr_syntax a.now)
        (binder_syntax x.now) (binder_syntax y.now) (expr_syntax b.now)))) }
{
    text.extend_from_slice(b"match ")?;
    push_expr(text, l)?;
    text.extend_from_slice(b" with [] -> ")?;
    push_expr(text, a)?;
    push_full_arm(text, x, y)?;
    push_expr(text, b)
}

/// Adds an empty list with its type.
fn push_empty(text: &mut Vec<u8>, ty: &RawType) -> Result<(), AllocError>
    ensures { OnOk result (text.new.items ≡ text.old.items
        ++ text_of (expr_pieces (nil_syntax 0 (type_syntax ty.now)))) }
{
    text.extend_from_slice(b"([] : ")?;
    push_type(text, ty)?;
    text.extend_from_slice(b")")
}

/// Adds a list of its items.
#[cycle(push_expr)]
fn push_list(text: &mut Vec<u8>, items: &[RawExpr]) -> Result<(), AllocError>
    ensures { OnOk result (text.new.items ≡ text.old.items
        ++ text_of (expr_pieces (list_syntax 0 (exprs_in_order (map expr_syntax items.now))))) }
{
    text.push(b'[')?;
    push_items(text, items)?;
    text.extend_from_slice(b"]")
}

/// Adds a record of its fields.
#[cycle(push_expr)]
fn push_record(text: &mut Vec<u8>, fields: &[RawField]) -> Result<(), AllocError>
    ensures { OnOk result (text.new.items ≡ text.old.items
        ++ text_of (expr_pieces (fields_syntax 0 (fields_in_order (map field_part fields.now))))) }
{
    text.extend_from_slice(b"{ ")?;
    push_fields(text, fields)?;
    text.extend_from_slice(b" }")
}

/// Adds a field that is accessed.
#[cycle(push_expr)]
fn push_access(text: &mut Vec<u8>, a: &RawExpr, name: &Name) -> Result<(), AllocError>
    ensures { OnOk result (text.new.items ≡ text.old.items
        ++ text_of (expr_pieces (field_syntax 0 0 name.now (expr_syntax a.now)))) }
{
    push_expr(text, a)?;
    text.push(b'.')?;
    push_name(text, name)
}

/// Adds an expression in brackets.
#[cycle(push_expr)]
fn push_bracketed(text: &mut Vec<u8>, a: &RawExpr) -> Result<(), AllocError>
    ensures { OnOk result (text.new.items ≡ text.old.items
        ++ text_of (expr_pieces (bracket_expr_syntax 0 (expr_syntax a.now)))) }
{
    text.push(b'(')?;
    push_expr(text, a)?;
    text.extend_from_slice(b")")
}

/// Adds expressions, a space before each.
#[cycle(push_expr)]
fn push_arguments(text: &mut Vec<u8>, items: &[RawExpr]) -> Result<(), AllocError>
    ensures { OnOk result (text.new.items ≡ text.old.items
        ++ text_of (argument_pieces (exprs_in_order (map expr_syntax items.now)))) }
{
    for i in 0..items.len() {
        text.push(b' ')?;
        push_expr(text, &items[i])?;
    }
    Ok(())
}

/// Adds expressions, `; ` between each two.
#[cycle(push_expr)]
fn push_items(text: &mut Vec<u8>, items: &[RawExpr]) -> Result<(), AllocError>
    ensures { OnOk result (text.new.items ≡ text.old.items
        ++ text_of (item_pieces (exprs_in_order (map expr_syntax items.now)))) }
{
    for i in 0..items.len() {
        push_gap(text, i, b"; ")?;
        push_expr(text, &items[i])?;
    }
    Ok(())
}

/// Adds fields, `; ` between each two.
#[cycle(push_expr)]
fn push_fields(text: &mut Vec<u8>, fields: &[RawField]) -> Result<(), AllocError>
    ensures { OnOk result (text.new.items ≡ text.old.items
        ++ text_of (field_pieces (fields_in_order (map field_part fields.now)))) }
{
    for i in 0..fields.len() {
        push_gap(text, i, b"; ")?;
        push_field(text, &fields[i])?;
    }
    Ok(())
}

/// Adds a field with its part.
#[cycle(push_expr)]
fn push_field(text: &mut Vec<u8>, field: &RawField) -> Result<(), AllocError>
    ensures { OnOk result (text.new.items ≡ text.old.items ++ part_text (field_part field.now)) }
{
    push_name(text, &field.name)?;
    text.extend_from_slice(b" = ")?;
    push_expr(text, &field.value)
}

fn push_truth(text: &mut Vec<u8>, b: bool) -> Result<(), AllocError>
    ensures { OnOk result (text.new.items ≡ text.old.items ++ piece_text (truth_piece b)) }
{
    match b {
        true => text.extend_from_slice(b"true"),
        false => text.extend_from_slice(b"false"),
    }
}

/// The sign between operands, with its spaces.
fn arith_sign(op: Arith) -> &'static [u8]
    ensures { result.now ≡ spaced_text (arith_piece op ∷ []) }
{
    match op {
        Arith::Add => b" + ",
        Arith::Sub => b" - ",
        Arith::Mul => b" * ",
        Arith::Div => b" / ",
    }
}

/// The sign of a comparison, with its spaces.
fn compare_sign(sign: Sign) -> &'static [u8]
    ensures { result.now ≡ spaced_text (compare_pieces sign) }
{
    match sign {
        Sign::Lt => b" < ",
        Sign::Le => b" <= ",
        Sign::Eq => b" = ",
        Sign::Ne => b" <> ",
        Sign::Gt => b" > ",
        Sign::Ge => b" >= ",
    }
}

/// Adds `let x = `.
fn push_let_head(text: &mut Vec<u8>, x: &Binder) -> Result<(), AllocError>
    ensures { OnOk result (text.new.items ≡ text.old.items ++ let_text (binder_syntax x.now)) }
{
    text.extend_from_slice(b"let ")?;
    push_binder(text, x)?;
    text.extend_from_slice(b" = ")
}

/// Adds ` | x :: y -> `.
fn push_full_arm(text: &mut Vec<u8>, x: &Binder, y: &Binder) -> Result<(), AllocError>
    ensures { OnOk result (text.new.items ≡ text.old.items ++ arms_text (binder_syntax x.now) (binder_syntax y.now)) }
{
    text.extend_from_slice(b" | ")?;
    push_binder(text, x)?;
    text.extend_from_slice(b" :: ")?;
    push_binder(text, y)?;
    text.extend_from_slice(b" -> ")
}
