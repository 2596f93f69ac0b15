// The height and the number of nodes of an expression as it is written.
ghost use Rattle.std.specs.Prelude.{◌≡◌, ◌≤◌, ◌<◌, ◌^◌, map};
ghost use Rattle.um_tree.specs.RawTree.{expr_syntax, exprs_in_order, field_part, fields_in_order};
ghost use Rattle.um_tree.specs.Heights.{greatest_height, expr_height, tallest_expr, tallest_field};
ghost use Rattle.um_tree.specs.Heights.{expr_nodes, all_expr_nodes, all_field_nodes};

use crate::{RawExpr, RawField, RawNode};

/// The greatest height of a unit text, a type text, an expression, a type and a shape.
pub const GREATEST_HEIGHT: u32 = 400;

/// The height of an expression: 1 if it has no parts, otherwise one more than its highest part.
///
/// Brackets count one; `([] : T)` has the height 3; units and types in it are not counted. The expression is no higher
/// than [`GREATEST_HEIGHT`].
/// The rule is this project's own.
#[cycle(height)]
pub fn height(e: &RawExpr) -> u32
    requires low { expr_height (expr_syntax e.now) ≤ greatest_height }
    ensures { result ≡ expr_height (expr_syntax e.now) }
{
    match &e.node {
        RawNode::Bool(_) | RawNode::Num(_, _) | RawNode::Name(_) => 1,
        RawNode::Nil(_) => 3,
        RawNode::Call(_, items) | RawNode::List(items) => tallest(&items.items) + 1,
        RawNode::Rec(fields) => tallest_part(&fields.items) + 1,
        RawNode::Bracket(a) => height(a) + 1,
        RawNode::Neg(a) | RawNode::Not(a) | RawNode::Pow(a, _) | RawNode::Field(_, _, a) => {
            height(a) + 1
        }
        RawNode::Arith(_, a, b)
        | RawNode::Compare(_, a, b)
        | RawNode::And(a, b)
        | RawNode::Or(a, b)
        | RawNode::Let(_, a, b)
        | RawNode::Cons(a, b) => height(a).max(height(b)) + 1,
        RawNode::If(a, b, c) | RawNode::Match(a, b, _, _, c) => {
            height(a).max(height(b).max(height(c))) + 1
        }
    }
}

#[cycle(height)]
fn tallest(items: &[RawExpr]) -> u32
    requires low { tallest_expr (exprs_in_order (map expr_syntax items.now)) ≤ greatest_height }
    ensures { result ≡ tallest_expr (exprs_in_order (map expr_syntax items.now)) }
{
    let mut top: u32 = 0;
    for i in (0..items.len()).rev() {
        top = top.max(height(&items[i]));
    }
    top
}

#[cycle(height)]
fn tallest_part(fields: &[RawField]) -> u32
    requires low { tallest_field (fields_in_order (map field_part fields.now)) ≤ greatest_height }
    ensures { result ≡ tallest_field (fields_in_order (map field_part fields.now)) }
{
    let mut top: u32 = 0;
    for i in (0..fields.len()).rev() {
        top = top.max(part_height(&fields[i]));
    }
    top
}

#[cycle(height)]
fn part_height(field: &RawField) -> u32
    requires low { expr_height (field_part field.now).part ≤ greatest_height }
    ensures { result ≡ expr_height (field_part field.now).part }
{
    height(&field.value)
}

/// The number of nodes of an expression: one for itself, and those of its parts.
///
/// Brackets count one and `([] : T)` counts one; units and types in it are not counted. It has fewer than 2^32.
/// The rule is this project's own.
#[cycle(nodes)]
pub fn nodes(e: &RawExpr) -> u32
    requires few { expr_nodes (expr_syntax e.now) < 2 ^ 32 }
    ensures { result ≡ expr_nodes (expr_syntax e.now) }
{
    match &e.node {
        RawNode::Bool(_) | RawNode::Num(_, _) | RawNode::Name(_) | RawNode::Nil(_) => 1,
        RawNode::Call(_, items) | RawNode::List(items) => all_nodes(&items.items) + 1,
        RawNode::Rec(fields) => all_part_nodes(&fields.items) + 1,
        RawNode::Neg(a)
        | RawNode::Not(a)
        | RawNode::Pow(a, _)
        | RawNode::Field(_, _, a)
        | RawNode::Bracket(a) => nodes(a) + 1,
        RawNode::Arith(_, a, b)
        | RawNode::Compare(_, a, b)
        | RawNode::And(a, b)
        | RawNode::Or(a, b)
        | RawNode::Let(_, a, b)
        | RawNode::Cons(a, b) => nodes(a) + nodes(b) + 1,
        RawNode::If(a, b, c) | RawNode::Match(a, b, _, _, c) => nodes(a) + nodes(b) + nodes(c) + 1,
    }
}

#[cycle(nodes)]
fn all_nodes(items: &[RawExpr]) -> u32
    requires few { all_expr_nodes (exprs_in_order (map expr_syntax items.now)) < 2 ^ 32 }
    ensures { result ≡ all_expr_nodes (exprs_in_order (map expr_syntax items.now)) }
{
    let mut total: u32 = 0;
    for i in (0..items.len()).rev() {
        total += nodes(&items[i]);
    }
    total
}

#[cycle(nodes)]
fn all_part_nodes(fields: &[RawField]) -> u32
    requires few { all_field_nodes (fields_in_order (map field_part fields.now)) < 2 ^ 32 }
    ensures { result ≡ all_field_nodes (fields_in_order (map field_part fields.now)) }
{
    let mut total: u32 = 0;
    for i in (0..fields.len()).rev() {
        total += part_nodes(&fields[i]);
    }
    total
}

#[cycle(nodes)]
fn part_nodes(field: &RawField) -> u32
    requires few { expr_nodes (field_part field.now).part < 2 ^ 32 }
    ensures { result ≡ expr_nodes (field_part field.now).part }
{
    nodes(&field.value)
}
