//! The expressions of expression texts.

ghost use Rattle.std.specs.Prelude.{◌≡◌, ◌∷◌, ◌++◌, [], Ok, IfOk, IfErr, OnOk, map};
ghost use Rattle.um_tree.specs.ExprTree.{expr_tree, in_order};
ghost use Rattle.um_tree.specs.RawTree.{binder_syntax, expr_syntax, exprs_in_order, field_part, fields_in_order};
ghost use Rattle.um_tree.specs.RawTree.{call_syntax, if_syntax, let_syntax, match_syntax, fields_syntax, field_syntax};
ghost use Rattle.um_names.specs.Bodies.{resolved_in, resolved_all_in, resolved_parts_in, resolved_arm, found_both};
ghost use Rattle.um_names.specs.Joints.{joint_syntax};
ghost use Rattle.um_measures.specs.Stops.{IsFirst};

use crate::joint::{Joint, joined};
use crate::lookup::{Arm, Lookup};
use crate::node::{
    accessed, arity, called, distinct, empty_list, literal, located, name_alone, record_of,
};
use std::boxed::Box;
use um_measures::{NameStop, Scope};
use um_tree::{Binder, Expr, Exprs, Name, Node, RawExpr, RawField, RawNode};

/// The expression of a text, in a scope.
#[cycle(expr)]
pub fn expr(lookup: &Lookup, scope: &mut Scope, e: &RawExpr) -> Result<Expr, NameStop>
    ensures exact { IfOk result (λ r.
        resolved_in lookup.now.tables.now lookup.now.body.now scope.old (expr_syntax e.now) ≡ Ok (expr_tree r)) }
    ensures faults { IfErr result (IsFirst (resolved_in lookup.now.tables.now lookup.now.body.now scope.old
        (expr_syntax e.now))) }
    ensures scope { OnOk result (scope.new ≡ scope.old) }
{
    let at = e.at;
    match &e.node {
        RawNode::Bool(b) => located(at, Node::Bool(*b)),
        RawNode::Num(number, note) => literal(lookup.alloc, lookup.tables, at, *number, note),
        RawNode::Name(name) => name_alone(
            lookup.alloc,
            lookup.tables,
            lookup.body,
            scope,
            at,
            name,
        ),
        RawNode::Call(name, items) => call_expr(lookup, scope, at, name, &items.items),
        RawNode::Neg(a) => located(at, Node::Neg(boxed(lookup, scope, a)?)),
        RawNode::Not(a) => located(at, Node::Not(boxed(lookup, scope, a)?)),
        RawNode::Pow(a, k) => located(at, Node::Pow(boxed(lookup, scope, a)?, *k)),
        RawNode::Arith(op, a, b) => joined_expr(lookup, scope, at, Joint::Arith(*op), a, b),
        RawNode::Compare(sign, a, b) => joined_expr(lookup, scope, at, Joint::Compare(*sign), a, b),
        RawNode::And(a, b) => joined_expr(lookup, scope, at, Joint::And, a, b),
        RawNode::Or(a, b) => joined_expr(lookup, scope, at, Joint::Or, a, b),
        RawNode::If(c, a, b) => if_expr(lookup, scope, at, c, a, b),
        RawNode::Let(x, a, b) => let_expr(lookup, scope, at, x, a, b),
        RawNode::Match(l, a, x, y, b) => {
            let arm = Arm {
                head: x,
                tail: y,
                part: b,
            };
            match_expr(lookup, scope, at, l, a, &arm)
        }
        RawNode::Nil(ty) => empty_list(lookup.alloc, lookup.tables, lookup.body, at, ty),
        RawNode::List(items) => {
            let items = exprs(lookup, scope, &items.items)?;
            located(at, Node::List(Exprs { items }))
        }
        RawNode::Cons(a, b) => joined_expr(lookup, scope, at, Joint::Cons, a, b),
        RawNode::Rec(fields) => record_expr(lookup, scope, at, &fields.items),
        RawNode::Field(place, name, a) => field_expr(lookup, scope, at, *place, name, a),
        RawNode::Bracket(a) => expr(lookup, scope, a),
    }
}

#[cycle(expr)]
fn boxed(lookup: &Lookup, scope: &mut Scope, e: &RawExpr) -> Result<Box<Expr>, NameStop>
    ensures exact { IfOk result (λ r. resolved_in lookup.now.tables.now lookup.now.body.now scope.old
        (expr_syntax e.now) ≡ Ok (expr_tree r.value)) }
    ensures faults { IfErr result (IsFirst (resolved_in lookup.now.tables.now lookup.now.body.now scope.old
        (expr_syntax e.now))) }
    ensures scope { OnOk result (scope.new ≡ scope.old) }
{
    let e = expr(lookup, scope, e)?;
    Ok(Box::new(lookup.alloc, e)?)
}

/// Two expressions in one scope, the first before the second.
#[cycle(expr)]
fn two(
    lookup: &Lookup,
    scope: &mut Scope,
    a: &RawExpr,
    b: &RawExpr,
) -> Result<(Box<Expr>, Box<Expr>), NameStop>
    ensures first { IfOk result (λ parts.
        resolved_in lookup.now.tables.now lookup.now.body.now scope.old (expr_syntax a.now)
        ≡ Ok (expr_tree parts.0.value)) }
    ensures second { IfOk result (λ parts.
        resolved_in lookup.now.tables.now lookup.now.body.now scope.old (expr_syntax b.now)
        ≡ Ok (expr_tree parts.1.value)) }
    ensures faults { IfErr result (IsFirst
        (found_both (resolved_in lookup.now.tables.now lookup.now.body.now scope.old (expr_syntax a.now))
        (resolved_in lookup.now.tables.now lookup.now.body.now scope.old (expr_syntax b.now)))) }
    ensures scope { OnOk result (scope.new ≡ scope.old) }
{
    let first = boxed(lookup, scope, a)?;
    match boxed(lookup, scope, b) {
        Ok(second) => Ok((first, second)),
        Err(stop) => {
            drop(first);
            Err(stop)
        }
    }
}

/// A call: the function and the count come before the arguments.
#[cycle(expr)]
fn call_expr(
    lookup: &Lookup,
    scope: &mut Scope,
    at: u32,
    name: &Name,
    items: &[RawExpr],
) -> Result<Expr, NameStop>
    ensures exact { IfOk result (λ r.
        resolved_in lookup.now.tables.now lookup.now.body.now scope.old
        (call_syntax at name.now (exprs_in_order (map expr_syntax items.now)))
        ≡ Ok (expr_tree r)) }
    ensures faults { IfErr result (IsFirst
        (resolved_in lookup.now.tables.now lookup.now.body.now scope.old
        (call_syntax at name.now (exprs_in_order (map expr_syntax items.now))))) }
    ensures scope { OnOk result (scope.new ≡ scope.old) }
{
    let function = called(lookup.tables, lookup.body, scope, at, name, arity(items))?;
    let items = exprs(lookup, scope, items)?;
    located(at, Node::Call(function, Exprs { items }))
}

/// Two parts, joined.
#[cycle(expr)]
fn joined_expr(
    lookup: &Lookup,
    scope: &mut Scope,
    at: u32,
    joint: Joint,
    a: &RawExpr,
    b: &RawExpr,
) -> Result<Expr, NameStop>
    ensures exact { IfOk result (λ r. resolved_in lookup.now.tables.now lookup.now.body.now scope.old
        (joint_syntax joint at (expr_syntax a.now) (expr_syntax b.now)) ≡ Ok (expr_tree r)) }
    ensures faults { IfErr result (IsFirst (resolved_in lookup.now.tables.now lookup.now.body.now scope.old
        (joint_syntax joint at (expr_syntax a.now) (expr_syntax b.now)))) }
    ensures scope { OnOk result (scope.new ≡ scope.old) }
{
    let (first, second) = two(lookup, scope, a, b)?;
    Ok(joined(at, joint, first, second))
}

/// A condition and its arms.
#[cycle(expr)]
fn if_expr(
    lookup: &Lookup,
    scope: &mut Scope,
    at: u32,
    c: &RawExpr,
    a: &RawExpr,
    b: &RawExpr,
) -> Result<Expr, NameStop>
    ensures exact { IfOk result (λ r. resolved_in lookup.now.tables.now lookup.now.body.now scope.old
        (if_syntax at (expr_syntax c.now) (expr_syntax a.now) (expr_syntax b.now)) ≡ Ok (expr_tree r)) }
    ensures faults { IfErr result (IsFirst (resolved_in lookup.now.tables.now lookup.now.body.now scope.old
        (if_syntax at (expr_syntax c.now) (expr_syntax a.now) (expr_syntax b.now)))) }
    ensures scope { OnOk result (scope.new ≡ scope.old) }
{
    let condition = boxed(lookup, scope, c)?;
    match two(lookup, scope, a, b) {
        Ok((yes, no)) => located(at, Node::If(condition, yes, no)),
        Err(stop) => {
            drop(condition);
            Err(stop)
        }
    }
}

/// What follows a `let`, with one more variable in scope.
#[cycle(expr)]
fn rest_expr(
    lookup: &Lookup,
    scope: &mut Scope,
    x: &Binder,
    b: &RawExpr,
) -> Result<Box<Expr>, NameStop>
    ensures exact { IfOk result (λ r. resolved_in lookup.now.tables.now lookup.now.body.now
        (scope.old ++ (binder_syntax x.now).name ∷ []) (expr_syntax b.now) ≡ Ok (expr_tree r.value)) }
    ensures faults { IfErr result (IsFirst (resolved_in lookup.now.tables.now lookup.now.body.now
        (scope.old ++ (binder_syntax x.now).name ∷ []) (expr_syntax b.now))) }
    ensures scope { OnOk result (scope.new ≡ scope.old) }
{
    let count = scope.count();
    scope.push(lookup.alloc, x)?;
    let rest = boxed(lookup, scope, b)?;
    scope.cut(count);
    Ok(rest)
}

/// The second part has one more variable.
#[cycle(expr)]
fn let_expr(
    lookup: &Lookup,
    scope: &mut Scope,
    at: u32,
    x: &Binder,
    a: &RawExpr,
    b: &RawExpr,
) -> Result<Expr, NameStop>
    ensures exact { IfOk result (λ r. resolved_in lookup.now.tables.now lookup.now.body.now scope.old
        (let_syntax at (binder_syntax x.now) (expr_syntax a.now) (expr_syntax b.now)) ≡ Ok (expr_tree r)) }
    ensures faults { IfErr result (IsFirst (resolved_in lookup.now.tables.now lookup.now.body.now scope.old
        (let_syntax at (binder_syntax x.now) (expr_syntax a.now) (expr_syntax b.now)))) }
    ensures scope { OnOk result (scope.new ≡ scope.old) }
{
    let value = boxed(lookup, scope, a)?;
    match rest_expr(lookup, scope, x, b) {
        Ok(rest) => located(at, Node::Let(value, rest)),
        Err(stop) => {
            drop(value);
            Err(stop)
        }
    }
}

/// The arm of a list with a head: its two variables have two names, and are in scope.
#[cycle(expr)]
fn full_arm(lookup: &Lookup, scope: &mut Scope, arm: &Arm) -> Result<Box<Expr>, NameStop>
    ensures exact { IfOk result (λ r. resolved_arm lookup.now.tables.now lookup.now.body.now scope.old
        (binder_syntax arm.now.head.now) (binder_syntax arm.now.tail.now) (expr_syntax arm.now.part.now)
        ≡ Ok (expr_tree r.value)) }
    ensures faults { IfErr result (IsFirst (resolved_arm lookup.now.tables.now lookup.now.body.now scope.old
        (binder_syntax arm.now.head.now) (binder_syntax arm.now.tail.now) (expr_syntax arm.now.part.now))) }
    ensures scope { OnOk result (scope.new ≡ scope.old) }
{
    distinct(arm.head, arm.tail)?;
    let count = scope.count();
    scope.push(lookup.alloc, arm.head)?;
    scope.push(lookup.alloc, arm.tail)?;
    let full = boxed(lookup, scope, arm.part)?;
    scope.cut(count);
    Ok(full)
}

/// The last part has two more variables, head and tail.
#[cycle(expr)]
fn match_expr(
    lookup: &Lookup,
    scope: &mut Scope,
    at: u32,
    l: &RawExpr,
    a: &RawExpr,
    arm: &Arm,
) -> Result<Expr, NameStop>
    ensures exact { IfOk result (λ r. resolved_in lookup.now.tables.now lookup.now.body.now scope.old
        (match_syntax at (expr_syntax l.now) (expr_syntax a.now) (binder_syntax arm.now.head.now)
        (binder_syntax arm.now.tail.now)
        (expr_syntax arm.now.part.now)) ≡ Ok (expr_tree r)) }
    ensures faults { IfErr result (IsFirst (resolved_in lookup.now.tables.now lookup.now.body.now scope.old
        (match_syntax at (expr_syntax l.now) (expr_syntax a.now) (binder_syntax arm.now.head.now)
        (binder_syntax arm.now.tail.now) (expr_syntax arm.now.part.now)))) }
    ensures scope { OnOk result (scope.new ≡ scope.old) }
{
    let (list, empty) = two(lookup, scope, l, a)?;
    match full_arm(lookup, scope, arm) {
        Ok(full) => located(at, Node::Match(list, empty, full)),
        Err(stop) => {
            drop(list);
            drop(empty);
            Err(stop)
        }
    }
}

#[cycle(expr)]
fn exprs(lookup: &Lookup, scope: &mut Scope, items: &[RawExpr]) -> Result<Vec<Expr>, NameStop>
    ensures exact { IfOk result (λ es. resolved_all_in lookup.now.tables.now lookup.now.body.now scope.old
        (exprs_in_order (map expr_syntax items.now)) ≡ Ok (in_order (map expr_tree es.items))) }
    ensures faults { IfErr result (IsFirst (resolved_all_in lookup.now.tables.now lookup.now.body.now scope.old
        (exprs_in_order (map expr_syntax items.now)))) }
    ensures scope { OnOk result (scope.new ≡ scope.old) }
{
    let mut es = Vec::new(lookup.alloc);
    es.reserve(items.len())?;
    for i in 0..items.len() {
        es.push(expr(lookup, scope, &items[i])?)?;
    }
    Ok(es)
}

#[cycle(expr)]
fn field_values(
    lookup: &Lookup,
    scope: &mut Scope,
    fields: &[RawField],
) -> Result<Vec<Expr>, NameStop>
    ensures exact { IfOk result (λ es. resolved_parts_in lookup.now.tables.now lookup.now.body.now scope.old
        (fields_in_order (map field_part fields.now)) ≡ Ok (in_order (map expr_tree es.items))) }
    ensures faults { IfErr result (IsFirst (resolved_parts_in lookup.now.tables.now lookup.now.body.now scope.old
        (fields_in_order (map field_part fields.now)))) }
    ensures scope { OnOk result (scope.new ≡ scope.old) }
{
    let mut es = Vec::new(lookup.alloc);
    es.reserve(fields.len())?;
    for i in 0..fields.len() {
        es.push(field_value(lookup, scope, &fields[i])?)?;
    }
    Ok(es)
}

#[cycle(expr)]
fn field_value(lookup: &Lookup, scope: &mut Scope, field: &RawField) -> Result<Expr, NameStop>
    ensures exact { IfOk result (λ r. resolved_in lookup.now.tables.now lookup.now.body.now scope.old
        (field_part field.now).part
        ≡ Ok (expr_tree r)) }
    ensures faults { IfErr result (IsFirst (resolved_in lookup.now.tables.now lookup.now.body.now scope.old
        (field_part field.now).part)) }
    ensures scope { OnOk result (scope.new ≡ scope.old) }
{
    expr(lookup, scope, &field.value)
}

#[cycle(expr)]
fn record_expr(
    lookup: &Lookup,
    scope: &mut Scope,
    at: u32,
    fields: &[RawField],
) -> Result<Expr, NameStop>
    ensures exact { IfOk result (λ r.
        resolved_in lookup.now.tables.now lookup.now.body.now scope.old
        (fields_syntax at (fields_in_order (map field_part fields.now)))
        ≡ Ok (expr_tree r)) }
    ensures faults { IfErr result (IsFirst
        (resolved_in lookup.now.tables.now lookup.now.body.now scope.old
        (fields_syntax at (fields_in_order (map field_part fields.now))))) }
    ensures scope { OnOk result (scope.new ≡ scope.old) }
{
    let record = record_of(lookup.tables, fields, at)?;
    let items = field_values(lookup, scope, fields)?;
    located(at, Node::Rec(record, Exprs { items }))
}

#[cycle(expr)]
fn field_expr(
    lookup: &Lookup,
    scope: &mut Scope,
    at: u32,
    place: u32,
    name: &Name,
    a: &RawExpr,
) -> Result<Expr, NameStop>
    ensures exact { IfOk result (λ r.
        resolved_in lookup.now.tables.now lookup.now.body.now scope.old
        (field_syntax at place name.now (expr_syntax a.now))
        ≡ Ok (expr_tree r)) }
    ensures faults { IfErr result (IsFirst
        (resolved_in lookup.now.tables.now lookup.now.body.now scope.old
        (field_syntax at place name.now (expr_syntax a.now)))) }
    ensures scope { OnOk result (scope.new ≡ scope.old) }
{
    let value = expr(lookup, scope, a)?;
    let field = accessed(lookup.tables, name, place)?;
    let value = Box::new(lookup.alloc, value)?;
    located(
        at,
        Node::Field(field.record_number, field.field_number, value),
    )
}
