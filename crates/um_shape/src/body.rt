//! The shape of an expression, or its first fault.
ghost use Rattle.std.specs.Prelude.{◌≡◌, IfOk, map};
ghost use Rattle.um_tree.specs.ExprTree.{expr_tree, in_order, if, bind, split};
ghost use Rattle.um_shape.specs.LowNotes.{HasLowNotes, HaveLowNotes};
ghost use Rattle.um_shape.specs.FirstFault.{same_shape, where_true, at_node, then};
ghost use Rattle.um_shape.specs.FlatShapes.{flat_shape, flat_shapes, of_pair, known_records, known_found};
ghost use Rattle.um_shape.specs.FlatShapes.{all_known_found};
ghost use Rattle.um_shape.specs.Stops.{IsFound, AreFound};

use crate::ShapeStop;
use crate::flat::FlatShape;
use crate::known::Known;
use crate::lookup::shape_at;
use crate::rules::{PairRule, item_of, itself, of_arms, of_condition, of_list, of_pair};
use std::alloc::Global;
use um_tree::{Expr, Node};

/// What stays the same while a body is looked at.
#[derive(Drop)]
pub(crate) struct Body<'a> {
    pub(crate) alloc: Global,
    pub(crate) known: &'a Known,
}

/// The shape of the expression, if the variables of the scope have these shapes, or its first fault.
///
/// The scope is as before if there is a shape.
#[cycle(body)]
pub(crate) fn shape_of(
    body: &Body,
    scope: &mut Vec<FlatShape>,
    e: &Expr,
) -> Result<FlatShape, ShapeStop>
    requires low { HasLowNotes (expr_tree e.now) }
    ensures found { IsFound result (known_found body.now.known.now scope.old.items (expr_tree e.now)) }
    ensures scope { IfOk result (λ _. scope.new.items ≡ scope.old.items) }
{
    let at = e.at;
    match &e.node {
        Node::Bool(_) => body.known.at_node(at, Some(FlatShape::truth())),
        Node::Num(_, _) => body.known.at_node(at, Some(FlatShape::number())),
        Node::Local(k) => body.known.at_node(at, shape_at(scope, *k)),
        Node::Nil(note) => body.known.at_node(at, of_list(FlatShape::of_note(note))),
        Node::Call(f, arguments) => {
            let arguments = shapes_of(body, scope, &arguments.items)?;
            body.known.at_node(at, body.known.call(*f, &arguments))
        }
        Node::List(items) => {
            let items = shapes_of(body, scope, &items.items)?;
            body.known.at_list(at, &items)
        }
        Node::Rec(r, parts) => {
            let parts = shapes_of(body, scope, &parts.items)?;
            body.known.at_node(at, body.known.record(*r, &parts))
        }
        Node::Field(r, k, a) => {
            let part = shape_of(body, scope, a)?;
            body.known.at_node(at, body.known.field(*r, *k, part))
        }
        Node::Neg(a) | Node::Pow(a, _) => { asked_shape(body, scope, at, a, FlatShape::number()) }
        Node::Not(a) => asked_shape(body, scope, at, a, FlatShape::truth()),
        Node::Arith(_, a, b) => {
            let rule = PairRule::Numbers(FlatShape::number());
            pair_shape(body, scope, at, a, b, rule)
        }
        Node::Compare(_, a, b) => {
            let rule = PairRule::Numbers(FlatShape::truth());
            pair_shape(body, scope, at, a, b, rule)
        }
        Node::And(a, b) | Node::Or(a, b) => { pair_shape(body, scope, at, a, b, PairRule::Truths) }
        Node::Cons(a, b) => pair_shape(body, scope, at, a, b, PairRule::HeadAndTail),
        Node::If(c, a, b) => if_shape(body, scope, at, c, a, b),
        Node::Let(a, b) => let_shape(body, scope, at, a, b),
        Node::Match(l, a, b) => match_shape(body, scope, at, l, a, b),
    }
}

/// The shape that is asked for of the part, at a node at this place.
#[cycle(body)]
fn asked_shape(
    body: &Body,
    scope: &mut Vec<FlatShape>,
    at: u32,
    a: &Expr,
    asked: FlatShape,
) -> Result<FlatShape, ShapeStop>
    requires low { HasLowNotes (expr_tree a.now) }
    ensures found { IsFound result
        (then (known_found body.now.known.now scope.old.items (expr_tree a.now))
        (λ s. at_node (known_records body.now.known.now.records.items) at
        (where_true (same_shape s (flat_shape asked)) (flat_shape asked)))) }
    ensures scope { IfOk result (λ _. scope.new.items ≡ scope.old.items) }
{
    let part = shape_of(body, scope, a)?;
    body.known.at_node(at, itself(part, asked))
}

/// The whole of two parts, by the rule of their node.
#[cycle(body)]
fn pair_shape(
    body: &Body,
    scope: &mut Vec<FlatShape>,
    at: u32,
    a: &Expr,
    b: &Expr,
    rule: PairRule,
) -> Result<FlatShape, ShapeStop>
    requires low { HasLowNotes (expr_tree a.now) × HasLowNotes (expr_tree b.now) }
    ensures found { IsFound result
        (then (known_found body.now.known.now scope.old.items (expr_tree a.now))
        (λ s. then (known_found body.now.known.now scope.old.items (expr_tree b.now))
        (λ t. at_node (known_records body.now.known.now.records.items) at (of_pair rule s t)))) }
    ensures scope { IfOk result (λ _. scope.new.items ≡ scope.old.items) }
{
    let left = shape_of(body, scope, a)?;
    let right = shape_of(body, scope, b)?;
    body.known.at_node(at, of_pair(rule, left, right))
}

/// The shape of a condition and its arms.
#[cycle(body)]
fn if_shape(
    body: &Body,
    scope: &mut Vec<FlatShape>,
    at: u32,
    c: &Expr,
    a: &Expr,
    b: &Expr,
) -> Result<FlatShape, ShapeStop>
    requires low { HasLowNotes (expr_tree c.now) × HasLowNotes (expr_tree a.now) × HasLowNotes (expr_tree b.now) }
    ensures found { IsFound result
        (known_found body.now.known.now scope.old.items (if at (expr_tree c.now) (expr_tree a.now) (expr_tree b.now))) }
    ensures scope { IfOk result (λ _. scope.new.items ≡ scope.old.items) }
{
    let condition = shape_of(body, scope, c)?;
    let first = shape_of(body, scope, a)?;
    let second = shape_of(body, scope, b)?;
    body.known
        .at_node(at, of_condition(condition, first, second))
}

/// The shape of `let`: the second part has one more variable.
#[cycle(body)]
fn let_shape(
    body: &Body,
    scope: &mut Vec<FlatShape>,
    at: u32,
    a: &Expr,
    b: &Expr,
) -> Result<FlatShape, ShapeStop>
    requires low { HasLowNotes (expr_tree a.now) × HasLowNotes (expr_tree b.now) }
    ensures found { IsFound result
        (known_found body.now.known.now scope.old.items (bind at (expr_tree a.now) (expr_tree b.now))) }
    ensures scope { IfOk result (λ _. scope.new.items ≡ scope.old.items) }
{
    let bound = shape_of(body, scope, a)?;
    scope.push(bound)?;
    let whole = shape_of(body, scope, b)?;
    scope.pop();
    body.known.at_node(at, Some(whole))
}

/// The shape of `match` on a list: the last part has two more variables, head and tail.
#[cycle(body)]
fn match_shape(
    body: &Body,
    scope: &mut Vec<FlatShape>,
    at: u32,
    l: &Expr,
    a: &Expr,
    b: &Expr,
) -> Result<FlatShape, ShapeStop>
    requires low { HasLowNotes (expr_tree l.now) × HasLowNotes (expr_tree a.now) × HasLowNotes (expr_tree b.now) }
    ensures found { IsFound result
        (known_found body.now.known.now scope.old.items
        (split at (expr_tree l.now) (expr_tree a.now) (expr_tree b.now))) }
    ensures scope { IfOk result (λ _. scope.new.items ≡ scope.old.items) }
{
    let list = shape_of(body, scope, l)?;
    let item = item_of(at, list)?;
    let empty = shape_of(body, scope, a)?;
    scope.push(item)?;
    scope.push(list)?;
    let full = shape_of(body, scope, b)?;
    scope.pop();
    scope.pop();
    body.known.at_node(at, of_arms(empty, full))
}

/// The shapes of expressions one after another, or their first fault.
#[cycle(body)]
fn shapes_of(
    body: &Body,
    scope: &mut Vec<FlatShape>,
    parts: &[Expr],
) -> Result<Vec<FlatShape>, ShapeStop>
    requires low { HaveLowNotes (in_order (map expr_tree parts.now)) }
    ensures found { AreFound (λ shapes. flat_shapes shapes.items) result
        (all_known_found body.now.known.now scope.old.items (in_order (map expr_tree parts.now))) }
    ensures scope { IfOk result (λ _. scope.new.items ≡ scope.old.items) }
{
    let mut shapes = Vec::new(body.alloc);
    shapes.reserve(parts.len())?;
    for i in 0..parts.len() {
        shapes.push(shape_of(body, scope, &parts[i])?)?;
    }
    Ok(shapes)
}
