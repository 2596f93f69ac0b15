//! The shape of an expression, or what is told of it.
ghost use Rattle.std.specs.Prelude.{◌≡◌, IfOk, map};
ghost use Rattle.um_tree.specs.TypeTree.{list_shape};
ghost use Rattle.um_tree.specs.ExprTree.{expr_tree, in_order, if, bind, split};
ghost use Rattle.um_mismatch.specs.NodeRules.{list_item, of_one, items_of};
ghost use Rattle.um_mismatch.specs.ShapeDetails.{then, at_node};
ghost use Rattle.um_mismatch.specs.FlatShapes.{flat_shape, flat_shapes, rule_result, of_pair};
ghost use Rattle.um_mismatch.specs.FlatShapes.{known_told, all_known_told};
ghost use Rattle.um_mismatch.specs.Answers.{IsFound, AreFound};

use crate::flat::FlatShape;
use crate::kind::Kind;
use crate::known::Known;
use crate::mismatch::{Mismatch, Stop, Told};
use crate::rules::{PairRule, of_condition, of_equal, of_items, of_nil, of_one, of_pair, shape_at};
use std::alloc::Global;
use um_agree::Rule;
use um_tree::{Expr, Node};

/// What stays the same while the body of the function of this number is looked at.
#[derive(Drop)]
pub(crate) struct Body<'a> {
    pub(crate) alloc: Global,
    pub(crate) known: &'a Known,
    pub(crate) function: usize,
}

/// What is found at a node of this function whose rule gives this.
pub(crate) fn at_node(
    function: usize,
    at: u32,
    rule: Result<FlatShape, Mismatch>,
) -> Result<FlatShape, Stop>
    ensures { IsFound result (at_node function at (rule_result rule)) }
{
    match rule {
        Ok(shape) => Ok(shape),
        Err(mismatch) => Err(Stop::Told(Told {
            function,
            at,
            mismatch,
        })),
    }
}

/// The shape of the items of a list that is split at a node of this function.
fn item_at(function: usize, at: u32, list: FlatShape) -> Result<FlatShape, Stop>
    ensures found { IsFound result
        (at_node function at (items_of (flat_shape list) (list_item (flat_shape list)))) }
    ensures list { IfOk result (λ item. flat_shape list ≡ list_shape (flat_shape item)) }
{
    match list.list_item() {
        Some(item) => Ok(item),
        None => Err(Stop::Told(Told {
            function,
            at,
            mismatch: Mismatch::Unexpected(Kind::List, list),
        })),
    }
}

/// The shape of the expression, if the variables of the scope have these shapes, or what is told of it.
///
/// The scope is as before if there is a shape.
#[cycle(body)]
pub(crate) fn shape_of(body: &Body, scope: &mut Vec<FlatShape>, e: &Expr) -> Result<FlatShape, Stop>
    ensures found { IsFound result (known_told body.now.function body.now.known.now scope.old.items (expr_tree e.now)) }
    ensures scope { IfOk result (λ _. scope.new.items ≡ scope.old.items) }
{
    let at = e.at;
    let i = body.function;
    match &e.node {
        Node::Bool(_) => Ok(FlatShape::truth()),
        Node::Num(_, _) => Ok(FlatShape::number()),
        Node::Local(k) => at_node(i, at, shape_at(scope, *k)),
        Node::Nil(note) => at_node(i, at, of_nil(FlatShape::of_note(note)?)),
        Node::Call(f, arguments) => {
            let arguments = shapes_of(body, scope, &arguments.items)?;
            at_node(i, at, body.known.call(*f, &arguments))
        }
        Node::List(items) => {
            let items = shapes_of(body, scope, &items.items)?;
            at_node(i, at, of_items(&items)?)
        }
        Node::Rec(r, parts) => {
            let parts = shapes_of(body, scope, &parts.items)?;
            at_node(i, at, body.known.record(*r, &parts))
        }
        Node::Field(r, k, a) => {
            let part = shape_of(body, scope, a)?;
            at_node(i, at, body.known.field(*r, *k, part))
        }
        Node::Neg(a) | Node::Pow(a, _) => {
            asked_shape(body, scope, at, a, Kind::Number, FlatShape::number())
        }
        Node::Not(a) => asked_shape(body, scope, at, a, Kind::Truth, FlatShape::truth()),
        Node::Arith(_, a, b) => {
            let rule = PairRule::Numbers(FlatShape::number());
            pair_shape(body, scope, at, a, b, rule)
        }
        Node::Compare(_, a, b) => {
            let rule = PairRule::Numbers(FlatShape::truth());
            pair_shape(body, scope, at, a, b, rule)
        }
        Node::And(a, b) | Node::Or(a, b) => pair_shape(body, scope, at, a, b, PairRule::Truths),
        Node::Cons(a, b) => pair_shape(body, scope, at, a, b, PairRule::HeadAndTail),
        Node::If(c, a, b) => if_shape(body, scope, at, c, a, b),
        Node::Let(a, b) => let_shape(body, scope, at, a, b),
        Node::Match(l, a, b) => match_shape(body, scope, at, l, a, b),
    }
}

/// The shape that is asked for of the part of this kind, at a node at this place.
#[cycle(body)]
fn asked_shape(
    body: &Body,
    scope: &mut Vec<FlatShape>,
    at: u32,
    a: &Expr,
    kind: Kind,
    asked: FlatShape,
) -> Result<FlatShape, Stop>
    ensures found { IsFound result
        (then (known_told body.now.function body.now.known.now scope.old.items (expr_tree a.now))
        (λ s. at_node body.now.function at (of_one kind (flat_shape asked) s))) }
    ensures scope { IfOk result (λ _. scope.new.items ≡ scope.old.items) }
{
    let part = shape_of(body, scope, a)?;
    at_node(body.function, at, of_one(kind, asked, part))
}

/// The whole of two parts, by the rule of their node.
#[cycle(body)]
fn pair_shape(
    body: &Body,
    scope: &mut Vec<FlatShape>,
    at: u32,
    a: &Expr,
    b: &Expr,
    rule: PairRule,
) -> Result<FlatShape, Stop>
    ensures found { IsFound result
        (then (known_told body.now.function body.now.known.now scope.old.items (expr_tree a.now))
        (λ s. then (known_told body.now.function body.now.known.now scope.old.items (expr_tree b.now))
        (λ t. at_node body.now.function at (of_pair rule s t)))) }
    ensures scope { IfOk result (λ _. scope.new.items ≡ scope.old.items) }
{
    let left = shape_of(body, scope, a)?;
    let right = shape_of(body, scope, b)?;
    at_node(body.function, at, of_pair(rule, left, right))
}

/// The shape of a condition and its branches.
#[cycle(body)]
fn if_shape(
    body: &Body,
    scope: &mut Vec<FlatShape>,
    at: u32,
    c: &Expr,
    a: &Expr,
    b: &Expr,
) -> Result<FlatShape, Stop>
    ensures found { IsFound result
        (known_told body.now.function body.now.known.now scope.old.items
        (if at (expr_tree c.now) (expr_tree a.now) (expr_tree b.now))) }
    ensures scope { IfOk result (λ _. scope.new.items ≡ scope.old.items) }
{
    let condition = shape_of(body, scope, c)?;
    let first = shape_of(body, scope, a)?;
    let second = shape_of(body, scope, b)?;
    at_node(body.function, at, of_condition(condition, first, second))
}

/// The shape of `let`: the second part has one more variable.
#[cycle(body)]
fn let_shape(
    body: &Body,
    scope: &mut Vec<FlatShape>,
    at: u32,
    a: &Expr,
    b: &Expr,
) -> Result<FlatShape, Stop>
    ensures found { IsFound result
        (known_told body.now.function body.now.known.now scope.old.items
        (bind at (expr_tree a.now) (expr_tree b.now))) }
    ensures scope { IfOk result (λ _. scope.new.items ≡ scope.old.items) }
{
    let bound = shape_of(body, scope, a)?;
    scope.push(bound)?;
    let whole = shape_of(body, scope, b)?;
    scope.pop();
    Ok(whole)
}

/// The shape of `match` on a list: the last part has two more variables, head and tail.
#[cycle(body)]
fn match_shape(
    body: &Body,
    scope: &mut Vec<FlatShape>,
    at: u32,
    l: &Expr,
    a: &Expr,
    b: &Expr,
) -> Result<FlatShape, Stop>
    ensures found { IsFound result
        (known_told body.now.function body.now.known.now scope.old.items
        (split at (expr_tree l.now) (expr_tree a.now) (expr_tree b.now))) }
    ensures scope { IfOk result (λ _. scope.new.items ≡ scope.old.items) }
{
    let list = shape_of(body, scope, l)?;
    let item = item_at(body.function, at, list)?;
    let empty = shape_of(body, scope, a)?;
    scope.push(item)?;
    scope.push(list)?;
    let full = shape_of(body, scope, b)?;
    scope.pop();
    scope.pop();
    at_node(body.function, at, of_equal(Rule::Arms, empty, full))
}

/// The shapes of expressions one after another, or what is told of them.
#[cycle(body)]
fn shapes_of(
    body: &Body,
    scope: &mut Vec<FlatShape>,
    parts: &[Expr],
) -> Result<Vec<FlatShape>, Stop>
    ensures found { AreFound (λ shapes. flat_shapes shapes.items) result
        (all_known_told body.now.function body.now.known.now scope.old.items (in_order (map expr_tree parts.now))) }
    ensures scope { IfOk result (λ _. scope.new.items ≡ scope.old.items) }
{
    let mut shapes = Vec::new(body.alloc);
    for i in 0..parts.len() {
        shapes.push(shape_of(body, scope, &parts[i])?)?;
    }
    Ok(shapes)
}
