//! The walk over a body for its agreements.

ghost use Rattle.std.specs.Prelude.{◌≡◌, ◌++◌, ◌+◌, IfOk, OnOk, map};
ghost use Rattle.um_tree.specs.ExprTree.{expr_tree, in_order};
ghost use Rattle.um_agree.specs.Asked.{rule_of, count, parts_count, all_count, ends_of};
ghost use Rattle.um_agree.specs.Asked.{asked_in, pair_asked, each_asked, all_asked};

use crate::found::{Each, Found};
use crate::rule::Rule;
use std::alloc::{AllocError, Global};
use um_tree::{Arith, Expr, Node};

/// The rule of a node whose last two parts must have the same type.
fn rule_of(e: &Expr) -> Option<Rule>
    ensures { result ≡ rule_of (expr_tree e.now) }
{
    match &e.node {
        Node::Arith(Arith::Add, _, _) => Some(Rule::Sum),
        Node::Arith(Arith::Sub, _, _) => Some(Rule::Difference),
        Node::Compare(_, _, _) => Some(Rule::Comparison),
        Node::If(_, _, _) => Some(Rule::Branches),
        Node::Match(_, _, _) => Some(Rule::Arms),
        Node::Cons(_, _) => Some(Rule::Head),
        Node::Arith(Arith::Mul, _, _)
        | Node::Arith(Arith::Div, _, _)
        | Node::Bool(_)
        | Node::Num(_, _)
        | Node::Local(_)
        | Node::Nil(_)
        | Node::Neg(_)
        | Node::Not(_)
        | Node::Pow(_, _)
        | Node::Field(_, _, _)
        | Node::And(_, _)
        | Node::Or(_, _)
        | Node::Let(_, _)
        | Node::Call(_, _)
        | Node::List(_)
        | Node::Rec(_, _) => None,
    }
}

/// Adds the agreements of the expression and counts its nodes. The answer is the number of its own node.
#[cycle(walk)]
pub(crate) fn ask(alloc: Global, e: &Expr, found: &mut Found) -> Result<usize, AllocError>
    ensures asked { IfOk result (λ _. found.new.asked.items ≡ found.old.asked.items
        ++ asked_in found.old.nodes (expr_tree e.now)) }
    ensures nodes { IfOk result (λ _. found.new.nodes ≡ found.old.nodes + count (expr_tree e.now)) }
    ensures own { IfOk result (λ own. own ≡ found.old.nodes + parts_count (expr_tree e.now)) }
{
    ask_parts(alloc, e, found)?;
    found.count_node()
}

/// Adds the agreements of the expression and counts the nodes of its parts.
#[cycle(walk)]
fn ask_parts(alloc: Global, e: &Expr, found: &mut Found) -> Result<(), AllocError>
    ensures asked { OnOk result (found.new.asked.items ≡ found.old.asked.items
        ++ asked_in found.old.nodes (expr_tree e.now)) }
    ensures nodes { OnOk result (found.new.nodes ≡ found.old.nodes + parts_count (expr_tree e.now)) }
{
    let at = e.at;
    match &e.node {
        Node::Bool(_) | Node::Num(_, _) | Node::Local(_) | Node::Nil(_) => Ok(()),
        Node::Neg(a) | Node::Not(a) | Node::Pow(a, _) | Node::Field(_, _, a) => ask_one(
            alloc, a, found,
        ),
        Node::Arith(_, a, b)
        | Node::Compare(_, a, b)
        | Node::And(a, b)
        | Node::Or(a, b)
        | Node::Let(a, b)
        | Node::Cons(a, b) => ask_pair(alloc, rule_of(e), at, a, b, found),
        Node::If(c, a, b) | Node::Match(c, a, b) => {
            ask(alloc, c, found)?;
            ask_pair(alloc, rule_of(e), at, a, b, found)
        }
        Node::Call(j, es) => ask_each(alloc, Each::Argument(*j), at, &es.items, found),
        Node::List(es) => ask_each(alloc, Each::Item, at, &es.items, found),
        Node::Rec(r, es) => ask_each(alloc, Each::Part(*r), at, &es.items, found),
    }
}

/// Adds the agreements of a part and counts its nodes.
#[cycle(walk)]
fn ask_one(alloc: Global, e: &Expr, found: &mut Found) -> Result<(), AllocError>
    ensures asked { OnOk result (found.new.asked.items ≡ found.old.asked.items
        ++ asked_in found.old.nodes (expr_tree e.now)) }
    ensures nodes { OnOk result (found.new.nodes ≡ found.old.nodes + count (expr_tree e.now)) }
{
    ask(alloc, e, found)?;
    Ok(())
}

/// Adds the agreements of two parts and that of their node, if a rule asks for one, and counts the nodes of the parts.
#[cycle(walk)]
fn ask_pair(
    alloc: Global,
    rule: Option<Rule>,
    at: u32,
    a: &Expr,
    b: &Expr,
    found: &mut Found,
) -> Result<(), AllocError>
    ensures asked { OnOk result (found.new.asked.items ≡ found.old.asked.items
        ++ pair_asked found.old.nodes rule at (expr_tree a.now) (expr_tree b.now)) }
    ensures nodes { OnOk result (found.new.nodes ≡ found.old.nodes
        + (count (expr_tree a.now) + count (expr_tree b.now))) }
{
    ask(alloc, a, found)?;
    let node = ask(alloc, b, found)?;
    found.push(rule, at, node)
}

/// Adds the agreements of some parts and those of their node, and counts the nodes of the parts.
#[cycle(walk)]
fn ask_each(
    alloc: Global,
    each: Each,
    at: u32,
    parts: &[Expr],
    found: &mut Found,
) -> Result<(), AllocError>
    ensures asked { OnOk result (found.new.asked.items ≡ found.old.asked.items
        ++ each_asked found.old.nodes each at (in_order (map expr_tree parts.now))) }
    ensures nodes { OnOk result (found.new.nodes ≡ found.old.nodes + all_count (in_order (map expr_tree parts.now))) }
{
    let ends = ask_all(alloc, parts, found)?;
    found.push_each(each, at, &ends)
}

/// Adds the agreements of some parts and counts their nodes. The answer has the number of each part's own node.
#[cycle(walk)]
fn ask_all(alloc: Global, parts: &[Expr], found: &mut Found) -> Result<Vec<usize>, AllocError>
    ensures asked { IfOk result (λ _. found.new.asked.items ≡ found.old.asked.items
        ++ all_asked found.old.nodes (in_order (map expr_tree parts.now))) }
    ensures nodes { IfOk result (λ _. found.new.nodes ≡ found.old.nodes
        + all_count (in_order (map expr_tree parts.now))) }
    ensures ends { IfOk result (λ ends. ends.items ≡ ends_of found.old.nodes (in_order (map expr_tree parts.now))) }
{
    let mut ends = Vec::new(alloc);
    for i in 0..parts.len() {
        ends.push(ask(alloc, &parts[i], found)?)?;
    }
    Ok(ends)
}
