// Expressions in other sizes of the base units.
ghost use Rattle.std.specs.Prelude.{◌≡◌, IfOk, map};
ghost use Rattle.um_tree.specs.ExprTree.{expr_tree, expr_trees, in_order};
ghost use Rattle.um_scale.specs.RescaledLiterals.{misfit, first_misfit, rescaled, all_rescaled};

use crate::Scales;
use crate::copies::{copied_note, copied_unit};
use crate::literal::{misfit_at, rescaled_or_left};
use std::alloc::{AllocError, Global};
use std::boxed::Box;
use um_tree::{Expr, Exprs, Node};

/// The place of the first literal, in the order of the text, whose rescaled number is out of range. Takes no memory.
#[cycle(misfit)]
pub fn misfit(e: &Expr, scales: &Scales) -> Option<u32>
    ensures { result ≡ misfit scales.now (expr_tree e.now) }
{
    match &e.node {
        Node::Bool(_) | Node::Local(_) | Node::Nil(_) => None,
        Node::Num(number, note) => misfit_at(e.at, *number, note, scales),
        Node::Call(_, items) | Node::List(items) | Node::Rec(_, items) => {
            first_misfit(&items.items, scales)
        }
        Node::Neg(a) | Node::Not(a) | Node::Pow(a, _) | Node::Field(_, _, a) => misfit(a, scales),
        Node::Arith(_, a, b)
        | Node::Compare(_, a, b)
        | Node::And(a, b)
        | Node::Or(a, b)
        | Node::Let(a, b)
        | Node::Cons(a, b) => misfit(a, scales).or(misfit(b, scales)),
        Node::If(a, b, c) | Node::Match(a, b, c) => {
            misfit(a, scales).or(misfit(b, scales).or(misfit(c, scales)))
        }
    }
}

#[cycle(misfit)]
fn first_misfit(items: &[Expr], scales: &Scales) -> Option<u32>
    ensures { result ≡ first_misfit scales.now (in_order (map expr_tree items.now)) }
{
    let mut found = None;
    for i in (0..items.len()).rev() {
        found = misfit(&items[i], scales).or(found);
    }
    found
}

/// An expression at its place.
fn located(at: u32, node: Node) -> Result<Expr, AllocError>
    ensures { result ≡ Ok (record { at = at; node = node }) }
{
    Ok(Expr { at, node })
}

/// The expression with each literal rescaled whose rescaled number is in range, in memory of its own.
#[cycle(rescaled)]
pub fn rescaled(alloc: Global, e: &Expr, scales: &Scales) -> Result<Expr, AllocError>
    ensures { IfOk result (λ x. expr_tree x ≡ rescaled scales.now (expr_tree e.now)) }
{
    let at = e.at;
    match &e.node {
        Node::Bool(b) => located(at, Node::Bool(*b)),
        Node::Num(number, note) => {
            let scaled = rescaled_or_left(*number, note, scales);
            located(at, Node::Num(scaled, copied_unit(alloc, note)?))
        }
        Node::Local(k) => located(at, Node::Local(*k)),
        Node::Call(f, items) => located(at, Node::Call(*f, listed(alloc, items, scales)?)),
        Node::Neg(a) => located(at, Node::Neg(boxed(alloc, a, scales)?)),
        Node::Not(a) => located(at, Node::Not(boxed(alloc, a, scales)?)),
        Node::Pow(a, k) => located(at, Node::Pow(boxed(alloc, a, scales)?, *k)),
        Node::Arith(op, a, b) => {
            let (a, b) = two(alloc, a, b, scales)?;
            located(at, Node::Arith(*op, a, b))
        }
        Node::Compare(sign, a, b) => {
            let (a, b) = two(alloc, a, b, scales)?;
            located(at, Node::Compare(*sign, a, b))
        }
        Node::And(a, b) => {
            let (a, b) = two(alloc, a, b, scales)?;
            located(at, Node::And(a, b))
        }
        Node::Or(a, b) => {
            let (a, b) = two(alloc, a, b, scales)?;
            located(at, Node::Or(a, b))
        }
        Node::If(c, a, b) => {
            let (c, a, b) = three(alloc, c, a, b, scales)?;
            located(at, Node::If(c, a, b))
        }
        Node::Let(a, b) => {
            let (a, b) = two(alloc, a, b, scales)?;
            located(at, Node::Let(a, b))
        }
        Node::Match(c, a, b) => {
            let (c, a, b) = three(alloc, c, a, b, scales)?;
            located(at, Node::Match(c, a, b))
        }
        Node::Nil(note) => located(at, Node::Nil(copied_note(alloc, note)?)),
        Node::List(items) => located(at, Node::List(listed(alloc, items, scales)?)),
        Node::Cons(a, b) => {
            let (a, b) = two(alloc, a, b, scales)?;
            located(at, Node::Cons(a, b))
        }
        Node::Rec(r, items) => located(at, Node::Rec(*r, listed(alloc, items, scales)?)),
        Node::Field(r, k, a) => located(at, Node::Field(*r, *k, boxed(alloc, a, scales)?)),
    }
}

#[cycle(rescaled)]
fn boxed(alloc: Global, e: &Expr, scales: &Scales) -> Result<Box<Expr>, AllocError>
    ensures { IfOk result (λ x. expr_tree x.value ≡ rescaled scales.now (expr_tree e.now)) }
{
    let e = rescaled(alloc, e, scales)?;
    Ok(Box::new(alloc, e)?)
}

/// Two expressions, the first before the second.
#[cycle(rescaled)]
fn two(
    alloc: Global,
    a: &Expr,
    b: &Expr,
    scales: &Scales,
) -> Result<(Box<Expr>, Box<Expr>), AllocError>
    ensures first { IfOk result (λ parts. expr_tree parts.0.value ≡ rescaled scales.now (expr_tree a.now)) }
    ensures second { IfOk result (λ parts. expr_tree parts.1.value ≡ rescaled scales.now (expr_tree b.now)) }
{
    let first = boxed(alloc, a, scales)?;
    match boxed(alloc, b, scales) {
        Ok(second) => Ok((first, second)),
        Err(stop) => {
            drop(first);
            Err(stop)
        }
    }
}

/// Three expressions, in order.
#[cycle(rescaled)]
fn three(
    alloc: Global,
    a: &Expr,
    b: &Expr,
    c: &Expr,
    scales: &Scales,
) -> Result<(Box<Expr>, Box<Expr>, Box<Expr>), AllocError>
    ensures first { IfOk result (λ parts. expr_tree parts.0.value ≡ rescaled scales.now (expr_tree a.now)) }
    ensures second { IfOk result (λ parts. expr_tree parts.1.value ≡ rescaled scales.now (expr_tree b.now)) }
    ensures third { IfOk result (λ parts. expr_tree parts.2.value ≡ rescaled scales.now (expr_tree c.now)) }
{
    let first = boxed(alloc, a, scales)?;
    match two(alloc, b, c, scales) {
        Ok((second, third)) => Ok((first, second, third)),
        Err(stop) => {
            drop(first);
            Err(stop)
        }
    }
}

/// Expressions in order.
#[cycle(rescaled)]
fn listed(alloc: Global, items: &Exprs, scales: &Scales) -> Result<Exprs, AllocError>
    ensures { IfOk result (λ xs. expr_trees xs ≡ all_rescaled scales.now (expr_trees items.now)) }
{
    let items = each(alloc, &items.items, scales)?;
    Ok(Exprs { items })
}

#[cycle(rescaled)]
fn each(alloc: Global, items: &[Expr], scales: &Scales) -> Result<Vec<Expr>, AllocError>
    ensures { IfOk result (λ xs. map expr_tree xs.items ≡ map (λ e. rescaled scales.now (expr_tree e)) items.now) }
{
    let mut copies = Vec::new(alloc);
    for i in 0..items.len() {
        copies.push(rescaled(alloc, &items[i], scales)?)?;
    }
    Ok(copies)
}
