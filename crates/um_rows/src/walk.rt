//! The walk over a body: the type of each node and its rows.

ghost use Rattle.std.specs.Prelude.{◌≡◌, [], ◌∷◌, ◌++◌, ◌+◌, IfOk, IsTrue, map};
ghost use Rattle.um_tree.specs.TypeTree.{type_tree};
ghost use Rattle.um_tree.specs.ExprTree.{expr_tree, in_order, call, if, bind, split, list_expr, record_expr};
ghost use Rattle.um_tree.specs.ProgramTree.{record_tree};
ghost use Rattle.um_elim.specs.Application.{type_fits};
ghost use Rattle.um_rows.specs.Rules.{item};
ghost use Rattle.um_rows.specs.Operations.{unary_rule, binary_rule};
ghost use Rattle.um_rows.specs.Walk.{part_node, pair_node};
ghost use Rattle.um_rows.specs.Reached.{IsReached, AreReached, ArePairReached};
ghost use Rattle.um_rows.specs.Body.{body_walk, walk_from, walk_pair_from, walk_all_from, holes_in, all_holes_in};
ghost use Rattle.um_rows.specs.Body.{HasRoom};
ghost use Rattle.um_rows.specs.Kept.{body_kept, kept_from, parts_kept_from, pair_kept_from, all_kept_from, Keeps};

use crate::nodes::keep;
use crate::operations::{Binary, Unary, binary_node, unary_node};
use crate::progress::{Pair, State};
use crate::walker::Walk;
use crate::{calls, leaves, records as values, rules};
use std::alloc::{AllocError, Global};
use um_equal_types::RowStop;
use um_slots::copied;
use um_tree::{Expr, Node, Ty};
use um_uses::record_units;

/// The type of a list's items.
fn item_of(alloc: Global, list: &Ty) -> Result<Ty, AllocError>
    ensures item { IfOk result (λ ty. type_tree ty ≡ item (type_tree list.now)) }
{
    match list {
        Ty::List(item) => copied(alloc, item),
        Ty::Bool | Ty::Num(_) | Ty::Rec(_, _) => Ok(Ty::Bool),
    }
}

/// The type of the expression over slots. Its rows are pushed, and its holes are counted. If the walk keeps the types
/// of nodes, those of the parts and the expression's own are kept.
///
/// If there is a type the scope is as before.
#[cycle(walk)]
#[inline(always)]
pub(crate) fn derive(walk: &Walk, e: &Expr, state: &mut State) -> Result<Ty, RowStop>
    requires room { HasRoom walk.now state.old (holes_in walk.now (expr_tree e.now)) }
    ensures reached { IsReached (walk_from walk.now state.old (expr_tree e.now)) state.new.progress result }
    ensures fits { IfOk result (λ ty. IsTrue (type_fits (type_tree ty))) }
    ensures scope { IfOk result (λ _. state.new.scope.items ≡ state.old.scope.items) }
    ensures kept { IfOk result (λ _. Keeps state.old state.new (kept_from walk.now state.old (expr_tree e.now))) }
{
    if walk.keep {
        return derive_kept(walk, e, state);
    }
    derive_node(walk, e, state)
}

/// The same, if the types of nodes are kept.
#[cycle(walk)]
#[inline(never)]
fn derive_kept(walk: &Walk, e: &Expr, state: &mut State) -> Result<Ty, RowStop>
    requires room { HasRoom walk.now state.old (holes_in walk.now (expr_tree e.now)) }
    ensures reached { IsReached (walk_from walk.now state.old (expr_tree e.now)) state.new.progress result }
    ensures fits { IfOk result (λ ty. IsTrue (type_fits (type_tree ty))) }
    ensures scope { IfOk result (λ _. state.new.scope.items ≡ state.old.scope.items) }
    ensures kept { IfOk result (λ _. Keeps state.old state.new (kept_from walk.now state.old (expr_tree e.now))) }
{
    let ty = derive_node(walk, e, state)?;
    keep(walk.alloc, walk.keep, e.at, ty, &mut state.kept)
}

/// The type of the expression over slots, of whose nodes those of the parts alone are kept.
// What has parts is a function of its own, not inlined, so that a node sets no locals of the others to nothing.
#[cycle(walk)]
fn derive_node(walk: &Walk, e: &Expr, state: &mut State) -> Result<Ty, RowStop>
    requires room { HasRoom walk.now state.old (holes_in walk.now (expr_tree e.now)) }
    ensures reached { IsReached (walk_from walk.now state.old (expr_tree e.now)) state.new.progress result }
    ensures fits { IfOk result (λ ty. IsTrue (type_fits (type_tree ty))) }
    ensures scope { IfOk result (λ _. state.new.scope.items ≡ state.old.scope.items) }
    ensures kept { IfOk result (λ _. Keeps state.old state.new
        (parts_kept_from walk.now state.old (expr_tree e.now))) }
{
    let alloc = walk.alloc;
    let at = e.at;
    match &e.node {
        Node::Bool(_) => rules::whole(at, Ty::Bool, &mut state.progress),
        Node::Num(value, note) => leaves::number(
            alloc,
            &walk.context,
            at,
            *value,
            note,
            &mut state.progress,
        ),
        Node::Local(k) => rules::local(alloc, at, &state.scope, *k, &mut state.progress),
        Node::Nil(note) => leaves::nil(alloc, &walk.context, at, note, &mut state.progress),
        Node::Call(j, es) => derive_call(walk, at, *j, &es.items, state),
        Node::List(es) => derive_list(walk, at, &es.items, state),
        Node::Rec(r, es) => derive_record(walk, at, *r, &es.items, state),
        Node::Neg(a) => derive_unary(walk, at, Unary::Negate, a, state),
        Node::Not(a) => derive_unary(walk, at, Unary::Not, a, state),
        Node::Pow(a, k) => derive_unary(walk, at, Unary::Power(*k), a, state),
        Node::Field(r, k, a) => derive_unary(walk, at, Unary::Field(*r, *k), a, state),
        Node::Arith(op, a, b) => derive_binary(walk, at, Binary::Arith(*op), a, b, state),
        Node::Compare(_, a, b) => derive_binary(walk, at, Binary::Compare, a, b, state),
        Node::And(a, b) => derive_binary(walk, at, Binary::Truths, a, b, state),
        Node::Or(a, b) => derive_binary(walk, at, Binary::Truths, a, b, state),
        Node::Cons(a, b) => derive_binary(walk, at, Binary::Cons, a, b, state),
        Node::If(c, a, b) => derive_if(walk, at, c, a, b, state),
        Node::Let(a, b) => derive_let(walk, at, a, b, state),
        Node::Match(l, a, b) => derive_match(walk, at, l, a, b, state),
    }
}

/// The type of an operation on one part.
#[cycle(walk)]
#[inline(never)]
fn derive_unary(walk: &Walk, at: u32, op: Unary, a: &Expr, state: &mut State) -> Result<Ty, RowStop>
    requires room { HasRoom walk.now state.old (holes_in walk.now (expr_tree a.now)) }
    ensures reached { IsReached (part_node (walk_from walk.now state.old (expr_tree a.now))
        (λ t. unary_rule (map record_tree walk.now.records.now) at op t)) state.new.progress result }
    ensures fits { IfOk result (λ ty. IsTrue (type_fits (type_tree ty))) }
    ensures scope { IfOk result (λ _. state.new.scope.items ≡ state.old.scope.items) }
    ensures kept { IfOk result (λ _. Keeps state.old state.new
        (kept_from walk.now state.old (expr_tree a.now))) }
{
    let part = derive(walk, a, state)?;
    unary_node(walk, at, op, part, &mut state.progress)
}

/// The type of an operation on two parts.
#[cycle(walk)]
#[inline(never)]
fn derive_binary(
    walk: &Walk,
    at: u32,
    op: Binary,
    a: &Expr,
    b: &Expr,
    state: &mut State,
) -> Result<Ty, RowStop>
    requires room { HasRoom walk.now state.old
        (holes_in walk.now (expr_tree a.now) + holes_in walk.now (expr_tree b.now)) }
    ensures reached { IsReached (pair_node (walk_pair_from walk.now state.old (expr_tree a.now) (expr_tree b.now))
        (λ s t. binary_rule at op s t)) state.new.progress result }
    ensures fits { IfOk result (λ ty. IsTrue (type_fits (type_tree ty))) }
    ensures scope { IfOk result (λ _. state.new.scope.items ≡ state.old.scope.items) }
    ensures kept { IfOk result (λ _. Keeps state.old state.new
        (pair_kept_from walk.now state.old (expr_tree a.now) (expr_tree b.now))) }
{
    let parts = derive_pair(walk, a, b, state)?;
    binary_node(walk.alloc, at, op, parts, &mut state.progress)
}

/// The types of two parts, one after the other.
#[cycle(walk)]
#[inline(always)]
fn derive_pair(walk: &Walk, a: &Expr, b: &Expr, state: &mut State) -> Result<Pair, RowStop>
    requires room { HasRoom walk.now state.old
        (holes_in walk.now (expr_tree a.now) + holes_in walk.now (expr_tree b.now)) }
    ensures reached { ArePairReached (walk_pair_from walk.now state.old (expr_tree a.now) (expr_tree b.now))
        state.new.progress result }
    ensures first_fits { IfOk result (λ ts. IsTrue (type_fits (type_tree ts.first))) }
    ensures second_fits { IfOk result (λ ts. IsTrue (type_fits (type_tree ts.second))) }
    ensures scope { IfOk result (λ _. state.new.scope.items ≡ state.old.scope.items) }
    ensures kept { IfOk result (λ _. Keeps state.old state.new
        (pair_kept_from walk.now state.old (expr_tree a.now) (expr_tree b.now))) }
{
    let first = derive(walk, a, state)?;
    match derive(walk, b, state) {
        Ok(second) => Ok(Pair { first, second }),
        Err(stop) => {
            drop(first);
            Err(stop)
        }
    }
}

/// The type of a condition and its arms.
#[cycle(walk)]
#[inline(never)]
fn derive_if(
    walk: &Walk,
    at: u32,
    c: &Expr,
    a: &Expr,
    b: &Expr,
    state: &mut State,
) -> Result<Ty, RowStop>
    requires room { HasRoom walk.now state.old
        (holes_in walk.now (if at (expr_tree c.now) (expr_tree a.now) (expr_tree b.now))) }
    ensures reached { IsReached (walk_from walk.now state.old
        (if at (expr_tree c.now) (expr_tree a.now) (expr_tree b.now)))
        state.new.progress result }
    ensures fits { IfOk result (λ ty. IsTrue (type_fits (type_tree ty))) }
    ensures scope { IfOk result (λ _. state.new.scope.items ≡ state.old.scope.items) }
    ensures kept { IfOk result (λ _. Keeps state.old state.new
        (parts_kept_from walk.now state.old (if at (expr_tree c.now) (expr_tree a.now) (expr_tree b.now)))) }
{
    let test = derive(walk, c, state)?;
    match derive_pair(walk, a, b, state) {
        Ok(Pair { first, second }) => {
            let progress = &mut state.progress;
            let whole = rules::condition(walk.alloc, at, &test, first, &second, progress);
            drop(test);
            drop(second);
            whole
        }
        Err(stop) => {
            drop(test);
            Err(stop)
        }
    }
}

/// The type of `let`: the second part has one more variable.
#[cycle(walk)]
#[inline(never)]
fn derive_let(walk: &Walk, at: u32, a: &Expr, b: &Expr, state: &mut State) -> Result<Ty, RowStop>
    requires room { HasRoom walk.now state.old (holes_in walk.now (bind at (expr_tree a.now) (expr_tree b.now))) }
    ensures reached { IsReached (walk_from walk.now state.old (bind at (expr_tree a.now) (expr_tree b.now)))
        state.new.progress result }
    ensures fits { IfOk result (λ ty. IsTrue (type_fits (type_tree ty))) }
    ensures scope { IfOk result (λ _. state.new.scope.items ≡ state.old.scope.items) }
    ensures kept { IfOk result (λ _. Keeps state.old state.new
        (parts_kept_from walk.now state.old (bind at (expr_tree a.now) (expr_tree b.now)))) }
{
    let bound = derive(walk, a, state)?;
    state.scope.push(bound)?;
    let whole = derive(walk, b, state)?;
    drop(state.scope.pop());
    rules::whole(at, whole, &mut state.progress)
}

/// The type of `match` on a list.
#[cycle(walk)]
#[inline(never)]
fn derive_match(
    walk: &Walk,
    at: u32,
    l: &Expr,
    a: &Expr,
    b: &Expr,
    state: &mut State,
) -> Result<Ty, RowStop>
    requires room { HasRoom walk.now state.old
        (holes_in walk.now (split at (expr_tree l.now) (expr_tree a.now) (expr_tree b.now))) }
    ensures reached { IsReached (walk_from walk.now state.old
        (split at (expr_tree l.now) (expr_tree a.now) (expr_tree b.now)))
        state.new.progress result }
    ensures fits { IfOk result (λ ty. IsTrue (type_fits (type_tree ty))) }
    ensures scope { IfOk result (λ _. state.new.scope.items ≡ state.old.scope.items) }
    ensures kept { IfOk result (λ _. Keeps state.old state.new
        (parts_kept_from walk.now state.old (split at (expr_tree l.now) (expr_tree a.now) (expr_tree b.now)))) }
{
    let Pair {
        first: list,
        second: empty,
    } = derive_pair(walk, l, a, state)?;
    match derive_full(walk, &list, b, state) {
        Ok(full) => {
            let whole = rules::split(walk.alloc, at, &list, empty, &full, &mut state.progress);
            drop(list);
            drop(full);
            whole
        }
        Err(stop) => {
            drop(list);
            drop(empty);
            Err(stop)
        }
    }
}

/// The type of the full arm of a `match` on the list: it has two more variables, head and tail.
#[cycle(walk)]
fn derive_full(walk: &Walk, list: &Ty, e: &Expr, state: &mut State) -> Result<Ty, RowStop>
    requires room { HasRoom walk.now state.old (holes_in walk.now (expr_tree e.now)) }
    ensures reached { IsReached (body_walk walk.now.records.now walk.now.schemes.now walk.now.context
        state.old.progress.rows.items state.old.progress.holes (map type_tree state.old.scope.items
        ++ item (type_tree list.now) ∷ type_tree list.now ∷ []) (expr_tree e.now)) state.new.progress result }
    ensures fits { IfOk result (λ ty. IsTrue (type_fits (type_tree ty))) }
    ensures scope { IfOk result (λ _. state.new.scope.items ≡ state.old.scope.items) }
    ensures kept { IfOk result (λ _. Keeps state.old state.new
        (body_kept walk.now.keep walk.now.records.now walk.now.schemes.now walk.now.context
        state.old.progress.rows.items state.old.progress.holes (map type_tree state.old.scope.items
        ++ item (type_tree list.now) ∷ type_tree list.now ∷ []) (expr_tree e.now))) }
{
    let head = item_of(walk.alloc, list)?;
    state.scope.push(head)?;
    let tail = copied(walk.alloc, list)?;
    state.scope.push(tail)?;
    let full = derive(walk, e, state)?;
    drop(state.scope.pop());
    drop(state.scope.pop());
    Ok(full)
}

/// The type of a call of function j.
#[cycle(walk)]
#[inline(never)]
fn derive_call(
    walk: &Walk,
    at: u32,
    j: u32,
    parts: &[Expr],
    state: &mut State,
) -> Result<Ty, RowStop>
    requires room { HasRoom walk.now state.old (holes_in walk.now (call at j (in_order (map expr_tree parts.now)))) }
    ensures reached { IsReached (walk_from walk.now state.old (call at j (in_order (map expr_tree parts.now))))
        state.new.progress result }
    ensures fits { IfOk result (λ ty. IsTrue (type_fits (type_tree ty))) }
    ensures scope { IfOk result (λ _. state.new.scope.items ≡ state.old.scope.items) }
    ensures kept { IfOk result (λ _. Keeps state.old state.new
        (parts_kept_from walk.now state.old (call at j (in_order (map expr_tree parts.now))))) }
{
    let first = state.progress.holes;
    state.progress.holes += calls::open_units(walk, j);
    let types = derive_all(walk, parts, state)?;
    let whole = calls::call(walk, at, first, j, &types, &mut state.progress);
    drop(types);
    whole
}

/// The type of a list of these items.
#[cycle(walk)]
#[inline(never)]
fn derive_list(walk: &Walk, at: u32, parts: &[Expr], state: &mut State) -> Result<Ty, RowStop>
    requires room { HasRoom walk.now state.old (holes_in walk.now (list_expr at (in_order (map expr_tree parts.now)))) }
    ensures reached { IsReached (walk_from walk.now state.old (list_expr at (in_order (map expr_tree parts.now))))
        state.new.progress result }
    ensures fits { IfOk result (λ ty. IsTrue (type_fits (type_tree ty))) }
    ensures scope { IfOk result (λ _. state.new.scope.items ≡ state.old.scope.items) }
    ensures kept { IfOk result (λ _. Keeps state.old state.new
        (parts_kept_from walk.now state.old (list_expr at (in_order (map expr_tree parts.now))))) }
{
    let types = derive_all(walk, parts, state)?;
    let whole = rules::list(walk.alloc, at, &types, &mut state.progress);
    drop(types);
    whole
}

/// The type of a value of record r with these fields.
#[cycle(walk)]
#[inline(never)]
fn derive_record(
    walk: &Walk,
    at: u32,
    r: u32,
    parts: &[Expr],
    state: &mut State,
) -> Result<Ty, RowStop>
    requires room { HasRoom walk.now state.old
        (holes_in walk.now (record_expr at r (in_order (map expr_tree parts.now)))) }
    ensures reached { IsReached (walk_from walk.now state.old (record_expr at r (in_order (map expr_tree parts.now))))
        state.new.progress result }
    ensures fits { IfOk result (λ ty. IsTrue (type_fits (type_tree ty))) }
    ensures scope { IfOk result (λ _. state.new.scope.items ≡ state.old.scope.items) }
    ensures kept { IfOk result (λ _. Keeps state.old state.new
        (parts_kept_from walk.now state.old (record_expr at r (in_order (map expr_tree parts.now))))) }
{
    let first = state.progress.holes;
    state.progress.holes += record_units(walk.records, r);
    let types = derive_all(walk, parts, state)?;
    let whole = values::record(walk, at, first, r, &types, &mut state.progress);
    drop(types);
    whole
}

/// The types of expressions one after another.
#[cycle(walk)]
fn derive_all(walk: &Walk, parts: &[Expr], state: &mut State) -> Result<Vec<Ty>, RowStop>
    requires room { HasRoom walk.now state.old (all_holes_in walk.now (in_order (map expr_tree parts.now))) }
    ensures reached { AreReached (λ types. map type_tree types.items)
        (walk_all_from walk.now state.old (in_order (map expr_tree parts.now))) state.new.progress result }
    ensures scope { IfOk result (λ _. state.new.scope.items ≡ state.old.scope.items) }
    ensures kept { IfOk result (λ _. Keeps state.old state.new
        (all_kept_from walk.now state.old (in_order (map expr_tree parts.now)))) }
{
    let mut types = Vec::new(walk.alloc);
    types.reserve(parts.len())?;
    for i in 0..parts.len() {
        types.push(derive(walk, &parts[i], state)?)?;
    }
    Ok(types)
}
