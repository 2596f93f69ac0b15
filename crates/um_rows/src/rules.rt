//! The rows and the type of a node, from the types of its parts.

ghost use Rattle.std.specs.Prelude.{◌≡◌, [], ◌∷◌, IfOk, IsTrue, map, slice_get};
ghost use Rattle.um_tree.specs.TypeTree.{type_tree, bool_type, num_type};
ghost use Rattle.um_units.specs.Range.{fits};
ghost use Rattle.um_elim.specs.Application.{type_fits};
ghost use Rattle.um_rows.specs.Rules.{formed, mismatch as mismatched, local_rule, negate_rule, not_rule, pown_rule};
ghost use Rattle.um_rows.specs.Rules.{truths_rule, arith_rule, compare_rule, if_rule, split_rule, nil_rule};
ghost use Rattle.um_rows.specs.Rules.{list_rule, cons_rule, number_rule, asks_bool, asks_list};
ghost use Rattle.um_equal_types.specs.Pushed.{ArePushed};
ghost use Rattle.um_rows.specs.Walk.{node};
ghost use Rattle.um_rows.specs.Reached.{IsReached};

use crate::progress::Progress;
use std::alloc::Global;
use um_equal_types::{Row, RowStop, against, against_each, push_never, push_quotient};
use um_frac::Frac;
use um_slots::copied;
use um_tree::{Arith, Ty, UnitNote};
use um_units::{Unit, UnitStop};

/// A part hasn't the shape that the node asks for.
#[tactic(auto, using(crate::proofs::NodeLaws::node_formed, crate::proofs::NodeLaws::node_stops))]
pub(crate) fn mismatch(alloc: Global, at: u32, progress: &mut Progress) -> Result<Ty, RowStop>
    ensures reached { IsReached (node progress.old.rows.items progress.old.holes (mismatched at)) progress.new result }
    ensures fits { IfOk result (λ ty. IsTrue (type_fits (type_tree ty))) }
{
    push_never(alloc, at, &mut progress.rows)?;
    Ok(Ty::Bool)
}

/// Pushes a row that no units satisfy, unless the type is `bool`.
pub(crate) fn ask_bool(alloc: Global, at: u32, ty: &Ty, rows: &mut Vec<Row>) -> Result<(), RowStop>
    ensures { ArePushed (asks_bool at (type_tree ty.now)) rows.old.items rows.new.items result }
{
    match ty {
        Ty::Bool => Ok(()),
        Ty::Num(_) | Ty::List(_) | Ty::Rec(_, _) => push_never(alloc, at, rows),
    }
}

/// Pushes a row that no units satisfy, unless the type is a list.
pub(crate) fn ask_list(alloc: Global, at: u32, ty: &Ty, rows: &mut Vec<Row>) -> Result<(), RowStop>
    ensures { ArePushed (asks_list at (type_tree ty.now)) rows.old.items rows.new.items result }
{
    match ty {
        Ty::List(_) => Ok(()),
        Ty::Bool | Ty::Num(_) | Ty::Rec(_, _) => push_never(alloc, at, rows),
    }
}

/// The type of a variable.
#[inline(never)]
pub(crate) fn local(
    alloc: Global,
    at: u32,
    scope: &[Ty],
    k: u32,
    progress: &mut Progress,
) -> Result<Ty, RowStop>
    ensures reached { IsReached (node progress.old.rows.items progress.old.holes
        (local_rule at (slice_get (map type_tree scope.now) k))) progress.new result }
    ensures fits { IfOk result (λ ty. IsTrue (type_fits (type_tree ty))) }
{
    match scope.get(k as usize) {
        Some(ty) => Ok(copied(alloc, ty)?),
        None => mismatch(alloc, at, progress),
    }
}

/// Unary minus: the unit of its part.
pub(crate) fn negate(
    alloc: Global,
    at: u32,
    part: Ty,
    progress: &mut Progress,
) -> Result<Ty, RowStop>
    requires fits { IsTrue (type_fits (type_tree part)) }
    ensures reached { IsReached (node progress.old.rows.items progress.old.holes (negate_rule at (type_tree part)))
        progress.new result }
    ensures fits { IfOk result (λ ty. IsTrue (type_fits (type_tree ty))) }
{
    match &part {
        Ty::Num(_) => Ok(part),
        Ty::Bool | Ty::List(_) | Ty::Rec(_, _) => mismatch(alloc, at, progress),
    }
}

/// `not`
#[tactic(auto, using(crate::proofs::NodeLaws::node_formed, crate::proofs::NodeLaws::node_stops))]
pub(crate) fn not(alloc: Global, at: u32, part: &Ty, progress: &mut Progress) -> Result<Ty, RowStop>
    ensures reached { IsReached (node progress.old.rows.items progress.old.holes (not_rule at (type_tree part.now)))
        progress.new result }
    ensures fits { IfOk result (λ ty. IsTrue (type_fits (type_tree ty))) }
{
    ask_bool(alloc, at, part, &mut progress.rows)?;
    Ok(Ty::Bool)
}

/// A whole power: the unit of its part, raised.
#[tactic(auto, using(crate::proofs::NodeLaws::node_formed, crate::proofs::NodeLaws::node_stops, crate::proofs::NodeLaws::node_past))]
pub(crate) fn pown(
    alloc: Global,
    at: u32,
    part: Ty,
    k: i32,
    progress: &mut Progress,
) -> Result<Ty, RowStop>
    ensures reached { IsReached (node progress.old.rows.items progress.old.holes (pown_rule at k (type_tree part)))
        progress.new result }
    ensures fits { IfOk result (λ ty. IsTrue (type_fits (type_tree ty))) }
{
    match &part {
        Ty::Num(unit) => match unit.pow(alloc, k) {
            Ok(unit) => Ok(Ty::Num(unit)),
            Err(UnitStop::Range) => Err(RowStop::Range { at }),
            Err(UnitStop::NoMemory) => Err(RowStop::NoMemory),
        },
        Ty::Bool | Ty::List(_) | Ty::Rec(_, _) => mismatch(alloc, at, progress),
    }
}

/// `&&` and `||`
#[tactic(auto, using(crate::proofs::NodeLaws::node_formed, crate::proofs::NodeLaws::node_stops, um_equal_types::proofs::PushLaws::stops_front, um_equal_types::proofs::PushLaws::stops_back, um_equal_types::proofs::PushLaws::behind_then))]
pub(crate) fn truths(
    alloc: Global,
    at: u32,
    left: &Ty,
    right: &Ty,
    progress: &mut Progress,
) -> Result<Ty, RowStop>
    ensures reached { IsReached (node progress.old.rows.items progress.old.holes
        (truths_rule at (type_tree left.now) (type_tree right.now))) progress.new result }
    ensures fits { IfOk result (λ ty. IsTrue (type_fits (type_tree ty))) }
{
    ask_bool(alloc, at, left, &mut progress.rows)?;
    ask_bool(alloc, at, right, &mut progress.rows)?;
    Ok(Ty::Bool)
}

/// A sum, a difference, a product or a quotient.
#[tactic(auto, using(crate::proofs::NodeLaws::node_formed, crate::proofs::NodeLaws::node_stops, crate::proofs::NodeLaws::node_past))]
pub(crate) fn arith(
    alloc: Global,
    at: u32,
    op: Arith,
    left: Ty,
    right: &Ty,
    progress: &mut Progress,
) -> Result<Ty, RowStop>
    requires fits { IsTrue (type_fits (type_tree left)) }
    ensures reached { IsReached (node progress.old.rows.items progress.old.holes
        (arith_rule at op (type_tree left) (type_tree right.now))) progress.new result }
    ensures fits { IfOk result (λ ty. IsTrue (type_fits (type_tree ty))) }
{
    match (&left, right) {
        (Ty::Num(unit), Ty::Num(other)) => match op {
            Arith::Add | Arith::Sub => {
                push_quotient(alloc, at, unit, other, &mut progress.rows)?;
                Ok(left)
            }
            Arith::Mul => match unit.mul(alloc, other) {
                Ok(product) => Ok(Ty::Num(product)),
                Err(UnitStop::Range) => Err(RowStop::Range { at }),
                Err(UnitStop::NoMemory) => Err(RowStop::NoMemory),
            },
            Arith::Div => match unit.mul_pow(alloc, other, -1) {
                Ok(quotient) => Ok(Ty::Num(quotient)),
                Err(UnitStop::Range) => Err(RowStop::Range { at }),
                Err(UnitStop::NoMemory) => Err(RowStop::NoMemory),
            },
        },
        _ => mismatch(alloc, at, progress),
    }
}

/// A comparison.
#[tactic(auto, using(crate::proofs::NodeLaws::node_formed, crate::proofs::NodeLaws::node_stops, um_equal_types::proofs::PushLaws::stops_front, um_equal_types::proofs::PushLaws::stops_back, um_equal_types::proofs::PushLaws::behind_then))]
pub(crate) fn compare(
    alloc: Global,
    at: u32,
    left: &Ty,
    right: &Ty,
    progress: &mut Progress,
) -> Result<Ty, RowStop>
    ensures reached { IsReached (node progress.old.rows.items progress.old.holes
        (compare_rule at (type_tree left.now) (type_tree right.now))) progress.new result }
    ensures fits { IfOk result (λ ty. IsTrue (type_fits (type_tree ty))) }
{
    match (left, right) {
        (Ty::Num(left), Ty::Num(right)) => {
            push_quotient(alloc, at, left, right, &mut progress.rows)?;
            Ok(Ty::Bool)
        }
        _ => mismatch(alloc, at, progress),
    }
}

/// `if`: the first arm against the second.
#[tactic(auto, using(crate::proofs::NodeLaws::node_formed, crate::proofs::NodeLaws::node_stops, um_equal_types::proofs::PushLaws::stops_front, um_equal_types::proofs::PushLaws::stops_back, um_equal_types::proofs::PushLaws::behind_then))]
pub(crate) fn condition(
    alloc: Global,
    at: u32,
    test: &Ty,
    first: Ty,
    second: &Ty,
    progress: &mut Progress,
) -> Result<Ty, RowStop>
    requires fits { IsTrue (type_fits (type_tree first)) }
    ensures reached { IsReached (node progress.old.rows.items progress.old.holes
        (if_rule at (type_tree test.now) (type_tree first) (type_tree second.now))) progress.new result }
    ensures fits { IfOk result (λ ty. IsTrue (type_fits (type_tree ty))) }
{
    ask_bool(alloc, at, test, &mut progress.rows)?;
    against(alloc, at, &first, second, &mut progress.rows)?;
    Ok(first)
}

/// `match`: the empty arm against the full one.
#[tactic(auto, using(crate::proofs::NodeLaws::node_formed, crate::proofs::NodeLaws::node_stops, um_equal_types::proofs::PushLaws::stops_front, um_equal_types::proofs::PushLaws::stops_back, um_equal_types::proofs::PushLaws::behind_then))]
pub(crate) fn split(
    alloc: Global,
    at: u32,
    list: &Ty,
    empty: Ty,
    full: &Ty,
    progress: &mut Progress,
) -> Result<Ty, RowStop>
    requires fits { IsTrue (type_fits (type_tree empty)) }
    ensures reached { IsReached (node progress.old.rows.items progress.old.holes
        (split_rule at (type_tree list.now) (type_tree empty) (type_tree full.now))) progress.new result }
    ensures fits { IfOk result (λ ty. IsTrue (type_fits (type_tree ty))) }
{
    ask_list(alloc, at, list, &mut progress.rows)?;
    against(alloc, at, &empty, full, &mut progress.rows)?;
    Ok(empty)
}

/// The empty list of a written type.
#[tactic(auto, using(crate::proofs::NodeLaws::node_formed, crate::proofs::NodeLaws::node_stops, um_equal_types::proofs::PushLaws::stops_front, um_equal_types::proofs::PushLaws::stops_back, um_equal_types::proofs::PushLaws::behind_then))]
pub(crate) fn nil(alloc: Global, at: u32, ty: Ty, progress: &mut Progress) -> Result<Ty, RowStop>
    requires fits { IsTrue (type_fits (type_tree ty)) }
    ensures reached { IsReached (node progress.old.rows.items progress.old.holes (nil_rule at (type_tree ty)))
        progress.new result }
    ensures fits { IfOk result (λ ty. IsTrue (type_fits (type_tree ty))) }
{
    ask_list(alloc, at, &ty, &mut progress.rows)?;
    Ok(ty)
}

/// `::`: the head against the tail's item.
#[tactic(auto, using(crate::proofs::NodeLaws::node_formed, crate::proofs::NodeLaws::node_stops, um_equal_types::proofs::PushLaws::stops_front, um_equal_types::proofs::PushLaws::stops_back, um_equal_types::proofs::PushLaws::behind_then))]
pub(crate) fn cons(
    alloc: Global,
    at: u32,
    head: &Ty,
    tail: Ty,
    progress: &mut Progress,
) -> Result<Ty, RowStop>
    requires fits { IsTrue (type_fits (type_tree tail)) }
    ensures reached { IsReached (node progress.old.rows.items progress.old.holes
        (cons_rule at (type_tree head.now) (type_tree tail))) progress.new result }
    ensures fits { IfOk result (λ ty. IsTrue (type_fits (type_tree ty))) }
{
    match &tail {
        Ty::List(item) => {
            against(alloc, at, head, item, &mut progress.rows)?;
            Ok(tail)
        }
        Ty::Bool | Ty::Num(_) | Ty::Rec(_, _) => mismatch(alloc, at, progress),
    }
}

/// A list of this item and others: it against each of them.
#[tactic(auto, using(crate::proofs::NodeLaws::node_formed, crate::proofs::NodeLaws::node_stops))]
fn list_from(
    alloc: Global,
    at: u32,
    first: &Ty,
    others: &[Ty],
    progress: &mut Progress,
) -> Result<Ty, RowStop>
    ensures reached { IsReached (node progress.old.rows.items progress.old.holes
        (list_rule at (type_tree first.now ∷ map type_tree others.now))) progress.new result }
    ensures fits { IfOk result (λ ty. IsTrue (type_fits (type_tree ty))) }
{
    against_each(alloc, at, first, others, &mut progress.rows)?;
    let item = copied(alloc, first)?;
    Ok(Ty::List(Box::new(alloc, item)?))
}

/// A list of items: the first against each other.
pub(crate) fn list(
    alloc: Global,
    at: u32,
    items: &[Ty],
    progress: &mut Progress,
) -> Result<Ty, RowStop>
    ensures reached { IsReached (node progress.old.rows.items progress.old.holes
        (list_rule at (map type_tree items.now))) progress.new result }
    ensures fits { IfOk result (λ ty. IsTrue (type_fits (type_tree ty))) }
{
    match items {
        [] => mismatch(alloc, at, progress),
        [first, others @ ..] => list_from(alloc, at, first, others, progress),
    }
}

/// A number: its unit, and a row that no units satisfy if a number other than 0 has a hole.
#[tactic(auto, using(crate::proofs::NodeLaws::node_formed, crate::proofs::NodeLaws::node_stops))]
pub(crate) fn number(
    alloc: Global,
    at: u32,
    value: Frac,
    note: &UnitNote,
    unit: Unit,
    progress: &mut Progress,
) -> Result<Ty, RowStop>
    requires fits { IsTrue (fits unit) }
    ensures reached { IsReached (node progress.old.rows.items progress.old.holes (number_rule at value note.now unit))
        progress.new result }
    ensures fits { IfOk result (λ ty. IsTrue (type_fits (type_tree ty))) }
{
    match note {
        UnitNote::Hole if value.num() != 0 => {
            push_never(alloc, at, &mut progress.rows)?;
            Ok(Ty::Num(unit))
        }
        UnitNote::Hole | UnitNote::Written(_) => Ok(Ty::Num(unit)),
    }
}

/// A node without rows.
#[tactic(auto, using(crate::proofs::NodeLaws::node_formed))]
pub(crate) fn whole(at: u32, ty: Ty, progress: &mut Progress) -> Result<Ty, RowStop>
    requires fits { IsTrue (type_fits (type_tree ty)) }
    ensures reached { IsReached (node progress.old.rows.items progress.old.holes (formed at [] (type_tree ty)))
        progress.new result }
    ensures fits { IfOk result (λ ty. IsTrue (type_fits (type_tree ty))) }
{
    Ok(ty)
}
