//! The rows of two types that must be equal.

ghost use Rattle.std.specs.Prelude.{◌≡◌, [], ◌∷◌, IfOk, map};
ghost use Rattle.um_units.specs.PowerMap.{mul, inv};
ghost use Rattle.um_units.specs.Range.{fits, RangeUnless};
ghost use Rattle.um_tree.specs.TypeTree.{type_tree};
ghost use Rattle.um_equal_types.specs.Against.{never, unit_against, units_against, against as against_steps};
ghost use Rattle.um_equal_types.specs.Against.{types_against as types_against_steps};
ghost use Rattle.um_equal_types.specs.Against.{against_each as against_each_steps};
ghost use Rattle.um_equal_types.specs.Pushed.{ArePushed};

use crate::row::{Row, RowStop};
use std::alloc::Global;
use um_tree::Ty;
use um_units::{Atom, Unit, UnitStop};

// A unit of more terms has them in memory of its own, and a product with it takes many times as long as a look at both.
const SHORT: usize = 2;

/// The first unit over the second.
fn quotient(alloc: Global, left: &Unit, right: &Unit) -> Result<Unit, UnitStop>
    ensures exact { IfOk result (λ unit. unit ≡ mul left.now (inv right.now)) }
    ensures range { RangeUnless result (fits (mul left.now (inv right.now))) }
{
    if left.terms().len() > SHORT && left.same(right) {
        return Ok(Unit::one(alloc));
    }
    left.mul_pow(alloc, right, -1)
}

/// Pushes the row of two units: the first over the second.
pub fn push_quotient(
    alloc: Global,
    at: u32,
    left: &Unit,
    right: &Unit,
    rows: &mut Vec<Row>,
) -> Result<(), RowStop>
    ensures { ArePushed (unit_against at left.now right.now ∷ []) rows.old.items rows.new.items result }
{
    match quotient(alloc, left, right) {
        Ok(unit) => {
            rows.push(Row { at, unit })?;
            Ok(())
        }
        Err(UnitStop::Range) => Err(RowStop::Range { at }),
        Err(UnitStop::NoMemory) => Err(RowStop::NoMemory),
    }
}

/// Pushes a row that no units satisfy.
pub fn push_never(alloc: Global, at: u32, rows: &mut Vec<Row>) -> Result<(), RowStop>
    ensures { ArePushed (never at) rows.old.items rows.new.items result }
{
    let unit = Unit::atom(alloc, Atom::Base(0))?;
    rows.push(Row { at, unit })?;
    Ok(())
}

/// Pushes the rows of two lists of units, unit by unit.
fn push_quotients(
    alloc: Global,
    at: u32,
    left: &[Unit],
    right: &[Unit],
    rows: &mut Vec<Row>,
) -> Result<(), RowStop>
    ensures { ArePushed (units_against at left.now right.now) rows.old.items rows.new.items result }
{
    match left {
        [] => match right {
            [] => Ok(()),
            [_, ..] => push_never(alloc, at, rows),
        },
        [u, lefts @ ..] => match right {
            [] => push_never(alloc, at, rows),
            [v, rights @ ..] => {
                push_quotient(alloc, at, u, v, rows)?;
                push_quotients(alloc, at, lefts, rights, rows)
            }
        },
    }
}

/// Pushes the rows of two types: one for each unit, from left to right, the first unit over the second.
pub fn against(
    alloc: Global,
    at: u32,
    left: &Ty,
    right: &Ty,
    rows: &mut Vec<Row>,
) -> Result<(), RowStop>
    ensures { ArePushed (against_steps at (type_tree left.now) (type_tree right.now)) rows.old.items
        rows.new.items result }
{
    match (left, right) {
        (Ty::Bool, Ty::Bool) => Ok(()),
        (Ty::Num(u), Ty::Num(v)) => push_quotient(alloc, at, u, v, rows),
        (Ty::List(s), Ty::List(t)) => against(alloc, at, s, t, rows),
        (Ty::Rec(r, us), Ty::Rec(q, vs)) => {
            if r == q {
                push_quotients(alloc, at, us.as_slice(), vs.as_slice(), rows)
            } else {
                push_never(alloc, at, rows)
            }
        }
        _ => push_never(alloc, at, rows),
    }
}

/// Pushes the rows of two lists of types, type by type.
#[tactic(auto, using(crate::proofs::PushLaws::stops_front, crate::proofs::PushLaws::pushed_after))]
pub fn types_against(
    alloc: Global,
    at: u32,
    left: &[Ty],
    right: &[Ty],
    rows: &mut Vec<Row>,
) -> Result<(), RowStop>
    ensures { ArePushed (types_against_steps at (map type_tree left.now) (map type_tree right.now)) rows.old.items
        rows.new.items result }
{
    match left {
        [] => match right {
            [] => Ok(()),
            [_, ..] => push_never(alloc, at, rows),
        },
        [s, lefts @ ..] => match right {
            [] => push_never(alloc, at, rows),
            [t, rights @ ..] => {
                against(alloc, at, s, t, rows)?;
                types_against(alloc, at, lefts, rights, rows)
            }
        },
    }
}

/// Pushes the rows of one type against each of the others.
pub fn against_each(
    alloc: Global,
    at: u32,
    left: &Ty,
    others: &[Ty],
    rows: &mut Vec<Row>,
) -> Result<(), RowStop>
    ensures { ArePushed (against_each_steps at (type_tree left.now) (map type_tree others.now)) rows.old.items
        rows.new.items result }
{
    for t in others {
        against(alloc, at, left, t, rows)?;
    }
    Ok(())
}
