//! The agreement that a row is of, made from the type at its node and its rows.

ghost use Rattle.std.specs.Prelude.{◌≡◌, ◌≤◌, IfOk, length};
ghost use Rattle.std.specs.List.{list_all};
ghost use Rattle.um_units.specs.Range.{fits, RangeUnless};
ghost use Rattle.um_tree.specs.TypeTree.{type_tree};
ghost use Rattle.um_elim.specs.Application.{type_fits};
ghost use Rattle.um_equal_types.specs.Steps.{units_of};
ghost use Rattle.um_agree.specs.Made.{units_in, type_by, units_by, unit_by, is_result, is_head, inner, known_type};
ghost use Rattle.um_agree.specs.Made.{by_of, placed_of, made_of};
ghost use Rattle.um_agree.specs.Answers.{agreement_tree};

use crate::rule::Rule;
use std::alloc::Global;
use um_rows::Row;
use um_tree::Ty;
use um_units::{Unit, UnitStop, Units};

/// An agreement: who asks for it, at which place, and its two types over slots, as they are formed there.
#[derive(Drop)]
pub struct Agreement {
    pub rule: Rule,
    pub at: u32,
    pub first: Ty,
    pub second: Ty,
}

/// Whether each unit is multiplied by its row or divided by it.
#[derive(Clone, Copy)]
pub(crate) enum By {
    Times,
    Over,
}

/// How many units the type has.
pub(crate) fn units_in(ty: &Ty) -> usize
    ensures { result ≡ units_in (type_tree ty.now) }
{
    match ty {
        Ty::Bool => 0,
        Ty::Num(_) => 1,
        Ty::List(item) => units_in(item),
        Ty::Rec(_, units) => units.as_slice().len(),
    }
}

fn unit_by(alloc: Global, by: By, unit: &Unit, row: &Row) -> Result<Unit, UnitStop>
    ensures exact { IfOk result (λ u. u ≡ unit_by by unit.now row.now.unit) }
    ensures range { RangeUnless result (fits (unit_by by unit.now row.now.unit)) }
{
    match by {
        By::Times => unit.mul(alloc, &row.unit),
        By::Over => unit.mul_pow(alloc, &row.unit, -1),
    }
}

/// Each unit with its row. There are as many rows.
fn units_by(alloc: Global, by: By, units: &[Unit], rows: &[Row]) -> Result<Units, UnitStop>
    requires many { length units.now ≤ length rows.now }
    ensures exact { IfOk result (λ us. us ≡ units_by by units.now (units_of rows.now)) }
    ensures range { RangeUnless result (list_all fits (units_by by units.now (units_of rows.now))) }
{
    let mut items = Vec::new(alloc);
    for k in 0..units.len() {
        items.push(unit_by(alloc, by, &units[k], &rows[k])?)?;
    }
    Ok(Units::from_vec(items))
}

/// The type, each unit with its row. There are as many rows.
pub(crate) fn type_by(alloc: Global, by: By, ty: &Ty, rows: &[Row]) -> Result<Ty, UnitStop>
    requires many { units_in (type_tree ty.now) ≤ length rows.now }
    ensures exact { IfOk result (λ t. type_tree t ≡ type_by by (type_tree ty.now) (units_of rows.now)) }
    ensures range { RangeUnless result (type_fits (type_by by (type_tree ty.now) (units_of rows.now))) }
{
    match ty {
        Ty::Bool => Ok(Ty::Bool),
        Ty::Num(unit) => Ok(Ty::Num(unit_by(alloc, by, unit, &rows[0])?)),
        Ty::List(item) => Ok(Ty::List(Box::new(alloc, type_by(alloc, by, item, rows)?)?)),
        Ty::Rec(record, units) => {
            Ok(Ty::Rec(*record, units_by(alloc, by, units.as_slice(), rows)?))
        }
    }
}

/// Whether the type at the agreement's node is its first.
fn is_result(rule: Rule) -> bool
    ensures { result ≡ is_result rule }
{
    match rule {
        Rule::ResultNote => true,
        Rule::Sum | Rule::Difference | Rule::Comparison | Rule::Branches | Rule::Arms => false,
        Rule::Item(_) | Rule::Head | Rule::Argument(_, _) | Rule::Part(_, _) => false,
    }
}

/// Whether the type at the agreement's node is a list of whose items it speaks.
fn is_head(rule: Rule) -> bool
    ensures { result ≡ is_head rule }
{
    match rule {
        Rule::Head => true,
        Rule::Sum | Rule::Difference | Rule::Comparison | Rule::Branches | Rule::Arms => false,
        Rule::Item(_) | Rule::Argument(_, _) | Rule::Part(_, _) | Rule::ResultNote => false,
    }
}

/// The type of a list's items.
fn inner(ty: &Ty) -> &Ty
    ensures { type_tree result.now ≡ inner (type_tree ty.now) }
{
    match ty {
        Ty::List(item) => item,
        Ty::Bool | Ty::Num(_) | Ty::Rec(_, _) => ty,
    }
}

/// What an agreement speaks of, of the type at its node.
pub(crate) fn known_part(rule: Rule, ty: &Ty) -> &Ty
    ensures { type_tree result.now ≡ known_type rule (type_tree ty.now) }
{
    if is_head(rule) {
        return inner(ty);
    }
    ty
}

fn by_of(rule: Rule) -> By
    ensures { result ≡ by_of rule }
{
    if is_result(rule) {
        return By::Over;
    }
    By::Times
}

/// The agreement of the type at its node and the other one.
fn placed(rule: Rule, at: u32, known: Ty, other: Ty) -> Agreement
    ensures { agreement_tree result ≡ placed_of rule at (type_tree known) (type_tree other) }
{
    let (first, second) = if is_result(rule) {
        (known, other)
    } else {
        (other, known)
    };
    Agreement {
        rule,
        at,
        first,
        second,
    }
}

/// The agreement, from the type at its node and the rows from its first on.
pub(crate) fn made(
    alloc: Global,
    rule: Rule,
    at: u32,
    known: Ty,
    rows: &[Row],
) -> Result<Agreement, UnitStop>
    requires many { units_in (type_tree known) ≤ length rows.now }
    ensures exact { IfOk result (λ a. agreement_tree a ≡ made_of rule at (type_tree known) (units_of rows.now)) }
    ensures range { RangeUnless result (type_fits (type_by (by_of rule) (type_tree known) (units_of rows.now))) }
{
    match type_by(alloc, by_of(rule), &known, rows) {
        Ok(other) => Ok(placed(rule, at, known, other)),
        Err(stop) => {
            drop(known);
            Err(stop)
        }
    }
}
