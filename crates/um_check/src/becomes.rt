//! Whether units put for variables give what is wanted.

ghost use Rattle.std.specs.Prelude.{◌≡◌, ◌↔◌, IfOk, IsTrue, map};
ghost use Rattle.um_units.specs.PowerMap.{replace, nth};
ghost use Rattle.um_units.specs.Solutions.{Solves};
ghost use Rattle.um_tree.specs.TypeTree.{type_tree};
ghost use Rattle.um_tree.specs.Typing.{put};
ghost use Rattle.um_equal_types.specs.Steps.{units_of};
ghost use Rattle.um_check.specs.Tests.{Becomes};

use std::alloc::{AllocError, Global};
use um_rows::Row;
use um_tree::Ty;
use um_units::{NoMemory, Unit, UnitStop};

/// Whether the unit with `by` put for its variables is the wanted one.
fn becomes(alloc: Global, unit: &Unit, by: &[Unit], wanted: &Unit) -> Result<bool, NoMemory>
    ensures { IfOk result (λ b. IsTrue b ↔ (replace (nth by.now) unit.now ≡ wanted.now)) }
{
    let _terms = wanted.terms();
    match unit.replace(alloc, by) {
        Ok(made) => Ok(made.same(wanted)),
        Err(UnitStop::Range) => Ok(false),
        Err(UnitStop::NoMemory) => Err(AllocError),
    }
}

/// Whether the units, put for the slots, make each row 1.
pub fn solves(alloc: Global, rows: &[Row], units: &[Unit]) -> Result<bool, NoMemory>
    ensures { IfOk result (λ b. IsTrue b ↔ Solves (nth units.now) (units_of rows.now)) }
{
    let one = Unit::one(alloc);
    for row in rows {
        if !becomes(alloc, &row.unit, units, &one)? {
            return Ok(false);
        }
    }
    Ok(true)
}

/// Whether each unit with `by` put for its variables is the wanted one at its place.
fn all_become(alloc: Global, units: &[Unit], by: &[Unit], wanted: &[Unit]) -> Result<bool, NoMemory>
    ensures { IfOk result (λ b. IsTrue b ↔ (map (replace (nth by.now)) units.now ≡ wanted.now)) }
{
    if units.len() != wanted.len() {
        return Ok(false);
    }
    for i in 0..units.len() {
        if !becomes(alloc, &units[i], by, &wanted[i])? {
            return Ok(false);
        }
    }
    Ok(true)
}

/// Whether the type with `by` put for its variables is the wanted one.
pub fn type_becomes(alloc: Global, ty: &Ty, by: &[Unit], wanted: &Ty) -> Result<bool, NoMemory>
    ensures { IfOk result (λ b. IsTrue b ↔ Becomes (nth by.now) (type_tree ty.now) (type_tree wanted.now)) }
{
    match (ty, wanted) {
        (Ty::Bool, Ty::Bool) => Ok(true),
        (Ty::Num(unit), Ty::Num(other)) => becomes(alloc, unit, by, other),
        (Ty::List(item), Ty::List(other)) => type_becomes(alloc, item, by, other),
        (Ty::Rec(r, units), Ty::Rec(q, others)) => {
            if r != q {
                return Ok(false);
            }
            all_become(alloc, units.as_slice(), by, others.as_slice())
        }
        _ => Ok(false),
    }
}

/// Whether each type with `by` put for its variables is the wanted one at its place.
pub fn types_become(
    alloc: Global,
    types: &[Ty],
    by: &[Unit],
    wanted: &[Ty],
) -> Result<bool, NoMemory>
    ensures { IfOk result (λ b. IsTrue b
        ↔ (map (put (nth by.now)) (map type_tree types.now) ≡ map type_tree wanted.now)) }
{
    if types.len() != wanted.len() {
        return Ok(false);
    }
    for i in 0..types.len() {
        if !type_becomes(alloc, &types[i], by, &wanted[i])? {
            return Ok(false);
        }
    }
    Ok(true)
}
