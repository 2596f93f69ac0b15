//! Whether units are a joint solution in which each unit parameter is a unit of its own.

ghost use Rattle.std.specs.Prelude.{◌≡◌, ◌↔◌, IfOk, IsTrue, pos};
ghost use Rattle.um_units.specs.declared.Atom.TheVariants.{Base};
ghost use Rattle.um_units.specs.PowerMap.{atom};
ghost use Rattle.um_rows.specs.Solutions.{IsRigid};
ghost use Rattle.um_equal_types.specs.Steps.{units_of};
ghost use Rattle.um_check.specs.Validity.{ShowsGeneral};

use crate::becomes::solves;
use std::alloc::Global;
use um_rows::{Row, Rows};
use um_units::{NoMemory, Unit};
use um_wide::is_base_unit;

fn is_one(power: i32) -> bool
    ensures { IsTrue result ↔ (power ≡ pos 1) }
{
    power == 1
}

/// Whether the unit is the base unit of this number.
fn is_the_base_unit(unit: &Unit, n: u64) -> bool
    ensures { IsTrue result ↔ (unit.now ≡ atom (Base n)) }
{
    match unit.terms() {
        [term] => is_one(term.power) && is_base_unit(term.atom, n),
        _ => false,
    }
}

/// Whether the slot of each unit parameter has the parameter's own base unit.
fn are_rigid(units: &[Unit], parameters: u32, bases: u32) -> bool
    ensures { IsTrue result ↔ IsRigid bases parameters units.now }
{
    if units.len() < parameters as usize {
        return false;
    }
    for k in 0..parameters {
        if !is_the_base_unit(&units[k as usize], u64::from(bases) + u64::from(k)) {
            return false;
        }
    }
    true
}

/// Whether the units are such a solution. Without unit parameters there are to be no units.
pub fn shows_general(
    alloc: Global,
    rows: &Rows,
    parameters: u32,
    bases: u32,
    units: &[Unit],
) -> Result<bool, NoMemory>
    ensures { IfOk result (λ b. IsTrue b
        ↔ ShowsGeneral bases rows.now.slots parameters (units_of rows.now.list.items.items) units.now) }
{
    if parameters == 0 {
        return Ok(units.is_empty());
    }
    if units.len() != rows.slots as usize {
        return Ok(false);
    }
    if !are_rigid(units, parameters, bases) {
        return Ok(false);
    }
    let list: &[Row] = &rows.list.items;
    let solved = solves(alloc, list, units)?;
    Ok(solved)
}
