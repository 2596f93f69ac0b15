//! Whether the inverse substitution takes each slot's unit back to the slot, but for rows.

ghost use Rattle.std.specs.Prelude.{◌≡◌, ◌↔◌, ◌^◌, ◌+◌, ◌<◌, ◌≤◌, IfOk, IsTrue, All, length, slice_index_or, []};
ghost use Rattle.um_units.specs.declared.Atom.TheVariants.{Var};
ghost use Rattle.um_units.specs.PowerMap.{mul, inv, atom, replace, nth};
ghost use Rattle.um_wide.specs.Room.{IsWithin};
ghost use Rattle.um_equal_types.specs.Steps.{units_of};
ghost use Rattle.um_check.specs.Combination.{NamesRowsBelow};
ghost use Rattle.um_check.specs.Tests.{SlotComesBack, AllComeBack};

use crate::combination::{names_below, product_of_rows};
use crate::{Part, Parts};
use std::alloc::Global;
use um_rows::Row;
use um_units::{Atom, NoMemory, Unit};
use um_wide::WideUnit;

/// The unit with `back` put for its variables, over slot j.
fn over_slot(alloc: Global, unit: &Unit, back: &[Unit], j: u32) -> Result<WideUnit, NoMemory>
    ensures { IfOk result (λ wide. wide ≡ mul (replace (nth back.now) unit.now) (inv (atom (Var j)))) }
{
    let image = WideUnit::replaced(alloc, unit, back)?;
    let inverse = WideUnit::atom_power(alloc, Atom::Var(j), -1)?;
    image.mul(alloc, &inverse)
}

/// A slot's number, its unit in the solution, and the rows by which it comes back.
#[derive(Drop)]
struct Slot<'a> {
    number: u32,
    unit: &'a Unit,
    parts: &'a [Part],
}

/// Whether the inverse substitution takes the slot's unit back to the slot, but for the rows that its parts name.
fn slot_comes_back(
    alloc: Global,
    rows: &[Row],
    back: &[Unit],
    divisor: i64,
    slot: &Slot,
) -> Result<bool, NoMemory>
    requires named { NamesRowsBelow (length rows.now) slot.now.parts.now }
    requires few { length slot.now.parts.now ≤ 4294967295 }
    ensures { IfOk result (λ b. IsTrue b
        ↔ SlotComesBack (units_of rows.now) back.now slot.now.unit.now slot.now.number divisor slot.now.parts.now) }
{
    let over = over_slot(alloc, slot.unit, back, slot.number)?;
    if !over.is_narrow() {
        return Ok(false);
    }
    let power = over.pow(alloc, divisor)?;
    let product = product_of_rows(alloc, rows, slot.parts)?;
    Ok(power.same(&product))
}

/// Whether the inverse substitution `back` takes each slot's unit of the solution back to the slot, but for the rows
/// that its parts name.
pub fn all_come_back(
    alloc: Global,
    rows: &[Row],
    solution: &[Unit],
    back: &[Unit],
    divisor: i64,
    parts: &[Parts],
) -> Result<bool, NoMemory>
    requires per_slot { length parts.now ≡ length solution.now }
    requires slots { length solution.now ≤ 4294967295 }
    requires few { All (λ ps. length ps ≤ 4294967295) parts.now }
    ensures { IfOk result (λ b. IsTrue b
        ↔ AllComeBack (units_of rows.now) solution.now back.now divisor parts.now) }
{
    for i in 0..solution.len() {
        let named = parts[i].as_slice();
        if !names_below(named, rows.len()) {
            return Ok(false);
        }
        let slot = Slot {
            number: i as u32,
            unit: &solution[i],
            parts: named,
        };
        if !slot_comes_back(alloc, rows, back, divisor, &slot)? {
            return Ok(false);
        }
    }
    Ok(true)
}
