//! A unit is put for a variable, which then stands in no slot's unit and leaves the index.

ghost use Rattle.std.specs.Prelude.{◌≡◌, ◌<◌, length, map, pos, set, IfErr, IfOk, OnOk, IsTrue, slice_index_or};
ghost use Rattle.std.specs.List.{list_all};
ghost use Rattle.um_units.specs.declared.Atom.TheVariants.{Var};
ghost use Rattle.um_units.specs.declared.UnitStop.TheVariants.{NoMemory};
ghost use Rattle.um_units.specs.PowerMap.{PowerMap, atom, inv, mul, one, power_of, replace};
ghost use Rattle.um_units.specs.Range.{fits, RangeUnless};
ghost use Rattle.um_units.specs.Variables.{VariablesBelow};
ghost use Rattle.um_elim.specs.ElimStep.{multiply, substitute};
ghost use Rattle.um_elim.specs.Index.{holders, IsIndex};

use crate::elim_step::multiplied;
use crate::index::{SlotList, follow_terms};
use std::alloc::Global;
use um_units::{Atom, Unit, UnitStop};

/// A variable, a unit that is put for it and doesn't hold it, and that unit over the variable.
#[derive(Clone, Copy)]
pub(crate) struct Replacement<'a> {
    pub variable: u32,
    pub factor: &'a Unit,
    pub change: &'a Unit,
    ghost absent: { power_of factor.now (Var variable) ≡ pos 0 },
    ghost over: { change.now ≡ mul factor.now (inv (atom (Var variable))) },
}

/// The unit, which doesn't hold variable m, divided by variable m.
fn over_variable(alloc: Global, unit: &Unit, m: u32) -> Result<Unit, UnitStop>
    requires absent { power_of unit.now (Var m) ≡ pos 0 }
    requires fits { IsTrue (fits unit.now) }
    ensures exact { IfOk result (λ u. u ≡ mul unit.now (inv (atom (Var m)))) }
    ensures memory { IfErr result (λ stop. stop ≡ NoMemory) }
{
    let variable = Unit::atom(alloc, Atom::Var(m))?;
    unit.mul_pow(alloc, &variable, -1)
}

/// The replacement is made in the slot's unit, and the index follows but at the variable.
fn put_in_slot(
    alloc: Global,
    units: &mut Vec<Unit>,
    index: &mut Vec<SlotList>,
    slot: u32,
    replacement: &Replacement,
) -> Result<(), UnitStop>
    requires slot { slot < length units.old.items }
    requires variable { replacement.now.variable < length units.old.items }
    requires indexed { IsIndex units.old.items
        (set index.old.items replacement.now.variable (holders units.old.items replacement.now.variable)) }
    requires variables { VariablesBelow (length units.old.items) replacement.now.factor.now }
    ensures exact { OnOk result (units.new.items
        ≡ set units.old.items slot (replace (multiply replacement.now.variable replacement.now.change.now)
        (slice_index_or units.old.items slot one))) }
    ensures range { RangeUnless result (fits (replace (multiply replacement.now.variable replacement.now.change.now)
        (slice_index_or units.old.items slot one))) }
    ensures indexed { OnOk result (IsIndex units.new.items
        (set index.new.items replacement.now.variable (holders units.new.items replacement.now.variable))) }
    ensures slots { length units.new.items ≡ length units.old.items }
{
    let place = slot as usize;
    let unit = multiplied(
        alloc,
        &units[place],
        replacement.variable,
        replacement.change,
    )?;
    follow_terms(
        index,
        replacement.factor.terms(),
        slot,
        &units[place],
        &unit,
    )?;
    units[place] = unit;
    Ok(())
}

/// The replacement is made in each unit that holds the variable.
pub fn put_in_each(
    alloc: Global,
    units: &mut Vec<Unit>,
    index: &mut Vec<SlotList>,
    replacement: &Replacement,
) -> Result<(), UnitStop>
    requires variable { replacement.now.variable < length units.old.items }
    requires indexed { IsIndex units.old.items index.old.items }
    requires variables { VariablesBelow (length units.old.items) replacement.now.factor.now }
    ensures exact { OnOk result (units.new.items
        ≡ map (replace (multiply replacement.now.variable replacement.now.change.now)) units.old.items) }
    ensures range { RangeUnless result
        (list_all fits (map (replace (multiply replacement.now.variable replacement.now.change.now)) units.old.items)) }
    ensures indexed { OnOk result (IsIndex units.new.items index.new.items) }
    ensures slots { length units.new.items ≡ length units.old.items }
{
    let place = replacement.variable as usize;
    let slots = index[place].to_vec(alloc)?;
    for slot in &slots {
        put_in_slot(alloc, units, index, *slot, replacement)?;
    }
    index[place] = SlotList::empty(alloc);
    Ok(())
}

/// The factor, which doesn't hold variable m, is put for variable m in each unit that holds it.
pub fn put_in_holders(
    alloc: Global,
    units: &mut Vec<Unit>,
    index: &mut Vec<SlotList>,
    m: u32,
    factor: &Unit,
) -> Result<(), UnitStop>
    requires m { m < length units.old.items }
    requires absent { power_of factor.now (Var m) ≡ pos 0 }
    requires fits { IsTrue (fits factor.now) }
    requires indexed { IsIndex units.old.items index.old.items }
    requires variables { VariablesBelow (length units.old.items) factor.now }
    ensures exact { OnOk result (units.new.items ≡ map (replace (substitute m factor.now)) units.old.items) }
    ensures range { RangeUnless result (list_all fits (map (replace (substitute m factor.now)) units.old.items)) }
    ensures indexed { OnOk result (IsIndex units.new.items index.new.items) }
    ensures slots { length units.new.items ≡ length units.old.items }
{
    let change = over_variable(alloc, factor, m)?;
    let replacement = Replacement {
        variable: m,
        factor,
        change: &change,
    };
    put_in_each(alloc, units, index, &replacement)
}
