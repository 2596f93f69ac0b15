//! One step of the elimination: what it makes of the unit that a row becomes, and of the units of the slots.

ghost use Rattle.std.specs.Prelude.{◌≡◌, ◌==◌, ◌<◌, ◌<ℤ◌, ◌≤◌, length, map, set, pos, nat_abs, IfOk, OnOk, IfErr};
ghost use Rattle.std.specs.Prelude.{MatchResult, IsTrue, slice_index_or};
ghost use Rattle.std.proofs.Common.{neg_ℤ};
ghost use Rattle.std.specs.Int.{int_div_euclid};
ghost use Rattle.std.specs.List.{list_all};
ghost use Rattle.um_units.specs.Atoms.{same_atom};
ghost use Rattle.um_units.specs.declared.Atom.TheVariants.{Var};
ghost use Rattle.um_units.specs.PowerMap.{PowerMap, one, power_of, replace};
ghost use Rattle.um_units.specs.Range.{all_in_range, fits, in_range, RangeUnless};
ghost use Rattle.um_units.specs.declared.UnitStop.TheVariants.{NoMemory};
ghost use Rattle.um_elim.specs.ElimStep.{inverted_if_negative, multiply, quotients};
ghost use Rattle.um_elim.specs.ElimStep.{substitute, IsStepOf};
ghost use Rattle.um_elim.specs.Steps.{IsStep, RemainderBelow, StopsStep};
ghost use Rattle.um_elim.specs.Index.{IsIndex};
ghost use Rattle.um_units.specs.Variables.{VariablesBelow};

use crate::ElimStop;
use crate::elim_step::{ElimStep, next_step, unit_after_step};
use crate::index::{SlotList, multiply_holders};
use crate::replacement::{Replacement, put_in_each, put_in_holders};
use std::alloc::Global;
use um_pivots::{has_base_unit, has_other_variable};
use um_units::{Atom, Unit, UnitStop};

/// What is to be done after an elimination step.
pub(crate) enum AfterStep {
    /// Another step, of what is left of the unit.
    Again(Unit),
    /// Nothing: the row is solved.
    Ended,
}

/// A step at the pivot of r, which changes the units of the slots that hold it.
pub fn take_step(
    alloc: Global,
    units: &mut Vec<Unit>,
    index: &mut Vec<SlotList>,
    r: &Unit,
) -> Result<AfterStep, ElimStop>
    requires indexed { IsIndex units.old.items index.old.items }
    requires variables { VariablesBelow (length units.old.items) r.now }
    ensures outcome { MatchResult result (IsStep units.old.items r.now units.new.items)
        (StopsStep units.old.items r.now) }
    ensures slots { length units.new.items ≡ length units.old.items }
    ensures indexed { OnOk result (IsIndex units.new.items index.new.items) }
    ensures variables { IfOk result (RemainderBelow (length units.old.items)) }
{
    let Some(step) = next_step(alloc, r)? else {
        if r.terms().is_empty() {
            return Ok(AfterStep::Ended);
        }
        return Err(ElimStop::NoSolution);
    };
    if is_single(r, step.variable) {
        return take_single_step(alloc, units, index, r, &step);
    }
    let remainder = unit_after_step(alloc, r, &step)?;
    if has_other_variable(remainder.terms(), step.variable) {
        multiply_holders(alloc, units, index, step.variable, &step.by)?;
        return Ok(AfterStep::Again(remainder));
    }
    put_in_holders(alloc, units, index, step.variable, &step.by)?;
    if has_base_unit(remainder.terms()) {
        return Err(ElimStop::NoSolution);
    }
    Ok(AfterStep::Ended)
}

/// The step at a variable whose power in r is 1 or -1: only the variable is left of r, and the row is solved.
fn take_single_step(
    alloc: Global,
    units: &mut Vec<Unit>,
    index: &mut Vec<SlotList>,
    r: &Unit,
    step: &ElimStep,
) -> Result<AfterStep, ElimStop>
    requires indexed { IsIndex units.old.items index.old.items }
    requires variables { VariablesBelow (length units.old.items) r.now }
    requires step { IsStepOf r.now step.now }
    requires single { nat_abs (power_of r.now (Var step.now.variable)) ≡ 1 }
    ensures outcome { MatchResult result (IsStep units.old.items r.now units.new.items)
        (StopsStep units.old.items r.now) }
    ensures slots { length units.new.items ≡ length units.old.items }
    ensures indexed { OnOk result (IsIndex units.new.items index.new.items) }
    ensures variables { IfOk result (RemainderBelow (length units.old.items)) }
{
    put_single_step(alloc, units, index, r, step)?;
    Ok(AfterStep::Ended)
}

/// What the step multiplies the variable by is put for it. Over the variable that is r, if the step inverts r, and
/// otherwise the inverse of r.
fn put_single_step(
    alloc: Global,
    units: &mut Vec<Unit>,
    index: &mut Vec<SlotList>,
    r: &Unit,
    step: &ElimStep,
) -> Result<(), UnitStop>
    requires indexed { IsIndex units.old.items index.old.items }
    requires variables { VariablesBelow (length units.old.items) r.now }
    requires step { IsStepOf r.now step.now }
    requires single { nat_abs (power_of r.now (Var step.now.variable)) ≡ 1 }
    ensures exact { OnOk result (units.new.items
        ≡ map (replace (substitute step.now.variable step.now.by)) units.old.items) }
    ensures range { RangeUnless result
        (list_all fits (map (replace (substitute step.now.variable step.now.by)) units.old.items)) }
    ensures indexed { OnOk result (IsIndex units.new.items index.new.items) }
    ensures slots { length units.new.items ≡ length units.old.items }
{
    if step.inverted {
        let replacement = Replacement {
            variable: step.variable,
            factor: &step.by,
            change: r,
        };
        return put_in_each(alloc, units, index, &replacement);
    }
    let change = r.inv(alloc)?;
    let replacement = Replacement {
        variable: step.variable,
        factor: &step.by,
        change: &change,
    };
    put_in_each(alloc, units, index, &replacement)
}

/// Whether the power of variable m in the unit is 1 or -1.
fn is_single(unit: &Unit, m: u32) -> bool
    ensures { result ≡ (nat_abs (power_of unit.now (Var m)) == 1) }
{
    unit.power_of(Atom::Var(m)).unsigned_abs() == 1
}
