//! Copies of types, and types whose variables are renamed.

ghost use Rattle.std.specs.Prelude.{◌≡◌, IfOk, IsTrue, All, length, map};
ghost use Rattle.std.specs.List.{list_all};
ghost use Rattle.um_units.specs.PowerMap.{nth, replace};
ghost use Rattle.um_units.specs.Range.{fits};
ghost use Rattle.um_units.specs.Variables.{VariablesBelow};
ghost use Rattle.um_tree.specs.TypeTree.{type_tree};
ghost use Rattle.um_tree.specs.Typing.{put};
ghost use Rattle.um_tree.specs.Laws.{TypeHas};
ghost use Rattle.um_elim.specs.Application.{type_fits};
ghost use Rattle.um_slots.specs.SlotUnits.{AreVariables};

use std::alloc::{AllocError, Global};
use um_tree::Ty;
use um_units::{Unit, UnitStop, Units};

/// Equal units. `AllocError` is the one error.
pub fn copied_units(alloc: Global, units: &[Unit]) -> Result<Units, AllocError>
    ensures same { IfOk result (λ us. us ≡ units.now) }
    ensures fits { IfOk result (λ us. IsTrue (list_all fits us)) }
{
    let mut items = Vec::new(alloc);
    items.reserve(units.len())?;
    for unit in units {
        items.push(unit.copy(alloc)?)?;
    }
    Ok(Units::from_vec(items))
}

/// An equal type. `AllocError` is the one error.
/// Most types are those of numbers. These are copied in line, and only others by a call.
#[inline(always)]
pub fn copied(alloc: Global, ty: &Ty) -> Result<Ty, AllocError>
    ensures same { IfOk result (λ t. type_tree t ≡ type_tree ty.now) }
    ensures fits { IfOk result (λ t. IsTrue (type_fits (type_tree t))) }
{
    match ty {
        Ty::Num(unit) => Ok(Ty::Num(unit.copy(alloc)?)),
        Ty::Bool | Ty::List(_) | Ty::Rec(_, _) => copied_any(alloc, ty),
    }
}

/// An equal type, whatever type it is.
fn copied_any(alloc: Global, ty: &Ty) -> Result<Ty, AllocError>
    ensures same { IfOk result (λ t. type_tree t ≡ type_tree ty.now) }
    ensures fits { IfOk result (λ t. IsTrue (type_fits (type_tree t))) }
{
    match ty {
        Ty::Bool => Ok(Ty::Bool),
        Ty::Num(unit) => Ok(Ty::Num(unit.copy(alloc)?)),
        Ty::List(item) => Ok(Ty::List(Box::new(alloc, copied_any(alloc, item)?)?)),
        Ty::Rec(record, units) => Ok(Ty::Rec(*record, copied_units(alloc, units.as_slice())?)),
    }
}

/// Equal types. `AllocError` is the one error.
pub fn copied_types(alloc: Global, types: &[Ty]) -> Result<Vec<Ty>, AllocError>
    ensures { IfOk result (λ ts. map type_tree ts.items ≡ map type_tree types.now) }
{
    let mut items = Vec::new(alloc);
    items.reserve(types.len())?;
    for ty in types {
        items.push(copied(alloc, ty)?)?;
    }
    Ok(items)
}

/// The unit with its variables renamed: `by[k]` is the new variable for variable k, and no two are the same.
#[tactic(auto, using(crate::proofs::RenamingLaws::renamed_fits))]
fn renamed_unit(alloc: Global, by: &[Unit], unit: &Unit) -> Result<Unit, AllocError>
    requires variables { AreVariables by.now }
    requires below { VariablesBelow (length by.now) unit.now }
    ensures exact { IfOk result (λ u. u ≡ replace (nth by.now) unit.now) }
    ensures fits { IfOk result (λ u. IsTrue (fits u)) }
{
    let _ = unit.terms();
    match unit.replace(alloc, by) {
        Ok(unit) => Ok(unit),
        Err(UnitStop::NoMemory) => Err(AllocError),
        Err(UnitStop::Range) => unreachable!(),
    }
}

/// The units with their variables renamed.
fn renamed_units(alloc: Global, by: &[Unit], units: &[Unit]) -> Result<Units, AllocError>
    requires variables { AreVariables by.now }
    requires below { All (VariablesBelow (length by.now)) units.now }
    ensures exact { IfOk result (λ us. us ≡ map (replace (nth by.now)) units.now) }
    ensures fits { IfOk result (λ us. IsTrue (list_all fits us)) }
{
    let mut items = Vec::new(alloc);
    items.reserve(units.len())?;
    for unit in units {
        items.push(renamed_unit(alloc, by, unit)?)?;
    }
    Ok(Units::from_vec(items))
}

/// The type with its variables renamed: `by[k]` is the new variable for variable `k`, and no two are the same.
/// `AllocError` is the one error.
pub fn renamed(alloc: Global, by: &[Unit], ty: &Ty) -> Result<Ty, AllocError>
    requires variables { AreVariables by.now }
    requires below { TypeHas (VariablesBelow (length by.now)) (type_tree ty.now) }
    ensures exact { IfOk result (λ t. type_tree t ≡ put (nth by.now) (type_tree ty.now)) }
    ensures fits { IfOk result (λ t. IsTrue (type_fits (type_tree t))) }
{
    match ty {
        Ty::Bool => Ok(Ty::Bool),
        Ty::Num(unit) => Ok(Ty::Num(renamed_unit(alloc, by, unit)?)),
        Ty::List(item) => Ok(Ty::List(Box::new(alloc, renamed(alloc, by, item)?)?)),
        Ty::Rec(record, units) => {
            Ok(Ty::Rec(*record, renamed_units(alloc, by, units.as_slice())?))
        }
    }
}
