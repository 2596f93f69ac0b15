//! Units put for the variables of a type.

ghost use Rattle.std.specs.Prelude.{◌≡◌, IfOk, IsTrue, map};
ghost use Rattle.std.specs.List.{list_all};
ghost use Rattle.um_units.specs.PowerMap.{nth, replace};
ghost use Rattle.um_units.specs.Range.{fits, RangeUnless};
ghost use Rattle.um_tree.specs.TypeTree.{type_tree};
ghost use Rattle.um_tree.specs.Typing.{put};
ghost use Rattle.um_elim.specs.Application.{type_fits};

use std::alloc::Global;
use um_tree::Ty;
use um_units::{Unit, UnitStop, Units};

/// The type with `by[k]` put for each variable k.
pub fn put_in_type(alloc: Global, by: &[Unit], ty: &Ty) -> Result<Ty, UnitStop>
    ensures exact { IfOk result (λ t. type_tree t ≡ put (nth by.now) (type_tree ty.now)) }
    ensures range { RangeUnless result (type_fits (put (nth by.now) (type_tree ty.now))) }
{
    match ty {
        Ty::Bool => Ok(Ty::Bool),
        Ty::Num(unit) => Ok(Ty::Num(unit.replace(alloc, by)?)),
        Ty::List(item) => Ok(Ty::List(Box::new(alloc, put_in_type(alloc, by, item)?)?)),
        Ty::Rec(record, units) => Ok(Ty::Rec(*record, put_in_units(alloc, by, units)?)),
    }
}

/// Whether `by` puts for each atom of the type that atom itself. Then `put_in_type` gives an equal type. Takes no
/// memory.
pub fn stays_in_type(by: &[Unit], ty: &Ty) -> bool
    ensures stays { IsTrue result → put (nth by.now) (type_tree ty.now) ≡ type_tree ty.now }
    ensures fits { IsTrue result → IsTrue (type_fits (type_tree ty.now)) }
{
    match ty {
        Ty::Bool => true,
        Ty::Num(unit) => unit.stays(by),
        Ty::List(item) => stays_in_type(by, item),
        Ty::Rec(_, units) => stay_in_units(by, units.as_slice()),
    }
}

fn stay_in_units(by: &[Unit], units: &[Unit]) -> bool
    ensures stay { IsTrue result → map (replace (nth by.now)) units.now ≡ units.now }
    ensures fit { IsTrue result → IsTrue (list_all fits units.now) }
{
    for unit in units {
        if !unit.stays(by) {
            return false;
        }
    }
    true
}

/// The units with `by[k]` put for each variable k.
fn put_in_units(alloc: Global, by: &[Unit], units: &Units) -> Result<Units, UnitStop>
    ensures exact { IfOk result (λ us. us ≡ map (replace (nth by.now)) units.now) }
    ensures range { RangeUnless result (list_all fits (map (replace (nth by.now)) units.now)) }
{
    let mut items = Vec::new(alloc);
    items.reserve(units.as_slice().len())?;
    for unit in units.as_slice() {
        items.push(unit.replace(alloc, by)?)?;
    }
    Ok(Units::from_vec(items))
}
