//! Unit parameters as variables: after `bases` base units and over `slots` slots the base unit `bases + k` of parameter
//! k becomes the variable `slots + k`.

ghost use Rattle.std.specs.Prelude.{◌≡◌, ◌<◌, ◌+◌, ◌^◌, All, IfOk, map};
ghost use Rattle.std.specs.List.{flat_map};
ghost use Rattle.um_tree.specs.TypeTree.{type_tree, type_trees};
ghost use Rattle.um_tree.specs.Typing.{moved};
ghost use Rattle.um_tree.specs.Scheme.{unit_variables, type_variables, variables};
ghost use Rattle.um_rows.specs.Generalised.{generalised_atom as atom_in_place, generalised_term};
ghost use Rattle.um_rows.specs.Generalised.{generalised_unit as unit_in_place};

use std::alloc::{AllocError, Global};
use um_tree::{Ty, Types};
use um_units::{Atom, Term, Unit, UnitStop, Units};

fn generalised_atom(bases: u32, parameters: u32, slots: u32, atom: Atom) -> Atom
    requires bases { bases + parameters < 2 ^ 32 }
    requires slots { slots + parameters < 2 ^ 32 }
    ensures { result ≡ atom_in_place bases parameters slots atom }
{
    match atom {
        Atom::Base(base) => {
            if base >= bases && base < bases + parameters {
                return Atom::Var(slots + (base - bases));
            }
            Atom::Base(base)
        }
        Atom::Var(variable) => Atom::Var(variable),
    }
}

fn generalised_terms(
    alloc: Global,
    bases: u32,
    parameters: u32,
    slots: u32,
    terms: &[Term],
) -> Result<Vec<Term>, AllocError>
    requires bases { bases + parameters < 2 ^ 32 }
    requires slots { slots + parameters < 2 ^ 32 }
    ensures { IfOk result (λ v. v.items ≡ map (generalised_term bases parameters slots) terms.now) }
{
    let mut out = Vec::new(alloc);
    for term in terms {
        out.push(Term {
            atom: generalised_atom(bases, parameters, slots, term.atom),
            power: term.power,
        })?;
    }
    Ok(out)
}

/// The unit with the variable `slots + k` for the base unit `bases + k` of each unit parameter k. No power changes.
pub fn generalised_unit(
    alloc: Global,
    bases: u32,
    parameters: u32,
    slots: u32,
    unit: &Unit,
) -> Result<Unit, AllocError>
    requires bases { bases + parameters < 2 ^ 32 }
    requires slots { slots + parameters < 2 ^ 32 }
    requires variables { All (λ k. k < slots) (unit_variables unit.now) }
    ensures { IfOk result (λ u. u ≡ unit_in_place bases parameters slots unit.now) }
{
    let terms = generalised_terms(alloc, bases, parameters, slots, unit.terms())?;
    match Unit::from_terms(alloc, &terms) {
        Ok(unit) => Ok(unit),
        Err(UnitStop::NoMemory) => Err(AllocError),
        Err(UnitStop::Range) => unreachable!(),
    }
}

fn generalised_units(
    alloc: Global,
    bases: u32,
    parameters: u32,
    slots: u32,
    units: &Units,
) -> Result<Units, AllocError>
    requires bases { bases + parameters < 2 ^ 32 }
    requires slots { slots + parameters < 2 ^ 32 }
    requires variables { All (λ k. k < slots) (flat_map unit_variables units.now) }
    ensures { IfOk result (λ us. us ≡ map (unit_in_place bases parameters slots) units.now) }
{
    let mut items = Vec::new(alloc);
    items.reserve(units.as_slice().len())?;
    for unit in units.as_slice() {
        items.push(generalised_unit(alloc, bases, parameters, slots, unit)?)?;
    }
    Ok(Units::from_vec(items))
}

fn generalised_type(
    alloc: Global,
    bases: u32,
    parameters: u32,
    slots: u32,
    ty: &Ty,
) -> Result<Ty, AllocError>
    requires bases { bases + parameters < 2 ^ 32 }
    requires slots { slots + parameters < 2 ^ 32 }
    requires variables { All (λ k. k < slots) (type_variables (type_tree ty.now)) }
    ensures { IfOk result (λ t. type_tree t ≡ moved (unit_in_place bases parameters slots) (type_tree ty.now)) }
{
    match ty {
        Ty::Bool => Ok(Ty::Bool),
        Ty::Num(unit) => Ok(Ty::Num(generalised_unit(alloc, bases, parameters, slots, unit)?)),
        Ty::List(item) => Ok(Ty::List(Box::new(
            alloc,
            generalised_type(alloc, bases, parameters, slots, item)?,
        )?)),
        Ty::Rec(record, units) => Ok(Ty::Rec(
            *record,
            generalised_units(alloc, bases, parameters, slots, units)?,
        )),
    }
}

fn generalised_types(
    alloc: Global,
    bases: u32,
    parameters: u32,
    slots: u32,
    types: &[Ty],
) -> Result<Vec<Ty>, AllocError>
    requires bases { bases + parameters < 2 ^ 32 }
    requires slots { slots + parameters < 2 ^ 32 }
    requires variables { All (λ k. k < slots) (variables (map type_tree types.now)) }
    ensures { IfOk result (λ v. map type_tree v.items
        ≡ map (moved (unit_in_place bases parameters slots)) (map type_tree types.now)) }
{
    let mut items = Vec::new(alloc);
    items.reserve(types.len())?;
    for ty in types {
        items.push(generalised_type(alloc, bases, parameters, slots, ty)?)?;
    }
    Ok(items)
}

/// The types with the unit parameters as variables, and as they are if there are none. No power changes.
pub fn general_types(
    alloc: Global,
    bases: u32,
    parameters: u32,
    slots: u32,
    types: Types,
) -> Result<Types, AllocError>
    requires bases { bases + parameters < 2 ^ 32 }
    requires slots { slots + parameters < 2 ^ 32 }
    requires variables { All (λ k. k < slots) (variables (type_trees types)) }
    ensures { IfOk result (λ made. type_trees made
        ≡ map (moved (unit_in_place bases parameters slots)) (type_trees types)) }
{
    if parameters == 0 {
        return Ok(types);
    }
    let items = generalised_types(alloc, bases, parameters, slots, &types.items);
    drop(types);
    Ok(Types { items: items? })
}
