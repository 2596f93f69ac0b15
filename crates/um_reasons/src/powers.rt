//! Units whose powers have 64 bits. Greater powers have no room: a product that holds one is want of memory.

ghost use Rattle.std.specs.Prelude.{◌≡◌, ◌≤◌, All, IfOk, map, nat_abs};
ghost use Rattle.um_units.specs.declared.Atom.TheVariants.{Var};
ghost use Rattle.um_units.specs.PowerMap.{atom, image, mul, nth, one, pow, replace};
ghost use Rattle.um_elim.specs.ElimStep.{multiply, substitute};
ghost use Rattle.um_wide.specs.Room.{IsNarrow};

use std::alloc::{AllocError, Global};
use um_units::{Atom, Unit};
use um_wide::WideUnit;

/// The unit, if each of its powers has 64 bits.
pub(crate) fn narrowed(unit: WideUnit) -> Result<WideUnit, AllocError>
    ensures exact { IfOk result (λ made. made ≡ unit) }
    ensures narrow { IfOk result IsNarrow }
{
    if unit.is_narrow() {
        return Ok(unit);
    }
    drop(unit);
    Err(AllocError)
}

/// The unit times the k-th power of another.
pub(crate) fn times(
    alloc: Global,
    unit: &WideUnit,
    other: &WideUnit,
    k: i128,
) -> Result<WideUnit, AllocError>
    requires unit { IsNarrow unit.now }
    requires other { IsNarrow other.now }
    requires power { nat_abs k ≤ 9223372036854775807 }
    ensures exact { IfOk result (λ made. made ≡ mul unit.now (pow other.now k)) }
    ensures narrow { IfOk result IsNarrow }
{
    let raised = other.pow(alloc, k as i64)?;
    let made = unit.mul(alloc, &raised)?;
    narrowed(made)
}

/// The unit times the k-th power of an atom.
pub(crate) fn times_atom(
    alloc: Global,
    unit: &WideUnit,
    a: Atom,
    k: i128,
) -> Result<WideUnit, AllocError>
    requires unit { IsNarrow unit.now }
    requires power { nat_abs k ≤ 9223372036854775807 }
    ensures exact { IfOk result (λ made. made ≡ mul unit.now (pow (atom a) k)) }
    ensures narrow { IfOk result IsNarrow }
{
    let raised = WideUnit::atom_power(alloc, a, k)?;
    let made = unit.mul(alloc, &raised)?;
    narrowed(made)
}

/// The unit times the k-th power of what the units put for the atom.
fn times_image(
    alloc: Global,
    unit: &WideUnit,
    a: Atom,
    k: i32,
    units: &[WideUnit],
) -> Result<WideUnit, AllocError>
    requires unit { IsNarrow unit.now }
    requires units { All IsNarrow units.now }
    ensures exact { IfOk result (λ made. made ≡ mul unit.now (pow (image (nth units.now) a) k)) }
    ensures narrow { IfOk result IsNarrow }
{
    match a {
        Atom::Base(_) => times_atom(alloc, unit, a, i128::from(k)),
        Atom::Var(slot) => match units.get(slot as usize) {
            Some(other) => times(alloc, unit, other, i128::from(k)),
            None => times_atom(alloc, unit, a, i128::from(k)),
        },
    }
}

/// The row with the units put for its variables.
pub(crate) fn put(alloc: Global, row: &Unit, units: &[WideUnit]) -> Result<WideUnit, AllocError>
    requires { All IsNarrow units.now }
    ensures exact { IfOk result (λ made. made ≡ replace (nth units.now) row.now) }
    ensures narrow { IfOk result IsNarrow }
{
    let mut made = WideUnit::one(alloc);
    for term in row.terms() {
        made = times_image(alloc, &made, term.atom, term.power, units)?;
    }
    Ok(made)
}

/// The unit with variable m times w put for variable m.
pub(crate) fn multiplied(
    alloc: Global,
    unit: &WideUnit,
    m: u32,
    w: &WideUnit,
) -> Result<WideUnit, AllocError>
    requires unit { IsNarrow unit.now }
    requires w { IsNarrow w.now }
    ensures exact { IfOk result (λ made. made ≡ replace (multiply m w.now) unit.now) }
    ensures narrow { IfOk result IsNarrow }
{
    let power = unit.power_of(Atom::Var(m));
    times(alloc, unit, w, power)
}

/// Variable m times w for variable m in each unit.
pub(crate) fn all_multiplied(
    alloc: Global,
    units: &[WideUnit],
    m: u32,
    w: &WideUnit,
) -> Result<Vec<WideUnit>, AllocError>
    requires units { All IsNarrow units.now }
    requires w { IsNarrow w.now }
    ensures exact { IfOk result (λ made. made.items ≡ map (replace (multiply m w.now)) units.now) }
    ensures narrow { IfOk result (λ made. All IsNarrow made.items) }
{
    let mut out = Vec::new(alloc);
    for unit in units {
        out.push(multiplied(alloc, unit, m, w)?)?;
    }
    Ok(out)
}

/// The unit with 1 put for variable m.
fn without(alloc: Global, unit: &WideUnit, m: u32) -> Result<WideUnit, AllocError>
    requires { IsNarrow unit.now }
    ensures exact { IfOk result (λ made. made ≡ replace (substitute m one) unit.now) }
    ensures narrow { IfOk result IsNarrow }
{
    let power = unit.power_of(Atom::Var(m));
    times_atom(alloc, unit, Atom::Var(m), -power)
}

/// 1 for variable m in each unit.
pub(crate) fn all_without(
    alloc: Global,
    units: &[WideUnit],
    m: u32,
) -> Result<Vec<WideUnit>, AllocError>
    requires { All IsNarrow units.now }
    ensures exact { IfOk result (λ made. made.items ≡ map (replace (substitute m one)) units.now) }
    ensures narrow { IfOk result (λ made. All IsNarrow made.items) }
{
    let mut out = Vec::new(alloc);
    for unit in units {
        out.push(without(alloc, unit, m)?)?;
    }
    Ok(out)
}
