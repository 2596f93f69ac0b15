//! The units of unit texts.

ghost use Rattle.std.specs.Prelude.{◌≡◌, IfOk, IfErr, map};
ghost use Rattle.um_units.specs.Range.{RangeUnless, fits};
ghost use Rattle.um_tree.specs.RawTree.{unit_syntax, units_in_order};
ghost use Rattle.um_measures.specs.Known.{short_unit};
ghost use Rattle.um_measures.specs.UnitNames.{first_place, first_of, unknown_in, unknown_among, unit_of, product_of};
ghost use Rattle.um_measures.specs.UnitNames.{parts_fit, products_fit, resolved_unit};
ghost use Rattle.um_measures.specs.Stops.{IsFirst};
ghost use Rattle.std.specs.Prelude.{Ok};
ghost use Rattle.um_units.specs.PowerMap.{one, mul, inv, pow};
ghost use Rattle.um_measures.specs.UnitNames.{unless, or_one, variable_unit};
ghost use Rattle.um_measures.specs.SingleUnits.{known_unit};

use crate::measures::Measures;
use crate::running::RunningProduct;
use crate::stop::NameStop;
use crate::table::NameTable;
use std::alloc::{AllocError, Global};
use um_tree::{Name, RawUnit};
use um_units::{Atom, Unit, UnitStop};

/// So few units are multiplied one after another; the product of more grows in place.
const FEW_UNITS: usize = 8;

/// The place of the first token of a unit text.
#[cycle(first_place)]
fn first_place(raw: &RawUnit) -> u32
    ensures { result ≡ first_place (unit_syntax raw.now) }
{
    match raw {
        RawUnit::One(at)
        | RawUnit::Name(at, _)
        | RawUnit::Var(at, _)
        | RawUnit::Inverse(at, _)
        | RawUnit::Bracket(at, _) => *at,
        RawUnit::Power(u, _) | RawUnit::Times(u, _) | RawUnit::Over(u, _) => first_place(u),
        RawUnit::Side(units) => first_of(&units.items),
    }
}

#[cycle(first_place)]
fn first_of(units: &[RawUnit]) -> u32
    ensures { result ≡ first_of (units_in_order (map unit_syntax units.now)) }
{
    if units.is_empty() {
        0
    } else {
        first_place(&units[0])
    }
}

/// The place of the first name or variable in the order of a unit text that isn't known: of a measure among these
/// measures, of a unit variable among these names.
#[cycle(unknown)]
pub fn first_unknown(measures: &Measures, variables: &NameTable, raw: &RawUnit) -> Option<u32>
    ensures { result ≡ unknown_in (short_unit measures.now) variables.now (unit_syntax raw.now) }
{
    match raw {
        RawUnit::One(_) => None,
        RawUnit::Name(at, name) => unless(measures.has(name.as_slice()), *at),
        RawUnit::Var(at, name) => unless(variables.has(name.as_slice()), *at),
        RawUnit::Power(u, _) | RawUnit::Inverse(_, u) | RawUnit::Bracket(_, u) => {
            first_unknown(measures, variables, u)
        }
        RawUnit::Times(u, v) | RawUnit::Over(u, v) => match first_unknown(measures, variables, u) {
            Some(at) => Some(at),
            None => first_unknown(measures, variables, v),
        },
        RawUnit::Side(units) => unknown_among(measures, variables, &units.items),
    }
}

#[cycle(unknown)]
fn unknown_among(measures: &Measures, variables: &NameTable, units: &[RawUnit]) -> Option<u32>
    ensures { result ≡ unknown_among (short_unit measures.now) variables.now
        (units_in_order (map unit_syntax units.now)) }
{
    for i in 0..units.len() {
        if let Some(at) = first_unknown(measures, variables, &units[i]) {
            return Some(at);
        }
    }
    None
}

fn unless(known: bool, at: u32) -> Option<u32>
    ensures { result ≡ unless known at }
{
    if known { None } else { Some(at) }
}

/// The unit of a measure; 1 where it isn't known.
fn measure(alloc: Global, measures: &Measures, name: &Name) -> Result<Unit, AllocError>
    ensures { IfOk result (λ unit. unit ≡ or_one (short_unit measures.now name.now)) }
{
    match measures.unit(name.as_slice()) {
        Some(unit) => unit.copy(alloc),
        None => Ok(Unit::one(alloc)),
    }
}

/// The unit of a variable; 1 where it isn't known.
fn variable(alloc: Global, variables: &NameTable, name: &Name) -> Result<Unit, AllocError>
    ensures { IfOk result (λ unit. unit ≡ or_one (variable_unit variables.now name.now)) }
{
    match variables.number(name.as_slice()) {
        Some(k) => Unit::atom(alloc, Atom::Var(k)),
        None => Ok(Unit::one(alloc)),
    }
}

/// The product of both.
fn times(alloc: Global, left: Unit, right: Unit) -> Result<Unit, UnitStop>
    ensures exact { IfOk result (λ unit. unit ≡ mul left right) }
    ensures range { RangeUnless result (fits (mul left right)) }
{
    left.mul(alloc, &right)
}

/// The first over the second.
fn over(alloc: Global, left: Unit, right: Unit) -> Result<Unit, UnitStop>
    ensures exact { IfOk result (λ unit. unit ≡ mul left (inv right)) }
    ensures range { RangeUnless result (fits (mul left (inv right))) }
{
    left.mul_pow(alloc, &right, -1)
}

/// The k-th power.
fn raised(alloc: Global, base: Unit, k: i32) -> Result<Unit, UnitStop>
    ensures exact { IfOk result (λ unit. unit ≡ pow base k) }
    ensures range { RangeUnless result (fits (pow base k)) }
{
    base.pow(alloc, k)
}

/// The inverse.
fn inverted(alloc: Global, unit: Unit) -> Result<Unit, AllocError>
    ensures { IfOk result (λ inverse. inverse ≡ inv unit) }
{
    unit.inv(alloc)
}

/// The running product times the unit.
fn grown(running: RunningProduct, unit: Unit) -> Result<RunningProduct, UnitStop>
    ensures exact { IfOk result (λ grown. grown ≡ mul running unit) }
    ensures range { RangeUnless result (fits (mul running unit)) }
{
    running.times(&unit)
}

/// The unit of a text, with a name that isn't known as 1. Range comes exactly where a part is out of range.
#[cycle(evaluated)]
fn evaluated(
    alloc: Global,
    measures: &Measures,
    variables: &NameTable,
    raw: &RawUnit,
) -> Result<Unit, UnitStop>
    ensures exact { IfOk result (λ unit. unit ≡ unit_of (short_unit measures.now) variables.now (unit_syntax raw.now)) }
    ensures range { RangeUnless result (parts_fit (short_unit measures.now) variables.now (unit_syntax raw.now)) }
{
    match raw {
        RawUnit::One(_) => Ok(Unit::one(alloc)),
        RawUnit::Name(_, name) => Ok(measure(alloc, measures, name)?),
        RawUnit::Var(_, name) => Ok(variable(alloc, variables, name)?),
        RawUnit::Power(u, k) => raised(alloc, evaluated(alloc, measures, variables, u)?, *k),
        RawUnit::Side(units) if units.items.len() <= FEW_UNITS => {
            product_of_few(alloc, measures, variables, &units.items)
        }
        RawUnit::Side(units) => product(alloc, measures, variables, &units.items),
        RawUnit::Times(u, v) => {
            let left = evaluated(alloc, measures, variables, u)?;
            match evaluated(alloc, measures, variables, v) {
                Ok(right) => times(alloc, left, right),
                Err(stop) => {
                    drop(left);
                    Err(stop)
                }
            }
        }
        RawUnit::Over(u, v) => {
            let left = evaluated(alloc, measures, variables, u)?;
            match evaluated(alloc, measures, variables, v) {
                Ok(right) => over(alloc, left, right),
                Err(stop) => {
                    drop(left);
                    Err(stop)
                }
            }
        }
        RawUnit::Inverse(_, u) => Ok(inverted(alloc, evaluated(alloc, measures, variables, u)?)?),
        RawUnit::Bracket(_, u) => evaluated(alloc, measures, variables, u),
    }
}

/// The product of these, from left to right.
#[cycle(evaluated)]
fn product(
    alloc: Global,
    measures: &Measures,
    variables: &NameTable,
    units: &[RawUnit],
) -> Result<Unit, UnitStop>
    ensures exact { IfOk result (λ unit. unit
        ≡ product_of (short_unit measures.now) variables.now one (units_in_order (map unit_syntax units.now))) }
    ensures range { RangeUnless result (products_fit (short_unit measures.now) variables.now one
        (units_in_order (map unit_syntax units.now))) }
{
    let mut running = RunningProduct::new(alloc);
    for i in 0..units.len() {
        match evaluated(alloc, measures, variables, &units[i]) {
            Ok(unit) => running = grown(running, unit)?,
            Err(stop) => {
                drop(running);
                return Err(stop);
            }
        }
    }
    let product = running.to_unit(alloc);
    drop(running);
    Ok(product?)
}

/// The same, one product of two units after another.
#[cycle(evaluated)]
fn product_of_few(
    alloc: Global,
    measures: &Measures,
    variables: &NameTable,
    units: &[RawUnit],
) -> Result<Unit, UnitStop>
    ensures exact { IfOk result (λ unit. unit
        ≡ product_of (short_unit measures.now) variables.now one (units_in_order (map unit_syntax units.now))) }
    ensures range { RangeUnless result (products_fit (short_unit measures.now) variables.now one
        (units_in_order (map unit_syntax units.now))) }
{
    let mut before = Unit::one(alloc);
    for i in 0..units.len() {
        match evaluated(alloc, measures, variables, &units[i]) {
            Ok(unit) => before = times(alloc, before, unit)?,
            Err(stop) => {
                drop(before);
                return Err(stop);
            }
        }
    }
    Ok(before)
}

/// The unit of a measure that stands alone.
fn measure_alone(alloc: Global, measures: &Measures, at: u32, name: &Name) -> Result<Unit, NameStop>
    ensures exact { IfOk result (λ unit. known_unit (short_unit measures.now name.now) at ≡ Ok unit) }
    ensures faults { IfErr result (IsFirst (known_unit (short_unit measures.now name.now) at)) }
{
    match measures.unit(name.as_slice()) {
        Some(unit) => Ok(unit.copy(alloc)?),
        None => Err(NameStop::Unknown { at }),
    }
}

/// The unit of a variable that stands alone.
fn variable_alone(
    alloc: Global,
    variables: &NameTable,
    at: u32,
    name: &Name,
) -> Result<Unit, NameStop>
    ensures exact { IfOk result (λ unit. known_unit (variable_unit variables.now name.now) at ≡ Ok unit) }
    ensures faults { IfErr result (IsFirst (known_unit (variable_unit variables.now name.now) at)) }
{
    match variables.number(name.as_slice()) {
        Some(k) => Ok(Unit::atom(alloc, Atom::Var(k))?),
        None => Err(NameStop::Unknown { at }),
    }
}

/// The unit of a text of any form.
fn whole_unit(
    alloc: Global,
    measures: &Measures,
    variables: &NameTable,
    raw: &RawUnit,
) -> Result<Unit, NameStop>
    ensures exact { IfOk result (λ unit. resolved_unit (short_unit measures.now) variables.now
        (unit_syntax raw.now) ≡ Ok unit) }
    ensures faults { IfErr result (IsFirst (resolved_unit (short_unit measures.now) variables.now
        (unit_syntax raw.now))) }
{
    if let Some(at) = first_unknown(measures, variables, raw) {
        return Err(NameStop::Unknown { at });
    }
    match evaluated(alloc, measures, variables, raw) {
        Ok(unit) => Ok(unit),
        Err(UnitStop::Range) => Err(NameStop::Range {
            at: first_place(raw),
        }),
        Err(UnitStop::NoMemory) => Err(NameStop::NoMemory),
    }
}

/// The unit of a text where these measures and unit variables are known.
///
/// A measure stands for its unit, and a unit variable for its number. Unknown comes at the first name or variable that
/// isn't known. Else Range comes at the text's first token where a part, or a prefix of a juxtaposition, has a power
/// out of range. The rule of measures is the F# specification's, Units Of Measure; the range is this project's own.
pub fn resolved_unit(
    alloc: Global,
    measures: &Measures,
    variables: &NameTable,
    raw: &RawUnit,
) -> Result<Unit, NameStop>
    ensures exact { IfOk result (λ unit. resolved_unit (short_unit measures.now) variables.now
        (unit_syntax raw.now) ≡ Ok unit) }
    ensures faults { IfErr result (IsFirst (resolved_unit (short_unit measures.now) variables.now
        (unit_syntax raw.now))) }
{
    match raw {
        RawUnit::Name(at, name) => measure_alone(alloc, measures, *at, name),
        RawUnit::Var(at, name) => variable_alone(alloc, variables, *at, name),
        _ => whole_unit(alloc, measures, variables, raw),
    }
}
