//! What is kept for a certificate beside the elimination of rows.

ghost use Rattle.std.specs.Prelude.{◌≡◌, ◌≤◌, ◌<◌, ◌+◌, ◌^◌, All, length, map, set, pos, nat_abs, true, IfOk, OnOk};
ghost use Rattle.std.specs.Prelude.{MatchResult, IfErr};
ghost use Rattle.um_units.specs.declared.Atom.TheVariants.{Var};
ghost use Rattle.um_units.specs.PowerMap.{PowerMap, one, atom, inv, mul, pow, power_of, replace, nth};
ghost use Rattle.um_units.specs.Variables.{VariablesBelow};
ghost use Rattle.um_elim.specs.ElimStep.{multiply, substitute};
ghost use Rattle.um_elim.specs.Solution.{rigid_unit};
ghost use Rattle.um_rows.specs.Generalised.{generalised_unit as unit_in_place};
ghost use Rattle.um_wide.specs.Room.{IsNarrow, IsWithin};
ghost use Rattle.std.proofs.Common.{neg_ℤ};
ghost use Rattle.std.specs.Int.Signed.{◌<ℤ◌};
ghost use Rattle.um_kept.specs.Kept.{first};
ghost use Rattle.um_kept.specs.Answers.{Agrees, CarriesPower};
ghost use Rattle.um_kept.specs.Steps.{ArePartsAfter, CarriesOneOf, CarriesOneOfParts};

use crate::CertStop;
use crate::past::{first_past_of, narrowed, times, unit_of};
use std::alloc::{AllocError, Global};
use um_elim::ElimStep;
use um_infer::generalised_unit;
use um_units::{Atom, Unit};
use um_wide::WideUnit;

/// How many slots there are, how many of them are those of unit parameters, which come first, and how many base units
/// are declared.
#[derive(Clone, Copy)]
pub struct Head {
    pub slots: u32,
    pub parameters: u32,
    pub bases: u32,
}

/// A certificate under way: what is kept of the rows so far.
#[derive(Drop)]
pub struct PartialCertificate {
    /// A unit for each slot.
    pub solution: Vec<Unit>,
    /// The inverse substitution: for the variable of each slot, and then for the base unit of each unit parameter, the
    /// unit over slots that it goes back to.
    pub back: Vec<Unit>,
    pub divisor: i64,
    /// For each slot the powers of rows by which it comes back, up to the power `divisor`: a unit over the rows'
    /// numbers.
    pub parts: Vec<WideUnit>,
}

/// What is kept before any row.
pub fn first_kept(alloc: Global, head: Head) -> Result<PartialCertificate, AllocError>
    requires few { head.slots ≤ 2000 }
    requires parameters { head.parameters ≤ head.slots }
    requires bases { head.bases + head.parameters < 2 ^ 32 }
    ensures { IfOk result (λ partial. Agrees head partial (first head.bases head.parameters head.slots)) }
{
    let mut solution = Vec::new(alloc);
    let mut back = Vec::new(alloc);
    let mut parts = Vec::new(alloc);
    for slot in 0..head.slots {
        solution.push(first_unit(alloc, head, slot)?)?;
        back.push(Unit::atom(alloc, Atom::Var(slot))?)?;
        parts.push(WideUnit::one(alloc))?;
    }
    for k in 0..head.parameters {
        back.push(Unit::atom(alloc, Atom::Var(k))?)?;
    }
    Ok(PartialCertificate {
        solution,
        back,
        divisor: 1,
        parts,
    })
}

fn first_unit(alloc: Global, head: Head, slot: u32) -> Result<Unit, AllocError>
    requires { head.bases + head.parameters < 2 ^ 32 }
    ensures { IfOk result (λ unit. unit ≡ rigid_unit head.bases head.parameters slot) }
{
    if slot < head.parameters {
        return Unit::atom(alloc, Atom::Base(head.bases + slot));
    }
    Unit::atom(alloc, Atom::Var(slot))
}

/// Variable m times w for variable m in each unit.
pub fn multiply_all(alloc: Global, units: &mut Vec<Unit>, m: u32, w: &Unit) -> Result<(), CertStop>
    ensures exact { OnOk result (units.new.items ≡ map (replace (multiply m w.now)) units.old.items) }
    ensures range { IfErr result (CarriesOneOf 2147483647 (map (replace (multiply m w.now)) units.old.items)) }
{
    for j in 0..units.len() {
        let power = units[j].power_of(Atom::Var(m));
        if power == 0 {
            continue;
        }
        let unit = times(alloc, &units[j], 1, w, power)?;
        units[j] = unit;
    }
    Ok(())
}

/// The inverse of what the inverse substitution gives for the unit, in which the base unit of a unit parameter stands
/// for the parameter's slot.
fn inverse_image(
    alloc: Global,
    back: &[Unit],
    head: Head,
    unit: &Unit,
) -> Result<WideUnit, AllocError>
    requires below { VariablesBelow head.slots unit.now }
    requires bases { head.bases + head.parameters < 2 ^ 32 }
    requires slots { head.slots + head.parameters < 2 ^ 32 }
    ensures exact { IfOk result (λ image. image ≡ inv (replace (nth back.now)
        (unit_in_place head.bases head.parameters head.slots unit.now))) }
    ensures room { IfOk result (IsWithin (2 ^ 126)) }
{
    let in_place = generalised_unit(alloc, head.bases, head.parameters, head.slots, unit)?;
    let inverse = in_place.inv(alloc)?;
    WideUnit::replaced(alloc, &inverse, back)
}

/// The product of a unit and such an image.
fn times_image(alloc: Global, unit: &Unit, image: &WideUnit) -> Result<Unit, CertStop>
    requires { IsWithin (2 ^ 126) image.now }
    ensures { MatchResult result (λ made. made ≡ mul unit.now image.now)
        (CarriesPower 2147483647 (mul unit.now image.now)) }
{
    let own = WideUnit::power(alloc, unit, 1)?;
    let product = own.mul(alloc, image)?;
    unit_of(alloc, &product)
}

/// What the inverse substitution gives for the step's variable, divided by what it gives for the product by which the
/// step multiplies it. In this product the base unit of a unit parameter stands for the parameter's slot.
pub fn divide_back(
    alloc: Global,
    back: &mut Vec<Unit>,
    head: Head,
    step: &ElimStep,
) -> Result<(), CertStop>
    requires count { length back.old.items ≡ head.slots + head.parameters }
    requires variable { step.now.variable < head.slots }
    requires below { VariablesBelow head.slots step.now.by }
    requires bases { head.bases + head.parameters < 2 ^ 32 }
    requires slots { head.slots + head.parameters < 2 ^ 32 }
    ensures exact { OnOk result (back.new.items ≡ set back.old.items step.now.variable
        (mul (nth back.old.items step.now.variable) (inv (replace (nth back.old.items)
        (unit_in_place head.bases head.parameters head.slots step.now.by))))) }
    ensures range { IfErr result (CarriesPower 2147483647
        (mul (nth back.old.items step.now.variable) (inv (replace (nth back.old.items)
        (unit_in_place head.bases head.parameters head.slots step.now.by))))) }
{
    let image = inverse_image(alloc, back, head, &step.by)?;
    back[step.variable as usize] = times_image(alloc, &back[step.variable as usize], &image)?;
    Ok(())
}

/// Variable m becomes 1 in the unit.
fn without(alloc: Global, unit: &Unit, m: u32) -> Result<Unit, AllocError>
    ensures { IfOk result (λ made. made ≡ replace (substitute m one) unit.now) }
{
    let variable = Unit::atom(alloc, Atom::Var(m))?;
    match times(alloc, unit, 1, &variable, -unit.power_of(Atom::Var(m))) {
        Ok(made) => Ok(made),
        Err(CertStop::NoMemory) => Err(AllocError),
        Err(CertStop::CertRange { number: _ }) => unreachable!(),
    }
}

/// Variable m becomes 1 in each unit.
fn end_units(alloc: Global, units: &mut Vec<Unit>, m: u32) -> Result<(), AllocError>
    ensures { OnOk result (units.new.items ≡ map (replace (substitute m one)) units.old.items) }
{
    for j in 0..units.len() {
        let power = units[j].power_of(Atom::Var(m));
        if power == 0 {
            continue;
        }
        let unit = without(alloc, &units[j], m)?;
        units[j] = unit;
    }
    Ok(())
}

/// Divides the powers of rows of one slot by those of the row to the power e, in place.
fn take_row(alloc: Global, parts: &mut WideUnit, total: &WideUnit, e: i32) -> Result<(), CertStop>
    requires parts { IsNarrow parts.old }
    requires total { IsNarrow total.now }
    ensures exact { OnOk result (parts.new ≡ mul parts.old (pow total.now (neg_ℤ e))) }
    ensures narrow { MatchResult result (λ _. IsNarrow parts.new)
        (CarriesPower 9223372036854775807 (mul parts.old (pow total.now (neg_ℤ e)))) }
{
    parts.mul_power(alloc, total, -i64::from(e))?;
    match first_past_of(parts, total) {
        None => Ok(()),
        Some(number) => Err(CertStop::CertRange { number }),
    }
}

/// The powers of rows of one slot to the power p, divided by those of the row to the power e.
fn raised_parts(
    alloc: Global,
    parts: &WideUnit,
    p: i32,
    total: &WideUnit,
    e: i32,
) -> Result<WideUnit, CertStop>
    requires parts { IsNarrow parts.now }
    requires total { IsNarrow total.now }
    ensures exact { IfOk result (λ made. made ≡ mul (pow parts.now p) (pow total.now (neg_ℤ e))) }
    ensures narrow { MatchResult result IsNarrow
        (CarriesPower 9223372036854775807 (mul (pow parts.now p) (pow total.now (neg_ℤ e)))) }
{
    let mut made = parts.pow(alloc, i64::from(p))?;
    made.mul_power(alloc, total, -i64::from(e))?;
    narrowed(made)
}

/// The powers of rows of one slot if variable m to the power p became 1 and occurred in the slot's unit to the power e.
fn slot_parts(
    alloc: Global,
    parts: &mut WideUnit,
    p: i32,
    total: &WideUnit,
    e: i32,
) -> Result<(), CertStop>
    requires parts { IsNarrow parts.old }
    requires total { IsNarrow total.now }
    ensures exact { OnOk result (parts.new ≡ mul (pow parts.old p) (pow total.now (neg_ℤ e))) }
    ensures narrow { MatchResult result (λ _. IsNarrow parts.new)
        (CarriesPower 9223372036854775807 (mul (pow parts.old p) (pow total.now (neg_ℤ e)))) }
{
    if p == 1 {
        return take_row(alloc, parts, total, e);
    }
    *parts = raised_parts(alloc, parts, p, total, e)?;
    Ok(())
}

/// Whether the powers of rows of a slot stay, if the variable that becomes 1 from the power p occurs in the slot's unit
/// to the power e.
fn stays(p: i32, e: i32) -> bool
    ensures { result ≡ true → (p ≡ pos 1) × (e ≡ pos 0) }
{
    p == 1 && e == 0
}

/// Each slot's powers of rows are p times those before, less those of the row as often as variable m occurs in the
/// slot's unit.
fn end_parts(
    alloc: Global,
    solution: &[Unit],
    parts: &mut Vec<WideUnit>,
    m: u32,
    p: i32,
    total: &WideUnit,
) -> Result<(), CertStop>
    requires count { length parts.old.items ≡ length solution.now }
    requires narrow { All IsNarrow parts.old.items }
    requires total { IsNarrow total.now }
    requires p { pos 0 <ℤ p }
    ensures parts { OnOk result (ArePartsAfter m (nat_abs p) total.now solution.now parts.old.items parts.new.items) }
    ensures narrow { OnOk result (All IsNarrow parts.new.items) }
    ensures range { IfErr result (CarriesOneOfParts m (nat_abs p) total.now solution.now parts.old.items) }
{
    for j in 0..solution.len() {
        let e = solution[j].power_of(Atom::Var(m));
        if stays(p, e) {
            continue;
        }
        slot_parts(alloc, &mut parts[j], p, total, e)?;
    }
    Ok(())
}

/// Variable m, left to the power p, becomes 1: each slot's powers of rows are p times those before, less those of the
/// row as often as the variable occurs in the slot's unit.
pub fn end_variable(
    alloc: Global,
    solution: &mut Vec<Unit>,
    parts: &mut Vec<WideUnit>,
    m: u32,
    p: i32,
    total: &WideUnit,
) -> Result<(), CertStop>
    requires count { length parts.old.items ≡ length solution.old.items }
    requires narrow { All IsNarrow parts.old.items }
    requires total { IsNarrow total.now }
    requires p { pos 0 <ℤ p }
    ensures solution { OnOk result (solution.new.items ≡ map (replace (substitute m one)) solution.old.items) }
    ensures parts { OnOk result
        (ArePartsAfter m (nat_abs p) total.now solution.old.items parts.old.items parts.new.items) }
    ensures narrow { OnOk result (All IsNarrow parts.new.items) }
    ensures range { IfErr result (CarriesOneOfParts m (nat_abs p) total.now solution.old.items parts.old.items) }
{
    end_parts(alloc, solution, parts, m, p, total)?;
    end_units(alloc, solution, m)?;
    Ok(())
}
