//! The treatment of one row.

ghost use Rattle.std.specs.Prelude.{◌≡◌, ◌≤◌, ◌<◌, ◌+◌, ◌^◌, ◌*◌, ◌*ℤ◌, false, not, if◌then◌else◌};
ghost use Rattle.std.specs.Prelude.{List, [], ◌∷◌, All, length};
ghost use Rattle.std.specs.Prelude.{nat_abs, pos, None, slice_index_or, IfOk, OnOk, MatchResult, IfErr, IsTrue};
ghost use Rattle.std.specs.Int.Signed.{◌<ℤ◌};
ghost use Rattle.std.specs.List.{list_any};
ghost use Rattle.um_units.specs.declared.Atom.TheVariants.{Var};
ghost use Rattle.um_units.specs.declared.Term.{Term as TermData};
ghost use Rattle.um_units.specs.PowerMap.{PowerMap, one, atom, nth, pow, replace};
ghost use Rattle.um_units.specs.Variables.{VariablesBelow, atom_below};
ghost use Rattle.um_pivots.specs.Pivot.{is_base, is_other, pivot};
ghost use Rattle.um_elim.specs.ElimStep.{multiply, signed};
ghost use Rattle.um_wide.specs.Room.{IsNarrow, IsWithin};
ghost use Rattle.um_check.specs.Existence.{at_slot};
ghost use Rattle.um_kept.specs.Kept.{Kept};
ghost use Rattle.um_kept.specs.declared.kept.Head.{Head as HeadData};
ghost use Rattle.um_kept.specs.Answers.{Agrees, CarriesPower};
ghost use Rattle.um_kept.specs.Steps.{CarriesInRow, CarriesInStep, CarriesNumber, CarriesRefusal, IsLeftAlone, IsReady};
ghost use Rattle.um_kept.specs.Steps.{IsRowTreated, IsAfterStep, IsRowUnderWay, first_size, parts_product, sign_of};
ghost use Rattle.um_kept.specs.Steps.{total_in, variable_count};

use crate::CertStop;
use crate::kept::{Head, PartialCertificate, divide_back, end_variable, multiply_all};
use crate::past::{narrowed, times, unit_of};
use std::alloc::Global;
use um_elim::{ElimStep, next_step};
use um_units::{Atom, NoMemory, Term, Unit, UnitStop};
use um_wide::WideUnit;

/// That a row has no solution together with those before it: a product of rows by their numbers, and what divides its
/// power of each slot, and not that of each base unit.
#[derive(Drop)]
pub struct Refused {
    pub total: WideUnit,
    pub modulus: i64,
}

/// A row, whether the steps so far inverted it, and what they leave of it.
#[derive(Drop)]
struct TreatedRow<'a> {
    number: u32,
    unit: &'a Unit,
    inverted: bool,
    left: &'a Unit,
}

/// The row with the solution put for its slots, by wide units if a power is out of a unit's range.
fn put_in_row(alloc: Global, row: &Unit, solution: &[Unit]) -> Result<Unit, CertStop>
    ensures { MatchResult result (λ unit. unit ≡ replace (nth solution.now) row.now)
        (CarriesPower 2147483647 (replace (nth solution.now) row.now)) }
{
    match row.replace(alloc, solution) {
        Ok(unit) => Ok(unit),
        Err(UnitStop::NoMemory) => Err(CertStop::NoMemory),
        Err(UnitStop::Range) => put_in_wide_row(alloc, row, solution),
    }
}

fn put_in_wide_row(alloc: Global, row: &Unit, solution: &[Unit]) -> Result<Unit, CertStop>
    ensures { MatchResult result (λ unit. unit ≡ replace (nth solution.now) row.now)
        (CarriesPower 2147483647 (replace (nth solution.now) row.now)) }
{
    let image = WideUnit::replaced(alloc, row, solution)?;
    unit_of(alloc, &image)
}

fn signed_power(inverted: bool, power: i32) -> i64
    ensures { result ≡ sign_of inverted *ℤ power }
{
    if inverted {
        -i64::from(power)
    } else {
        i64::from(power)
    }
}

/// Row k to the power of the divisor, with a sign.
fn own_power(alloc: Global, k: u32, divisor: i64, inverted: bool) -> Result<WideUnit, NoMemory>
    requires { pos 0 <ℤ divisor }
    ensures exact { IfOk result (λ made. made ≡ pow (atom (Var k)) (sign_of inverted *ℤ divisor)) }
    ensures room { IfOk result (IsWithin 9223372036854775808) }
{
    if inverted {
        return WideUnit::atom_power(alloc, Atom::Var(k), -i128::from(divisor));
    }
    WideUnit::atom_power(alloc, Atom::Var(k), i128::from(divisor))
}

/// The powers of rows of the term's slot to the term's power. A base unit has none.
fn slot_power(
    alloc: Global,
    parts: &[WideUnit],
    term: Term,
    inverted: bool,
) -> Result<WideUnit, NoMemory>
    requires narrow { All IsNarrow parts.now }
    requires below { IsTrue (atom_below (length parts.now) term.atom) }
    ensures exact { IfOk result (λ made. made ≡ pow (at_slot (λ j. slice_index_or parts.now j one) term.atom)
        (sign_of inverted *ℤ term.power)) }
    ensures room { IfOk result (IsWithin (variable_count (term ∷ []) * (2147483648 * 9223372036854775807))) }
{
    match term.atom {
        Atom::Base(_) => Ok(WideUnit::one(alloc)),
        Atom::Var(slot) => parts[slot as usize].pow(alloc, signed_power(inverted, term.power)),
    }
}

/// The product over the slots of a row of each slot's powers of rows to the slot's power, by halves, with a sign.
fn product_of_parts(
    alloc: Global,
    parts: &[WideUnit],
    terms: &[Term],
    inverted: bool,
) -> Result<WideUnit, NoMemory>
    requires narrow { All IsNarrow parts.now }
    requires below { All (λ (t : TermData). IsTrue (atom_below (length parts.now) t.atom)) terms.now }
    requires few { variable_count terms.now ≤ 2000 }
    ensures exact { IfOk result (λ made. made ≡ parts_product (sign_of inverted) parts.now terms.now) }
    ensures room { IfOk result (IsWithin (variable_count terms.now * (2147483648 * 9223372036854775807))) }
{
    match terms {
        [] => Ok(WideUnit::one(alloc)),
        [term] => slot_power(alloc, parts, *term, inverted),
        _ => {
            let (front, back) = terms.split_at(terms.len() / 2);
            let left = product_of_parts(alloc, parts, front, inverted)?;
            let right = product_of_parts(alloc, parts, back, inverted)?;
            left.mul(alloc, &right)
        }
    }
}

/// The powers of rows that the inverse substitution gives for the row, with the sign of its steps.
fn row_total(
    alloc: Global,
    partial: &PartialCertificate,
    row: &TreatedRow,
) -> Result<WideUnit, CertStop>
    requires ready { IsReady partial.now row.now.unit.now }
    ensures exact { IfOk result (λ made. made
        ≡ signed row.now.inverted (total_in partial.now row.now.unit.now row.now.number)) }
    ensures narrow { MatchResult result IsNarrow (CarriesPower 9223372036854775807
        (signed row.now.inverted (total_in partial.now row.now.unit.now row.now.number))) }
{
    let own = own_power(alloc, row.number, partial.divisor, row.inverted)?;
    let others = product_of_parts(alloc, &partial.parts, row.unit.terms(), row.inverted)?;
    let sum = others.mul(alloc, &own)?;
    narrowed(sum)
}

/// The product of two positive numbers, which is to lie in 64 bits.
fn number_times(left: i64, right: i64) -> Result<i64, CertStop>
    requires left { pos 0 <ℤ left }
    requires right { (pos 0 <ℤ right) × (nat_abs right ≤ 2147483648) }
    ensures { MatchResult result (λ n. n ≡ left *ℤ right) (CarriesNumber (left *ℤ right)) }
{
    let product = i128::from(left) * i128::from(right);
    if product > i128::from(i64::MAX) {
        return Err(CertStop::CertRange { number: product });
    }
    Ok(product as i64)
}

/// Whether a variable other than m occurs in the terms.
fn has_other_variable(terms: &[Term], m: u32) -> bool
    ensures { result ≡ list_any (λ (t : TermData). is_other m t.atom) terms.now }
{
    terms.iter().any(|term| match term.atom {
        Atom::Base(_) => false,
        Atom::Var(k) => k != m,
    })
}

/// Whether a base unit occurs in the terms.
fn has_base_unit(terms: &[Term]) -> bool
    ensures { result ≡ list_any (λ (t : TermData). is_base t.atom) terms.now }
{
    terms.iter().any(|term| matches!(term.atom, Atom::Base(_)))
}

/// The absolute power of the first term.
fn first_size(terms: &[Term]) -> Option<u32>
    ensures { result ≡ first_size terms.now }
{
    match terms {
        [] => None,
        [term, ..] => Some(term.power.unsigned_abs()),
    }
}

/// Inverted once more, or as it was.
fn flipped(inverted: bool, again: bool) -> bool
    ensures { result ≡ (if again then not inverted else inverted) }
{
    if again { !inverted } else { inverted }
}

/// What the step leaves of the unit.
fn unit_after_step(alloc: Global, r: &Unit, step: &ElimStep) -> Result<Unit, CertStop>
    ensures { MatchResult result
        (λ left. left ≡ replace (multiply step.now.variable step.now.by) (signed step.now.inverted r.now))
        (CarriesPower 2147483647 (replace (multiply step.now.variable step.now.by) (signed step.now.inverted r.now))) }
{
    let power = r.power_of(Atom::Var(step.variable));
    if step.inverted {
        return times(alloc, r, -1, &step.by, -power);
    }
    times(alloc, r, 1, &step.by, power)
}

/// The step, of what is left of the row and of what is kept.
fn make_step(
    alloc: Global,
    partial: &mut PartialCertificate,
    head: Head,
    r: &Unit,
    step: &ElimStep,
) -> Result<Unit, CertStop>
    requires count { length partial.old.back.items ≡ head.slots + head.parameters }
    requires variable { step.now.variable < head.slots }
    requires below { VariablesBelow head.slots step.now.by }
    requires bases { head.bases + head.parameters < 2 ^ 32 }
    requires slots { head.slots + head.parameters < 2 ^ 32 }
    ensures left { IfOk result (λ left. left
        ≡ replace (multiply step.now.variable step.now.by) (signed step.now.inverted r.now)) }
    ensures range { IfErr result (CarriesInStep head partial.old.solution.items partial.old.back.items r.now
        step.now.variable step.now.inverted step.now.by) }
    ensures kept { OnOk result (IsAfterStep head partial.old partial.new step.now.variable step.now.by) }
{
    let left = unit_after_step(alloc, r, step)?;
    multiply_all(alloc, &mut partial.solution, step.variable, &step.by)?;
    divide_back(alloc, &mut partial.back, head, step)?;
    Ok(left)
}

/// The powers of rows that the inverse substitution gives for the row, and a factor times the divisor.
fn row_refusal(
    alloc: Global,
    partial: &PartialCertificate,
    row: &TreatedRow,
    factor: i64,
) -> Result<Refused, CertStop>
    requires ready { IsReady partial.now row.now.unit.now }
    requires factor { (pos 0 <ℤ factor) × (nat_abs factor ≤ 2147483648) }
    ensures total { IfOk result (λ refused. refused.total
        ≡ signed row.now.inverted (total_in partial.now row.now.unit.now row.now.number)) }
    ensures modulus { IfOk result (λ refused. refused.modulus ≡ partial.now.divisor *ℤ factor) }
    ensures narrow { IfOk result (λ refused. IsNarrow refused.total) }
    ensures range { IfErr result (CarriesRefusal
        (signed row.now.inverted (total_in partial.now row.now.unit.now row.now.number))
        (partial.now.divisor *ℤ factor)) }
{
    let total = row_total(alloc, partial, row)?;
    match number_times(partial.divisor, factor) {
        Ok(modulus) => Ok(Refused { total, modulus }),
        Err(stop) => {
            drop(total);
            Err(stop)
        }
    }
}

/// The end of a row of which no variable is left.
fn closed_end(
    alloc: Global,
    partial: &PartialCertificate,
    row: &TreatedRow,
) -> Result<Option<Refused>, CertStop>
    requires ready { IsReady partial.now row.now.unit.now }
    requires closed { pivot row.now.left.now ≡ None }
    ensures treated { (h : HeadData) (rows : List PowerMap) (kept : Kept) → row.now.unit.now ≡ nth rows row.now.number
        → IsRowUnderWay rows kept row.now.number h partial.now row.now.left.now row.now.inverted
        → IfOk result (IsRowTreated rows kept row.now.number h partial.now) }
    ensures range { (h : HeadData) (rows : List PowerMap) (kept : Kept) → row.now.unit.now ≡ nth rows row.now.number
        → IsRowUnderWay rows kept row.now.number h partial.now row.now.left.now row.now.inverted
        → IfErr result (CarriesInRow rows kept row.now.number) }
{
    match first_size(row.left.terms()) {
        None => Ok(None),
        Some(size) => {
            let factor = i64::from(size) + 1;
            let refused = row_refusal(alloc, partial, row, factor)?;
            Ok(Some(refused))
        }
    }
}

/// The end of a row of which one variable is left.
fn power_end(
    alloc: Global,
    partial: &mut PartialCertificate,
    row: &TreatedRow,
    m: u32,
) -> Result<Option<Refused>, CertStop>
    requires ready { IsReady partial.old row.now.unit.now }
    requires count { length partial.old.parts.items ≡ length partial.old.solution.items }
    requires alone { IsLeftAlone m row.now.left.now }
    ensures treated { (h : HeadData) (rows : List PowerMap) (kept : Kept) → row.now.unit.now ≡ nth rows row.now.number
        → IsRowUnderWay rows kept row.now.number h partial.old row.now.left.now row.now.inverted
        → IfOk result (IsRowTreated rows kept row.now.number h partial.new) }
    ensures range { (h : HeadData) (rows : List PowerMap) (kept : Kept) → row.now.unit.now ≡ nth rows row.now.number
        → IsRowUnderWay rows kept row.now.number h partial.old row.now.left.now row.now.inverted
        → IfErr result (CarriesInRow rows kept row.now.number) }
{
    let p = row.left.power_of(Atom::Var(m));
    let refused = row_refusal(alloc, partial, row, i64::from(p))?;
    if has_base_unit(row.left.terms()) {
        return Ok(Some(refused));
    }
    end_variable(
        alloc,
        &mut partial.solution,
        &mut partial.parts,
        m,
        p,
        &refused.total,
    )?;
    partial.divisor = refused.modulus;
    drop(refused);
    Ok(None)
}

/// Treats row k: elimination steps are made of what the solution makes of it, until one variable or none is left.
pub fn make_row(
    alloc: Global,
    partial: &mut PartialCertificate,
    head: Head,
    k: u32,
    row: &Unit,
) -> Result<Option<Refused>, CertStop>
    requires few { head.slots ≤ 2000 }
    requires parameters { head.parameters ≤ head.slots }
    requires bases { head.bases + head.parameters < 2 ^ 32 }
    requires below { VariablesBelow head.slots row.now }
    requires partial { (kept : Kept) × Agrees head partial.old kept }
    ensures treated { (rows : List PowerMap) (kept : Kept) → row.now ≡ nth rows k → Agrees head partial.old kept
        → IfOk result (IsRowTreated rows kept k head partial.new) }
    ensures range { (rows : List PowerMap) (kept : Kept) → row.now ≡ nth rows k → Agrees head partial.old kept
        → IfErr result (CarriesInRow rows kept k) }
{
    let mut r = put_in_row(alloc, row, &partial.solution)?;
    let treated = make_steps(alloc, partial, head, k, row, &mut r);
    drop(r);
    treated
}

/// The same from what the solution makes of the row.
fn make_steps(
    alloc: Global,
    partial: &mut PartialCertificate,
    head: Head,
    k: u32,
    row: &Unit,
    r: &mut Unit,
) -> Result<Option<Refused>, CertStop>
    requires few { head.slots ≤ 2000 }
    requires parameters { head.parameters ≤ head.slots }
    requires bases { head.bases + head.parameters < 2 ^ 32 }
    requires below { VariablesBelow head.slots row.now }
    requires partial { (kept : Kept) × Agrees head partial.old kept }
    requires left_below { VariablesBelow head.slots r.old }
    requires row_under_way { (rows : List PowerMap) (kept : Kept) → row.now ≡ nth rows k → Agrees head partial.old kept
        → IsRowUnderWay rows kept k head partial.old r.old false }
    ensures treated { (rows : List PowerMap) (kept : Kept) → row.now ≡ nth rows k → Agrees head partial.old kept
        → IfOk result (IsRowTreated rows kept k head partial.new) }
    ensures range { (rows : List PowerMap) (kept : Kept) → row.now ≡ nth rows k → Agrees head partial.old kept
        → IfErr result (CarriesInRow rows kept k) }
{
    let mut inverted = false;
    loop {
        match next_step(alloc, r)? {
            None => {
                let row = TreatedRow {
                    number: k,
                    unit: row,
                    inverted,
                    left: r,
                };
                return closed_end(alloc, partial, &row);
            }
            Some(step) => {
                let left = make_step(alloc, partial, head, r, &step)?;
                inverted = flipped(inverted, step.inverted);
                let m = step.variable;
                drop(step);
                *r = left;
                if !has_other_variable(r.terms(), m) {
                    let row = TreatedRow {
                        number: k,
                        unit: row,
                        inverted,
                        left: r,
                    };
                    return power_end(alloc, partial, &row, m);
                }
            }
        }
    }
}
