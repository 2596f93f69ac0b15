//! The elimination step that a unit asks for, as data.

ghost use Rattle.std.specs.Prelude.{◌≡◌, ◌<ℤ◌, Some, map, pos, nat_abs, IfOk, IsTrue};
ghost use Rattle.std.proofs.Common.{neg_ℤ};
ghost use Rattle.um_units.specs.declared.Atom.TheVariants.{Var};
ghost use Rattle.um_units.specs.PowerMap.{power_of, replace};
ghost use Rattle.um_units.specs.Range.{all_in_range, fits, in_range, RangeUnless};
ghost use Rattle.um_elim.specs.declared.elim_step.ElimStep.{ElimStep as StepData};
ghost use Rattle.um_pivots.specs.Pivot.{pivot};
ghost use Rattle.um_elim.specs.ElimStep.{inverted_if_negative, is_negative, signed, multiply, quotients};
ghost use Rattle.um_elim.specs.ElimStep.{step_of, IsNextStep};
ghost use Rattle.um_pivots.specs.Quotients.{less_quotient};

use std::alloc::{AllocError, Global};
use um_pivots::{Pivot, negated_quotient, pivot_of};
use um_units::{Atom, NoMemory, Term, Unit, UnitStop};

/// An elimination step of a unit: the unit is inverted first or not, and a variable times `by` is put for the variable.
#[derive(Drop)]
pub struct ElimStep {
    pub variable: u32,
    pub inverted: bool,
    pub by: Unit,
}

/// The step that the elimination of the unit takes next, at its pivot: the variable with the least absolute power, and
/// of equals the one with the greatest number. The unit is inverted if that power is negative, and `by` brings each
/// other power below it (Kennedy 1996; the choice of the pivot is this project's own). None comes exactly if the unit
/// holds no variable.
pub fn next_step(alloc: Global, unit: &Unit) -> Result<Option<ElimStep>, NoMemory>
    ensures next { IfOk result (IsNextStep unit.now) }
    ensures fits { IfOk result (λ next. (step : StepData) → next ≡ Some step → IsTrue (fits step.by)) }
{
    match pivot_of(unit.terms()) {
        None => Ok(None),
        Some(pivot) => {
            let step = step_at(alloc, unit, pivot)?;
            Ok(Some(step))
        }
    }
}

/// The unit after the step.
pub fn unit_after_step(alloc: Global, unit: &Unit, step: &ElimStep) -> Result<Unit, UnitStop>
    ensures exact { IfOk result (λ u. u
        ≡ replace (multiply step.now.variable step.now.by) (signed step.now.inverted unit.now)) }
    ensures range { RangeUnless result
        (fits (replace (multiply step.now.variable step.now.by) (signed step.now.inverted unit.now))) }
{
    if step.inverted {
        let inverse = unit.inv(alloc)?;
        return multiplied(alloc, &inverse, step.variable, &step.by);
    }
    multiplied(alloc, unit, step.variable, &step.by)
}

/// The step at the unit's pivot.
fn step_at(alloc: Global, unit: &Unit, at: Pivot) -> Result<ElimStep, AllocError>
    requires fits { IsTrue (fits unit.now) }
    requires pivot { pivot unit.now ≡ Some at }
    ensures step { IfOk result (λ step. step ≡ step_of at unit.now) }
    ensures fits { IfOk result (λ step. IsTrue (fits step.by)) }
{
    let by = factor_at(alloc, unit, at)?;
    Ok(ElimStep {
        variable: at.variable,
        inverted: is_negative(at.power),
        by,
    })
}

/// What the pivot is multiplied by in its step.
fn factor_at(alloc: Global, unit: &Unit, at: Pivot) -> Result<Unit, AllocError>
    requires fits { IsTrue (fits unit.now) }
    requires pivot { pivot unit.now ≡ Some at }
    ensures exact { IfOk result (λ u. u
        ≡ quotients at.variable (nat_abs at.power) (inverted_if_negative at.power unit.now)) }
    ensures fits { IfOk result (λ u. IsTrue (fits u)) }
{
    if absolute(at.power) == 1 {
        return variable_over(alloc, unit, at.variable, at.power);
    }
    let positive = signed(alloc, unit, is_negative(at.power))?;
    quotients_of(alloc, &positive, at.variable, absolute(at.power))
}

/// Variable m over the unit, which is inverted first if the power of m in it is negative. This power is 1 or -1, so
/// that each quotient is the power that is divided.
fn variable_over(alloc: Global, unit: &Unit, m: u32, power: i32) -> Result<Unit, AllocError>
    requires fits { IsTrue (fits unit.now) }
    requires single { nat_abs power ≡ 1 }
    requires power { power_of unit.now (Var m) ≡ power }
    ensures exact { IfOk result (λ u. u ≡ quotients m (nat_abs power) (inverted_if_negative power unit.now)) }
    ensures fits { IfOk result (λ u. IsTrue (fits u)) }
{
    let variable = Unit::atom(alloc, Atom::Var(m))?;
    let times = negated(power);
    match variable.mul_pow(alloc, unit, times) {
        Ok(unit) => Ok(unit),
        Err(UnitStop::NoMemory) => Err(AllocError),
        Err(UnitStop::Range) => unreachable!(),
    }
}

fn is_negative(power: i32) -> bool
    ensures { result ≡ is_negative power }
{
    power < 0
}

/// The unit, inverted or as it is.
fn signed(alloc: Global, unit: &Unit, inverted: bool) -> Result<Unit, AllocError>
    ensures { IfOk result (λ u. u ≡ signed inverted unit.now) }
{
    if inverted {
        unit.inv(alloc)
    } else {
        unit.copy(alloc)
    }
}

fn negated(power: i32) -> i32
    requires { IsTrue (in_range power) }
    ensures { result ≡ neg_ℤ power }
{
    -power
}

fn absolute(power: i32) -> i32
    requires { IsTrue (in_range power) }
    ensures { result ≡ pos (nat_abs power) }
{
    if power < 0 { -power } else { power }
}

/// The product over the atoms y other than variable m of y to the negated quotient, rounded down, of its power and p.
fn quotients_of(alloc: Global, unit: &Unit, m: u32, p: i32) -> Result<Unit, AllocError>
    requires { pos 0 <ℤ p }
    ensures exact { IfOk result (λ u. u ≡ quotients m (nat_abs p) unit.now) }
    ensures fits { IfOk result (λ u. IsTrue (fits u)) }
{
    let terms = negated_quotients(alloc, unit.terms(), m, p)?;
    match Unit::from_terms(alloc, &terms) {
        Ok(unit) => Ok(unit),
        Err(UnitStop::NoMemory) => Err(AllocError),
        Err(UnitStop::Range) => unreachable!(),
    }
}

fn negated_quotients(alloc: Global, terms: &[Term], m: u32, p: i32) -> Result<Vec<Term>, AllocError>
    requires range { IsTrue (all_in_range terms.now) }
    requires p { pos 0 <ℤ p }
    ensures exact { IfOk result (λ v. v.items ≡ map (less_quotient m (nat_abs p)) terms.now) }
{
    let mut out = Vec::new(alloc);
    for term in terms {
        out.push(negated_quotient(*term, m, p))?;
    }
    Ok(out)
}

/// The unit with variable m times w put for variable m.
pub fn multiplied(alloc: Global, unit: &Unit, m: u32, w: &Unit) -> Result<Unit, UnitStop>
    ensures exact { IfOk result (λ u. u ≡ replace (multiply m w.now) unit.now) }
    ensures range { RangeUnless result (fits (replace (multiply m w.now) unit.now)) }
{
    let power = unit.power_of(Atom::Var(m));
    unit.mul_pow(alloc, w, power)
}
