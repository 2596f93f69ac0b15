//! Elimination steps of units whose powers have 64 bits.

ghost use Rattle.std.specs.Prelude.{◌≡◌, ◌≤◌, ◌<ℤ◌, All, IfOk, Some, option_map, map, pos, nat_abs};
ghost use Rattle.std.specs.List.{list_any};
ghost use Rattle.um_units.specs.PowerMap.{atom, mul, pow};
ghost use Rattle.um_pivots.specs.Pivot.{is_base, is_other, lesser_with, pivot, pivot_of};
ghost use Rattle.um_elim.specs.ElimStep.{inverted_if_negative, quotients};
ghost use Rattle.um_pivots.specs.Quotients.{less_quotient};
ghost use Rattle.um_wide.specs.Room.{IsNarrow};
ghost use Rattle.um_units.specs.Wide.{as_terms};
ghost use Rattle.um_reasons.specs.Wide.{IsAfterStep, as_pivot, sign_of};

use crate::powers::{all_multiplied, multiplied, narrowed, times_atom};
use std::alloc::{AllocError, Global};
use um_units::Atom;
use um_units::wide::WideTerm;
use um_wide::WideUnit;

/// A variable of a row and its power.
#[derive(Clone, Copy)]
pub(crate) struct WidePivot {
    pub(crate) variable: u32,
    pub(crate) power: i128,
}

/// The units of the slots, and what is left of a row.
#[derive(Drop)]
pub(crate) struct Stepped {
    pub(crate) units: Vec<WideUnit>,
    pub(crate) left: WideUnit,
}

/// The lesser of an atom's power and another, if the atom is a variable.
fn lesser_of(term: WideTerm, other: Option<WidePivot>) -> Option<WidePivot>
    ensures { option_map as_pivot result ≡ lesser_with term.atom term.power (option_map as_pivot other) }
{
    match term.atom {
        Atom::Base(_) => other,
        Atom::Var(variable) => {
            let pivot = WidePivot {
                variable,
                power: term.power,
            };
            match other {
                None => Some(pivot),
                Some(least) => {
                    if pivot.power.unsigned_abs() < least.power.unsigned_abs() {
                        Some(pivot)
                    } else {
                        Some(least)
                    }
                }
            }
        }
    }
}

/// The variable with the least absolute power, and of equals the last.
pub(crate) fn pivot_of(terms: &[WideTerm]) -> Option<WidePivot>
    ensures { option_map as_pivot result ≡ pivot_of (as_terms terms.now) }
{
    let mut best = None;
    let mut i = terms.len();
    while i > 0 {
        i -= 1;
        best = lesser_of(terms[i], best);
    }
    best
}

fn sign_of(power: i128) -> i64
    ensures { result ≡ sign_of power }
{
    if power < 0 { -1 } else { 1 }
}

/// The unit, inverted if the power is negative.
fn signed(alloc: Global, unit: &WideUnit, power: i128) -> Result<WideUnit, AllocError>
    requires { IsNarrow unit.now }
    ensures exact { IfOk result (λ made. made ≡ inverted_if_negative power unit.now) }
    ensures narrow { IfOk result IsNarrow }
{
    let sign = sign_of(power);
    let made = unit.pow(alloc, sign)?;
    narrowed(made)
}

fn absolute(power: i128) -> i128
    requires { nat_abs power ≤ 9223372036854775807 }
    ensures { result ≡ pos (nat_abs power) }
{
    if power < 0 { -power } else { power }
}

/// The negated quotient, rounded down, of the atom's power and p, or 0 for variable m.
fn negated_quotient(a: Atom, power: i128, m: u32, p: i128) -> i128
    requires power { nat_abs power ≤ 9223372036854775807 }
    requires p { pos 0 <ℤ p }
    ensures exact { result ≡ (less_quotient m (nat_abs p) (record { atom = a; power = power })).power }
    ensures narrow { nat_abs result ≤ 9223372036854775807 }
{
    if a == Atom::Var(m) {
        0
    } else {
        -power.div_euclid(p)
    }
}

/// The product over the atoms y other than variable m of y to the negated quotient, rounded down, of its power and p.
fn quotients_of(alloc: Global, unit: &WideUnit, m: u32, p: i128) -> Result<WideUnit, AllocError>
    requires unit { IsNarrow unit.now }
    requires p { pos 0 <ℤ p }
    ensures exact { IfOk result (λ made. made ≡ quotients m (nat_abs p) unit.now) }
    ensures narrow { IfOk result IsNarrow }
{
    let mut by = WideUnit::one(alloc);
    for term in unit.terms() {
        let power = negated_quotient(term.atom, term.power, m, p);
        by = times_atom(alloc, &by, term.atom, power)?;
    }
    Ok(by)
}

/// The step at the pivot of r.
pub(crate) fn take_step(
    alloc: Global,
    units: &[WideUnit],
    r: &WideUnit,
    at: WidePivot,
) -> Result<Stepped, AllocError>
    requires units { All IsNarrow units.now }
    requires r { IsNarrow r.now }
    requires pivot { pivot r.now ≡ Some (as_pivot at) }
    ensures { IfOk result (IsAfterStep (as_pivot at) units.now r.now) }
{
    let positive = signed(alloc, r, at.power)?;
    let by = quotients_of(alloc, &positive, at.variable, absolute(at.power))?;
    let units = all_multiplied(alloc, units, at.variable, &by)?;
    let left = multiplied(alloc, &positive, at.variable, &by)?;
    Ok(Stepped { units, left })
}

/// Whether a variable other than m occurs in the terms.
pub(crate) fn has_other_variable(terms: &[WideTerm], m: u32) -> bool
    ensures { result ≡ list_any (λ t. is_other m t.atom) terms.now }
{
    terms.iter().any(|term| is_other_variable(term.atom, m))
}

fn is_other_variable(atom: Atom, m: u32) -> bool
    ensures { result ≡ is_other m atom }
{
    match atom {
        Atom::Base(_) => false,
        Atom::Var(k) => k != m,
    }
}

/// Whether a base unit occurs in the terms.
pub(crate) fn has_base_unit(terms: &[WideTerm]) -> bool
    ensures { result ≡ list_any (λ t. is_base t.atom) terms.now }
{
    terms.iter().any(|term| is_base_unit(term.atom))
}

fn is_base_unit(atom: Atom) -> bool
    ensures { result ≡ is_base atom }
{
    matches!(atom, Atom::Base(_))
}
