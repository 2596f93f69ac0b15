//! Numbers that overflow.

ghost use Rattle.std.specs.Prelude.{◌≡◌, ◌≢◌, ◌<◌, ◌≤◌, ℤ, Option, Some, None, false, nat_abs, nat_lt, pos};
ghost use Rattle.std.specs.Prelude.{MatchResult, IfOk};
ghost use Rattle.um_units.specs.declared.Atom.{Atom as AtomData};
ghost use Rattle.um_units.specs.Atoms.{is_before};
ghost use Rattle.um_units.specs.PowerMap.{mul, pow, power_of};
ghost use Rattle.um_units.specs.Range.{fits, RangeUnless};
ghost use Rattle.um_wide.specs.Room.{IsNarrow, IsWithin};
ghost use Rattle.um_kept.specs.Formed.{IsPowerIn};
ghost use Rattle.um_kept.specs.Answers.{CarriesPower};

use crate::CertStop;
use std::alloc::{AllocError, Global};
use um_units::{Atom, Term, Unit, UnitStop};
use um_wide::{WideUnit, comes_before};

/// The greatest absolute power of a unit.
const MAX_POWER: i64 = 2147483647;

fn is_past(power: i128, limit: i64) -> bool
    ensures { result ≡ nat_lt (nat_abs limit) (nat_abs power) }
{
    power.unsigned_abs() > u128::from(limit.unsigned_abs())
}

/// The first power of the unit whose absolute value is above the limit.
pub fn first_past(unit: &WideUnit, limit: i64) -> Option<i128>
    ensures none { result ≡ None → IsWithin (nat_abs limit) unit.now }
    ensures some { (z : ℤ) → result ≡ Some z → IsPowerIn z unit.now × (nat_abs limit < nat_abs z) }
{
    for term in unit.terms() {
        if is_past(term.power, limit) {
            return Some(term.power);
        }
    }
    None
}

/// The first power of the unit outside 64 bits, of those of atoms that don't come before this one.
fn first_past_from(unit: &WideUnit, first: Atom) -> Option<i128>
    ensures none { result ≡ None → (x : AtomData) → is_before x first ≡ false
        → nat_abs (power_of unit.now x) ≤ 9223372036854775807 }
    ensures some { (z : ℤ) → result ≡ Some z → IsPowerIn z unit.now × (9223372036854775807 < nat_abs z) }
{
    let terms = unit.terms();
    let mut found = None;
    for i in (0..terms.len()).rev() {
        let term = terms[i];
        if comes_before(term.atom, first) {
            return found;
        }
        if is_past(term.power, i64::MAX) {
            found = Some(term.power);
        }
    }
    found
}

/// The first power of the unit outside 64 bits, if there is none at an atom that the other unit doesn't hold.
pub fn first_past_of(unit: &WideUnit, other: &WideUnit) -> Option<i128>
    ensures none { result ≡ None → (x : AtomData) → power_of other.now x ≢ pos 0
        → nat_abs (power_of unit.now x) ≤ 9223372036854775807 }
    ensures some { (z : ℤ) → result ≡ Some z → IsPowerIn z unit.now × (9223372036854775807 < nat_abs z) }
{
    match other.terms() {
        [] => None,
        [first, ..] => first_past_from(unit, first.atom),
    }
}

/// The unit, whose powers are to lie in 64 bits.
pub fn narrowed(unit: WideUnit) -> Result<WideUnit, CertStop>
    ensures exact { IfOk result (λ made. made ≡ unit) }
    ensures narrow { MatchResult result IsNarrow (CarriesPower 9223372036854775807 unit) }
{
    match first_past(&unit, i64::MAX) {
        None => Ok(unit),
        Some(number) => Err(CertStop::CertRange { number }),
    }
}

/// The unit, whose powers are to lie in -2147483647..2147483647.
pub fn unit_of(alloc: Global, wide: &WideUnit) -> Result<Unit, CertStop>
    ensures { MatchResult result (λ unit. unit ≡ wide.now) (CarriesPower 2147483647 wide.now) }
{
    match first_past(wide, MAX_POWER) {
        None => Ok(narrow_unit(alloc, wide)?),
        Some(number) => Err(CertStop::CertRange { number }),
    }
}

fn narrow_unit(alloc: Global, wide: &WideUnit) -> Result<Unit, AllocError>
    requires { IsWithin 2147483647 wide.now }
    ensures { IfOk result (λ unit. unit ≡ wide.now) }
{
    let mut terms = Vec::new(alloc);
    for term in wide.terms() {
        terms.push(Term {
            atom: term.atom,
            power: term.power as i32,
        })?;
    }
    match Unit::from_terms(alloc, &terms) {
        Ok(unit) => Ok(unit),
        Err(UnitStop::NoMemory) => Err(AllocError),
        Err(UnitStop::Range) => unreachable!(),
    }
}

/// The unit to the power 1 or -1 times the other's k-th power. They are multiplied as units, and once more as wide
/// units if a power is out of a unit's range: these tell the power.
pub fn times(alloc: Global, unit: &Unit, sign: i64, other: &Unit, k: i32) -> Result<Unit, CertStop>
    requires { nat_abs sign ≡ 1 }
    ensures { MatchResult result (λ made. made ≡ mul (pow unit.now sign) (pow other.now k))
        (CarriesPower 2147483647 (mul (pow unit.now sign) (pow other.now k))) }
{
    match unit_times(alloc, unit, sign, other, k) {
        Ok(made) => Ok(made),
        Err(UnitStop::NoMemory) => Err(CertStop::NoMemory),
        Err(UnitStop::Range) => wide_times(alloc, unit, sign, other, k),
    }
}

/// The same as units. `Range` comes exactly if a power of the product is out of range.
fn unit_times(alloc: Global, unit: &Unit, sign: i64, other: &Unit, k: i32) -> Result<Unit, UnitStop>
    requires { nat_abs sign ≡ 1 }
    ensures exact { IfOk result (λ made. made ≡ mul (pow unit.now sign) (pow other.now k)) }
    ensures range { RangeUnless result (fits (mul (pow unit.now sign) (pow other.now k))) }
{
    if sign == 1 {
        return unit.mul_pow(alloc, other, k);
    }
    let inverse = unit.inv(alloc)?;
    inverse.mul_pow(alloc, other, k)
}

/// The same by wide units, which have room for each power.
fn wide_times(alloc: Global, unit: &Unit, sign: i64, other: &Unit, k: i32) -> Result<Unit, CertStop>
    requires { nat_abs sign ≡ 1 }
    ensures { MatchResult result (λ made. made ≡ mul (pow unit.now sign) (pow other.now k))
        (CarriesPower 2147483647 (mul (pow unit.now sign) (pow other.now k))) }
{
    let left = WideUnit::power(alloc, unit, sign)?;
    let right = WideUnit::power(alloc, other, i64::from(k))?;
    let product = left.mul(alloc, &right)?;
    unit_of(alloc, &product)
}
