//! What a replacement makes of units of one term or two, by one product.

ghost use Rattle.std.specs.Prelude.{◌≡◌, ◌∷◌, [], IfNone, IfOk, IfSome};
ghost use Rattle.um_units.specs.PowerMap.{atom, image, mul, nth, pow, replace};
ghost use Rattle.um_units.specs.Range.{fits, RangeUnless};

use crate::{Atom, Term, Unit, UnitStop};
use std::alloc::Global;

/// What is put for the atom, if that is one of these units. Otherwise the atom stays.
pub(crate) fn put_for(by: &[Unit], a: Atom) -> Option<&Unit>
    ensures put { IfSome result (λ u. u.now ≡ image (nth by.now) a) }
    ensures stays { IfNone result (image (nth by.now) a ≡ atom a) }
{
    match a {
        Atom::Base(_) => None,
        Atom::Var(k) => match by.get(k as usize) {
            Some(unit) => Some(unit),
            None => None,
        },
    }
}

/// The unit, which is a power of one atom, with `by[k]` put for each variable k.
pub fn put_in_power(alloc: Global, by: &[Unit], unit: &Unit, term: Term) -> Result<Unit, UnitStop>
    requires { unit.now ≡ pow (atom term.atom) term.power }
    ensures exact { IfOk result (λ u. u ≡ replace (nth by.now) unit.now) }
    ensures range { RangeUnless result (fits (replace (nth by.now) unit.now)) }
{
    match put_for(by, term.atom) {
        Some(put) => put.pow(alloc, term.power),
        None => unit.replace_terms(alloc, by),
    }
}

/// The unit times a term.
fn times_term(alloc: Global, left: &Unit, term: Term) -> Result<Unit, UnitStop>
    ensures exact { IfOk result (λ u. u ≡ mul left.now (pow (atom term.atom) term.power)) }
    ensures range { RangeUnless result (fits (mul left.now (pow (atom term.atom) term.power))) }
{
    let own = Unit::atom(alloc, term.atom)?;
    left.mul_pow(alloc, &own, term.power)
}

/// The unit times what is put for the term's atom, to the term's power.
fn times_put(alloc: Global, left: &Unit, by: &[Unit], term: Term) -> Result<Unit, UnitStop>
    ensures exact { IfOk result (λ u. u ≡ mul left.now (pow (image (nth by.now) term.atom) term.power)) }
    ensures range { RangeUnless result (fits (mul left.now (pow (image (nth by.now) term.atom) term.power))) }
{
    match put_for(by, term.atom) {
        Some(put) => left.mul_pow(alloc, put, term.power),
        None => times_term(alloc, left, term),
    }
}

/// The unit, which is an atom times a power of another, with `by[k]` put for each variable k.
fn put_in_product(
    alloc: Global,
    by: &[Unit],
    unit: &Unit,
    first: Atom,
    second: Term,
) -> Result<Unit, UnitStop>
    requires { unit.now ≡ mul (atom first) (pow (atom second.atom) second.power) }
    ensures exact { IfOk result (λ u. u ≡ replace (nth by.now) unit.now) }
    ensures range { RangeUnless result (fits (replace (nth by.now) unit.now)) }
{
    match put_for(by, first) {
        Some(left) => times_put(alloc, left, by, second),
        None => unit.replace_terms(alloc, by),
    }
}

/// The unit, which has these two terms, with `by[k]` put for each variable k.
pub fn put_in_pair(
    alloc: Global,
    by: &[Unit],
    unit: &Unit,
    first: Term,
    second: Term,
) -> Result<Unit, UnitStop>
    requires { unit.now.terms ≡ first ∷ second ∷ [] }
    ensures exact { IfOk result (λ u. u ≡ replace (nth by.now) unit.now) }
    ensures range { RangeUnless result (fits (replace (nth by.now) unit.now)) }
{
    if second.power == 1 {
        return put_in_product(alloc, by, unit, second.atom, first);
    }
    if first.power == 1 {
        return put_in_product(alloc, by, unit, first.atom, second);
    }
    unit.replace_terms(alloc, by)
}
