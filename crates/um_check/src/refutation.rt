//! The check of a No.

ghost use Rattle.std.specs.Prelude.{◌≡◌, ◌↔◌, ◌+ℤ◌, ◌+◌, ◌^◌, ◌<◌, ◌≤◌, ◌-◌, ◌≤ℤ◌, nat_abs, pos, IfOk, IsTrue, length};
ghost use Rattle.std.specs.List.{list_all, list_any};
ghost use Rattle.um_units.specs.PowerMap.{replace};
ghost use Rattle.um_wide.specs.Room.{IsWithin};
ghost use Rattle.um_units.specs.Wide.{as_terms};
ghost use Rattle.um_elim.specs.Solution.{rigid_unit};
ghost use Rattle.um_equal_types.specs.Steps.{units_of};
ghost use Rattle.um_check.specs.Refutation.{IsApart, IsValidNo, HasNone, fixed_slots};
ghost use Rattle.um_check.specs.Tests.{is_free, divides, total, rigid_power, slots_divided, is_left};

use crate::No;
use crate::combination::{names_below, product_of_rows};
use std::alloc::Global;
use um_rows::{Row, Rows};
use um_units::wide::WideTerm;
use um_units::{Atom, NoMemory};
use um_wide::WideUnit;

/// A product of rows whose powers are taken modulo a number, with each unit parameter as a base unit of its own.
#[derive(Clone, Copy)]
struct Congruence<'a> {
    product: &'a WideUnit,
    bases: u32,
    parameters: u32,
    modulus: i64,
    ghost room: { IsWithin (2 ^ 126 - 1) product.now },
    ghost proper: { pos 2 ≤ℤ modulus },
}

/// Whether the atom is the variable of a slot that no unit parameter has.
fn is_free(parameters: u32, atom: Atom) -> bool
    ensures { result ≡ is_free parameters atom }
{
    match atom {
        Atom::Base(_) => false,
        Atom::Var(k) => k >= parameters,
    }
}

/// Whether the power is a multiple of the modulus.
fn divided(modulus: i64, power: i128) -> bool
    requires { pos 2 ≤ℤ modulus }
    ensures { result ≡ divides modulus power }
{
    power.rem_euclid(i128::from(modulus)) == 0
}

fn sum(left: i128, right: i128) -> i128
    requires left { nat_abs left ≤ 2 ^ 126 - 1 }
    requires right { nat_abs right ≤ 2 ^ 126 - 1 }
    ensures { result ≡ left +ℤ right }
{
    left + right
}

/// The power of a unit parameter, which is a variable and a base unit at once.
fn parameter_power(congruence: &Congruence, k: u32) -> i128
    ensures { result ≡ total congruence.now.bases congruence.now.product.now k }
{
    let own = congruence.product.power_of(Atom::Var(k));
    let other = congruence
        .product
        .base_power(u64::from(congruence.bases) + u64::from(k));
    sum(own, other)
}

/// The power of the term's atom, with each unit parameter as a base unit of its own.
fn rigid_power(congruence: &Congruence, term: WideTerm) -> i128
    ensures { result ≡ rigid_power congruence.now.bases congruence.now.parameters congruence.now.product.now
        term.atom term.power }
{
    match term.atom {
        Atom::Var(k) => {
            if k < congruence.parameters {
                return parameter_power(congruence, k);
            }
            term.power
        }
        Atom::Base(n) => {
            if n >= congruence.bases && n - congruence.bases < congruence.parameters {
                return parameter_power(congruence, n - congruence.bases);
            }
            term.power
        }
    }
}

/// Whether each slot's power is a multiple of the modulus, but for those of unit parameters.
fn slots_are_divided(terms: &[WideTerm], congruence: &Congruence) -> bool
    ensures { result ≡ slots_divided congruence.now.modulus congruence.now.parameters terms.now }
{
    terms.iter().all(|term| {
        !is_free(congruence.parameters, term.atom) || divided(congruence.modulus, term.power)
    })
}

fn is_left(congruence: &Congruence, term: WideTerm) -> bool
    ensures { result ≡ is_left congruence.now.modulus congruence.now.bases congruence.now.parameters
        congruence.now.product.now term }
{
    !is_free(congruence.parameters, term.atom)
        && !divided(congruence.modulus, rigid_power(congruence, term))
}

/// Whether some base unit's power isn't a multiple of the modulus, with each unit parameter as a base unit of its own.
fn base_unit_is_left(terms: &[WideTerm], congruence: &Congruence) -> bool
    ensures { result ≡ list_any (is_left congruence.now.modulus congruence.now.bases congruence.now.parameters
        congruence.now.product.now) terms.now }
{
    terms.iter().any(|term| is_left(congruence, *term))
}

/// Whether the product of rows can't become 1, with each unit parameter as a base unit of its own.
fn is_apart(congruence: &Congruence) -> bool
    ensures { IsTrue result ↔ IsApart congruence.now.modulus
        (replace (rigid_unit congruence.now.bases congruence.now.parameters) congruence.now.product.now) }
{
    let terms = congruence.product.terms();
    slots_are_divided(terms, congruence) && base_unit_is_left(terms, congruence)
}

/// How many slots are base units of their own.
fn fixed_slots(loose: bool, parameters: u32) -> u32
    ensures { result ≡ fixed_slots loose parameters }
{
    if loose { 0 } else { parameters }
}

/// Whether the certificate is valid for the rows of a function with this number of unit parameters, in a program with
/// this number of base units. Then the rows up to the last that it names have no joint solution, or, if it isn't loose,
/// none in which each unit parameter is a unit of its own.
///
/// It adds up the rows' powers, at 128 bits, and eliminates nothing: about n log n steps for n terms of the named rows.
pub fn check_no(
    alloc: Global,
    rows: &Rows,
    units: u32,
    bases: u32,
    cert: &No,
) -> Result<bool, NoMemory>
    requires few { length cert.now.parts ≤ 4294967295 }
    ensures exact { IfOk result (λ b. IsTrue b ↔ IsValidNo bases units (units_of rows.now.list.items.items) cert.now) }
    ensures refutes { IfOk result (λ b. IsTrue b
        → HasNone cert.now.loose bases units (units_of rows.now.list.items.items) cert.now.last) }
{
    let list: &[Row] = &rows.list.items;
    let parts = cert.parts.as_slice();
    if cert.modulus < 2 {
        return Ok(false);
    }
    if cert.last as usize >= list.len() {
        return Ok(false);
    }
    if !names_below(parts, cert.last as usize + 1) {
        return Ok(false);
    }
    let product = product_of_rows(alloc, list, parts)?;
    let fixed = fixed_slots(cert.loose, units);
    let congruence = Congruence {
        product: &product,
        bases,
        parameters: fixed,
        modulus: cert.modulus,
    };
    let apart = is_apart(&congruence);
    Ok(apart)
}
