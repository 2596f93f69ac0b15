//! Products of what a replacement puts for terms.

ghost use Rattle.std.specs.Prelude.{◌≡◌, ◌*◌, ◌^◌, ◌<◌, IfOk, length};
ghost use Rattle.um_units.specs.PowerMap.{atom, image as image_of, images, nth, pow, product as product_of};
ghost use Rattle.um_wide.specs.Room.{IsWithin};

use crate::WideUnit;
use std::alloc::{AllocError, Global};
use um_units::{Atom, Term, Unit};

/// The term as a unit of its own.
fn single(alloc: Global, term: Term) -> Result<WideUnit, AllocError>
    ensures power { IfOk result (λ wide. wide ≡ pow (atom term.atom) term.power) }
    ensures room { IfOk result (IsWithin (2 ^ 62)) }
{
    WideUnit::atom_power(alloc, term.atom, i128::from(term.power))
}

/// The unit's k-th power.
fn raised(alloc: Global, unit: &Unit, k: i32) -> Result<WideUnit, AllocError>
    ensures power { IfOk result (λ wide. wide ≡ pow unit.now k) }
    ensures room { IfOk result (IsWithin (2 ^ 62)) }
{
    WideUnit::power(alloc, unit, i64::from(k))
}

/// What is put for the term's atom, to the term's power.
fn image(alloc: Global, term: Term, by: &[Unit]) -> Result<WideUnit, AllocError>
    ensures power { IfOk result (λ wide. wide ≡ pow (image_of (nth by.now) term.atom) term.power) }
    ensures room { IfOk result (IsWithin (2 ^ 62)) }
{
    match term.atom {
        Atom::Base(_) => single(alloc, term),
        Atom::Var(k) => match by.get(k as usize) {
            Some(unit) => raised(alloc, unit, term.power),
            None => single(alloc, term),
        },
    }
}

/// The product of what `by` puts for the terms' atoms, to their powers, by halves.
pub fn product(alloc: Global, terms: &[Term], by: &[Unit]) -> Result<WideUnit, AllocError>
    ensures product { IfOk result (λ wide. wide ≡ product_of (images (nth by.now) terms.now)) }
    ensures room { IfOk result (IsWithin (length terms.now * 2 ^ 62)) }
    ensures few { length terms.now < 2 ^ 63 }
{
    match terms {
        [] => Ok(WideUnit::one(alloc)),
        [term] => image(alloc, *term, by),
        _ => {
            let (first_half, second_half) = terms.split_at(terms.len() / 2);
            let left = product(alloc, first_half, by)?;
            let right = product(alloc, second_half, by)?;
            left.mul(alloc, &right)
        }
    }
}
