//! Products of many terms, and of what a replacement puts for them.

ghost use Rattle.std.specs.Prelude.{◌≡◌, ◌++◌, ◌*◌, ◌^◌, ◌≤◌, IfOk, IsTrue, length};
ghost use Rattle.um_units.specs.PowerMap.{atom, product, pow, image, images, nth};
ghost use Rattle.um_units.specs.Terms.{is_normal};
ghost use Rattle.um_units.specs.Variables.{variables_below};
ghost use Rattle.um_units.specs.Wide.{AreTermsOf, greatest};

use crate::wide::{self, WideTerm};
use crate::{Atom, Term, Unit};
use std::alloc::{AllocError, Global};

/// What is put for the term's atom, to the term's power.
fn image(alloc: Global, term: Term, by: &[Unit]) -> Result<Vec<WideTerm>, AllocError>
    ensures power { IfOk result (λ v. AreTermsOf v.items (pow (image (nth by.now) term.atom) term.power)) }
    ensures room { IfOk result (λ v. greatest v.items ≤ 2 ^ 62) }
{
    match term.atom {
        Atom::Base(_) => single_term(alloc, term),
        Atom::Var(k) => match by.get(k as usize) {
            Some(unit) => wide::scaled(alloc, unit.terms(), term.power),
            None => single_term(alloc, term),
        },
    }
}

/// The term as a product of its own.
fn single_term(alloc: Global, term: Term) -> Result<Vec<WideTerm>, AllocError>
    ensures power { IfOk result (λ v. AreTermsOf v.items (pow (atom term.atom) term.power)) }
    ensures room { IfOk result (λ v. greatest v.items ≤ 2 ^ 62) }
{
    let atom = [Term {
        atom: term.atom,
        power: 1,
    }];
    wide::scaled(alloc, &atom, term.power)
}

/// The product of what `by` puts for the terms' atoms, to their powers.
///
/// It is made by halves, so that each term that is put in is merged once a level, and the levels are as many as the
/// logarithm of the number of terms.
pub fn product(alloc: Global, terms: &[Term], by: &[Unit]) -> Result<Vec<WideTerm>, AllocError>
    ensures product { IfOk result (λ v. AreTermsOf v.items (product (images (nth by.now) terms.now))) }
    ensures room { IfOk result (λ v. greatest v.items ≤ length terms.now * 2 ^ 62) }
{
    match terms {
        [] => Ok(Vec::new(alloc)),
        [term] => image(alloc, *term, by),
        _ => {
            let (first_half, second_half) = terms.split_at(terms.len() / 2);
            let left = product(alloc, first_half, by)?;
            let right = product(alloc, second_half, by)?;
            wide::merged(alloc, &left, &right)
        }
    }
}

/// The base units in front of the terms, and the other terms.
pub fn parted(terms: &[Term]) -> (&[Term], &[Term])
    ensures parts { result.0.now ++ result.1.now ≡ terms.now }
    ensures closed { IsTrue (variables_below 0 result.0.now) }
{
    for (i, term) in terms.iter().enumerate() {
        if let Atom::Var(_) = term.atom {
            return terms.split_at(i);
        }
    }
    (terms, &[])
}

/// The product of base units in order and of what `by` puts for the other terms' atoms, to their powers.
pub fn times_product(
    alloc: Global,
    base_units: &[Term],
    others: &[Term],
    by: &[Unit],
) -> Result<Vec<WideTerm>, AllocError>
    requires normal { IsTrue (is_normal base_units.now) }
    requires closed { IsTrue (variables_below 0 base_units.now) }
    ensures { IfOk result (λ v. AreTermsOf v.items (product (images (nth by.now) (base_units.now ++ others.now)))) }
{
    let put = product(alloc, others, by)?;
    if base_units.is_empty() {
        return Ok(put);
    }
    let kept = wide::scaled(alloc, base_units, 1)?;
    wide::merged(alloc, &kept, &put)
}
