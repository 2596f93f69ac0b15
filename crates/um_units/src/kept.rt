//! Whether terms are those that a unit keeps, so that their product needs no sums.

ghost use Rattle.std.specs.Prelude.{◌≡◌, ◌∷◌, IsTrue, false};
ghost use Rattle.um_units.specs.Atoms.{is_before};
ghost use Rattle.um_units.specs.Range.{in_range, IsKept};
ghost use Rattle.um_units.specs.Terms.{is_zero};

use crate::{Atom, Term};
use std::cmp::Ordering;

/// The greatest absolute power that a unit may have.
const MAX_POWER: u32 = 2147483647;

/// Whether the term's power is neither 0 nor out of range.
fn is_kept(term: Term) -> bool
    ensures nonzero { IsTrue result → is_zero term.power ≡ false }
    ensures fit { IsTrue result → IsTrue (in_range term.power) }
{
    let size = term.power.unsigned_abs();
    if size == 0 {
        return false;
    }
    size <= MAX_POWER
}

/// Whether the first atom comes before the second.
fn comes_before(first: Atom, second: Atom) -> bool
    ensures { IsTrue result → IsTrue (is_before first second) }
{
    match first.cmp(&second) {
        Ordering::Less => true,
        Ordering::Equal | Ordering::Greater => false,
    }
}

/// Whether a unit may keep the term before these terms, which a unit keeps.
fn goes_first(term: Term, others: &[Term]) -> bool
    requires { IsKept others.now }
    ensures { IsTrue result → IsKept (term ∷ others.now) }
{
    if !is_kept(term) {
        return false;
    }
    if others.is_empty() {
        return true;
    }
    comes_before(term.atom, others[0].atom)
}

/// Whether the atoms rise, and no power is 0 or out of range.
pub fn are_kept(terms: &[Term]) -> bool
    ensures { IsTrue result → IsKept terms.now }
{
    let mut k = terms.len();
    while k > 0 {
        if !goes_first(terms[k - 1], &terms[k..]) {
            return false;
        }
        k -= 1;
    }
    true
}
