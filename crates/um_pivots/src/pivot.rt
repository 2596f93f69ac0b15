//! The pivot of a row.

ghost use Rattle.std.specs.Prelude.{◌≡◌};
ghost use Rattle.um_pivots.specs.Pivot.{lesser, lesser_with, pivot_of};

use um_units::{Atom, Term};

/// A variable of a row and its power.
#[derive(Clone, Copy)]
pub struct Pivot {
    pub variable: u32,
    pub power: i32,
}

/// The lesser of an atom's power and another, if the atom is a variable.
fn lesser_of(term: Term, other: Option<Pivot>) -> Option<Pivot>
    ensures { result ≡ lesser_with term.atom term.power other }
{
    match term.atom {
        Atom::Base(_) => other,
        Atom::Var(variable) => {
            let pivot = Pivot {
                variable,
                power: term.power,
            };
            match other {
                None => Some(pivot),
                Some(least) => {
                    if pivot.power.unsigned_abs() < least.power.unsigned_abs() {
                        Some(pivot)
                    } else {
                        Some(least)
                    }
                }
            }
        }
    }
}

/// The variable with the least absolute power, and of equals the last.
pub fn pivot_of(terms: &[Term]) -> Option<Pivot>
    ensures { result ≡ pivot_of terms.now }
{
    let mut best = None;
    let mut i = terms.len();
    while i > 0 {
        i -= 1;
        best = lesser_of(terms[i], best);
    }
    best
}
