//! What a replacement leaves as it is.

ghost use Rattle.std.specs.Prelude.{◌≡◌, All, IsTrue, pos};
ghost use Rattle.um_units.specs.declared.Term.{Term};
ghost use Rattle.um_units.specs.PowerMap.{atom, image, nth};

use crate::short::put_for;
use crate::{Atom, Term, Unit};

/// Whether the term is the atom to the power 1.
fn is_once(term: Term, a: Atom) -> bool
    ensures { IsTrue result → (term.atom ≡ a) × (term.power ≡ pos 1) }
{
    if term.power == 1 {
        return term.atom == a;
    }
    false
}

/// Whether the unit is the atom itself.
fn is_atom(unit: &Unit, a: Atom) -> bool
    ensures { IsTrue result → unit.now ≡ atom a }
{
    match unit.terms() {
        [term] => is_once(*term, a),
        _ => false,
    }
}

/// Whether what is put for the atom is the atom itself.
fn stays(by: &[Unit], a: Atom) -> bool
    ensures { IsTrue result → image (nth by.now) a ≡ atom a }
{
    match put_for(by, a) {
        Some(unit) => is_atom(unit, a),
        None => true,
    }
}

/// Whether what is put for each atom of the terms is that atom itself.
pub fn all_stay(by: &[Unit], terms: &[Term]) -> bool
    ensures { IsTrue result → All (λ (term : Term). image (nth by.now) term.atom ≡ atom term.atom) terms.now }
{
    for term in terms {
        if !stays(by, term.atom) {
            return false;
        }
    }
    true
}
