//! The equation of two units that are to be equal: the scheme's over the signature's.

ghost use Rattle.std.specs.Prelude.{◌≡◌, ◌++◌, All, IfOk, IsTrue, map};
ghost use Rattle.um_units.specs.declared.Term.{Term};
ghost use Rattle.um_units.specs.Range.{all_in_range, fits, RangeUnless};
ghost use Rattle.um_tree.specs.Scheme.{unit_variables};
ghost use Rattle.um_sig.specs.Matching.{unit_row as row_of_units};
ghost use Rattle.um_sig.specs.Steps.{fixed_atom as atom_in_place, inverse_term, HasRoom, HaveRoom};

use std::alloc::{AllocError, Global};
use um_units::{Atom, Term, Unit, UnitStop};

/// Variable k as the base unit `bases + k`.
fn fixed_atom(bases: u32, atom: Atom) -> Atom
    requires { HasRoom bases atom }
    ensures { result ≡ atom_in_place bases atom }
{
    match atom {
        Atom::Base(base) => Atom::Base(base),
        Atom::Var(variable) => Atom::Base(bases + variable),
    }
}

/// The terms of the scheme's unit, and then those of the signature's with their powers negated and variable k as the
/// base unit `bases + k`.
fn row_terms(
    alloc: Global,
    bases: u32,
    own: &[Term],
    other: &[Term],
) -> Result<Vec<Term>, AllocError>
    requires room { All (λ (t : Term). HasRoom bases t.atom) other.now }
    requires range { IsTrue (all_in_range other.now) }
    ensures { IfOk result (λ v. v.items ≡ own.now ++ map (inverse_term bases) other.now) }
{
    let mut out = Vec::from_slice(alloc, own)?;
    for term in other {
        out.push(Term {
            atom: fixed_atom(bases, term.atom),
            power: -term.power,
        })?;
    }
    Ok(out)
}

/// The scheme's unit over the signature's, in which variable k is the base unit `bases + k`.
///
/// Range comes exactly if a power of the quotient is out of range.
pub(crate) fn unit_row(
    alloc: Global,
    bases: u32,
    own: &Unit,
    other: &Unit,
) -> Result<Unit, UnitStop>
    requires room { HaveRoom bases (unit_variables other.now) }
    ensures exact { IfOk result (λ row. row ≡ row_of_units bases own.now other.now) }
    ensures range { RangeUnless result (fits (row_of_units bases own.now other.now)) }
{
    let terms = row_terms(alloc, bases, own.terms(), other.terms())?;
    Unit::from_terms(alloc, &terms)
}
