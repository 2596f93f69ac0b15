//! What an elimination step makes of one term.

ghost use Rattle.std.specs.Prelude.{◌≡◌, ◌<ℤ◌, pos, nat_abs, IsTrue};
ghost use Rattle.um_units.specs.Range.{in_range};
ghost use Rattle.um_pivots.specs.Quotients.{less_quotient};

use um_units::{Atom, Term};

/// The negated quotient, rounded down, of the term's power and p, or 0 for variable m.
pub fn negated_quotient(term: Term, m: u32, p: i32) -> Term
    requires range { IsTrue (in_range term.power) }
    requires p { pos 0 <ℤ p }
    ensures { result ≡ less_quotient m (nat_abs p) term }
{
    let power = if term.atom == Atom::Var(m) {
        0
    } else {
        -term.power.div_euclid(p)
    };
    Term {
        atom: term.atom,
        power,
    }
}
