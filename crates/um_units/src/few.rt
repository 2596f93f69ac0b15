//! At most two terms, in an array.

ghost use Rattle.std.specs.Prelude.{◌≡◌, ◌↔◌, ◌<◌, ◌++◌, ◌∷◌, [], IsTrue, length};

use crate::{Atom, Term};
use std::marker::Model;

/// What is in the places that hold no term.
const NONE: Term = Term {
    atom: Atom::Base(0),
    power: 0,
};

/// At most two terms, which lie in the value itself.
#[derive(Drop)]
pub(crate) struct FewTerms {
    len: usize,
    terms: [Term; 2],
}

impl Model for FewTerms {
    ghost use Rattle.std.specs.Prelude.{◌≡◌, ◌≤◌, List, length, take};
    ghost use Rattle.um_units.specs.declared.Term.{Term as TermOf};

    ghost Value = { List TermOf };

    ghost view = { λ few. take few.len few.terms };

    ghost invariant = { λ few. (few.len ≤ 2) × (length few.terms ≡ 2) };
}

impl FewTerms {
    /// No term.
    #[inline]
    pub fn none() -> FewTerms
        ensures { result ≡ [] }
    {
        FewTerms {
            len: 0,
            terms: [NONE, NONE],
        }
    }

    /// One term.
    #[inline]
    pub fn one(term: Term) -> FewTerms
        ensures { result ≡ term ∷ [] }
    {
        FewTerms {
            len: 1,
            terms: [term, NONE],
        }
    }

    /// Two terms.
    #[inline]
    pub fn two(first: Term, second: Term) -> FewTerms
        ensures { result ≡ first ∷ second ∷ [] }
    {
        FewTerms {
            len: 2,
            terms: [first, second],
        }
    }

    /// The same terms.
    #[inline]
    pub fn copy(&self) -> FewTerms
        ensures { result ≡ self.now }
    {
        FewTerms {
            len: self.len,
            terms: self.terms,
        }
    }

    /// The terms, in order.
    #[inline]
    pub fn as_slice(&self) -> &[Term]
        ensures { result.now ≡ self.now }
    {
        &self.terms[..self.len]
    }

    /// Whether one more has room.
    #[inline]
    pub fn has_room(&self) -> bool
        ensures { IsTrue result ↔ (length self.now < 2) }
    {
        self.len < 2
    }

    /// Adds a term at the end.
    #[inline]
    pub fn push(&mut self, term: Term)
        requires { length self.old < 2 }
        ensures { self.new ≡ self.old ++ term ∷ [] }
    {
        self.terms[self.len] = term;
        self.len += 1;
    }
}
