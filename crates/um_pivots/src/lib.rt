//! The pivot of a unit, and what an elimination step makes of its terms.
//!
//! The source is Kennedy (Programming Languages and Dimensions, 1996), on unification in the free abelian group; which
//! of several variables is the pivot is this project's own.
//!
//! ```
//! let pivot = pivot_of(unit.terms()); // the variable with the least absolute power, if there is one
//! let term = negated_quotient(term, 0, 2); // y^-3 for the term y^7, if variable 0 has power 2
//! ```
#![tactic(auto)]

mod pivot;
mod quotient;
mod remainder;

pub use pivot::{Pivot, pivot_of};
pub use quotient::negated_quotient;
pub use remainder::{has_base_unit, has_other_variable};
