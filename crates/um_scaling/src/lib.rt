//! Rescaling: values and programs in other sizes of the base units, and what becomes of what they mean.
//!
//! Kennedy (Relational Parametricity and Units of Measure, 1997): a typed program is invariant under each positive
//! rescaling of its units.
//!
//! ```
//! laws::scaling(); // a run in other sizes of the units ends alike, and its value is the first one rescaled
//! laws::free_zeros(); // a number at a unit that is open is 0
//! ```
#![tactic(auto)]

pub mod laws;
