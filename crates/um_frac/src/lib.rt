//! Exact fractions of 64 bits.
//!
//! A [`Frac`] is a fraction in lowest terms. Each operation gives the exact result, or says by a [`Trap`] that there
//! is none in the range.
//!
//! ```
//! let half = Frac::of_parts(2, 4)?; // 1/2
//! let whole = half.add(half)?; // 1, or Trap::Overflow
//! let none = whole.div(Frac::zero()); // Err(Trap::DivZero)
//! ```
#![tactic(auto)]

mod divisor;
pub mod laws;
mod number;

pub use number::{Frac, Trap};
