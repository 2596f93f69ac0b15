//! Fractions as decimal numbers.
//!
//! ```
//! let mut text = Vec::new(alloc);
//! push_decimal(&mut text, Frac::of_parts(5, 8)?, 2)?; // `~0.62`: of 0.62 and 0.63 the one whose last digit is even
//! ```
#![tactic(auto)]

mod decimal;
pub mod laws;

pub use decimal::push_decimal;
