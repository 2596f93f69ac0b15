//! Why the units of a function disagree: the agreement that fails, with its two types, and the agreements that force it
//! to fail (Kennedy, Programming Languages and Dimensions, 1996; Tamiz, Mardle and Jones 1996).
//!
//! ```
//! match reason_of_function(alloc, &raw, &shaped, i, false)? {
//!     UnitReason::Told { told, factor, cut_off } => .., // told[0] fails, the others force it to
//!     UnitReason::OutOfRange => .., // a power is out of range
//! }
//! ```
#![tactic(auto)]

mod failing;
mod function;
pub mod laws;
mod letters;
mod named;
mod names;
mod others;
mod reason;
mod rows;
mod telling;
mod texts;

pub use function::reason_of_function;
pub use reason::{Told, UnitReason};
