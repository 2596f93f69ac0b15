//! Why the units of a function disagree: a core of its rows that have no joint solution, from which no row can be left
//! out, and the two types of the agreement that fails, as general as the other rows of the core leave them.
//!
//! The core begins with the last row, the first unsolvable one, and grows by the first row with which the rows so far
//! are unsolvable (the additive method for an irreducible infeasible set: Tamiz, Mardle and Jones 1996). The module
//! [`laws`] says that each smaller part of a core has a joint solution.
//!
//! ```
//! let core = core_of(alloc, slots, bases, parameters, &rows)?; // rows: those up to the first unsolvable one
//! for k in &core.rows { .. } // numbers of rows, the last row's first
//! let told = agreements.of_row(alloc, last)?; // the agreement of the core's last row
//! match reason_of(alloc, &question, &told.agreement)? {
//!     Reason::Disagree { first, second, factor } => .., // no units make first and second equal
//!     Reason::UnitsPass => .., // a power is out of range
//! }
//! ```
#![tactic(auto)]

pub mod laws;
mod powers;
mod question;
mod reasons;
mod search;
mod smallest;
mod wide_rows;
mod wide_step;

pub use question::{Question, join};
pub use reasons::{Reason, reason_of};
pub use smallest::{Core, core_of};
