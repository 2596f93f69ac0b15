//! How many units the uses of functions and records leave open.
//!
//! ```
//! callee_units(&schemes, 2, 0); // a call of function 0 in function 2: one unit for each variable of its scheme
//! callee_units(&schemes, 2, 2); // a recursive call: none
//! ```
#![tactic(auto)]

mod left_open;

pub use left_open::{callee_units, record_units};
