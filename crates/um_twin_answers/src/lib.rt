//! The answer about a call that is made twice, in two sizes of the base units.
//!
//! ```
//! let call = CallWords { budget: 100, name: "mean", texts: &texts };
//! let reply = answer_twin(alloc, "m=100", &call, text)?; // the line of each outcome, and the status
//! ```
#![tactic(auto)]

mod twin;
mod twin_outcome;

pub use twin::answer_twin;
