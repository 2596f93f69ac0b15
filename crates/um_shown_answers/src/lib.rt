//! The answers to orders that show people how a call ends: its value with decimals, in units of their choice, or where
//! it stops.
//!
//! ```
//! let call = CallWords { budget: 100, name: "mean", texts: &texts };
//! let reply = answer_trace(alloc, &call, text)?; // as `run`; of a trap its place, operands and open calls
//! ```
#![tactic(auto)]

mod answer;
pub mod laws;
mod lines;
mod show;
mod stop;

pub use answer::answer_trace;
pub use show::answer_show;
