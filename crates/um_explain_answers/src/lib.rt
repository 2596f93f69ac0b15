//! The answer to `explain`: why a text is refused.
//!
//! ```
//! let reply = answer_explain(alloc, text)?; // as `types`; of a refusal its line, the source line and what is wrong
//! ```
#![tactic(auto)]

mod answer;
mod details;
pub mod laws;
mod names;
mod place;
mod reason_lines;
mod refusal;
mod schemes;
mod tokens;

pub use answer::answer_explain;
