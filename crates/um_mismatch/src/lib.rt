//! The details of a shape's fault: the two shapes that must be the same, or the part that isn't of the kind that must
//! stand there.
//!
//! ```
//! push_shape_details(alloc, &program, &mut text)?; // of the program's first node without a shape
//! ```
#![tactic(auto)]

mod body;
mod details;
mod flat;
mod functions;
mod kind;
mod known;
pub mod laws;
mod mismatch;
mod rules;
mod text;
mod wording;

pub use details::push_shape_details;
pub use wording::{first_word, push_agreement, push_second_word};
