//! The printed certificates of a program: of each function's scheme, and of the first function's having none.
//!
//! ```
//! let lines = certificates_text(alloc, &program, &proofs.yes.items, &proofs.no)?; // what `prove` prints
//! ```
#![tactic(auto)]

mod lines;
mod names;
mod text;

pub use text::{certificates_text, no_text, yes_text};
