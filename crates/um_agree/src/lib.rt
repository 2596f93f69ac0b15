//! Agreements: where a function asks two types to be equal, with who asks for it.
//!
//! The rows of a function are the rows of its agreements, one after another, so that each row is of one agreement. What
//! is told of an agreement is a line and its two types.
#![tactic(auto)]

mod agreement;
mod agreements;
mod found;
pub mod laws;
mod rule;
mod walk;

pub use agreement::Agreement;
pub use agreements::{Agreements, Told, agreed_rows};
pub use found::Asked;
pub use rule::Rule;
