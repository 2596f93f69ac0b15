//! Names that a writer may have meant: those at one edit from an unknown one.
//!
//! An edit is a character put in, left out or put in another's place, or two neighbours exchanged (Damerau, A technique
//! for computer detection and correction of spelling errors, 1964). `specs/` says so as a relation, and the module
//! [`laws`] shows that the test is this relation.
//!
//! ```
//! let mut similar = Similar::of(alloc, "kilo")?;
//! similar.look_at(alloc, &name)?; // kept if it is at one edit from kilo, as kilos, ilo, kino and iklo are
//! let names: &[Name] = similar.names();
//! ```
#![tactic(auto)]

mod edit;
pub mod laws;
mod similar;

pub use edit::is_one_edit;
pub use similar::Similar;
