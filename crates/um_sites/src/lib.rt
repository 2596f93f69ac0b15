//! What is told of a fault of a name: similar names, the earlier declaration, or what is expected and found.
//!
//! The raw tree is walked once. At the place of the fault the names that are known there are looked up.
//!
//! ```
//! let told = name_details(alloc, &raw, fault)?; // at `metr`: the measures and abbreviations that are known there
//! told.push(alloc, &earlier, &mut text)?; // `similar: metre meter`
//! ```
#![tactic(auto)]

mod declarations;
mod detail;
mod expr;
mod fault;
mod named;
mod sites;
mod spaces;
mod text;
mod types;

pub use declarations::name_details;
pub use detail::{NameDetail, NameDetails};
