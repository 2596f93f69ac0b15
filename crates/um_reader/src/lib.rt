//! Readers that take one token at a time, and the loop over the tokens for any of them.
//!
//! A reader stands for a machine. If the machine reads a grammar, what [`read`] and [`read_all`] answer has the exact
//! places of that grammar: `Stops` says which, and no two answers stand together.
//!
//! ```
//! let (tree, stop) = read::<UnitReader>(alloc, tokens)?; // up to the first token that doesn't go on
//! let tree = read_all::<ProgramReader>(alloc, tokens)?; // a text that all tokens make up
//! ```
#![tactic(auto)]

mod reader;
mod reading;
mod taken;

pub use reader::Reader;
pub use reading::{ReadStop, read, read_all};
pub use taken::Taken;
