//! The code of a program as a text. Its instructions and their machine are those of `um_machine`.
//!
//! ```
//! let text = listing(alloc, &code, &program)?; // what `code` prints
//! ```
#![tactic(auto)]

mod lines;
mod operand;

pub use lines::listing;
pub use um_machine::{Code, Entries, Entry, Op, Operand, Ops};
