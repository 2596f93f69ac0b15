//! The grammar of expressions: from tokens to raw trees, one token at a time.
//!
//! ```
//! let mut reader = ExprReader::new(alloc);
//! let taken = reader.take(alloc, &mut token)?; // it goes on, or the token is refused or makes it too high
//! let tree = reader.finish(alloc)?; // the expression of the tokens that were taken
//! ```
#![tactic(auto)]

pub mod laws;
mod query;
mod reader;
mod step;

pub use reader::ExprReader;
pub use um_forms::ExprToken;
pub use um_operands::Infix;
