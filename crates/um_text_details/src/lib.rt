//! What is told of a text that has no tokens, and of tokens that are no program: what follows the report line and the
//! source line. What could stand in the place of a token through which tokens begin no program is among it.
//!
//! A word is told exactly if its token there goes on beginning a program, by the grammar's relation. The module
//! [`laws`] says so word by word.
//!
//! ```
//! push_text_details(&mut text, bytes, stop)?; // no letter follows a number
//! let words = expected(alloc, before, at, false)?; // for the refused token at the place `at`
//! let missing = push_expected(alloc, &mut text, bytes, tokens, at)?; // expected: in ..
//! ```
#![tactic(auto)]

mod character;
pub mod laws;
mod limit;
mod missing;
mod syntax;
mod tell;
mod trial;
mod word;
mod word_text;

pub use character::push_text_details;
pub use limit::{push_limit_details, push_range_details};
pub use syntax::push_expected;
pub use tell::expected;
pub use word::Word;
