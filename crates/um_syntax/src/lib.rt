//! The tokens of a program text.
//!
//! [`lex`] reads a whole text at once, and a [`Lexer`] is fed its bytes in pieces. Both run the same machine over
//! characters, give the same tokens, and refuse at the leftmost fault. [`Tokens`] are a list in one piece, for those
//! who look at a slice; [`TokenBlocks`], which a [`Lexer`] gives, are looked at one by one or handed over block by
//! block. [`line_column`] turns a place into a line and a column. The definitions of tokens stand in `specs/`, apart
//! from the machine, and the module [`laws`] has what holds of them.
//!
//! ```
//! let tokens = lex(alloc, "let area (x: num<m>) = x * x")?; // or the leftmost refusal, with its place
//! let (line, column) = line_column(text, at);
//! ```
#![tactic(auto)]

mod decode;
mod feed;
pub mod laws;
mod lexer;
mod number;
mod pending;
mod place;
mod preceding;
mod scanner;
mod token;
mod tokens;

pub use feed::Lexer;
pub use lexer::lex;
pub use place::line_column;
pub use token::{Kind, Letters, LexStop, NoMemory, TextStop, Token};
pub use tokens::{Blocks, TokenBlocks, Tokens};
pub use um_vocabulary::{Keyword, Symbol};
