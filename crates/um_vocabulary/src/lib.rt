//! The reserved words and the symbols of the language, each with its text, and how one is found by its characters.
//!
//! ```
//! keyword_of("let") // Some(Keyword::Let)
//! front_symbol('<', '=') // Some((Symbol::LessEqual, 2)), and None at the two slashes of a comment
//! ```
#![tactic(auto)]

mod vocabulary;

pub use vocabulary::{
    Keyword, Symbol, are_slashes, double_symbol, front_symbol, keyword_of, single_symbol,
};
