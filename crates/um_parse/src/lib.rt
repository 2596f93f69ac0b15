//! The grammar of declarations and programs: from tokens to raw trees. A [`Prefix`] is tokens that begin a program,
//! read once, and says which tokens go on.
//!
//! ```
//! let tokens = lex(alloc, text)?;
//! let raw = parse(alloc, tokens.as_slice(), text.len() as u32)?; // or the exact place of the refusal
//! ```
#![tactic(auto)]

mod decl_begin;
mod decl_prefix;
mod decl_reader;
pub mod laws;
mod limits;
mod places;
mod prefix;
mod program_parse;
mod program_reader;

pub use prefix::Prefix;
pub use program_parse::{parse, parse_tokens};
pub use um_types::{LimitKind, ParseStop, parse_types, parse_unit};
