//! The grammar of notes, types and signature texts, and the reading of these and of unit texts: from tokens to raw
//! trees, with the exact place of each refusal.
//!
//! ```
//! let (unit, stop) = parse_unit(alloc, tokens.as_slice(), 0, end)?; // `m/s^2`, up to what doesn't go on
//! let types = parse_types(alloc, tokens.as_slice(), end)?; // `num<'a> -> num<'a^2>`
//! ```
#![tactic(auto)]

pub mod laws;
mod note_reader;
mod parse;
mod signature_reader;
mod type_operand;
mod type_reader;

pub use note_reader::NoteReader;
pub use parse::{LimitKind, ParseStop, parse_types, parse_unit};
pub use type_reader::TypeReader;
