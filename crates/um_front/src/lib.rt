//! From the bytes of a text to its program with the schemes of its functions: the stages that all commands share.
//!
//! Each stage gives its value, or the answer that a text without one gets: the report line and the status of the first
//! stage that fails.
//!
//! ```
//! match check(alloc, Text::of_bytes(alloc, bytes)?) {
//!     Ok(checked) => .., // the program as it is written, its shapes, its abbreviations and its schemes
//!     Err(refused) => refused,
//! }
//! ```
#![tactic(auto)]

mod checked;
mod checking;
mod laws;
mod parts;
mod reading;
mod shaping;
mod text;
mod tree;

pub use checked::Checked;
pub use checking::{SolvedText, check, check_solved, function_at, reply_to_untyped};
pub use laws::{
    names_are_within, nodes_have_places, places_begin_tokens, read_programs_are_readable,
    refusals_tell_places, tokens_are_within, word_refusals_tell_places,
};
pub use parts::{CheckedParts, ReadText, ShapedText, SourceText};
pub use reading::Reading;
pub use shaping::shape_text;
pub use text::{Text, TextParts};
pub use tree::{read, read_tokens};

/// The answer to an order, or want of memory.
pub type Answer = Result<um_reports::Reply, std::alloc::AllocError>;
