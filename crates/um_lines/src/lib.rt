//! A program's text with the lines of its calls in one source.
//!
//! ```
//! let source = cut_source(b"let f (x: num) = x\n---\nf\t1\n"); // the text is the first line
//! let line = next_line(source.calls); // `f\t1`, and nothing after it
//! let words = words_of(alloc, "f\t1")?; // `f` and `1`
//! ```
#![tactic(auto)]

mod calls;
mod cut;
pub mod laws;
mod source;
mod words;

pub use calls::next_line;
pub use source::{Source, cut_source};
pub use words::words_of;
