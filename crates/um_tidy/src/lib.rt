//! A layout that keeps the tokens, the comments and the line breaks of a text.
//!
//! ```
//! let text = tidy_text(alloc, "let  k=1<m> // one", &tokens)?; // `let k = 1<m> // one` and a line feed
//! ```
#![tactic(auto)]

mod columns;
mod comments;
mod edges;
mod feed;
mod gap;
pub mod laws;
mod margin;
mod spacing;
mod stand;
mod text;
mod white;

pub use text::tidy_text;
