//! The two lines that show a place of a text: its source line and a caret under the place.
//!
//! ```
//! let text = excerpt(alloc, bytes, at)?; // 6 |   x + y
//! //                                          |     ^
//! ```
#![tactic(auto)]

mod excerpt;
mod line;

pub use excerpt::{push_excerpt, push_excerpt_of_end};
