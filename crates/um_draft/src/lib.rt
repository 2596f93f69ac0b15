//! A text that is being written.
//!
//! ```
//! let mut draft = Draft::new(alloc);
//! draft.push(text.as_bytes(), 4, 9)?; // the bytes from 4 up to 9
//! draft.push_spaces(2)?;
//! let bytes = draft.into_bytes();
//! ```
#![tactic(auto)]

mod draft;

pub use draft::Draft;
