//! Lists of bytes that need no memory if they are short.
//!
//! ```
//! let name = InlineBytes::from_slice(alloc, b"speed")?; // takes no memory
//! let bytes: &[u8] = name.as_slice();
//! ```
#![tactic(auto)]

mod bytes;
mod short;

pub use bytes::InlineBytes;
