//! The answers to orders about the program of a text: a file each.
//!
//! ```
//! let reply = answer_types(alloc, text)?; // the text to write, and the status
//! ```
#![tactic(auto)]

mod annot;
mod code;
mod conform;
mod fmt;
mod image;
mod laws;
mod prove;
mod rescale;
mod tidy;
mod types;

pub use annot::answer_annot;
pub use code::answer_code;
pub use conform::answer_conform;
pub use fmt::answer_fmt;
pub use image::answer_image;
pub use laws::literals_begin_tokens;
pub use prove::answer_prove;
pub use rescale::answer_rescale;
pub use tidy::answer_tidy;
pub use types::{answer_types, schemes_text};
