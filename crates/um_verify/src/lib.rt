//! Code images, and when one is verified: a run of its functions is then never stuck.
//!
//! The rules of instructions stand in `specs/`, over shapes in place of values; the machine is that of `um_machine`.
//!
//! ```
//! runs_of_verified_images(); // a verified image is never stuck, and ends at every budget
//! ```
#![tactic(auto)]

mod image;
mod jumps;
mod laws;

pub use image::{Head, Heads, Image, Shapes};
pub use jumps::goes_on;
pub use laws::{joins_of_shapes, runs_of_verified_images};
