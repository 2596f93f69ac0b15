//! An expression that is being read: operators and how tightly they bind, operands with their heights, the forms that
//! are open around them, and what is expected inside these. This crate knows no tokens.
//!
//! A rank says how tightly a form binds, from 0, an atom, to 9, `let`, `if` and `match`; 10 is that of a frame that
//! only a token ends. A place is the number of a byte of the text: that of a form's first token, or of the sign between
//! its parts. Heights are counted up to one above the greatest that is allowed. A call fails only for want of memory.
//!
//! ```
//! let mut frames = Frames::new(alloc); // nothing is open
//! frames.push(Frame::InRight(at, sign, left))?; // after `left` and a sign
//! let tree = ended(alloc, &mut frames, 9, right)?; // both with the sign between them
//! ```
#![tactic(auto)]

mod begun;
mod ending;
mod focus;
mod frame;
mod frames;
mod infix;
mod least_height;
mod left;
mod matching;
mod node;
mod operand;
mod operands;

pub use begun::Begun;
pub use ending::{ended, whole};
pub use focus::{Expected, Focus, Step};
pub use frame::{Entry, Frame};
pub use frames::Frames;
pub use infix::Infix;
pub use least_height::is_low;
pub use left::{bound_left, frames_left};
pub use matching::Matching;
pub use operand::Operand;
pub use operands::{Operands, ReadFields};
