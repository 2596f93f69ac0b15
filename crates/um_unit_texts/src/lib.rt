//! The grammar of unit texts, and the reader that takes them one token at a time.
//!
//! What the readers of types and of expressions share stands here too: the greatest height and heights as they are
//! counted, the places of tokens, and names of raw trees.
//!
//! ```
//! let (unit, stop) = read::<UnitReader>(alloc, tokens.as_slice())?; // `m/s^2`, up to what doesn't go on
//! ```
#![tactic(auto)]

mod height;
mod name;
mod places;
mod unit_frame;
mod unit_frames;
mod unit_least;
mod unit_machine;
mod unit_operand;
mod unit_query;
mod unit_reader;

pub use height::{GREATEST_HEIGHT, TOO_HIGH, counted_sum, higher, one_higher};
pub use name::name_of;
pub use places::place;
pub use unit_machine::{is_foreign, written_power};
pub use unit_operand::Operand;
pub use unit_query::{can_begin, can_follow};
pub use unit_reader::UnitReader;
