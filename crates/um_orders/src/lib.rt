//! What the words of a command line ask for.
//!
//! ```
//! let mut words = Words::new(alloc);
//! words.push(alloc, "big")?;
//! words.push(alloc, "10")?;
//! let order = order_of(&words); // Some(Order::Big(10)), or None if the words are those of no command
//! ```
#![tactic(auto)]

mod order;
mod words;

pub use order::{BytesOrder, Intake, Order, TextOrder, order_of};
pub use words::Words;
