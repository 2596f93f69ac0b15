//! Words on a stack, over the cells that they name, and what the operations of a machine leave there.
//!
//! ```
//! let mut stack = Stack::new(alloc, args)?; // words that denote the values
//! let (at, x, y) = stack.two(base)?; // the two topmost words, and the place of the lower one
//! stack.put(at, calculate(op, x, y))?; // what the operation gave, in their place
//! ```
#![tactic(auto)]

mod operations;
mod stack;
mod stop;
mod words;

pub use operations::{Unary, apply};
pub use stack::Stack;
pub use stop::Stop;
pub use words::{item, item_at, make_room};
