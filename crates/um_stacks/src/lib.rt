//! Stacks of shapes, as a verifier of code keeps them: stacks that were made from one another share what lies below
//! their tops, so that a push, a jump and a fork of the code take one step each, however high the stack is.
//!
//! ```
//! let mut stacks = Stacks::new(alloc);
//! let one = stacks.push(EMPTY, FlatShape::of(Item::Num))?; // the number of a stack with one shape
//! let two = stacks.push(one, FlatShape::of(Item::Bool))?;
//! stacks.pop(two); // the shape on the top, and `one`
//! ```
#![tactic(auto)]

mod flat;
mod join;
mod stacks;

pub use flat::{FlatShape, Item};
pub use stacks::{EMPTY, Stacks};
