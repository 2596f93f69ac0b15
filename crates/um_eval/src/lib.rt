//! The tree runner: evaluates the resolved tree of a shaped program.
//!
//! What is still to be done stands in frames on a vector, so that neither calls nor the depth of the tree use the
//! host's stack.
//!
//! ```
//! let runner = TreeRunner::new(&shaped);
//! let outcome = runner.call(alloc, f, args, budget)?; // a value, a trap, or the end of the budget
//! let path = runner.trace(alloc, f, args, budget)?; // where such a call stops
//! ```
#![tactic(auto)]

mod call;
mod evaluator;
mod frame;
pub mod laws;
mod next;
mod operations;
mod path;
mod runner;
mod scope;
mod stop;

pub use runner::TreeRunner;
pub use stop::{Operands, Path, Spot};
