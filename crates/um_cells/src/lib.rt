//! Values in shared cells: words that are copied at once, and the store of the cells that they name. Beside them stands
//! what a runner of a program's functions promises.
//!
//! ```
//! let mut store = Store::new(alloc);
//! let list = store.put(alloc, &value)?; // a word, which is copied at once
//! let longer = store.cons(item, list)?; // shares the cells of `list`
//! let back = store.get(alloc, list)?; // the value that it stands for
//! let outcome = runner.call(alloc, 0, args, 1_000)?; // of the first function, with a budget of 1,000 calls
//! ```
#![tactic(auto)]

mod cell;
mod getting;
mod laws;
mod operations;
mod putting;
mod runner;
mod store;
mod word;

pub use laws::{arms_of_lists, holding_words, kept_words, one_value};
pub use operations::{WordOutcome, calculate, compare, negate, not, raise, truth};
pub use runner::Runner;
pub use store::Store;
pub use word::{ListCase, Word};
