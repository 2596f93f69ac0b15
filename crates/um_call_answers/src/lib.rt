//! The answers to orders that call a function: by its program's code or its tree, many times, of an image, and of a
//! generated program; and the arguments of a call in other sizes of the base units.
//!
//! ```
//! let call = CallWords { budget: 100, name: "mean", texts: &texts };
//! let reply = answer_call(alloc, Way::Code, &call, text)?; // the text to write, and the status
//! ```
#![tactic(auto)]

mod arguments;
mod asked;
mod big;
mod call;
mod call_words;
mod calls;
mod compiled;
mod exec;
mod generated;
pub mod laws;
mod outcome;
mod way;

pub use arguments::{ArgumentStop, rescaled_arguments};
pub use asked::read_asked;
pub use big::answer_big;
pub use call::answer_call;
pub use call_words::CallWords;
pub use calls::{answer_call_of, answer_calls};
pub use compiled::Compiled;
pub use exec::answer_exec;
pub use generated::big_text;
pub use outcome::reply_to_value;
pub use way::Way;
