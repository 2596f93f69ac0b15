//! The code of a program, for the machine of `um_machine`.
//!
//! [`generate`] writes it, and the laws say that its run ends as the program's meaning does. What the code is stands in
//! `specs/`, apart from the order in which it is written.
//!
//! ```
//! let code = generate(alloc, &shaped)?;
//! runs_of_code(); // its runs end as the meaning has it, and are never stuck
//! ```
#![tactic(auto)]

mod emitter;
mod expr;
mod laws;
mod program;

pub use laws::runs_of_code;
pub use program::generate;
