//! A run of code over words on a stack: its steps, one after the other or several at once.
//!
//! A step of a run is a step of the definition in `um_machine`.
//!
//! ```
//! let mut run = Run::new(alloc, &code, f, args, budget)?; // a call that has begun
//! let progress = run.run(limit); // how many steps were made, and what the last one answered
//! ```
#![tactic(auto)]

mod calling;
mod progress;
mod run;
mod several;
mod stride;

pub use progress::Progress;
pub use run::Run;
