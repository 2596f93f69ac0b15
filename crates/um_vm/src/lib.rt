//! The machine that runs the code of a program, over values in shared cells, and the runner by code.
//!
//! A machine's steps are those of the definition in `um_machine`. The functions that wait stand in frames on a vector,
//! so that neither calls nor the length of lists use the host's stack.
//!
//! ```
//! let runner = CodeRunner::new(&shaped, &code);
//! let counted = runner.count_steps(alloc, f, args, budget)?; // the outcome, and in how many steps
//! let counted = run_code(alloc, &code, f, args, budget)?; // the same of any code whose jumps go forward
//! let mut machine = Machine::start(alloc, &code, f, args, budget)?;
//! let step = machine.step()?; // Going, Ended or Stuck
//! ```
#![tactic(auto)]

mod counting;
mod laws;
mod machine;
mod phase;
mod runner;
mod step;

pub use counting::{CountedOutcome, run_code};
pub use laws::{counted_calls, shown_steps};
pub use machine::Machine;
pub use runner::CodeRunner;
pub use step::Step;
