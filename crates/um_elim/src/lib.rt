//! Equations of units, solved by elimination in the free abelian group.
//!
//! A row is a unit that is to be equal to 1, and its variables are slots. A solver keeps for each slot a unit over
//! variables, so that the instances of these units are exactly the joint solutions of the rows. The source is Kennedy
//! (Programming Languages and Dimensions, 1996), on unification in the free abelian group; which of the most general
//! solutions is kept, and the range of powers, are this project's own.
//!
//! ```
//! let mut solver = Solver::new(alloc, 2)?; // slots 0 and 1
//! solver.add(alloc, &row)?; // x0^2 x1^-3 is to be 1: or NoSolution, or Range
//! let ty = solver.apply(alloc, &ty)?; // x0 and x1 are now the cube and the square of one variable
//! ```
#![tactic(auto)]

mod application;
mod elim_step;
mod in_order;
mod index;
pub mod laws;
mod numbering;
mod replacement;
mod solver;
mod step;
mod stop;

pub use application::put_in_type;
pub use elim_step::{ElimStep, next_step, unit_after_step};
pub use numbering::{Numbered, renumber};
pub use solver::Solver;
pub use stop::ElimStop;
