//! The rows of a function, solved one by one, and its types under the solution.
//!
//! Each row asks that its unit is 1. Elimination takes one row after the other and keeps the most general solution
//! (Kennedy, Programming Languages and Dimensions, 1996: unification in the free abelian group). The first row that
//! has no solution together with those before it is told.
//!
//! ```
//! let solver = rigid_solver(alloc, rows.slots, bases, parameters, &rows.list.items)?; // or the first row without one
//! let types = solved_types(alloc, &solver, &rows, at)?; // the types of the parameters and of the result
//! ```
#![tactic(auto)]

mod refusal;
mod solving;
mod types;

pub use refusal::Refusal;
pub use solving::rigid_solver;
pub use types::solved_types;
