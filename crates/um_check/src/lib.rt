//! Certificates of a function's scheme, or of its having none, which a reader can check by sums of integers.
//!
//! A solution of equations of units is most general if it solves them and some inverse substitution makes each slot of
//! itself, but for a product of the equations, up to a power (Kennedy, Programming Languages and Dimensions, 1996, on
//! unification in the free abelian group, which has no element of finite order). Equations have no solution if a
//! product of them has powers that are multiples of a number at each variable, and none at some base unit (Schrijver,
//! Theory of Linear and Integer Programming, 1986, section 4.1). Nothing is eliminated to check either. The form of
//! certificates is this project's own.
//!
//! ```
//! let shown = check_yes(alloc, &rows, units, bases, &scheme, &yes)?; // the scheme is that of these rows
//! let refuted = check_no(alloc, &rows, units, bases, &no)?; // these rows have no solution
//! ```
#![tactic(auto)]

mod becomes;
mod below;
mod certificate;
mod combination;
mod comes_back;
mod general;
pub mod laws;
mod refutation;
mod scheme;

pub use certificate::{No, Part, PartLists, Parts, Yes};
pub use refutation::check_no;
pub use scheme::check_yes;
