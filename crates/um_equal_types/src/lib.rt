//! Equations between units, as rows, and those of two types that must be equal.
//!
//! A row asks that its unit is 1. Two types that must be equal give a row for each two units at the same place in them,
//! the first over the second (Kennedy, Programming Languages and Dimensions, 1996, on the inference of units).
//!
//! ```
//! against(alloc, at, &left, &right, &mut rows)?; // `num<m>` and `num<s>` give the row m s^-1
//! ```
#![tactic(auto)]

mod equality;
mod row;

pub use equality::{against, against_each, push_never, push_quotient, types_against};
pub use row::{Row, RowList, RowStop, Rows};
