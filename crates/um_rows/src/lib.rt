//! The equations of a function: rows of units over slots, whose joint solutions are exactly the function's typings.
//!
//! Each two units that a typing rule asks to be equal give a row, the first over the second, and a unit that the
//! program leaves open is a slot (Kennedy, Programming Languages and Dimensions, 1996, on the inference of units). The
//! order of the rows and of the slots, and the range of powers, are this project's own.
//!
//! ```
//! let equations = rows(alloc, &shaped, f, &schemes)?; // schemes of the functions before f
//! for row in &equations.list.items { .. } // row.unit is to be 1, as the text asks at row.at
//! let typed = typed_rows(alloc, &shaped, f, &schemes)?; // the same, with the type of each node of the body
//! ```
#![tactic(auto)]

mod calls;
mod equations;
mod function_calls;
mod function_rows;
pub mod laws;
mod leaves;
mod nodes;
mod operations;
mod progress;
mod records;
mod rules;
mod value;
mod walk;
mod walker;

pub use function_calls::call_rows;
pub use function_rows::{rows, typed_rows};
pub use nodes::{NodeType, NodeTypes, TypedRows};
pub use um_equal_types::{Row, RowList, RowStop, Rows};
