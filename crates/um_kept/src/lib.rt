//! What the making of certificates keeps while a function's rows are treated one after another.
//!
//! Beside the elimination of the rows (Kennedy, Programming Languages and Dimensions, 1996, on unification in the free
//! abelian group) an inverse substitution of the solution is kept, and the powers of rows by which each slot comes
//! back. What is kept, and which numbers it can hold, are this project's own.
//!
//! ```
//! let treated = make_rows(alloc, head, rows)?; // what is kept after all rows, or the first row that has no solution
//! ```
#![tactic(auto)]

mod kept;
mod made;
mod past;
mod row;
mod stop;

pub use kept::{Head, PartialCertificate};
pub use made::{Treated, make_rows, parts_of};
pub use past::narrowed;
pub use row::Refused;
pub use stop::CertStop;
