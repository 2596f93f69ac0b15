//! Certificates of what inference answers: of each function's scheme, and of the first function's having none.
//!
//! Beside the elimination of a function's rows (Kennedy, Programming Languages and Dimensions, 1996, on unification in
//! the free abelian group) an inverse substitution of the solution is kept, and the powers of rows by which each slot
//! comes back. What is kept, and which numbers it can hold, are this project's own.
//!
//! ```
//! let proofs = prove(alloc, &shaped)?; // a certificate for each scheme, and for the first function that has none
//! ```
#![tactic(auto)]

pub mod laws;
mod program;
mod proofs;
mod refused;
mod renaming;
mod stop;
mod yes;

pub use program::prove;
pub use proofs::{Proofs, YesList};
pub use refused::make_no;
pub use stop::ProveStop;
pub use um_check::{No, Part, Yes, check_no, check_yes};
pub use um_kept::CertStop;
pub use yes::make_yes;
