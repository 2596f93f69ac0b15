//! The schemes of a program's functions, or its first function without one.
//!
//! Functions are taken in order, each with the schemes of those before it (Kennedy, Programming Languages and
//! Dimensions, 1996: a program's principal schemes). The limit of slots, the range of powers and the place of a refusal
//! are this project's own.
//!
//! ```
//! let schemes = infer(alloc, &shaped)?; // or the first function without one, with its place
//! let ty = type_call(alloc, &shaped, &schemes, f, &args)?; // the type of a call
//! ```
#![tactic(auto)]

mod call;
mod forming;
mod general;
pub mod laws;
mod program;
mod solution;
mod solved;
mod stop;

pub use call::type_call;
pub use general::{general_types, generalised_unit};
pub use program::{infer, infer_first};
pub use solution::signature_by;
pub use solved::{SolvedFunction, SolvedProgram, infer_solved};
pub use stop::{CallStop, InferStop};
