//! The types of all parts of a program.
//!
//! The types of the nodes of a function are a derivation of its scheme, and every derivation of every typing of the
//! function is an instance of them (Kennedy, Programming Languages and Dimensions, 1996). The order of the nodes and
//! the range of powers are this project's own.
//!
//! ```
//! let schemes = infer(alloc, &shaped)?;
//! for node in &annotated(alloc, &shaped, i, &schemes)?.items { .. } // node.ty is the type of the part at node.at
//! ```
#![tactic(auto)]

mod annotation;
pub mod laws;
mod order;
mod stop;

pub use annotation::annotated;
pub use stop::AnnotStop;
