//! Signatures: types that a function is held to, as they are written, and whether a function may be used at them.
//!
//! A signature conforms to a function's scheme if each of its instances is an instance of the scheme, and so, since
//! a function's scheme has exactly its typings as instances, a typing of the function (Kennedy, Programming Languages
//! and Dimensions, 1996). Its variables are units of their own while it is matched. The grammar of signature texts, the
//! order of the refusals and the range of powers are this project's own.
//!
//! ```
//! let signature = read_signature(alloc, "num<'a> -> num<'a^2>", &program, &abbreviations)?;
//! conform(alloc, &scheme, &signature, bases)?; // or the first type that differs
//! ```
#![tactic(auto)]

mod conformity;
mod form;
mod heads;
pub mod laws;
mod matching;
mod reading;
mod row;
mod signature;
mod stop;
mod types;

pub use conformity::conform;
pub use reading::read_signature;
pub use signature::Signature;
pub use stop::{SigStop, SigText};
pub use types::types_of;
