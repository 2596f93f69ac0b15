//! Whether a code image is verified: its heads, and the rule of each address of its functions, by shapes in place of
//! values. And calls of functions of verified images.
//!
//! What the rules are, and that a verified image never gets stuck, stands in `um_verify`.
//!
//! ```
//! let image = decode(alloc, bytes)?;
//! let verified = verify(alloc, image)?; // or the first head or address that fails
//! let outcome = exec(alloc, &verified, 0, args, 1_000)?; // the first function, with a budget of 1,000 calls
//! ```
#![tactic(auto)]

mod body;
mod check;
mod heads;
mod known;
mod laws;
mod names;
mod point;
mod records;
mod rules;
mod run;
mod stop;
mod table;
mod verified;
mod view;

pub use check::verify;
pub use laws::{images_are_answered, refusals_of_images};
pub use run::exec;
pub use stop::VerifyStop;
pub use verified::Verified;
