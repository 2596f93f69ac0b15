//! Rescaling: programs, texts and inputs in other sizes of the base units, and both runs side by side.
//!
//! The law is Kennedy's (Relational Parametricity and Units of Measure, 1997); it is proved in `um_scaling`.
//!
//! ```
//! let mut scales = Scales::ones(alloc, 1)?;
//! scales.set(0, hundred); // metres become centimetres
//! let rescaled = rescale_program(alloc, &program, &scales)?; // or its first literal that doesn't fit
//! let both = twin(alloc, &first, &second, &scales, 0, args, scaled, budget)?;
//! ```
#![tactic(auto)]

mod copies;
mod expression;
mod input;
pub mod laws;
mod literal;
mod outcomes;
mod placed;
mod program;
mod respelling;
mod runs;
mod scales;
mod stop;
mod text;

pub use input::rescale_input;
pub use outcomes::Twin;
pub use program::rescale_program;
pub use runs::twin;
pub use scales::Scales;
pub use stop::ScaleStop;
pub use text::rescale_text;
