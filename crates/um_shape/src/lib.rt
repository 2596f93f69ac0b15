//! Shapes: types without their units. Each node of a shaped program has its shape.
//!
//! The rules are this project's own; the notation of types is that of the F# specification, Units Of Measure.
//!
//! ```
//! let shaped = shape(alloc, program)?; // or the first fault of shape, with its place
//! let shape = shaped.param_shape(0, 1); // of the second parameter of the first function
//! ```
#![tactic(auto)]

mod body;
mod flat;
mod functions;
mod known;
mod laws;
mod lookup;
mod records;
mod rules;
mod shaped;
mod signature;
mod stop;
mod whole;

pub use laws::{calls_of_shaped_functions, shapes_of_programs};
pub use shaped::Shaped;
pub use stop::ShapeStop;
pub use whole::shape;
