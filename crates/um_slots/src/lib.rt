//! The slots of a function: one for each unit of it that isn't known, and its types over them.
//!
//! A unit parameter, a hole of the text and each other named unit variable has a slot, which is a variable in the
//! equations of the function (Kennedy, Programming Languages and Dimensions, 1996, on the inference of units). Their
//! order is this project's own.
//!
//! ```
//! let numbering = number_slots(&environment, &definition)?; // which slot each hole and each name has
//! let context = context_of(&environment, numbering.params, holes, names, &definition)?; // the types of the notes
//! ```
#![tactic(auto)]

mod context;
mod definition;
mod expressions;
mod inputs;
mod noted;
mod numbering;
mod slots;
mod stop;
mod types;

pub use context::{Context, context_of};
pub use definition::{Definition, Environment};
pub use inputs::call_of;
pub use noted::{note_holes, noted_type, noted_unit, unit_holes};
pub use numbering::{Numbering, name_units, number_slots};
pub use slots::Slots;
pub use stop::SlotStop;
pub use types::{copied, copied_types, copied_units, renamed};
