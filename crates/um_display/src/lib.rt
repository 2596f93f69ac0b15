//! Values as people write them: numbers with decimals, in units of the user's choice.
//!
//! ```
//! let parts = read_parts(alloc, "J,ft=0.3048<m>")?; // or nothing, if the word states no units
//! let units = display_units(alloc, &program, &abbreviations, &parts)?; // or NoUnit, if `J` is no measure
//! // numbers are printed by these: `9.00<J>`
//! ```
#![tactic(auto)]

mod display;
pub mod laws;
mod number;
mod part;
mod plain;
mod resolve;
mod unit;
mod word;

pub use display::Display;
pub use part::Part;
pub use resolve::display_units;
pub use unit::{DisplayUnit, DisplayUnits, UnitsStop};
pub use word::{Parts, is_units, read_parts};
