//! Values as a user writes them: the text of an argument, read at the shape of a parameter.
//!
//! [`read_value`] cuts the text into tokens, reads them one at a time by the grammar of the shape, looks its names up
//! and then its ranges. `specs/` has the grammar as a relation and the whole answer ([`InputStop`] has the refusals).
//!
//! ```
//! let input = read_value(alloc, "[1<m>; 2.5<m>]", &shape, &program, &abbreviations)?;
//!
//! let measures = measures_of(alloc, &program, &abbreviations)?; // once, for many texts
//! let known = known_names(&program, &abbreviations, &measures);
//! let input = read_known_value(alloc, "[1<m>; 2.5<m>]", &shape, &known)?;
//! ```
#![tactic(auto)]

mod frame;
mod inputs;
mod known;
pub mod laws;
mod names;
mod raw;
mod read;
mod reader;
mod reading;
mod stop;
mod wanted;

pub use known::KnownNames;
pub use read::{known_names, read_known_value, read_value};
pub use stop::InputStop;
pub use um_cells::Runner;
