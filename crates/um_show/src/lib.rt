//! Printed texts: of numbers, of units, types and schemes, of values, and of programs in their layout.
//!
//! ```
//! let line = scheme_text(alloc, &name, &scheme, &program)?; // `mean : num<'a> list -> num<'a>`
//! let layout = program_text(alloc, &raw)?; // the program as `fmt` prints it
//! ```
#![tactic(auto)]

mod decl;
mod expr;
pub mod laws;
mod number;
mod printed_scheme;
mod printed_type;
mod printed_unit;
mod printer;
mod text;
mod types;
mod unit;
mod value;

pub use decl::{layout_text, program_text};
pub use number::number_text;
pub use printed_scheme::scheme_text;
pub use printed_type::{push_named_type, type_text};
pub use printed_unit::{Variables, unit_text};
pub use printer::{ValuePrinter, is_closed, push_number_at, push_suffix};
pub use value::{text_by, value_text};
