//! Tables of names: measures, unit variables and the variables of a scope, with the units that unit texts stand for.
//!
//! ```
//! let measures = measures_of(alloc, &program, &abbreviations)?;
//! let unit = closed_unit(alloc, &program, &abbreviations, &raw)?; // `N s` as kg m/s
//! ```
#![tactic(auto)]

mod abbreviation;
mod closed;
mod digest;
mod digests;
mod measures;
mod running;
mod scope;
mod stop;
mod table;
mod unit;
mod variables;

pub use abbreviation::{Abbreviation, Abbreviations};
pub use closed::{closed_unit, measures_of};
pub use digest::NameDigest;
pub use digests::{
    FunctionNames, declarations_digest, fields_digest, function_names, names_digest,
    parameters_digest, program_digest, types_digest,
};
pub use measures::Measures;
pub use scope::{Scope, same_binding};
pub use stop::NameStop;
pub use table::NameTable;
pub use unit::{first_unknown, resolved_unit};
pub use variables::{add_type_variables, head_variables, named_variables};
