//! Names: the program of a raw tree, with each name that it uses found where it is declared.
//!
//! ```
//! let all = resolve_all(alloc, &raw)?; // or the first name that is unknown, repeated or miscounted
//! let program = all.program;
//! let shorts = all.abbreviations; // each with its closed unit
//! ```
#![tactic(auto)]

mod adding;
mod body;
mod callable;
mod declare;
mod expr;
mod fields;
mod joint;
mod known;
mod laws;
mod lookup;
mod node;
mod parts;
mod records;
mod resolving;
mod signature;
mod types;

pub use adding::{add_base, add_short, copied};
pub use known::Tables;
pub use laws::records_by_their_fields;
pub use records::add_record;
pub use resolving::{Resolved, abbreviations, resolve, resolve_all, resolve_tree};
pub use types::{note, written};
pub use um_measures::{Abbreviation, Abbreviations, NameStop, closed_unit};
