//! Declarations that have begun: the readers of records and of functions, one token at a time.
//!
//! Both read a [`Head`], a name with its unit parameters, and then fields, or parameters and a body. `um_parse` reads
//! what stands before the name, and puts declarations together.
//!
//! ```
//! let mut function = FunctionReader::new(alloc);
//! function.begin(false, at, name); // `let area`
//! let taken = function.take(alloc, &mut token)?; // it goes on, or the token is refused or makes it too high
//! let whole = function.finish(alloc, &mut decls)?; // whether the tokens that were taken are a function
//! ```
#![tactic(auto)]

mod boxed;
mod decl_end;
mod decl_token;
mod decl_vars;
mod function_reader;
mod head;
mod query;
mod record_reader;

pub use boxed::in_box;
pub use decl_end::{push_decl, push_found};
pub use decl_token::take_in_unit;
pub use function_reader::FunctionReader;
pub use head::Head;
pub use record_reader::RecordReader;
