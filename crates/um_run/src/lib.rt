//! Calls as a user writes them: the name of a function and a text for each argument.
//!
//! [`read_call`] looks the function up, reads each text at the shape of its parameter, and types the call. `specs/` has
//! the whole answer as a relation ([`CallRefusal`] has the refusals). [`read_image_call`] does the same for a function
//! of a code image, whose numbers have no units: they may be written at unit 1 alone. Nothing is run here.
//!
//! ```
//! let call = read_call(alloc, &shaped, &schemes, &abbreviations, "mean", &texts)?;
//! let tables = tables_of(alloc, &shaped, &abbreviations)?; // once, for many calls
//! let callable = callable_of(&shaped, &schemes, &abbreviations, &tables);
//! let call = read_call_of(alloc, &callable, "mean", &texts)?;
//! let args = argument_values(alloc, &call.inputs)?; // the values to run on; call.ty is the call's type
//! let call = read_image_call(alloc, verified.image(), "mean", &texts)?;
//! ```
#![tactic(auto)]

mod argument;
mod call;
mod callable;
mod calling;
mod function;
mod head;
mod image_call;
mod known;
pub mod laws;
mod read;
mod values;

pub use call::{Call, CallRefusal, ImageCall};
pub use callable::{CallTables, Callable};
pub use calling::{callable_of, read_call_of, tables_of};
pub use function::function_named;
pub use image_call::{program_of, read_image_call};
pub use read::read_call;
pub use values::argument_values;
