//! What hosts call that start no process: a page or a program in C hands in words and a text, and gets the status and
//! the answer; a program in C keeps a program open between its calls.
//!
//! ```
//! let status = um_page_serve(alloc, b"types", text, &mut answer, &mut size); // the answer is the first `size` bytes
//! let status = umc_embed_open(alloc, text, &mut program, &mut answer, &mut size); // 0: checked and compiled, once
//! let status = umc_embed_call(alloc, &mut program, 100, b"mean\0[1; 2]", &mut answer, &mut size); // as `run`
//! umc_embed_close(alloc, &mut program);
//! ```
#![tactic(auto)]

mod call;
mod hand;
mod host;
mod kept;
mod line;
mod loose;
mod opened;
mod prepared;
mod program;
mod run;
mod words;

pub use host::{um_page_serve, umc_embed_call, umc_embed_close, umc_embed_open, umc_embed_types};
pub use program::Program;
