//! How a run may end, and what the program says when it refuses: report lines, with the places that they name.
//!
//! ```
//! let reply = reply_to_trap(alloc, Trap::DivZero)?; // `error 12: division by zero`, and its status
//! let status = reply.status.number();
//! ```
#![tactic(auto)]

mod call_refusal;
mod cursor;
mod image_refusal;
pub mod laws;
mod place;
mod refusal;
mod reply;
mod scale_refusal;
mod status;

pub use call_refusal::{
    reply_to_call, reply_to_call_range, reply_to_matching, reply_to_signature, reply_to_trap,
    reply_to_unnamed,
};
pub use cursor::{Cursor, LineHeads, push_next_place, start_of_text};
pub use image_refusal::{reply_to_bad_byte, reply_to_bad_code, reply_to_bad_head};
pub use refusal::{
    reply_line, reply_to_certificate, reply_to_names, reply_to_not_general, reply_to_range,
    reply_to_shapes, reply_to_slots, reply_to_text, reply_to_tokens, reply_to_units,
    reply_to_unread,
};
pub use reply::Reply;
pub use scale_refusal::{reply_to_literal, reply_to_misfit, reply_to_run_trap, reply_to_sizes};
pub use status::Status;
