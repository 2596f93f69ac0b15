//! All that the program does, over any source and any sink.
//!
//! ```
//! let mut words = Words::new(alloc);
//! words.push(alloc, "types")?;
//! let status = serve(alloc, &words, &mut source, &mut sink); // the answer is in the sink
//! ```
#![tactic(auto)]

mod dispatch;
pub mod laws;
mod quiet;
mod room;
mod top;
mod words;

pub use quiet::status_of;
pub use top::serve;
pub use um_call_answers::big_text;
pub use um_orders::{Intake, Order, TextOrder, Words, order_of};
pub use um_reports::Status;
