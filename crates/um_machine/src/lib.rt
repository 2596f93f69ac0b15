//! The instructions of a stack machine, and the machine as a definition: one step, and a run.
//!
//! The machine stands in `specs/`, over values and apart from any store. What runs code is proved against it, and so is
//! what writes code.
//!
//! ```
//! let ops = Ops::from_vec(vec![in alloc; Op::Load(0), Op::Load(1), Op::Mul, Op::Ret]?); // x * y
//! let entries = Entries::from_vec(vec![in alloc; Entry { start: 0, end: 4, params: 2 }]?);
//! let code = Code { ops, entries };
//! ```
#![tactic(auto)]

mod code;
mod op;
mod table;

pub use code::{Code, Entries, Entry, Ops};
pub use op::Op;
pub use table::Operand;
