//! Bytes in and out: where a text is read from, where an answer is written to, and an exact count of what went wrong.
//!
//! A [`Source`] gives bytes and a [`Sink`] takes them, a piece at a time. Each counts its faults, and a call of either
//! fails only if that count rose. [`read_text`] reads a whole text, [`read_into`] hands it on piece by piece to a
//! [`Taker`], and [`write_all`] writes a text.
//!
//! [`StdSource`] and [`StdSink`] stand over std's readers and writers, [`QuietSource`] and [`QuietSink`] never fail,
//! and [`MemSource`] and [`MemSink`] move a few bytes at a time and fail at the calls that a test names.
//!
//! ```
//! let mut source = StdSource::new(rt.stdin());
//! let text = read_text(alloc, &mut source, 1_048_576)?; // TooLong if one byte more can be read
//! let mut sink = StdSink::new(rt.stdout());
//! write_all(&mut sink, &text)?;
//! ```
#![tactic(auto)]

mod copy;
mod mem_sink;
mod mem_source;
mod quiet;
mod read;
mod sink;
mod source;
mod std_sink;
mod std_source;
mod taker;
mod write;

pub use mem_sink::MemSink;
pub use mem_source::MemSource;
pub use quiet::{QuietSink, QuietSource};
pub use read::{ReadStop, read_into, read_text};
pub use sink::Sink;
pub use source::{Failed, Source};
pub use std_sink::StdSink;
pub use std_source::StdSource;
pub use taker::Taker;
pub use write::write_all;

/// Want of memory.
pub type NoMemory = std::alloc::AllocError;
