//! Each text, each call, and all words and bytes have an answer; and what is printed of values and of certificates is
//! read again.
//!
//! ```
//! laws::answers_exist(); // each text has an answer of these commands
//! laws::images_are_written(); // and of `image`
//! laws::texts_are_proved(); // and of `prove`
//! laws::calls_are_answered(); // and of each command that calls a function
//! laws::each_is_answered(); // so want of memory, of the source or of the sink alone keeps `serve` from an answer
//! laws::display_is_read_back(); // a value with decimals is read again
//! ```
#![tactic(auto)]

pub mod laws;
