//! Laws of the text of a program in other sizes: it is read as the rescaled program but for places, and the schemes are
//! the same.
//!
//! ```
//! laws::respelled_numbers(); // a text with other numbers before units has the tokens that it had, but for the numbers
//! laws::rescaled_numbers(); // with those of the rescaled program, they are that program
//! laws::same_trees(); // what is written alike but for places is the same program but for places
//! laws::rescaled_texts(); // so the rescaled text is read as the rescaled program
//! laws::rescaled_programs(); // which has the schemes of the program
//! ```
#![tactic(auto)]

pub mod laws;
