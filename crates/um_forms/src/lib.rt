//! The forms of expressions: what a token is to expressions, and what it makes of an expression that has begun.
//!
//! Each call takes one token at a place in the text. It changes the expression that has begun, and says that the token
//! goes on, or that the expression stops before it, and what was read then (`um_operands::Step`). `um_expr` decides
//! which call is made, by what is in focus. The questions (`can_begin`, `can_argue` and the like) say whether a token
//! of a kind would go on. They take no token and change nothing.
//!
//! ```
//! let mut begun = Begun::new(alloc);
//! let step = begin(alloc, &mut begun, ExprToken::Number(one), 0)?; // `1` is read
//! ```
#![tactic(auto)]

mod argument;
mod closing;
mod expected;
mod operator;
mod power;
mod query;
mod token;
mod wanted;

pub use argument::{begin_argument, name_argument};
pub use closing::{end_by_mark, end_by_word};
pub use expected::inside;
pub use operator::{after_operator, infix_after, less_after};
pub use power::{bracket_after, in_pown, number_after};
pub use query::{
    can_argue, can_be_greater, can_be_less, can_begin, can_close_empty, can_end_by_mark,
    can_end_by_word, can_stand_between, is_expected,
};
pub use token::{ExprToken, plain_operator, plain_word};
pub use wanted::{after_greater, begin, refuse_token};
