//! What the tokens before a token make of it.
ghost use Rattle.std.specs.Prelude.{◌≡◌};
ghost use Rattle.std.specs.Option.{option_copied};
ghost use Rattle.um_syntax.specs.Lexing.{is_glued, is_power_place, is_caret, is_minus};

use crate::token::{Kind, Token};
use crate::tokens::TokenBlocks;
use um_vocabulary::Symbol;

// Whether the token is `^`.
fn is_caret(token: Option<&Token>) -> bool
    ensures { result ≡ is_caret (option_copied token.entry) }
{
    match token {
        Some(
            Token {
                kind: Kind::Sign(Symbol::Caret),
                ..
            },
        ) => true,
        _ => false,
    }
}

// Whether the token is `-`.
fn is_minus(token: Option<&Token>) -> bool
    ensures { result ≡ is_minus (option_copied token.entry) }
{
    match token {
        Some(
            Token {
                kind: Kind::Sign(Symbol::Minus),
                ..
            },
        ) => true,
        _ => false,
    }
}

/// Whether a number after the tokens is a power.
pub fn is_power_place(tokens: &TokenBlocks) -> bool
    ensures { result ≡ is_power_place tokens.now }
{
    is_caret(tokens.last()) || (is_minus(tokens.last()) && is_caret(tokens.last_but_one()))
}

/// Whether a token that starts there directly follows the last.
pub fn is_glued(tokens: &TokenBlocks, start: u32) -> bool
    ensures { result ≡ is_glued tokens.now start }
{
    match tokens.last() {
        Some(token) => token.end == start,
        None => false,
    }
}
