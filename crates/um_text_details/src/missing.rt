// The `let` that has no `in`.
ghost use Rattle.std.specs.Prelude.{◌≡◌, ◌+◌, ◌<◌, ◌==◌, ◌&&◌, cond, option_copied};
ghost use Rattle.um_text_details.specs.OpenLets.{begins_declaration, ends_body, is_in, is_let, open_let};

use um_syntax::{Keyword, Kind, Symbol, Token};

/// The place of the last `let` that has as many `in` as `let` after it.
pub(crate) fn open_let(tokens: &[Token]) -> Option<u32>
    ensures { result ≡ open_let tokens.now }
{
    let mut lets: usize = 0;
    let mut ins: usize = 0;
    for k in (0..tokens.len()).rev() {
        let token = &tokens[k];
        if is_open(token, lets, ins) {
            return Some(start_of(token));
        }
        lets = counted(lets, is_let(token));
        ins = counted(ins, is_in(token));
    }
    None
}

/// Where the token begins.
fn start_of(token: &Token) -> u32
    ensures { result ≡ token.now.start }
{
    token.start
}

/// Whether the token is a `let`, and these are as many `let` as `in`.
fn is_open(token: &Token, lets: usize, ins: usize) -> bool
    ensures { result ≡ is_let token.now && ins == lets }
{
    is_let(token) && ins == lets
}

/// One more, if the next is one.
fn counted(count: usize, one: bool) -> usize
    requires { count < 18446744073709551615 }
    ensures { result ≡ cond one (1 + count) count }
{
    if one { count + 1 } else { count }
}

fn is_let(token: &Token) -> bool
    ensures { result ≡ is_let token.now }
{
    match &token.kind {
        Kind::Word(Keyword::Let) => true,
        _ => false,
    }
}

fn is_in(token: &Token) -> bool
    ensures { result ≡ is_in token.now }
{
    match &token.kind {
        Kind::Word(Keyword::In) => true,
        _ => false,
    }
}

/// Whether a declaration begins with the token, or the text ends there.
pub(crate) fn ends_body(token: Option<&Token>) -> bool
    ensures { result ≡ ends_body (option_copied token.entry) }
{
    match token {
        None => true,
        Some(token) => begins_declaration(&token.kind),
    }
}

fn begins_declaration(kind: &Kind) -> bool
    ensures { result ≡ begins_declaration kind.now }
{
    match kind {
        Kind::Word(Keyword::Let) | Kind::Word(Keyword::Type) | Kind::Sign(Symbol::AttributeOpen) =>
            { true }
        _ => false,
    }
}
