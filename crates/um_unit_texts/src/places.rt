// Places of tokens.
ghost use Rattle.std.specs.Prelude.{◌≡◌};
ghost use Rattle.um_unit_texts.specs.UnitStops.{place_of};

use um_syntax::Token;

/// The place of a token by its number, or the end.
pub fn place(tokens: &[Token], k: usize, end: u32) -> u32
    ensures { result ≡ place_of tokens.now k end }
{
    match tokens.get(k) {
        Some(token) => token.start,
        None => end,
    }
}
