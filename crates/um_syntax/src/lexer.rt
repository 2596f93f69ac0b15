//! The tokens of a text.
ghost use Rattle.std.specs.Prelude.{◌≡◌, ◌≤◌, ◌⊎◌, List, length, Result, IfOk, IfErr, MatchResult};
ghost use Rattle.std.specs.Str.{chars};
ghost use Rattle.um_syntax.specs.declared.token.LexStop.{LexStop};
ghost use Rattle.um_syntax.specs.declared.token.LexStop.TheVariants.{NoMemory};
ghost use Rattle.um_syntax.specs.declared.token.Token.{Token};
ghost use Rattle.um_syntax.specs.Lexing.{HasTokens, HasFault, IsRefusal};
ghost use Rattle.um_syntax.specs.Machine.{scanned};
ghost use Rattle.um_syntax.specs.Scanning.{Answers};

use crate::scanner::Scanner;
use crate::token::LexStop;
use crate::tokens::{TokenBlocks, Tokens};
use std::alloc::Global;

/// The tokens of a text.
///
/// Names are letters by Unicode Standard Annex 31. White space and comments, from `//` to the end of the line, stand
/// between tokens, and at each place the longest token is taken. Places are byte offsets into the text.
///
/// # Errors
///
/// The leftmost fault of the text: a character at which no token stands, or a letter directly after a number; a number
/// that is too long or out of range; a power, a number after `^` or `^ -`, that isn't digits alone up to 2147483647.
/// `NoMemory` may come with any text.
pub fn lex(alloc: Global, text: &str) -> Result<Tokens, LexStop>
    requires { length text.now ≤ 1048576 }
    // What is answered is the text's.
    ensures ok { IfOk result (λ tokens. HasTokens (chars text.now) tokens) }
    ensures refused { IfErr result (λ stop. IsRefusal (chars text.now) stop) }

    // What the text has is answered, unless memory runs out.
    ensures tokens { (tokens : List Token) → HasTokens (chars text.now) tokens
        → MatchResult result (λ answer. answer ≡ tokens) (λ stop. stop ≡ NoMemory) }
    ensures fault { (stop : LexStop) → HasFault (chars text.now) stop → result ≡ Err stop ⊎ (result ≡ Err NoMemory) }
{
    in_one_piece(scan_text(alloc, text))
}

// The same answer, with the tokens in one piece.
fn in_one_piece(answer: Result<TokenBlocks, LexStop>) -> Result<Tokens, LexStop>
    ensures { (r : Result (List Token) LexStop) → Answers answer r → Answers result r }
{
    match answer {
        Ok(blocks) => Ok(blocks.into_tokens()?),
        Err(stop) => Err(stop),
    }
}

// The tokens of the text, as the machine gives them.
fn scan_text(alloc: Global, text: &str) -> Result<TokenBlocks, LexStop>
    requires { length text.now ≤ 1048576 }
    ensures { Answers result (scanned (chars text.now)) }
{
    let mut scanner = Scanner::new(alloc);
    for c in text.chars() {
        scanner.scan(c)?;
    }
    scanner.finish()
}
