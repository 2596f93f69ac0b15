// Program texts with the numbers of a rescaled program.
ghost use Rattle.std.specs.Prelude.{◌≡◌, ◌+◌, ◌++◌, ◌≤◌, ◌<◌, IfOk, List, OnOk, length, map, slice_get, slice_range};
ghost use Rattle.std.specs.Str.{chars};
ghost use Rattle.um_syntax.specs.declared.token.Token.{Token};
ghost use Rattle.um_syntax.specs.Lexing.{HasTokens};
ghost use Rattle.um_syntax.specs.Order.{AreInOrder};
ghost use Rattle.um_tree.specs.ProgramTree.{function_tree, program_tree};
ghost use Rattle.um_scale.specs.RescaledText.{literals_of, literal_at, is_number, is_less, opens_unit, new_number};
ghost use Rattle.um_scale.specs.RescaledText.{spelling, respelled, IsRescaledText};
ghost use Rattle.um_scale.specs.Spelling.{number_at};

use crate::placed::numbers_by_place;
use crate::respelling::Respelling;
use std::alloc::{AllocError, Global};
use um_frac::Frac;
use um_show::number_text;
use um_syntax::{Kind, Symbol, Token, lex};
use um_tree::{Function, Program};
use um_units::NoMemory;

/// The text with the numbers of a rescaled program: the number token of each literal that carries a written unit is
/// replaced by the number of that program's literal at its place, and all other bytes stay.
///
/// A literal carries a written unit if `<`, a unit and `>` follow its number, so `2.50` alone keeps its spelling.
/// The text is at most 1,048,576 bytes long and has tokens, as that of a program. The program is the text's own,
/// rescaled: a literal of another place changes nothing. `NoMemory` is the one error.
///
/// The form of a text is this project's own.
pub fn rescale_text(alloc: Global, text: &str, rescaled: &Program) -> Result<Vec<u8>, NoMemory>
    requires short { length text.now ≤ 1048576 }
    requires tokens { (tokens : List Token) × HasTokens (chars text.now) tokens }
    ensures { IfOk result (λ bytes. IsRescaledText text.now (program_tree rescaled.now) bytes.items) }
{
    let tokens = match lex(alloc, text) {
        Ok(tokens) => tokens,
        Err(_) => return Err(AllocError),
    };
    let functions = &rescaled.functions.items;
    let result = respelled_by(alloc, text.as_bytes(), functions, tokens.as_slice());
    drop(tokens);
    result
}

/// The bytes with the numbers of the functions' literals.
fn respelled_by(
    alloc: Global,
    bytes: &[u8],
    functions: &[Function],
    tokens: &[Token],
) -> Result<Vec<u8>, AllocError>
    requires short { length bytes.now ≤ 1048576 }
    requires in_order { AreInOrder 0 tokens.now (length bytes.now) }
    ensures { IfOk result (λ text. text.items
        ≡ respelled bytes.now (literal_at (literals_of (map function_tree functions.now))) 0 tokens.now) }
{
    let numbers = numbers_by_place(alloc, bytes.len() + 1, functions)?;
    let respelling = Respelling {
        alloc,
        bytes,
        numbers: &numbers,
    };
    respelled(&respelling, tokens)
}

/// The bytes with the numbers of the table.
fn respelled(respelling: &Respelling, tokens: &[Token]) -> Result<Vec<u8>, AllocError>
    requires { AreInOrder 0 tokens.now (length respelling.now.bytes.now) }
    ensures { IfOk result (λ text. text.items
        ≡ respelled respelling.now.bytes.now (number_at respelling.now.numbers.now) 0 tokens.now) }
{
    let mut text = Vec::new(respelling.alloc);
    let mut from = 0;
    for k in 0..tokens.len() {
        let token = &tokens[k];
        let followed = opens_unit(tokens, k + 1);
        push_token(respelling, &mut text, from, token, followed)?;
        from = token.end;
    }
    text.extend_from_slice(&respelling.bytes[from as usize..])?;
    Ok(text)
}

/// Adds the bytes before a token, and the token's spelling.
fn push_token(
    respelling: &Respelling,
    text: &mut Vec<u8>,
    from: u32,
    token: &Token,
    followed: bool,
) -> Result<(), AllocError>
    requires from { from ≤ token.now.start }
    requires start { token.now.start ≤ token.now.end }
    requires end { token.now.end ≤ length respelling.now.bytes.now }
    ensures { OnOk result (text.new.items
        ≡ text.old.items ++ (slice_range respelling.now.bytes.now from token.now.start
        ++ spelling respelling.now.bytes.now (number_at respelling.now.numbers.now) token.now followed)) }
{
    text.extend_from_slice(&respelling.bytes[from as usize..token.start as usize])?;
    push_spelling(respelling, text, token, followed)?;
    Ok(())
}

/// Adds a token as it stands, or the number that is printed in its place.
fn push_spelling(
    respelling: &Respelling,
    text: &mut Vec<u8>,
    token: &Token,
    followed: bool,
) -> Result<(), AllocError>
    requires start { token.now.start ≤ token.now.end }
    requires end { token.now.end ≤ length respelling.now.bytes.now }
    ensures { OnOk result (text.new.items ≡ text.old.items
        ++ spelling respelling.now.bytes.now (number_at respelling.now.numbers.now) token.now followed) }
{
    match new_number(respelling.numbers, token, followed) {
        Some(number) => {
            let digits = number_text(respelling.alloc, number)?;
            text.extend_from_slice(&digits)
        }
        None => text.extend_from_slice(&respelling.bytes[token.start as usize..token.end as usize]),
    }
}

/// The number that is printed in place of a token, if there is one.
fn new_number(numbers: &[Option<Frac>], token: &Token, followed: bool) -> Option<Frac>
    requires { token.now.start < length numbers.now }
    ensures { result ≡ new_number (number_at numbers.now) token.now followed }
{
    if is_number(&token.kind) && followed {
        numbers[token.start as usize]
    } else {
        None
    }
}

fn is_number(kind: &Kind) -> bool
    ensures { result ≡ is_number kind.now }
{
    matches!(kind, Kind::Number { .. })
}

/// Whether the token of this number is a `<` directly after the one before it.
fn opens_unit(tokens: &[Token], k: usize) -> bool
    ensures { result ≡ opens_unit (slice_get tokens.now k) }
{
    match tokens.get(k) {
        Some(next) => next.glued && is_less(&next.kind),
        None => false,
    }
}

fn is_less(kind: &Kind) -> bool
    ensures { result ≡ is_less kind.now }
{
    matches!(kind, Kind::Sign(Symbol::Less))
}
