// What is told of a refused token.
ghost use Rattle.std.specs.Prelude.{◌≡◌, ◌++◌, ◌≤◌, ◌<◌, ◌==◌, IfOk, OnOk, Err, Ok, length, option_copied};
ghost use Rattle.std.specs.Prelude.{Some, slice_get, take};
ghost use Rattle.std.specs.List.{flat_map, list_any};
ghost use Rattle.um_syntax.specs.Feeding.{IsTextAnswer};
ghost use Rattle.um_reader.specs.Texts.{BeginsTextWithin};
ghost use Rattle.um_unit_texts.specs.UnitStops.{greatest_height};
ghost use Rattle.um_types.specs.declared.parse.ParseStop.TheVariants as stop;
ghost use Rattle.um_parse.specs.DeclGrammar.{IsProgram};
ghost use Rattle.um_parse.specs.Parsed.{Parsed};
ghost use Rattle.um_parse.specs.ProgramHeights.{program_height};
ghost use Rattle.um_text_details.specs.Expected.{AreExpected};
ghost use Rattle.um_text_details.specs.SyntaxDetails.{expected_line, is_glued, is_in_word as is_in};
ghost use Rattle.um_text_details.specs.SyntaxDetails.{missing_in, spaced_word};
ghost use Rattle.um_text_details.specs.Stops.{AddsTold, number_at};

use crate::missing::{ends_body, open_let};
use crate::tell::expected;
use crate::word::Word;
use crate::word_text::{is_in_word, word_text};
use std::alloc::{AllocError, Global};
use um_syntax::Token;

/// Adds the words that could stand where tokens that are no program are refused, at the place `at`, on a line. The
/// answer is the place of the `let` that has no `in`, if `in` could stand there and its body ends there.
///
/// The tokens are those of the bytes, of which there are at most 1,048,576. Want of memory is the one error. The words
/// are those after viable prefixes, as in Knuth, On the Translation of Languages from Left to Right.
pub fn push_expected(
    alloc: Global,
    text: &mut Vec<u8>,
    bytes: &[u8],
    tokens: &[Token],
    at: u32,
) -> Result<Option<u32>, AllocError>
    requires short { length bytes.now ≤ 1048576 }
    requires lexed { IsTextAnswer bytes.now (Ok tokens.now) }
    requires refused { Parsed tokens.now (length bytes.now) (Err (stop.Syntax at)) }
    ensures told { IfOk result (λ missing.
        AddsTold tokens.now (length bytes.now) text.old.items text.new.items missing) }
{
    let k = number_at(tokens, at);
    let told = words_at(alloc, tokens, k, at)?;
    let missing = push_told(text, tokens, k, &told)?;
    Ok(missing)
}

/// Adds the words on a line. The answer is the place of the `let` without `in`.
fn push_told(
    text: &mut Vec<u8>,
    tokens: &[Token],
    k: usize,
    told: &[Word],
) -> Result<Option<u32>, AllocError>
    requires within { k ≤ length tokens.now }
    ensures line { OnOk result (text.new.items ≡ text.old.items ++ expected_line told.now) }
    ensures missing { IfOk result (λ missing. missing ≡ missing_in tokens.now k told.now) }
{
    push_words(text, told)?;
    Ok(missing_in(tokens, k, told))
}

/// The number of the token that begins at the place, or of the end.
fn number_at(tokens: &[Token], at: u32) -> usize
    ensures exact { result ≡ number_at tokens.now at }
    ensures within { result ≤ length tokens.now }
{
    for k in 0..tokens.len() {
        if starts_at(&tokens[k], at) {
            return k;
        }
    }
    tokens.len()
}

/// Whether the token begins at the place.
fn starts_at(token: &Token, at: u32) -> bool
    ensures { result ≡ (token.now.start == at) }
{
    token.start == at
}

/// The words that could stand in the place of token `k`, or at the end.
fn words_at(alloc: Global, tokens: &[Token], k: usize, at: u32) -> Result<Vec<Word>, AllocError>
    requires within { k ≤ length tokens.now }
    requires begins { BeginsTextWithin IsProgram program_height greatest_height (take k tokens.now) }
    requires short { k ≤ at }
    requires place { at < 4294967295 }
    ensures { IfOk result (λ told. AreExpected (record {
      before = take k tokens.now;
      at = at;
      glued = is_glued (slice_get tokens.now k);
    }) told.items) }
{
    let before = copies(alloc, &tokens[..k])?;
    expected(alloc, before, at, glued_at(tokens, k))
}

/// Whether token `k` is glued; the end isn't.
fn glued_at(tokens: &[Token], k: usize) -> bool
    ensures { result ≡ is_glued (slice_get tokens.now k) }
{
    is_glued(tokens.get(k))
}

/// The same tokens.
fn copies(alloc: Global, tokens: &[Token]) -> Result<Vec<Token>, AllocError>
    ensures { IfOk result (λ copies. copies.items ≡ tokens.now) }
{
    let mut copies = Vec::new(alloc);
    for token in tokens {
        copies.push(token.copy(alloc)?)?;
    }
    Ok(copies)
}

fn is_glued(token: Option<&Token>) -> bool
    ensures { result ≡ is_glued (option_copied token.entry) }
{
    match token {
        Some(token) => token.glued,
        None => false,
    }
}

/// The place of the `let` without `in`, by the words.
fn missing_in(tokens: &[Token], k: usize, told: &[Word]) -> Option<u32>
    requires within { k ≤ length tokens.now }
    ensures { result ≡ missing_in tokens.now k told.now }
{
    if tells_in(told) && ends_body(tokens.get(k)) {
        return open_let(&tokens[..k]);
    }
    None
}

/// Adds the words on a line.
fn push_words(text: &mut Vec<u8>, told: &[Word]) -> Result<(), AllocError>
    ensures { OnOk result (text.new.items ≡ text.old.items ++ expected_line told.now) }
{
    text.extend_from_slice(b"expected:")?;
    push_each(text, told)?;
    text.push(b'\n')?;
    Ok(())
}

/// Adds each word after a space.
fn push_each(text: &mut Vec<u8>, told: &[Word]) -> Result<(), AllocError>
    ensures { OnOk result (text.new.items ≡ text.old.items ++ flat_map spaced_word told.now) }
{
    for word in told {
        push_word(text, *word)?;
    }
    Ok(())
}

/// Adds the word after a space.
fn push_word(text: &mut Vec<u8>, word: Word) -> Result<(), AllocError>
    ensures { OnOk result (text.new.items ≡ text.old.items ++ spaced_word word) }
{
    text.push(b' ')?;
    text.extend_from_slice(word_text(word).as_bytes())
}

/// Whether `in` is one of the words.
fn tells_in(told: &[Word]) -> bool
    ensures { result ≡ list_any is_in told.now }
{
    told.iter().any(|word| is_in_word(*word))
}
