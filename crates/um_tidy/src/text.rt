// A text laid out anew.
ghost use Rattle.std.specs.Prelude.{◌≡◌, ◌<◌, ◌≤◌, ◌+◌, ◌∷◌, ◌++◌, OnOk, IfOk, drop, length, slice_range};
ghost use Rattle.std.specs.Str.{chars};
ghost use Rattle.um_syntax.specs.Lexing.{body_place, HasTokens};
ghost use Rattle.um_syntax.specs.Order.{AreInOrder};
ghost use Rattle.um_tidy.specs.Stands.{stand_of};
ghost use Rattle.um_tidy.specs.Spaces.{is_spaced};
ghost use Rattle.um_tidy.specs.Gaps.{inner_gap};
ghost use Rattle.um_tidy.specs.Tidied.{spelling, tidied_after, tidied_from, tidied};

use crate::gap::{push_first_gap, push_inner_gap, push_last_gap, push_only_gap};
use crate::spacing::is_spaced;
use crate::stand::{Stand, stand_of, start};
use std::alloc::{AllocError, Global};
use um_draft::Draft;
use um_syntax::{NoMemory, Token, TokenBlocks};

/// The text laid out anew: its tokens as they are spelled, its comments and its line breaks stay, and the white space
/// between them is that of the layout of programs.
///
/// A line whose first token begins a declaration loses its indentation. Other lines with a token keep theirs, in
/// spaces, with at least two. Of several blank lines in a row one stays, and none at the start and the end. The text
/// is at most 1,048,576 bytes long, and the tokens are its own. `NoMemory` is the one error. The layout is this
/// project's own.
pub fn tidy_text(alloc: Global, text: &str, tokens: &TokenBlocks) -> Result<Vec<u8>, NoMemory>
    requires short { length text.now ≤ 1048576 }
    requires tokens { HasTokens (chars text.now) tokens.now }
    ensures { IfOk result (λ answer. answer.items ≡ tidied text.now tokens.now) }
{
    tidied_from(alloc, mark_len(text), text.as_bytes(), tokens)
}

/// How many bytes a byte order mark takes at the front.
fn mark_len(text: &str) -> usize
    ensures { result ≡ body_place (chars text.now) }
{
    match text.chars().next() {
        Some('\u{feff}') => 3,
        _ => 0,
    }
}

/// The bytes from a place on, with the tokens that stand there.
fn tidied_from(
    alloc: Global,
    at: usize,
    bytes: &[u8],
    tokens: &TokenBlocks,
) -> Result<Vec<u8>, AllocError>
    requires short { length bytes.now ≤ 1048576 }
    requires in_order { AreInOrder at tokens.now (length bytes.now) }
    ensures { IfOk result (λ answer. answer.items ≡ tidied_from at bytes.now tokens.now) }
{
    let mut text = Draft::new(alloc);
    if tokens.len() == 0 {
        push_only_gap(&mut text, &bytes[at..])?;
        return Ok(text.into_bytes());
    }
    let first = token_at(tokens, 0);
    let stand = stand_of(start(), first);
    push_first_gap(&mut text, &bytes[at..first.start as usize], stand.begins)?;
    push_spelling(&mut text, bytes, first)?;
    push_after(&mut text, bytes, stand, first, tokens)?;
    Ok(text.into_bytes())
}

/// Adds what follows the first token, which stands so.
fn push_after(
    text: &mut Draft,
    bytes: &[u8],
    stand: Stand,
    first: &Token,
    tokens: &TokenBlocks,
) -> Result<(), AllocError>
    requires short { length bytes.now ≤ 1048576 }
    requires in_order { AreInOrder first.now.end (drop 1 tokens.now) (length bytes.now) }
    ensures { OnOk result (text.new.items
        ≡ text.old.items ++ tidied_after bytes.now stand first.now (drop 1 tokens.now)) }
{
    let mut stand = stand;
    let mut last = first;
    for k in 1..tokens.len() {
        let token = token_at(tokens, k);
        stand = push_token(text, bytes, stand, last, token)?;
        last = token;
    }
    push_last_gap(text, &bytes[last.end as usize..])
}

/// The token at a place.
fn token_at(tokens: &TokenBlocks, k: usize) -> &Token
    requires { k < length tokens.now }
    ensures { drop k tokens.now ≡ result.now ∷ drop (k + 1) tokens.now }
{
    match tokens.get(k) {
        Some(token) => token,
        None => unreachable!(),
    }
}

/// Adds a token with what stands between it and the one before it, and tells how it stands.
fn push_token(
    text: &mut Draft,
    bytes: &[u8],
    stand: Stand,
    last: &Token,
    token: &Token,
) -> Result<Stand, AllocError>
    requires short { length bytes.now ≤ 1048576 }
    requires from { last.now.end ≤ token.now.start }
    requires start { token.now.start ≤ token.now.end }
    requires end { token.now.end ≤ length bytes.now }
    ensures stand { IfOk result (λ next. next ≡ stand_of stand token.now) }
    ensures added { OnOk result (text.new.items ≡ text.old.items
        ++ (inner_gap (is_spaced stand last.now.kind (stand_of stand token.now) token.now.kind)
        (stand_of stand token.now).begins (slice_range bytes.now last.now.end token.now.start)
        ++ spelling bytes.now token.now)) }
{
    let next = stand_of(stand, token);
    let gap = &bytes[last.end as usize..token.start as usize];
    let spaced = is_spaced(stand, &last.kind, next, &token.kind);
    push_inner_gap(text, gap, spaced, next.begins)?;
    push_spelling(text, bytes, token)?;
    Ok(next)
}

/// Adds a token as it is spelled.
fn push_spelling(text: &mut Draft, bytes: &[u8], token: &Token) -> Result<(), AllocError>
    requires start { token.now.start ≤ token.now.end }
    requires end { token.now.end ≤ length bytes.now }
    ensures { OnOk result (text.new.items ≡ text.old.items ++ spelling bytes.now token.now) }
{
    text.push(bytes, token.start as usize, token.end as usize)
}
