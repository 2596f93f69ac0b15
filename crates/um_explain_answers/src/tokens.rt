// What follows the report line of a text without tokens, and of tokens that are no program.
ghost use Rattle.std.specs.Prelude.{◌≡◌, ◌++◌, ◌≤◌, IfOk, OnOk, Err, Ok, Some, length};
ghost use Rattle.um_syntax.specs.Feeding.{IsTextAnswer};
ghost use Rattle.um_parse.specs.Parsed.{Parsed};
ghost use Rattle.um_types.specs.declared.parse.ParseStop.TheVariants as parse_stop;
ghost use Rattle.um_explain_answers.specs.Added.{Adds, IsTextPlace};
ghost use Rattle.um_explain_answers.specs.ExplainAnswer.{ExplainAnswer};
ghost use Rattle.um_front.specs.Places.{IsPlace, ParsePlace};
ghost use Rattle.um_explain_answers.specs.TokenRest.{IsParseRest, IsSyntaxRest, IsTextRest, missing_line};

use crate::names::answer_tree;
use crate::place::{push_place, push_source};
use crate::refusal::explained;
use std::alloc::{AllocError, Global};
use um_excerpt::push_excerpt_of_end;
use um_front::Answer;
use um_parse::parse;
use um_reports::{reply_to_text, reply_to_tokens};
use um_syntax::{TextStop, Token};
use um_text_details::{push_expected, push_limit_details, push_text_details};
use um_types::ParseStop;

/// The answer about a text without tokens.
pub(crate) fn explain_text(alloc: Global, bytes: &[u8], stop: TextStop) -> Answer
    requires short { length bytes.now ≤ 1048576 }
    requires stop { IsTextAnswer bytes.now (Err stop) }
    ensures { IfOk result (λ reply. ExplainAnswer bytes.now reply.text.items reply.status) }
{
    let mut refusal = reply_to_text(alloc, bytes, stop)?;
    let added = push_text_rest(alloc, &mut refusal.text, bytes, stop);
    explained(refusal, added)
}

/// Adds what follows the report line of a text without tokens.
fn push_text_rest(
    alloc: Global,
    text: &mut Vec<u8>,
    bytes: &[u8],
    stop: TextStop,
) -> Result<(), AllocError>
    requires short { length bytes.now ≤ 1048576 }
    requires place { IsTextPlace bytes.now stop }
    ensures { OnOk result (Adds (IsTextRest bytes.now stop) text.old.items text.new.items) }
{
    match stop {
        TextStop::Utf8 { at } => push_excerpt_of_end(alloc, text, &bytes[..at as usize]),
        TextStop::BadChar { at } => {
            push_source(alloc, text, bytes, at)?;
            push_text_details(text, bytes, stop)
        }
        TextStop::NumberRange { at } => {
            push_source(alloc, text, bytes, at)?;
            push_text_details(text, bytes, stop)
        }
        TextStop::PowerText { at } => {
            push_source(alloc, text, bytes, at)?;
            push_text_details(text, bytes, stop)
        }
        TextStop::NoMemory => Err(AllocError),
    }
}

/// The answer about a text with these tokens.
pub(crate) fn answer_tokens(alloc: Global, bytes: &[u8], tokens: &[Token]) -> Answer
    requires short { length bytes.now ≤ 1048576 }
    requires tokens { IsTextAnswer bytes.now (Ok tokens.now) }
    ensures { IfOk result (λ reply. ExplainAnswer bytes.now reply.text.items reply.status) }
{
    match parse(alloc, tokens, bytes.len() as u32) {
        Ok(raw) => {
            let answer = answer_tree(alloc, bytes, &raw);
            raw.discard();
            answer
        }
        Err(stop) => explain_tokens(alloc, bytes, tokens, stop),
    }
}

/// The answer about tokens that are no program within the limits.
fn explain_tokens(alloc: Global, bytes: &[u8], tokens: &[Token], stop: ParseStop) -> Answer
    requires short { length bytes.now ≤ 1048576 }
    requires tokens { IsTextAnswer bytes.now (Ok tokens.now) }
    requires stop { Parsed tokens.now (length bytes.now) (Err stop) }
    ensures { IfOk result (λ reply. ExplainAnswer bytes.now reply.text.items reply.status) }
{
    let mut refusal = reply_to_tokens(alloc, bytes, stop)?;
    let added = push_parse_rest(alloc, &mut refusal.text, bytes, tokens, stop);
    explained(refusal, added)
}

/// Adds what follows the report line of tokens that are no program within the limits.
fn push_parse_rest(
    alloc: Global,
    text: &mut Vec<u8>,
    bytes: &[u8],
    tokens: &[Token],
    stop: ParseStop,
) -> Result<(), AllocError>
    requires short { length bytes.now ≤ 1048576 }
    requires tokens { IsTextAnswer bytes.now (Ok tokens.now) }
    requires stop { Parsed tokens.now (length bytes.now) (Err stop) }
    requires place { ParsePlace (IsPlace bytes.now) stop }
    ensures { OnOk result (Adds (IsParseRest bytes.now tokens.now stop) text.old.items text.new.items) }
{
    match stop {
        ParseStop::Syntax { at } => push_syntax_rest(alloc, text, bytes, tokens, at),
        ParseStop::Limit { kind, at } => {
            push_source(alloc, text, bytes, at)?;
            push_limit_details(text, kind)
        }
        ParseStop::NoMemory => Err(AllocError),
    }
}

/// Adds what follows the report line of tokens that are refused at a place.
fn push_syntax_rest(
    alloc: Global,
    text: &mut Vec<u8>,
    bytes: &[u8],
    tokens: &[Token],
    at: u32,
) -> Result<(), AllocError>
    requires short { length bytes.now ≤ 1048576 }
    requires tokens { IsTextAnswer bytes.now (Ok tokens.now) }
    requires stop { Parsed tokens.now (length bytes.now) (Err (parse_stop.Syntax at)) }
    requires place { IsPlace bytes.now at }
    ensures { OnOk result (Adds (IsSyntaxRest bytes.now tokens.now at) text.old.items text.new.items) }
{
    push_source(alloc, text, bytes, at)?;
    let missing = push_expected(alloc, text, bytes, tokens, at)?;
    push_missing(text, bytes, missing)
}

/// Adds the line of the `let` that has no `in`.
fn push_missing(text: &mut Vec<u8>, bytes: &[u8], missing: Option<u32>) -> Result<(), AllocError>
    ensures { OnOk result (text.new.items ≡ text.old.items ++ missing_line bytes.now missing) }
{
    match missing {
        Some(at) => push_missing_at(text, bytes, at),
        None => Ok(()),
    }
}

fn push_missing_at(text: &mut Vec<u8>, bytes: &[u8], at: u32) -> Result<(), AllocError>
    ensures { OnOk result (text.new.items ≡ text.old.items ++ missing_line bytes.now (Some at)) }
{
    text.extend_from_slice(b"the let at ")?;
    push_place(text, bytes, at)?;
    text.extend_from_slice(b" has no in\n")
}
