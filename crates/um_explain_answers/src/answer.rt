// The answer to `explain`.
ghost use Rattle.std.specs.Prelude.{◌≤◌, IfOk, length};
ghost use Rattle.um_syntax.specs.Feeding.{IsTextAnswer};
ghost use Rattle.um_explain_answers.specs.ExplainAnswer.{ExplainAnswer};

use crate::tokens::{answer_tokens, explain_text};
use std::alloc::Global;
use um_front::{Answer, Text, TextParts};
use um_syntax::{TextStop, TokenBlocks};

/// The answer to `explain` about a text: that of `types`; and of a text that is refused, the report line, the source
/// line with a caret, and what is wrong.
///
/// Want of memory is the one error; each refusal is an answer. It takes the time of `types`, and for a refused text the
/// time of finding what is wrong. The rules are this project's own.
pub fn answer_explain(alloc: Global, text: Text) -> Answer
    ensures { IfOk result (λ reply. ExplainAnswer text reply.text.items reply.status) }
{
    let TextParts { bytes, tokens } = text.into_parts();
    let answer = answer_bytes(alloc, &bytes, tokens);
    drop(bytes);
    answer
}

/// The answer about a text with these tokens, or without tokens.
fn answer_bytes(alloc: Global, bytes: &[u8], tokens: Result<TokenBlocks, TextStop>) -> Answer
    requires short { length bytes.now ≤ 1048576 }
    requires tokens { IsTextAnswer bytes.now tokens }
    ensures { IfOk result (λ reply. ExplainAnswer bytes.now reply.text.items reply.status) }
{
    match tokens {
        Ok(tokens) => {
            let tokens = tokens.into_tokens()?;
            let answer = answer_tokens(alloc, bytes, tokens.as_slice());
            drop(tokens);
            answer
        }
        Err(stop) => explain_text(alloc, bytes, stop),
    }
}
