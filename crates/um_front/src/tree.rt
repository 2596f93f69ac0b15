// From a text to its program as it is written.
ghost use Rattle.std.specs.Prelude.{◌≡◌, ◌≤◌, IfErr, IfOk, Ok, length};
ghost use Rattle.um_syntax.specs.Feeding.{IsTextAnswer};
ghost use Rattle.um_tree.specs.RawTree.{program_syntax};
ghost use Rattle.um_front.specs.Stages.{IsReadText};
ghost use Rattle.um_front.specs.Refused.{IsUnread};

use crate::Answer;
use crate::parts::ReadText;
use crate::text::{Text, TextParts};
use std::alloc::Global;
use um_parse::parse_tokens;
use um_reports::{reply_to_text, reply_to_tokens};
use um_syntax::TokenBlocks;

/// The program of a text as it is written, or the answer to a text that is none.
///
/// A text without tokens is refused first, then tokens that are no program within the limits.
#[tactic(auto, unfolding(crate::specs::Refused::IsUnread))]
pub fn read(alloc: Global, text: Text) -> Result<ReadText, Answer>
    ensures bytes { IfOk result (λ read. read.bytes.items ≡ text) }
    ensures read { IfOk result (λ read. IsReadText text (program_syntax read.raw)) }
    ensures refused { IfErr result (λ answer. IfOk answer (λ reply. IsUnread text reply.text.items reply.status)) }
{
    let TextParts { bytes, tokens } = text.into_parts();
    match tokens {
        Ok(tokens) => read_tokens(alloc, bytes, tokens),
        Err(stop) => Err(reply_to_text(alloc, &bytes, stop)),
    }
}

/// The program of a text with these tokens, or the answer to tokens that are none.
#[tactic(auto, unfolding(crate::specs::Refused::IsUnread))]
pub fn read_tokens(alloc: Global, bytes: Vec<u8>, tokens: TokenBlocks) -> Result<ReadText, Answer>
    requires tokens { IsTextAnswer bytes.items (Ok tokens) }
    requires short { length bytes.items ≤ 1048576 }
    ensures bytes { IfOk result (λ read. read.bytes.items ≡ bytes.items) }
    ensures read { IfOk result (λ read. IsReadText bytes.items (program_syntax read.raw)) }
    ensures refused { IfErr result (λ answer. IfOk answer (λ reply.
        IsUnread bytes.items reply.text.items reply.status)) }
{
    match parse_tokens(alloc, tokens, bytes.len() as u32) {
        Ok(raw) => Ok(ReadText { bytes, raw }),
        Err(stop) => Err(reply_to_tokens(alloc, &bytes, stop)),
    }
}
