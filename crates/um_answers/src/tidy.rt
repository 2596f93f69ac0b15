// The answer to `tidy`: the text of a program laid out anew with its own tokens, comments and line breaks.
ghost use Rattle.std.specs.Prelude.{◌≡◌, ◌≤◌, IfOk, Ok, length};
ghost use Rattle.um_syntax.specs.Feeding.{IsTextAnswer};
ghost use Rattle.um_tidy.specs.Tidied.{tidied};
ghost use Rattle.um_answers.specs.TidyAnswer.{TidyAnswer};

use std::alloc::{AllocError, Global};
use std::str;
use um_front::{Answer, Text, TextParts, read_tokens};
use um_reports::{Reply, Status, reply_to_text};
use um_syntax::TokenBlocks;
use um_tidy::tidy_text;

/// The answer to `tidy` about a text.
///
/// Want of memory is the one error; each refusal is an answer. The layout is this project's own.
#[tactic(auto, unfolding(crate::specs::TidyAnswer::TidyAnswer, um_front::specs::Refused::IsUnread))]
pub fn answer_tidy(alloc: Global, text: Text) -> Answer
    ensures { IfOk result (λ reply. TidyAnswer text reply.text.items reply.status) }
{
    let TextParts { bytes, tokens } = text.into_parts();
    match tokens {
        Ok(tokens) => answer_tokens(alloc, bytes, tokens),
        Err(stop) => reply_to_text(alloc, &bytes, stop),
    }
}

/// The answer about a text with these tokens.
#[tactic(auto, unfolding(crate::specs::TidyAnswer::TidyAnswer))]
fn answer_tokens(alloc: Global, bytes: Vec<u8>, tokens: TokenBlocks) -> Answer
    requires tokens { IsTextAnswer bytes.items (Ok tokens) }
    requires short { length bytes.items ≤ 1048576 }
    ensures { IfOk result (λ reply. TidyAnswer bytes.items reply.text.items reply.status) }
{
    let text = tidied(alloc, &bytes, &tokens);
    match read_tokens(alloc, bytes, tokens) {
        Ok(read) => {
            read.discard();
            Ok(Reply {
                text: text?,
                status: Status::Done,
            })
        }
        Err(refused) => {
            drop(text);
            refused
        }
    }
}

/// The bytes laid out anew.
fn tidied(alloc: Global, bytes: &[u8], tokens: &TokenBlocks) -> Result<Vec<u8>, AllocError>
    requires tokens { IsTextAnswer bytes.now (Ok tokens.now) }
    requires short { length bytes.now ≤ 1048576 }
    ensures { IfOk result (λ text. text.items ≡ tidied bytes.now tokens.now) }
{
    match str::from_utf8(bytes) {
        Ok(text) => tidy_text(alloc, text, tokens),
        Err(_) => unreachable!(),
    }
}
