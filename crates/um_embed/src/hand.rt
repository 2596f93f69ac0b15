// An answer in the host's room.
ghost use Rattle.std.specs.Prelude.{MatchResult};
ghost use Rattle.um_embed.specs.Embedded.{BeginsWith, IsHanded, IsWanting};

use um_front::Answer;
use um_reports::Status;

/// Copies the answer to the front of `into`, if it has room for all of it, and gives the number of its status.
pub(crate) fn hand(answer: Answer, into: &mut [u8], size: &mut usize) -> u8
    ensures { MatchResult answer
        (λ reply. IsHanded reply.text.items reply.status result size.new into.old into.new)
        (λ _. IsWanting result size.new) }
{
    match answer {
        Ok(reply) => {
            *size = reply.text.len();
            copy_to_front(&reply.text, into);
            reply.status.number()
        }
        Err(_) => {
            *size = 0;
            Status::NoMemory.number()
        }
    }
}

/// Copies the bytes into the front of `into`, if it has room for all of them.
pub(crate) fn copy_to_front(bytes: &[u8], into: &mut [u8])
    ensures { BeginsWith bytes.now into.old into.new }
{
    if bytes.len() <= into.len() {
        into[..bytes.len()].copy_from_slice(bytes);
    }
}
