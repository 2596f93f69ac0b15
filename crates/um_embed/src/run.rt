// A run over a text and a sink in memory.
ghost use Rattle.std.specs.Prelude.{◌≡◌, ◌≢◌, IfOk, false};
ghost use Rattle.um_tool.specs.Answer.{Answer};
ghost use Rattle.um_tool.specs.Served.{IsComplete};
ghost use Rattle.um_embed.specs.CommandLine.{words_in};

use crate::kept::Kept;
use crate::line::words_of_line;
use std::alloc::{AllocError, Global};
use um_tool::{Status, serve};
use um_wire::QuietSource;

/// What a run answered.
#[derive(Drop)]
pub(crate) struct Run {
    pub(crate) status: Status,
    pub(crate) answer: Vec<u8>,
}

/// The program's answer to the words in these bytes and to the text.
#[tactic(auto, unfolding(um_wire::specs::Faults::Rose))]
pub(crate) fn run_on(alloc: Global, words: &[u8], text: &[u8]) -> Result<Run, AllocError>
    ensures answered { IfOk result (λ run.
        Answer (words_in words.now) text.now run.answer.items run.status) }
    ensures complete { IfOk result (λ run.
        IsComplete (words_in words.now) text.now → run.status ≡ Status.Done) }
{
    let words = words_of_line(alloc, words)?;
    let mut source = QuietSource::new(Vec::from_slice(alloc, text)?);
    let mut sink = Kept::new(alloc);
    let status = serve(alloc, &words, &mut source, &mut sink);
    if sink.has_failed() || wants_memory(status) {
        return Err(AllocError);
    }
    Ok(Run {
        status,
        answer: sink.into_bytes(),
    })
}

fn wants_memory(status: Status) -> bool
    ensures { result ≡ false → status ≢ Status.NoMemory }
{
    matches!(status, Status::NoMemory)
}
