// The answer to `fmt`: the layout of a program as it is written.
ghost use Rattle.std.specs.Prelude.{IfOk};
ghost use Rattle.um_tree.specs.RawTree.{program_syntax};
ghost use Rattle.um_answers.specs.FmtAnswer.{FmtAnswer, IsLayout};

use std::alloc::Global;
use um_front::{Answer, ReadText, Text, read};
use um_reports::{Reply, Status};
use um_show::layout_text;

/// The answer to `fmt` about a text.
///
/// Want of memory is the one error; each refusal is an answer. The layout is this project's own.
#[tactic(auto, unfolding(crate::specs::FmtAnswer::FmtAnswer))]
pub fn answer_fmt(alloc: Global, text: Text) -> Answer
    ensures { IfOk result (λ reply. FmtAnswer text reply.text.items reply.status) }
{
    match read(alloc, text) {
        Ok(read) => reply_layout(alloc, read),
        Err(refused) => refused,
    }
}

/// The layout of a program.
fn reply_layout(alloc: Global, read: ReadText) -> Answer
    ensures { IfOk result (λ reply. IsLayout (program_syntax read.raw) reply.text.items reply.status) }
{
    let ReadText { bytes, raw } = read;
    drop(bytes);
    Ok(Reply {
        text: layout_text(alloc, raw)?,
        status: Status::Done,
    })
}
