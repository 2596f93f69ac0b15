// A refusal that is explained.
ghost use Rattle.std.specs.Prelude.{ℕ, IfOk, List, OnOk};
ghost use Rattle.um_explain_answers.specs.Added.{Adds, IsRefused};
ghost use Rattle.um_explain_answers.specs.ExplainAnswer.{ExplainAnswer};
ghost use Rattle.um_explain_answers.specs.Stages.{FollowsLine};

use std::alloc::AllocError;
use um_front::Answer;
use um_reports::{Reply, Status};

/// The answer after what follows the line of the refusal was added to it. That is what was asked for, so it is done.
pub(crate) fn explained(refusal: Reply, added: Result<(), AllocError>) -> Answer
    ensures { (bytes line : List ℕ) → IsRefused bytes line refusal.status
        → OnOk added (Adds (FollowsLine bytes) line refusal.text.items)
        → IfOk result (λ reply. ExplainAnswer bytes reply.text.items reply.status) }
{
    let Reply { text, status: _ } = refusal;
    match added {
        Ok(()) => Ok(Reply {
            text,
            status: Status::Done,
        }),
        Err(error) => {
            drop(text);
            Err(error)
        }
    }
}
