//! Laws of the answers to `trace`. A call does nothing: what it ensures is the law.
ghost use Rattle.um_shown_answers.specs.Laws.{TracesAreOne, TracesFollowRuns, TracesAreDone};

/// The answer is one. It is that of `run`; but of a call that stops it is the line of `run` with the node on it and
/// more lines after it, and then it is done. It is done whenever the call is one that can be printed.
pub fn traces()
    ensures one { TracesAreOne }
    ensures runs { TracesFollowRuns }
    ensures done { TracesAreDone }
{
    um_parse::laws::answers_are_unique();
    um_eval::laws::traces();
}
