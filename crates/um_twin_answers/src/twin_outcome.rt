// The lines of two outcomes.
ghost use Rattle.std.specs.Prelude.{◌++◌, IfOk};
ghost use Rattle.um_tree.specs.ProgramTree.{program_tree};
ghost use Rattle.um_tree.specs.TypeTree.{type_tree};
ghost use Rattle.um_tree.specs.ValueTree.{outcome_tree, value_tree};
ghost use Rattle.um_reports.specs.Steps.{line, IsReply};
ghost use Rattle.um_call_answers.specs.TwinAnswer.{AreOutcomeReplies, BySecond, AreValueReplies, IsSecondReply};

use std::alloc::{AllocError, Global};
use um_front::Answer;
use um_reports::{Reply, Status, reply_line, reply_to_call_range, reply_to_run_trap};
use um_scale::Twin;
use um_show::value_text;
use um_tree::{Outcome, Program, Ty, Value};
use um_units::UnitStop;

/// The lines of both outcomes, with their values at the type; the first that has none decides.
pub(crate) fn reply_to_outcomes(alloc: Global, program: &Program, ended: &Twin, ty: &Ty) -> Answer
    ensures { IfOk result (λ reply. AreOutcomeReplies (program_tree program.now) (type_tree ty.now)
        (outcome_tree ended.now.first) (outcome_tree ended.now.second) reply.text.items reply.status) }
{
    match &ended.first {
        Outcome::Value(value) => reply_beside(alloc, program, value, &ended.second, ty),
        Outcome::Trap(trap) => reply_to_run_trap(alloc, "first", *trap),
        Outcome::BudgetEnd => reply_line(alloc, "error 13: budget", Status::BudgetEnd),
    }
}

/// The lines of the second outcome beside the value of the first.
fn reply_beside(
    alloc: Global,
    program: &Program,
    first: &Value,
    second: &Outcome,
    ty: &Ty,
) -> Answer
    ensures { IfOk result (λ reply. BySecond (program_tree program.now) (type_tree ty.now)
        (value_tree first.now) (outcome_tree second.now) reply.text.items reply.status) }
{
    match second {
        Outcome::Value(value) => reply_to_values(alloc, program, first, value, ty),
        Outcome::Trap(trap) => reply_to_run_trap(alloc, "second", *trap),
        Outcome::BudgetEnd => reply_line(alloc, "error 13: budget", Status::BudgetEnd),
    }
}

/// The lines of both values at the type.
fn reply_to_values(
    alloc: Global,
    program: &Program,
    first: &Value,
    second: &Value,
    ty: &Ty,
) -> Answer
    ensures { IfOk result (λ reply. AreValueReplies (program_tree program.now) (type_tree ty.now)
        (value_tree first.now) (value_tree second.now) reply.text.items reply.status) }
{
    match value_text(alloc, first, ty, program) {
        Ok(text) => reply_to_second(alloc, program, text, second, ty),
        Err(UnitStop::Range) => reply_to_call_range(alloc),
        Err(UnitStop::NoMemory) => Err(AllocError),
    }
}

/// The line of the first value, whose text is this, and that of the second at the type.
fn reply_to_second(
    alloc: Global,
    program: &Program,
    first: Vec<u8>,
    second: &Value,
    ty: &Ty,
) -> Answer
    ensures { IfOk result (λ reply. IsSecondReply (program_tree program.now) (type_tree ty.now)
        first.items (value_tree second.now) reply.text.items reply.status) }
{
    match value_text(alloc, second, ty, program) {
        Ok(text) => reply_lines(first, &text),
        Err(UnitStop::Range) => reply_to_call_range(alloc),
        Err(UnitStop::NoMemory) => Err(AllocError),
    }
}

/// The texts as lines, and the order done.
fn reply_lines(first: Vec<u8>, second: &[u8]) -> Answer
    ensures { IfOk result (λ reply. IsReply reply.text.items reply.status
        (line first.items ++ line second.now) Status.Done) }
{
    let mut text = first;
    text.push(b'\n')?;
    text.extend_from_slice(second)?;
    text.push(b'\n')?;
    Ok(Reply {
        text,
        status: Status::Done,
    })
}
