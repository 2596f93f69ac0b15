// How a call ended, and its lines.
ghost use Rattle.std.specs.Prelude.{◌≡◌, ◌++◌, IfOk, OnOk, None};
ghost use Rattle.um_tree.specs.TypeTree.{type_tree};
ghost use Rattle.um_tree.specs.ValueTree.{value_tree, outcome_tree};
ghost use Rattle.um_tree.specs.ProgramTree.{program_tree};
ghost use Rattle.um_call_answers.specs.CallAnswer.{IsOutcomeReply, IsValueReply, steps_text};
ghost use Rattle.um_reports.specs.Steps.{IsReply, line};

use std::alloc::{AllocError, Global};
use um_front::Answer;
use um_reports::{Reply, Status, reply_line, reply_to_call_range, reply_to_trap};
use um_show::value_text;
use um_tree::{Outcome, Program, Ty, Value};
use um_units::UnitStop;

/// How a call ended, and in how many steps if they were counted.
#[derive(Drop)]
pub(crate) struct Ended {
    pub(crate) outcome: Outcome,
    pub(crate) steps: Option<u64>,
}

impl Ended {
    /// The same without the number of steps.
    pub(crate) fn without_steps(self) -> Ended
        ensures outcome { result.outcome ≡ self.outcome }
        ensures steps { result.steps ≡ None }
    {
        Ended {
            outcome: self.outcome,
            steps: None,
        }
    }
}

/// The line of an outcome; a value stands at the type, with its steps on a line after it.
pub(crate) fn reply_to_outcome(alloc: Global, program: &Program, ended: &Ended, ty: &Ty) -> Answer
    ensures { IfOk result (λ reply. IsOutcomeReply (program_tree program.now) (type_tree ty.now)
        (outcome_tree ended.now.outcome) ended.now.steps reply.text.items reply.status) }
{
    match &ended.outcome {
        Outcome::Value(value) => reply_to_value(alloc, program, value, ty, ended.steps),
        Outcome::Trap(trap) => reply_to_trap(alloc, *trap),
        Outcome::BudgetEnd => reply_line(alloc, "error 13: budget", Status::BudgetEnd),
    }
}

/// The line of a value at the type, with its steps on a line after it.
pub fn reply_to_value(
    alloc: Global,
    program: &Program,
    value: &Value,
    ty: &Ty,
    steps: Option<u64>,
) -> Answer
    ensures { IfOk result (λ reply. IsValueReply (program_tree program.now) (type_tree ty.now)
        (value_tree value.now) steps reply.text.items reply.status) }
{
    match value_text(alloc, value, ty, program) {
        Ok(text) => reply_text(text, steps),
        Err(UnitStop::Range) => reply_to_call_range(alloc),
        Err(UnitStop::NoMemory) => Err(AllocError),
    }
}

/// The text as a line with the steps on a line after it, and the order done.
fn reply_text(text: Vec<u8>, steps: Option<u64>) -> Answer
    ensures { IfOk result (λ reply. IsReply reply.text.items reply.status
        (line text.items ++ steps_text steps) Status.Done) }
{
    let mut text = text;
    text.push(b'\n')?;
    push_steps(&mut text, steps)?;
    Ok(Reply {
        text,
        status: Status::Done,
    })
}

/// Adds the line of the steps, if they were counted.
fn push_steps(text: &mut Vec<u8>, steps: Option<u64>) -> Result<(), AllocError>
    ensures { OnOk result (text.new.items ≡ text.old.items ++ steps_text steps) }
{
    match steps {
        None => Ok(()),
        Some(steps) => {
            text.extend_from_slice(b"steps ")?;
            text.extend_from_slice(itoa::Buffer::new().format(steps).as_bytes())?;
            text.extend_from_slice(b"\n")
        }
    }
}
