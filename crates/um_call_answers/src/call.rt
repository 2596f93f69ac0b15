// The answer to a call of a function.
ghost use Rattle.std.specs.Prelude.{IfOk};
ghost use Rattle.um_tree.specs.ValueTree.{outcome_tree};
ghost use Rattle.um_tree.specs.ProgramTree.{program_tree};
ghost use Rattle.um_run.specs.Calls.{call_tree};
ghost use Rattle.um_front.specs.Parts.{checked_tree};
ghost use Rattle.um_call_answers.specs.AskedCall.{IsShortCall};
ghost use Rattle.um_call_answers.specs.CallAnswer.{CallAnswer, IsCallAnswer, RunAnswer, EndsBy};
ghost use Rattle.um_call_answers.specs.Calling.{asked_call, CanRun};

use crate::asked::read_asked;
use crate::call_words::CallWords;
use crate::outcome::{Ended, reply_to_outcome};
use crate::way::Way;
use std::alloc::{AllocError, Global};
use um_eval::TreeRunner;
use um_front::{Answer, Checked, Text, check};
use um_gen::generate;
use um_run::{Call, argument_values};
use um_shape::Shaped;
use um_value::Runner;
use um_vm::{CodeRunner, CountedOutcome};

/// The answer to an order that calls a function of a text's program.
///
/// The budget is at most 10,000,000, and no text of an argument is longer than 1,048,576 bytes. Want of memory is the
/// one error; each refusal is an answer. The rules are this project's own.
#[tactic(auto, unfolding(crate::specs::CallAnswer::CallAnswer))]
pub fn answer_call(alloc: Global, way: Way, call: &CallWords, text: Text) -> Answer
    requires call { IsShortCall (asked_call call.now) }
    ensures { IfOk result (λ reply. CallAnswer way (asked_call call.now) text reply.text.items reply.status) }
{
    match check(alloc, text) {
        Ok(checked) => {
            let answer = answer_checked(alloc, way, call, &checked);
            checked.discard();
            answer
        }
        Err(refused) => refused,
    }
}

/// The answer in a program with its schemes.
#[tactic(auto, unfolding(crate::specs::CallAnswer::IsCallAnswer))]
pub(crate) fn answer_checked(alloc: Global, way: Way, call: &CallWords, checked: &Checked) -> Answer
    requires call { IsShortCall (asked_call call.now) }
    ensures { IfOk result (λ reply. IsCallAnswer way (asked_call call.now) (checked_tree checked.now)
        reply.text.items reply.status) }
{
    match read_asked(alloc, call, checked) {
        Ok(read) => {
            let answer = reply_to_run(alloc, way, call.budget, checked.shaped(), &read);
            drop(read);
            answer
        }
        Err(refused) => refused,
    }
}

/// How a call that has a type ends, with its value at its type.
#[tactic(auto, unfolding(crate::specs::CallAnswer::RunAnswer))]
fn reply_to_run(alloc: Global, way: Way, budget: u64, shaped: &Shaped, call: &Call) -> Answer
    requires can { CanRun budget (program_tree shaped.now) (call_tree call.now) }
    ensures { IfOk result (λ reply. RunAnswer way budget (program_tree shaped.now) (call_tree call.now)
        reply.text.items reply.status) }
{
    let ended = end_of(alloc, way, budget, shaped, call)?;
    let reply = reply_to_outcome(alloc, shaped.program(), &ended, &call.ty);
    drop(ended);
    reply
}

/// The outcome of the call, run this way.
fn end_of(
    alloc: Global,
    way: Way,
    budget: u64,
    shaped: &Shaped,
    call: &Call,
) -> Result<Ended, AllocError>
    requires can { CanRun budget (program_tree shaped.now) (call_tree call.now) }
    ensures { IfOk result (λ ended. EndsBy way budget (program_tree shaped.now) (call_tree call.now)
        (outcome_tree ended.outcome) ended.steps) }
{
    match way {
        Way::Tree => run_by_tree(alloc, budget, shaped, call),
        Way::Code => run_by_code(alloc, budget, shaped, call),
        Way::Counted => count_by_code(alloc, budget, shaped, call),
    }
}

/// The outcome by the program's tree.
fn run_by_tree(
    alloc: Global,
    budget: u64,
    shaped: &Shaped,
    call: &Call,
) -> Result<Ended, AllocError>
    requires can { CanRun budget (program_tree shaped.now) (call_tree call.now) }
    ensures { IfOk result (λ ended. EndsBy Way.Tree budget (program_tree shaped.now) (call_tree call.now)
        (outcome_tree ended.outcome) ended.steps) }
{
    let values = argument_values(alloc, &call.inputs)?;
    let runner = TreeRunner::new(shaped);
    let outcome = runner.call(alloc, call.function, values, budget)?;
    Ok(Ended {
        outcome,
        steps: None,
    })
}

/// The outcome by the program's code.
fn run_by_code(
    alloc: Global,
    budget: u64,
    shaped: &Shaped,
    call: &Call,
) -> Result<Ended, AllocError>
    requires can { CanRun budget (program_tree shaped.now) (call_tree call.now) }
    ensures { IfOk result (λ ended. EndsBy Way.Code budget (program_tree shaped.now) (call_tree call.now)
        (outcome_tree ended.outcome) ended.steps) }
{
    let counted = count_by_code(alloc, budget, shaped, call)?;
    Ok(counted.without_steps())
}

/// The outcome by the program's code, and the number of its steps.
fn count_by_code(
    alloc: Global,
    budget: u64,
    shaped: &Shaped,
    call: &Call,
) -> Result<Ended, AllocError>
    requires can { CanRun budget (program_tree shaped.now) (call_tree call.now) }
    ensures { IfOk result (λ ended. EndsBy Way.Counted budget (program_tree shaped.now) (call_tree call.now)
        (outcome_tree ended.outcome) ended.steps) }
{
    let code = generate(alloc, shaped)?;
    let values = argument_values(alloc, &call.inputs)?;
    let runner = CodeRunner::new(shaped, &code);
    let CountedOutcome { outcome, steps } = runner.count_steps(
        alloc,
        call.function,
        values,
        budget,
    )?;
    Ok(Ended {
        outcome,
        steps: Some(steps),
    })
}
