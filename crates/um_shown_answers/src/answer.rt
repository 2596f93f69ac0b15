// The answer to a call that is traced.
ghost use Rattle.std.specs.Prelude.{◌≡◌, ◌≤◌, IfOk, Some};
ghost use Rattle.um_tree.specs.ProgramTree.{program_tree};
ghost use Rattle.um_tree.specs.ValueTree.{outcome_tree};
ghost use Rattle.um_tree.specs.Meaning.{trap as of_trap, outcome_of_call};
ghost use Rattle.um_run.specs.Calls.{call_tree, call_values};
ghost use Rattle.um_run.specs.Laws.{IsTypedCall};
ghost use Rattle.um_front.specs.Parts.{checked_tree};
ghost use Rattle.um_call_answers.specs.AskedCall.{IsShortCall};
ghost use Rattle.um_call_answers.specs.Calling.{asked_call};
ghost use Rattle.um_shown_answers.specs.TraceText.{stop_label};
ghost use Rattle.um_shown_answers.specs.TraceAnswer.{TraceAnswer, IsTraceAnswer, TracedRun};

use crate::stop::reply_to_stop;
use std::alloc::Global;
use um_call_answers::{CallWords, Compiled, read_asked, reply_to_value};
use um_frac::Trap;
use um_front::{Answer, Checked, Text, check};
use um_gen::generate;
use um_run::Call;
use um_tree::Outcome;

/// The answer to an order that calls a function of a text's program, and tells where the call stops.
///
/// The call is run by the program's code, as `run` has it. If it traps or its budget ends, it is run again by the
/// program's tree. The budget is at most 10,000,000, and no text of an argument is longer than 1,048,576 bytes. Want of
/// memory is the one error; each refusal is an answer. The rules are this project's own.
#[tactic(auto, unfolding(crate::specs::TraceAnswer::TraceAnswer))]
pub fn answer_trace(alloc: Global, call: &CallWords, text: Text) -> Answer
    requires call { IsShortCall (asked_call call.now) }
    ensures { IfOk result (λ reply. TraceAnswer (asked_call call.now) text reply.text.items reply.status) }
{
    match check(alloc, text) {
        Ok(checked) => {
            let answer = answer_checked(alloc, call, &checked);
            checked.discard();
            answer
        }
        Err(refused) => refused,
    }
}

/// The answer in a program with its schemes.
#[tactic(auto, unfolding(crate::specs::TraceAnswer::IsTraceAnswer))]
fn answer_checked(alloc: Global, call: &CallWords, checked: &Checked) -> Answer
    requires call { IsShortCall (asked_call call.now) }
    ensures { IfOk result (λ reply. IsTraceAnswer (asked_call call.now) checked.now.text.text.bytes.items
        (checked_tree checked.now) reply.text.items reply.status) }
{
    match read_asked(alloc, call, checked) {
        Ok(read) => {
            let answer = reply_to_run(alloc, call.budget, checked, &read);
            drop(read);
            answer
        }
        Err(refused) => refused,
    }
}

/// How a call that has a type ends.
fn reply_to_run(alloc: Global, budget: u64, checked: &Checked, call: &Call) -> Answer
    requires typed { IsTypedCall (program_tree checked.now.text.shaped) (call_tree call.now) }
    requires small { budget ≤ 10000000 }
    ensures { IfOk result (λ reply. TracedRun checked.now.text.text.bytes.items budget
        (program_tree checked.now.text.shaped) (call_tree call.now) reply.text.items reply.status) }
{
    let code = generate(alloc, checked.shaped())?;
    let outcome = Compiled::new(checked, &code).outcome(alloc, budget, call);
    drop(code);
    let outcome = outcome?;
    let answer = reply_to_outcome(alloc, budget, checked, call, &outcome);
    drop(outcome);
    answer
}

/// The line of a value, or where the call stops.
#[tactic(auto, unfolding(crate::specs::TraceAnswer::TracedRun))]
fn reply_to_outcome(
    alloc: Global,
    budget: u64,
    checked: &Checked,
    call: &Call,
    outcome: &Outcome,
) -> Answer
    requires typed { IsTypedCall (program_tree checked.now.text.shaped) (call_tree call.now) }
    requires ends { outcome_of_call (program_tree checked.now.text.shaped) call.now.function
        (call_values (call_tree call.now)) budget ≡ Some (outcome_tree outcome.now) }
    ensures { IfOk result (λ reply. TracedRun checked.now.text.text.bytes.items budget
        (program_tree checked.now.text.shaped) (call_tree call.now) reply.text.items reply.status) }
{
    match outcome {
        Outcome::Value(value) => reply_to_value(alloc, checked.program(), value, &call.ty, None),
        Outcome::Trap(trap) => reply_to_stop(alloc, budget, checked, call, trap_label(*trap)),
        Outcome::BudgetEnd => reply_to_stop(alloc, budget, checked, call, "error 13: budget"),
    }
}

/// What `run` says of a trap, without the line feed.
fn trap_label(trap: Trap) -> &'static str
    ensures { result.now ≡ stop_label (of_trap trap) }
{
    match trap {
        Trap::Overflow => "error 12: overflow",
        Trap::DivZero => "error 12: division by zero",
    }
}
