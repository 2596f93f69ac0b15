// The answer about a call that is made twice, in two sizes of the base units.
ghost use Rattle.std.specs.Prelude.{◌≡◌, IfOk, IsTrue, map};
ghost use Rattle.um_tree.specs.ProgramTree.{program_tree};
ghost use Rattle.um_tree.specs.ValueTree.{input_tree, outcome_tree};
ghost use Rattle.um_machine.specs.Machine.{EndsWith};
ghost use Rattle.um_gen.specs.ProgramCode.{program_code};
ghost use Rattle.um_run.specs.Calls.{call_tree, call_values};
ghost use Rattle.um_tree.specs.Formed.{IsFormed};
ghost use Rattle.um_scale.specs.Sizes.{AreSizes};
ghost use Rattle.um_scale.specs.RescaledLiterals.{rescaled_program};
ghost use Rattle.um_sizes.specs.ScaleWords.{is_scales};
ghost use Rattle.um_front.specs.Parts.{checked_tree};
ghost use Rattle.um_call_answers.specs.AskedCall.{IsShortCall};
ghost use Rattle.um_call_answers.specs.Calling.{asked_call};
ghost use Rattle.um_call_answers.specs.Rescaling.{IsOther, CanTwin, AreFitInputs};
ghost use Rattle.um_call_answers.specs.TwinAnswer.{TwinAnswer, IsTwinAnswer, SizedAnswer, TwinLiteralsAnswer};
ghost use Rattle.um_call_answers.specs.TwinAnswer.{InputsAnswer, TwinRunAnswer, rescaled_values};

use crate::twin_outcome::reply_to_outcomes;
use std::alloc::{AllocError, Global};
use um_call_answers::{ArgumentStop, CallWords, read_asked, rescaled_arguments};
use um_front::{Answer, Checked, Text, check};
use um_gen::generate;
use um_machine::Code;
use um_reports::{reply_to_literal, reply_to_misfit, reply_to_sizes};
use um_run::{Call, argument_values};
use um_scale::{ScaleStop, Scales, Twin, rescale_program, twin};
use um_shape::{Shaped, shape};
use um_sizes::read_scales;
use um_tree::{Inputs, Program};
use um_vm::CodeRunner;

/// A call that is made twice: what goes along from step to step.
#[derive(Clone, Copy)]
pub(crate) struct TwinCall<'a> {
    pub(crate) budget: u64,
    pub(crate) shaped: &'a Shaped,
    pub(crate) scales: &'a Scales,
    pub(crate) call: &'a Call,
}

/// The answer to an order that calls a function of a text's program twice, the second time in the sizes that the word
/// states.
///
/// The budget is at most 10,000,000, and no text of an argument is longer than 1,048,576 bytes. Want of memory is the
/// one error; each refusal is an answer. How programs and inputs are rescaled is Kennedy's (1997).
#[tactic(auto, unfolding(um_call_answers::specs::TwinAnswer::TwinAnswer))]
pub fn answer_twin(alloc: Global, sizes: &str, call: &CallWords, text: Text) -> Answer
    requires call { IsShortCall (asked_call call.now) }
    requires stated { IsTrue (is_scales sizes.now) }
    ensures { IfOk result (λ reply. TwinAnswer sizes.now (asked_call call.now) text reply.text.items reply.status) }
{
    match check(alloc, text) {
        Ok(checked) => {
            let answer = answer_checked(alloc, sizes, call, &checked);
            checked.discard();
            answer
        }
        Err(refused) => refused,
    }
}

/// The answer in a program with its schemes.
#[tactic(auto, unfolding(um_call_answers::specs::TwinAnswer::IsTwinAnswer))]
fn answer_checked(alloc: Global, sizes: &str, call: &CallWords, checked: &Checked) -> Answer
    requires call { IsShortCall (asked_call call.now) }
    requires stated { IsTrue (is_scales sizes.now) }
    ensures { IfOk result (λ reply. IsTwinAnswer sizes.now (asked_call call.now) checked.now.text.text.bytes.items
        (checked_tree checked.now) reply.text.items reply.status) }
{
    match read_scales(alloc, sizes, checked.program()) {
        Ok(scales) => {
            let answer = answer_in_sizes(alloc, call, checked, &scales);
            drop(scales);
            answer
        }
        Err(refusal) => reply_to_sizes(alloc, refusal),
    }
}

/// The answer by the sizes of the base units.
#[tactic(auto, unfolding(um_call_answers::specs::TwinAnswer::SizedAnswer))]
fn answer_in_sizes(alloc: Global, call: &CallWords, checked: &Checked, scales: &Scales) -> Answer
    requires call { IsShortCall (asked_call call.now) }
    requires positive { AreSizes scales.now }
    ensures { IfOk result (λ reply. SizedAnswer scales.now (asked_call call.now) checked.now.text.text.bytes.items
        (checked_tree checked.now) reply.text.items reply.status) }
{
    match read_asked(alloc, call, checked) {
        Ok(read) => answer_read(alloc, checked, call.budget, scales, read),
        Err(refused) => refused,
    }
}

/// The answer to a call that has a type.
fn answer_read(alloc: Global, checked: &Checked, budget: u64, scales: &Scales, call: Call) -> Answer
    requires can { CanTwin budget scales.now (program_tree checked.now.text.shaped) (call_tree call) }
    ensures { IfOk result (λ reply. TwinLiteralsAnswer budget scales.now checked.now.text.text.bytes.items
        (program_tree checked.now.text.shaped) (call_tree call) reply.text.items reply.status) }
{
    let both = TwinCall {
        budget,
        shaped: checked.shaped(),
        scales,
        call: &call,
    };
    let reply = answer_literals(alloc, checked.bytes(), &both);
    drop(call);
    reply
}

/// The answer by the literals in other sizes, or the first that doesn't fit.
#[tactic(auto, unfolding(um_call_answers::specs::TwinAnswer::TwinLiteralsAnswer))]
fn answer_literals(alloc: Global, bytes: &[u8], both: &TwinCall) -> Answer
    requires can { CanTwin both.now.budget both.now.scales.now (program_tree both.now.shaped.now)
        (call_tree both.now.call.now) }
    ensures { IfOk result (λ reply. TwinLiteralsAnswer both.now.budget both.now.scales.now bytes.now
        (program_tree both.now.shaped.now) (call_tree both.now.call.now) reply.text.items reply.status) }
{
    match rescale_program(alloc, both.shaped.program(), both.scales) {
        Ok(rescaled) => answer_rescaled(alloc, both, rescaled),
        Err(ScaleStop::Range { at }) => reply_to_literal(alloc, bytes, at),
        Err(ScaleStop::NoMemory) => Err(AllocError),
    }
}

/// The answer beside the rescaled program.
fn answer_rescaled(alloc: Global, both: &TwinCall, rescaled: Program) -> Answer
    requires can { CanTwin both.now.budget both.now.scales.now (program_tree both.now.shaped.now)
        (call_tree both.now.call.now) }
    requires other { IsOther both.now.scales.now (program_tree both.now.shaped.now) (program_tree rescaled) }
    requires formed { IsFormed (program_tree rescaled) }
    ensures { IfOk result (λ reply. InputsAnswer both.now.budget both.now.scales.now
        (program_tree both.now.shaped.now) (call_tree both.now.call.now) reply.text.items reply.status) }
{
    match shape(alloc, rescaled) {
        Ok(other) => {
            let answer = answer_inputs(alloc, both, &other);
            other.discard();
            answer
        }
        // It has the shapes of the program, so memory alone can be wanting.
        Err(_) => Err(AllocError),
    }
}

/// The answer by the arguments in other sizes, or the first that doesn't fit.
#[tactic(auto, unfolding(um_call_answers::specs::TwinAnswer::InputsAnswer))]
fn answer_inputs(alloc: Global, both: &TwinCall, other: &Shaped) -> Answer
    requires can { CanTwin both.now.budget both.now.scales.now (program_tree both.now.shaped.now)
        (call_tree both.now.call.now) }
    requires other { IsOther both.now.scales.now (program_tree both.now.shaped.now) (program_tree other.now) }
    ensures { IfOk result (λ reply. InputsAnswer both.now.budget both.now.scales.now
        (program_tree both.now.shaped.now) (call_tree both.now.call.now) reply.text.items reply.status) }
{
    match rescaled_arguments(alloc, &both.call.inputs.items, both.scales) {
        Ok(inputs) => answer_both(alloc, both, other, inputs),
        Err(ArgumentStop::Misfit { index }) => reply_to_misfit(alloc, index),
        Err(ArgumentStop::NoMemory) => Err(AllocError),
    }
}

/// How both calls end, with their values at the call's type.
fn answer_both(alloc: Global, both: &TwinCall, other: &Shaped, inputs: Inputs) -> Answer
    requires can { CanTwin both.now.budget both.now.scales.now (program_tree both.now.shaped.now)
        (call_tree both.now.call.now) }
    requires other { IsOther both.now.scales.now (program_tree both.now.shaped.now) (program_tree other.now) }
    requires fit { AreFitInputs both.now.scales.now (call_tree both.now.call.now)
        (map input_tree inputs.items.items) }
    ensures { IfOk result (λ reply. TwinRunAnswer both.now.budget both.now.scales.now
        (program_tree both.now.shaped.now) (call_tree both.now.call.now) reply.text.items reply.status) }
{
    let reply = reply_to_runs(alloc, both, other, &inputs);
    drop(inputs);
    reply
}

/// The same, and the arguments are kept.
#[tactic(auto, unfolding(um_call_answers::specs::TwinAnswer::TwinRunAnswer))]
fn reply_to_runs(alloc: Global, both: &TwinCall, other: &Shaped, inputs: &Inputs) -> Answer
    requires can { CanTwin both.now.budget both.now.scales.now (program_tree both.now.shaped.now)
        (call_tree both.now.call.now) }
    requires other { IsOther both.now.scales.now (program_tree both.now.shaped.now) (program_tree other.now) }
    requires fit { AreFitInputs both.now.scales.now (call_tree both.now.call.now)
        (map input_tree inputs.now.items.items) }
    ensures { IfOk result (λ reply. TwinRunAnswer both.now.budget both.now.scales.now
        (program_tree both.now.shaped.now) (call_tree both.now.call.now) reply.text.items reply.status) }
{
    let ended = run_both(alloc, both, other, inputs)?;
    let reply = reply_to_outcomes(alloc, both.shaped.program(), &ended, &both.call.ty);
    drop(ended);
    reply
}

/// Both outcomes, each by the code of its own program.
fn run_both(
    alloc: Global,
    both: &TwinCall,
    other: &Shaped,
    inputs: &Inputs,
) -> Result<Twin, AllocError>
    requires can { CanTwin both.now.budget both.now.scales.now (program_tree both.now.shaped.now)
        (call_tree both.now.call.now) }
    requires other { IsOther both.now.scales.now (program_tree both.now.shaped.now) (program_tree other.now) }
    requires fit { AreFitInputs both.now.scales.now (call_tree both.now.call.now)
        (map input_tree inputs.now.items.items) }
    ensures first { IfOk result (λ t. EndsWith (program_code (program_tree both.now.shaped.now).functions)
        both.now.call.now.function (call_values (call_tree both.now.call.now)) both.now.budget
        (outcome_tree t.first)) }
    ensures second { IfOk result (λ t. EndsWith
        (program_code (rescaled_program both.now.scales.now (program_tree both.now.shaped.now)).functions)
        both.now.call.now.function (rescaled_values both.now.scales.now (call_tree both.now.call.now))
        both.now.budget (outcome_tree t.second)) }
{
    let code = generate(alloc, both.shaped)?;
    match generate(alloc, other) {
        Ok(rescaled) => {
            let ended = run_codes(alloc, both, other, &code, &rescaled, inputs);
            drop(rescaled);
            drop(code);
            ended
        }
        Err(stop) => {
            drop(code);
            Err(stop)
        }
    }
}

/// The same by the codes, which are kept.
fn run_codes(
    alloc: Global,
    both: &TwinCall,
    other: &Shaped,
    code: &Code,
    rescaled: &Code,
    inputs: &Inputs,
) -> Result<Twin, AllocError>
    requires can { CanTwin both.now.budget both.now.scales.now (program_tree both.now.shaped.now)
        (call_tree both.now.call.now) }
    requires other { IsOther both.now.scales.now (program_tree both.now.shaped.now) (program_tree other.now) }
    requires code { code.now ≡ program_code (program_tree both.now.shaped.now).functions }
    requires rescaled { rescaled.now ≡ program_code (program_tree other.now).functions }
    requires fit { AreFitInputs both.now.scales.now (call_tree both.now.call.now)
        (map input_tree inputs.now.items.items) }
    ensures first { IfOk result (λ t. EndsWith (program_code (program_tree both.now.shaped.now).functions)
        both.now.call.now.function (call_values (call_tree both.now.call.now)) both.now.budget
        (outcome_tree t.first)) }
    ensures second { IfOk result (λ t. EndsWith
        (program_code (rescaled_program both.now.scales.now (program_tree both.now.shaped.now)).functions)
        both.now.call.now.function (rescaled_values both.now.scales.now (call_tree both.now.call.now))
        both.now.budget (outcome_tree t.second)) }
{
    let args = argument_values(alloc, &both.call.inputs)?;
    match argument_values(alloc, inputs) {
        Ok(scaled) => {
            let first = CodeRunner::new(both.shaped, code);
            let second = CodeRunner::new(other, rescaled);
            twin(
                alloc,
                &first,
                &second,
                both.scales,
                both.call.function,
                args,
                scaled,
                both.budget,
            )
        }
        Err(stop) => {
            drop(args);
            Err(stop)
        }
    }
}
