// The answer to a call of an image.
ghost use Rattle.std.specs.Prelude.{◌≡◌, ◌<◌, ◌≤◌, IfOk, length, slice_get, Some};
ghost use Rattle.um_tree.specs.ValueTree.{outcome_tree};
ghost use Rattle.um_verify.specs.ImageTree.{HeadTree, image_tree, HasForm};
ghost use Rattle.um_image.specs.ProgramImage.{type_of_shape as plain_type_of};
ghost use Rattle.um_run.specs.ImageCalls.{image_call_tree, image_program};
ghost use Rattle.um_run.specs.ImageLaws.{IsShapedCall};
ghost use Rattle.um_call_answers.specs.AskedCall.{IsShortCall};
ghost use Rattle.um_call_answers.specs.CallAnswer.{IsOutcomeReply};
ghost use Rattle.um_call_answers.specs.Calling.{asked_call};
ghost use Rattle.um_call_answers.specs.ExecAnswer.{BytesAnswer, DecodedAnswer, VerifiedAnswer, ImageRunAnswer};

use crate::call_words::CallWords;
use crate::outcome::{Ended, reply_to_outcome};
use std::alloc::{AllocError, Global};
use um_front::Answer;
use um_image::{DecodeStop, decode, type_of_shape};
use um_reports::{reply_to_bad_byte, reply_to_bad_code, reply_to_bad_head, reply_to_call};
use um_run::{ImageCall, argument_values, program_of, read_image_call};
use um_verifier::{Verified, VerifyStop, exec, verify};
use um_verify::Image;

/// The answer to `exec` about the bytes that were read: if they are a verified image, the function of the call is
/// called on its arguments.
///
/// There are at most 16,777,216 bytes, the budget is at most 10,000,000, and no text of an argument is longer than
/// 1,048,576 bytes. A number may be written at unit 1 alone, and is printed there. Want of memory is the one error;
/// each refusal is an answer. The rules are this project's own.
#[tactic(auto, unfolding(crate::specs::ExecAnswer::BytesAnswer))]
pub fn answer_exec(alloc: Global, call: &CallWords, bytes: &[u8]) -> Answer
    requires call { IsShortCall (asked_call call.now) }
    requires few { length bytes.now ≤ 16777216 }
    ensures { IfOk result (λ reply. BytesAnswer (asked_call call.now) bytes.now reply.text.items reply.status) }
{
    match decode(alloc, bytes) {
        Ok(image) => answer_decoded(alloc, call, image),
        Err(DecodeStop::Bad { at }) => reply_to_bad_byte(alloc, at),
        Err(DecodeStop::NoMemory) => Err(AllocError),
    }
}

/// The answer about an image.
#[tactic(auto, unfolding(crate::specs::ExecAnswer::DecodedAnswer))]
fn answer_decoded(alloc: Global, call: &CallWords, image: Image) -> Answer
    requires call { IsShortCall (asked_call call.now) }
    requires form { HasForm (image_tree image) }
    requires few { length (image_tree image).records ≤ 16777216 }
    ensures { IfOk result (λ reply. DecodedAnswer (asked_call call.now) (image_tree image)
        reply.text.items reply.status) }
{
    match verify(alloc, image) {
        Ok(verified) => {
            let answer = answer_verified(alloc, call, &verified);
            drop(verified);
            answer
        }
        Err(VerifyStop::Head { index }) => reply_to_bad_head(alloc, index),
        Err(VerifyStop::Code { at }) => reply_to_bad_code(alloc, at),
        Err(VerifyStop::NoMemory) => Err(AllocError),
    }
}

/// The answer about a verified image.
#[tactic(auto, unfolding(crate::specs::ExecAnswer::VerifiedAnswer))]
fn answer_verified(alloc: Global, call: &CallWords, image: &Verified) -> Answer
    requires call { IsShortCall (asked_call call.now) }
    requires few { length (image_tree image.now).records ≤ 16777216 }
    ensures { IfOk result (λ reply. VerifiedAnswer (asked_call call.now) (image_tree image.now)
        reply.text.items reply.status) }
{
    match read_image_call(alloc, image.image(), call.name, call.texts) {
        Ok(read) => {
            let answer = reply_to_run(alloc, call.budget, image, &read);
            drop(read);
            answer
        }
        Err(refusal) => reply_to_call(alloc, call.texts, refusal),
    }
}

/// How a call that can be run ends, with its value at unit 1.
#[tactic(auto, unfolding(crate::specs::ExecAnswer::ImageRunAnswer))]
fn reply_to_run(alloc: Global, budget: u64, image: &Verified, call: &ImageCall) -> Answer
    requires shaped { IsShapedCall (image_tree image.now) (image_call_tree call.now) }
    requires small { budget ≤ 10000000 }
    ensures { IfOk result (λ reply. ImageRunAnswer budget (image_tree image.now) (image_call_tree call.now)
        reply.text.items reply.status) }
{
    let values = argument_values(alloc, &call.inputs)?;
    let outcome = exec(alloc, image, call.function, values, budget)?;
    let ended = Ended {
        outcome,
        steps: None,
    };
    let reply = reply_of_image(alloc, image.image(), call.function, &ended);
    drop(ended);
    reply
}

/// The line of an outcome of this function of the image.
fn reply_of_image(alloc: Global, image: &Image, function: u32, ended: &Ended) -> Answer
    requires form { HasForm (image_tree image.now) }
    requires function { function < length (image_tree image.now).heads }
    ensures { (h : HeadTree) → slice_get (image_tree image.now).heads function ≡ Some h
        → IfOk result (λ reply. IsOutcomeReply (image_program (image_tree image.now)) (plain_type_of h.result)
        (outcome_tree ended.now.outcome) ended.now.steps reply.text.items reply.status) }
{
    let program = program_of(alloc, image)?;
    match type_of_shape(alloc, &image.heads.items[function as usize].result) {
        Ok(ty) => {
            let reply = reply_to_outcome(alloc, &program, ended, &ty);
            program.discard();
            drop(ty);
            reply
        }
        Err(error) => {
            program.discard();
            Err(error)
        }
    }
}
