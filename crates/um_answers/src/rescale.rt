// The answer to `rescale`: a program in other sizes of its base units.
ghost use Rattle.std.specs.Prelude.{◌≡◌, IfOk, IsTrue};
ghost use Rattle.um_tree.specs.ProgramTree.{program_tree};
ghost use Rattle.um_scale.specs.RescaledText.{IsRescaledText};
ghost use Rattle.um_sizes.specs.ScaleWords.{is_scales};
ghost use Rattle.um_front.specs.Parts.{checked_tree};
ghost use Rattle.um_answers.specs.RescaleAnswer.{RescaleAnswer, IsRescaled, LiteralsAnswer};

use std::alloc::{AllocError, Global};
use std::str;
use um_front::{Answer, Checked, Text, check};
use um_reports::{Reply, Status, reply_to_literal, reply_to_sizes};
use um_scale::{ScaleStop, Scales, rescale_program, rescale_text};
use um_sizes::read_scales;
use um_tree::Program;

/// The answer to `rescale` about a text, in the sizes of base units that the word states.
///
/// Want of memory is the one error; each refusal is an answer. How literals are rescaled is Kennedy's (1997).
#[tactic(auto, unfolding(crate::specs::RescaleAnswer::RescaleAnswer))]
pub fn answer_rescale(alloc: Global, sizes: &str, text: Text) -> Answer
    requires stated { IsTrue (is_scales sizes.now) }
    ensures { IfOk result (λ reply. RescaleAnswer sizes.now text reply.text.items reply.status) }
{
    match check(alloc, text) {
        Ok(checked) => {
            let answer = answer_checked(alloc, sizes, &checked);
            checked.discard();
            answer
        }
        Err(refused) => refused,
    }
}

/// The answer in a program with its schemes.
#[tactic(auto, unfolding(crate::specs::RescaleAnswer::IsRescaled))]
fn answer_checked(alloc: Global, sizes: &str, checked: &Checked) -> Answer
    requires stated { IsTrue (is_scales sizes.now) }
    ensures { IfOk result (λ reply. IsRescaled sizes.now checked.now.text.text.bytes.items
        (checked_tree checked.now) reply.text.items reply.status) }
{
    match read_scales(alloc, sizes, checked.program()) {
        Ok(scales) => {
            let answer = answer_literals(alloc, checked, &scales);
            drop(scales);
            answer
        }
        Err(refusal) => reply_to_sizes(alloc, refusal),
    }
}

/// The text with its literals rescaled, or the first that doesn't fit.
#[tactic(auto, unfolding(crate::specs::RescaleAnswer::LiteralsAnswer))]
fn answer_literals(alloc: Global, checked: &Checked, scales: &Scales) -> Answer
    ensures { IfOk result (λ reply. LiteralsAnswer scales.now checked.now.text.text.bytes.items
        (program_tree checked.now.text.shaped) reply.text.items reply.status) }
{
    match rescale_program(alloc, checked.program(), scales) {
        Ok(rescaled) => reply_rescaled(alloc, checked, rescaled),
        Err(ScaleStop::Range { at }) => reply_to_literal(alloc, checked.bytes(), at),
        Err(ScaleStop::NoMemory) => Err(AllocError),
    }
}

/// The text with the numbers of the rescaled program.
fn reply_rescaled(alloc: Global, checked: &Checked, rescaled: Program) -> Answer
    ensures { IfOk result (λ reply. IsRescaledText checked.now.text.text.bytes.items (program_tree rescaled)
        reply.text.items × (reply.status ≡ Status.Done)) }
{
    let text = rescaled_text(alloc, checked, &rescaled);
    rescaled.discard();
    Ok(Reply {
        text: text?,
        status: Status::Done,
    })
}

/// The same, and the rescaled program is kept.
fn rescaled_text(
    alloc: Global,
    checked: &Checked,
    rescaled: &Program,
) -> Result<Vec<u8>, AllocError>
    ensures { IfOk result (λ text. IsRescaledText checked.now.text.text.bytes.items (program_tree rescaled.now)
        text.items) }
{
    match str::from_utf8(checked.bytes()) {
        Ok(text) => rescale_text(alloc, text, rescaled),
        Err(_) => unreachable!(),
    }
}
