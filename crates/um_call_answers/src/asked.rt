// The call that words ask for.
ghost use Rattle.std.specs.Prelude.{IfErr, IfOk};
ghost use Rattle.um_tree.specs.ProgramTree.{program_tree};
ghost use Rattle.um_run.specs.Calls.{call_tree};
ghost use Rattle.um_run.specs.Laws.{IsTypedCall};
ghost use Rattle.um_front.specs.Parts.{checked_tree};
ghost use Rattle.um_front.specs.Stages.{IsCheckedText};
ghost use Rattle.um_call_answers.specs.AskedCall.{IsShortCall};
ghost use Rattle.um_call_answers.specs.Calling.{asked_call};
ghost use Rattle.um_call_answers.specs.OfCall.{IsAskedCall, IsRefusedCall};

use crate::call_words::CallWords;
use std::alloc::Global;
use um_front::{Answer, Checked};
use um_reports::reply_to_call;
use um_run::{Call, read_call};

/// The call that the words ask for, or the answer to words that ask for none.
///
/// The budget is at most 10,000,000, and no text of an argument is longer than 1,048,576 bytes. A call that is read has
/// a type. The rules are this project's own.
pub fn read_asked(alloc: Global, call: &CallWords, checked: &Checked) -> Result<Call, Answer>
    requires call { IsShortCall (asked_call call.now) }
    ensures exact { IfOk result (λ read. IsAskedCall (asked_call call.now) (checked_tree checked.now)
        (call_tree read)) }
    ensures typed { IfOk result (λ read. IsTypedCall (program_tree checked.now.text.shaped) (call_tree read)) }
    ensures checked { IsCheckedText checked.now.text.text.bytes.items (checked_tree checked.now) }
    ensures refused { IfErr result (λ answer. IfOk answer (λ reply.
        IsRefusedCall (asked_call call.now) (checked_tree checked.now) reply.text.items reply.status)) }
{
    let shaped = checked.shaped();
    let schemes = checked.schemes();
    let abbreviations = checked.abbreviations();
    match read_call(alloc, shaped, schemes, abbreviations, call.name, call.texts) {
        Ok(read) => Ok(read),
        Err(refusal) => Err(reply_to_call(alloc, call.texts, refusal)),
    }
}
