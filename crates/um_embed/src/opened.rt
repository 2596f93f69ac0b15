// A program that is checked and compiled.
ghost use Rattle.std.specs.Prelude.{◌≡◌, IfErr, IfOk};
ghost use Rattle.um_tree.specs.ProgramTree.{program_tree};
ghost use Rattle.um_infer.specs.Answers.{scheme_trees};
ghost use Rattle.um_reports.specs.declared.status.Status.TheVariants.{Done};
ghost use Rattle.um_front.specs.Parts.{checked_tree};
ghost use Rattle.um_front.specs.Stages.{IsCheckedText};
ghost use Rattle.um_front.specs.Refused.{IsUnchecked};
ghost use Rattle.um_answers.specs.TypesAnswer.{TypesAnswer, scheme_lines};
ghost use Rattle.um_call_answers.specs.declared.way.Way.TheVariants as way;
ghost use Rattle.um_call_answers.specs.AskedCall.{IsShortCall};
ghost use Rattle.um_call_answers.specs.CallAnswer.{CallAnswer};
ghost use Rattle.um_call_answers.specs.Calling.{asked_call};
ghost use Rattle.um_embed.specs.Calling.{IsPreparedFor};

use crate::prepared::{Prepared, prepare};
use std::alloc::{AllocError, Global};
use std::marker::Model;
use um_answers::schemes_text;
use um_call_answers::{CallWords, Compiled, answer_call_of};
use um_front::{Answer, Checked, Text, check};
use um_reports::{Reply, Status, reply_line};
use um_run::callable_of;

/// The longest text of a program, in bytes.
const TEXT_LIMIT: usize = 1_048_576;

/// A text's program, checked and prepared for calls. Contracts see the bytes of the text.
#[derive(Drop)]
pub struct Opened {
    checked: Checked,
    prepared: Prepared,
}

impl Model for Opened {
    ghost use Rattle.std.specs.Prelude.{ℕ, List};
    ghost use Rattle.um_embed.specs.Calling.{IsPreparedFor};

    ghost Value = { List ℕ };

    ghost view = { λ o. o.checked.text.text.bytes.items };

    ghost invariant = { λ o. IsPreparedFor o.checked o.prepared };
}

impl Opened {
    ghost use Rattle.std.specs.Prelude.{◌≡◌, IfOk};
    ghost use Rattle.um_reports.specs.declared.status.Status.TheVariants.{Done};
    ghost use Rattle.um_answers.specs.TypesAnswer.{TypesAnswer};
    ghost use Rattle.um_call_answers.specs.declared.way.Way.TheVariants as way;
    ghost use Rattle.um_call_answers.specs.AskedCall.{IsShortCall};
    ghost use Rattle.um_call_answers.specs.CallAnswer.{CallAnswer};
    ghost use Rattle.um_call_answers.specs.Calling.{asked_call};

    /// The answer to `types` about the text.
    pub(crate) fn types(&self, alloc: Global) -> Answer
        ensures types { IfOk result (λ reply. TypesAnswer self.now reply.text.items reply.status) }
        ensures done { IfOk result (λ reply. reply.status ≡ Done) }
    {
        types_of(alloc, &self.checked)
    }

    /// The answer to a call by the program's code.
    pub(crate) fn call(&self, alloc: Global, call: &CallWords) -> Answer
        requires { IsShortCall (asked_call call.now) }
        ensures { IfOk result (λ reply. CallAnswer way.Code (asked_call call.now) self.now
            reply.text.items reply.status) }
    {
        answer_in(alloc, call, &self.checked, &self.prepared)
    }
}

/// The answer to `types` about the text of a program.
#[tactic(auto, unfolding(um_answers::specs::TypesAnswer::TypesAnswer))]
fn types_of(alloc: Global, checked: &Checked) -> Answer
    ensures types { IfOk result (λ reply. TypesAnswer checked.now.text.text.bytes.items
        reply.text.items reply.status) }
    ensures done { IfOk result (λ reply. reply.status ≡ Done) }
{
    Ok(Reply {
        text: lines_of(alloc, checked)?,
        status: Status::Done,
    })
}

/// The lines of the schemes of a program.
fn lines_of(alloc: Global, checked: &Checked) -> Result<Vec<u8>, AllocError>
    ensures checked { IsCheckedText checked.now.text.text.bytes.items (checked_tree checked.now) }
    ensures lines { IfOk result (λ text. text.items ≡ scheme_lines (program_tree checked.now.text.shaped)
        (program_tree checked.now.text.shaped).functions (scheme_trees checked.now.schemes)) }
{
    schemes_text(alloc, checked.program(), checked.schemes())
}

/// The answer to a call of a program.
#[tactic(auto, unfolding(um_call_answers::specs::CallAnswer::CallAnswer))]
fn answer_in(alloc: Global, call: &CallWords, checked: &Checked, prepared: &Prepared) -> Answer
    requires call { IsShortCall (asked_call call.now) }
    requires prepared { IsPreparedFor checked.now prepared.now }
    ensures { IfOk result (λ reply. CallAnswer way.Code (asked_call call.now) checked.now.text.text.bytes.items
        reply.text.items reply.status) }
{
    let shaped = checked.shaped();
    let schemes = checked.schemes();
    let abbreviations = checked.abbreviations();
    let callable = callable_of(shaped, schemes, abbreviations, &prepared.tables);
    let program = Compiled::new(checked, &prepared.code);
    answer_call_of(alloc, call, &program, &callable)
}

/// The program of these bytes, in a block of its own, or the answer to a text without one.
pub(crate) fn kept(alloc: Global, bytes: &[u8]) -> Result<Box<Opened>, Answer>
    ensures opened { IfOk result (λ o. o.value ≡ bytes.now) }
    ensures refused { IfErr result (λ answer. IfOk answer (λ reply.
        IsUnchecked bytes.now reply.text.items reply.status)) }
{
    if bytes.len() > TEXT_LIMIT {
        return Err(reply_line(alloc, "error 2: text too long", Status::TooLong));
    }
    match Text::of_bytes(alloc, bytes) {
        Ok(text) => kept_text(alloc, text),
        Err(error) => Err(Err(error)),
    }
}

fn kept_text(alloc: Global, text: Text) -> Result<Box<Opened>, Answer>
    ensures opened { IfOk result (λ o. o.value ≡ text) }
    ensures refused { IfErr result (λ answer. IfOk answer (λ reply. IsUnchecked text reply.text.items reply.status)) }
{
    match check(alloc, text) {
        Ok(checked) => kept_program(alloc, checked),
        Err(refused) => Err(refused),
    }
}

fn kept_program(alloc: Global, checked: Checked) -> Result<Box<Opened>, Answer>
    ensures opened { IfOk result (λ o. o.value ≡ checked.text.text.bytes.items) }
    ensures refused { IfErr result (λ answer. IfOk answer (λ reply.
        IsUnchecked checked.text.text.bytes.items reply.text.items reply.status)) }
{
    match prepare(alloc, &checked) {
        Ok(prepared) => match Box::new(alloc, Opened { checked, prepared }) {
            Ok(opened) => Ok(opened),
            Err(failed) => Err(Err(failed.into())),
        },
        Err(error) => {
            drop(checked);
            Err(Err(error))
        }
    }
}
