// What follows the report line of a program with a function without a scheme.
ghost use Rattle.std.specs.Prelude.{◌≡◌, ◌++◌, ◌≤◌, IfOk, OnOk, None, Ok, Err, length};
ghost use Rattle.um_tree.specs.ProgramTree.{program_tree};
ghost use Rattle.um_tree.specs.RawTree.{program_syntax};
ghost use Rattle.um_infer.specs.Answers.{IsInferred, SaysOfTypings, scheme_trees};
ghost use Rattle.um_front.specs.Places.{IsPlace};
ghost use Rattle.um_shape.specs.FirstFault.{first_fault};
ghost use Rattle.um_reports.specs.Steps.{IsReply};
ghost use Rattle.um_reports.specs.declared.status.Status.TheVariants.{Done};
ghost use Rattle.um_answers.specs.TypesAnswer.{scheme_lines};
ghost use Rattle.um_explain_answers.specs.Added.{Adds, HasNames, InferPlace};
ghost use Rattle.um_explain_answers.specs.ExplainAnswer.{ExplainAnswer};
ghost use Rattle.um_explain_answers.specs.SchemeRest.{IsSchemeRest};

use crate::details::push_units;
use crate::place::push_source;
use crate::refusal::explained;
use std::alloc::{AllocError, Global};
use um_answers::schemes_text;
use um_front::{Answer, function_at, reply_to_untyped};
use um_infer::{InferStop, infer};
use um_reports::{Reply, Status};
use um_shape::Shaped;
use um_text_details::{push_limit_details, push_range_details};
use um_tree::{RawProgram, Schemes};
use um_types::LimitKind;

/// The answer about a text with its shapes.
pub(crate) fn answer_shaped(
    alloc: Global,
    bytes: &[u8],
    raw: &RawProgram,
    shaped: &Shaped,
) -> Answer
    requires names { HasNames bytes.now (program_syntax raw.now) (program_tree shaped.now) }
    requires faultless { first_fault (program_tree shaped.now) ≡ None }
    ensures { IfOk result (λ reply. ExplainAnswer bytes.now reply.text.items reply.status) }
{
    match infer(alloc, shaped) {
        Ok(schemes) => reply_schemes(alloc, shaped, schemes),
        Err(stop) => explain_schemes(alloc, bytes, raw, shaped, stop),
    }
}

/// The schemes of the functions.
fn reply_schemes(alloc: Global, shaped: &Shaped, schemes: Schemes) -> Answer
    requires count { length schemes.items.items ≡ length (program_tree shaped.now).functions }
    ensures { IfOk result (λ reply. IsReply reply.text.items reply.status
        (scheme_lines (program_tree shaped.now) (program_tree shaped.now).functions (scheme_trees schemes)) Done) }
{
    let text = schemes_text(alloc, shaped.program(), &schemes);
    drop(schemes);
    Ok(Reply {
        text: text?,
        status: Status::Done,
    })
}

/// The answer about a function without a scheme.
fn explain_schemes(
    alloc: Global,
    bytes: &[u8],
    raw: &RawProgram,
    shaped: &Shaped,
    stop: InferStop,
) -> Answer
    requires names { HasNames bytes.now (program_syntax raw.now) (program_tree shaped.now) }
    requires faultless { first_fault (program_tree shaped.now) ≡ None }
    requires inferred { IsInferred (program_tree shaped.now) (Err stop) }
    requires typings { SaysOfTypings (program_tree shaped.now) (Err stop) }
    ensures { IfOk result (λ reply. ExplainAnswer bytes.now reply.text.items reply.status) }
{
    let mut refusal = reply_to_untyped(alloc, bytes, shaped, stop)?;
    let added = push_scheme_rest(alloc, &mut refusal.text, bytes, raw, shaped, stop);
    explained(refusal, added)
}

/// Adds what follows the report line of a function without a scheme.
fn push_scheme_rest(
    alloc: Global,
    text: &mut Vec<u8>,
    bytes: &[u8],
    raw: &RawProgram,
    shaped: &Shaped,
    stop: InferStop,
) -> Result<(), AllocError>
    requires short { length bytes.now ≤ 1048576 }
    requires stop { IsInferred (program_tree shaped.now) (Err stop) }
    requires place { InferPlace (IsPlace bytes.now) (program_tree shaped.now) stop }
    ensures { OnOk result (Adds (IsSchemeRest bytes.now (program_syntax raw.now) (program_tree shaped.now) stop)
        text.old.items text.new.items) }
{
    match stop {
        InferStop::Units { function: _, at } => {
            push_source(alloc, text, bytes, at)?;
            push_units(alloc, bytes, raw, shaped, stop, text)
        }
        InferStop::NotGeneral { function: _, at } => {
            push_source(alloc, text, bytes, at)?;
            push_units(alloc, bytes, raw, shaped, stop, text)
        }
        InferStop::PowerRange { function: _, at } => {
            push_source(alloc, text, bytes, at)?;
            push_range_details(text)
        }
        InferStop::Slots { function } => {
            let at = function_at(shaped.program(), function).at;
            push_source(alloc, text, bytes, at)?;
            push_limit_details(text, LimitKind::Slots)
        }
        InferStop::NoMemory => Err(AllocError),
    }
}
