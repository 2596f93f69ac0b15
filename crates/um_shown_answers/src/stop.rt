// The answer to a call that stops.
ghost use Rattle.std.specs.Prelude.{◌≡◌, ◌≤◌, All, IfOk, length};
ghost use Rattle.um_tree.specs.ProgramTree.{program_tree};
ghost use Rattle.um_tree.specs.Meaning.{Stop, Outcome, stops};
ghost use Rattle.um_eval.specs.Traces.{Trace};
ghost use Rattle.um_eval.specs.Laws.{IsStop};
ghost use Rattle.um_eval.specs.Paths.{IsPathOf};
ghost use Rattle.um_front.specs.Places.{IsPlace};
ghost use Rattle.um_run.specs.Calls.{call_tree, call_values};
ghost use Rattle.um_run.specs.Laws.{IsTypedCall};
ghost use Rattle.um_reports.specs.Steps.{IsReply};
ghost use Rattle.um_shown_answers.specs.TraceText.{stop_label, trace_text};
ghost use Rattle.um_shown_answers.specs.TraceAnswer.{IsStopTold};

use crate::lines::push_where;
use std::alloc::Global;
use um_eval::{Path, TreeRunner};
use um_front::{Answer, Checked};
use um_reports::{Reply, Status, reply_line};
use um_run::{Call, argument_values};
use um_tree::Function;

/// Runs a call that stops again, by the program's tree, and tells where. `label` is what `run` says of it.
pub(crate) fn reply_to_stop(
    alloc: Global,
    budget: u64,
    checked: &Checked,
    call: &Call,
    label: &str,
) -> Answer
    requires typed { IsTypedCall (program_tree checked.now.text.shaped) (call_tree call.now) }
    ensures { (why : Stop) → IsStop why → stop_label why ≡ label.now
        → Outcome (program_tree checked.now.text.shaped).functions call.now.function
        (call_values (call_tree call.now)) budget ≡ stops why
        → IfOk result (λ reply. IsStopTold budget checked.now.text.text.bytes.items
        (program_tree checked.now.text.shaped) (call_tree call.now) why reply.text.items reply.status) }
{
    let values = argument_values(alloc, &call.inputs)?;
    let runner = TreeRunner::new(checked.shaped());
    match runner.trace(alloc, call.function, values, budget)? {
        Some(path) => {
            let reply = reply_to_path(alloc, checked, label, &path);
            drop(path);
            reply
        }
        None => reply_line(alloc, label, Status::Done),
    }
}

/// The text of a path.
fn reply_to_path(alloc: Global, checked: &Checked, label: &str, path: &Path) -> Answer
    requires places { All (λ s. IsPlace checked.now.text.text.bytes.items s.at) path.now.spots.items }
    ensures { (t : Trace) → IsPathOf t path.now → stop_label t.why ≡ label.now
        → IfOk result (λ reply. IsReply reply.text.items reply.status
        (trace_text (program_tree checked.now.text.shaped).functions checked.now.text.text.bytes.items t) Status.Done) }
{
    let functions: &[Function] = &checked.program().functions.items;
    let mut text = label.as_bytes().to_vec(alloc)?;
    match path.spots.split_first() {
        Some((node, calls)) => {
            push_where(
                alloc,
                &mut text,
                functions,
                checked.bytes(),
                path.operands,
                (*node, calls),
            )?;
        }
        None => {}
    }
    Ok(Reply {
        text,
        status: Status::Done,
    })
}
