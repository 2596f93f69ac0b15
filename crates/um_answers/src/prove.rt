// The answer to `prove`: certificates of a program's schemes.
ghost use Rattle.std.specs.Prelude.{IfOk};
ghost use Rattle.um_tree.specs.ProgramTree.{program_tree};
ghost use Rattle.um_certificates.specs.CertificateText.{certificates_text as lines_of};
ghost use Rattle.um_reports.specs.Steps.{IsReply};
ghost use Rattle.um_answers.specs.ProveAnswer.{ProveAnswer, IsProveReply};

use std::alloc::{AllocError, Global};
use um_certificates::certificates_text;
use um_front::{Answer, Text, function_at, shape_text};
use um_proof::{Proofs, ProveStop, prove};
use um_reports::{Reply, Status, reply_to_certificate, reply_to_range, reply_to_slots};
use um_shape::Shaped;
use um_tree::Program;

/// The answer to `prove` about a text.
///
/// Want of memory is the one error; each refusal is an answer. The certificates are this project's own.
#[tactic(auto, unfolding(crate::specs::ProveAnswer::ProveAnswer))]
pub fn answer_prove(alloc: Global, text: Text) -> Answer
    ensures { IfOk result (λ reply. ProveAnswer text reply.text.items reply.status) }
{
    match shape_text(alloc, text) {
        Ok(shaped) => {
            let reply = reply_proof(alloc, &shaped.text.bytes, &shaped.shaped);
            shaped.discard();
            reply
        }
        Err(refused) => refused,
    }
}

/// The certificates of the functions, or why they aren't made.
fn reply_proof(alloc: Global, bytes: &[u8], shaped: &Shaped) -> Answer
    ensures { IfOk result (λ reply. IsProveReply bytes.now (program_tree shaped.now)
        reply.text.items reply.status) }
{
    let program = shaped.program();
    match prove(alloc, shaped) {
        Ok(proofs) => reply_proofs(alloc, program, proofs),
        Err(ProveStop::Slots { function }) => {
            reply_to_slots(alloc, bytes, function_at(program, function).at)
        }
        Err(ProveStop::PowerRange { function, at }) => {
            reply_to_range(alloc, bytes, &function_at(program, function).name, at)
        }
        Err(ProveStop::CertRange { function, number }) => {
            reply_to_certificate(alloc, &function_at(program, function).name, number)
        }
        Err(ProveStop::NoMemory) => Err(AllocError),
    }
}

/// The lines of certificates.
fn reply_proofs(alloc: Global, program: &Program, proofs: Proofs) -> Answer
    ensures { IfOk result (λ reply. IsReply reply.text.items reply.status
        (lines_of (program_tree program.now) proofs.yes.items.items proofs.no) Status.Done) }
{
    let text = certificates_text(alloc, program, &proofs.yes.items, &proofs.no);
    drop(proofs);
    Ok(Reply {
        text: text?,
        status: Status::Done,
    })
}
