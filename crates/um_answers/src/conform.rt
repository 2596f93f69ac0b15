// The answer to `conform`: whether a function may be used at a signature.
ghost use Rattle.std.specs.Prelude.{◌≡◌, ◌<◌, ◌≤◌, IfOk, length};
ghost use Rattle.um_tree.specs.TypeTree.{type_trees};
ghost use Rattle.um_tree.specs.ProgramTree.{program_tree};
ghost use Rattle.um_sig.specs.Reading.{IsSignatureIn};
ghost use Rattle.um_front.specs.Parts.{checked_tree};
ghost use Rattle.um_answers.specs.ConformAnswer.{ConformAnswer, IsConformAnswer, SignatureAnswer, MatchingAnswer};

use std::alloc::Global;
use um_front::{Answer, Checked, Text, check};
use um_reports::{reply_to_matching, reply_to_signature, reply_to_unnamed};
use um_run::function_named;
use um_sig::{Signature, conform, read_signature};

/// The answer to `conform` about a text.
///
/// The text of the signature is at most 1,048,576 bytes long. Want of memory is the one error; each refusal is an
/// answer. That a scheme has all instances of a signature is Kennedy's (1996).
#[tactic(auto, unfolding(crate::specs::ConformAnswer::ConformAnswer))]
pub fn answer_conform(alloc: Global, name: &str, signature: &str, text: Text) -> Answer
    requires short { length signature.now ≤ 1048576 }
    ensures { IfOk result (λ reply. ConformAnswer name.now signature.now text reply.text.items reply.status) }
{
    match check(alloc, text) {
        Ok(checked) => {
            let answer = answer_checked(alloc, name, signature, &checked);
            checked.discard();
            answer
        }
        Err(refused) => refused,
    }
}

/// The answer in a program with its schemes.
#[tactic(auto, unfolding(crate::specs::ConformAnswer::IsConformAnswer))]
fn answer_checked(alloc: Global, name: &str, signature: &str, checked: &Checked) -> Answer
    requires short { length signature.now ≤ 1048576 }
    ensures { IfOk result (λ reply. IsConformAnswer name.now signature.now (checked_tree checked.now)
        reply.text.items reply.status) }
{
    match function_named(checked.program(), name) {
        Some(function) => answer_signature(alloc, name, signature, checked, function),
        None => reply_to_unnamed(alloc),
    }
}

/// The answer if the name is that of the function of this number.
#[tactic(auto, unfolding(crate::specs::ConformAnswer::SignatureAnswer))]
fn answer_signature(
    alloc: Global,
    name: &str,
    signature: &str,
    checked: &Checked,
    function: u32,
) -> Answer
    requires short { length signature.now ≤ 1048576 }
    requires function { function < length (program_tree checked.now.text.shaped).functions }
    ensures { IfOk result (λ reply. SignatureAnswer function name.now signature.now (checked_tree checked.now)
        reply.text.items reply.status) }
{
    match read_signature(alloc, signature, checked.program(), checked.abbreviations()) {
        Ok(read) => answer_read(alloc, name, checked, function, read),
        Err(stop) => reply_to_signature(alloc, signature, stop),
    }
}

/// The answer to a signature that was read.
fn answer_read(
    alloc: Global,
    name: &str,
    checked: &Checked,
    function: u32,
    signature: Signature,
) -> Answer
    requires function { function < length (program_tree checked.now.text.shaped).functions }
    requires signature { IsSignatureIn (program_tree checked.now.text.shaped) signature }
    requires few { signature.vars ≤ 1048576 }
    ensures { IfOk result (λ reply. MatchingAnswer function name.now (checked_tree checked.now)
        (type_trees signature.types) reply.text.items reply.status) }
{
    let answer = answer_matching(alloc, name, checked, function, &signature);
    drop(signature);
    answer
}

/// The same, and the signature is kept.
#[tactic(auto, unfolding(crate::specs::ConformAnswer::MatchingAnswer))]
fn answer_matching(
    alloc: Global,
    name: &str,
    checked: &Checked,
    function: u32,
    signature: &Signature,
) -> Answer
    requires function { function < length (program_tree checked.now.text.shaped).functions }
    requires signature { IsSignatureIn (program_tree checked.now.text.shaped) signature.now }
    requires few { signature.now.vars ≤ 1048576 }
    ensures { IfOk result (λ reply. MatchingAnswer function name.now (checked_tree checked.now)
        (type_trees signature.now.types) reply.text.items reply.status) }
{
    let bases = base_count(checked);
    let scheme = &checked.schemes().items[function as usize];
    reply_to_matching(alloc, name, conform(alloc, scheme, signature, bases))
}

/// How many base units the program declares.
fn base_count(checked: &Checked) -> u32
    ensures count { result ≡ length (program_tree checked.now.text.shaped).bases }
    ensures few { result ≤ 16777216 }
{
    checked.program().bases.as_slice().len() as u32
}
