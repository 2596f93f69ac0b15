// The answer to `types`: the schemes of a program's functions.
ghost use Rattle.std.specs.Prelude.{◌≡◌, IfOk, length};
ghost use Rattle.um_tree.specs.ProgramTree.{program_tree};
ghost use Rattle.um_infer.specs.Answers.{scheme_trees};
ghost use Rattle.um_front.specs.Parts.{checked_tree};
ghost use Rattle.um_answers.specs.TypesAnswer.{TypesAnswer, IsSchemeList, scheme_lines};

use std::alloc::{AllocError, Global};
use um_front::{Answer, Checked, Text, check};
use um_reports::{Reply, Status};
use um_show::scheme_text;
use um_tree::{Function, Program, Schemes};

/// The answer to `types` about a text: a line for each function, with its scheme.
///
/// Want of memory is the one error; each refusal is an answer. The schemes are Kennedy's (1996).
#[tactic(auto, unfolding(crate::specs::TypesAnswer::TypesAnswer))]
pub fn answer_types(alloc: Global, text: Text) -> Answer
    ensures { IfOk result (λ reply. TypesAnswer text reply.text.items reply.status) }
{
    match check(alloc, text) {
        Ok(checked) => reply_schemes(alloc, checked),
        Err(refused) => refused,
    }
}

/// The schemes of the functions.
fn reply_schemes(alloc: Global, checked: Checked) -> Answer
    ensures { IfOk result (λ reply. IsSchemeList (checked_tree checked) reply.text.items reply.status) }
{
    let text = checked_text(alloc, &checked);
    checked.discard();
    Ok(Reply {
        text: text?,
        status: Status::Done,
    })
}

/// The lines of the schemes of a program that has them.
fn checked_text(alloc: Global, checked: &Checked) -> Result<Vec<u8>, AllocError>
    ensures { IfOk result (λ text. text.items ≡ scheme_lines (program_tree checked.now.text.shaped)
        (program_tree checked.now.text.shaped).functions (scheme_trees checked.now.schemes)) }
{
    schemes_text(alloc, checked.program(), checked.schemes())
}

/// The text of the answer to `types` about a program with these schemes: a line for each function, in order, with its
/// scheme. Want of memory is the one error. The schemes are Kennedy's (1996).
pub fn schemes_text(
    alloc: Global,
    program: &Program,
    schemes: &Schemes,
) -> Result<Vec<u8>, AllocError>
    requires count { length schemes.now.items.items ≡ length (program_tree program.now).functions }
    ensures { IfOk result (λ text. text.items
        ≡ scheme_lines (program_tree program.now) (program_tree program.now).functions (scheme_trees schemes.now)) }
{
    let mut text = Vec::new(alloc);
    let functions: &[Function] = &program.functions.items;
    for i in 0..functions.len() {
        let one = scheme_text(alloc, &functions[i].name, &schemes.items[i], program)?;
        text.extend_from_slice(&one)?;
        text.push(b'\n')?;
    }
    Ok(text)
}
