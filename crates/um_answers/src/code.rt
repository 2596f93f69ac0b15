// The answer to `code`: the listing of a program's code.
ghost use Rattle.std.specs.Prelude.{◌≡◌, IfOk};
ghost use Rattle.um_tree.specs.ProgramTree.{program_tree};
ghost use Rattle.um_gen.specs.ProgramCode.{program_code};
ghost use Rattle.um_code.specs.Listing.{listing_text as listing_of};
ghost use Rattle.um_front.specs.Parts.{checked_tree};
ghost use Rattle.um_answers.specs.CodeAnswer.{CodeAnswer, IsListing};

use std::alloc::{AllocError, Global};
use um_code::listing;
use um_front::{Answer, Checked, Text, check};
use um_gen::generate;
use um_reports::{Reply, Status};

/// The answer to `code` about a text.
///
/// Want of memory is the one error; each refusal is an answer. The instructions are this project's own.
#[tactic(auto, unfolding(crate::specs::CodeAnswer::CodeAnswer))]
pub fn answer_code(alloc: Global, text: Text) -> Answer
    ensures { IfOk result (λ reply. CodeAnswer text reply.text.items reply.status) }
{
    match check(alloc, text) {
        Ok(checked) => reply_listing(alloc, checked),
        Err(refused) => refused,
    }
}

/// The listing of the program's code.
fn reply_listing(alloc: Global, checked: Checked) -> Answer
    ensures { IfOk result (λ reply. IsListing (checked_tree checked) reply.text.items reply.status) }
{
    let text = listing_text(alloc, &checked);
    checked.discard();
    Ok(Reply {
        text: text?,
        status: Status::Done,
    })
}

/// The listing, and the program is kept.
fn listing_text(alloc: Global, checked: &Checked) -> Result<Vec<u8>, AllocError>
    ensures { IfOk result (λ text. text.items ≡ listing_of (program_tree checked.now.text.shaped)
        (program_code (program_tree checked.now.text.shaped).functions)) }
{
    let code = generate(alloc, checked.shaped())?;
    listing(alloc, &code, checked.program())
}
