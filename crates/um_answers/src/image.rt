// The answer to `image`: the image of a program with its code.
ghost use Rattle.std.specs.Prelude.{IfOk, OnOk};
ghost use Rattle.um_verify.specs.ImageTree.{image_tree, HasForm};
ghost use Rattle.um_image.specs.Encoding.{image_bytes};
ghost use Rattle.um_image.specs.Places.{IsWritable};
ghost use Rattle.um_reports.specs.Steps.{IsReply};
ghost use Rattle.um_front.specs.Parts.{checked_tree};
ghost use Rattle.um_answers.specs.ImageAnswer.{ImageAnswer, IsImageReply};

use std::alloc::Global;
use um_front::{Answer, Checked, Text, check};
use um_gen::generate;
use um_image::{encode, image_of};
use um_reports::{Reply, Status};
use um_verify::Image;

/// The answer to `image` about a text.
///
/// Want of memory is the one error; each refusal is an answer. The form of images is this project's own.
#[tactic(auto, unfolding(crate::specs::ImageAnswer::ImageAnswer))]
pub fn answer_image(alloc: Global, text: Text) -> Answer
    ensures { IfOk result (λ reply. ImageAnswer text reply.text.items reply.status) }
{
    match check(alloc, text) {
        Ok(checked) => {
            let reply = reply_image(alloc, &checked);
            checked.discard();
            reply
        }
        Err(refused) => refused,
    }
}

/// The bytes of the image of the program with its code.
#[tactic(auto, unfolding(crate::specs::ImageAnswer::IsImageReply))]
fn reply_image(alloc: Global, checked: &Checked) -> Answer
    ensures { IfOk result (λ reply. IsImageReply (checked_tree checked.now) reply.text.items reply.status) }
{
    let shaped = checked.shaped();
    let code = generate(alloc, shaped)?;
    let image = image_of(alloc, shaped, &code)?;
    let reply = reply_encoded(alloc, &image);
    drop(image);
    reply
}

/// The bytes of the image.
fn reply_encoded(alloc: Global, image: &Image) -> Answer
    requires form { HasForm (image_tree image.now) }
    ensures reply { IfOk result (λ reply. IsReply reply.text.items reply.status
        (image_bytes (image_tree image.now)) Status.Done) }
    ensures writable { OnOk result (IsWritable (image_tree image.now)) }
{
    Ok(Reply {
        text: encode(alloc, image)?,
        status: Status::Done,
    })
}
