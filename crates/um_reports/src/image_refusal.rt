// The lines of bytes that are no image, and of images that break a rule.
ghost use Rattle.std.specs.Prelude.{IfOk};
ghost use Rattle.um_reports.specs.ImageRefusals.{IsBadByteReply, IsBadCodeReply, IsBadHeadReply, IsImageReply};

use crate::Status;
use crate::reply::Reply;
use std::alloc::{AllocError, Global};

/// The refusal of bytes that are no image, by the place, counted from 0, of the first that cannot stand there.
pub fn reply_to_bad_byte(alloc: Global, at: u32) -> Result<Reply, AllocError>
    ensures { IfOk result (λ reply. IsBadByteReply at reply.text.items reply.status) }
{
    reply_to_image(alloc, b"image at byte", at)
}

/// The refusal of an image by the index, counted from 0, of its first head that breaks a rule: records come first.
pub fn reply_to_bad_head(alloc: Global, index: u32) -> Result<Reply, AllocError>
    ensures { IfOk result (λ reply. IsBadHeadReply index reply.text.items reply.status) }
{
    reply_to_image(alloc, b"head", index)
}

/// The refusal of an image by the first address, counted from 0, whose rule fails.
pub fn reply_to_bad_code(alloc: Global, at: u32) -> Result<Reply, AllocError>
    ensures { IfOk result (λ reply. IsBadCodeReply at reply.text.items reply.status) }
{
    reply_to_image(alloc, b"code at", at)
}

// A reply of one line that names what breaks a rule, by its number.
fn reply_to_image(alloc: Global, what: &[u8], number: u32) -> Result<Reply, AllocError>
    ensures { IfOk result (λ reply. IsImageReply what.now number reply.text.items reply.status) }
{
    let mut text = b"error 22: ".to_vec(alloc)?;
    text.extend_from_slice(what)?;
    text.push(b' ')?;
    text.extend_from_slice(itoa::Buffer::new().format(number).as_bytes())?;
    text.push(b'\n')?;
    Ok(Reply {
        text,
        status: Status::BadImage,
    })
}
