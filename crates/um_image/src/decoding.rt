//! Images from bytes.
ghost use Rattle.std.specs.Prelude.{◌≡◌, ◌≤◌, IfOk, IfErr, length};
ghost use Rattle.um_verify.specs.ImageTree.{ImageTree, image_tree, HasForm};
ghost use Rattle.um_image.specs.Encoding.{image_bytes};
ghost use Rattle.um_image.specs.Places.{IsWritable, IsDecodeStop};
ghost use Rattle.um_image.specs.Laws.{IsDecoded};
ghost use Rattle.um_image.specs.Reading.{image_at};
ghost use Rattle.um_image.specs.FunctionsRead.{IsImageRead, kept_image};

use crate::function::{Functions, read_last_functions};
use crate::item::read_letters;
use crate::record::read_records;
use crate::stop::{DecodeStop, ReadStop};
use std::alloc::Global;
use um_machine::{Code, Entries, Ops};
use um_tree::Records;
use um_verify::{Heads, Image};

/// The image with these bytes; `encode` has their form. There are at most 16,777,216 of them, and it takes time linear
/// in them.
///
/// # Errors
///
/// `Bad` if they aren't an image's, with the first byte of the first item that cannot stand there, or the first byte
/// after the end. An item is the four letters, a count, a name's length, a name's bytes, the number of a shape, the
/// number of a record, that of an instruction, a fraction, a truth value or another operand; a shape inside 400 others
/// cannot stand. What a name's bytes are isn't looked at. `NoMemory` may come with any bytes.
///
/// The form is this project's own.
pub fn decode(alloc: Global, bytes: &[u8]) -> Result<Image, DecodeStop>
    requires few { length bytes.now ≤ 16777216 }
    ensures form { IfOk result (λ image. HasForm (image_tree image)) }
    ensures writable { IfOk result (λ image. IsWritable (image_tree image)) }
    ensures few_records { IfOk result (λ image. length (image_tree image).records ≤ 16777216) }
    ensures found { IfOk result (λ image. bytes.now ≡ image_bytes (image_tree image)) }
    ensures only { (image : ImageTree) → IsWritable image → bytes.now ≡ image_bytes image → IsDecoded image result }
    ensures refused { IfErr result (λ stop. IsDecodeStop bytes.now stop) }
{
    match read_image(alloc, bytes) {
        Ok(image) => Ok(image),
        Err(ReadStop::Bad { left }) => Err(DecodeStop::Bad {
            at: (bytes.len() - left) as u32,
        }),
        Err(ReadStop::NoMemory) => Err(DecodeStop::NoMemory),
    }
}

#[tactic(auto, unfolding(crate::specs::Reading::image_at))]
fn read_image(alloc: Global, bytes: &[u8]) -> Result<Image, ReadStop>
    requires { length bytes.now ≤ 16777216 }
    ensures { IsImageRead result (image_at bytes.now) }
{
    let (_letters, rest) = read_letters(bytes)?;
    let (records, rest) = read_records(alloc, rest)?;
    match read_last_functions(alloc, rest) {
        Ok(functions) => Ok(image_with(records, functions)),
        Err(stop) => {
            drop(records);
            Err(stop)
        }
    }
}

fn image_with(records: Records, functions: Functions) -> Image
    ensures { image_tree result ≡ kept_image records functions }
{
    let heads = Heads {
        items: functions.heads,
    };
    let code = Code {
        ops: Ops::from_vec(functions.ops),
        entries: Entries::from_vec(functions.entries),
    };
    Image {
        records,
        heads,
        code,
    }
}
