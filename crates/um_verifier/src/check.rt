//! The test of an image.
ghost use Rattle.std.specs.Prelude.{◌≡◌, IfOk, IfErr};
ghost use Rattle.um_verify.specs.ImageTree.{image_tree, HasForm};
ghost use Rattle.um_verify.specs.Verified.{IsVerified};
ghost use Rattle.um_verifier.specs.Refusals.{IsRefusal};

use crate::body::verify_code;
use crate::heads::known_image;
use crate::{Verified, VerifyStop};
use std::alloc::Global;
use um_verify::Image;

/// The image as a verified one: no run of its functions is ever stuck.
///
/// Its heads are looked at first, records before functions, and then each address in order. A head breaks its rules if
/// a name of it isn't one or is taken before; if a record has no field or more than 32, names a record that isn't an
/// earlier one, or has a field that is higher than 400; and if a function has more than 16 parameters, no instruction,
/// a shape that names no record, or one that is higher than 400.
///
/// `Head` is the first of these, `Code` the first address whose rule fails if all heads hold, and `NoMemory` may
/// come with any image. The image is handed back on none of them. The limits are this project's own; for the rules of
/// instructions see X. Leroy, Java bytecode verification: algorithms and formalizations, 2003.
pub fn verify(alloc: Global, image: Image) -> Result<Verified, VerifyStop>
    requires form { HasForm (image_tree image) }
    ensures image { IfOk result (λ verified. verified ≡ image) }
    ensures verified { IfOk result (λ _. IsVerified (image_tree image)) }
    ensures refused { IfErr result (IsRefusal (image_tree image)) }
{
    match check(alloc, &image) {
        Ok(()) => Ok(Verified::new(image)),
        Err(stop) => {
            drop(image);
            Err(stop)
        }
    }
}

/// Why the image isn't verified, if it isn't.
fn check(alloc: Global, image: &Image) -> Result<(), VerifyStop>
    requires form { HasForm (image_tree image.now) }
    ensures verified { IfOk result (λ _. IsVerified (image_tree image.now)) }
    ensures refused { IfErr result (IsRefusal (image_tree image.now)) }
{
    let known = known_image(alloc, image)?;
    match verify_code(alloc, &known, &image.code)? {
        None => Ok(()),
        Some(at) => Err(VerifyStop::Code { at }),
    }
}
