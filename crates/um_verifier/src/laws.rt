//! The laws of verified and refused images, as contracts of functions that do nothing.
ghost use Rattle.um_verifier.specs.Laws.{RefusalsAreOne, VerifiedIsAccepted, ImagesAreVerifiedOrRefused};

/// An image has one refusal at most, besides want of memory, and a verified image has none.
pub fn refusals_of_images()
    ensures once { RefusalsAreOne }
    ensures accepted { VerifiedIsAccepted }
{}

/// An image that has the form is verified, or there is a refusal of it other than want of memory.
pub fn images_are_answered()
    ensures { ImagesAreVerifiedOrRefused }
{}
