//! The laws of images, as contracts of functions that do nothing. A crate above cites the law that it needs.
ghost use Rattle.um_image.specs.Laws.{GeneratedIsVerified, PlacesAreUnique, BadBytesAreNoImage, BytesSpellOneImage};
ghost use Rattle.um_image.specs.Laws.{BytesAreAnswered};

/// The image of a shaped program with the code that is generated for it is verified, if its names are short enough
/// to be written.
pub fn image_of_generated_code()
    ensures verified { GeneratedIsVerified }
{}

/// Bytes are those of one image at most. Bytes that aren't an image's are refused at one place, and those of an image
/// at none; they are one or the other.
pub fn bytes_of_images()
    ensures one_image { BytesSpellOneImage }
    ensures one_place { PlacesAreUnique }
    ensures none { BadBytesAreNoImage }
    ensures answered { BytesAreAnswered }
{}
