//! Verified images.
use std::marker::Model;
use um_verify::Image;

/// An image that is verified. Contracts see the image.
#[derive(Drop)]
pub struct Verified {
    image: Image,
}

impl Model for Verified {
    ghost use Rattle.um_verify.specs.declared.image.Image.{Image};
    ghost use Rattle.um_verify.specs.contracts.image.Image.{the_row};

    ghost Value = { Image };

    ghost coded = { the_row.coded };

    ghost use Rattle.um_verify.specs.ImageTree.{image_tree};
    ghost use Rattle.um_verify.specs.Verified.{IsVerified};

    ghost view = { λ verified. verified.image };

    ghost invariant = { λ verified. IsVerified (image_tree verified.image) };
}

impl Verified {
    ghost use Rattle.std.specs.Prelude.{◌≡◌};
    ghost use Rattle.um_verify.specs.ImageTree.{image_tree};
    ghost use Rattle.um_verify.specs.Verified.{IsVerified};

    pub(crate) fn new(image: Image) -> Verified
        requires verified { IsVerified (image_tree image) }
        ensures { result ≡ image }
    {
        Verified { image }
    }

    /// The image. Takes no memory.
    pub fn image(&self) -> &Image
        ensures image { result.now ≡ self.now }
        ensures verified { IsVerified (image_tree self.now) }
    {
        &self.image
    }
}
