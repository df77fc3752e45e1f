// An old image, by what its header states.

ghost use Rattle.mending_images.specs.Parts.{Lies};

use crate::{Claim, FlashRef};
use mending::OldImage;

// One of the old images in a flash, with what its header states: that lies within the image.
#[derive(Clone, Copy)]
pub struct ClaimedImage<'a> {
    pub flash: &'a FlashRef<'a>,
    pub image: OldImage,
    pub claim: Claim,
    pub ghost lies: { Lies flash.now.geometry claim },
}
