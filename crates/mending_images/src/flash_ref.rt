// BOOT, UPDATE and SWAP, lent for reading.

ghost use Rattle.flash.specs.Buffers.{lent, Shaped};

use flash::Geometry;

// The three buffers, with the geometry that their lengths fit.
#[derive(Clone, Copy)]
pub struct FlashRef<'a> {
    pub geometry: Geometry,
    pub boot: &'a [u8],
    pub update: &'a [u8],
    pub swap: &'a [u8],
    pub ghost shaped: { Shaped geometry (lent boot update swap) },
}
