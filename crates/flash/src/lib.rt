// The flash of document 01: three lent buffers, BOOT, UPDATE and SWAP, with their geometry and sectors.
#![tactic(auto)]

ghost use Rattle.std.specs.Prelude.{◌≡◌, ◌<◌, length};
ghost use Rattle.flash.specs.Sizes.{firmware, partition_size, Limits, geometry_answer, geometry_of};
ghost use Rattle.flash.specs.Sectors.{SectorAt};
ghost use Rattle.flash.specs.Buffers.{lent, partition_of, flash_of};

// The number of a sector in its partition, from 0.
#[derive(Clone, Copy)]
pub struct SectorNumber(pub usize);

// A place in a partition. `offset_of` makes it from a sector number.
#[derive(Clone, Copy)]
pub struct ByteOffset(pub usize);

// A partition has `sectors` sectors of `size` bytes, document 01's n and S. The last is its trailer sector: it holds the status byte
// and, in UPDATE, the sector flags. The others are its firmware sectors.
// No invariant holds the limits: the definitions speak of a geometry of any two numbers (flash/geometry_of, exchange/arm_command).
#[derive(Clone, Copy)]
pub struct Geometry {
    pub sectors: usize,
    pub size: usize,
}

impl Geometry {
    pub const MIN_SECTORS: usize = 2;

    pub const MAX_SECTORS: usize = 512;

    pub const MIN_SIZE: usize = 256;

    pub const MAX_SIZE: usize = 131072;

    pub const SIZE_UNIT: usize = 256;

    // The geometry of `sectors` sectors of `size` bytes, if it is within the limits.
    pub fn new(sectors: usize, size: usize) -> Option<Geometry>
        ensures { geometry_answer result ≡ geometry_of sectors size }
    {
        if sectors < Geometry::MIN_SECTORS {
            return None;
        }
        if Geometry::MAX_SECTORS < sectors {
            return None;
        }
        if size < Geometry::MIN_SIZE {
            return None;
        }
        if Geometry::MAX_SIZE < size {
            return None;
        }
        if size % Geometry::SIZE_UNIT != 0 {
            return None;
        }
        // The trailer fits one sector: a status byte, and half a byte for each firmware sector, rounded up.
        let m = sectors - 1;
        if size < 1 + (m + 1) / 2 {
            return None;
        }
        Some(Geometry { sectors, size })
    }

    // Document 01's m, which is also the number of the trailer sector.
    #[tactic(auto, unfolding(crate::specs::Sizes::firmware))]
    pub fn firmware_sectors(self) -> usize
        requires { Limits self }
        ensures { result ≡ firmware self }
    {
        self.sectors - 1
    }
}

// Where a sector begins: the one multiplication of a sector number by the sector size.
pub fn offset_of(g: Geometry, i: SectorNumber) -> ByteOffset
    requires { (Limits g) × (i.0 < g.sectors) }
    ensures { SectorAt g i.0 result.0 }
{
    ByteOffset(i.0 * g.size)
}

// The bytes of a partition: those before its trailer sector, and the trailer sector.
#[tactic(auto, using(crate::proofs::Checked::sectors_are, crate::proofs::Checked::size_split))]
pub fn partition_size(g: Geometry) -> usize
    requires { Limits g }
    ensures { result ≡ partition_size g }
{
    offset_of(g, SectorNumber(g.firmware_sectors())).0 + g.size
}

// The geometry of `sectors` sectors of `size` bytes, if it is within the limits and `partition` is one of its partitions.
pub fn check_partition(sectors: usize, size: usize, partition: &[u8]) -> Option<Geometry>
    ensures { geometry_answer result ≡ partition_of sectors size partition.now }
{
    let g = Geometry::new(sectors, size)?;
    if partition.len() != partition_size(g) {
        return None;
    }
    Some(g)
}

// The geometry of `sectors` sectors of `size` bytes, if it is within the limits and the three buffers have its lengths.
pub fn check_flash(
    sectors: usize,
    size: usize,
    boot: &[u8],
    update: &[u8],
    swap: &[u8],
) -> Option<Geometry>
    ensures { geometry_answer result ≡ flash_of sectors size (lent boot.entry update.entry swap.entry) }
{
    let g = check_partition(sectors, size, boot)?;
    if update.len() != boot.len() {
        return None;
    }
    if swap.len() != g.size {
        return None;
    }
    Some(g)
}
