// Sectors: erase and copy, of a lent sector and of a sector by its number; the firmware sectors of a partition.
#![tactic(auto)]

ghost use Rattle.std.specs.Prelude.{◌≡◌, ◌<◌, length};
ghost use Rattle.flash.specs.Sizes.{partition_size};
ghost use Rattle.flash.specs.Sectors.{Partition, sector_of, write_sector, firmware_of, erased};
ghost use Rattle.flash_sectors.specs.Copying.{copied, copy_of};

use flash::{Geometry, SectorNumber};

// Erases a sector, which is lent itself: a part of BOOT or of UPDATE from the sector's offset on, or SWAP.
#[tactic(auto, unfolding(flash::specs::Sectors::erased))]
pub fn erase(sector: &mut [u8])
    ensures { sector.new ≡ erased (length sector.old) }
{
    sector.fill(0xFF);
}

// The two sectors of a copy differ in length. No byte is changed then.
#[derive(Clone, Copy, PartialEq, Eq)]
pub struct UnequalLengths;

// Copies one sector over another; both are lent themselves, as for an erase.
#[tactic(auto, unfolding(crate::specs::Copying::copy_of))]
pub fn copy(target: &mut [u8], source: &[u8]) -> Result<(), UnequalLengths>
    ensures { copied result target.new ≡ copy_of target.old source.now }
{
    if target.len() != source.len() {
        return Err(UnequalLengths);
    }
    // Not `copy_from_slice`, which calls `memmove`: a board has `memcpy` and `memset` alone.
    for i in 0..target.len() {
        target[i] = source[i];
    }
    Ok(())
}

// Erases sector i of a partition.
#[tactic(auto, using(crate::proofs::Lent::part_erased))]
pub fn erase_sector(g: Geometry, partition: &mut [u8], i: SectorNumber)
    requires { (Partition g partition.old) × (i.0 < g.sectors) }
    ensures { partition.new ≡ write_sector g i.0 (erased g.size) partition.old }
{
    let start = flash::offset_of(g, i).0;
    let size = g.size;
    erase(&mut partition[start..start + size]);
}

// Copies sector i of a partition to SWAP.
pub fn copy_to_swap(g: Geometry, swap: &mut [u8], partition: &[u8], i: SectorNumber)
    requires { (Partition g partition.now) × (i.0 < g.sectors) × (length swap.old ≡ g.size) }
    ensures { swap.new ≡ sector_of g i.0 partition.now }
{
    let start = flash::offset_of(g, i).0;
    let size = g.size;
    let _ = copy(swap, &partition[start..start + size]);
}

// Copies SWAP to sector i of a partition.
pub fn copy_from_swap(g: Geometry, partition: &mut [u8], swap: &[u8], i: SectorNumber)
    requires { (Partition g partition.old) × (i.0 < g.sectors) × (length swap.now ≡ g.size) }
    ensures { partition.new ≡ write_sector g i.0 swap.now partition.old }
{
    let start = flash::offset_of(g, i).0;
    let size = g.size;
    let _ = copy(&mut partition[start..start + size], swap);
}

// Copies sector i of one partition to sector i of the other.
pub fn copy_sector(g: Geometry, target: &mut [u8], source: &[u8], i: SectorNumber)
    requires { (Partition g target.old) × (i.0 < g.sectors) × (length source.now ≡ partition_size g) }
    ensures { target.new ≡ write_sector g i.0 (sector_of g i.0 source.now) target.old }
{
    let start = flash::offset_of(g, i).0;
    let size = g.size;
    let _ = copy(
        &mut target[start..start + size],
        &source[start..start + size],
    );
}

// The firmware sectors of a partition.
#[tactic(auto, using(flash::proofs::Checked::sectors_are))]
pub fn firmware_part(g: Geometry, partition: &[u8]) -> &[u8]
    requires { Partition g partition.now }
    ensures { result.now ≡ firmware_of g partition.now }
{
    let end = flash::offset_of(g, SectorNumber(g.firmware_sectors())).0;
    &partition[..end]
}
