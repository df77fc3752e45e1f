// The check of a firmware image: its header, its size and its digest.
#![tactic(auto)]

ghost use Rattle.std.specs.Prelude.{◌≡◌, ◌≤◌, ◌++◌, length};
ghost use Rattle.digest_fips180.specs.Sha256.{sha256};
ghost use Rattle.flash.specs.Sectors.{Partition, firmware_of};
ghost use Rattle.header_tags.specs.Bytes.{same};
ghost use Rattle.header_places.specs.Table.{document_table};
ghost use Rattle.header_places.specs.Judging.{TagsFit};
ghost use Rattle.header_reader.specs.Reading.{values_at};
ghost use Rattle.numbers.specs.GivenBack.{image_answer};
ghost use Rattle.image.specs.Check.{judged, image_in, check_image};
ghost use Rattle.image.specs.Verdict.{release_of, released};

use flash::Geometry;
use header_places::ROWS;
use header_reader::Header;
use numbers::{HeaderRefusal, ImageRefusal};

// What a power-up and its kin need of a good image.
#[derive(Clone, Copy, PartialEq, Eq)]
pub struct Release {
    pub version: u32,
    // The firmware's size in bytes.
    pub size: u32,
    // Unix seconds.
    pub timestamp: u64,
}

// ---- the check, where the image lies

// What stands in the header before the digest's tag, and then the firmware, have the digest that is stated.
fn has_digest(before: &[u8], firmware: &[u8], stated: &[u8]) -> bool
    ensures { result ≡ same (sha256 (before.now ++ firmware.now)) stated.now }
{
    let digest = digest_sha256::digest_of_two(before, firmware);
    digest.as_slice() == stated
}

// The release of a header whose tags stand at these places.
fn read_release(h: &[u8], places: [usize; ROWS]) -> Release
    requires { TagsFit document_table places (length h.now) }
    ensures { result ≡ release_of (values_at h.now places) }
{
    let [version, timestamp, ..] = places;
    Release {
        version: header_reader::read_u32(h, version + 4),
        size: header_reader::read_u32(h, 4),
        timestamp: header_reader::read_u64(h, timestamp + 4),
    }
}

// The image whose header has its tags at these places. What the digest covers is digested where it lies, and the digest that is stated
// is compared where it stands.
fn judge_at(b: &[u8], places: [usize; ROWS]) -> Result<Release, ImageRefusal>
    requires { (256 ≤ length b.now) × TagsFit document_table places 256 }
    ensures { image_answer result ≡ released (judged b.now places) }
{
    let h = &b[..header_tags::HEADER_LENGTH];
    let size = header_reader::read_u32(h, 4) as usize;
    if b.len() - header_tags::HEADER_LENGTH < size {
        return Err(ImageRefusal::BadHeader(HeaderRefusal::WrongSize));
    }
    let end = header_tags::HEADER_LENGTH + size;
    let at = places[2];
    if has_digest(
        &b[..at],
        &b[header_tags::HEADER_LENGTH..end],
        &h[at + 4..at + 36],
    ) {
        return Ok(read_release(h, places));
    }
    Err(ImageRefusal::WrongDigest)
}

// The image in the bytes of the firmware sectors.
pub fn judge(b: &[u8]) -> Result<Release, ImageRefusal>
    ensures { image_answer result ≡ released (image_in b.now) }
{
    let places = header_reader::locate(b)?;
    judge_at(b, places)
}

// The image of a partition.
pub fn judge_partition(g: Geometry, partition: &[u8]) -> Result<Release, ImageRefusal>
    requires { Partition g partition.now }
    ensures { image_answer result ≡ released (image_in (firmware_of g partition.now)) }
{
    judge(flash_sectors::firmware_part(g, partition))
}

// ---- the check that hands back the header's values

// The image in the bytes of the firmware sectors: its header is read where the image is good.
pub fn check_firmware(b: &[u8]) -> Result<Header, ImageRefusal>
    ensures { image_answer result ≡ image_in b.now }
{
    judge(b)?;
    Ok(header_reader::read_header(b)?)
}

// The image of a partition of `sectors` sectors of `size` bytes: any numbers and any length are taken.
pub fn check_image(sectors: usize, size: usize, partition: &[u8]) -> Result<Header, ImageRefusal>
    ensures { image_answer result ≡ check_image sectors size partition.now }
{
    let Some(g) = flash::check_partition(sectors, size, partition) else {
        return Err(ImageRefusal::OutsideRules);
    };
    check_firmware(flash_sectors::firmware_part(g, partition))
}
