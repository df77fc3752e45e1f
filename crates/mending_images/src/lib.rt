// The check of the two old images that a mark shows, where their sectors lie in the three buffers: first what the headers state, then
// the digests, sector by sector.
#![tactic(auto)]

ghost use Rattle.std.specs.Prelude.{◌≡◌, ◌+◌, ◌≤◌, ◌<◌, length};
ghost use Rattle.flash.specs.Sizes.{firmware, Limits};
ghost use Rattle.digest_fips180.specs.Sha256.{sha256};
ghost use Rattle.header_places.specs.Table.{document_table};
ghost use Rattle.header_places.specs.Judging.{TagsFit};
ghost use Rattle.exchange.specs.Operations.{get};
ghost use Rattle.mending_images.specs.Claims.{claim_at, claim_within, claim_in, claims_under, covered_by, has_digest};
ghost use Rattle.mending_images.specs.Parts.{firmware_in, bytes_before};
ghost use Rattle.mending_images.specs.Lent.{lent_flash, sector_in, bytes_of, hash_of};

mod claimed_image;
mod flash_ref;

pub use claimed_image::ClaimedImage;
use exchange::Area;
use flash::{Geometry, SectorNumber};
pub use flash_ref::FlashRef;
use header_places::ROWS;
use header_tags::HEADER_LENGTH;
use mending::{Mark, OldImage};

// ---- what the headers state

// What an image's header states: its version, where the firmware behind it ends, and where the digest's tag begins.
#[derive(Clone, Copy)]
pub struct Claim {
    pub version: u32,
    pub end: usize,
    pub digest: usize,
}

// What a header states whose tags stand at these places, if its firmware ends at `limit` at the latest.
fn claim_at(first: &[u8], places: [usize; ROWS], limit: usize) -> Option<Claim>
    requires { (256 ≤ length first.now) × TagsFit document_table places 256 }
    ensures { result ≡ claim_within limit (claim_at first.now places) }
{
    let h = &first[..HEADER_LENGTH];
    let version = places[0];
    let digest = places[2];
    let end = HEADER_LENGTH + header_reader::read_u32(h, 4) as usize;
    if limit < end {
        return None;
    }
    Some(Claim {
        version: header_reader::read_u32(h, version + 4),
        end,
        digest,
    })
}

// What the header at the front of an image states, if the reader takes it and its firmware ends at `limit` at the latest.
fn read_claim(first: &[u8], limit: usize) -> Option<Claim>
    ensures { result ≡ claim_in limit first.now }
{
    let places = header_reader::locate(first).ok()?;
    claim_at(first, places, limit)
}

// ---- the sectors of an old image

impl<'a> FlashRef<'a> {
    // Sector i of an area.
    fn sector(&self, area: Area, i: SectorNumber) -> &'a [u8]
        requires { i.0 < self.now.geometry.sectors }
        ensures { result.now ≡ get self.now.geometry area i.0 (lent_flash self.now) }
    {
        let start = flash::offset_of(self.geometry, i).0;
        let size = self.geometry.size;
        match area {
            Area::Boot => &self.boot[start..start + size],
            Area::Update => &self.update[start..start + size],
            Area::Swap => self.swap,
        }
    }

    // Sector i of an old image, as the mark shows it.
    fn old_sector(&self, image: OldImage, mark: Mark, i: SectorNumber) -> &'a [u8]
        requires { i.0 < firmware self.now.geometry }
        ensures { result.now ≡ sector_in self.now image mark i.0 }
    {
        self.sector(image.place(mark.flag_of(i)), i)
    }

    // What the headers of both old images state under a mark, UPDATE's first, if both are taken and UPDATE's version is greater.
    pub fn read_claims(&self, mark: Mark) -> Option<(Claim, Claim)>
        ensures { result ≡ claims_under self.now.geometry mark (lent_flash self.now) }
    {
        let g = self.geometry;
        let limit = flash::offset_of(g, SectorNumber(g.firmware_sectors())).0;
        let first = SectorNumber(0);
        let update = read_claim(self.old_sector(OldImage::Update, mark, first), limit)?;
        let boot = read_claim(self.old_sector(OldImage::Boot, mark, first), limit)?;
        if boot.version < update.version {
            return Some((update, boot));
        }
        None
    }
}

// What sector i has of the bytes of an image from behind its header to place `end`.
fn firmware_in(g: Geometry, sector: &[u8], i: SectorNumber, end: usize) -> &[u8]
    requires { (Limits g) × (i.0 < g.sectors) × (length sector.now ≡ g.size) × (256 ≤ end) }
    ensures { result.now ≡ firmware_in g.size i.0 end sector.now }
{
    let at = flash::offset_of(g, i).0;
    let from = HEADER_LENGTH.saturating_sub(at);
    let to = end.saturating_sub(at).min(sector.len());
    &sector[from..to]
}

// ---- the digests

impl<'a> ClaimedImage<'a> {
    // Sector i, as the mark shows it.
    fn sector(&self, mark: Mark, i: SectorNumber) -> &'a [u8]
        requires { i.0 < firmware self.now.flash.now.geometry }
        ensures { result.now ≡ sector_in self.now.flash.now self.now.image mark i.0 }
    {
        self.flash.old_sector(self.image, mark, i)
    }

    // What sector i has of the firmware.
    fn firmware(&self, mark: Mark, i: SectorNumber) -> &'a [u8]
        requires { i.0 < firmware self.now.flash.now.geometry }
        ensures { result.now ≡ firmware_in self.now.flash.now.geometry.size i.0 self.now.claim.end (sector_in self.now.flash.now self.now.image mark i.0) }
    {
        firmware_in(self.flash.geometry, self.sector(mark, i), i, self.claim.end)
    }

    // What stands before the firmware of sector i and is in no hash value: in sector 0 the header's bytes before the digest's tag; before
    // another sector what is left of them, and of the firmware, behind the last whole block.
    #[tactic(auto, using(mending::proofs::Images::old_sector_length))]
    fn bytes_before(&self, mark: Mark, i: SectorNumber) -> &'a [u8]
        requires { i.0 < firmware self.now.flash.now.geometry }
        ensures { result.now ≡ bytes_before self.now.flash.now.geometry self.now.image mark (lent_flash self.now.flash.now) self.now.claim.digest i.0 }
    {
        let g = self.flash.geometry;
        let digest = self.claim.digest;
        if i.0 == 0 {
            let first = self.sector(mark, i);
            return &first[..digest];
        }
        let before = self.sector(mark, SectorNumber(i.0 - 1));
        let n = digest % 64;
        if flash::offset_of(g, i).0 == HEADER_LENGTH {
            return &before[digest - n..digest];
        }
        &before[g.size - n..]
    }

    // The hash value that has taken in sector i too. The sector in which the firmware ends is left to the digest.
    pub fn hash_sector(&self, mark: Mark, i: SectorNumber, h: [u32; 8]) -> [u32; 8]
        requires { (i.0 < firmware self.now.flash.now.geometry) × (h ≡ hash_of self.now mark i.0) }
        ensures { result ≡ hash_of self.now mark (i.0 + 1) }
    {
        if (self.claim.end - 1) / self.flash.geometry.size <= i.0 {
            return h;
        }
        digest_sha256::hash_of_two(h, self.bytes_before(mark, i), self.firmware(mark, i))
    }

    // The hash value that has taken in all sectors before the one in which the firmware ends. d has taken in those before `start`.
    fn hash_rest(&self, mark: Mark, start: SectorNumber, d: [u32; 8]) -> [u32; 8]
        requires { (start.0 ≤ firmware self.now.flash.now.geometry) × (d ≡ hash_of self.now mark start.0) }
        ensures { result ≡ hash_of self.now mark (firmware self.now.flash.now.geometry) }
    {
        let mut h = d;
        for i in start.0..self.flash.geometry.firmware_sectors() {
            let next = self.hash_sector(mark, SectorNumber(i), h);
            h = next;
        }
        h
    }

    // The digest of what the image's digest covers. h has taken in the sectors before the one in which the firmware ends.
    fn end_digest(&self, mark: Mark, h: [u32; 8]) -> [u8; 32]
        requires { h ≡ hash_of self.now mark (firmware self.now.flash.now.geometry) }
        ensures { result ≡ sha256 (covered_by self.now.claim (bytes_of self.now mark)) }
    {
        let end = self.claim.end;
        let last = SectorNumber((end - 1) / self.flash.geometry.size);
        let count = (self.claim.digest + end - HEADER_LENGTH) as u64;
        digest_sha256::digest_from_two(
            h,
            self.bytes_before(mark, last),
            self.firmware(mark, last),
            count,
        )
    }

    // The image has the digest that its header states. d has taken in the sectors before `start`.
    pub fn has_digest(&self, mark: Mark, start: SectorNumber, d: [u32; 8]) -> bool
        requires { (start.0 ≤ firmware self.now.flash.now.geometry) × (d ≡ hash_of self.now mark start.0) }
        ensures { result ≡ has_digest (bytes_of self.now mark) self.now.claim }
    {
        let h = self.hash_rest(mark, start, d);
        let digest = self.end_digest(mark, h);
        let first = self.sector(mark, SectorNumber(0));
        let at = self.claim.digest + 4;
        digest.as_slice() == &first[at..at + 32]
    }
}
