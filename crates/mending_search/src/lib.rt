// The search for the first mark that fits. The two old headers are the same for all marks behind sector 0, and the hash values of the
// sectors before the mark are carried from mark to mark.
#![tactic(auto)]

ghost use Rattle.std.specs.Prelude.{◌≡◌, ◌+◌, ◌*◌, ◌/◌, ◌≤◌, Some};
ghost use Rattle.numbers.specs.Answer.{refused};
ghost use Rattle.flash.specs.Sizes.{firmware};
ghost use Rattle.image.specs.Verdict.{check_of};
ghost use Rattle.mending.specs.declared.Mark.TheVariants.{All0};
ghost use Rattle.mending.specs.Marks.{Among, moves_of, marks};
ghost use Rattle.mending.specs.OldImages.{fits_mark};
ghost use Rattle.mending.specs.Mending.{first_fitting};
ghost use Rattle.mending_images.specs.Claims.{claims_under};
ghost use Rattle.mending_images.specs.Lent.{lent_flash, hash_of};
ghost use Rattle.mending_search.specs.Search.{first_from, found_or};

use digest_sha256::H0;
use flash::SectorNumber;
use flash_flags::Leg;
use mending::{Mark, OldImage};
use mending_images::{Claim, ClaimedImage, FlashRef};

// How many marks each sector has: F, 7 and 3.
const LEGS: usize = 3;

// The mark of m firmware sectors that has `moves` moves behind it.
fn mark_after(m: usize, moves: usize) -> Mark
    requires { moves ≤ 3 * m }
    ensures { (Among m result) × (moves_of m result ≡ moves) }
{
    let i = moves / LEGS;
    if i == m {
        return Mark::All0;
    }
    let leg = match moves % LEGS {
        0 => Leg::UpdateToSwap,
        1 => Leg::BootToUpdate,
        _ => Leg::SwapToBoot,
    };
    Mark::At(SectorNumber(i), leg)
}

// ---- the marks of sector 0

// The mark fits.
fn fits<'a>(flash: &'a FlashRef<'a>, mark: Mark) -> bool
    ensures { result ≡ fits_mark check_of flash.now.geometry (lent_flash flash.now) mark }
{
    match flash.read_claims(mark) {
        Some((u, b)) => {
            let update = ClaimedImage {
                flash,
                image: OldImage::Update,
                claim: u,
            };
            let boot = ClaimedImage {
                flash,
                image: OldImage::Boot,
                claim: b,
            };
            let first = SectorNumber(0);
            update.has_digest(mark, first, H0) && boot.has_digest(mark, first, H0)
        }
        None => false,
    }
}

// The first of the marks of sector 0 that fits. Each has headers of its own.
fn search_first<'a>(flash: &'a FlashRef<'a>) -> Option<Mark>
    ensures { found_or result (first_from 3 flash.now.geometry (lent_flash flash.now))
        ≡ first_from 0 flash.now.geometry (lent_flash flash.now) }
{
    let m = flash.geometry.firmware_sectors();
    for moves in 0..LEGS {
        let mark = mark_after(m, moves);
        if fits(flash, mark) {
            return Some(mark);
        }
    }
    None
}

// ---- the marks behind sector 0

// The hash value for the next mark: behind the last mark of a sector it takes in that sector, which is exchanged under all later marks.
fn hash_on(old: &ClaimedImage, moves: usize, h: [u32; 8]) -> [u32; 8]
    requires { (moves ≤ 3 * firmware old.now.flash.now.geometry) × (h ≡ hash_of old.now All0 (moves / 3)) }
    ensures { result ≡ hash_of old.now All0 ((moves + 1) / 3) }
{
    if moves % LEGS == LEGS - 1 {
        return old.hash_sector(Mark::All0, SectorNumber(moves / LEGS), h);
    }
    h
}

// The first of the marks behind sector 0 that fits, by the claims of their headers: UPDATE's u, and BOOT's b.
fn search_behind<'a>(flash: &'a FlashRef<'a>, u: Claim, b: Claim) -> Option<Mark>
    requires { claims_under flash.now.geometry All0 (lent_flash flash.now) ≡ Some (u, b) }
    ensures { found_or result (refused 17 0) ≡ first_from 3 flash.now.geometry (lent_flash flash.now) }
{
    let update = ClaimedImage {
        flash,
        image: OldImage::Update,
        claim: u,
    };
    let boot = ClaimedImage {
        flash,
        image: OldImage::Boot,
        claim: b,
    };
    let m = flash.geometry.firmware_sectors();
    let mut d = H0;
    let mut e = H0;
    for moves in LEGS - 1..LEGS * m {
        let x = hash_on(&update, moves, d);
        d = x;
        let y = hash_on(&boot, moves, e);
        e = y;
        let mark = mark_after(m, moves + 1);
        let i = SectorNumber((moves + 1) / LEGS);
        if update.has_digest(mark, i, d) && boot.has_digest(mark, i, e) {
            return Some(mark);
        }
    }
    None
}

// The first mark that fits. Behind sector 0 none does where the headers do not.
pub fn first_fitting<'a>(flash: &'a FlashRef<'a>) -> Option<Mark>
    ensures { found_or result (refused 17 0)
        ≡ first_fitting (fits_mark check_of flash.now.geometry (lent_flash flash.now)) (marks (firmware flash.now.geometry)) }
{
    if let Some(mark) = search_first(flash) {
        return Some(mark);
    }
    let (u, b) = flash.read_claims(Mark::All0)?;
    search_behind(flash, u, b)
}
