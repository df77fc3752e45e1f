// Mending lost sector flags in UPDATE, beside BOOT and SWAP, which are only read.
#![tactic(auto)]

ghost use Rattle.std.specs.Prelude.{◌≡◌};
ghost use Rattle.flash.specs.Sectors.{Partition};
ghost use Rattle.flash.specs.Buffers.{flash};
ghost use Rattle.mending.specs.Mending.{may_mend};
ghost use Rattle.mend.specs.Delivered.{MendDelivers};
ghost use Rattle.mend.specs.Inner.{code_answer, permit_at};

use flash::Geometry;
use flash_status::{BootStatus, UpdateStatus};
use mending::Mark;
use mending_images::FlashRef;
use numbers::MendRefusal;

// What was mended: the mark whose flags stand now, and how many flag bytes differ from before.
#[derive(Clone, Copy)]
pub struct Mended {
    pub mark: Mark,
    pub bytes: usize,
}

// UPDATE has to be UPDATING, and BOOT NEW or SUCCESS.
fn permit_pair(b: BootStatus, u: UpdateStatus) -> Result<(), MendRefusal>
    ensures { code_answer result ≡ may_mend b u }
{
    match (b, u) {
        (BootStatus::New | BootStatus::Success, UpdateStatus::Updating) => Ok(()),
        (BootStatus::Testing, UpdateStatus::Updating) => Err(MendRefusal::WrongTime),
        (_, UpdateStatus::New) => Err(MendRefusal::WrongTime),
    }
}

// The checks after the lengths and before the marks.
fn permit(g: Geometry, boot: &[u8], update: &[u8]) -> Result<(), MendRefusal>
    requires { (Partition g boot.now) × (Partition g update.now) }
    ensures { code_answer result ≡ permit_at g boot.now update.now }
{
    let (b, u) = flash_status::read_statuses(g, boot, update).ok_or(MendRefusal::StatusNotAllowed)?;
    permit_pair(b, u)
}

// Mends lost flags: those of the first mark that fits are written in UPDATE, and nothing else. Any numbers, lengths and bytes are taken.
pub fn mend<'a>(
    sectors: usize,
    size: usize,
    boot: &'a [u8],
    update: &'a mut [u8],
    swap: &'a [u8],
) -> Result<Mended, MendRefusal>
    ensures { MendDelivers sectors size (flash boot.now update.old swap.now) result update.new }
{
    let Some(geometry) = flash::check_flash(sectors, size, boot, update, swap) else {
        return Err(MendRefusal::OutsideRules);
    };
    permit(geometry, boot, update)?;
    let flash = FlashRef {
        geometry,
        boot,
        update,
        swap,
    };
    let Some(mark) = mending_search::first_fitting(&flash) else {
        return Err(MendRefusal::NoMarkFits);
    };
    let bytes = mending_flags::write_flags(geometry, update, mark);
    Ok(Mended { mark, bytes })
}
