// The row of erase counts: the checks before the work, and one place raised for each erase.
#![tactic(auto)]

ghost use Rattle.std.specs.Prelude.{◌≡◌, ◌≤◌, ◌<◌, length, ltb, sum};
ghost use Rattle.std.specs.List.{list_any};
ghost use Rattle.flash.specs.Sizes.{Limits};
ghost use Rattle.flash.specs.Buffers.{lent};
ghost use Rattle.exchange_steps.specs.Inner.{SectorWithin};
ghost use Rattle.counts.specs.Row.{row_length, row_place, slot, raise, check_row};
ghost use Rattle.counts_row.specs.declared.CountsFault.TheVariants.{Row};
ghost use Rattle.counts_row.specs.Inner.{counts_answer, counted_geometry, RoomFor};

use exchange::{Area, Operation};
use flash::{Geometry, SectorNumber};
use numbers::RowRefusal;

// ---- the checks

// Why a counted call does nothing, by the checks that come first.
#[derive(Clone, Copy, PartialEq, Eq)]
pub enum CountsFault {
    // Geometry or a length outside the rules, that of the row too.
    OutsideRules,
    Row(RowRefusal),
}

impl From<RowRefusal> for CountsFault {
    ghost from_gives = { λ r f. f ≡ Row r };

    fn from(refusal: RowRefusal) -> CountsFault {
        CountsFault::Row(refusal)
    }
}

// The sum of a row.
pub fn sum_of(row: &[u32]) -> u64
    requires { length row.now ≤ 1025 }
    ensures { result ≡ sum row.now }
{
    row.iter().map(|&count| u64::from(count)).sum()
}

// Whether some count is greater than this.
fn some_above(row: &[u32], limit: u32) -> bool
    ensures { result ≡ list_any (ltb limit) row.now }
{
    row.iter().any(|&count| limit < count)
}

// The row's length; then its sum; then that each count has room for m erases.
pub fn check_row(g: Geometry, row: &[u32], total: u64) -> Result<(), CountsFault>
    requires { Limits g }
    ensures { counts_answer result ≡ check_row g row.now total }
{
    if row.len() != 2 * g.sectors + 1 {
        return Err(CountsFault::OutsideRules);
    }
    if sum_of(row) != total {
        return Err(RowRefusal::TotalWrong.into());
    }
    if some_above(row, u32::MAX - g.firmware_sectors() as u32) {
        return Err(RowRefusal::CountTooHigh.into());
    }
    Ok(())
}

// The geometry of a counted call, where the checks that come first find nothing: geometry and lengths of the flash, then row and total.
pub fn check_counted(
    sectors: usize,
    size: usize,
    boot: &[u8],
    update: &[u8],
    swap: &[u8],
    row: &[u32],
    total: u64,
) -> Result<Geometry, CountsFault>
    ensures { counts_answer result
        ≡ counted_geometry sectors size (lent boot.entry update.entry swap.entry) row.now total }
{
    let g = flash::check_flash(sectors, size, boot, update, swap).ok_or(CountsFault::OutsideRules)?;
    check_row(g, row, total)?;
    Ok(g)
}

// ---- one place for each erase

// A sector's place. SWAP is one sector, whatever i.
fn row_place(g: Geometry, area: Area, i: SectorNumber) -> usize
    requires { (Limits g) × (i.0 < g.sectors) }
    ensures { result ≡ row_place g area i.0 }
{
    match area {
        Area::Boot => i.0,
        Area::Update => g.sectors + i.0,
        Area::Swap => 2 * g.sectors,
    }
}

// The place that an operation raises, if it is an erase.
fn slot_of(g: Geometry, op: Operation) -> Option<usize>
    requires { (Limits g) × (SectorWithin g op) }
    ensures { result ≡ slot g op }
{
    match op {
        Operation::Erase(area, i) => Some(row_place(g, area, i)),
        Operation::Copy(_, _) => None,
        Operation::WriteFlag(_, _) => None,
        Operation::EraseBootTrailer => {
            Some(row_place(g, Area::Boot, SectorNumber(g.firmware_sectors())))
        }
        Operation::EraseUpdateTrailer => {
            Some(row_place(g, Area::Update, SectorNumber(g.firmware_sectors())))
        }
        Operation::WriteBootStatus(_) => None,
        Operation::WriteUpdateStatus(_) => None,
    }
}

// Counts an operation that is done: an erase raises its place.
pub fn count_done(g: Geometry, op: Operation, row: &mut [u32])
    requires { (Limits g) × (SectorWithin g op) × (length row.old ≡ row_length g) × (RoomFor (slot g op) row.old) }
    ensures { row.new ≡ raise (slot g op) row.old }
{
    if let Some(k) = slot_of(g, op) {
        row[k] += 1;
    }
}
