// Document 02, "Keep the front": what is carried from operation to operation, and the operation that is next by it.
#![tactic(auto)]

ghost use Rattle.std.specs.Prelude.{◌≡◌, ◌≤◌, ◌<◌};
ghost use Rattle.flash.specs.Sizes.{firmware, most_sectors};
ghost use Rattle.flash.specs.Sectors.{Partition, sector_number};
ghost use Rattle.exchange_front.specs.Inner.{front_after, progress_after};
ghost use Rattle.exchange_front.specs.Carried.{begun, next_at};

use exchange::{Job, Operation};
use flash::{Geometry, SectorNumber};
use flash_flags::Flag;

// How far the work of a power-up has come, by value from operation to operation: the front, which is the first firmware sector whose flag
// is not 0, or m where all are 0; the phase within its leg; and the budget left.
#[derive(Clone, Copy)]
pub struct Progress {
    pub front: SectorNumber,
    // A number, not an enum: the rules (exchange/run) and FrontFollows speak of every number as a phase.
    pub phase: u8,
    pub left: u64,
}

// At the start of the work: the front is worked out anew, and a leg begins at its top. The checks before the work have read the flags once;
// this is the power-up's second scan, and its last.
pub fn begin(g: Geometry, update: &[u8], budget: u64) -> Progress
    requires { Partition g update.now }
    ensures { result ≡ begun g update.now budget }
{
    let front = flash_flags::find_front(g, update);
    Progress {
        front,
        phase: 0,
        left: budget,
    }
}

// The front after an operation.
fn front_after(op: Operation, front: SectorNumber) -> SectorNumber
    requires { front.0 < most_sectors }
    ensures { result ≡ sector_number (front_after op front.0) }
{
    match op {
        Operation::WriteFlag(_, Flag::Exchanged) => SectorNumber(front.0 + 1),
        Operation::EraseUpdateTrailer => SectorNumber(0),
        _ => front,
    }
}

// What is carried on from an operation.
pub fn carry_on(at: Progress, op: Operation) -> Progress
    requires { (at.front.0 < most_sectors) × (0 < at.left) }
    ensures { result ≡ progress_after at op }
{
    Progress {
        front: front_after(op, at.front),
        phase: exchange_order::phase_after(op),
        left: at.left - 1,
    }
}

// The operation that is next. Of the flags the front's is read, and none where the front is m.
pub fn find_next(
    g: Geometry,
    job: Job,
    at: Progress,
    boot: &[u8],
    update: &[u8],
) -> Option<Operation>
    requires { (Partition g boot.now) × (Partition g update.now) × (at.front.0 ≤ firmware g) }
    ensures { result ≡ next_at job g at boot.now update.now }
{
    let (b, u) = flash_status::read_statuses(g, boot, update)?;
    let flags = flash_flags::flags_by_front(g, update, at.front);
    exchange_order::next_operation(job, at.phase, b, u, flags)
}
