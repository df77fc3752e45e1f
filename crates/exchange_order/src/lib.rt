// The operation that is next, by the two statuses and the flags.
#![tactic(auto)]

ghost use Rattle.std.specs.Prelude.{◌≡◌};
ghost use Rattle.exchange.specs.Operations.{target, next_flag, leg_operation, phase_after};
ghost use Rattle.exchange.specs.Order.{closing, exchange_next, ordered};

use exchange::{Area, Job, Operation};
use flash::SectorNumber;
use flash_flags::{Flag, Flags, Leg};
use flash_status::{BootStatus, UpdateStatus};

// ---- a leg

fn target_of(leg: Leg) -> Area
    ensures { result ≡ target leg }
{
    match leg {
        Leg::UpdateToSwap => Area::Swap,
        Leg::BootToUpdate => Area::Update,
        Leg::SwapToBoot => Area::Boot,
    }
}

fn flag_after(leg: Leg) -> Flag
    ensures { result ≡ next_flag leg }
{
    match leg {
        Leg::UpdateToSwap => Flag::Saved,
        Leg::BootToUpdate => Flag::Moved,
        Leg::SwapToBoot => Flag::Exchanged,
    }
}

// The operation at a phase (0, 1, 2) of the leg of sector i.
fn leg_operation(leg: Leg, phase: u8, i: SectorNumber) -> Operation
    ensures { result ≡ leg_operation leg phase i }
{
    match phase {
        0 => Operation::Erase(target_of(leg), i),
        1 => Operation::Copy(leg, i),
        _ => Operation::WriteFlag(i, flag_after(leg)),
    }
}

// The phase within a leg after an operation.
pub fn phase_after(op: Operation) -> u8
    ensures { result ≡ phase_after op }
{
    match op {
        Operation::Erase(_, _) => 1,
        Operation::Copy(_, _) => 2,
        _ => 0,
    }
}

// ---- the order

// The closing operations of an update, by BOOT's status.
fn closing_operation(boot: BootStatus) -> Operation
    ensures { result ≡ closing boot }
{
    match boot {
        BootStatus::Success => Operation::EraseBootTrailer,
        BootStatus::New => Operation::WriteBootStatus(BootStatus::Testing),
        BootStatus::Testing => Operation::EraseUpdateTrailer,
    }
}

// The legs that the flags show, and `last` when all of them are done.
fn next_of_exchange(phase: u8, flags: Flags, last: Operation) -> Option<Operation>
    ensures { result ≡ exchange_next phase flags last }
{
    match flags {
        Flags::AllF => Some(leg_operation(Leg::UpdateToSwap, phase, SectorNumber(0))),
        Flags::At(i, leg) => Some(leg_operation(leg, phase, i)),
        Flags::All0 => Some(last),
        Flags::Malformed => None,
    }
}

// The operation that a job orders next, by the two statuses and the flags.
pub fn next_operation(
    job: Job,
    phase: u8,
    boot: BootStatus,
    update: UpdateStatus,
    flags: Flags,
) -> Option<Operation>
    ensures { result ≡ ordered job phase boot update flags }
{
    match (job, boot, update) {
        (Job::Update, _, UpdateStatus::Updating) => {
            next_of_exchange(phase, flags, closing_operation(boot))
        }
        (Job::Fallback, BootStatus::Testing, _) => next_of_exchange(
            phase,
            flags,
            Operation::WriteBootStatus(BootStatus::Success),
        ),
        (Job::TurnDown, _, UpdateStatus::Updating) => Some(Operation::EraseUpdateTrailer),
        _ => None,
    }
}
