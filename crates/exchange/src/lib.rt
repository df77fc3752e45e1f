// The exchange of BOOT and UPDATE: its single operations, its jobs, and in specs/ the rules of document 01 that order them.
#![tactic(auto)]

use flash::SectorNumber;
use flash_flags::{Flag, Leg};
use flash_status::{BootStatus, UpdateStatus};

// The three lent buffers.
#[derive(Clone, Copy)]
pub enum Area {
    Boot,
    Update,
    Swap,
}

// A single operation on the flash. A copy is named by its leg, which says from where to where.
#[derive(Clone, Copy)]
pub enum Operation {
    Erase(Area, SectorNumber),
    Copy(Leg, SectorNumber),
    WriteFlag(SectorNumber, Flag),
    EraseBootTrailer,
    EraseUpdateTrailer,
    WriteBootStatus(BootStatus),
    WriteUpdateStatus(UpdateStatus),
}

// The work of a power-up that changes the flash. Document 01 calls the last one turning down.
#[derive(Clone, Copy)]
pub enum Job {
    Update,
    Fallback,
    TurnDown,
}
