// Mending lost sector flags, request two of document 02: the marks at which they may have stood, and in specs/ the rules.
#![tactic(auto)]

ghost use Rattle.std.specs.Prelude.{◌≡◌};
ghost use Rattle.mending.specs.declared.Mark.TheVariants.{At};
ghost use Rattle.mending.specs.Marks.{flag_under};
ghost use Rattle.mending.specs.OldImages.{place_of};

use exchange::Area;
use flash::SectorNumber;
use flash_flags::{Flag, Leg};
use std::cmp::Ordering;

// Document 02's mark: where an exchange may have stood when its flags were lost. At a sector, whose flag shows the leg, with 0 before it
// and F after it; or at its end, with all flags 0.
#[derive(Clone, Copy)]
pub enum Mark {
    At(SectorNumber, Leg),
    All0,
}

// The flag of sector i, where sector j shows the leg.
fn flag_beside(j: SectorNumber, leg: Leg, i: SectorNumber) -> Flag
    ensures { result ≡ flag_under (At j leg) i.0 }
{
    match i.0.cmp(&j.0) {
        Ordering::Less => Flag::Exchanged,
        Ordering::Equal => leg.flag(),
        Ordering::Greater => Flag::Untouched,
    }
}

impl Mark {
    // The flag of sector i.
    pub fn flag_of(self, i: SectorNumber) -> Flag
        ensures { result ≡ flag_under self i.0 }
    {
        match self {
            Mark::At(j, leg) => flag_beside(j, leg, i),
            Mark::All0 => Flag::Exchanged,
        }
    }
}

// One of the two images that the exchange began with.
#[derive(Clone, Copy)]
pub enum OldImage {
    Boot,
    Update,
}

impl OldImage {
    // Where a sector of it stands, by the sector's flag: a column of the table of places.
    pub fn place(self, flag: Flag) -> Area
        ensures { result ≡ place_of self flag }
    {
        match (self, flag) {
            (OldImage::Boot, Flag::Untouched | Flag::Saved) => Area::Boot,
            (OldImage::Boot, Flag::Moved | Flag::Exchanged) => Area::Update,
            (OldImage::Update, Flag::Untouched) => Area::Update,
            (OldImage::Update, Flag::Saved | Flag::Moved) => Area::Swap,
            (OldImage::Update, Flag::Exchanged) => Area::Boot,
        }
    }
}
