// The sector flags of document 01, in the trailer sector of UPDATE.
#![tactic(auto)]

ghost use Rattle.std.specs.Prelude.{◌≡◌, ◌-◌, ◌≤◌, ◌<◌};
ghost use Rattle.std.specs.Result.{result_ok};
ghost use Rattle.flash.specs.Sizes.{firmware, Limits};
ghost use Rattle.flash.specs.Sectors.{Partition, sector_number};
ghost use Rattle.flash_flags.specs.SectorFlags.{flag_value, leg_flag, flag_of, flag_byte, half, with_half, flag_at, set_flag};
ghost use Rattle.flash_flags.specs.SectorFlags.{flags_from, is_f, all_f, flags_at};
ghost use Rattle.flash_flags.specs.Front.{is0, front, by_front};

use flash::{ByteOffset, Geometry, SectorNumber};

// A firmware sector's flag, document 01's F, 7, 3 and 0: nothing is done; UPDATE's sector is saved in SWAP; BOOT's is moved to UPDATE;
// the two are exchanged.
#[derive(Clone, Copy, PartialEq, Eq)]
pub enum Flag {
    Untouched,
    Saved,
    Moved,
    Exchanged,
}

impl Flag {
    pub const UNTOUCHED: u8 = 0xF;

    pub const SAVED: u8 = 0x7;

    pub const MOVED: u8 = 0x3;

    pub const EXCHANGED: u8 = 0x0;
}

// A half byte that is no flag.
#[derive(Clone, Copy, PartialEq, Eq)]
pub struct UnknownFlag;

impl TryFrom<u8> for Flag {
    type Error = UnknownFlag;

    ghost try_from_gives = { λ half r. result_ok r ≡ flag_of half };

    #[tactic(auto, unfolding(crate::specs::SectorFlags::flag_of))]
    fn try_from(half: u8) -> Result<Flag, UnknownFlag> {
        match half {
            Flag::UNTOUCHED => Ok(Flag::Untouched),
            Flag::SAVED => Ok(Flag::Saved),
            Flag::MOVED => Ok(Flag::Moved),
            Flag::EXCHANGED => Ok(Flag::Exchanged),
            _ => Err(UnknownFlag),
        }
    }
}

impl From<Flag> for u8 {
    ghost from_gives = { λ flag half. half ≡ flag_value flag };

    fn from(flag: Flag) -> u8 {
        match flag {
            Flag::Untouched => Flag::UNTOUCHED,
            Flag::Saved => Flag::SAVED,
            Flag::Moved => Flag::MOVED,
            Flag::Exchanged => Flag::EXCHANGED,
        }
    }
}

// Where the byte is that holds the flag of firmware sector i: before the status byte, two flags to a byte.
#[tactic(auto, using(crate::proofs::Room::flag_room), unfolding(crate::specs::SectorFlags::flag_byte))]
pub fn flag_offset(g: Geometry, i: SectorNumber) -> ByteOffset
    requires { (Limits g) × (i.0 < firmware g) }
    ensures { result.0 ≡ flag_byte g i.0 }
{
    ByteOffset(flash::partition_size(g) - 2 - i.0 / 2)
}

// The half of the byte that holds sector i's flag: the low half for even i.
#[tactic(auto, unfolding(crate::specs::SectorFlags::half))]
fn half_of(byte: u8, i: SectorNumber) -> u8
    ensures { result ≡ half i.0 byte }
{
    if i.0 % 2 == 0 { byte % 16 } else { byte / 16 }
}

// The byte with that half set to `value`, and the other half kept.
#[tactic(auto, unfolding(crate::specs::SectorFlags::with_half))]
fn with_half(byte: u8, i: SectorNumber, value: u8) -> u8
    requires { value < 16 }
    ensures { result ≡ with_half i.0 byte value }
{
    if i.0 % 2 == 0 {
        byte / 16 * 16 + value
    } else {
        value * 16 + byte % 16
    }
}

// The flag of firmware sector i, or none for a half byte that is no flag.
#[tactic(auto, using(crate::proofs::Room::flag_inside), unfolding(crate::specs::SectorFlags::flag_at))]
pub fn read_flag(g: Geometry, update: &[u8], i: SectorNumber) -> Option<Flag>
    requires { (Partition g update.now) × (i.0 < firmware g) }
    ensures { result ≡ flag_at g update.now i.0 }
{
    let at = flag_offset(g, i).0;
    Flag::try_from(half_of(update[at], i)).ok()
}

// Sets the flag of firmware sector i: its half byte, and no other.
#[tactic(auto, using(crate::proofs::Room::flag_inside), unfolding(crate::specs::SectorFlags::set_flag))]
pub fn write_flag(g: Geometry, update: &mut [u8], i: SectorNumber, flag: Flag)
    requires { (Partition g update.old) × (i.0 < firmware g) }
    ensures { update.new ≡ set_flag g i.0 flag update.old }
{
    let at = flag_offset(g, i).0;
    update[at] = with_half(update[at], i, u8::from(flag));
}

// Document 01's leg: erase, copy and flag write of one sector, named by its copy. The flag shows which is next: F, 7 and 3, in this order.
#[derive(Clone, Copy)]
pub enum Leg {
    UpdateToSwap,
    BootToUpdate,
    SwapToBoot,
}

impl Leg {
    // The flag that shows it.
    pub fn flag(self) -> Flag
        ensures { result ≡ leg_flag self }
    {
        match self {
            Leg::UpdateToSwap => Flag::Untouched,
            Leg::BootToUpdate => Flag::Saved,
            Leg::SwapToBoot => Flag::Moved,
        }
    }
}

// What the flags of the firmware sectors show: not well formed; all F; the first sector whose flag is not 0 with its leg, 0 before it
// and F after it; all 0.
#[derive(Clone, Copy)]
pub enum Flags {
    Malformed,
    AllF,
    At(SectorNumber, Leg),
    All0,
}

// The flags of the firmware sectors from `start` on are F only.
fn untouched_from(g: Geometry, update: &[u8], start: SectorNumber) -> bool
    requires { Partition g update.now }
    ensures { result ≡ all_f (flags_from g update.now (firmware g - start.0) start.0) }
{
    (start.0..g.firmware_sectors()).all(|i| read_flag(g, update, SectorNumber(i))
        == Some(Flag::Untouched))
}

// The front of document 02: the first firmware sector whose flag is not 0, or m where all are 0, found by a scan from sector 0 up.
pub fn find_front(g: Geometry, update: &[u8]) -> SectorNumber
    requires { Partition g update.now }
    ensures { result ≡ sector_number (front g update.now) }
{
    let m = g.firmware_sectors();
    let front = (0..m).find(|i| read_flag(g, update, SectorNumber(*i)) != Some(Flag::Exchanged));
    SectorNumber(front.unwrap_or(m))
}

// What the flags show if `front` is the front and those after it are F only. No flag but the front's own is read.
pub fn flags_by_front(g: Geometry, update: &[u8], front: SectorNumber) -> Flags
    requires { (Partition g update.now) × (front.0 ≤ firmware g) }
    ensures { result ≡ by_front (firmware g) front.0 (flag_at g update.now front.0) }
{
    if front.0 == g.firmware_sectors() {
        return Flags::All0;
    }
    match read_flag(g, update, front) {
        Some(Flag::Untouched) if front.0 == 0 => Flags::AllF,
        Some(Flag::Untouched) => Flags::At(front, Leg::UpdateToSwap),
        Some(Flag::Saved) => Flags::At(front, Leg::BootToUpdate),
        Some(Flag::Moved) => Flags::At(front, Leg::SwapToBoot),
        // No front has flag 0.
        Some(Flag::Exchanged) => Flags::Malformed,
        None => Flags::Malformed,
    }
}

// What the flags of the firmware sectors show.
pub fn read_flags(g: Geometry, update: &[u8]) -> Flags
    requires { Partition g update.now }
    ensures { result ≡ flags_at g update.now }
{
    let front = find_front(g, update);
    if untouched_from(g, update, SectorNumber(front.0 + 1)) {
        flags_by_front(g, update, front)
    } else {
        Flags::Malformed
    }
}
