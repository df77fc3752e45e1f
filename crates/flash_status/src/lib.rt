// The status bytes of BOOT and UPDATE, each the last byte of its partition.
#![tactic(auto)]

ghost use Rattle.std.specs.Prelude.{◌≡◌, ℕ};
ghost use Rattle.flash.specs.Sizes.{Limits};
ghost use Rattle.flash.specs.Sectors.{Partition};
ghost use Rattle.flash_status.specs.StatusBytes.{status_place, status_byte, set_status_byte, status_answer, statuses_answer, both_statuses};
ghost use Rattle.flash_status.specs.StatusBytes.{boot_byte, boot_status_of, boot_status_at, update_byte, update_status_of, update_status_at};

use flash::{ByteOffset, Geometry};

// A byte that is no status of its partition.
#[derive(Clone, Copy, PartialEq, Eq)]
pub struct UnknownStatus;

// What BOOT's status byte may hold.
#[derive(Clone, Copy, PartialEq, Eq)]
pub enum BootStatus {
    New,
    Testing,
    Success,
}

impl BootStatus {
    pub const NEW: u8 = 0xFF;

    pub const TESTING: u8 = 0x10;

    pub const SUCCESS: u8 = 0x00;
}

impl TryFrom<u8> for BootStatus {
    type Error = UnknownStatus;

    ghost try_from_gives = { λ byte r. status_answer r ≡ boot_status_of byte };

    #[tactic(auto, unfolding(crate::specs::StatusBytes::boot_status_of))]
    fn try_from(byte: u8) -> Result<BootStatus, UnknownStatus> {
        match byte {
            BootStatus::NEW => Ok(BootStatus::New),
            BootStatus::TESTING => Ok(BootStatus::Testing),
            BootStatus::SUCCESS => Ok(BootStatus::Success),
            _ => Err(UnknownStatus), // BOOT may hold no other byte
        }
    }
}

impl From<BootStatus> for u8 {
    ghost from_gives = { λ status byte. byte ≡ boot_byte status };

    fn from(status: BootStatus) -> u8 {
        match status {
            BootStatus::New => BootStatus::NEW,
            BootStatus::Testing => BootStatus::TESTING,
            BootStatus::Success => BootStatus::SUCCESS,
        }
    }
}

// What UPDATE's status byte may hold.
#[derive(Clone, Copy, PartialEq, Eq)]
pub enum UpdateStatus {
    New,
    Updating,
}

impl UpdateStatus {
    pub const NEW: u8 = 0xFF;

    pub const UPDATING: u8 = 0x70;
}

impl TryFrom<u8> for UpdateStatus {
    type Error = UnknownStatus;

    ghost try_from_gives = { λ byte r. status_answer r ≡ update_status_of byte };

    #[tactic(auto, unfolding(crate::specs::StatusBytes::update_status_of))]
    fn try_from(byte: u8) -> Result<UpdateStatus, UnknownStatus> {
        match byte {
            UpdateStatus::NEW => Ok(UpdateStatus::New),
            UpdateStatus::UPDATING => Ok(UpdateStatus::Updating),
            _ => Err(UnknownStatus), // UPDATE may hold no other byte
        }
    }
}

impl From<UpdateStatus> for u8 {
    ghost from_gives = { λ status byte. byte ≡ update_byte status };

    fn from(status: UpdateStatus) -> u8 {
        match status {
            UpdateStatus::New => UpdateStatus::NEW,
            UpdateStatus::Updating => UpdateStatus::UPDATING,
        }
    }
}

// Where the status byte is: the last byte of a partition.
fn status_offset(g: Geometry) -> ByteOffset
    requires { Limits g }
    ensures { result.0 ≡ status_place g }
{
    ByteOffset(flash::partition_size(g) - 1)
}

// The status of a partition: BOOT's as a `BootStatus`, UPDATE's as an `UpdateStatus`.
#[tactic(auto, unfolding(crate::specs::StatusBytes::status_byte))]
pub fn read_status<S: TryFrom<u8>>(g: Geometry, partition: &[u8]) -> Result<S, S::Error>
    requires { Partition g partition.now }
    ensures { S.try_from_gives (status_byte g partition.now) result }
{
    S::try_from(partition[status_offset(g).0])
}

// Sets the status of a partition to the byte that it is, and no other byte.
#[tactic(auto, unfolding(crate::specs::StatusBytes::set_status_byte))]
pub fn write_status<S: Into<u8>>(g: Geometry, partition: &mut [u8], status: S)
    requires { Partition g partition.old }
    ensures { (byte : ℕ) × S.converts status byte
        × (partition.new ≡ set_status_byte g byte partition.old) }
{
    partition[status_offset(g).0] = status.into();
}

// BOOT's and UPDATE's status, where both bytes are allowed. BOOT is looked at first.
pub fn read_statuses(g: Geometry, boot: &[u8], update: &[u8]) -> Option<(BootStatus, UpdateStatus)>
    requires { (Partition g boot.now) × (Partition g update.now) }
    ensures { statuses_answer result ≡ both_statuses (boot_status_at g boot.now) (update_status_at g update.now) }
{
    let b = read_status(g, boot).ok()?;
    let u = read_status(g, update).ok()?;
    Some((b, u))
}
