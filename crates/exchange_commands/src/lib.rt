// Arm and confirm on three lent buffers: BOOT, UPDATE and SWAP.
#![tactic(auto)]

ghost use Rattle.std.specs.Prelude.{◌≡◌};
ghost use Rattle.flash.specs.Sizes.{geometry};
ghost use Rattle.flash.specs.Sectors.{Partition};
ghost use Rattle.flash.specs.Buffers.{flash, lent};
ghost use Rattle.flash_flags.specs.SectorFlags.{flags_at};
ghost use Rattle.exchange.specs.Commands.{may_arm, may_confirm, arm_command, confirm_command};
ghost use Rattle.exchange_commands.specs.Numbers.{command_of, commanded};
ghost use Rattle.exchange_commands.specs.Inner.{permit_at, permitted};

use exchange::Operation;
use exchange_steps::FlashMut;
use flash::Geometry;
use flash_flags::Flags;
use flash_status::{BootStatus, UpdateStatus};
use numbers::CommandRefusal;

// What can be commanded.
#[derive(Clone, Copy)]
pub enum CommandKind {
    Arm,
    Confirm,
}

// ---- the checks before the operations

// Arm: UPDATE has to be NEW, and BOOT NEW or SUCCESS.
fn permit_arm(b: BootStatus, u: UpdateStatus) -> Result<(), CommandRefusal>
    ensures { command_of result ≡ may_arm b u }
{
    match (b, u) {
        (BootStatus::New | BootStatus::Success, UpdateStatus::New) => Ok(()),
        _ => Err(CommandRefusal::WrongTime),
    }
}

// Confirm: BOOT has to be TESTING, and UPDATE NEW; and all flags have to be F.
fn permit_confirm(
    g: Geometry,
    b: BootStatus,
    u: UpdateStatus,
    update: &[u8],
) -> Result<(), CommandRefusal>
    requires { Partition g update.now }
    ensures { command_of result ≡ may_confirm (flags_at g update.now) b u }
{
    let (BootStatus::Testing, UpdateStatus::New) = (b, u) else {
        return Err(CommandRefusal::WrongTime);
    };
    match flash_flags::read_flags(g, update) {
        Flags::AllF => Ok(()),
        Flags::Malformed => Err(CommandRefusal::FlagsMalformed),
        Flags::At(_, _) => Err(CommandRefusal::WrongTime),
        Flags::All0 => Err(CommandRefusal::WrongTime),
    }
}

// The checks of a command that come after the lengths.
pub fn decide(
    kind: CommandKind,
    g: Geometry,
    boot: &[u8],
    update: &[u8],
) -> Result<(), CommandRefusal>
    requires { (Partition g boot.now) × (Partition g update.now) }
    ensures { command_of result ≡ permit_at kind g boot.now update.now }
{
    let (b, u) = flash_status::read_statuses(g, boot, update).ok_or(
        CommandRefusal::StatusNotAllowed,
    )?;
    match kind {
        CommandKind::Arm => permit_arm(b, u),
        CommandKind::Confirm => permit_confirm(g, b, u, update),
    }
}

// All checks of a command: geometry and lengths, and its own.
fn permit(
    kind: CommandKind,
    sectors: usize,
    size: usize,
    boot: &[u8],
    update: &[u8],
    swap: &[u8],
) -> Result<Geometry, CommandRefusal>
    ensures { command_of result ≡ permitted kind (geometry sectors size) (lent boot.entry update.entry swap.entry) }
{
    let g = flash::check_flash(sectors, size, boot, update, swap).ok_or(
        CommandRefusal::OutsideRules,
    )?;
    decide(kind, g, boot, update)?;
    Ok(g)
}

// ---- the commands

// Arms the update that stands in UPDATE. Any numbers, lengths and bytes are taken. What is given back is the number of operations.
pub fn arm(
    sectors: usize,
    size: usize,
    boot: &mut [u8],
    update: &mut [u8],
    swap: &mut [u8],
) -> Result<u64, CommandRefusal>
    ensures { commanded result (flash boot.new update.new swap.new)
        ≡ arm_command (geometry sectors size) (flash boot.old update.old swap.old) }
{
    let geometry = permit(CommandKind::Arm, sectors, size, boot, update, swap)?;
    let mut f = FlashMut {
        geometry,
        boot,
        update,
        swap,
    };
    f.do_operation(Operation::EraseUpdateTrailer);
    f.do_operation(Operation::WriteUpdateStatus(UpdateStatus::Updating));
    Ok(2)
}

// Keeps the image that runs on test. Any numbers, lengths and bytes are taken. What is given back is the number of operations.
pub fn confirm(
    sectors: usize,
    size: usize,
    boot: &mut [u8],
    update: &mut [u8],
    swap: &mut [u8],
) -> Result<u64, CommandRefusal>
    ensures { commanded result (flash boot.new update.new swap.new)
        ≡ confirm_command (geometry sectors size) (flash boot.old update.old swap.old) }
{
    let geometry = permit(CommandKind::Confirm, sectors, size, boot, update, swap)?;
    let mut f = FlashMut {
        geometry,
        boot,
        update,
        swap,
    };
    f.do_operation(Operation::WriteBootStatus(BootStatus::Success));
    Ok(1)
}
