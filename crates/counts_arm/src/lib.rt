// Arm with erase counts, on three lent buffers and a lent row.
#![tactic(auto)]

ghost use Rattle.std.specs.Prelude.{◌≡◌, length};
ghost use Rattle.flash.specs.Sizes.{geometry};
ghost use Rattle.flash.specs.Buffers.{flash, Shaped};
ghost use Rattle.exchange.specs.Commands.{command, arm_operations};
ghost use Rattle.exchange_steps.specs.Lent.{bytes, SameFlash};
ghost use Rattle.exchange_commands.specs.declared.CommandKind.TheVariants.{Arm};
ghost use Rattle.exchange_commands.specs.Inner.{permit_at};
ghost use Rattle.numbers.specs.GivenBack.{refused_at};
ghost use Rattle.counts.specs.Row.{row_length, raised};
ghost use Rattle.counts.specs.Calls.{arm_done, counted_arm};
ghost use Rattle.counts.specs.Claims.{RoomForM};
ghost use Rattle.counts_row.specs.Inner.{counts_says};
ghost use Rattle.counts_arm.specs.declared.CountedArmRefusal.TheVariants.{Arm as ArmRefused};
ghost use Rattle.counts_arm.specs.Delivered.{refusal_number, counted_command_of, counted_commanded};

use counts_row::CountsFault;
use exchange::Operation;
use exchange_commands::CommandKind;
use exchange_steps::FlashMut;
use flash_status::UpdateStatus;
use numbers::{CommandRefusal, RowRefusal};

// Arm's own refusals; or the row or the total is refused.
#[derive(Clone, Copy, PartialEq, Eq)]
pub enum CountedArmRefusal {
    Arm(CommandRefusal),
    Counts(RowRefusal),
}

impl From<CommandRefusal> for CountedArmRefusal {
    ghost from_gives = { λ c r. r ≡ ArmRefused c };

    fn from(refusal: CommandRefusal) -> CountedArmRefusal {
        CountedArmRefusal::Arm(refusal)
    }
}

impl From<CountsFault> for CountedArmRefusal {
    ghost from_gives = { λ c r. refused_at (refusal_number r) 0 ≡ counts_says c };

    fn from(fault: CountsFault) -> CountedArmRefusal {
        match fault {
            CountsFault::OutsideRules => CountedArmRefusal::Arm(CommandRefusal::OutsideRules),
            CountsFault::Row(refusal) => CountedArmRefusal::Counts(refusal),
        }
    }
}

// The answer is the number of operations, or why nothing was done; the total is the row's sum, or as it came where the call is refused
// with 1 or 19.
#[derive(Clone, Copy, PartialEq, Eq)]
pub struct CountedArmAnswer {
    pub answer: Result<u64, CountedArmRefusal>,
    pub total: u64,
}

// Arm's operations, where its checks grant them: the erase is counted before the next is done.
fn obey(f: &mut FlashMut, row: &mut [u32]) -> Result<u64, CountedArmRefusal>
    requires { (Shaped f.old.geometry (bytes f.old)) × (length row.old ≡ row_length f.old.geometry) × (RoomForM f.old.geometry row.old) }
    ensures same { SameFlash f.old f.new }
    ensures answer { (record { answer = counted_command_of result; flash = bytes f.new }
        ≡ command f.old.geometry arm_operations (permit_at Arm f.old.geometry f.old.boot.now f.old.update.now) (bytes f.old))
        × (row.new ≡ raised f.old.geometry (arm_done (counted_command_of result)) row.old) }
{
    let boot = &mut *f.boot;
    let update = &mut *f.update;
    exchange_commands::decide(CommandKind::Arm, f.geometry, boot, update)?;
    f.do_operation(Operation::EraseUpdateTrailer);
    counts_row::count_done(f.geometry, Operation::EraseUpdateTrailer, row);
    f.do_operation(Operation::WriteUpdateStatus(UpdateStatus::Updating));
    Ok(2)
}

// Arms the update that stands in UPDATE, and counts the erase. Any numbers, lengths, bytes and counts are taken.
pub fn arm_counted(
    sectors: usize,
    size: usize,
    boot: &mut [u8],
    update: &mut [u8],
    swap: &mut [u8],
    row: &mut [u32],
    total: u64,
) -> CountedArmAnswer
    ensures { counted_commanded result (flash boot.new update.new swap.new) row.new
        ≡ counted_arm (geometry sectors size) (flash boot.old update.old swap.old) row.old total }
{
    match counts_row::check_counted(sectors, size, boot, update, swap, row, total) {
        Ok(geometry) => {
            let mut f = FlashMut {
                geometry,
                boot,
                update,
                swap,
            };
            let answer = obey(&mut f, row);
            CountedArmAnswer {
                answer,
                total: counts_row::sum_of(row),
            }
        }
        Err(fault) => CountedArmAnswer {
            answer: Err(fault.into()),
            total,
        },
    }
}
