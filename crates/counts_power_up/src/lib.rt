// Power-up with erase counts, on three lent buffers and a lent row.
#![tactic(auto)]

ghost use Rattle.std.specs.Prelude.{◌≡◌, length};
ghost use Rattle.flash.specs.Buffers.{flash, Shaped};
ghost use Rattle.flash_flags.specs.Front.{WellFormed};
ghost use Rattle.exchange.specs.Order.{run, operations};
ghost use Rattle.exchange.specs.Decision.{decide_within};
ghost use Rattle.exchange.specs.PowerUp.{worked, carry_out, operations_in};
ghost use Rattle.exchange_steps.specs.Lent.{bytes, SameFlash};
ghost use Rattle.image.specs.Verdict.{check_of};
ghost use Rattle.numbers.specs.Answer.{numbered};
ghost use Rattle.numbers.specs.GivenBack.{reason_of};
ghost use Rattle.power_up_decision.specs.Inner.{plan_of};
ghost use Rattle.power_up.specs.Delivered.{outcome_of, answered};
ghost use Rattle.counts.specs.Row.{row_length, raised};
ghost use Rattle.counts.specs.Claims.{RoomForM, Within32};
ghost use Rattle.counts_row.specs.Inner.{counts_says};
ghost use Rattle.counts_power_up.specs.Delivered.{refusal_of, counted_outcome_of, CountedDelivers};

use counts_row::CountsFault;
use exchange::Job;
use exchange_steps::FlashMut;
use numbers::{PowerUpRefusal, RowRefusal, TurnDownReason};
use power_up::{Outcome, PowerUpAnswer};
use power_up_decision::Plan;

// Why a counted power-up is refused: power-up's own refusals, or those of the row or the total.
#[derive(Clone, Copy, PartialEq, Eq)]
pub enum CountedRefusal {
    PowerUp(PowerUpRefusal),
    Counts(RowRefusal),
}

impl From<CountsFault> for CountedRefusal {
    ghost from_gives = { λ c r. refusal_of r ≡ numbered (counts_says c).number (counts_says c).place };

    fn from(fault: CountsFault) -> CountedRefusal {
        match fault {
            CountsFault::OutsideRules => CountedRefusal::PowerUp(PowerUpRefusal::OutsideRules),
            CountsFault::Row(refusal) => CountedRefusal::Counts(refusal),
        }
    }
}

// Outcome, reason and count are power-up's; the total is the row's sum, or as it came where the call is refused with 1 or 19.
#[derive(Clone, Copy, PartialEq, Eq)]
pub struct CountedAnswer {
    pub outcome: Result<Outcome, CountedRefusal>,
    pub reason: Option<TurnDownReason>,
    pub count: u64,
    pub total: u64,
}

// Power-up's answer, with the total beside it.
fn with_total(a: PowerUpAnswer, total: u64) -> CountedAnswer
    ensures outcome { counted_outcome_of result.outcome ≡ outcome_of a.outcome }
    ensures others { (result.reason ≡ a.reason) × (result.count ≡ a.count) × (result.total ≡ total) }
{
    CountedAnswer {
        outcome: a.outcome.map_err(CountedRefusal::PowerUp),
        reason: a.reason,
        count: a.count,
        total,
    }
}

fn do_job(
    f: &mut FlashMut,
    job: Job,
    reason: Option<TurnDownReason>,
    budget: u64,
    row: &mut [u32],
) -> PowerUpAnswer
    requires { (Shaped f.old.geometry (bytes f.old)) × (WellFormed f.old.geometry f.old.update.now)
        × (length row.old ≡ row_length f.old.geometry)
        × (Within32 (raised f.old.geometry (operations job f.old.geometry budget 0 (bytes f.old)) row.old)) }
    ensures same { SameFlash f.old f.new }
    ensures answer { (answered result (bytes f.new)
        ≡ worked check_of f.old.geometry job (reason_of reason) (run job f.old.geometry budget 0 (bytes f.old)))
        × (row.new ≡ raised f.old.geometry (operations job f.old.geometry budget 0 (bytes f.old)) row.old) }
{
    let end = counts_steps::repeat_counted(f, job, budget, row);
    let left = end.left;
    let boot = &mut *f.boot;
    let update = &mut *f.update;
    PowerUpAnswer {
        outcome: power_up::outcome_at(f.geometry, job, end, boot, update),
        reason,
        count: budget - left,
    }
}

// What was decided, done.
fn carry_out(
    f: &mut FlashMut,
    plan: Result<Plan, PowerUpRefusal>,
    budget: u64,
    row: &mut [u32],
) -> PowerUpAnswer
    requires { (Shaped f.old.geometry (bytes f.old))
        × (plan_of plan ≡ decide_within check_of f.old.geometry f.old.boot.now f.old.update.now)
        × (length row.old ≡ row_length f.old.geometry) × (RoomForM f.old.geometry row.old) }
    ensures same { SameFlash f.old f.new }
    ensures answer { (answered result (bytes f.new)
        ≡ carry_out check_of f.old.geometry (bytes f.old) budget (plan_of plan))
        × (row.new ≡ raised f.old.geometry (operations_in f.old.geometry (bytes f.old) budget (plan_of plan)) row.old) }
{
    match plan {
        Err(refusal) => power_up::idle(Err(refusal)),
        Ok(Plan::Plain) => {
            let boot = &mut *f.boot;
            power_up::idle(power_up::if_boot_good(f.geometry, Ok(Outcome::Run), boot))
        }
        Ok(Plan::Work(job, reason)) => do_job(f, job, reason, budget, row),
    }
}

// A power-up with at most `budget` operations, each of whose erases is counted. Any numbers, lengths, bytes and counts are taken.
pub fn power_up_counted(
    sectors: usize,
    size: usize,
    boot: &mut [u8],
    update: &mut [u8],
    swap: &mut [u8],
    budget: u64,
    row: &mut [u32],
    total: u64,
) -> CountedAnswer
    ensures { CountedDelivers sectors size (flash boot.old update.old swap.old) budget row.old total
        result (flash boot.new update.new swap.new) row.new }
{
    match counts_row::check_counted(sectors, size, boot, update, swap, row, total) {
        Ok(geometry) => {
            let plan = power_up_decision::decide(geometry, boot, update);
            let mut f = FlashMut {
                geometry,
                boot,
                update,
                swap,
            };
            let a = carry_out(&mut f, plan, budget, row);
            with_total(a, counts_row::sum_of(row))
        }
        Err(fault) => CountedAnswer {
            outcome: Err(fault.into()),
            reason: None,
            count: 0,
            total,
        },
    }
}
