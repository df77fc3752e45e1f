// Power-up on three lent buffers: BOOT, UPDATE and SWAP.
#![tactic(auto)]

ghost use Rattle.std.specs.Prelude.{◌≡◌, ◌≤◌, Ok};
ghost use Rattle.flash.specs.Sizes.{firmware};
ghost use Rattle.flash.specs.Sectors.{Partition};
ghost use Rattle.flash.specs.Buffers.{flash, Shaped};
ghost use Rattle.flash_flags.specs.Front.{WellFormed};
ghost use Rattle.exchange.specs.Order.{run};
ghost use Rattle.exchange.specs.Decision.{decide_within};
ghost use Rattle.exchange.specs.PowerUp.{if_boot_good, done_outcome, outcome_by, worked, carry_out};
ghost use Rattle.exchange_front.specs.Carried.{next_at};
ghost use Rattle.exchange_steps.specs.Lent.{bytes, SameFlash};
ghost use Rattle.image.specs.Verdict.{check_of};
ghost use Rattle.numbers.specs.GivenBack.{reason_of};
ghost use Rattle.power_up_decision.specs.Inner.{plan_of};
ghost use Rattle.power_up.specs.Delivered.{outcome_of, answered, Delivers};
ghost use Rattle.power_up.specs.Inner.{idle_answer};

use exchange::Job;
use exchange_front::Progress;
use exchange_steps::FlashMut;
use flash::Geometry;
use numbers::{PowerUpRefusal, TurnDownReason};
use power_up_decision::Plan;

// Document 01's "cut", "run", "run on test" and "run, fallen back".
#[derive(Clone, Copy, PartialEq, Eq)]
pub enum Outcome {
    Cut,
    Run,
    RunOnTest,
    RunFallenBack,
}

// The count is that of the operations done.
#[derive(Clone, Copy, PartialEq, Eq)]
pub struct PowerUpAnswer {
    pub outcome: Result<Outcome, PowerUpRefusal>,
    pub reason: Option<TurnDownReason>,
    pub count: u64,
}

// An answer without operations.
pub fn idle(outcome: Result<Outcome, PowerUpRefusal>) -> PowerUpAnswer
    ensures { result ≡ idle_answer outcome }
{
    PowerUpAnswer {
        outcome,
        reason: None,
        count: 0,
    }
}

// The outcome, or the refusal of a bad image in BOOT.
pub fn if_boot_good(
    g: Geometry,
    outcome: Result<Outcome, PowerUpRefusal>,
    boot: &[u8],
) -> Result<Outcome, PowerUpRefusal>
    requires { Partition g boot.now }
    ensures { outcome_of result ≡ if_boot_good (outcome_of outcome) (check_of g boot.now) }
{
    match image::judge_partition(g, boot) {
        Ok(_) => outcome,
        Err(refusal) => Err(PowerUpRefusal::BadBoot(refusal)),
    }
}

// The outcome of a job that is done.
fn done_outcome(job: Job) -> Outcome
    ensures { outcome_of (Ok result) ≡ done_outcome job }
{
    match job {
        Job::Update => Outcome::RunOnTest,
        Job::Fallback => Outcome::RunFallenBack,
        Job::TurnDown => Outcome::Run,
    }
}

// The outcome of a job whose steps have come this far: "cut" where one more is ordered.
pub fn outcome_at(
    g: Geometry,
    job: Job,
    at: Progress,
    boot: &[u8],
    update: &[u8],
) -> Result<Outcome, PowerUpRefusal>
    requires { (Partition g boot.now) × (Partition g update.now) × (at.front.0 ≤ firmware g) }
    ensures { outcome_of result
        ≡ outcome_by (next_at job g at boot.now update.now) job (check_of g boot.now) }
{
    match exchange_front::find_next(g, job, at, boot, update) {
        Some(_) => Ok(Outcome::Cut),
        None => if_boot_good(g, Ok(done_outcome(job)), boot),
    }
}

fn do_job(f: &mut FlashMut, job: Job, reason: Option<TurnDownReason>, budget: u64) -> PowerUpAnswer
    requires { (Shaped f.old.geometry (bytes f.old)) × (WellFormed f.old.geometry f.old.update.now) }
    ensures same { SameFlash f.old f.new }
    ensures answer { answered result (bytes f.new)
        ≡ worked check_of f.old.geometry job (reason_of reason) (run job f.old.geometry budget 0 (bytes f.old)) }
{
    let end = f.repeat_step(job, budget);
    let left = end.left;
    let boot = &mut *f.boot;
    let update = &mut *f.update;
    PowerUpAnswer {
        outcome: outcome_at(f.geometry, job, end, boot, update),
        reason,
        count: budget - left,
    }
}

// What was decided, done.
fn carry_out(f: &mut FlashMut, plan: Result<Plan, PowerUpRefusal>, budget: u64) -> PowerUpAnswer
    requires { (Shaped f.old.geometry (bytes f.old))
        × (plan_of plan ≡ decide_within check_of f.old.geometry f.old.boot.now f.old.update.now) }
    ensures same { SameFlash f.old f.new }
    ensures answer { answered result (bytes f.new)
        ≡ carry_out check_of f.old.geometry (bytes f.old) budget (plan_of plan) }
{
    match plan {
        Err(refusal) => idle(Err(refusal)),
        Ok(Plan::Plain) => {
            let boot = &mut *f.boot;
            idle(if_boot_good(f.geometry, Ok(Outcome::Run), boot))
        }
        Ok(Plan::Work(job, reason)) => do_job(f, job, reason, budget),
    }
}

// A power-up with at most `budget` operations. Any numbers, lengths and bytes are taken.
pub fn power_up(
    sectors: usize,
    size: usize,
    boot: &mut [u8],
    update: &mut [u8],
    swap: &mut [u8],
    budget: u64,
) -> PowerUpAnswer
    ensures { Delivers sectors size (flash boot.old update.old swap.old) budget
        result (flash boot.new update.new swap.new) }
{
    let Some(geometry) = flash::check_flash(sectors, size, boot, update, swap) else {
        return idle(Err(PowerUpRefusal::OutsideRules));
    };
    let plan = power_up_decision::decide(geometry, boot, update);
    let mut f = FlashMut {
        geometry,
        boot,
        update,
        swap,
    };
    carry_out(&mut f, plan, budget)
}
