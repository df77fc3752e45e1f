// The checks before a power-up's work, and what they decide.
#![tactic(auto)]

ghost use Rattle.std.specs.Prelude.{◌≡◌};
ghost use Rattle.flash.specs.Sectors.{Partition};
ghost use Rattle.flash_flags.specs.SectorFlags.{flags_at};
ghost use Rattle.image.specs.Verdict.{check_of};
ghost use Rattle.exchange.specs.Decision.{accept, accept_fallback, decide_update, decide_fallback, decide_closing, decide_within};
ghost use Rattle.power_up_decision.specs.Inner.{plan_of};

use exchange::Job;
use flash::Geometry;
use flash_flags::Flags;
use flash_status::{BootStatus, UpdateStatus};
use numbers::{PowerUpRefusal, TurnDownReason};

// What a power-up is to do that is not refused.
#[derive(Clone, Copy)]
pub enum Plan {
    Plain,
    Work(Job, Option<TurnDownReason>),
}

// An update with all flags F: UPDATE is checked first, then BOOT, then the versions are compared.
fn accept_update(g: Geometry, boot: &[u8], update: &[u8]) -> Result<Plan, PowerUpRefusal>
    requires { (Partition g boot.now) × (Partition g update.now) }
    ensures { plan_of result ≡ accept (check_of g update.now) (check_of g boot.now) }
{
    let coming = match image::judge_partition(g, update) {
        Ok(release) => release,
        Err(refusal) => {
            return Ok(Plan::Work(Job::TurnDown, Some(TurnDownReason::BadUpdate(refusal))));
        }
    };
    let running = image::judge_partition(g, boot).map_err(PowerUpRefusal::BadBoot)?;
    if running.version < coming.version {
        Ok(Plan::Work(Job::Update, None))
    } else {
        Ok(Plan::Work(Job::TurnDown, Some(TurnDownReason::NotNewer)))
    }
}

// A fallback with all flags F.
fn accept_fallback(g: Geometry, update: &[u8]) -> Result<Plan, PowerUpRefusal>
    requires { Partition g update.now }
    ensures { plan_of result ≡ accept_fallback (check_of g update.now) }
{
    match image::judge_partition(g, update) {
        Ok(_) => Ok(Plan::Work(Job::Fallback, None)),
        Err(refusal) => Err(PowerUpRefusal::NoFallback(refusal)),
    }
}

// Only with all flags F are images checked: an exchange that has begun goes on.
fn decide_update(g: Geometry, boot: &[u8], update: &[u8]) -> Result<Plan, PowerUpRefusal>
    requires { (Partition g boot.now) × (Partition g update.now) }
    ensures { plan_of result
        ≡ decide_update (flags_at g update.now) (check_of g update.now) (check_of g boot.now) }
{
    match flash_flags::read_flags(g, update) {
        Flags::Malformed => Err(PowerUpRefusal::FlagsMalformed),
        Flags::AllF => accept_update(g, boot, update),
        Flags::At(_, _) => Ok(Plan::Work(Job::Update, None)),
        Flags::All0 => Ok(Plan::Work(Job::Update, None)),
    }
}

fn decide_fallback(g: Geometry, update: &[u8]) -> Result<Plan, PowerUpRefusal>
    requires { Partition g update.now }
    ensures { plan_of result ≡ decide_fallback (flags_at g update.now) (check_of g update.now) }
{
    match flash_flags::read_flags(g, update) {
        Flags::Malformed => Err(PowerUpRefusal::FlagsMalformed),
        Flags::AllF => accept_fallback(g, update),
        Flags::At(_, _) => Ok(Plan::Work(Job::Fallback, None)),
        Flags::All0 => Ok(Plan::Work(Job::Fallback, None)),
    }
}

// UPDATING and TESTING: only the end of an update can be left.
fn decide_closing(g: Geometry, update: &[u8]) -> Result<Plan, PowerUpRefusal>
    requires { Partition g update.now }
    ensures { plan_of result ≡ decide_closing (flags_at g update.now) }
{
    match flash_flags::read_flags(g, update) {
        Flags::All0 => Ok(Plan::Work(Job::Update, None)),
        _ => Err(PowerUpRefusal::FlagsMalformed),
    }
}

// What a power-up is to do, with geometry and lengths within the rules. Where UPDATE is NEW and BOOT is not TESTING the flags are not read.
pub fn decide(g: Geometry, boot: &[u8], update: &[u8]) -> Result<Plan, PowerUpRefusal>
    requires { (Partition g boot.now) × (Partition g update.now) }
    ensures { plan_of result ≡ decide_within check_of g boot.now update.now }
{
    let (b, u) = flash_status::read_statuses(g, boot, update).ok_or(
        PowerUpRefusal::StatusNotAllowed,
    )?;
    match (b, u) {
        (BootStatus::Testing, UpdateStatus::New) => decide_fallback(g, update),
        (BootStatus::New | BootStatus::Success, UpdateStatus::New) => Ok(Plan::Plain),
        (BootStatus::Testing, UpdateStatus::Updating) => decide_closing(g, update),
        (BootStatus::New | BootStatus::Success, UpdateStatus::Updating) => {
            decide_update(g, boot, update)
        }
    }
}
