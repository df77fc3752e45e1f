// The numbers and rows by which a C caller gets what power-up, arm and confirm answer.
#![tactic(auto)]

ghost use Rattle.std.specs.Prelude.{◌≡◌};
ghost use Rattle.numbers.specs.GivenBack.{refusal_of, count_of};
ghost use Rattle.exchange_commands.specs.Numbers.{command_of};
ghost use Rattle.power_up.specs.Delivered.{outcome_of};
ghost use Rattle.c_power_up.specs.Outcomes.{ended, ended_refused, ended_of};

use numbers::{CommandRefusal, PowerUpRefusal, RefusedInside};
use power_up::Outcome;

// How a power-up ended: its outcome, and of a refusal the number, and the own number and place of a bad image within it.
// Numbers, not enums: a C caller gets them.
#[derive(Clone, Copy)]
pub struct Ended {
    pub outcome: u64,
    pub number: u32,
    pub inner: u64,
    pub place: u64,
}

impl Ended {
    pub const REFUSED: u64 = 0;

    pub const CUT: u64 = 1;

    pub const RUN: u64 = 2;

    pub const RUN_ON_TEST: u64 = 3;

    pub const RUN_FALLEN_BACK: u64 = 4;
}

// Without a refusal.
fn end(outcome: u64) -> Ended
    ensures { result ≡ ended outcome }
{
    Ended {
        outcome,
        number: 0,
        inner: 0,
        place: 0,
    }
}

fn refused_with(r: RefusedInside) -> Ended
    ensures { result ≡ ended_refused r }
{
    Ended {
        outcome: Ended::REFUSED,
        number: r.number,
        inner: u64::from(r.inner),
        place: r.place as u64,
    }
}

// The outcome, or the refusal.
pub fn of_outcome(outcome: Result<Outcome, PowerUpRefusal>) -> Ended
    ensures { result ≡ ended_of (outcome_of outcome) }
{
    match outcome {
        Ok(Outcome::Cut) => end(Ended::CUT),
        Ok(Outcome::Run) => end(Ended::RUN),
        Ok(Outcome::RunOnTest) => end(Ended::RUN_ON_TEST),
        Ok(Outcome::RunFallenBack) => end(Ended::RUN_FALLEN_BACK),
        Err(refusal) => refused_with(RefusedInside::from(refusal)),
    }
}

// The refusal's number, 0 where the command was done.
pub fn of_command(answer: Result<u64, CommandRefusal>) -> u32
    ensures { result ≡ (refusal_of (command_of answer)).number }
{
    match answer {
        Ok(_) => 0,
        Err(refusal) => u32::from(refusal),
    }
}

// The number of operations, 0 beside a refusal.
pub fn count_of(answer: Result<u64, CommandRefusal>) -> u64
    ensures { result ≡ count_of (command_of answer) }
{
    answer.unwrap_or(0)
}
