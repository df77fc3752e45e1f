// The numbers of what the counted calls answer.
#![tactic(auto)]

ghost use Rattle.std.specs.Prelude.{◌≡◌};
ghost use Rattle.numbers.specs.GivenBack.{refusal_of, count_of};
ghost use Rattle.c_power_up.specs.Outcomes.{ended_of};
ghost use Rattle.counts_power_up.specs.Delivered.{counted_outcome_of};
ghost use Rattle.counts_arm.specs.Delivered.{counted_command_of};

use c_power_up::Ended;
use counts_arm::CountedArmRefusal;
use counts_power_up::CountedRefusal;
use power_up::Outcome;

pub fn of_counted(outcome: Result<Outcome, CountedRefusal>) -> Ended
    ensures { result ≡ ended_of (counted_outcome_of outcome) }
{
    match outcome {
        Ok(o) => c_power_up::of_outcome(Ok(o)),
        Err(CountedRefusal::PowerUp(refusal)) => c_power_up::of_outcome(Err(refusal)),
        Err(CountedRefusal::Counts(refusal)) => Ended {
            outcome: Ended::REFUSED,
            number: refusal.into(),
            inner: 0,
            place: 0,
        },
    }
}

pub fn of_command(answer: Result<u64, CountedArmRefusal>) -> u32
    ensures { result ≡ (refusal_of (counted_command_of answer)).number }
{
    match answer {
        Ok(_) => 0,
        Err(CountedArmRefusal::Arm(refusal)) => refusal.into(),
        Err(CountedArmRefusal::Counts(refusal)) => refusal.into(),
    }
}

pub fn count_of(answer: Result<u64, CountedArmRefusal>) -> u64
    ensures { result ≡ count_of (counted_command_of answer) }
{
    answer.unwrap_or(0)
}
