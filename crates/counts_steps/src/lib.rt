// The single step repeated, with each erase counted as soon as it is done.
#![tactic(auto)]

ghost use Rattle.std.specs.Prelude.{◌≡◌, ◌<◌, ◌≤◌, length};
ghost use Rattle.flash.specs.Sizes.{firmware};
ghost use Rattle.flash.specs.Buffers.{Shaped};
ghost use Rattle.flash_flags.specs.Front.{WellFormed};
ghost use Rattle.exchange.specs.Order.{run, operations};
ghost use Rattle.exchange_front.specs.Carried.{next_at, Current};
ghost use Rattle.exchange_steps.specs.Lent.{bytes, SameFlash};
ghost use Rattle.exchange_steps.specs.Inner.{ran};
ghost use Rattle.counts.specs.Row.{row_length, raised};
ghost use Rattle.counts.specs.Claims.{Within32};
ghost use Rattle.counts_steps.specs.Inner.{RoomForNext, CountedSteps};

use exchange::Job;
use exchange_front::Progress;
use exchange_steps::{FlashMut, StepAnswer};

// The single step, and its erase counted. The counted power-up changes the flash and the row by this function alone.
pub fn do_next_counted(f: &mut FlashMut, job: Job, at: Progress, row: &mut [u32]) -> StepAnswer
    requires { (Shaped f.old.geometry (bytes f.old)) × (at.front.0 ≤ firmware f.old.geometry) × (0 < at.left)
        × (length row.old ≡ row_length f.old.geometry)
        × (RoomForNext f.old.geometry (next_at job f.old.geometry at f.old.boot.now f.old.update.now) row.old) }
    ensures same { SameFlash f.old f.new }
    ensures step { CountedSteps job f.old.geometry at (bytes f.old) row.old result (bytes f.new) row.new }
{
    let step = f.do_next(job, at);
    if let Some(op) = step.done {
        counts_row::count_done(f.geometry, op, row);
    }
    step
}

// Counted steps, until nothing is next or the budget is used up.
pub fn repeat_counted(f: &mut FlashMut, job: Job, budget: u64, row: &mut [u32]) -> Progress
    requires { (Shaped f.old.geometry (bytes f.old)) × (WellFormed f.old.geometry f.old.update.now)
        × (length row.old ≡ row_length f.old.geometry)
        × (Within32 (raised f.old.geometry (operations job f.old.geometry budget 0 (bytes f.old)) row.old)) }
    ensures same { SameFlash f.old f.new }
    ensures steps { (ran budget result (bytes f.new) ≡ run job f.old.geometry budget 0 (bytes f.old))
        × (row.new ≡ raised f.old.geometry (operations job f.old.geometry budget 0 (bytes f.old)) row.old)
        × (Current f.old.geometry f.new.update.now result) × (result.left ≤ budget) }
{
    let update = &mut *f.update;
    let mut at = exchange_front::begin(f.geometry, update, budget);
    // Not a `for`, as in `repeat_step`.
    while 0 < at.left {
        let step = do_next_counted(f, job, at, row);
        if step.done.is_none() {
            return at;
        }
        at = step.progress;
    }
    at
}
