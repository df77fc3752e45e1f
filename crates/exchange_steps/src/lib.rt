// The single step: the operation that document 01 orders next, found from the front that is carried along, and done.
#![tactic(auto)]

ghost use Rattle.std.specs.Prelude.{◌≡◌, ◌<◌, ◌≤◌};
ghost use Rattle.flash.specs.Sizes.{firmware};
ghost use Rattle.flash.specs.Sectors.{erased};
ghost use Rattle.flash.specs.Buffers.{Shaped};
ghost use Rattle.flash_flags.specs.Front.{WellFormed};
ghost use Rattle.exchange.specs.Operations.{put, perform};
ghost use Rattle.exchange.specs.Order.{run};
ghost use Rattle.exchange_front.specs.Carried.{Current};
ghost use Rattle.exchange_steps.specs.Lent.{bytes, SameFlash};
ghost use Rattle.exchange_steps.specs.Inner.{SectorWithin, ran, Steps};

use exchange::{Area, Job, Operation};
use exchange_front::Progress;
use flash::{Geometry, SectorNumber};
use flash_flags::Leg;

// The three lent buffers, with their geometry, which the caller has checked.
#[derive(Drop)]
pub struct FlashMut<'b, 'u, 's> {
    pub geometry: Geometry,
    pub boot: &'b mut [u8],
    pub update: &'u mut [u8],
    pub swap: &'s mut [u8],
}

impl<'b, 'u, 's> FlashMut<'b, 'u, 's> {
    // Erases sector i of an area. SWAP is one sector, whatever i.
    fn erase(&mut self, area: Area, i: SectorNumber)
        requires { (Shaped self.old.geometry (bytes self.old)) × (i.0 < self.old.geometry.sectors) }
        ensures same { SameFlash self.old self.new }
        ensures bytes { bytes self.new
            ≡ put self.old.geometry area i.0 (erased self.old.geometry.size) (bytes self.old) }
    {
        let g = self.geometry;
        match area {
            Area::Boot => flash_sectors::erase_sector(g, self.boot, i),
            Area::Update => flash_sectors::erase_sector(g, self.update, i),
            Area::Swap => flash_sectors::erase(self.swap),
        }
    }

    // Copies sector i from where to where the leg says.
    fn copy(&mut self, leg: Leg, i: SectorNumber)
        requires { (Shaped self.old.geometry (bytes self.old)) × (i.0 < self.old.geometry.sectors) }
        ensures same { SameFlash self.old self.new }
        ensures bytes { bytes self.new ≡ perform self.old.geometry (Operation.Copy leg i) (bytes self.old) }
    {
        let g = self.geometry;
        match leg {
            Leg::UpdateToSwap => {
                let update = &mut *self.update;
                flash_sectors::copy_to_swap(g, self.swap, update, i)
            }
            Leg::BootToUpdate => {
                let boot = &mut *self.boot;
                flash_sectors::copy_sector(g, self.update, boot, i)
            }
            Leg::SwapToBoot => {
                let swap = &mut *self.swap;
                flash_sectors::copy_from_swap(g, self.boot, swap, i)
            }
        }
    }

    // One operation. In line, so that a call that does one or two needs no `FlashMut` on its stack.
    #[inline(always)]
    pub fn do_operation(&mut self, op: Operation)
        requires { (Shaped self.old.geometry (bytes self.old)) × (SectorWithin self.old.geometry op) }
        ensures same { SameFlash self.old self.new }
        ensures bytes { bytes self.new ≡ perform self.old.geometry op (bytes self.old) }
    {
        let g = self.geometry;
        match op {
            Operation::Erase(area, i) => self.erase(area, i),
            Operation::Copy(leg, i) => self.copy(leg, i),
            Operation::WriteFlag(i, flag) => flash_flags::write_flag(g, self.update, i, flag),
            Operation::EraseBootTrailer => {
                flash_sectors::erase_sector(g, self.boot, SectorNumber(g.firmware_sectors()))
            }
            Operation::EraseUpdateTrailer => {
                flash_sectors::erase_sector(g, self.update, SectorNumber(g.firmware_sectors()))
            }
            Operation::WriteBootStatus(s) => flash_status::write_status(g, self.boot, s),
            Operation::WriteUpdateStatus(s) => flash_status::write_status(g, self.update, s),
        }
    }

    // The single operation that is next, done. Power-up changes the flash by this function alone.
    pub fn do_next(&mut self, job: Job, at: Progress) -> StepAnswer
        requires { (Shaped self.old.geometry (bytes self.old)) × (at.front.0 ≤ firmware self.old.geometry) × (0 < at.left) }
        ensures same { SameFlash self.old self.new }
        ensures step { Steps job self.old.geometry at (bytes self.old) result (bytes self.new) }
    {
        let boot = &mut *self.boot;
        let update = &mut *self.update;
        let Some(op) = exchange_front::find_next(self.geometry, job, at, boot, update) else {
            return StepAnswer {
                done: None,
                progress: at,
            };
        };
        self.do_operation(op);
        StepAnswer {
            done: Some(op),
            progress: exchange_front::carry_on(at, op),
        }
    }

    // Steps, until nothing is next or the budget is used up.
    pub fn repeat_step(&mut self, job: Job, budget: u64) -> Progress
        requires { (Shaped self.old.geometry (bytes self.old)) × (WellFormed self.old.geometry self.old.update.now) }
        ensures same { SameFlash self.old self.new }
        ensures steps { (ran budget result (bytes self.new) ≡ run job self.old.geometry budget 0 (bytes self.old))
            × (Current self.old.geometry self.new.update.now result) × (result.left ≤ budget) }
    {
        let update = &mut *self.update;
        let mut at = exchange_front::begin(self.geometry, update, budget);
        // Not a `for`: what falls is the budget that a step hands on, and no index is counted.
        while 0 < at.left {
            let step = self.do_next(job, at);
            if step.done.is_none() {
                return at;
            }
            at = step.progress;
        }
        at
    }
}

// The operation that a step did, if one was next, and what it carries on.
#[derive(Clone, Copy)]
pub struct StepAnswer {
    pub done: Option<Operation>,
    pub progress: Progress,
}
