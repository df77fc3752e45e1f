// Writing the flags of a mark, and counting the flag bytes that differ then.
#![tactic(auto)]

ghost use Rattle.std.specs.Prelude.{◌≡◌, ◌*◌, ◌<◌};
ghost use Rattle.flash.specs.Sizes.{firmware};
ghost use Rattle.flash.specs.Sectors.{Partition};
ghost use Rattle.mending_flags.specs.Wrote.{Wrote};
ghost use Rattle.mending_flags.specs.Inner.{set_pair, WrotePair};

use flash::{Geometry, SectorNumber};
use mending::Mark;

// Sets the mark's flags of the sectors 2 n and 2 n + 1, the second where it is a firmware sector: else its half byte is unused, and stays.
fn write_pair(g: Geometry, update: &mut [u8], mark: Mark, n: usize)
    requires { (Partition g update.old) × (2 * n < firmware g) }
    ensures { update.new ≡ set_pair g mark n update.old }
{
    let i = SectorNumber(2 * n);
    flash_flags::write_flag(g, update, i, mark.flag_of(i));
    let next = SectorNumber(2 * n + 1);
    if next.0 < g.firmware_sectors() {
        flash_flags::write_flag(g, update, next, mark.flag_of(next));
    }
}

// Writes the flag byte of the sectors 2 n and 2 n + 1. How many bytes differ then: one or none.
fn write_byte(g: Geometry, update: &mut [u8], mark: Mark, n: usize) -> usize
    requires { (Partition g update.old) × (2 * n < firmware g) }
    ensures { WrotePair g mark n update.old update.new result }
{
    let at = flash_flags::flag_offset(g, SectorNumber(2 * n)).0;
    let before = update[at];
    write_pair(g, update, mark, n);
    usize::from(update[at] != before)
}

// Writes the mark's flags. How many flag bytes differ then.
pub fn write_flags(g: Geometry, update: &mut [u8], mark: Mark) -> usize
    requires { Partition g update.old }
    ensures { Wrote g mark update.old update.new result }
{
    let mut count = 0;
    for n in 0..(g.firmware_sectors() + 1) / 2 {
        count += write_byte(g, update, mark, n);
    }
    count
}
