// The numbers and the row by which a C caller gets what mending answers.
#![tactic(auto)]

ghost use Rattle.std.specs.Prelude.{◌≡◌, ◌-◌};
ghost use Rattle.numbers.specs.GivenBack.{refusal_of};
ghost use Rattle.flash_flags.specs.SectorFlags.{flag_value};
ghost use Rattle.mending.specs.Marks.{sector_named, flag_named};
ghost use Rattle.mend.specs.Delivered.{mend_of};
ghost use Rattle.c_mend.specs.Rows.{mend_row};

use flash_flags::Flag;
use mend::Mended;
use mending::Mark;
use numbers::MendRefusal;

// The sector by which a mark is named, of m firmware sectors.
fn sector_of(m: usize, mark: Mark) -> u64
    ensures { result ≡ sector_named m mark }
{
    match mark {
        Mark::At(i, _) => i.0 as u64,
        Mark::All0 => m as u64,
    }
}

// The flag by which it is named.
fn flag_of(mark: Mark) -> Flag
    ensures { result ≡ flag_named mark }
{
    match mark {
        Mark::At(_, leg) => leg.flag(),
        Mark::All0 => Flag::Exchanged,
    }
}

// The refusal's number, 0 where flags were mended.
pub fn of_mend(a: Result<Mended, MendRefusal>) -> u32
    ensures { result ≡ (refusal_of (mend_of a)).number }
{
    match a {
        Ok(_) => 0,
        Err(refusal) => refusal.into(),
    }
}

// The mark's sector and flag, and the number of bytes that differ; zeros beside a refusal. Where there is no sector, none is one of the
// firmware's.
pub fn row_of(sectors: usize, a: Result<Mended, MendRefusal>) -> [u64; 3]
    ensures { result ≡ mend_row (sectors - 1) (mend_of a) }
{
    match a {
        Ok(mended) => {
            let sector = sector_of(sectors.saturating_sub(1), mended.mark);
            let flag = u8::from(flag_of(mended.mark));
            [sector, u64::from(flag), mended.bytes as u64]
        }
        Err(_) => [0, 0, 0],
    }
}
