// Prints what the flash answers in document 01's marked cases 11 and 12, the latter as document 02 has it, and around them, and what flag
// bytes show.
#![tactic(auto)]

use flash::Geometry;
use flash_flags::{Flags, Leg};
use flash_status::{BootStatus, UnknownStatus, UpdateStatus};
use std::io;

const DONE: &str = "done";

const TAKEN: &str = "taken";

const OUTSIDE: &str = "refused 1 at 0";

const NOT_ALLOWED: &str = "refused 10 at 0";

fn taken_or_not(answer: Option<Geometry>) -> &'static str {
    if answer.is_some() { TAKEN } else { OUTSIDE }
}

// ---- geometries

fn geometry(rt: &impl Print, n: usize, size: usize) -> io::Result<()> {
    let answer = taken_or_not(Geometry::new(n, size));
    println!(rt; "n {n} S {size}: {answer}")
}

fn geometries(rt: &impl Print) -> io::Result<()> {
    for n in [512, 513, 1, 2, 511, 64, 65] {
        for size in [256, 384, 512, 131072, 131328] {
            geometry(rt, n, size)?;
        }
    }
    geometry(rt, 3, 768)?;
    geometry(rt, 2, 0)?;
    geometry(rt, 0, 256)
}

fn near_the_largest(rt: &impl Print) -> io::Result<()> {
    geometry(rt, usize::MAX, usize::MAX)?;
    geometry(rt, usize::MAX, 512)?;
    geometry(rt, usize::MAX, 256)?;
    geometry(rt, 9223372036854775808, 512)?;
    geometry(rt, 2, usize::MAX)?;
    geometry(rt, 2, 18446744073709551360)
}

// ---- geometries with buffers

// The first n bytes of s, or all of them.
fn first(s: &[u8], n: usize) -> &[u8] {
    s.get(..n).unwrap_or(s)
}

// BOOT, UPDATE and SWAP with so many bytes of s each.
fn buffers(
    rt: &impl Print,
    s: &[u8],
    n: usize,
    size: usize,
    lengths: [usize; 3],
) -> io::Result<()> {
    let [boot, update, swap] = lengths;
    let boot = first(s, boot);
    let update = first(s, update);
    let swap = first(s, swap);
    let answer = taken_or_not(flash::check_flash(n, size, boot, update, swap));
    let (boot, update, swap) = (boot.len(), update.len(), swap.len());
    println!(rt; "n {n} S {size} BOOT {boot} UPDATE {update} SWAP {swap}: {answer}")
}

fn few_sectors(rt: &impl Print, s: &[u8]) -> io::Result<()> {
    for lengths in [
        [512, 512, 256],
        [511, 512, 256],
        [513, 512, 256],
        [0, 512, 256],
        [512, 511, 256],
        [512, 513, 256],
        [512, 0, 256],
        [512, 512, 255],
        [512, 512, 257],
        [512, 512, 0],
    ] {
        buffers(rt, s, 2, 256, lengths)?;
    }
    Ok(())
}

fn other_geometries(rt: &impl Print, s: &[u8]) -> io::Result<()> {
    buffers(rt, s, 3, 256, [512, 512, 256])?;
    buffers(rt, s, 3, 256, [768, 768, 256])?;
    buffers(rt, s, 513, 256, [131328, 131328, 256])?;
    buffers(rt, s, 2, 384, [768, 768, 384])?;
    buffers(rt, s, 512, 256, [131072, 131072, 256])?;
    buffers(rt, s, 72057594037927938, 256, [512, 512, 256])
}

fn most_sectors(rt: &impl Print, s: &[u8]) -> io::Result<()> {
    for lengths in [
        [262144, 262144, 512],
        [262143, 262144, 512],
        [262145, 262144, 512],
        [262144, 262143, 512],
        [262144, 262145, 512],
        [262144, 262144, 511],
        [262144, 262144, 513],
    ] {
        buffers(rt, s, 512, 512, lengths)?;
    }
    Ok(())
}

fn partition(rt: &impl Print, n: usize, size: usize, s: &[u8]) -> io::Result<()> {
    let answer = taken_or_not(flash::check_partition(n, size, s));
    let length = s.len();
    println!(rt; "n {n} S {size} partition {length}: {answer}")
}

fn partitions(rt: &impl Print, s: &[u8]) -> io::Result<()> {
    for (n, length) in [
        (2, 512),
        (2, 511),
        (2, 513),
        (1, 256),
        (511, 130816),
        (511, 130815),
        (511, 130817),
        (512, 131072),
    ] {
        partition(rt, n, 256, first(s, length))?;
    }
    Ok(())
}

// ---- copies

fn copy(rt: &impl Print, target: &mut [u8], source: &[u8]) -> io::Result<()> {
    let (from, over) = (source.len(), target.len());
    let answer = match flash_sectors::copy(target, source) {
        Ok(()) => DONE,
        Err(_) => OUTSIDE,
    };
    println!(rt; "copy {from} over {over}: {answer}")
}

fn copies(rt: &impl Print, source: &[u8]) -> io::Result<()> {
    copy(rt, &mut [0; 256], source)?;
    copy(rt, &mut [0; 255], source)
}

// ---- status bytes

trait Named {
    fn name(self) -> &'static str;
}

impl Named for BootStatus {
    fn name(self) -> &'static str {
        match self {
            BootStatus::New => "NEW",
            BootStatus::Testing => "TESTING",
            BootStatus::Success => "SUCCESS",
        }
    }
}

impl Named for UpdateStatus {
    fn name(self) -> &'static str {
        match self {
            UpdateStatus::New => "NEW",
            UpdateStatus::Updating => "UPDATING",
        }
    }
}

fn status_name<S: TryFrom<u8, Error = UnknownStatus> + Named>(
    n: usize,
    size: usize,
    s: &[u8],
) -> &'static str {
    let Some(g) = flash::check_partition(n, size, s) else {
        return OUTSIDE;
    };
    match flash_status::read_status::<S>(g, s) {
        Ok(status) => status.name(),
        Err(_) => NOT_ALLOWED,
    }
}

// A byte of a partition is written and told.
fn put(
    rt: &impl Print,
    n: usize,
    size: usize,
    s: &mut [u8],
    at: usize,
    byte: u8,
) -> io::Result<()> {
    if let Some(b) = s.get_mut(at) {
        *b = byte;
    }
    print!(rt; "n {n} S {size} byte {at} is {byte:02x}: ")
}

// The byte as a status of BOOT and of UPDATE.
fn status(
    rt: &impl Print,
    n: usize,
    size: usize,
    s: &mut [u8],
    at: usize,
    byte: u8,
) -> io::Result<()> {
    put(rt, n, size, s, at, byte)?;
    let name = status_name::<BootStatus>(n, size, s);
    println!(rt; "BOOT: {name}")?;
    put(rt, n, size, s, at, byte)?;
    let name = status_name::<UpdateStatus>(n, size, s);
    println!(rt; "UPDATE: {name}")
}

fn statuses(rt: &impl Print) -> io::Result<()> {
    let mut s = [0xAAu8; 512];
    for byte in [0xFF, 0x70, 0x10, 0x00, 0x01] {
        status(rt, 2, 256, &mut s, 511, byte)?;
    }
    Ok(())
}

// ---- flags

fn leg_name(leg: Leg) -> &'static str {
    match leg {
        Leg::UpdateToSwap => "UPDATE to SWAP",
        Leg::BootToUpdate => "BOOT to UPDATE",
        Leg::SwapToBoot => "SWAP to BOOT",
    }
}

fn flags(rt: &impl Print, n: usize, size: usize, update: &[u8]) -> io::Result<()> {
    let Some(g) = flash::check_partition(n, size, update) else {
        return println!(rt; "{OUTSIDE}");
    };
    match flash_flags::read_flags(g, update) {
        Flags::Malformed => println!(rt; "not well formed"),
        Flags::AllF => println!(rt; "all F"),
        Flags::All0 => println!(rt; "all 0"),
        Flags::At(i, leg) => {
            let (i, leg) = (i.0, leg_name(leg));
            println!(rt; "sector {i} {leg}")
        }
    }
}

// What the flags show with these bytes, one after the other.
fn shown(
    rt: &impl Print,
    n: usize,
    size: usize,
    s: &mut [u8],
    bytes: &[(usize, u8)],
) -> io::Result<()> {
    for (at, byte) in bytes {
        put(rt, n, size, s, *at, *byte)?;
        flags(rt, n, size, s)?;
    }
    Ok(())
}

// Two firmware sectors, whose flags fill a byte.
fn flags_of_two(rt: &impl Print) -> io::Result<()> {
    let mut s = [0xAAu8; 768];
    for byte in [0xFF, 0xF7, 0xF3, 0xF0, 0x70, 0x30, 0x00] {
        shown(rt, 3, 256, &mut s, &[(766, byte)])?;
    }
    let mut s = [0xAAu8; 768];
    for byte in [0x7F, 0x73, 0xF5] {
        shown(rt, 3, 256, &mut s, &[(766, byte)])?;
    }
    Ok(())
}

// One firmware sector: the high half byte is unused.
fn flags_of_one(rt: &impl Print) -> io::Result<()> {
    let mut s = [0xAAu8; 512];
    for byte in [0xAF, 0xA7, 0xA0, 0xFA] {
        shown(rt, 2, 256, &mut s, &[(510, byte)])?;
    }
    Ok(())
}

// Four: the flags of sectors 0 and 1, and those of 2 and 3 in the byte before.
fn flags_of_four(rt: &impl Print) -> io::Result<()> {
    let bytes = [
        (1278, 0xF0),
        (1278, 0x00),
        (1277, 0xF7),
        (1277, 0x7F),
        (1277, 0xF0),
        (1277, 0x30),
        (1277, 0x00),
        (1278, 0xFF),
    ];
    shown(rt, 5, 256, &mut [0xFF; 1280], &bytes)
}

// 63: first the flags of sectors 0 to 3, with F behind them; then those of 60 and 61, with 0 before them, and of 62, whose high half is
// unused.
fn flags_of_63(rt: &impl Print) -> io::Result<()> {
    let first = [(16382, 0xF7), (16382, 0x00), (16381, 0x30)];
    shown(rt, 64, 256, &mut [0xFF; 16384], &first)?;
    let last = [
        (16351, 0xFF),
        (16352, 0x70),
        (16352, 0x00),
        (16351, 0xA3),
        (16351, 0x7A),
    ];
    shown(rt, 64, 256, &mut [0x00; 16384], &last)
}

// ---- statuses and flags of the most sectors

// 510 firmware sectors with 0 in every flag, whose trailer fills its sector: the flags of sectors 506 to 509, the last two in the sector's
// first byte. Then F in every flag: those of sectors 0 to 3.
fn with_510(rt: &impl Print, s: &mut [u8]) -> io::Result<()> {
    let Some(part) = s.get_mut(..130816) else {
        return Ok(());
    };
    status(rt, 511, 256, part, 130815, 0x10)?;
    status(rt, 511, 256, part, 130815, 0x70)?;
    let last = [
        (130560, 0xFF),
        (130561, 0x70),
        (130561, 0x00),
        (130560, 0x30),
        (130560, 0x7F),
    ];
    shown(rt, 511, 256, part, &last)?;
    flash_sectors::erase(&mut part[130560..]);
    let first = [(130814, 0xF7), (130814, 0x00), (130813, 0x30)];
    shown(rt, 511, 256, part, &first)
}

// 511 with 0 in every flag: those of sectors 508 to 510, the high half of the last byte being unused.
fn with_511(rt: &impl Print, s: &mut [u8]) -> io::Result<()> {
    let Some(part) = s.get_mut(..262144) else {
        return Ok(());
    };
    status(rt, 512, 512, part, 262143, 0x10)?;
    status(rt, 512, 512, part, 262143, 0x70)?;
    let last = [
        (261887, 0xFF),
        (261888, 0x70),
        (261888, 0x00),
        (261887, 0xA3),
        (261887, 0x7A),
    ];
    shown(rt, 512, 512, part, &last)
}

// Cases in parts of one buffer, which has room for 512 sectors of 512 bytes and a byte more.
fn in_buffer(rt: &impl Print, s: &mut [u8]) -> io::Result<()> {
    few_sectors(rt, s)?;
    other_geometries(rt, s)?;
    most_sectors(rt, s)?;
    partitions(rt, s)?;
    copies(rt, first(s, 256))?;
    with_511(rt, s)?;
    with_510(rt, s)
}

fn main(rt: HostRuntime) -> io::Result<()> {
    geometries(&rt)?;
    near_the_largest(&rt)?;
    let mut s = [0u8; 262145];
    in_buffer(&rt, &mut s)?;
    statuses(&rt)?;
    flags_of_two(&rt)?;
    flags_of_one(&rt)?;
    flags_of_four(&rt)?;
    flags_of_63(&rt)
}
