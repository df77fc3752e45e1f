// Runs power-up, arm and confirm on real images, three sectors of 256: every budget from 0 to 25 and every pair of them, on an update and on
// a fallback; document 01's marked cases on real images; and what is turned down or refused.
#![tactic(auto)]

use digest_sha256::Hasher;
use header_reader::Header;
use numbers::{CommandRefusal, PowerUpRefusal, RefusedInside, TurnDownReason};
use power_up::{Outcome, PowerUpAnswer};
use std::io;

const SECTORS: usize = 3;

const SIZE: usize = 256;

const PARTITION: usize = 768;

fn print(rt: &impl Print, text: &str) -> io::Result<()> {
    rt.print(text)
}

// ---- the flash

// The last byte of a firmware, which tells two firmwares apart, is its version.
fn firmware(version: u8) -> [u8; SIZE] {
    let mut code = [0x33u8; SIZE];
    code[255] = version;
    code
}

fn header_of(version: u8, digest: [u8; 32]) -> Header {
    Header {
        size: 256,
        version: version as u32,
        timestamp: 1700000000,
        digest,
        signature: [0x44u8; 64],
        auth_type: 512,
        has_hint: false,
        hint: [0u8; 32],
    }
}

// The digest of the header's bytes before the digest's tag, and of the firmware.
fn digest_image(header: &[u8], code: &[u8]) -> [u8; 32] {
    if header.len() < header_writer::DIGEST_TAG {
        return [0u8; 32];
    }
    digest_sha256::digest_of_two(&header[0..header_writer::DIGEST_TAG], code)
}

// A partition with a good image of a version, its trailer sector erased up to the status byte.
fn partition_of(version: u8, status: u8) -> [u8; PARTITION] {
    let mut partition = [0xFFu8; PARTITION];
    let code = firmware(version);
    let _ = header_writer::write_header(&mut partition, header_of(version, [0u8; 32]));
    let digest = digest_image(&partition, &code);
    let _ = header_writer::write_header(&mut partition, header_of(version, digest));
    partition[256..256 + code.len()].copy_from_slice(&code);
    partition[767] = status;
    partition
}

// ---- what is printed

// A refusal by its number, with the own number and place of a bad image within it.
fn print_refused(rt: &impl Print, r: RefusedInside) -> io::Result<()> {
    print!(rt; "refused {}", r.number)?;
    if r.inner != 0 {
        print!(rt; " for {} at {}", r.inner, r.place)?;
    }
    Ok(())
}

fn print_outcome(rt: &impl Print, outcome: Result<Outcome, PowerUpRefusal>) -> io::Result<()> {
    match outcome {
        Ok(Outcome::Cut) => print(rt, "cut"),
        Ok(Outcome::Run) => print(rt, "run"),
        Ok(Outcome::RunOnTest) => print(rt, "run on test"),
        Ok(Outcome::RunFallenBack) => print(rt, "run, fallen back"),
        Err(refusal) => print_refused(rt, refusal.into()),
    }
}

fn print_reason(rt: &impl Print, reason: Option<TurnDownReason>) -> io::Result<()> {
    if reason.is_some() {
        let why = numbers::of_reason(reason);
        print!(rt; ", turned down with {} at {}", why.number, why.place)?;
    }
    Ok(())
}

fn print_answer(rt: &impl Print, answer: PowerUpAnswer) -> io::Result<()> {
    print_outcome(rt, answer.outcome)?;
    print!(rt; " with {}", answer.count)?;
    print_reason(rt, answer.reason)
}

// The status bytes, the flag byte, and the first bytes of the digest of the whole flash.
fn print_flash(
    rt: &impl Print,
    boot: [u8; PARTITION],
    update: [u8; PARTITION],
    swap: [u8; SIZE],
) -> io::Result<()> {
    print!(rt;
        "; boot {:02x} update {:02x} flags {:02x}",
        boot[767], update[767], update[766]
    )?;
    let digest = Hasher::new()
        .absorb(&boot)
        .absorb(&update)
        .absorb(&swap)
        .finish();
    println!(rt;
        " bytes {:02x}{:02x}{:02x}{:02x}",
        digest[0], digest[1], digest[2], digest[3]
    )
}

// ---- the runs

// A power-up, and what it answers.
fn power(
    rt: &impl Print,
    boot: &mut [u8],
    update: &mut [u8],
    swap: &mut [u8],
    budget: u64,
) -> io::Result<()> {
    print!(rt; "{budget} ")?;
    print_answer(
        rt,
        power_up::power_up(SECTORS, SIZE, boot, update, swap, budget),
    )
}

// Two power-ups, one after the other.
fn two(
    rt: &impl Print,
    boot: [u8; PARTITION],
    update: [u8; PARTITION],
    swap: [u8; SIZE],
    first: u64,
    second: u64,
) -> io::Result<()> {
    let mut b = boot;
    let mut u = update;
    let mut s = swap;
    power(rt, &mut b, &mut u, &mut s, first)?;
    print(rt, "; ")?;
    power(rt, &mut b, &mut u, &mut s, second)?;
    print_flash(rt, b, u, s)
}

// One power-up.
fn one(
    rt: &impl Print,
    boot: [u8; PARTITION],
    update: [u8; PARTITION],
    swap: [u8; SIZE],
    budget: u64,
) -> io::Result<()> {
    let mut b = boot;
    let mut u = update;
    let mut s = swap;
    power(rt, &mut b, &mut u, &mut s, budget)?;
    print_flash(rt, b, u, s)
}

fn pairs_from(
    rt: &impl Print,
    boot: [u8; PARTITION],
    update: [u8; PARTITION],
    swap: [u8; SIZE],
    first: u64,
) -> io::Result<()> {
    for second in 0..26 {
        two(rt, boot, update, swap, first, second)?;
    }
    Ok(())
}

// Every budget, then every pair of budgets.
fn budgets(
    rt: &impl Print,
    boot: [u8; PARTITION],
    update: [u8; PARTITION],
    swap: [u8; SIZE],
) -> io::Result<()> {
    for budget in 0..26 {
        one(rt, boot, update, swap, budget)?;
    }
    for first in 0..26 {
        pairs_from(rt, boot, update, swap, first)?;
    }
    Ok(())
}

fn with_byte(partition: [u8; PARTITION], at: usize, value: u8) -> [u8; PARTITION] {
    let mut p = partition;
    if at < PARTITION {
        p[at] = value;
    }
    p
}

// The same three budgets for each start that is turned down, refused or plain.
fn few(
    rt: &impl Print,
    label: &str,
    boot: [u8; PARTITION],
    update: [u8; PARTITION],
) -> io::Result<()> {
    println!(rt; "{label}")?;
    let swap = [0x5Au8; SIZE];
    one(rt, boot, update, swap, 0)?;
    one(rt, boot, update, swap, 1)?;
    one(rt, boot, update, swap, 100)
}

// A start by its versions and statuses.
fn start(
    rt: &impl Print,
    label: &str,
    boot: u8,
    boot_status: u8,
    update: u8,
    update_status: u8,
) -> io::Result<()> {
    few(
        rt,
        label,
        partition_of(boot, boot_status),
        partition_of(update, update_status),
    )
}

// An update from version 7 to 8 with a byte of BOOT and one of UPDATE set. The bytes at 767 are the statuses.
fn update(
    rt: &impl Print,
    label: &str,
    boot_at: usize,
    boot_byte: u8,
    update_at: usize,
    update_byte: u8,
) -> io::Result<()> {
    few(
        rt,
        label,
        with_byte(partition_of(7, 0x00), boot_at, boot_byte),
        with_byte(partition_of(8, 0x70), update_at, update_byte),
    )
}

// The same for a fallback from version 7 to 6.
fn fallback(
    rt: &impl Print,
    label: &str,
    boot_at: usize,
    boot_byte: u8,
    update_at: usize,
    update_byte: u8,
) -> io::Result<()> {
    few(
        rt,
        label,
        with_byte(partition_of(7, 0x10), boot_at, boot_byte),
        with_byte(partition_of(6, 0xFF), update_at, update_byte),
    )
}

fn turned_down(rt: &impl Print) -> io::Result<()> {
    start(rt, "equal versions", 7, 0x00, 7, 0x70)?;
    start(rt, "older version", 7, 0x00, 6, 0x70)?;
    start(rt, "one more", 7, 0x00, 8, 0x70)
}

fn bad_images(rt: &impl Print) -> io::Result<()> {
    update(rt, "bad UPDATE", 767, 0x00, 300, 0)?;
    update(rt, "bad UPDATE header", 767, 0x00, 0, 0)?;
    update(rt, "bad BOOT", 511, 0, 767, 0x70)?;
    update(rt, "both bad", 511, 0, 300, 0)
}

fn statuses(rt: &impl Print) -> io::Result<()> {
    start(rt, "BOOT is NEW", 7, 0xFF, 8, 0x70)?;
    start(rt, "BOOT status 70", 7, 0x70, 8, 0x70)?;
    start(rt, "UPDATE status 10", 7, 0x00, 8, 0x10)
}

fn flags(rt: &impl Print) -> io::Result<()> {
    update(rt, "flag byte 7F", 767, 0x00, 766, 0x7F)?;
    update(rt, "flag byte F7", 767, 0x00, 766, 0xF7)?;
    update(rt, "flag byte F1", 767, 0x00, 766, 0xF1)?;
    update(rt, "flag byte 00", 767, 0x00, 766, 0x00)
}

fn closing(rt: &impl Print) -> io::Result<()> {
    start(rt, "TESTING and UPDATING, flags F", 7, 0x10, 8, 0x70)?;
    update(rt, "TESTING and UPDATING, flags 0", 767, 0x10, 766, 0x00)?;
    update(
        rt,
        "TESTING and UPDATING, flag byte F7",
        767,
        0x10,
        766,
        0xF7,
    )
}

fn plain(rt: &impl Print) -> io::Result<()> {
    start(rt, "plain", 7, 0x00, 8, 0xFF)?;
    update(rt, "plain, bad BOOT", 511, 0, 767, 0xFF)
}

fn fallbacks(rt: &impl Print) -> io::Result<()> {
    fallback(rt, "fallback, bad UPDATE", 767, 0x10, 300, 0)?;
    fallback(rt, "fallback, bad BOOT", 511, 0, 767, 0xFF)?;
    fallback(rt, "fallback, flag byte 7F", 767, 0x10, 766, 0x7F)
}

fn print_command(rt: &impl Print, answer: Result<u64, CommandRefusal>) -> io::Result<()> {
    match answer {
        Ok(count) => print!(rt; "done with {count}"),
        Err(refusal) => print!(rt; "refused {}", u32::from(refusal)),
    }
}

fn arm(rt: &impl Print, boot: [u8; PARTITION], update: [u8; PARTITION]) -> io::Result<()> {
    let mut b = boot;
    let mut u = update;
    let mut s = [0x5Au8; SIZE];
    print(rt, "arm ")?;
    print_command(
        rt,
        exchange_commands::arm(SECTORS, SIZE, &mut b, &mut u, &mut s),
    )?;
    print_flash(rt, b, u, s)
}

fn confirm(rt: &impl Print, boot: [u8; PARTITION], update: [u8; PARTITION]) -> io::Result<()> {
    let mut b = boot;
    let mut u = update;
    let mut s = [0x5Au8; SIZE];
    print(rt, "confirm ")?;
    print_command(
        rt,
        exchange_commands::confirm(SECTORS, SIZE, &mut b, &mut u, &mut s),
    )?;
    print_flash(rt, b, u, s)
}

// Arm, and confirm, from the same start.
fn both(
    rt: &impl Print,
    label: &str,
    boot_status: u8,
    update_status: u8,
    flags: u8,
) -> io::Result<()> {
    let boot = partition_of(7, boot_status);
    let update = with_byte(partition_of(8, update_status), 766, flags);
    println!(rt; "{label}")?;
    arm(rt, boot, update)?;
    confirm(rt, boot, update)
}

fn at_rest(rt: &impl Print) -> io::Result<()> {
    both(rt, "SUCCESS, NEW", 0x00, 0xFF, 0xFF)?;
    both(rt, "NEW, NEW", 0xFF, 0xFF, 0xFF)?;
    both(rt, "TESTING, NEW", 0x10, 0xFF, 0xFF)
}

fn at_work(rt: &impl Print) -> io::Result<()> {
    both(rt, "SUCCESS, UPDATING", 0x00, 0x70, 0xFF)?;
    both(rt, "TESTING, UPDATING", 0x10, 0x70, 0xFF)?;
    both(rt, "UPDATING, NEW", 0x70, 0xFF, 0xFF)?;
    both(rt, "TESTING, NEW, flag byte 7F", 0x10, 0xFF, 0x7F)?;
    both(rt, "TESTING, NEW, flag byte F7", 0x10, 0xFF, 0xF7)
}

fn exchanges(rt: &impl Print) -> io::Result<()> {
    let swap = [0x5Au8; SIZE];
    print(rt, "update\n")?;
    budgets(rt, partition_of(7, 0x00), partition_of(8, 0x70), swap)?;
    print(rt, "fallback\n")?;
    budgets(rt, partition_of(7, 0x10), partition_of(6, 0xFF), swap)
}

fn main(rt: HostRuntime) -> io::Result<()> {
    exchanges(&rt)?;
    turned_down(&rt)?;
    bad_images(&rt)?;
    statuses(&rt)?;
    flags(&rt)?;
    closing(&rt)?;
    plain(&rt)?;
    fallbacks(&rt)?;
    at_rest(&rt)?;
    at_work(&rt)
}
