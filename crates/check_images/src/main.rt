// Prints what the image check says of the files that its arguments name, each laid at the start of an erased partition, and then of
// copies of the first one with a byte changed.
#![tactic(auto)]

use numbers::{Numbered, Refused};
use std::io::Read;
use std::rt::Runtime;
use std::{env, fs, io};

const SECTORS: usize = 3;

const SIZE: usize = 256;

const PARTITION: usize = SECTORS * SIZE;

// The answer of the check of a partition.
fn print_check(rt: &impl Print, partition: [u8; PARTITION]) -> io::Result<()> {
    match image::check_image(SECTORS, SIZE, &partition) {
        Ok(header) => {
            let version = header.version;
            println!(rt; "good, version {version}")
        }
        Err(refusal) => {
            let Refused { number, place } = refusal.refused();
            println!(rt; "refused {number} at {place}")
        }
    }
}

// The partition that begins with a file's bytes.
fn partition_of(rt: &impl Runtime, name: &str) -> io::Result<[u8; PARTITION]> {
    let mut partition = [0xFFu8; PARTITION];
    match fs::open(rt, name) {
        Ok(file) => {
            let mut bytes = Vec::new(rt.alloc());
            file.take(PARTITION as u64).read_to_end(&mut bytes)?;
            let n = bytes.len().min(PARTITION);
            partition[..n].copy_from_slice(&bytes[..n]);
        }
        Err(e) => eprintln!(rt; "{name}: {e}")?,
    }
    Ok(partition)
}

fn check_argument(rt: &impl Runtime, name: &str) -> io::Result<()> {
    print!(rt; "{name}: ")?;
    print_check(rt, partition_of(rt, name)?)
}

// The same partition with the bits of `mask` changed in one byte.
fn print_damaged(
    rt: &impl Print,
    partition: [u8; PARTITION],
    at: usize,
    mask: u8,
) -> io::Result<()> {
    if at < PARTITION {
        let mut damaged = partition;
        damaged[at] ^= mask;
        print!(rt; "byte {at} changed by {mask}: ")?;
        print_check(rt, damaged)?;
    }
    Ok(())
}

fn check_damaged(rt: &impl Print, partition: [u8; PARTITION], mask: u8) -> io::Result<()> {
    for at in (0..264).chain([300, 511, 512, 767]) {
        print_damaged(rt, partition, at, mask)?;
    }
    Ok(())
}

// Copies of the first file, damaged in several ways.
fn check_first(rt: &impl Runtime, name: &str) -> io::Result<()> {
    let partition = partition_of(rt, name)?;
    for mask in [1, 128, 255] {
        check_damaged(rt, partition, mask)?;
    }
    Ok(())
}

fn main(rt: HostRuntime) -> io::Result<()> {
    let names: Vec<String> = env::args(&rt)?.skip(1).collect(rt.alloc())?;
    for name in &names {
        check_argument(&rt, name)?;
    }
    let first = names.first().map_or("", |name| name.as_str());
    check_first(&rt, first)
}
