// Lists the headers at the start of the files that its arguments name, each below the file's name.
#![tactic(auto)]

use std::io::Read;
use std::rt::Runtime;
use std::{env, fs, io};

fn list_file<F: Read + Drop>(rt: &(impl Print + Alloc), name: &str, file: F) -> io::Result<()> {
    let mut header = Vec::new(rt.alloc());
    file.take(listing::HEADER_LENGTH as u64)
        .read_to_end(&mut header)?;
    let mut text = [0u8; listing::TEXT_LENGTH];
    let k = listing::list(&header, &mut text);
    println!(rt; "{name}")?;
    rt.write_all(&text[..k])
}

fn list_argument(rt: &impl Runtime, name: &str) -> io::Result<()> {
    match fs::open(rt, name) {
        Ok(file) => list_file(rt, name, file),
        Err(e) => eprintln!(rt; "{name}: {e}"),
    }
}

fn main(rt: HostRuntime) -> io::Result<()> {
    for name in env::args(&rt)?.skip(1) {
        list_argument(&rt, &name)?;
    }
    Ok(())
}
