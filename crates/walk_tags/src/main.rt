// Walks over the headers at the start of the files that its arguments name. Below a file's name stands a line for each call of the
// walker, up to the end or a refusal, and a line for one call more, which repeats it.
#![tactic(auto)]

use header_tags::{Tag, WalkRefusal};
use numbers::{Numbered, Refused};
use std::io::Read;
use std::rt::Runtime;
use std::{env, fs, io};

// A header has 62 tags at most, so that call number 62, the 63rd, is the end or a refusal at the latest.
const MOST_CALLS: usize = 63;

// Prints an answer, and says whether it is a tag.
fn print_answer(rt: &impl Print, found: Result<Option<Tag>, WalkRefusal>) -> io::Result<bool> {
    match found {
        Ok(Some(tag)) => {
            let Tag {
                place,
                kind,
                length,
            } = tag;
            println!(rt; "place {place} type {kind} length {length}")?;
            return Ok(true);
        }
        Ok(None) => println!(rt; "end")?,
        Err(refusal) => {
            let Refused { number, place } = refusal.refused();
            println!(rt; "refused {number} at {place}")?;
        }
    }
    Ok(false)
}

fn print_walk(rt: &impl Print, header: &[u8]) -> io::Result<()> {
    for n in 0..MOST_CALLS {
        if !print_answer(rt, header_walker::nth(header, n))? {
            print_answer(rt, header_walker::nth(header, n + 1))?;
            break;
        }
    }
    Ok(())
}

fn walk_file<F: Read + Drop>(rt: &(impl Print + Alloc), name: &str, file: F) -> io::Result<()> {
    let mut header = Vec::new(rt.alloc());
    file.take(header_tags::HEADER_LENGTH as u64)
        .read_to_end(&mut header)?;
    println!(rt; "{name}")?;
    print_walk(rt, &header)
}

fn walk_argument(rt: &impl Runtime, name: &str) -> io::Result<()> {
    match fs::open(rt, name) {
        Ok(file) => walk_file(rt, name, file),
        Err(e) => eprintln!(rt; "{name}: {e}"),
    }
}

fn main(rt: HostRuntime) -> io::Result<()> {
    for name in env::args(&rt)?.skip(1) {
        walk_argument(&rt, &name)?;
    }
    Ok(())
}
