// Reads the headers that stand one behind another in standard input, 256 bytes each, by the sealed profile. Prints a line for each.
#![tactic(auto)]

use numbers::Numbered;
use std::io;
use std::io::Read;

// As many as are read at most.
const MOST_HEADERS: usize = 4096;

// Reads the next header. Says whether there was a byte of it.
fn read_next(rt: &(impl Input + Alloc + Print)) -> io::Result<bool> {
    let mut header = Vec::new(rt.alloc());
    rt.reader()
        .take(header_tags::HEADER_LENGTH as u64)
        .read_to_end(&mut header)?;
    if header.is_empty() {
        return Ok(false);
    }
    match header_sealed::read_sealed(&header) {
        Ok(_) => println!(rt; "sealed")?,
        Err(refusal) => {
            let refused = refusal.refused();
            let mut text = [0; 128];
            let k = listing_lines::put_refusal(&mut text, refused.number as usize, refused.place);
            rt.write_all(&text[..k])?;
        }
    }
    Ok(true)
}

fn main(rt: HostRuntime) -> io::Result<()> {
    for _ in 0..MOST_HEADERS {
        if !read_next(&rt)? {
            break;
        }
    }
    Ok(())
}
