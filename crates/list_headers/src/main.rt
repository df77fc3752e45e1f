// Lists the headers that stand one behind another in standard input, 256 bytes each.
#![tactic(auto)]

use std::io;
use std::io::Read;

// As many as are read at most.
const MOST_HEADERS: usize = 4096;

// Lists the next header. Says whether there was a byte of it.
fn list_next(rt: &(impl Input + Alloc + Print)) -> io::Result<bool> {
    let mut header = Vec::new(rt.alloc());
    rt.reader()
        .take(listing::HEADER_LENGTH as u64)
        .read_to_end(&mut header)?;
    if header.is_empty() {
        return Ok(false);
    }
    let mut text = [0u8; listing::TEXT_LENGTH];
    let k = listing::list(&header, &mut text);
    rt.write_all(&text[..k])?;
    Ok(true)
}

fn main(rt: HostRuntime) -> io::Result<()> {
    for _ in 0..MOST_HEADERS {
        if !list_next(&rt)? {
            break;
        }
    }
    Ok(())
}
