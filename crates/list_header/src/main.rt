// Lists the header at the start of standard input.
#![tactic(auto)]

use std::io;
use std::io::Read;

fn main(rt: HostRuntime) -> io::Result<()> {
    let mut header = Vec::new(rt.alloc());
    rt.reader()
        .take(listing::HEADER_LENGTH as u64)
        .read_to_end(&mut header)?;
    let mut text = [0u8; listing::TEXT_LENGTH];
    let k = listing::list(&header, &mut text);
    rt.write_all(&text[..k])
}
