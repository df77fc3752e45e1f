// Reads release sheets. Its first argument names a firmware, the others name sheets. Below a sheet's name stand the values that it states
// and the headers that are made of them, or the line of its refusal.
#![tactic(auto)]

ghost use Rattle.std.specs.Prelude.{◌≤◌, IfOk, vec_len};

use numbers::{Numbered, Refused};
use release_values::Stated;
use std::io::Read;
use std::rt::Runtime;
use std::{env, fs, io};

// As many bytes of a file as are read at most.
const MOST_BYTES: u64 = 4096;

// A line of two hexadecimal digits for each byte.
fn print_bytes(rt: &impl Print, label: &str, bytes: &[u8]) -> io::Result<()> {
    print!(rt; "{label} ")?;
    for b in bytes {
        print!(rt; "{b:02x}")?;
    }
    println!(rt; "")
}

fn print_refusal(rt: &impl Print, refused: Refused) -> io::Result<()> {
    let number = refused.number;
    let place = refused.place;
    println!(rt; "refused {number} at {place}")
}

// The start of the file that an argument names; no byte where there is none.
fn read_argument<R: Runtime>(rt: &R, name: &str) -> io::Result<Vec<u8, R::A>>
    ensures { IfOk result (λ bytes. vec_len bytes ≤ 4096) }
{
    let mut bytes = Vec::new(rt.alloc());
    match fs::open(rt, name) {
        Ok(file) => {
            file.take(MOST_BYTES).read_to_end(&mut bytes)?;
            bytes.truncate(MOST_BYTES as usize);
        }
        Err(e) => eprintln!(rt; "{name}: {e}")?,
    }
    Ok(bytes)
}

// Makes a header in a lent output, and prints all that the output then holds.
fn print_made(rt: &impl Print, out: &mut [u8], firmware: &[u8], v: Stated) -> io::Result<()> {
    if let Err(refusal) = release_header::make_header(out, firmware, v) {
        print_refusal(rt, refusal.refused())?;
    }
    print_bytes(rt, "output", out)
}

// The header of the firmware, in an output with two bytes more than it needs; then the two refusals: no firmware, and an output with a
// byte less.
fn print_headers(rt: &impl Runtime, firmware: &str, v: Stated) -> io::Result<()> {
    let code = read_argument(rt, firmware)?;
    print_made(rt, &mut [0xAAu8; 258], &code, v)?;
    print_made(rt, &mut [0xAAu8; 258], b"", v)?;
    print_made(rt, &mut [0xAAu8; 255], &code, v)
}

// The values in the order of the listing, each as a sheet has it.
fn print_stated(rt: &impl Print, v: Stated) -> io::Result<()> {
    let version = v.version;
    let timestamp = v.timestamp;
    let auth_type = v.auth_type;
    println!(rt; "version {version}")?;
    println!(rt; "timestamp {timestamp}")?;
    println!(rt; "auth {auth_type}")?;
    if v.has_hint {
        print_bytes(rt, "hint", &v.hint)?;
    } else {
        println!(rt; "hint no")?;
    }
    print_bytes(rt, "signature", &v.signature)
}

fn read_one(rt: &impl Runtime, firmware: &str, name: &str) -> io::Result<()> {
    println!(rt; "{name}")?;
    let text = read_argument(rt, name)?;
    match release_sheet::read_sheet(&text) {
        Ok(stated) => {
            print_stated(rt, stated)?;
            print_headers(rt, firmware, stated)
        }
        Err(refusal) => print_refusal(rt, refusal.refused()),
    }
}

fn main(rt: HostRuntime) -> io::Result<()> {
    let mut names = env::args(&rt)?.skip(1);
    if let Some(firmware) = names.next() {
        for name in names {
            read_one(&rt, &firmware, &name)?;
        }
    }
    Ok(())
}
