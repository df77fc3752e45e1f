// Lines of text: a header's fields by name, and the line of a refusal.
// Digits by `io::decimal` and runs by `put`, not `write!`: that promises its text only where it succeeds, and a listing always does.
#![tactic(auto)]

ghost use Rattle.std.specs.Prelude.{◌+◌, ◌≤◌, length};
ghost use Rattle.listing_lines.specs.Lines.{named, line, hint, fields, refusal};
ghost use Rattle.output.specs.Puts.{Puts};

use header_reader::Header;
use output::put;

// Writes words and a number, which has at most 20 digits. Like the functions below it answers the place behind what it wrote.
fn put_named(out: &mut [u8], at: usize, words: &[u8], n: u64) -> usize
    requires { at + length words.now + 20 ≤ length out.old }
    ensures puts { Puts out.old out.new at (named words.now n) result }
    ensures upper_bound { result ≤ at + length words.now + 20 }
{
    let mut digits = [0; 20];
    let k = io::decimal(n, &mut digits);
    let at = put(out, at, words);
    put(out, at, &digits[..k])
}

// The same as a line of its own.
fn put_line(out: &mut [u8], at: usize, words: &[u8], n: u64) -> usize
    requires { at + length words.now + 21 ≤ length out.old }
    ensures puts { Puts out.old out.new at (line (named words.now n)) result }
    ensures upper_bound { result ≤ at + length words.now + 21 }
{
    let at = put_named(out, at, words, n);
    put(out, at, b"\n")
}

// Writes whether there is a hint.
fn put_hint(out: &mut [u8], at: usize, present: bool) -> usize
    requires { at + 9 ≤ length out.old }
    ensures puts { Puts out.old out.new at (line (hint present)) result }
    ensures upper_bound { result ≤ at + 9 }
{
    if present {
        put(out, at, b"hint yes\n")
    } else {
        put(out, at, b"hint no\n")
    }
}

// Writes a header's fields at the start.
pub fn put_fields(out: &mut [u8], v: Header) -> usize
    requires { 128 ≤ length out.old }
    ensures puts { Puts out.old out.new 0 (fields v) result }
    ensures upper_bound { result ≤ 128 }
{
    let at = put_line(out, 0, b"size ", v.size as u64);
    let at = put_line(out, at, b"version ", v.version as u64);
    let at = put_line(out, at, b"timestamp ", v.timestamp);
    let at = put_line(out, at, b"auth ", v.auth_type as u64);
    put_hint(out, at, v.has_hint)
}

// Writes the line of a refusal at the start.
pub fn put_refusal(out: &mut [u8], number: usize, place: usize) -> usize
    requires { 128 ≤ length out.old }
    ensures puts { Puts out.old out.new 0 (refusal number place) result }
    ensures upper_bound { result ≤ 128 }
{
    let at = put_named(out, 0, b"refused ", number as u64);
    put_line(out, at, b" at ", place as u64)
}
