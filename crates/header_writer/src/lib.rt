// The writer of a rustBoot header.
#![tactic(auto)]

ghost use Rattle.std.specs.Prelude.{◌≡◌, ◌+◌, ◌≤◌, ◌<◌, ◌++◌, length};
ghost use Rattle.header_tags.specs.Bytes.{little_endian, tag_bytes, field_bytes};
ghost use Rattle.numbers.specs.GivenBack.{writer_answer};
ghost use Rattle.header_writer.specs.Writing.{front, required_fields, hint_fields, ending, write, write_header};
ghost use Rattle.output.specs.Puts.{Puts};

use header_reader::Header;
use header_tags::HEADER_LENGTH;
use numbers::WriteRefusal;
use output::put;

// Where the digest's tag begins in a header that the writer makes: behind the front and the tags of version and timestamp.
pub const DIGEST_TAG: usize = 28;

// Writes a tag at a place: its type, its length and its value. Like the functions below it answers the place behind what it wrote.
fn put_tag(out: &mut [u8], at: usize, kind: usize, b: &[u8]) -> usize
    requires { (at + (4 + length b.now) ≤ length out.old) × (length b.now < 65536) × (kind < 65536) }
    ensures { Puts out.old out.new at (tag_bytes kind b.now) result }
{
    let length_at = put(out, at, &(kind as u16).to_le_bytes());
    let value_at = put(out, length_at, &(b.len() as u16).to_le_bytes());
    put(out, value_at, b)
}

// Writes the magic and the size.
fn put_front(out: &mut [u8], v: Header) -> usize
    requires { 256 ≤ length out.old }
    ensures { Puts out.old out.new 0 (front v) result }
{
    let at = put(out, 0, &Header::MAGIC.to_le_bytes());
    put(out, at, &v.size.to_le_bytes())
}

// Writes the required tags.
fn put_required(out: &mut [u8], at: usize, v: Header) -> usize
    requires { at + 130 ≤ length out.old }
    ensures { Puts out.old out.new at (field_bytes (required_fields v)) result }
{
    let at = put_tag(out, at, Header::VERSION, &v.version.to_le_bytes());
    let at = put_tag(out, at, Header::TIMESTAMP, &v.timestamp.to_le_bytes());
    let at = put_tag(out, at, Header::DIGEST, &v.digest);
    let at = put_tag(out, at, Header::SIGNATURE, &v.signature);
    put_tag(out, at, Header::AUTH_TYPE, &v.auth_type.to_le_bytes())
}

// Writes the hint's tag, if there is a hint.
fn put_hint(out: &mut [u8], at: usize, v: Header) -> usize
    requires { at + 36 ≤ length out.old }
    ensures { Puts out.old out.new at (field_bytes (hint_fields v.has_hint v.hint)) result }
{
    if v.has_hint {
        put_tag(out, at, Header::HINT, &v.hint)
    } else {
        at
    }
}

// Writes the end, and FF from there to the header's length.
fn put_end(out: &mut [u8], at: usize)
    requires { (at + 2 ≤ 256) × (256 ≤ length out.old) }
    ensures { Puts out.old out.new at (ending at) 256 }
{
    let behind = put(out, at, &[0; 2]);
    out[behind..HEADER_LENGTH].fill(0xFF);
}

// Writes a header into the first 256 bytes of a lent output, and no other. A refusal changes no byte.
#[tactic(auto, using(crate::proofs::Putting::too_short, crate::proofs::Putting::zero_size))]
pub fn write_header(out: &mut [u8], v: Header) -> Result<(), WriteRefusal>
    ensures { write (writer_answer result) out.new ≡ write_header v out.old }
{
    if out.len() < HEADER_LENGTH {
        return Err(WriteRefusal::TooShort);
    }
    if v.size == 0 {
        return Err(WriteRefusal::WrongSize);
    }
    let tags_at = put_front(out, v);
    let hint_at = put_required(out, tags_at, v);
    let end_at = put_hint(out, hint_at, v);
    put_end(out, end_at);
    Ok(())
}
