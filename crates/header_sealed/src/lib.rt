// The sealed profile of a rustBoot header: the written form with a hint, and no other.
#![tactic(auto)]

ghost use Rattle.std.specs.Prelude.{◌≡◌, ◌≢◌, ◌<◌, length, unwrap_or, IfSome};
ghost use Rattle.numbers.specs.GivenBack.{sealed_answer, sealed_writer_answer};
ghost use Rattle.header_writer.specs.Writing.{header_bytes, write};
ghost use Rattle.header_sealed.specs.Profile.{first_difference, sealing, read_sealed, write_sealed};

use header_reader::Header;
use header_tags::HEADER_LENGTH;
use numbers::{SealedRefusal, SealedWriteRefusal, WriteRefusal};

// Where the hint's tag begins in a header that the writer makes; without a hint the end stands there.
const HINT_TAG: usize = 138;

// The first place at which two buffers of one length differ, if there is one.
fn first_difference(a: &[u8], b: &[u8]) -> Option<usize>
    requires { length a.now ≡ length b.now }
    ensures is { unwrap_or result (length a.now) ≡ first_difference a.now b.now }
    ensures within { IfSome result (λ p. p < length a.now) }
{
    a.iter().zip(b).position(|(x, y)| x != y)
}

// The first place at which a header differs from the written form of its values, if there is one.
fn differs_at(h: &[u8], v: Header) -> Option<usize>
    requires { (length h.now ≡ 256) × (v.size ≢ 0) }
    ensures is { unwrap_or result 256 ≡ first_difference h.now (header_bytes v) }
    ensures within { IfSome result (λ p. p < 256) }
{
    let mut form = [0; HEADER_LENGTH];
    header_writer::write_header(&mut form, v).unwrap();
    first_difference(h, &form)
}

// What is told of a header with the values v, by the first place at which it differs from their written form.
fn judge(v: Header, difference: Option<usize>) -> Result<Header, SealedRefusal>
    requires { IfSome difference (λ p. p < 256) }
    ensures { sealed_answer result ≡ sealing v (unwrap_or difference 256) }
{
    match difference {
        None if v.has_hint => Ok(v),
        Some(place) if v.has_hint || place < HINT_TAG => Err(SealedRefusal::NotSealed(place)),
        _ => Err(SealedRefusal::NotSealed(HINT_TAG)),
    }
}

// Reads the sealed header in the first 256 bytes of a lent buffer.
pub fn read_sealed(s: &[u8]) -> Result<Header, SealedRefusal>
    ensures { sealed_answer result ≡ read_sealed s.now }
{
    let v = header_reader::read_header(s)?;
    judge(v, differs_at(&s[..HEADER_LENGTH], v))
}

// Writes a sealed header into the first 256 bytes of a lent output, and no other. A refusal changes no byte.
#[tactic(auto, using(crate::proofs::Answers::sealed_short, crate::proofs::Answers::sealed_zero))]
pub fn write_sealed(out: &mut [u8], v: Header) -> Result<(), SealedWriteRefusal>
    ensures { write (sealed_writer_answer result) out.new ≡ write_sealed v out.old }
{
    if out.len() < HEADER_LENGTH {
        return Err(WriteRefusal::TooShort.into());
    }
    if v.size == 0 {
        return Err(WriteRefusal::WrongSize.into());
    }
    if !v.has_hint {
        return Err(SealedWriteRefusal::NoHint);
    }
    Ok(header_writer::write_header(out, v)?)
}
