// Makes the header of a firmware: the size is the firmware's, the digest covers the header before its tag and the firmware, and the other
// values are stated by the caller.
#![tactic(auto)]

ghost use Rattle.std.specs.Prelude.{◌≡◌, ◌^◌, ◌<◌, length};
ghost use Rattle.numbers.specs.GivenBack.{writer_answer};
ghost use Rattle.header_writer.specs.Writing.{write};
ghost use Rattle.release_header.specs.Making.{header_with, make_header};

use header_reader::Header;
use numbers::WriteRefusal;
use release_values::Stated;

// The largest firmware whose size a header can state.
const LARGEST: usize = u32::MAX as usize;

// The values of a firmware's header, with this digest.
fn header_with(firmware: &[u8], v: Stated, digest: [u8; 32]) -> Header
    requires { length firmware.now < 2 ^ 32 }
    ensures { result ≡ header_with v firmware.now digest }
{
    let signature = v.signature;
    let hint = v.hint;
    Header {
        size: firmware.len() as u32,
        version: v.version,
        timestamp: v.timestamp,
        digest,
        signature,
        auth_type: v.auth_type,
        has_hint: v.has_hint,
        hint,
    }
}

// Makes a firmware's header in the first 256 bytes of a lent output, and changes no other. It is written first without its digest, for
// what stands before the digest's tag is digested where it lies. A firmware that is too large is refused as one without a byte: 3, at the
// size's place. A refusal changes no byte.
pub fn make_header(out: &mut [u8], firmware: &[u8], v: Stated) -> Result<(), WriteRefusal>
    ensures { write (writer_answer result) out.new ≡ make_header v firmware.now out.old }
{
    if out.len() < header_tags::HEADER_LENGTH {
        return Err(WriteRefusal::TooShort);
    }
    let size = firmware.len();
    if size == 0 || LARGEST < size {
        return Err(WriteRefusal::WrongSize);
    }
    header_writer::write_header(out, header_with(firmware, v, [0u8; 32]))?;
    let digest = digest_sha256::digest_of_two(&out[..header_writer::DIGEST_TAG], firmware);
    header_writer::write_header(out, header_with(firmware, v, digest))
}
