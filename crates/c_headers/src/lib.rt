// The rows by which a C caller gets a header's values and a tag.
#![tactic(auto)]

ghost use Rattle.std.specs.Prelude.{◌≡◌, ◌++◌, length};
ghost use Rattle.header_tags.specs.Walk.{item_of};
ghost use Rattle.numbers.specs.GivenBack.{refusal_of};
ghost use Rattle.c_headers.specs.Rows.{header_numbers, bytes_of, tag_row, values_from};

use header_reader::{Header, copy_bytes};
use header_tags::{Tag, WalkRefusal};
use numbers::Numbered;
use output::put;

// The number of a look at a tag: 0 where nothing is refused.
pub fn of_tag(found: Result<Option<Tag>, WalkRefusal>) -> u32
    ensures { result ≡ (refusal_of (item_of found)).number }
{
    numbers::refused_by(found).number
}

// The row of a tag, behind the place of a refusal.
pub fn tag_row(found: Result<Option<Tag>, WalkRefusal>, next: u64) -> [u64; 6]
    ensures { result ≡ tag_row (item_of found) next }
{
    match found {
        Ok(
            Some(
                Tag {
                    place,
                    kind,
                    length,
                },
            ),
        ) => [0, 1, place as u64, kind as u64, length as u64, next],
        Ok(None) => [0, 0, 0, 0, 0, next],
        Err(refusal) => [refusal.refused().place as u64, 0, 0, 0, 0, next],
    }
}

// The digest, the signature and the hint, one behind another.
fn put_parts(out: &mut [u8], digest: [u8; 32], signature: [u8; 64], hint: [u8; 32])
    requires { length out.old ≡ 128 }
    ensures { out.new ≡ digest ++ (signature ++ hint) }
{
    let signature_at = put(out, 0, &digest);
    let hint_at = put(out, signature_at, &signature);
    put(out, hint_at, &hint);
}

// A header's values, behind the place of a refusal.
pub fn put_header(numbers: &mut [u64], bytes: &mut [u8], place: u64, v: Header)
    requires { (length numbers.old ≡ 6) × (length bytes.old ≡ 128) }
    ensures { (numbers.new ≡ header_numbers place v) × (bytes.new ≡ bytes_of v) }
{
    numbers.copy_from_slice(&[
        place,
        v.size as u64,
        v.version as u64,
        v.timestamp,
        v.auth_type as u64,
        v.has_hint as u64,
    ]);
    put_parts(bytes, v.digest, v.signature, v.hint);
}

// The values of a header to write, of which 128 bytes are the digest, the signature and the hint.
pub fn header_from(
    size: u32,
    version: u32,
    timestamp: u64,
    auth_type: u16,
    has_hint: bool,
    bytes: &[u8],
) -> Header
    requires { length bytes.now ≡ 128 }
    ensures { result ≡ values_from size version timestamp auth_type has_hint bytes.now }
{
    Header {
        size,
        version,
        timestamp,
        digest: copy_bytes(bytes, 0),
        signature: copy_bytes(bytes, 32),
        auth_type,
        has_hint,
        hint: copy_bytes(bytes, 96),
    }
}
