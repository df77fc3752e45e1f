// The reader of a rustBoot header: the values of its tags.
#![tactic(auto)]

ghost use Rattle.std.specs.Prelude.{◌≡◌, ◌+◌, ◌≤◌, cond, length, replicate, eqb};
ghost use Rattle.header_tags.specs.Bytes.{number};
ghost use Rattle.header_places.specs.Table.{document_table};
ghost use Rattle.header_places.specs.Judging.{TagsFit};
ghost use Rattle.header_reader.specs.Reading.{bytes_at, tag_places, values_at, read_header, blank};
ghost use Rattle.numbers.specs.GivenBack.{header_answer};

use header_places::{ROWS, Row, TagTable};
use numbers::HeaderRefusal;

// What a header carries.
#[derive(Clone, Copy, PartialEq, Eq)]
pub struct Header {
    // The firmware's size in bytes, the header not counted.
    pub size: u32,
    pub version: u32,
    // Unix seconds.
    pub timestamp: u64,
    pub digest: [u8; 32],
    pub signature: [u8; 64],
    pub auth_type: u16,
    // A flag beside the bytes, not an Option: the writer takes `false` beside any 32 bytes (header_writer/hint_fields), and C hands both.
    pub has_hint: bool,
    // Zeros where there is no hint.
    pub hint: [u8; 32],
}

impl Header {
    // 43 45 52 54, low byte first.
    pub const MAGIC: u32 = 0x54524543;

    // The types of the tags.
    pub const VERSION: usize = 0x0001;

    pub const TIMESTAMP: usize = 0x0002;

    pub const DIGEST: usize = 0x0003;

    pub const SIGNATURE: usize = 0x0020;

    pub const AUTH_TYPE: usize = 0x0030;

    pub const HINT: usize = 0x1000;

    // The values beside a refusal.
    pub fn blank() -> Header
        ensures { result ≡ blank }
    {
        Header {
            size: 0,
            version: 0,
            timestamp: 0,
            digest: [0u8; 32],
            signature: [0u8; 64],
            auth_type: 0,
            has_hint: false,
            hint: [0u8; 32],
        }
    }
}

// The table of tags: the types, the lengths of their values, and how many of the rows, from the first on, are required.
const TABLE: TagTable = TagTable {
    rows: [
        Row {
            kind: Header::VERSION,
            length: 4,
        },
        Row {
            kind: Header::TIMESTAMP,
            length: 8,
        },
        Row {
            kind: Header::DIGEST,
            length: 32,
        },
        Row {
            kind: Header::SIGNATURE,
            length: 64,
        },
        Row {
            kind: Header::AUTH_TYPE,
            length: 2,
        },
        Row {
            kind: Header::HINT,
            length: 32,
        },
    ],
    required: 5,
};

// The N bytes at a place.
pub fn copy_bytes<const N: usize>(h: &[u8], at: usize) -> [u8; N]
    requires { at + N ≤ length h.now }
    ensures { result ≡ bytes_at h.now at N }
{
    let mut b = [0u8; N];
    b.copy_from_slice(&h[at..at + N]);
    b
}

// The number of two, four and eight bytes at a place, low byte first.
// Three of one line each: one for all would need a trait for that line.
fn read_u16(h: &[u8], at: usize) -> u16
    requires { at + 2 ≤ length h.now }
    ensures { result ≡ number (bytes_at h.now at 2) }
{
    u16::from_le_bytes(copy_bytes(h, at))
}

pub fn read_u32(h: &[u8], at: usize) -> u32
    requires { at + 4 ≤ length h.now }
    ensures { result ≡ number (bytes_at h.now at 4) }
{
    u32::from_le_bytes(copy_bytes(h, at))
}

pub fn read_u64(h: &[u8], at: usize) -> u64
    requires { at + 8 ≤ length h.now }
    ensures { result ≡ number (bytes_at h.now at 8) }
{
    u64::from_le_bytes(copy_bytes(h, at))
}

// The hint, or zeros where its tag was not seen.
fn read_hint(h: &[u8], place: usize) -> [u8; 32]
    requires { place + 36 ≤ length h.now }
    ensures { result ≡ cond (eqb place 0) (replicate 32 0) (bytes_at h.now (place + 4) 32) }
{
    if place == 0 {
        return [0u8; 32];
    }
    copy_bytes(h, place + 4)
}

// The values of the tags at the places of the table's rows.
fn read_values(h: &[u8], places: [usize; ROWS]) -> Header
    requires { TagsFit document_table places (length h.now) }
    ensures { result ≡ values_at h.now places }
{
    let [version, timestamp, digest, signature, auth_type, hint] = places;
    Header {
        size: read_u32(h, 4),
        version: read_u32(h, version + 4),
        timestamp: read_u64(h, timestamp + 4),
        digest: copy_bytes(h, digest + 4),
        signature: copy_bytes(h, signature + 4),
        auth_type: read_u16(h, auth_type + 4),
        has_hint: hint != 0,
        hint: read_hint(h, hint),
    }
}

// Where the tags of the header in the first 256 bytes of a lent buffer stand. No byte of the header is copied.
pub fn locate(s: &[u8]) -> Result<[usize; ROWS], HeaderRefusal>
    ensures { header_answer result ≡ tag_places s.now }
{
    if s.len() < header_tags::HEADER_LENGTH {
        return Err(HeaderRefusal::TooShort);
    }
    let h = &s[..header_tags::HEADER_LENGTH];
    if read_u32(h, 0) != Header::MAGIC {
        return Err(HeaderRefusal::WrongMagic);
    }
    if read_u32(h, 4) == 0 {
        return Err(HeaderRefusal::WrongSize);
    }
    header_places::find_places(h, TABLE)
}

// Reads the header in the first 256 bytes of a lent buffer.
pub fn read_header(s: &[u8]) -> Result<Header, HeaderRefusal>
    ensures { header_answer result ≡ read_header s.now }
{
    let places = locate(s)?;
    Ok(read_values(&s[..header_tags::HEADER_LENGTH], places))
}
