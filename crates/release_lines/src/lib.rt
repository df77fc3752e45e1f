// One line of a release sheet: a name and its value.
#![tactic(auto)]

ghost use Rattle.std.specs.Prelude.{◌≡◌, ◌+◌, ◌<◌, ◌≤◌, length, drop, SomeIff};
ghost use Rattle.release_lines.specs.Search.{index_of};
ghost use Rattle.release_lines.specs.Lines.{names, row_named, is_hint, well_formed, LineRead};

use numbers::SheetRefusal;

// How many names a sheet has. Their rows are in the order of the types that their values have in a header.
pub const ROWS: usize = 5;

const NAMES: [&str; ROWS] = ["version", "timestamp", "signature", "auth", "hint"];

// The largest numbers of 32, 64 and 16 bits.
pub const LARGEST_VERSION: u64 = u32::MAX as u64;

pub const LARGEST_TIMESTAMP: u64 = u64::MAX;

pub const LARGEST_AUTH_TYPE: u64 = u16::MAX as u64;

// A line that begins with it is a comment.
const COMMENT: u8 = b'#';

// The value of a row, and at which place of the line it begins.
#[derive(Clone, Copy, PartialEq, Eq)]
pub struct Value {
    pub row: usize,
    pub from: usize,
}

// The row of a name.
fn row_of(name: &[u8]) -> Option<usize>
    ensures { SomeIff result (row_named names name.now < 5) (row_named names name.now) }
{
    NAMES.iter().position(|n| name == n.as_bytes())
}

// Whether a hint's value is "no" or 64 hexadecimal digits.
fn is_hint(s: &[u8]) -> bool
    ensures { result ≡ is_hint s.now }
{
    s == b"no".as_slice() || release_digits::is_hex(s, 64)
}

// Whether a value passes its row's test.
fn is_value(row: usize, s: &[u8]) -> bool
    ensures { result ≡ well_formed row s.now }
{
    match row {
        0 => release_digits::decimal(s, LARGEST_VERSION).is_some(),
        1 => release_digits::decimal(s, LARGEST_TIMESTAMP).is_some(),
        2 => release_digits::is_hex(s, 128),
        3 => release_digits::decimal(s, LARGEST_AUTH_TYPE).is_some(),
        4 => is_hint(s),
        _ => false,
    }
}

// The first place of b in a text.
fn place_of(text: &[u8], b: u8) -> Option<usize>
    ensures { SomeIff result (index_of b text.now < length text.now) (index_of b text.now) }
{
    text.iter().position(|c| *c == b)
}

// The first place of b from a place of the text on, or the text's length.
// The length, not an Option: the callers want a line's end, which at the last line is the text's.
pub fn find(text: &[u8], from: usize, b: u8) -> usize
    requires { from ≤ length text.now }
    ensures place { result ≡ from + index_of b (drop from text.now) }
    ensures within { result ≤ length text.now }
{
    match place_of(&text[from..], b) {
        Some(n) => from + n,
        None => text.len(),
    }
}

// Reads one line, of this number. An empty line or a comment has no value.
pub fn read_line(l: &[u8], number: usize) -> Result<Option<Value>, SheetRefusal>
    ensures { LineRead number l.now result }
{
    if l.is_empty() || l[0] == COMMENT {
        return Ok(None);
    }
    let space = place_of(l, b' ').ok_or(SheetRefusal::NotUnderstood(number))?;
    let row = row_of(&l[..space]).ok_or(SheetRefusal::UnknownName(number))?;
    let from = space + 1;
    if !is_value(row, &l[from..]) {
        return Err(SheetRefusal::BadValue(number));
    }
    Ok(Some(Value { row, from }))
}
