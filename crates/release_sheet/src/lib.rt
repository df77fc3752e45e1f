// The reader of a release sheet: a text that states the values of a header that the firmware does not give.
#![tactic(auto)]

ghost use Rattle.std.specs.Prelude.{◌≡◌, ◌≤◌, true, false, length, SomeIff};
ghost use Rattle.numbers.specs.GivenBack.{sheet_answer};
ghost use Rattle.release_digits.specs.Digits.{decimal, decimal_up_to, hex_digits, hex_bytes};
ghost use Rattle.header_tags.specs.Bytes.{same};
ghost use Rattle.release_lines.specs.Lines.{no_hint, is_hint};
ghost use Rattle.release_places.specs.Judging.{rest_of_line, values_at};
ghost use Rattle.release_sheet.specs.Reading.{stated_in, read_sheet, ValuesFit};

use numbers::SheetRefusal;
use release_lines::{LARGEST_AUTH_TYPE, LARGEST_TIMESTAMP, LARGEST_VERSION, ROWS};
use release_values::Stated;

// The line's text from a place on.
fn rest_of_line(text: &[u8], at: usize) -> &[u8]
    requires { at ≤ length text.now }
    ensures { result.now ≡ rest_of_line text.now at }
{
    let end = release_lines::find(text, at, b'\n');
    &text[at..end]
}

// The number at a place, up to the end of its line.
fn read_number(text: &[u8], at: usize, most: u64) -> u64
    requires { (at ≤ length text.now) × (decimal_up_to most (rest_of_line text.now at) ≡ true) }
    ensures { (result ≡ decimal (rest_of_line text.now at)) × (result ≤ most) }
{
    release_digits::decimal(rest_of_line(text, at), most).unwrap()
}

// The bytes of a signature at a place.
fn read_signature(text: &[u8], at: usize) -> [u8; 64]
    requires { (at ≤ length text.now) × (hex_digits 128 (rest_of_line text.now at) ≡ true) }
    ensures { result ≡ hex_bytes (rest_of_line text.now at) }
{
    let mut b = [0u8; 64];
    release_digits::put_hex(rest_of_line(text, at), &mut b);
    b
}

// The bytes of a hint at a place, unless "no" stands there.
fn read_hint(text: &[u8], at: usize) -> Option<[u8; 32]>
    requires { (at ≤ length text.now) × (is_hint (rest_of_line text.now at) ≡ true) }
    ensures { SomeIff result (same (rest_of_line text.now at) no_hint ≡ false) (hex_bytes (rest_of_line text.now at)) }
{
    let value = rest_of_line(text, at);
    if value == b"no".as_slice() {
        return None;
    }
    let mut b = [0u8; 32];
    release_digits::put_hex(value, &mut b);
    Some(b)
}

// The values at the places of the rows.
fn read_values(text: &[u8], places: [usize; ROWS]) -> Stated
    requires { ValuesFit text.now places }
    ensures { result ≡ stated_in (values_at text.now places) }
{
    let version = places[0];
    let timestamp = places[1];
    let signature = places[2];
    let auth_type = places[3];
    let hint = read_hint(text, places[4]);
    Stated {
        version: read_number(text, version, LARGEST_VERSION) as u32,
        timestamp: read_number(text, timestamp, LARGEST_TIMESTAMP),
        auth_type: read_number(text, auth_type, LARGEST_AUTH_TYPE) as u16,
        signature: read_signature(text, signature),
        has_hint: hint.is_some(),
        hint: hint.unwrap_or([0u8; 32]),
    }
}

// Reads a release sheet.
pub fn read_sheet(text: &[u8]) -> Result<Stated, SheetRefusal>
    ensures { sheet_answer result ≡ read_sheet text.now }
{
    let places = release_places::find_values(text)?;
    Ok(read_values(text, places))
}
