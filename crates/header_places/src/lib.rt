// Where the tags of a rustBoot header stand, judged by a table of types and lengths.
#![tactic(auto)]

ghost use Rattle.std.specs.Prelude.{◌≡◌, ◌≤◌, ◌==◌, position};
ghost use Rattle.header_places.specs.Table.{table_of};
ghost use Rattle.header_places.specs.Judging.{places_in};
ghost use Rattle.numbers.specs.GivenBack.{header_answer};

use numbers::HeaderRefusal;

// How many rows the table of tags has.
pub const ROWS: usize = 6;

// A row of the table of tags: a type, and the length of its value.
#[derive(Clone, Copy, PartialEq, Eq)]
pub struct Row {
    pub kind: usize,
    pub length: usize,
}

// A table of tags: its rows, with the types in rising order, and how many of them, from the first on, are required.
#[derive(Clone, Copy, PartialEq, Eq)]
pub struct TagTable {
    pub rows: [Row; ROWS],
    pub required: usize,
}

impl TagTable {
    // From this type up a tag has to be understood: where its type has no row, the header is refused.
    pub const CRITICAL: usize = 0x8000;
}

// The first index at which a number stands.
pub fn row_of(row: &[usize], x: usize) -> Option<usize>
    ensures { result ≡ position (λ y. y == x) row.now }
{
    row.iter().position(|y| *y == x)
}

// The first row with a type.
fn row_with(rows: &[Row], kind: usize) -> Option<usize>
    ensures { result ≡ position (λ row. row.kind == kind) rows.now }
{
    rows.iter().position(|row| row.kind == kind)
}

// The places of a header's tags by a table, 0 where a tag was not seen.
pub fn find_places(h: &[u8], table: TagTable) -> Result<[usize; ROWS], HeaderRefusal>
    requires { table.required ≤ 6 }
    ensures { header_answer result ≡ places_in (table_of table) h.now }
{
    let TagTable { rows, required } = table;
    let mut places = [0usize; ROWS];
    let mut at = header_tags::FIRST_TAG;
    while let Some(tag) = header_tags::read_tag(h, at)? {
        match row_with(&rows, tag.kind) {
            Some(row) => {
                if tag.length != rows[row].length {
                    return Err(HeaderRefusal::WrongLength(tag.place));
                }
                if places[row] != 0 {
                    return Err(HeaderRefusal::Repeated(tag.place));
                }
                places[row] = tag.place;
            }
            None => {
                if TagTable::CRITICAL <= tag.kind {
                    return Err(HeaderRefusal::TagNotUnderstood(tag.place));
                }
            }
        }
        at = tag.place + 4 + tag.length;
    }
    match row_of(&places[..required], 0) {
        Some(first) => Err(HeaderRefusal::Missing(rows[first].kind)),
        None => Ok(places),
    }
}
