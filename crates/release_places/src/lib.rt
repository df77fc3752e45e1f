// Where the values of a release sheet stand.
#![tactic(auto)]

ghost use Rattle.release_places.specs.Judging.{Finds};

use numbers::SheetRefusal;
use release_lines::ROWS;

// The types of the rows' values in a header.
const TYPES: [usize; ROWS] = [0x0001, 0x0002, 0x0020, 0x0030, 0x1000];

// The places of a sheet's values, one for each row. No value stands at 0: it is the place of a row that was not seen.
pub fn find_values(text: &[u8]) -> Result<[usize; ROWS], SheetRefusal>
    ensures { Finds text.now result }
{
    let mut places = [0usize; ROWS];
    let mut at: usize = 0;
    let mut number: usize = 1;
    // Not a `for`: it moves by whole lines and needs their places, which `split` does not give.
    while at < text.len() {
        let end = release_lines::find(text, at, b'\n');
        if let Some(value) = release_lines::read_line(&text[at..end], number)? {
            if places[value.row] != 0 {
                return Err(SheetRefusal::RepeatedName(number));
            }
            places[value.row] = at + value.from;
        }
        at = end + 1;
        number += 1;
    }
    match places.iter().position(|place| *place == 0) {
        Some(first) => Err(SheetRefusal::MissingName(TYPES[first])),
        None => Ok(places),
    }
}
