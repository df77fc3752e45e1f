// The listing of a header as text: its fields by name, or the line of a refusal.
#![tactic(auto)]

ghost use Rattle.std.specs.Prelude.{◌≡◌};
ghost use Rattle.listing.specs.Listing.{Lists};

use listing_lines::{put_fields, put_refusal};
use numbers::Numbered;

// How many bytes a header has: a caller need read no more.
pub const HEADER_LENGTH: usize = header_tags::HEADER_LENGTH;

// Room for every listing.
pub const TEXT_LENGTH: usize = 128;

// Lists the header that a lent buffer begins with: the text, at the start of `out`, and its length.
pub fn list(s: &[u8], out: &mut [u8; TEXT_LENGTH]) -> usize
    ensures { Lists s.now out.old out.new result }
{
    match header_reader::read_header(s) {
        Ok(header) => put_fields(out, header),
        Err(refusal) => {
            let refused = refusal.refused();
            put_refusal(out, refused.number as usize, refused.place)
        }
    }
}
