// The walk over the tags of a header, one tag at a time. The header is the whole lent slice, so its length is the slice's.
#![tactic(auto)]

ghost use Rattle.std.specs.Prelude.{◌≡◌, ◌<◌, length};
ghost use Rattle.numbers.specs.GivenBack.{header_says};
ghost use Rattle.header_tags.specs.Walk.{item_at, next_item, walk_says, item_of, walk_at, place_behind};

use numbers::{HeaderRefusal, Numbered, Refused};

// The length of a header in bytes.
pub const HEADER_LENGTH: usize = 256;

// Where the tags begin: behind the magic and the size.
pub const FIRST_TAG: usize = 8;

// A byte that stands for nothing, before a tag.
const PADDING: u8 = 0xFF;

// The type that ends a header.
const END: usize = 0x0000;

// A tag of a header: its first byte's place, its type, and the length of its value.
#[derive(Clone, Copy, PartialEq, Eq)]
pub struct Tag {
    pub place: usize,
    pub kind: usize,
    pub length: usize,
}

// Why the walk breaks.
#[derive(Clone, Copy, PartialEq, Eq)]
pub enum WalkRefusal {
    // The lent buffer is shorter than a header.
    TooShort,
    // The tag at this place does not fit.
    DoesNotFit(usize),
    // No end up to this place, the header's length.
    NoEnd(usize),
}

impl From<WalkRefusal> for HeaderRefusal {
    ghost from_gives = { λ w r. header_says r ≡ walk_says w };

    fn from(refusal: WalkRefusal) -> HeaderRefusal {
        match refusal {
            WalkRefusal::TooShort => HeaderRefusal::TooShort,
            WalkRefusal::DoesNotFit(place) => HeaderRefusal::TagDoesNotFit(place),
            WalkRefusal::NoEnd(place) => HeaderRefusal::NoEnd(place),
        }
    }
}

impl Numbered for WalkRefusal {
    ghost says = { walk_says };

    fn refused(self) -> Refused {
        HeaderRefusal::from(self).refused()
    }
}

// The tag whose first byte, no padding, is at a place. None is the end.
fn tag_at(h: &[u8], at: usize) -> Result<Option<Tag>, WalkRefusal>
    requires { at < length h.now }
    ensures { item_of result ≡ item_at h.now at }
{
    let left = h.len() - at;
    if left < 2 {
        return Err(WalkRefusal::DoesNotFit(at));
    }
    let kind = u16::from_le_bytes([h[at], h[at + 1]]) as usize;
    if kind == END {
        return Ok(None);
    }
    if left < 4 {
        return Err(WalkRefusal::DoesNotFit(at));
    }
    let length = u16::from_le_bytes([h[at + 2], h[at + 3]]) as usize;
    if left - 4 < length {
        return Err(WalkRefusal::DoesNotFit(at));
    }
    Ok(Some(Tag {
        place: at,
        kind,
        length,
    }))
}

// Goes over the padding from a place, and reads the tag after it. A loop, so that long padding takes no stack.
#[cycle(read_tag_skip_padding)]
pub fn skip_padding(h: &[u8], at: usize) -> Result<Option<Tag>, WalkRefusal>
    ensures { item_of result ≡ next_item h.now at }
{
    for place in at..h.len() {
        if h[place] != PADDING {
            return read_tag(h, place);
        }
    }
    read_tag(h, h.len())
}

// Reads the tag at a place, or after the padding there. None is the end.
#[cycle(read_tag_skip_padding)]
pub fn read_tag(h: &[u8], at: usize) -> Result<Option<Tag>, WalkRefusal>
    ensures { item_of result ≡ next_item h.now at }
{
    if h.len() <= at {
        return Err(WalkRefusal::NoEnd(h.len()));
    }
    if h[at] == PADDING {
        return skip_padding(h, at + 1);
    }
    tag_at(h, at)
}

// The same in a lent buffer, whose first bytes are the header.
fn read_in(s: &[u8], at: usize) -> Result<Option<Tag>, WalkRefusal>
    ensures { item_of result ≡ walk_at s.now at }
{
    if s.len() < HEADER_LENGTH {
        return Err(WalkRefusal::TooShort);
    }
    read_tag(&s[..HEADER_LENGTH], at)
}

// What one look finds: a tag, the end or a refusal, and where the walk goes on.
#[derive(Clone, Copy, PartialEq, Eq)]
pub struct Look {
    pub found: Result<Option<Tag>, WalkRefusal>,
    pub next: usize,
}

// Looks from a place on into a lent buffer, whose first bytes are the header. The walk goes on behind the tag found; at the end or
// after a refusal, at the same place.
pub fn walk_on(s: &[u8], at: usize) -> Look
    ensures { (item_of result.found ≡ walk_at s.now at) × (result.next ≡ place_behind (walk_at s.now at) at) }
{
    match read_in(s, at) {
        Ok(Some(tag)) => Look {
            found: Ok(Some(tag)),
            next: tag.place + 4 + tag.length,
        },
        found => Look { found, next: at },
    }
}
