// The walk over a header's tags as a struct: it holds the lent slice and where it stands.
#![tactic(auto)]

ghost use Rattle.std.specs.Prelude.{◌≡◌};
ghost use Rattle.header_tags.specs.Walk.{item_of};
ghost use Rattle.header_walker.specs.Walker.{start_of, walker_answer, walker_after, call_answer};

use header_tags::{Tag, WalkRefusal};

// Where a walker starts.
const FIRST_TAG: usize = header_tags::FIRST_TAG;

// A lent header, and the place where the next call looks.
#[derive(Clone, Copy)]
pub struct TagWalker<'a> {
    pub header: &'a [u8],
    pub at: usize,
}

impl<'a> TagWalker<'a> {
    // A walker over a lent header, at the place of its first tag.
    pub fn new(header: &'a [u8]) -> TagWalker<'a>
        ensures { result ≡ start_of header.entry }
    {
        TagWalker {
            header,
            at: FIRST_TAG,
        }
    }

    // What the walk finds from the walker's place on. The walker moves behind a tag; at the end and after a refusal it stays.
    pub fn next(&mut self) -> Result<Option<Tag>, WalkRefusal>
        ensures { (item_of result ≡ walker_answer self.old) × (self.new ≡ walker_after self.old) }
    {
        let look = header_tags::walk_on(self.header, self.at);
        self.at = look.next;
        look.found
    }
}

// What call number n of a new walker answers, counted from 0. Its parameters are plain, so that a caller's proof needs no walker.
pub fn nth(s: &[u8], n: usize) -> Result<Option<Tag>, WalkRefusal>
    ensures { item_of result ≡ call_answer n (start_of s.entry) }
{
    let mut w = TagWalker::new(s);
    for _ in 0..n {
        let _ = w.next();
    }
    w.next()
}
