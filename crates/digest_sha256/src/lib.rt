// SHA-256: the digest of a message that lies in one place, or comes in parts. Numbers as 5.3.3 are sections of FIPS 180-4.
#![tactic(auto)]

ghost use Rattle.std.specs.Prelude.{◌≡◌, ◌+◌, ◌%◌, ◌<◌, ◌≤◌, [], ◌++◌, length, take, replicate};
ghost use Rattle.digest_fips180.specs.Sha256 as fips;
ghost use Rattle.digest_sha256.specs.Parts as parts;

// 5.3.3: the initial hash value.
pub const H0: [u32; 8] = [
    0x6a09e667, 0xbb67ae85, 0x3c6ef372, 0xa54ff53a, 0x510e527f, 0x9b05688c, 0x1f83d9ab, 0x5be0cd19,
];

// What has been absorbed of a message: the hash value after its whole blocks, the bytes after them, and how many bytes in all.
#[derive(Clone, Copy)]
pub struct Hasher {
    words: [u32; 8],
    pending: [u8; 64],
    count: u64,
}

impl Hasher {
    // The state that has absorbed nothing.
    pub fn new() -> Hasher
        ensures { result ≡ parts.state_of [] }
    {
        Hasher {
            words: H0,
            pending: [0; 64],
            count: 0,
        }
    }

    // For a part that fits the pending block.
    fn top_up(mut self, part: &[u8]) -> Hasher
        requires { self.count % 64 + length part.now ≤ 64 }
        ensures { result ≡ parts.absorb_of self part.now }
    {
        let fill = (self.count % 64) as usize;
        let mut block = [0; 64];
        digest_bytes::lay(&mut block, &self.pending[..fill], part);
        self.count = self.count.wrapping_add(part.len() as u64);
        if fill + part.len() < 64 {
            self.pending = block;
            return self;
        }
        self.words = digest_block::compress_block(self.words, &block);
        self.pending = [0; 64];
        self
    }

    // For a state with no pending byte: the part's whole blocks are compressed where they lie.
    fn absorb_blocks(mut self, part: &[u8]) -> Hasher
        requires { self.count % 64 ≡ 0 }
        ensures { result ≡ parts.absorb_of self part.now }
    {
        let rest = part.len() % 64;
        self.words = digest_block::hash_blocks(self.words, part);
        self.pending = [0; 64];
        digest_bytes::lay(&mut self.pending, &part[part.len() - rest..], &[]);
        self.count = self.count.wrapping_add(part.len() as u64);
        self
    }

    // The state that has absorbed the part too.
    pub fn absorb(self, part: &[u8]) -> Hasher
        ensures { result ≡ parts.absorb_of self part.now }
    {
        let fill = (self.count % 64) as usize;
        let k = part.len().min((64 - fill) % 64);
        let d = self.top_up(&part[..k]);
        if k == part.len() {
            return d;
        }
        d.absorb_blocks(&part[k..])
    }

    // The digest of what has been absorbed.
    pub fn finish(self) -> [u8; 32]
        ensures { result ≡ parts.finish_of self }
    {
        let fill = (self.count % 64) as usize;
        digest_from(self.words, &self.pending[..fill], self.count)
    }
}

// The digest of a message of `count` bytes, of the hash value after its whole blocks and the bytes that are left, which lie in two
// places, x and then y. The padding of 5.1.1 ends their block, or takes one block more. Not in line: its block is not on the stack then
// while the blocks before it are hashed.
#[inline(never)]
fn digest_after(h: [u32; 8], x: &[u8], y: &[u8], count: u64) -> [u8; 32]
    requires { length x.now + length y.now ≡ count % 64 }
    ensures { result ≡ parts.digest_after h (x.now ++ y.now) count }
{
    let n = x.len() + y.len();
    let bits = count << 3;
    let mut b = [0; 64];
    digest_bytes::lay(&mut b, x, y);
    b[n] = 0x80;
    let mut s = h;
    if 56 <= n {
        s = digest_block::compress_block(h, &b);
        b = [0; 64];
    }
    digest_bytes::put_length(&mut b, bits);
    digest_bytes::words_to_bytes(digest_block::compress_block(s, &b))
}

// The digest of a message of `count` bytes, of the hash value after its first blocks and the bytes behind them.
// Beside `digest_from_two` with an empty part, since that holds a block more on the stack.
fn digest_from(h: [u32; 8], rest: &[u8], count: u64) -> [u8; 32]
    requires { length rest.now % 64 ≡ count % 64 }
    ensures { result ≡ parts.digest_after h rest.now count }
{
    let from = rest.len() - rest.len() % 64;
    digest_after(
        digest_block::hash_blocks(h, rest),
        &rest[from..],
        &[],
        count,
    )
}

// The digest of a message that lies in one place.
pub fn digest(message: &[u8]) -> [u8; 32]
    ensures { result ≡ fips.sha256 message.now }
{
    digest_from(H0, message, message.len() as u64)
}

// ---- a message in two places

// The hash value after the whole blocks of a message that lies in two places, a and then b, from h on. The block where they meet is put
// together; the others are compressed where they lie.
pub fn hash_of_two(h: [u32; 8], a: &[u8], b: &[u8]) -> [u32; 8]
    ensures { result ≡ parts.hash_over h (a.now ++ b.now) }
{
    let n = a.len();
    let fill = n % 64;
    let k = 64 - fill;
    let s = digest_block::hash_blocks(h, a);
    if b.len() < k {
        return s;
    }
    let mut p = [0; 64];
    digest_bytes::lay(&mut p, &a[n - fill..], &b[..k]);
    digest_block::hash_blocks(digest_block::compress_block(s, &p), &b[k..])
}

// The digest of a message of `count` bytes, of the hash value after its first blocks and the bytes behind them, which lie in two places.
pub fn digest_from_two(h: [u32; 8], a: &[u8], b: &[u8], count: u64) -> [u8; 32]
    requires { (length a.now + length b.now) % 64 ≡ count % 64 }
    ensures { result ≡ parts.digest_after h (a.now ++ b.now) count }
{
    let n = a.len();
    let m = b.len();
    let r = (n % 64 + m % 64) % 64;
    let k = r.min(m);
    digest_after(hash_of_two(h, a, b), &a[n - (r - k)..], &b[m - k..], count)
}

// The digest of a message that lies in two places, a and then b.
pub fn digest_of_two(a: &[u8], b: &[u8]) -> [u8; 32]
    ensures { result ≡ fips.sha256 (a.now ++ b.now) }
{
    let count = (a.len() as u64).wrapping_add(b.len() as u64);
    digest_from_two(H0, a, b, count)
}
