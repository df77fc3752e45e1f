// The hash computation of SHA-256, block by block: the message words in a window of 16 and the rounds on it. Numbers as 4.2.2 are
// sections of FIPS 180-4.
#![tactic(auto)]

ghost use Rattle.std.specs.Prelude.{◌≡◌, ◌+◌, ◌*◌, ◌/◌, ◌≤◌, ◌<◌, length};
ghost use Rattle.digest_fips180.specs.Sha256 as fips;
ghost use Rattle.digest_rounds.specs.Window as window;

use digest_rounds::{Rounds, round_on};

// 4.2.2: the constants K_0 to K_63.
const K: [u32; 64] = [
    0x428a2f98, 0x71374491, 0xb5c0fbcf, 0xe9b5dba5, 0x3956c25b, 0x59f111f1, 0x923f82a4, 0xab1c5ed5,
    0xd807aa98, 0x12835b01, 0x243185be, 0x550c7dc3, 0x72be5d74, 0x80deb1fe, 0x9bdc06a7, 0xc19bf174,
    0xe49b69c1, 0xefbe4786, 0x0fc19dc6, 0x240ca1cc, 0x2de92c6f, 0x4a7484aa, 0x5cb0a9dc, 0x76f988da,
    0x983e5152, 0xa831c66d, 0xb00327c8, 0xbf597fc7, 0xc6e00bf3, 0xd5a79147, 0x06ca6351, 0x14292967,
    0x27b70a85, 0x2e1b2138, 0x4d2c6dfc, 0x53380d13, 0x650a7354, 0x766a0abb, 0x81c2c92e, 0x92722c85,
    0xa2bfe8a1, 0xa81a664b, 0xc24b8b70, 0xc76c51a3, 0xd192e819, 0xd6990624, 0xf40e3585, 0x106aa070,
    0x19a4c116, 0x1e376c08, 0x2748774c, 0x34b0bcb5, 0x391c0cb3, 0x4ed8aa4a, 0x5b9cca4f, 0x682e6ff3,
    0x748f82ee, 0x78a5636f, 0x84c87814, 0x8cc70208, 0x90befffa, 0xa4506ceb, 0xbef9a3f7, 0xc67178f2,
];

// 5.2.1: word t of the block b.
fn read_word(b: &[u8], t: usize) -> u32
    requires { 4 * t + 4 ≤ length b.now }
    ensures { result ≡ fips.word b.now t }
{
    let at = 4 * t;
    u32::from_be_bytes([b[at], b[at + 1], b[at + 2], b[at + 3]])
}

// The sixteen words of the block b.
fn load(b: &[u8]) -> [u32; 16]
    requires { 64 ≤ length b.now }
    ensures { result ≡ fips.words b.now }
{
    std::array::from_fn(|t| read_word(b, t))
}

// 6.2.2, step 3: the four rounds from round t on, of what is there after t rounds, whatever these began with.
#[inline(always)]
fn four_rounds(x: Rounds, t: usize) -> Rounds
    requires { t + 4 ≤ 64 }
    ensures { (begin : Rounds) → x ≡ window.after begin t → result ≡ window.after begin (t + 4) }
{
    let x1 = round_on(x, t, K[t]);
    let x2 = round_on(x1, t + 1, K[t + 1]);
    let x3 = round_on(x2, t + 2, K[t + 2]);
    round_on(x3, t + 3, K[t + 3])
}

// The sixteen rounds from round t on.
#[inline(always)]
fn sixteen_rounds(x: Rounds, t: usize) -> Rounds
    requires { t + 16 ≤ 64 }
    ensures { (begin : Rounds) → x ≡ window.after begin t → result ≡ window.after begin (t + 16) }
{
    let x4 = four_rounds(x, t);
    let x8 = four_rounds(x4, t + 4);
    let x12 = four_rounds(x8, t + 8);
    four_rounds(x12, t + 12)
}

// 6.2.2, steps 1 to 3: the 64 rounds on the block's sixteen words m, from the hash value h on. Sixteen go at a time, so that each place
// in the window is known when they are compiled.
fn do_rounds(m: [u32; 16], h: [u32; 8]) -> Rounds
    ensures { result ≡ window.after (window.begin m h) 64 }
{
    let mut x = Rounds {
        window: m,
        variables: h,
    };
    for i in 0..4 {
        x = sixteen_rounds(x, 16 * i);
    }
    x
}

// 6.2.2, step 4: the next hash value.
fn next_hash(s: [u32; 8], h: [u32; 8]) -> [u32; 8]
    ensures { result ≡ fips.next_hash s h }
{
    std::array::from_fn(|i| s[i].wrapping_add(h[i]))
}

// 6.2.2: the hash value after the block b.
pub fn compress_block(h: [u32; 8], b: &[u8]) -> [u32; 8]
    requires { 64 ≤ length b.now }
    ensures { result ≡ fips.compress h (fips.words b.now) }
{
    let x = do_rounds(load(b), h);
    next_hash(x.variables, h)
}

// 6.2.2: the hash value after the whole blocks of m, from h on.
pub fn hash_blocks(h: [u32; 8], m: &[u8]) -> [u32; 8]
    ensures { result ≡ fips.hash h m.now (length m.now / 64) }
{
    let mut s = h;
    for block in m.chunks_exact(64) {
        let next = compress_block(s, block);
        s = next;
    }
    s
}
