// Blocks of 64 bytes, as SHA-256 pads a message and keeps what is pending of it. Numbers as 5.1.1 are sections of FIPS 180-4.
#![tactic(auto)]

ghost use Rattle.std.specs.Prelude.{◌≡◌, ◌+◌, ◌≤◌, ◌++◌, length, take, drop};
ghost use Rattle.digest_fips180.specs.Sha256 as fips;

// Lays x, and y behind it, over the front of b.
pub fn lay(b: &mut [u8], x: &[u8], y: &[u8])
    requires { length x.now + length y.now ≤ length b.old }
    ensures { b.new ≡ x.now ++ y.now ++ drop (length x.now + length y.now) b.old }
{
    b[..x.len()].copy_from_slice(x);
    b[x.len()..x.len() + y.len()].copy_from_slice(y);
}

// 5.1.1: the length in bits, over the last eight bytes of a block.
pub fn put_length(b: &mut [u8], bits: u64)
    requires { length b.old ≡ 64 }
    ensures { b.new ≡ take 56 b.old ++ fips.big_endian 8 bits }
{
    b[56..].copy_from_slice(&bits.to_be_bytes());
}

// 6.2.2: the bytes of the digest.
pub fn words_to_bytes(h: [u32; 8]) -> [u8; 32]
    ensures { result ≡ fips.bytes h }
{
    let mut r = [0; 32];
    for i in 0..8 {
        r[4 * i..4 * i + 4].copy_from_slice(&h[i].to_be_bytes());
    }
    r
}
