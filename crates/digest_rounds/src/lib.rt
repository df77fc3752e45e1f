// The rounds of SHA-256, each with its message word out of a window of 16 words (document 02, request four). Numbers as 4.1.2 are
// sections of FIPS 180-4. Ch and Maj take fewer operations than the standard writes, and the rotations fewer copies of a word:
// proofs/Bits.antt has the laws.
#![tactic(auto)]

ghost use Rattle.std.specs.Prelude.{◌≡◌, ◌<◌};
ghost use Rattle.digest_fips180.specs.Sha256 as fips;
ghost use Rattle.digest_fips180.specs.Sha256.{◌⊞◌, σ₀, σ₁};
ghost use Rattle.digest_rounds.specs.Window as window;

// 4.1.2: the six functions.
fn ch(x: u32, y: u32, z: u32) -> u32
    ensures { result ≡ fips.Ch x y z }
{
    z ^ (x & (y ^ z))
}

fn maj(x: u32, y: u32, z: u32) -> u32
    ensures { result ≡ fips.Maj x y z }
{
    y ^ ((x ^ y) & (y ^ z))
}

fn big_sigma0(x: u32) -> u32
    ensures { result ≡ fips.Σ₀ x }
{
    (x ^ x.rotate_right(11)).rotate_right(2) ^ x.rotate_right(22)
}

fn big_sigma1(x: u32) -> u32
    ensures { result ≡ fips.Σ₁ x }
{
    (x ^ x.rotate_right(5)).rotate_right(6) ^ x.rotate_right(25)
}

fn small_sigma0(x: u32) -> u32
    ensures { result ≡ fips.σ₀ x }
{
    (x ^ x.rotate_right(11)).rotate_right(7) ^ (x >> 3)
}

fn small_sigma1(x: u32) -> u32
    ensures { result ≡ fips.σ₁ x }
{
    (x ^ x.rotate_right(2)).rotate_right(17) ^ (x >> 10)
}

// 6.2.2, step 1: W_t of W_(t-2), W_(t-7), W_(t-15) and W_(t-16).
fn next_word(w2: u32, w7: u32, w15: u32, w16: u32) -> u32
    ensures { result ≡ σ₁ w2 ⊞ w7 ⊞ σ₀ w15 ⊞ w16 }
{
    small_sigma1(w2)
        .wrapping_add(w7)
        .wrapping_add(small_sigma0(w15))
        .wrapping_add(w16)
}

// 6.2.2, step 3, at one t: k is K_t and w is W_t. What is known first is added first, and Σ₁ last.
fn do_round(s: [u32; 8], k: u32, w: u32) -> [u32; 8]
    ensures { result ≡ fips.round s k w }
{
    let [a, b, c, d, e, f, g, h] = s;
    let t1 = h
        .wrapping_add(k)
        .wrapping_add(w)
        .wrapping_add(ch(e, f, g))
        .wrapping_add(big_sigma1(e));
    let t2 = big_sigma0(a).wrapping_add(maj(a, b, c));
    [t1.wrapping_add(t2), a, b, c, d.wrapping_add(t1), e, f, g]
}

// The window, in which word n stands at place n % 16, and the working variables.
#[derive(Clone, Copy)]
pub struct Rounds {
    pub window: [u32; 16],
    pub variables: [u32; 8],
}

// The window for round t, of the one before it: from round 16 on, W_t is made and takes the place of W_(t-16).
fn window_for(v: [u32; 16], t: usize) -> [u32; 16]
    ensures { result ≡ window.window_for v t }
{
    if t < 16 {
        return v;
    }
    let x = next_word(
        v[(t - 2) % 16],
        v[(t - 7) % 16],
        v[(t - 15) % 16],
        v[(t - 16) % 16],
    );
    let mut w = v;
    w[t % 16] = x;
    w
}

// Round t, with its word out of the window; k is K_t. In line, so that a caller that knows t % 16 has no index to work out.
#[inline(always)]
pub fn round_on(x: Rounds, t: usize, k: u32) -> Rounds
    ensures { result ≡ window.round_on x t k }
{
    let Rounds {
        window: v,
        variables: s,
    } = x;
    let w = window_for(v, t);
    Rounds {
        window: w,
        variables: do_round(s, k, w[t % 16]),
    }
}
