// The values of a release sheet as text: decimal numbers, and bytes in hexadecimal digits.
#![tactic(auto)]

ghost use Rattle.std.specs.Prelude.{◌≡◌, ◌+◌, ◌-◌, ◌*◌, ◌<◌, true, ◌&&◌, length, leb, SomeIff};
ghost use Rattle.release_digits.specs.Digits.{is_digit, decimal, decimal_up_to, hex_digit, all_hex, hex_digits, hex_bytes};

// The number of n's digits with c behind them, if c is a digit and the number is at most `most`.
fn append(n: u64, c: u8, most: u64) -> Option<u64>
    ensures { SomeIff result (is_digit c && leb (10 * n + (c - 48)) most ≡ true) (10 * n + (c - 48)) }
{
    if !c.is_ascii_digit() {
        return None;
    }
    let number = n.checked_mul(10)?.checked_add(u64::from(c - b'0'))?;
    if most < number {
        return None;
    }
    Some(number)
}

// The decimal number that a text is, if it is one of at most `most`.
pub fn decimal(s: &[u8], most: u64) -> Option<u64>
    ensures { SomeIff result (decimal_up_to most s.now ≡ true) (decimal s.now) }
{
    if s.is_empty() {
        return None;
    }
    let mut n = 0;
    for c in s {
        n = append(n, *c, most)?;
    }
    Some(n)
}

// What a hexadecimal digit is worth.
fn hex_digit(c: u8) -> Option<u8>
    ensures { SomeIff result (hex_digit c < 16) (hex_digit c) }
{
    match c {
        b'0'..=b'9' => Some(c - b'0'),
        b'a'..=b'f' => Some(c - b'a' + 10),
        b'A'..=b'F' => Some(c - b'A' + 10),
        _ => None,
    }
}

// Whether a text is exactly n hexadecimal digits.
pub fn is_hex(s: &[u8], n: usize) -> bool
    ensures { result ≡ hex_digits n s.now }
{
    s.len() == n && s.iter().all(|c| hex_digit(*c).is_some())
}

// The bytes that hexadecimal digits stand for, two for each byte.
pub fn put_hex(s: &[u8], out: &mut [u8])
    requires { (length s.now ≡ 2 * length out.old) × (all_hex s.now ≡ true) }
    ensures { out.new ≡ hex_bytes s.now }
{
    for i in 0..out.len() {
        let high = hex_digit(s[2 * i]).unwrap();
        let low = hex_digit(s[2 * i + 1]).unwrap();
        out[i] = 16 * high + low;
    }
}
