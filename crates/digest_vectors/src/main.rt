// Prints SHA-256 digests as sha256sum does, one line for a message: 64 hexadecimal digits and the message's name.
// The messages: the published ones (empty, abc, 448-bit, 896-bit, one million a), and the first n bytes of a fixed pattern for
// each n from 0 to 200.
#![tactic(auto)]

use digest_sha256::Hasher;
use std::io;

// The digest and the name, with no line end.
fn print(rt: &impl Print, digest: [u8; 32], name: &str) -> io::Result<()> {
    for b in &digest {
        print!(rt; "{b:02x}")?;
    }
    print!(rt; "  {name}")
}

// A whole line.
fn print_line(rt: &impl Print, digest: [u8; 32], name: &str) -> io::Result<()> {
    print(rt, digest, name)?;
    println!(rt)
}

// One million a, in a thousand parts of a thousand.
fn million() -> [u8; 32] {
    let part = [b'a'; 1000];
    let mut d = Hasher::new();
    for _ in 0..1000 {
        d = d.absorb(&part);
    }
    d.finish()
}

// Byte i of the pattern is (7 i + 3) modulo 256.
fn pattern() -> [u8; 200] {
    std::array::from_fn(|i| ((7 * i + 3) % 256) as u8)
}

// A line for each length from 0 to 200.
fn print_patterns(rt: &impl Print, p: [u8; 200]) -> io::Result<()> {
    for n in 0..=200 {
        print(rt, digest_sha256::digest(&p[..n]), "pattern-")?;
        println!(rt; "{n}")?;
    }
    Ok(())
}

fn main(rt: HostRuntime) -> io::Result<()> {
    print_line(&rt, digest_sha256::digest(b""), "empty")?;
    print_line(&rt, digest_sha256::digest(b"abc"), "abc")?;
    print_line(
        &rt,
        digest_sha256::digest(b"abcdbcdecdefdefgefghfghighijhijkijkljklmklmnlmnomnopnopq"),
        "448-bit",
    )?;
    print_line(
        &rt,
        digest_sha256::digest(
            b"abcdefghbcdefghicdefghijdefghijkefghijklfghijklmghijklmnhijklmnoijklmnopjklmnopqklmnopqrlmnopqrsmnopqrstnopqrstu",
        ),
        "896-bit",
    )?;
    print_line(&rt, million(), "million-a")?;
    print_patterns(&rt, pattern())
}
