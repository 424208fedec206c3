// Words of 32 bits as four bytes, lowest byte first, and parts of what is lent.
#![tactic(auto)]

ghost use Rattle.std.specs.Prelude.{◌≡◌, ◌+◌, ◌≤◌, ◌/◌, ◌%◌, get_or, length, take, drop};
ghost use Rattle.std.proofs.Math.Seq.{paste};
ghost use Rattle.endian.specs.Lists.{zeros, padded, put_at, same};
ghost use Rattle.endian.specs.Endian.{word, byte_of, first_bytes};

// The word of four bytes.
pub fn word(bytes: [u8; 4]) -> u32
    ensures { result ≡ word bytes 0 }
{
    u32::from_le_bytes(bytes)
}

// The word at a place; zeros stand for bytes behind the last.
pub fn word_at(bytes: &[u8], at: usize) -> u32
    ensures { result ≡ word bytes.now at }
{
    word(part(bytes, at))
}

// N bytes from a place on; zeros stand for those behind the last.
pub fn part<const N: usize>(bytes: &[u8], from: usize) -> [u8; N]
    ensures whole { from + N ≤ length bytes.now → result ≡ take N (drop from bytes.now) }
    ensures filled { result ≡ padded N (take N (drop from bytes.now)) }
{
    let mut p = [0; N];
    if from <= bytes.len() {
        put(&mut p, 0, first(&bytes[from..], N));
    }
    p
}

// Byte i of a word; 0 from byte 4 on. By a shift, which the check knows as the definition's division; of `to_le_bytes` it does not find it.
pub fn byte(n: u32, i: usize) -> u8
    ensures { result ≡ byte_of n i }
{
    if 3 < i {
        return 0;
    }
    ((n >> (8 * (i as u32))) % 256) as u8
}

// Byte i of words, one after the other; 0 behind the last.
fn byte_at(words: &[u32], i: usize) -> u8
    ensures { result ≡ byte_of (get_or words.now (i / 4) 0) (i % 4) }
{
    let at = i / 4;
    if words.len() <= at {
        return 0;
    }
    byte(words[at], i % 4)
}

// Writes the bytes of words, as many as out has.
pub fn write_bytes(words: &[u32], out: &mut [u8])
    ensures { out.new ≡ first_bytes (length out.old) words.now }
{
    for (i, b) in out.iter_mut().enumerate() {
        *b = byte_at(words, i);
    }
}

// Sets each word to zero.
pub fn clear(words: &mut [u32])
    ensures { words.new ≡ zeros (length words.old) }
{
    words.fill(0);
}

// Writes bytes from a place on; where they do not fit, none.
pub fn put(out: &mut [u8], from: usize, x: &[u8])
    ensures bytes { out.new ≡ put_at from x.now out.old }
    ensures fits { from + length x.now ≤ length out.old → out.new ≡ paste out.old from x.now (length x.now) }
{
    if from <= out.len() && x.len() <= out.len() - from {
        out[from..from + x.len()].copy_from_slice(x);
    }
}

// Whether two slices hold the same bytes. Each is looked at, wherever they differ: without an early exit what calls this is small enough
// for LLVM to inline. By place, since what an iterator over bytes gives is a pair with a pointer in LLVM's module (both: docs/PROVING.md).
pub fn equal(a: &[u8], b: &[u8]) -> bool
    ensures { result ≡ same a.now b.now }
{
    if a.len() != b.len() {
        return false;
    }
    let mut so_far = true;
    for i in 0..a.len() {
        so_far = so_far & (a[i] == b[i]);
    }
    so_far
}

// The first n bytes, or all if there are fewer.
pub fn first(s: &[u8], n: usize) -> &[u8]
    ensures { result.now ≡ take n s.now }
{
    &s[..n.min(s.len())]
}
