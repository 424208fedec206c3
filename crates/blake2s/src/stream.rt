// RFC 7693, section 3.3, on a context. A block is compressed once a byte has come that stands behind it, so a full one waits.
ghost use Rattle.std.specs.Prelude.{◌≡◌, true, cond, ◌++◌, ◌+◌, ◌*◌, ◌^◌, ◌<◌, ◌≤◌, length, take, drop};
ghost use Rattle.std.proofs.Math.Seq.{paste};
ghost use Rattle.endian.specs.Lists.{padded};
ghost use Rattle.endian.specs.Endian.{word, first_bytes};
ghost use Rattle.rfc7693.specs.Rfc7693.{words, F, initial, blake2s};
ghost use Rattle.blake2s.specs.Steps.{compressed_blocks, state_after, block_after};
ghost use Rattle.blake2s.specs.Stream.{earlier, begun, extended, closed};

use super::Context;
use compression::{IV, compress};
use endian::word_at;
use std::array;

// The first state, with the lengths of the key and of the hash in it. Here and below key and hash have at most 32 bytes: begin refuses more.
fn first_state(kk: usize, nn: usize) -> [u32; 8]
    requires { (kk ≤ 32) × (nn ≤ 32) }
    ensures { result ≡ initial kk nn }
{
    let mut h = IV;
    h[0] = h[0] ^ 0x01010000 ^ ((kk as u32) << 8) ^ (nn as u32);
    h
}

// Writes s to b, from a place on. Not by `endian::put`, nor by numbers of 64 bits: of either LLVM makes a call of memcpy, which libdiagnosis.a
// would then want from outside.
fn copy(b: &mut [u8; 64], at: usize, s: &[u8])
    requires { at + length s.now ≤ 64 }
    ensures { b.new ≡ paste b.old at s.now (length s.now) }
{
    let at = at as u32;
    for i in 0..s.len() as u32 {
        b[(at + i) as usize] = s[i as usize];
    }
}

// Leaves the first bytes of b, and behind them s and zeros.
fn put_padded(b: &mut [u8; 64], at: usize, s: &[u8])
    requires { at + length s.now ≤ 64 }
    ensures { b.new ≡ padded 64 (take at b.old ++ s.now) }
{
    copy(b, at, s);
    b[at + s.len()..].fill(0);
}

// How many bytes have come, the key's block among them.
fn bytes_in(message: u32, keyed: bool) -> u64
    ensures { result ≡ cond keyed 64 0 + message }
{
    let n = message as u64;
    if keyed { 64 + n } else { n }
}

// How many of n bytes wait in the block.
fn waiting(n: u64) -> usize
    ensures { (64 * earlier n + result ≡ n) × (result ≤ 64) }
{
    if n == 0 {
        0
    } else {
        ((n - 1) % 64 + 1) as usize
    }
}

// How many blocks of n bytes come before the final one.
fn before_final(n: usize) -> usize
    ensures { (result ≡ earlier n) × (64 * result ≤ n) × (n ≤ 64 * result + 64) }
{
    if n == 0 { 0 } else { (n - 1) / 64 }
}

// The message words of a block.
fn read_words(b: &[u8]) -> [u32; 16]
    requires { 64 ≤ length b.now }
    ensures { result ≡ words b.now }
{
    array::from_fn(
        |i: usize| -> u32
            requires { (i < 16) × (64 ≤ length b.now) }
            ensures { result ≡ word b.entry.now (4 * i) }
        { word_at(b, 4 * i) },
    )
}

// Compresses the first n blocks of d, each with the flag last; the first has the counter t. compress is called here and nowhere else, so
// that LLVM inlines it into the loop: docs/PROVING.md, "Why the hash is fast".
// Kept by place: over `d.chunks_exact(64).take(n).enumerate()` it was tried, and the loop's proof did not close.
fn compress_blocks(h: &mut [u32; 8], t: u64, d: &[u8], n: usize, last: bool)
    requires { (64 * n ≤ length d.now) × (t + 64 * n < 2 ^ 63) }
    ensures { h.new ≡ compressed_blocks h.old t d.now n last }
{
    for i in 0..n {
        let at = 64 * i;
        let m = read_words(&d[at..at + 64]);
        *h = compress(*h, &m, t + (at as u64), last);
    }
}

// What no compression has taken: the bytes of the part behind the first `from`, which go to the block behind its first `at`.
#[derive(Clone, Copy)]
struct Rest {
    at: usize,
    from: usize,
}

// Compresses the blocks behind which a byte of s stands, where n bytes came before s. A function of its own, with one place behind it that
// puts what is left in the block: where `at` was known to be 0, LLVM would call memcpy there.
fn compress_full(h: &mut [u32; 8], block: &mut [u8; 64], n: u64, s: &[u8]) -> Rest
    requires { n + length s.now < 2 ^ 62 }
    ensures { (h.new ≡ state_after h.old block.old n s.now) × (result.from ≤ length s.now) × (result.at + length s.now ≤ 64 + result.from) × (padded 64 (take result.at block.new ++ drop result.from s.now) ≡ block_after block.old n s.now) }
{
    let at = waiting(n);
    let room = 64 - at;
    if s.len() <= room {
        return Rest { at, from: 0 };
    }
    copy(block, at, &s[..room]);
    let t = n + (room as u64);
    compress_blocks(h, t, block, 1, false);
    let rest = &s[room..];
    let k = before_final(rest.len());
    compress_blocks(h, t + 64, rest, k, false);
    Rest {
        at: 0,
        from: room + 64 * k,
    }
}

// Takes s in, where n bytes came before it.
fn absorb(h: &mut [u32; 8], block: &mut [u8; 64], n: u64, s: &[u8])
    requires { n + length s.now < 2 ^ 62 }
    ensures { (h.new ≡ state_after h.old block.old n s.now) × (block.new ≡ block_after block.old n s.now) }
{
    let rest = compress_full(h, block, n, s);
    put_padded(block, rest.at, &s[rest.from..]);
}

// Writes the hash of n bytes: the block that waits is the final one.
fn close(h: &mut [u32; 8], block: &[u8; 64], n: u64, out: &mut [u8])
    requires { n < 2 ^ 62 }
    ensures { out.new ≡ first_bytes (length out.old) (F h.old (words block.now) n true) }
{
    compress_blocks(h, n, block, 1, true);
    endian::write_bytes(h, out);
}

// A hash with a key and without a message yet.
pub fn begun(key: &[u8], size: usize) -> Context
    requires { (length key.now ≤ 32) × (size ≤ 32) }
    ensures { result ≡ begun key.now size }
{
    let mut block = [0u8; 64];
    endian::put(&mut block, 0, key);
    Context {
        h: first_state(key.len(), size),
        block,
        message: 0,
        keyed: key.len() != 0,
        size,
    }
}

// The context after the next part of the message.
pub fn extended(c: Context, s: &[u8]) -> Context
    requires { c.message + length s.now < 2 ^ 32 }
    ensures { result ≡ extended c s.now }
{
    let mut h = c.h;
    let mut block = c.block;
    absorb(&mut h, &mut block, bytes_in(c.message, c.keyed), s);
    Context {
        h,
        block,
        message: c.message + (s.len() as u32),
        ..c
    }
}

// The hash: what waits is the final block.
pub fn closed(c: Context, out: &mut [u8])
    requires { (length out.old ≡ c.size) × (c.size ≤ 32) }
    ensures { out.new ≡ closed c }
{
    let mut h = c.h;
    let mut block = c.block;
    let n = bytes_in(c.message, c.keyed);
    put_padded(&mut block, waiting(n), &[]);
    close(&mut h, &block, n, out);
}

// Writes the hash of a message in one part: as begun, extended and closed, without a context.
pub fn whole(key: &[u8], msg: &[u8], out: &mut [u8])
    requires { (length key.now ≤ 32) × (length msg.now < 2 ^ 32) × (length out.old ≤ 32) }
    ensures { out.new ≡ blake2s key.now msg.now (length out.old) }
{
    let mut h = first_state(key.len(), out.len());
    let mut block = [0u8; 64];
    endian::put(&mut block, 0, key);
    let keyed = key.len() != 0;
    absorb(&mut h, &mut block, bytes_in(0, keyed), msg);
    close(&mut h, &block, bytes_in(msg.len() as u32, keyed), out);
}
