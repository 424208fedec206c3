// RFC 7693, sections 3.1 and 3.2: the compression of a block.
// The working vector goes by value through the mixings. Once LLVM has inlined them every position is a constant, and the vector is sixteen
// scalars and no array in memory: docs/PROVING.md, "Why the hash is fast".
#![tactic(auto)]

ghost use Rattle.std.specs.Prelude.{◌≡◌, ◌+◌, ◌*◌, ◌<◌, ◌≤◌, drop, if◌then◌else◌, bit_xor, slice_index};
ghost use Rattle.rfc7693.specs.Rfc7693.{sigma, added, xor_rotated, G, selected, rounds, work_vector, F};
ghost use Rattle.compression.specs.Steps.{Places, four_mixings};

use std::array;

// RFC 7693, 2.6.
pub const IV: [u32; 8] = [
    0x6a09e667, 0xbb67ae85, 0x3c6ef372, 0xa54ff53a, 0x510e527f, 0x9b05688c, 0x1f83d9ab, 0x5be0cd19,
];

// RFC 7693, 2.7.
const SIGMA: [[u8; 16]; 10] = [
    [0, 1, 2, 3, 4, 5, 6, 7, 8, 9, 10, 11, 12, 13, 14, 15],
    [14, 10, 4, 8, 9, 15, 13, 6, 1, 12, 0, 2, 11, 7, 5, 3],
    [11, 8, 12, 0, 5, 2, 15, 13, 10, 14, 3, 6, 7, 1, 9, 4],
    [7, 9, 3, 1, 13, 12, 11, 14, 2, 6, 5, 10, 4, 0, 15, 8],
    [9, 0, 5, 7, 2, 4, 10, 15, 14, 1, 11, 12, 6, 8, 3, 13],
    [2, 12, 6, 10, 0, 11, 8, 3, 4, 13, 7, 5, 15, 14, 1, 9],
    [12, 5, 1, 15, 14, 13, 4, 10, 0, 7, 6, 3, 9, 2, 8, 11],
    [13, 11, 7, 14, 12, 1, 3, 9, 5, 0, 15, 4, 8, 6, 2, 10],
    [6, 15, 14, 9, 11, 3, 0, 8, 12, 2, 13, 7, 1, 4, 10, 5],
    [10, 2, 8, 4, 7, 6, 1, 5, 15, 11, 9, 14, 3, 12, 13, 0],
];

// RFC 7693, 3.2: the positions of the eight mixings of a round, the four columns and then the four diagonals.
const POSITIONS: [[usize; 4]; 8] = [
    [0, 4, 8, 12],
    [1, 5, 9, 13],
    [2, 6, 10, 14],
    [3, 7, 11, 15],
    [0, 5, 10, 15],
    [1, 6, 11, 12],
    [2, 7, 8, 13],
    [3, 4, 9, 14],
];

// v[a] := v[a] + v[b] + x modulo 2^32.
fn add(v: [u32; 16], a: usize, b: usize, x: u32) -> [u32; 16]
    requires { (a < 16) × (b < 16) }
    ensures { result ≡ added v a b x }
{
    let mut w = v;
    w[a] = w[a].wrapping_add(w[b]).wrapping_add(x);
    w
}

// v[d] := (v[d] ^ v[a]) >>> n.
fn xor_rotate(v: [u32; 16], d: usize, a: usize, n: u32) -> [u32; 16]
    requires { (d < 16) × (a < 16) × (0 < n) × (n < 32) }
    ensures { result ≡ xor_rotated v d a n }
{
    let mut w = v;
    w[d] = (w[d] ^ w[a]).rotate_right(n);
    w
}

// The mixing function G.
fn mix(v: [u32; 16], a: usize, b: usize, c: usize, d: usize, x: u32, y: u32) -> [u32; 16]
    requires { (a < 16) × (b < 16) × (c < 16) × (d < 16) }
    ensures { result ≡ G v a b c d x y }
{
    let v1 = add(v, a, b, x);
    let v2 = xor_rotate(v1, d, a, 16);
    let v3 = add(v2, c, d, 0);
    let v4 = xor_rotate(v3, b, c, 12);
    let v5 = add(v4, a, b, y);
    let v6 = xor_rotate(v5, d, a, 8);
    let v7 = add(v6, c, d, 0);
    xor_rotate(v7, b, c, 7)
}

// m[s[j]].
fn select(m: &[u32; 16], s: [u8; 16], j: usize) -> u32
    requires { (j < 16) × Places 16 s }
    ensures { result ≡ selected m.now s j }
{
    m[s[j] as usize]
}

// Mixing i of a round, at a row p of the table: G with the message words 2i and 2i + 1 of the order s.
fn mix_row(m: &[u32; 16], s: [u8; 16], v: [u32; 16], i: usize, p: [usize; 4]) -> [u32; 16]
    requires { Places 16 s × (i < 8) × Places 4 p }
    ensures { result ≡ G v (slice_index p 0) (slice_index p 1) (slice_index p 2) (slice_index p 3) (selected m.now s (2 * i)) (selected m.now s (2 * i + 1)) }
{
    let x = select(m, s, 2 * i);
    let y = select(m, s, 2 * i + 1);
    mix(v, p[0], p[1], p[2], p[3], x, y)
}

// v, word by word. It changes nothing; without it LLVM joins words in pairs, and the hash takes twice the time.
fn apart(v: [u32; 16]) -> [u32; 16]
    ensures { result ≡ v }
{
    [
        v[0], v[1], v[2], v[3], v[4], v[5], v[6], v[7], v[8], v[9], v[10], v[11], v[12], v[13],
        v[14], v[15],
    ]
}

// Half a round: the column step from row 0 of the table, the diagonal step from row 4.
fn half_round<const K: usize>(m: &[u32; 16], s: [u8; 16], v: [u32; 16]) -> [u32; 16]
    requires { Places 16 s × (K ≤ 4) }
    ensures { result ≡ four_mixings m.now s K v }
{
    let p = POSITIONS;
    let v1 = mix_row(m, s, v, K, p[K]);
    let v2 = mix_row(m, s, v1, K + 1, p[K + 1]);
    let v3 = mix_row(m, s, v2, K + 2, p[K + 2]);
    let v4 = mix_row(m, s, v3, K + 3, p[K + 3]);
    apart(v4)
}

// Rounds R and R + 1. The rounds are written out and in halves, which is what LLVM inlines (docs/DECISIONS.md, 15), and two of them are a
// function of their own, since only what LLVM has inlined shares its place on the stack.
fn two_rounds<const R: usize>(v: [u32; 16], m: &[u32; 16]) -> [u32; 16]
    requires { R < 9 }
    ensures { rounds m.now (drop (R + 2) sigma) result ≡ rounds m.now (drop R sigma) v }
{
    let s = SIGMA;
    let s0 = s[R];
    let w = half_round::<4>(m, s0, half_round::<0>(m, s0, v));
    let s1 = s[R + 1];
    half_round::<4>(m, s1, half_round::<0>(m, s1, w))
}

// The ten rounds.
fn rounds(v: [u32; 16], m: &[u32; 16]) -> [u32; 16]
    ensures { result ≡ rounds m.now sigma v }
{
    let v2 = two_rounds::<0>(v, m);
    let v4 = two_rounds::<2>(v2, m);
    let v6 = two_rounds::<4>(v4, m);
    let v8 = two_rounds::<6>(v6, m);
    two_rounds::<8>(v8, m)
}

// x, with all bits inverted for the last block.
fn inverted_if(last: bool, x: u32) -> u32
    ensures { result ≡ (if last then bit_xor x 4294967295 else x) }
{
    if last { x ^ 0xffffffff } else { x }
}

// The working vector at the start. Written out: filled by `copy_from_slice`, LLVM keeps it in memory, and the hash takes 8% more time.
fn work_vector(h: [u32; 8], t: u64, last: bool) -> [u32; 16]
    ensures { result ≡ work_vector h t last }
{
    let iv = IV;
    let lo = (t % 4294967296) as u32;
    let hi = (t / 4294967296) as u32;
    [
        h[0],
        h[1],
        h[2],
        h[3],
        h[4],
        h[5],
        h[6],
        h[7],
        iv[0],
        iv[1],
        iv[2],
        iv[3],
        iv[4] ^ lo,
        iv[5] ^ hi,
        inverted_if(last, iv[6]),
        iv[7],
    ]
}

// The compression function F on the sixteen message words of a block.
pub fn compress(h: [u32; 8], m: &[u32; 16], t: u64, last: bool) -> [u32; 8]
    ensures { result ≡ F h m.now t last }
{
    let v = rounds(work_vector(h, t, last), m);
    array::from_fn(
        |i: usize| -> u32
            requires { i < 8 }
            ensures { result ≡ bit_xor (bit_xor (slice_index h i) (slice_index v i)) (slice_index v (i + 8)) }
        { h[i] ^ v[i] ^ v[i + 8] },
    )
}
