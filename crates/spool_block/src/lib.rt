// A block of a design spool: tested at a place, and made.
// Change request 10 in the terms of specs/: Block (when a block is good), Making (as it is written).
#![tactic(auto)]

ghost use Rattle.std.specs.Prelude.{◌≡◌, [], ◌++◌, ◌+◌, ◌≤◌, ◌↔◌, eqb, length, take, IsTrue, All};
ghost use Rattle.rfc7693.specs.Rfc7693.{blake2s};
ghost use Rattle.endian.specs.Lists.{zeros};
ghost use Rattle.endian.specs.Fields.{number_in, word_bytes};
ghost use Rattle.spool_block.specs.Block.{count_in, used_in, good_check, good_count, good_filler, block_refusal, is_good, fault_number, number_of};
ghost use Rattle.spool_block.specs.Making.{checked_part, block_of};

// ---- a block tested

// The first that is wrong with a block at a place.
#[derive(Clone, Copy, Debug, PartialEq, Eq)]
pub enum Fault {
    // Its check is not the hash of its bytes 0 to 479.
    Check,
    // It has another number than its place.
    Number,
    // It uses too many or too few bytes, or one that it does not use is not zero.
    Count,
}

// The numbers of change request 10.
impl From<Fault> for u32 {
    ghost from_gives = { λ f n. n ≡ fault_number f };

    fn from(fault: Fault) -> u32 {
        match fault {
            Fault::Check => 51,
            Fault::Number => 52,
            Fault::Count => 53,
        }
    }
}

// BLAKE2s-256 of bytes 0 to 479.
#[tactic(auto, using(blake2s::proofs::Numbers::digest_zeros))]
fn check_of(b: &[u8; 512]) -> [u8; 32]
    ensures { result ≡ blake2s [] (take 480 b.now) 32 }
{
    blake2s::digest(&b[..480])
}

#[tactic(auto, unfolding(crate::specs::Block::good_check))]
fn check_is_good(b: &[u8; 512]) -> bool
    ensures { result ≡ good_check b.now }
{
    endian::equal(&b[480..], &check_of(b))
}

// The number in four bytes from a place on. `endian::word_at` reads the block, `number_in` the field: the check alone does not find them equal.
fn number_at(b: &[u8], at: usize) -> u32
    requires { at + 4 ≤ length b.now }
    ensures { result ≡ number_in (record { from = at; size = 4 }) b.now }
{
    endian::word(endian::part(b, at))
}

fn is_last(place: usize, blocks: usize) -> bool
    ensures { result ≡ eqb (place + 1) blocks }
{
    blocks != 0 && place == blocks - 1
}

// Whether a block may use so many bytes.
#[tactic(auto, unfolding(crate::specs::Block::good_count))]
fn count_is_good(place: usize, blocks: usize, count: u32) -> bool
    ensures { result ≡ good_count blocks place count }
{
    if !is_last(place, blocks) {
        return count == 472;
    }
    let most = if place == 277 { 328 } else { 472 };
    1 <= count && count <= most
}

fn all_zero(bytes: &[u8]) -> bool
    ensures { IsTrue result ↔ All (λ byte. byte ≡ 0) bytes.now }
{
    bytes.iter().all(|byte| *byte == 0)
}

// Whether the bytes that are not used are zero.
fn filler_is_good(b: &[u8; 512], count: u32) -> bool
    requires { (count ≡ count_in b.now) × (count ≤ 472) }
    ensures { result ≡ good_filler b.now }
{
    all_zero(&b[8 + count as usize..480])
}

// The tests of a block, in the order of their numbers.
#[tactic(auto, using(crate::proofs::Blocks::count_most), unfolding(crate::specs::Block::block_refusal))]
fn first_fault(b: &[u8; 512], place: usize, blocks: usize) -> Result<(), Fault>
    ensures { number_of result ≡ block_refusal blocks place b.now }
{
    if !check_is_good(b) {
        return Err(Fault::Check);
    }
    if number_at(b, 0) as usize != place {
        return Err(Fault::Number);
    }
    let count = number_at(b, 4);
    if !count_is_good(place, blocks, count) || !filler_is_good(b, count) {
        return Err(Fault::Count);
    }
    Ok(())
}

// Whether a block is good at a place of a spool of so many blocks, and otherwise its first fault. Fewer than 512 bytes have no whole check.
#[tactic(auto, using(crate::proofs::Blocks::short_block, crate::proofs::Blocks::block_front))]
pub fn check(b: &[u8], place: usize, blocks: usize) -> Result<(), Fault>
    ensures { number_of result ≡ block_refusal blocks place b.now }
{
    first_fault(b.first_chunk().ok_or(Fault::Check)?, place, blocks)
}

// Whether a block is good at a place. The number is looked at first: most spares have another one, and the check costs a hash.
#[tactic(auto, using(crate::proofs::Blocks::other_number, crate::proofs::Blocks::short_bad))]
pub fn is_good(b: &[u8], place: usize, blocks: usize) -> bool
    ensures { result ≡ is_good blocks place b.now }
{
    if b.len() < 512 || number_at(b, 0) as usize != place {
        return false;
    }
    check(b, place, blocks).is_ok()
}

// The program bytes that a block uses.
pub fn used(b: &[u8]) -> &[u8]
    ensures { result.now ≡ used_in b.now }
{
    if b.len() < 8 {
        return &b[..0];
    }
    let count = number_at(b, 4);
    endian::first(endian::first(&b[8..], 472), count as usize)
}

// ---- a block made

// Number and count.
fn front(number: u32, count: u32) -> [u8; 8]
    ensures { result ≡ word_bytes number ++ word_bytes count }
{
    let words = [number, count];
    let mut b = [0u8; 8];
    endian::write_bytes(&words, &mut b);
    b
}

// The block without its check.
fn unchecked(number: u32, x: &[u8]) -> [u8; 512]
    requires { length x.now ≤ 472 }
    ensures { result ≡ checked_part number x.now ++ zeros 32 }
{
    let front = front(number, x.len() as u32);
    let mut b = [0u8; 512];
    endian::put(&mut b, 0, &front);
    endian::put(&mut b, 8, x);
    b
}

// The block with this number that uses the first 472 bytes of x, or all if there are fewer.
pub fn make(number: u32, x: &[u8]) -> [u8; 512]
    ensures { result ≡ block_of number (take 472 x.now) }
{
    let mut b = unchecked(number, endian::first(x, 472));
    let check = check_of(&b);
    endian::put(&mut b, 480, &check);
    b
}
