// A spool read: a reader goes through it from block to block, and tests all before any byte is copied.
ghost use Rattle.std.specs.Prelude.{◌≡◌, true, false, ◌*◌, ◌≤◌, length, MatchResult};
ghost use Rattle.std.specs.Iterator.{YieldsFirstBy, item_count};
ghost use Rattle.protocol.specs.Replies.{put_in};
ghost use Rattle.spool_block.specs.Block.{number_of};
ghost use Rattle.spool.specs.Reading.{earliest, bad_length};
ghost use Rattle.spool.specs.Salvage.{blocks_of};
ghost use Rattle.spool.specs.Steps.{verdicts_from, place_after, uses_of};

use crate::Refusal;
use spool_block::Fault;

// The blocks of a spool, if one has this length.
pub fn blocks(spool: &[u8]) -> Result<&[[u8; 512]], Refusal>
    ensures { MatchResult result (λ blocks. (bad_length (length spool.now) ≡ false) × (blocks.now ≡ blocks_of spool.now)) (λ refusal. (bad_length (length spool.now) ≡ true) × (refusal ≡ Refusal.SpoolLength)) }
{
    let (blocks, rest) = spool.as_chunks();
    if blocks.is_empty() || 278 < blocks.len() || !rest.is_empty() {
        return Err(Refusal::SpoolLength);
    }
    Ok(blocks)
}

// A reader: the blocks of a spool, and the place of the one that it stands at. Document 01 names this form.
#[derive(Clone, Copy)]
pub struct Reader<'a> {
    blocks: &'a [[u8; 512]],
    place: usize,
}

impl<'a> Reader<'a> {
    pub fn at(blocks: &'a [[u8; 512]], place: usize) -> Reader<'a>
        ensures { (result.blocks ≡ blocks.entry) × (result.place ≡ place) }
    {
        Reader { blocks, place }
    }
}

// It goes from block to block, and tests each at its place. Behind the last block it gives nothing, and stays; its blocks are the same ever.
impl<'a> Iterator for Reader<'a> {
    type Item = Result<(), Fault>;

    ghost next_gives = { λ r v q. YieldsFirstBy number_of (λ r. verdicts_from r.blocks.now r.place) r v q × (q.blocks ≡ r.blocks) × (q.place ≡ place_after r.blocks.now r.place) };

    ghost remaining = { item_count (λ r. verdicts_from r.blocks.now r.place) };

    fn next(&mut self) -> Option<Result<(), Fault>> {
        let block = self.blocks.get(self.place)?;
        let verdict = spool_block::check(block, self.place, self.blocks.len());
        self.place += 1;
        Some(verdict)
    }
}

// The earliest block's first fault, if one has any.
pub fn check_all(blocks: &[[u8; 512]]) -> Result<(), Fault>
    ensures { number_of result ≡ earliest (verdicts_from blocks.now 0) }
{
    for verdict in Reader::at(blocks, 0) {
        verdict?;
    }
    Ok(())
}

// Puts the program at the front of the room, and says how long it is.
pub fn gather(blocks: &[[u8; 512]], room: &mut [u8]) -> usize
    requires { 472 * length blocks.now ≤ length room.old }
    ensures { (result ≡ length (uses_of blocks.now)) × (room.new ≡ put_in room.old (uses_of blocks.now)) }
{
    let mut at = 0;
    for block in blocks {
        let used = spool_block::used(block);
        endian::put(room, at, used);
        at += used.len();
    }
    at
}
