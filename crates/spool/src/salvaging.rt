// A damaged spool salvaged, block by block, with spare blocks.
ghost use Rattle.std.specs.Prelude.{◌≡◌, ℕ, ◌%◌, ◌≤◌, length, find};
ghost use Rattle.std.specs.Option.{option_map};
ghost use Rattle.spool_block.specs.Block.{is_good};
ghost use mathlib.Core.List.{flatten};
ghost use Rattle.endian.specs.Lists.{each};
ghost use Rattle.protocol.specs.Replies.{put_in};
ghost use Rattle.spool.specs.Answers.{fate_number};
ghost use Rattle.spool.specs.Reading.{blocks_in, block_at};
ghost use Rattle.spool.specs.Salvage.{Mended, mended};

use crate::Fate;

// The first spare that is good at a place of a spool of so many blocks, if one is.
fn find_spare(spares: &[[u8; 512]], place: usize, blocks: usize) -> Option<&[u8; 512]>
    ensures { option_map (λ spare. spare.now) result ≡ find (is_good blocks place) spares.now }
{
    spares
        .iter()
        .find(|&spare| spool_block::is_good(spare, place, blocks))
}

// Mends a block, and says what became of it. A slice of 512, since as_chunks_mut says nothing of what a slice then holds.
fn mend(block: &mut [u8], place: usize, blocks: usize, spares: &[[u8; 512]]) -> Fate
    requires { length block.old ≡ 512 }
    ensures { let m = mended blocks place spares.now block.old in (fate_number result ≡ m.entry) × (block.new ≡ m.block) }
{
    if spool_block::is_good(block, place, blocks) {
        return Fate::Kept;
    }
    let Some(spare) = find_spare(spares, place, blocks) else {
        return Fate::Lost;
    };
    block.copy_from_slice(spare);
    Fate::Replaced
}

// Mends each place, and puts what is reported of it at the front of the report.
pub fn mend_all(spool: &mut [u8], spares: &[[u8; 512]], report: &mut [u8])
    requires { (length spool.old % 512 ≡ 0) × (blocks_in spool.old ≤ length report.old) }
    ensures { let at : ℕ → Mended = λ i. mended (blocks_in spool.old) i spares.now (block_at spool.old i) in let n = blocks_in spool.old in (spool.new ≡ flatten (each n (λ i. (at i).block))) × (report.new ≡ put_in report.old (each n (λ i. (at i).entry))) }
{
    let blocks = spool.len() / 512;
    // By places: of a slice that chunks_exact_mut has lent a proof knows the length alone.
    for place in 0..blocks {
        let from = 512 * place;
        let fate = mend(&mut spool[from..from + 512], place, blocks, spares);
        report[place] = u8::from(fate);
    }
}
