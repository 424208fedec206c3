// A program written as a spool.
ghost use Rattle.std.specs.Prelude.{◌≡◌, ◌*◌, ◌≤◌, length};
ghost use Rattle.protocol.specs.Commands.{longest};
ghost use Rattle.protocol.specs.Replies.{put_in};
ghost use Rattle.spool.specs.Writing.{spool_blocks, spool_of};

// How many blocks a program of this length takes.
pub fn spool_blocks(len: usize) -> usize
    requires { len ≤ longest }
    ensures { result ≡ spool_blocks len }
{
    len.div_ceil(472)
}

// Puts the spool of a program at the front of the room, and says how long it is.
pub fn spread(program: &[u8], room: &mut [u8]) -> usize
    requires { (length program.now ≤ longest) × (512 * spool_blocks (length program.now) ≤ length room.old) }
    ensures { (result ≡ length (spool_of program.now)) × (room.new ≡ put_in room.old (spool_of program.now)) }
{
    let blocks = spool_blocks(program.len());
    // By places: over `program.chunks(472).enumerate()` it was tried, and its proof did not close.
    for place in 0..blocks {
        let block = spool_block::make(place as u32, &program[472 * place..]);
        endian::put(room, 512 * place, &block);
    }
    512 * blocks
}
