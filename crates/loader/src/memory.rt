// Bytes read and written in what is lent: the reply room, RAM and the device secret.
ghost use Rattle.std.specs.Prelude.{◌≡◌, ◌+◌, ◌≤◌, length};
ghost use Rattle.endian.specs.Endian.{bytes};
ghost use Rattle.protocol.specs.Commands.{bytes_of, place_of, count_in};
ghost use Rattle.protocol.specs.Replies.{sent, put_in};
ghost use Rattle.head.specs.Act.{stored_in};

use protocol::{Frame, Reply};

// Puts a reply at the front of the room.
pub fn put(room: &mut [u8], r: Reply)
    requires in_bounds { 129 ≤ length room.old }
    requires len_bound { r.len ≤ 128 }
    ensures { room.new ≡ put_in room.old (sent r) }
{
    room[0] = r.header;
    endian::put(room, 1, &r.body[..r.len]);
}

// Puts the program bytes that a block carries in RAM.
pub fn store(ram: &mut [u8], f: Frame, size: u32, block: u32)
    requires { place_of block + count_in size block ≤ length ram.old }
    ensures { ram.new ≡ stored_in ram.old (bytes_of f) size block }
{
    let n = protocol::count_in(size, block);
    endian::put(ram, protocol::place_of(block), &f.body[1..n + 1]);
}

// The device secret as bytes.
pub fn secret_bytes(words: &[u32]) -> [u8; 32]
    ensures { result ≡ bytes words.now }
{
    let mut secret = [0u8; 32];
    endian::write_bytes(words, &mut secret);
    secret
}
