// The command frames of a program.
ghost use Rattle.std.specs.Prelude.{◌≡◌, ◌<◌, ◌≤◌, ◌∷◌, length};
ghost use Rattle.protocol.specs.Commands.{longest, place_of, blocks_for};
ghost use Rattle.protocol.specs.Replies.{put_in};
ghost use Rattle.client.specs.Frames.{secret_in, command_header, load_body, block_body, command_body};

use framing::Status;

// The header of a command.
#[tactic(auto, using(crate::proofs::Parts::by_writer), unfolding(crate::specs::Frames::command_header))]
fn header(id: u8) -> u8
    ensures { result ≡ command_header id }
{
    framing::write_header(id, 2, 128, Status::Good).unwrap_or(0)
}

// The body of the load of a program of this size. 0x03, and 0x05 of a block, stand as in document 01's tables.
#[tactic(auto, unfolding(crate::specs::Frames::load_body))]
fn load_body(size: u32, secret: Option<[u8; 32]>) -> [u8; 128]
    ensures { result ≡ load_body size (secret_in secret) }
{
    let mut load = [0u8; 128];
    load[0] = 0x03;
    endian::put(&mut load, 1, &size.to_le_bytes());
    if let Some(uss) = secret {
        load[5] = 1;
        endian::put(&mut load, 6, &uss);
    }
    load
}

// The body of a block.
fn block_body(program: &[u8], block: u32) -> [u8; 128]
    requires program_len_bound { length program.now ≤ longest }
    requires block_in_bounds { place_of block < length program.now }
    ensures { result ≡ block_body program.now block }
{
    let n = protocol::count_in(program.len() as u32, block);
    let from = protocol::place_of(block);
    let mut body = [0u8; 128];
    body[0] = 0x05;
    endian::put(&mut body, 1, &program[from..from + n]);
    body
}

// The body of command frame k.
pub fn body(program: &[u8], secret: Option<[u8; 32]>, k: u32) -> [u8; 128]
    requires in_bounds { (1 ≤ length program.now) × (length program.now ≤ longest) }
    requires k_bound { k ≤ blocks_for (length program.now) }
    ensures { result ≡ command_body program.now (secret_in secret) k }
{
    if k == 0 {
        return load_body(program.len() as u32, secret);
    }
    block_body(program, k - 1)
}

// Puts a command with this body at the front of the room.
pub fn put(room: &mut [u8], id: u8, body: [u8; 128])
    requires { 129 ≤ length room.old }
    ensures { room.new ≡ put_in room.old (command_header id ∷ body) }
{
    room[0] = header(id);
    endian::put(room, 1, &body);
}
