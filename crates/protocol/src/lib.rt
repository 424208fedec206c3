// The firmware protocol: what a load and a block say, and each reply as a value.
// Document 01, "Commands and replies", and change request 5 in the terms of specs/Commands.antt and specs/Replies.antt.
#![tactic(auto)]

ghost use Rattle.std.specs.Prelude.{◌≡◌, cond, drop};
ghost use Rattle.framing.specs.declared.Status.TheVariants.{Good, Bad};
ghost use Rattle.protocol.specs.Commands.{length_ok, bytes_of, load_in, good_load, uses_uss, blocks_for, place_of, count_in, is_last};
ghost use Rattle.protocol.specs.Replies.{reply_header, reply_with, name_reply, udi_reply, load_reply, block_reply, digest_reply};

use framing::Status;

// A frame: its header, and its body at the front of 128 bytes.
#[derive(Clone, Copy)]
pub struct Frame {
    pub header: u8,
    pub body: [u8; 128],
}

// What a load says: the program's size, the user secret's flag and the user secret (USS). The flag's byte, and no Option: specs/Commands
// speaks of it (uses_uss, good_load).
#[derive(Clone, Copy)]
pub struct Load {
    pub size: u32,
    pub flag: u8,
    pub uss: [u8; 32],
}

// A reply: its header, the length of its body, and the body, filled up with zeros. An array in place: a library has no heap (document 01).
#[derive(Clone, Copy)]
pub struct Reply {
    pub header: u8,
    pub len: usize,
    pub body: [u8; 128],
}

// Reads a load.
pub fn read_load(f: Frame) -> Load
    ensures { result ≡ load_in (bytes_of f) }
{
    Load {
        size: endian::word_at(&f.body, 1),
        flag: f.body[5],
        uss: endian::part(&f.body, 6),
    }
}

// Whether a program, or RAM, can have so many bytes.
pub fn length_ok(n: usize) -> bool
    ensures { result ≡ length_ok n }
{
    0 < n && n <= 131072
}

// Whether a load is taken by a head with this much RAM.
pub fn load_is_good(l: Load, ram_len: usize) -> bool
    ensures { result ≡ good_load ram_len l }
{
    let size = l.size as usize;
    0 < size && size <= ram_len && l.flag <= 1
}

// Whether the user secret is used.
pub fn uses_uss(l: Load) -> bool
    ensures { result ≡ uses_uss l }
{
    l.flag == 1
}

// How many blocks a program takes.
pub fn blocks_for(size: u32) -> usize
    ensures { result ≡ blocks_for size }
{
    (size as usize).div_ceil(127)
}

// Where in a program a block's bytes stand.
pub fn place_of(block: u32) -> usize
    ensures { result ≡ place_of block }
{
    127 * (block as usize)
}

// How many bytes of a program a block carries.
pub fn count_in(size: u32, block: u32) -> usize
    ensures { result ≡ count_in size block }
{
    (size as usize).saturating_sub(place_of(block)).min(127)
}

// Whether a block is a program's last one: without a division, which a head's processor need not have.
pub fn is_last(size: u32, block: u32) -> bool
    ensures { result ≡ is_last size block }
{
    let from = place_of(block);
    let size = size as usize;
    from < size && size <= from + 127
}

// The header of the reply to a command with this header.
fn reply_header(header: u8, len: usize, status: Status) -> u8
    ensures { result ≡ reply_header header len status }
{
    framing::write_header(framing::frame_id(header), 2, len, status).unwrap_or(0)
}

// A reply with a status, which stands in its header and after its code. Code and status are written over the first two bytes of the body.
fn with_status(header: u8, len: usize, code: u8, status: Status, mut body: [u8; 128]) -> Reply
    ensures { result ≡ reply_with header len code status (drop 2 body) }
{
    body[0] = code;
    body[1] = status.into();
    Reply {
        header: reply_header(header, len, status),
        len,
        body,
    }
}

// Good for what was done, Bad for what was not. No `From<bool>`: at the call it would not say which of the two `true` is.
fn status_if(good: bool) -> Status
    ensures { result ≡ cond good Good Bad }
{
    if good { Status::Good } else { Status::Bad }
}

// "tk1 ", "mkdf", version 1. It has no status.
pub fn name_reply(header: u8) -> Reply
    ensures { result ≡ name_reply header }
{
    let name = [
        0x02u8, 0x74, 0x6b, 0x31, 0x20, 0x6d, 0x6b, 0x64, 0x66, 1, 0, 0, 0,
    ];
    let mut body = [0u8; 128];
    body[..13].copy_from_slice(&name);
    Reply {
        header: reply_header(header, 32, Status::Good),
        len: 32,
        body,
    }
}

// The device's identity.
pub fn udi_reply(header: u8, udi: [u8; 8]) -> Reply
    ensures { result ≡ udi_reply header udi }
{
    let mut body = [0u8; 128];
    body[2..10].copy_from_slice(&udi);
    with_status(header, 32, 0x09, Status::Good, body)
}

// Whether a load was taken.
pub fn load_reply(header: u8, good: bool) -> Reply
    ensures { result ≡ load_reply header good }
{
    with_status(header, 4, 0x04, status_if(good), [0; 128])
}

// A block that is not the last was stored.
pub fn block_reply(header: u8) -> Reply
    ensures { result ≡ block_reply header }
{
    with_status(header, 4, 0x06, Status::Good, [0; 128])
}

// The last block was stored: the program's digest.
pub fn digest_reply(header: u8, digest: [u8; 32]) -> Reply
    ensures { result ≡ digest_reply header digest }
{
    let mut body = [0u8; 128];
    body[2..34].copy_from_slice(&digest);
    with_status(header, 128, 0x07, Status::Good, body)
}
