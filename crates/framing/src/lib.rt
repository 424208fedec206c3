// The header byte of a frame (TKey Framing Protocol), read and written.
// Document 01, "Header byte", and change request 5 in the terms of specs/Header.antt.
#![tactic(auto)]

ghost use Rattle.std.specs.Prelude.{◌≡◌, ◌<◌, MatchOption};
ghost use Rattle.framing.specs.Header.{frame_id, endpoint, status, in_field, fields_at, reply_body_len, header_at, header_byte, length_of, code_of, is_good, body_len};
ghost use Rattle.framing.specs.Answers.{status_number, reading_of, fields_of, writing_of};

// The status of a reply: whether the head has done what the command asked for. A command, and a reply without a status, is written with
// Good.
#[derive(Clone, Copy, Debug, PartialEq, Eq)]
pub enum Status {
    Good,
    Bad,
}

// The bit that stands for a status; a reply's status byte is the same number.
impl From<Status> for u8 {
    ghost from_gives = { λ s n. n ≡ status_number s };

    fn from(s: Status) -> u8 {
        match s {
            Status::Good => 0,
            Status::Bad => 1,
        }
    }
}

// What the header of a command says: the frame's ID, its endpoint, and how many bytes its body has.
#[derive(Clone, Copy, Debug, PartialEq, Eq)]
pub struct Header {
    pub id: u8,
    pub endpoint: u8,
    pub len: u8,
}

// What the header of a reply says; bit 2 is the status. No Header within: the specs read each of the two by its own fields.
#[derive(Clone, Copy, Debug, PartialEq, Eq)]
pub struct ReplyHeader {
    pub id: u8,
    pub endpoint: u8,
    pub len: u8,
    pub status: Status,
}

// The body's length that a length code stands for.
fn body_length(code: u8) -> u8
    requires { code < 4 }
    ensures { result ≡ length_of code }
{
    match code {
        0 => 1,
        1 => 4,
        2 => 32,
        _ => 128,
    }
}

// The length code of a body's length, where there is one.
fn length_code(len: usize) -> Option<u8>
    ensures { MatchOption result (code_of len ≡ 4) (λ code. (code ≡ code_of len) × (code < 4)) }
{
    match len {
        1 => Some(0),
        4 => Some(1),
        32 => Some(2),
        128 => Some(3),
        _ => None,
    }
}

// The ID of the frame with this header.
pub fn frame_id(b: u8) -> u8
    ensures { result ≡ in_field frame_id b }
{
    b / 32 % 4
}

// The endpoint of the frame with this header.
pub fn endpoint(b: u8) -> u8
    ensures { result ≡ in_field endpoint b }
{
    b / 8 % 4
}

// The status that bit 2 of a reply's header stands for. Here a set bit is Bad, so protocol's `status_if` is another conversion.
fn header_status(b: u8) -> Status
    ensures { status_number result ≡ in_field status b }
{
    if b / 4 % 2 == 0 {
        Status::Good
    } else {
        Status::Bad
    }
}

// Whether a command's header is good: its bits 7 and 2 are zero.
pub fn is_good(b: u8) -> bool
    ensures { result ≡ is_good (header_at b) }
{
    b / 128 % 2 == 0 && b / 4 % 2 == 0
}

// Reads the header of a command: none where bit 7 or bit 2 is set.
pub fn read_header(b: u8) -> Option<Header>
    ensures { reading_of result ≡ header_at b }
{
    if !is_good(b) {
        return None;
    }
    Some(Header {
        id: frame_id(b),
        endpoint: endpoint(b),
        len: body_length(b % 4),
    })
}

// Reads the header of a reply: none where bit 7 is set.
pub fn read_reply_header(b: u8) -> Option<ReplyHeader>
    ensures { fields_of result ≡ fields_at b }
{
    if b / 128 % 2 != 0 {
        return None;
    }
    Some(ReplyHeader {
        id: frame_id(b),
        endpoint: endpoint(b),
        len: body_length(b % 4),
        status: header_status(b),
    })
}

// The length of the body that a command's header gives; 0 for a bad one.
pub fn body_len(header: u8) -> u8
    ensures { result ≡ body_len (header_at header) }
{
    read_header(header).map_or(0, |h| h.len)
}

// The length of the body that a reply's header gives; 0 for a bad one.
pub fn reply_body_len(header: u8) -> u8
    ensures { result ≡ reply_body_len (fields_at header) }
{
    read_reply_header(header).map_or(0, |h| h.len)
}

// Makes a header byte, with bit 7 zero and the status as bit 2: none where the ID or the endpoint is over 3, or no header has that length.
pub fn write_header(id: u8, endpoint: u8, len: usize, status: Status) -> Option<u8>
    ensures { writing_of result ≡ header_byte id endpoint len (status_number status) }
{
    let code = length_code(len)?;
    if 3 < id || 3 < endpoint {
        return None;
    }
    Some(id * 32 + endpoint * 8 + u8::from(status) * 4 + code)
}
