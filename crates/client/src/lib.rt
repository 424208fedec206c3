// The server's half of a load: command frames made from a program, and the head's replies read.
// Change requests 1 and 5 in the terms of specs/: Answers (the paper's numbers), Frames (what is made), Replies (what is taken).
#![tactic(auto)]

mod frames;
mod replies;

ghost use Rattle.std.specs.Prelude.{◌≡◌, Some, is_some, IfOk};
ghost use Rattle.client.specs.Answers.{refusal_number, number_of, difference_number};
ghost use Rattle.client.specs.Frames.{refusal, secret_in, making_of, making};
ghost use Rattle.client.specs.Replies.{expected_reply, has_digest, differing, taking_of, taking};

use framing::Status;
use replies::Kind;

// Why a call is refused. A refused call changes nothing.
#[derive(Clone, Copy, Debug, PartialEq, Eq)]
pub enum Refusal {
    // The room for the frame has under 129 bytes.
    FrameRoom,
    // The program has no byte, or over 131,072.
    ProgramLength,
    // The frame ID is over 3.
    FrameId,
    // The program has no frame of that number.
    FrameNumber,
    // The reply is not the one that is expected.
    UnexpectedReply,
}

// The number that the papers give a refusal.
impl From<Refusal> for u32 {
    ghost from_gives = { λ r n. n ≡ refusal_number r };

    fn from(r: Refusal) -> u32 {
        match r {
            Refusal::FrameRoom => 3,
            Refusal::ProgramLength => 40,
            Refusal::FrameId => 41,
            Refusal::FrameNumber => 42,
            Refusal::UnexpectedReply => 43,
        }
    }
}

// In what a reply differs from the expected one: the first of these, in this order.
#[derive(Clone, Copy, Debug, PartialEq, Eq)]
pub enum Difference {
    // Bit 7 of the header is set, or it has another ID, endpoint or body length; or there is no byte at all.
    Header,
    // There are more bytes than header and body, or fewer.
    Length,
    // Another code than the frame asks for.
    Code,
    // A status byte that is not bit 2 of the header.
    Status,
    // A byte behind the status, or behind the digest of the last reply, that is not zero.
    Filler,
}

impl From<Difference> for u32 {
    ghost from_gives = { λ d n. n ≡ difference_number (Some d) };

    fn from(d: Difference) -> u32 {
        match d {
            Difference::Header => 1,
            Difference::Length => 2,
            Difference::Code => 3,
            Difference::Status => 4,
            Difference::Filler => 5,
        }
    }
}

// What an expected reply says.
#[derive(Clone, Copy)]
pub struct Taken {
    pub status: Status,
    // The program's digest as the head measured it, with the last reply.
    pub digest: Option<[u8; 32]>,
}

// The lowest refusal that the program's length, the frame ID and the frame number give, if there is one.
#[tactic(auto, unfolding(crate::specs::Frames::refusal))]
fn check(len: usize, id: u8, k: u32) -> Result<(), Refusal>
    ensures { number_of result ≡ refusal len id k }
{
    if !protocol::length_ok(len) {
        return Err(Refusal::ProgramLength);
    }
    if 3 < id {
        return Err(Refusal::FrameId);
    }
    if protocol::blocks_for(len as u32) < k as usize {
        return Err(Refusal::FrameNumber);
    }
    Ok(())
}

// Makes command frame k of a program at the front of the room: 0 is the load, then come the blocks. The load has the user secret (USS), if
// there is one.
#[tactic(auto, using(crate::proofs::Numbers::given), unfolding(crate::specs::Frames::making))]
pub fn make_frame(
    program: &[u8],
    id: u8,
    secret: Option<[u8; 32]>,
    k: u32,
    room: &mut [u8],
) -> Result<(), Refusal>
    ensures { making_of result room.new ≡ making program.now id (secret_in secret) k room.old }
{
    if room.len() < 129 {
        return Err(Refusal::FrameRoom);
    }
    check(program.len(), id, k)?;
    frames::put(room, id, frames::body(program, secret, k));
    Ok(())
}

// Reads the reply to command frame k of a program of this length.
#[tactic(auto, using(crate::proofs::Numbers::given), unfolding(crate::specs::Replies::taking))]
pub fn read_reply(len: usize, id: u8, k: u32, reply: &[u8]) -> Result<Taken, Refusal>
    ensures taking { taking_of result ≡ taking len id k reply.now }
    ensures digest { IfOk result (λ t. is_some t.digest ≡ has_digest (expected_reply len k)) }
{
    check(len, id, k)?;
    let kind = Kind::of(len as u32, k);
    let status = kind
        .compare(id, reply)
        .map_err(|_| Refusal::UnexpectedReply)?;
    Ok(Taken {
        status,
        digest: kind.digest_in(reply),
    })
}

// In what the reply to command frame k of a program of this length differs from the expected one, if it does. None where the program has no
// such frame, or the ID is over 3: then no reply is expected, and read_reply says why.
#[tactic(auto, using(crate::proofs::Numbers::given), unfolding(crate::specs::Replies::differing))]
pub fn reply_difference(len: usize, id: u8, k: u32, reply: &[u8]) -> Option<Difference>
    ensures { result ≡ differing len id k reply.now }
{
    if check(len, id, k).is_err() {
        return None;
    }
    Kind::of(len as u32, k).compare(id, reply).err()
}
