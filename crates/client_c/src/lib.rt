// The client for C: include/mastfrap.h. Each contract says what that of the function in `client` does, in numbers and lent bytes.
#![tactic(auto)]

ghost use Rattle.std.specs.Prelude.{◌≡◌, not, eqb};
ghost use Rattle.client.specs.Answers.{number_of, difference_number};
ghost use Rattle.client.specs.Frames.{secret_of, making_as, making};
ghost use Rattle.client.specs.Replies.{differing, taking_as, taking_into};

use client::Refusal;

// 0 for a call that is accepted.
fn number(r: Result<(), Refusal>) -> u32
    ensures { result ≡ number_of r }
{
    r.err().map_or(0, u32::from)
}

// Any `used` but 0 is a yes: of what another language passes as a bool, bit 0 alone would be read.
#[unsafe(no_mangle)]
pub extern "C" fn mastfrap_make_frame(
    program: &[u8],
    id: u8,
    used: u8,
    uss: &[u8; 32],
    k: u32,
    room: &mut [u8],
) -> u32
    ensures { making_as result room.new ≡ making program.now id (secret_of (not (eqb used 0)) uss.now) k room.old }
{
    let secret = (used != 0).then_some(*uss);
    number(client::make_frame(program, id, secret, k, room))
}

// Status and digest are written where the reply is taken; the digest is zeros but for the last reply.
#[unsafe(no_mangle)]
pub extern "C" fn mastfrap_read_reply(
    len: usize,
    id: u8,
    k: u32,
    reply: &[u8],
    status: &mut u8,
    digest: &mut [u8; 32],
) -> u32
    ensures { taking_as result status.new digest.new ≡ taking_into len id k reply.now status.old digest.old }
{
    match client::read_reply(len, id, k, reply) {
        Ok(taken) => {
            *status = taken.status.into();
            // By a match: unwrap_or copies the digest once more.
            match taken.digest {
                Some(d) => *digest = d,
                None => *digest = [0; 32],
            }
            0
        }
        Err(why) => why.into(),
    }
}

#[unsafe(no_mangle)]
pub extern "C" fn mastfrap_difference(len: usize, id: u8, k: u32, reply: &[u8]) -> u32
    ensures { result ≡ difference_number (differing len id k reply.now) }
{
    client::reply_difference(len, id, k, reply).map_or(0, u32::from)
}
