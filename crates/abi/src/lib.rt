// The head for C, and for whatever calls C: begin, gather and act over a state in memory that the caller lends, and reset. include/mastfrap.h
// has the calls and what the caller vouches for; specs/Layout.antt says which memory is which state, specs/Calls.antt what each call answers
// and leaves, and handover's specs/Reset.antt what a reset does. `abi_c` is the static library.
#![tactic(auto)]

mod gathering;
mod layout;

ghost use Rattle.std.specs.Prelude.{◌≡◌};
ghost use Rattle.head.specs.Answers.{refusal_number, report_of, cdi_in, digest_in};
ghost use Rattle.head.specs.Begin.{flash_of};
ghost use Rattle.handover.specs.Reset.{next_of, handed_over, resetting};
ghost use Rattle.abi.specs.Layout.{lent};
ghost use Rattle.abi.specs.Calls.{answer_number, start_of, start_in, gather_told, gather_call, begin_told, begin_call, act_told, act_call};

use handover::Next;
use loader::{Answer, Flash, Refusal, Slot};

// The number of a refusal.
fn refusal_number(why: Refusal) -> u32
    ensures { result ≡ refusal_number why }
{
    u32::from(u8::from(why))
}

// The number of an answer. Not a `From`: 0, 64 and 65 are numbers of the C calls alone, and the type is `head`'s.
fn answer_number(a: Answer) -> u32
    ensures { result ≡ answer_number (report_of a) }
{
    match a {
        Answer::Continue => 0,
        Answer::Whole => 64,
        Answer::Stopped(why) => u32::from(u8::from(why)),
        Answer::Started(_) => 65,
    }
}

// Writes what a start gives; zeros otherwise.
fn give(a: Answer, start: &mut [u32; 2], cdi: &mut [u8; 32], digest: &mut [u8; 32])
    ensures { start_in start.new cdi.new digest.new ≡ start_in (start_of (report_of a)) (cdi_in a) (digest_in a) }
{
    *start = [0; 2];
    *cdi = [0; 32];
    *digest = [0; 32];
    if let Answer::Started(x) = a {
        let (c, d) = (x.cdi, x.digest);
        *start = [x.address, x.size];
        *cdi = c;
        *digest = d;
    }
}

// begin.
pub fn mastfrap_begin<'a>(
    numbers: &mut [u32; 3],
    bytes: &mut [u8; 268],
    record: &[u8],
    udi: &[u8; 8],
    slot0: &'a [u8],
    size0: usize,
    slot1: &'a [u8],
    size1: usize,
    built_in: &[u8; 32],
    ram: &mut [u8],
    uds: &mut [u32],
    start: &mut [u32; 2],
    cdi: &mut [u8; 32],
    digest: &mut [u8; 32],
) -> u32
    ensures { begin_told result (lent numbers.new bytes.new) (start_in start.new cdi.new digest.new) ram.new uds.new ≡ begin_call (lent numbers.old bytes.old) «record».now udi.now (flash_of slot0.now size0 slot1.now size1 built_in.now) ram.old uds.old (start_in start.old cdi.old digest.old) }
{
    let flash = Flash {
        slot0: Slot {
            bytes: slot0,
            size: size0,
        },
        slot1: Slot {
            bytes: slot1,
            size: size1,
        },
        built_in: *built_in,
    };
    match loader::begin(record, *udi, flash, ram, uds) {
        Err(why) => refusal_number(why),
        Ok(r) => {
            layout::write(r.state, numbers, bytes);
            give(r.answer, start, cdi, digest);
            answer_number(r.answer)
        }
    }
}

// gather, in place: a byte changes the few bytes that it changes.
pub fn mastfrap_gather(numbers: &mut [u32; 3], bytes: &mut [u8; 268], byte: u8) -> u32
    ensures { gather_told result (lent numbers.new bytes.new) ≡ gather_call (lent numbers.old bytes.old) byte }
{
    let len = framing::body_len(bytes[128]);
    if let Err(why) = gathering::admit(numbers, bytes, len) {
        return refusal_number(why);
    }
    if bytes[129] == 0 {
        return answer_number(gathering::open(numbers, bytes, byte));
    }
    answer_number(gathering::take(bytes, len, byte))
}

// act.
pub fn mastfrap_act(
    numbers: &mut [u32; 3],
    bytes: &mut [u8; 268],
    room: &mut [u8],
    ram: &mut [u8],
    uds: &mut [u32],
    reply: &mut u32,
    start: &mut [u32; 2],
    cdi: &mut [u8; 32],
    digest: &mut [u8; 32],
) -> u32
    ensures { act_told result (lent numbers.new bytes.new) reply.new (start_in start.new cdi.new digest.new) room.new ram.new uds.new ≡ act_call (lent numbers.old bytes.old) room.old ram.old uds.old reply.old (start_in start.old cdi.old digest.old) }
{
    if !layout::holds(bytes) {
        return refusal_number(Refusal::StateRange);
    }
    let s = layout::read(numbers, bytes);
    match loader::act(s, room, ram, uds) {
        Err(why) => refusal_number(why),
        Ok(r) => {
            layout::write(r.state, numbers, bytes);
            *reply = r.reply as u32;
            give(r.answer, start, cdi, digest);
            answer_number(r.answer)
        }
    }
}

// reset.
pub fn mastfrap_reset(
    cdi: &mut [u8],
    seed: &[u8],
    next_type: u32,
    mask: u32,
    first: &[u8; 32],
    second: &[u8; 32],
    next_data: &[u8],
    record: &mut [u8],
) -> u32
    ensures { handed_over result cdi.new «record».new ≡ resetting cdi.old seed.now (next_of next_type mask first.now second.now next_data.now) «record».old }
{
    let next = Next {
        next_type,
        mask,
        first: *first,
        second: *second,
        next_data,
    };
    handover::reset(cdi, seed, next, record)
        .err()
        .map_or(0, u32::from)
}
