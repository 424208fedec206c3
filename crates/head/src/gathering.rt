// A frame gathered byte by byte: document 01, "Header byte".
ghost use Rattle.std.specs.Prelude.{◌≡◌, true, false, ◌≤◌};
ghost use Rattle.framing.specs.Header.{header_at};
ghost use Rattle.head.specs.State.{is_whole, incoming_ok};
ghost use Rattle.head.specs.Answers.{gathering_in, gathering_of};
ghost use Rattle.head.specs.Gather.{taken, bad, opened, in_body, byte_step, after_step, gathered};

use super::{Answer, Incoming, Phase, Refusal, State, Step, Stop, states};
use framing::Header;

// A byte was taken, and this is the frame so far.
fn go_on(s: State, incoming: Incoming) -> Step
    ensures { gathering_in result ≡ after_step (taken incoming) s }
{
    let state = State { incoming, ..s };
    if states::is_whole(incoming.header, incoming.got) {
        return Step {
            answer: Answer::Whole,
            state,
        };
    }
    Step {
        answer: Answer::Continue,
        state,
    }
}

// A bad header.
fn stop(s: State) -> Step
    ensures { gathering_in result ≡ after_step bad s }
{
    Step {
        answer: Answer::Stopped(Stop::HeaderBit),
        state: states::ended(Phase::Stopped, s.config.ram_len),
    }
}

// A header.
fn open(s: State, b: u8) -> Step
    ensures { gathering_in result ≡ after_step (opened (header_at b) s.incoming b) s }
{
    match framing::read_header(b) {
        Some(_) => go_on(
            s,
            Incoming {
                header: b,
                got: 1,
                ..s.incoming
            },
        ),
        None => stop(s),
    }
}

// A byte of the body that a header announced: it is kept where the frame is for the firmware.
fn in_body(s: State, h: Header, b: u8) -> Step
    requires { (1 ≤ s.incoming.got) × (s.incoming.got ≤ 128) }
    ensures { gathering_in result ≡ after_step (taken (in_body s.incoming h.endpoint h.len b)) s }
{
    let i = s.incoming;
    let mut next = Incoming {
        got: i.got + 1,
        ..i
    };
    if h.endpoint == 2 {
        next.body[(i.got - 1) as usize] = b;
        return go_on(s, next);
    }
    if i.got == h.len {
        return go_on(s, states::idle());
    }
    go_on(s, next)
}

// A byte of a call that is not refused.
fn take(s: State, b: u8) -> Step
    requires incoming_value { incoming_ok s.incoming ≡ true }
    requires incoming_value_2 { is_whole s.incoming ≡ false }
    ensures { gathering_in result ≡ after_step (byte_step s.incoming b) s }
{
    if s.incoming.got == 0 {
        return open(s, b);
    }
    match framing::read_header(s.incoming.header) {
        Some(h) => in_body(s, h, b),
        None => stop(s),
    }
}

// Gathers a byte, and says when a frame for the firmware is whole. A refused call changes nothing.
pub fn gather(s: State, byte: u8) -> Result<Step, Refusal>
    ensures { gathering_of result s ≡ gathered s byte }
{
    super::admit_gather(s)?;
    Ok(take(s, byte))
}
