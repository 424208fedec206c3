// What a whole frame asks for: document 01, the table of commands.
ghost use Rattle.std.specs.Prelude.{◌≡◌};
ghost use Rattle.head.specs.Act.{sized, request_waiting, request_loading, request_in, request_of, loaded};
ghost use Rattle.head.specs.Steps.{request, request_for, frame_of};

use super::{Action, Incoming, Phase, Progress, State, Stop};
use protocol::{Frame, Load};

// An action whose command has this body length.
fn sized(wanted: u8, len: u8, action: Action) -> Result<Action, Stop>
    ensures { request_for result ≡ sized wanted len (request action) }
{
    if len != wanted {
        return Err(Stop::BodyLength);
    }
    Ok(action)
}

// A command while waiting, by its number and its body's length. Document 01 names this form: a match over the command byte in each state,
// unknown numbers in ranges.
fn action_waiting(command: u8, len: u8) -> Result<Action, Stop>
    ensures { request_for result ≡ request_waiting command len }
{
    match command {
        0x01 => sized(1, len, Action::AnswerName),
        0x08 => sized(1, len, Action::AnswerUdi),
        0x03 => sized(128, len, Action::TakeLoad),
        0x05 => Err(Stop::Command),
        0 | 2 | 4 | 6..=7 | 9..=255 => Err(Stop::Command),
    }
}

// A command while loading.
fn action_loading(command: u8, len: u8) -> Result<Action, Stop>
    ensures { request_for result ≡ request_loading command len }
{
    match command {
        0x05 => sized(128, len, Action::TakeBlock),
        0x01 | 0x03 | 0x08 => Err(Stop::Command),
        0 | 2 | 4 | 6..=7 | 9..=255 => Err(Stop::Command),
    }
}

// A command.
fn action_in(phase: Phase, command: u8, len: u8) -> Result<Action, Stop>
    ensures { request_for result ≡ request_in phase command len }
{
    match phase {
        Phase::Waiting => action_waiting(command, len),
        Phase::Loading => action_loading(command, len),
        Phase::Started | Phase::Stopped => Err(Stop::Command),
    }
}

// What the frame that was gathered asks for.
pub fn decide(s: State) -> Result<Action, Stop>
    ensures { request_for result ≡ request_of s }
{
    action_in(
        s.progress.phase,
        s.incoming.body[0],
        framing::body_len(s.incoming.header),
    )
}

// The frame that was gathered.
impl From<Incoming> for Frame {
    ghost from_gives = { λ i f. f ≡ frame_of i };

    fn from(i: Incoming) -> Frame {
        let Incoming {
            header,
            got: _,
            body,
        } = i;
        Frame { header, body }
    }
}

// The progress after a load that is taken.
pub fn loaded(l: Load) -> Progress
    ensures { result ≡ loaded l }
{
    let Load { size, flag: _, uss } = l;
    Progress {
        phase: Phase::Loading,
        size,
        block: 0,
        uss_used: protocol::uses_uss(l),
        uss,
    }
}
