// A head as a state that calls change: the types of the state and of the answers, what each call does (specs/), what is proved of that, and
// the code that goes by the state alone, `gather` among it. `loader` has the calls that are lent memory.
// Document 01 in the terms of specs/: State (the state and its ranges), Answers (the paper's numbers), Start (what a start is), Begin, Gather
// and Act (what each call does); the theorems are Theorems and KnownAnswers.
#![tactic(auto)]

mod commands;
mod gathering;
mod states;

ghost use Rattle.std.specs.Prelude.{◌≡◌};
ghost use Rattle.head.specs.Begin.{begin_refusal};
ghost use Rattle.head.specs.Gather.{gather_refusal};
ghost use Rattle.head.specs.Act.{act_refusal};
ghost use Rattle.head.specs.Answers.{refusal_number, stop_number, admission_number};

pub use commands::{decide, loaded};
pub use gathering::gather;
use record::Digests;
pub use states::{allowed, config_of, ended, fits, frame_ok, idle, is_whole, load_ok, of_size};

// Where a session stands.
#[derive(Clone, Copy, Debug, PartialEq, Eq)]
pub enum Phase {
    // Queries are answered, and a load is waited for.
    Waiting,
    // A load was taken, and its blocks come.
    Loading,
    Started,
    Stopped,
}

// The frame that is being gathered, or that is whole and waits to be acted on.
#[derive(Clone, Copy)]
pub struct Incoming {
    pub header: u8,
    // How many of its bytes have come, the header among them; 0 between frames.
    pub got: u8,
    // Its body, if it is for the firmware. Kept as an array with a count: document 01 wants fixed memory, and C lends the state so.
    pub body: [u8; 128],
}

// What begin fixed.
#[derive(Clone, Copy)]
pub struct Config {
    pub ram_len: usize,
    pub measured_id: [u8; 32],
    pub udi: [u8; 8],
    // Behind the other arrays: its size is odd, and what comes after it does not lie on a word.
    pub digests: Digests,
    // Whether the program must have one of these digests. Kept as a flag, as `chained` is.
    pub verify: bool,
    // Whether the measurement is measured_id (RESET_SEED), and not the program's digest. Kept as a flag: C's state has the bytes either way.
    pub chained: bool,
}

// How far the load is.
#[derive(Clone, Copy)]
pub struct Progress {
    // The program's size.
    pub size: u32,
    // The number of the block that is waited for.
    pub block: u32,
    pub uss: [u8; 32],
    // Kept as a flag beside it: the state that C lends has the bytes of a load either way.
    pub uss_used: bool,
    pub phase: Phase,
}

#[derive(Clone, Copy)]
pub struct State {
    pub incoming: Incoming,
    pub config: Config,
    pub progress: Progress,
}

// Why a call was refused: document 01's refusals 1 to 7, and 47. Begin gives 5 to 7, `gather` 1, 2 and 47, `act` 1 to 5 and 47.
#[derive(Clone, Copy, Debug, PartialEq, Eq)]
pub enum Refusal {
    // A field of the state is out of its range.
    StateRange,
    // The head has started or stopped.
    Ended,
    // The reply room has under 129 bytes.
    ReplyRoom,
    // RAM is not as long as at begin.
    RamLength,
    // The device secret is not eight words.
    SecretLength,
    // The reset record has not 256 bytes.
    RecordLength,
    // RAM has no byte, or over 131,072.
    RamSize,
    // A frame is whole and is to be acted on before a byte is gathered, or none is whole and there is nothing to act on.
    OutOfTurn,
}

// Why the head stopped: document 01's stops 20 and 22 to 25, and 26 of change request 3. Begin gives 20, 25 and 26, `gather` 22, `act` 23 to 25.
#[derive(Clone, Copy, Debug, PartialEq, Eq)]
pub enum Stop {
    // The record's type is 6 or above.
    UnknownType,
    // Bit 7 or bit 2 of a header is set.
    HeaderBit,
    // The command is not allowed in this phase, or unknown.
    Command,
    // The command has another body length.
    BodyLength,
    // The program's digest is not one of those that are allowed.
    Digest,
    // The size of the program in flash is 0, over the slot or over RAM.
    ProgramSize,
}

// A start: the program of this size at the front of RAM is to run, from this address.
#[derive(Clone, Copy)]
pub struct Start {
    pub address: u32,
    pub size: u32,
    pub cdi: [u8; 32],
    // The program's digest.
    pub digest: [u8; 32],
}

// What a call answers that is not refused.
#[derive(Clone, Copy)]
pub enum Answer {
    // The record or the byte is taken, or the frame was acted on, and the session goes on.
    Continue,
    // The byte is taken, and with it a frame for the firmware is whole: it is to be acted on.
    Whole,
    Stopped(Stop),
    Started(Start),
}

// What begin and gathering a byte give back, and what comes of a program that was measured.
#[derive(Clone, Copy)]
pub struct Step {
    pub answer: Answer,
    pub state: State,
}

// What acting on a frame gives back.
#[derive(Clone, Copy)]
pub struct Acted {
    pub answer: Answer,
    // How many bytes at the front of the reply room are a reply. A count, so no Option: 0 bytes are no reply.
    pub reply: usize,
    pub state: State,
}

// What is done with a whole frame that does not stop the head.
#[derive(Clone, Copy)]
pub enum Action {
    AnswerName,
    AnswerUdi,
    TakeLoad,
    TakeBlock,
}

// The number of a refusal: document 01's, and 47 of change request 8.
impl From<Refusal> for u8 {
    ghost from_gives = { λ r n. n ≡ refusal_number r };

    fn from(r: Refusal) -> u8 {
        match r {
            Refusal::StateRange => 1,
            Refusal::Ended => 2,
            Refusal::ReplyRoom => 3,
            Refusal::RamLength => 4,
            Refusal::SecretLength => 5,
            Refusal::RecordLength => 6,
            Refusal::RamSize => 7,
            Refusal::OutOfTurn => 47,
        }
    }
}

// The number of a stop.
impl From<Stop> for u8 {
    ghost from_gives = { λ s n. n ≡ stop_number s };

    fn from(s: Stop) -> u8 {
        match s {
            Stop::UnknownType => 20,
            Stop::HeaderBit => 22,
            Stop::Command => 23,
            Stop::BodyLength => 24,
            Stop::Digest => 25,
            Stop::ProgramSize => 26,
        }
    }
}

// Refuses a begin with so many bytes and words lent by the first refusal that applies.
pub fn admit_begin(record: usize, ram: usize, uds: usize) -> Result<(), Refusal>
    ensures { admission_number result ≡ begin_refusal «record» ram uds }
{
    if uds != 8 {
        return Err(Refusal::SecretLength);
    }
    if record != 256 {
        return Err(Refusal::RecordLength);
    }
    if !protocol::length_ok(ram) {
        return Err(Refusal::RamSize);
    }
    Ok(())
}

// Refuses gathering in a state by the first refusal that applies.
pub fn admit_gather(s: State) -> Result<(), Refusal>
    ensures { admission_number result ≡ gather_refusal s }
{
    if !states::in_range(s) {
        return Err(Refusal::StateRange);
    }
    if !states::is_live(s.progress) {
        return Err(Refusal::Ended);
    }
    if states::is_whole(s.incoming.header, s.incoming.got) {
        return Err(Refusal::OutOfTurn);
    }
    Ok(())
}

// Refuses acting in a state with so many bytes and words lent by the first refusal that applies.
pub fn admit_act(s: State, room: usize, ram: usize, uds: usize) -> Result<(), Refusal>
    ensures { admission_number result ≡ act_refusal s room ram uds }
{
    if !states::in_range(s) {
        return Err(Refusal::StateRange);
    }
    if !states::is_live(s.progress) {
        return Err(Refusal::Ended);
    }
    if !states::is_whole(s.incoming.header, s.incoming.got) {
        return Err(Refusal::OutOfTurn);
    }
    if room < 129 {
        return Err(Refusal::ReplyRoom);
    }
    if ram != s.config.ram_len {
        return Err(Refusal::RamLength);
    }
    if uds != 8 {
        return Err(Refusal::SecretLength);
    }
    Ok(())
}
