// The laptop's half of a load, event by event: what `./load` does next. Nothing here reads or writes; the program `load` does. What is sent
// and what is taken is `client`'s; specs/Upload.antt says when.
#![tactic(auto)]

mod steps;

ghost use Rattle.std.specs.Prelude.{◌≡◌};
ghost use Rattle.upload.specs.Upload.{is_over, exit_number};

// What is to be loaded, and how.
#[derive(Clone, Copy)]
pub struct Job {
    // How many bytes the program has.
    pub len: usize,
    // The ID of every frame.
    pub id: u8,
    // The program's digest.
    pub digest: [u8; 32],
    // How many ticks of silence there may be before a reply is whole. A tick is a tenth of a second.
    pub wait: u32,
}

// A frame that is sent, and what has come of its reply.
#[derive(Clone, Copy)]
pub struct Exchange {
    // The frame's number.
    pub k: u32,
    // How many bytes of the reply have come.
    pub got: usize,
    // These, and zeros. An array in place: a library has no heap.
    pub reply: [u8; 129],
    // How many more ticks of silence there may be.
    pub ticks: u32,
}

// What the line gives.
#[derive(Clone, Copy, Debug, PartialEq, Eq)]
pub enum Event {
    Byte(u8),
    // A tick without a byte.
    Silence,
    // The line is gone.
    Closed,
}

// Why a program is not loaded.
#[derive(Clone, Copy, Debug, PartialEq, Eq)]
pub enum Failure {
    ProgramLength,
    // A frame ID over 3.
    FrameId,
    SecretLength,
    // A device that is no serial line.
    Device,
    NoAnswer,
    LineClosed,
    UnexpectedReply,
    // The head answered with status 1.
    Refused,
    // The head measured another digest.
    OtherDigest,
}

// What is to be done.
#[derive(Clone, Copy, Debug, PartialEq, Eq)]
pub enum Next {
    // Send the frame of the exchange, and wait for what the line gives.
    Send,
    // Wait for what the line gives.
    Wait,
    // The load is over: the head has the program, or not.
    Over(Result<(), Failure>),
}

#[derive(Clone, Copy)]
pub struct Turn {
    pub exchange: Exchange,
    pub next: Next,
}

impl Next {
    pub fn is_over(self) -> bool
        ensures { result ≡ is_over self }
    {
        matches!(self, Next::Over(_))
    }
}

// The exit status that stands for a failure.
impl From<Failure> for u32 {
    ghost from_gives = { λ f n. n ≡ exit_number f };

    fn from(f: Failure) -> u32 {
        match f {
            Failure::ProgramLength => 3,
            Failure::FrameId => 2,
            Failure::SecretLength => 3,
            Failure::Device => 4,
            Failure::NoAnswer => 5,
            Failure::LineClosed => 6,
            Failure::UnexpectedReply => 7,
            Failure::Refused => 8,
            Failure::OtherDigest => 9,
        }
    }
}
