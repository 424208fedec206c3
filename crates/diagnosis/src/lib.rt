// Why a loom did not start: change request 13. A monitor is told the bytes that were heard on the cable, in parts of any length, and goes through
// them as the head does, without a RAM: what blocks carry is hashed as it passes.
// Document 01 in the terms of specs/: Reasons (what is told, and its numbers), Monitor (what each byte does), Calls (what a C program is given).
// What each reason means, and that it is what the head did, is proved in `reasons`.
#![tactic(auto)]

mod frames;
mod listening;

ghost use Rattle.std.specs.Prelude.{◌≡◌, ℕ, Ok};
ghost use Rattle.diagnosis.specs.Reasons.{refusal_number, reason_of, number_of, explained_of};
ghost use Rattle.diagnosis.specs.Monitor.{monitor_of, begun_of, heard_of, begun, heard_part, explained, diagnosis};

use blake2s::Context;
use head::{State, Stop};
use record::Place;

// Why a diagnosis is refused.
#[derive(Clone, Copy, Debug, PartialEq, Eq)]
pub enum Refusal {
    // The reset record has not 256 bytes.
    RecordLength,
    // RAM has no byte, or over 131,072.
    RamSize,
    // Types 0 to 3: the program comes from flash, and not over the cable.
    FromFlash,
}

// The number of a refusal.
impl From<Refusal> for u8 {
    ghost from_gives = { λ r n. n ≡ refusal_number r };

    fn from(r: Refusal) -> u8 {
        match r {
            Refusal::RecordLength => 6,
            Refusal::RamSize => 7,
            Refusal::FromFlash => 48,
        }
    }
}

// What has come of the bytes so far.
#[derive(Clone, Copy, Debug, PartialEq, Eq)]
pub enum Verdict {
    // The head goes on.
    Open,
    Stopped(Stop),
    Started,
}

// Where the last byte that was heard stands.
#[derive(Clone, Copy, Debug, PartialEq, Eq)]
pub struct Position {
    // Its number, from 1.
    pub byte: u64,
    // The number of its frame, from 1, frames for other endpoints counted.
    pub frame: u64,
    // Its place in that frame: 0 is the header.
    pub offset: u8,
}

// What is known after some bytes.
#[derive(Clone, Copy)]
pub struct Monitor {
    // The state that the head is in, while it goes on; without its UDI, which nothing here reads.
    pub head: State,
    // What blocks carried of the program so far.
    pub hash: Context,
    pub position: Position,
    pub verdict: Verdict,
    // The digest of the program, once all of it has come; zeros before, no Option: Monitor of specs/ has them so.
    pub digest: [u8; 32],
}

// A part that would bring a count to 2^64 is not heard.
#[derive(Clone, Copy, Debug, PartialEq, Eq)]
pub struct TooLong;

// The one reason why a loom did not start, or that it has.
#[derive(Clone, Copy, Debug, PartialEq, Eq)]
pub enum Finding {
    Stopped(Stop),
    // The bytes end in a frame that is not whole.
    Unfinished,
    // No good load has come.
    Waiting,
    // A load has come, and so many of its blocks have not.
    Missing(u64),
    Started,
}

// The number of a finding.
impl From<Finding> for u32 {
    ghost from_gives = { λ f n. (i : ℕ) → n ≡ number_of (reason_of (Ok f) i) };

    fn from(f: Finding) -> u32 {
        match f {
            Finding::Stopped(why) => u8::from(why) as u32,
            Finding::Unfinished => 66,
            Finding::Waiting => 67,
            Finding::Missing(_) => 68,
            Finding::Started => 65,
        }
    }
}

#[derive(Clone, Copy, Debug, PartialEq, Eq)]
pub struct Diagnosis {
    pub finding: Finding,
    // The last byte that was read: at a stop, the byte that stopped the head, and number 0 where no byte did.
    pub position: Position,
    // The program's digest at a start and at stop 25; zeros otherwise, as specs/ and the C call give them.
    pub digest: [u8; 32],
}

impl Monitor {
    // One that has heard nothing, for a record and a RAM of so many bytes.
    pub fn begin(record: &[u8], ram_len: usize) -> Result<Monitor, Refusal>
        ensures { begun_of result ≡ begun «record».now ram_len }
    {
        if record.len() != 256 {
            return Err(Refusal::RecordLength);
        }
        if !protocol::length_ok(ram_len) {
            return Err(Refusal::RamSize);
        }
        let r = record::read(record::front(record));
        match record::source(r.reset_type) {
            Some(Place::Slot0) => Err(Refusal::FromFlash),
            Some(Place::Slot1) => Err(Refusal::FromFlash),
            Some(Place::Client) => Ok(frames::opened(r, ram_len)),
            None => Ok(frames::closed(Verdict::Stopped(Stop::UnknownType))),
        }
    }

    // Hears the next part of the bytes.
    pub fn hear(&mut self, part: &[u8]) -> Result<(), TooLong>
        ensures { heard_of result (monitor_of self.new) ≡ heard_part (monitor_of self.old) part.now }
    {
        if !listening::has_room(self.position, part.len()) {
            return Err(TooLong);
        }
        *self = listening::hear_all(*self, part);
        Ok(())
    }

    // What it has found.
    pub fn explain(&self) -> Diagnosis
        ensures { explained_of (Ok result) ≡ explained (monitor_of self.now) }
    {
        Diagnosis {
            finding: listening::finding(*self),
            position: self.position,
            digest: self.digest,
        }
    }
}

// Why the loom did not start that has this record and so much RAM, and has heard these bytes.
pub fn diagnose(record: &[u8], ram_len: usize, bytes: &[u8]) -> Result<Diagnosis, Refusal>
    ensures { explained_of result ≡ diagnosis «record».now ram_len bytes.now }
{
    let monitor = Monitor::begin(record, ram_len)?;
    Ok(listening::hear_all(monitor, bytes).explain())
}
