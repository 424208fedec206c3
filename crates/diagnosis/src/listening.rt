// The bytes from the cable, one after the other.
ghost use Rattle.std.specs.Prelude.{◌≡◌, true, ◌+◌, ◌-◌, ◌<◌, ◌^◌, length, ℕ, Ok};
ghost use Rattle.protocol.specs.Commands.{blocks_for};
ghost use Rattle.diagnosis.specs.Reasons.{reason_of};
ghost use Rattle.diagnosis.specs.Monitor.{monitor_of, verdict_of, is_open, position_after, moved, heard_byte, counts_to, has_room, heard, open_reason, by_verdict};

use super::{Finding, Monitor, Position, Verdict, frames};
use head::{Answer, Phase, State, Stop};

// Whether the head goes on.
fn is_open(v: Verdict) -> bool
    ensures { result ≡ is_open (verdict_of v) }
{
    v == Verdict::Open
}

// A byte was read, and the head is in this state. The byte stands behind those of its frame that came before it.
fn moved(w: Monitor, head: State) -> Monitor
    requires { (w.position.byte + 1 < 2 ^ 64) × (w.position.frame + 1 < 2 ^ 64) }
    ensures { monitor_of result ≡ moved (monitor_of w) head }
{
    let p = w.position;
    let got = w.head.incoming.got;
    let position = Position {
        byte: p.byte + 1,
        frame: if got == 0 { p.frame + 1 } else { p.frame },
        offset: got,
    };
    Monitor {
        head,
        position,
        ..w
    }
}

// A byte. None is read once the head has started or stopped.
fn hear_byte(w: Monitor, b: u8) -> Monitor
    requires { (w.position.byte + 1 < 2 ^ 64) × (w.position.frame + 1 < 2 ^ 64) }
    ensures { monitor_of result ≡ heard_byte (monitor_of w) b }
{
    if !is_open(w.verdict) {
        return w;
    }
    let Ok(step) = head::gather(w.head, b) else {
        return w;
    };
    match step.answer {
        Answer::Continue => moved(w, step.state),
        Answer::Whole => frames::frame(moved(w, step.state)),
        Answer::Stopped(_) => frames::ruled(moved(w, w.head), Verdict::Stopped(Stop::HeaderBit)),
        Answer::Started(_) => w,
    }
}

// Bytes, up to the one that a start or a stop comes of.
pub fn hear_all(w: Monitor, bytes: &[u8]) -> Monitor
    requires { has_room (monitor_of w) (length bytes.now) ≡ true }
    ensures { monitor_of result ≡ heard (monitor_of w) bytes.now }
{
    let mut m = w;
    for b in bytes {
        if !is_open(m.verdict) {
            return m;
        }
        m = hear_byte(m, *b);
    }
    m
}

// Whether n more bytes can be counted.
pub fn has_room(p: Position, n: usize) -> bool
    ensures { result ≡ counts_to p n }
{
    let left = u64::MAX - n as u64;
    p.byte <= left && p.frame <= left
}

// How many blocks are missing: the program's size, and the number of the block that is waited for.
fn missing(size: u32, block: u32) -> u64
    ensures { result ≡ blocks_for size - block }
{
    protocol::blocks_for(size).saturating_sub(block as usize) as u64
}

// What is found where the head goes on: an unfinished frame comes first.
fn going_on(s: State) -> Finding
    ensures { (i : ℕ) → reason_of (Ok result) i ≡ open_reason s }
{
    if s.incoming.got != 0 {
        return Finding::Unfinished;
    }
    match s.progress.phase {
        Phase::Loading => Finding::Missing(missing(s.progress.size, s.progress.block)),
        Phase::Waiting | Phase::Started | Phase::Stopped => Finding::Waiting,
    }
}

// What is found.
pub fn finding(w: Monitor) -> Finding
    ensures { (i : ℕ) → reason_of (Ok result) i ≡ by_verdict (verdict_of w.verdict) w.head i }
{
    match w.verdict {
        Verdict::Open => going_on(w.head),
        Verdict::Stopped(why) => Finding::Stopped(why),
        Verdict::Started => Finding::Started,
    }
}
