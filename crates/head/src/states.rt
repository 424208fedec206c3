// The state: the range of each field (docs/STATES.md), and what it is after a start or a stop; the tests of a program's digest and size.
ghost use Rattle.std.specs.Prelude.{◌≡◌};
ghost use Rattle.framing.specs.Header.{header_at};
ghost use Rattle.record.specs.Record.{record_of};
ghost use Rattle.head.specs.Start.{allowed};
ghost use Rattle.head.specs.Begin.{fits, config_of};
ghost use Rattle.head.specs.State.{whole_by, frame_ok, load_ok, progress_ok, in_range, live, idle, of_size, ended};

use super::{Config, Incoming, Phase, Progress, State};
use record::{Digests, Record};

// Whether a frame for the firmware is whole: its header, and how many of its bytes have come.
pub fn is_whole(header: u8, got: u8) -> bool
    ensures { result ≡ whole_by (header_at header) got }
{
    framing::is_good(header)
        && framing::endpoint(header) == 2
        && got == framing::body_len(header) + 1
}

// Whether the frame that is being gathered, or is whole, is in its range.
pub fn frame_ok(header: u8, got: u8) -> bool
    ensures { result ≡ frame_ok header got }
{
    if got == 0 {
        return header == 0;
    }
    got <= framing::body_len(header) || is_whole(header, got)
}

// Whether the numbers of a load are in their range. The block is tested by its place, without a division.
pub fn load_ok(size: u32, block: u32, ram_len: usize) -> bool
    ensures { result ≡ load_ok size block ram_len }
{
    let n = size as usize;
    1 <= n && n <= ram_len && protocol::place_of(block) < n
}

fn progress_ok(p: Progress, ram_len: usize) -> bool
    ensures { result ≡ progress_ok p ram_len }
{
    match p.phase {
        Phase::Loading => load_ok(p.size, p.block, ram_len),
        Phase::Waiting | Phase::Started | Phase::Stopped => true,
    }
}

// Whether each field of the state is in its range.
pub fn in_range(s: State) -> bool
    ensures { result ≡ in_range s }
{
    protocol::length_ok(s.config.ram_len)
        && frame_ok(s.incoming.header, s.incoming.got)
        && progress_ok(s.progress, s.config.ram_len)
}

// Whether the session goes on: the head has neither started nor stopped.
pub fn is_live(p: Progress) -> bool
    ensures { result ≡ live p.phase }
{
    matches!(p.phase, Phase::Waiting | Phase::Loading)
}

// No frame.
pub fn idle() -> Incoming
    ensures { result ≡ idle }
{
    Incoming {
        header: 0,
        got: 0,
        body: [0; 128],
    }
}

// A program of this size, no block of which has come, and no user secret.
pub fn of_size(phase: Phase, size: u32) -> Progress
    ensures { result ≡ of_size phase size }
{
    Progress {
        phase,
        size,
        block: 0,
        uss_used: false,
        uss: [0; 32],
    }
}

// The state after a start or a stop.
pub fn ended(phase: Phase, ram_len: usize) -> State
    ensures { result ≡ ended phase ram_len }
{
    State {
        incoming: idle(),
        config: Config {
            ram_len,
            measured_id: [0; 32],
            udi: [0; 8],
            digests: Digests {
                first: [0; 32],
                second: [0; 32],
                has_second: false,
            },
            verify: false,
            chained: false,
        },
        progress: of_size(phase, 0),
    }
}

// Whether a program with this digest may start.
pub fn allowed(c: Config, digest: [u8; 32]) -> bool
    ensures { result ≡ allowed c digest }
{
    !c.verify || record::one_of(c.digests, digest)
}

// Whether a program of this size is in a slot and has room in RAM: both are given by their lengths.
pub fn fits(size: usize, slot: usize, ram: usize) -> bool
    ensures { result ≡ fits size slot ram }
{
    1 <= size && size <= slot && size <= ram
}

// What a session goes by.
pub fn config_of(r: Record, udi: [u8; 8], built_in: [u8; 32], ram_len: usize) -> Config
    ensures { result ≡ config_of (record_of r) udi built_in ram_len }
{
    let measured_id = r.measured_id;
    Config {
        ram_len,
        measured_id,
        udi,
        digests: record::digests_of(r, built_in),
        verify: record::verifies(r.reset_type),
        chained: r.reset_seed,
    }
}
