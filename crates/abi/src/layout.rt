// The state taken out of lent memory, and put back.
ghost use Rattle.std.specs.Prelude.{◌≡◌, ◌+◌, ◌*◌, ◌<◌, ◌^◌};
ghost use Rattle.abi.specs.Layout.{lent, holds, state_in, memory_of, flags_of, small_of, phase_of, phase_number};

use loader::{Config, Incoming, Phase, Progress, State};
use record::Digests;

// Whether the bytes hold a state: their phase and their flags are such.
pub fn holds(bytes: &[u8; 268]) -> bool
    ensures { result ≡ holds bytes.now }
{
    bytes[130] <= 3 && bytes[131] <= 15
}

// Phase and number are matched here and not converted by a trait: the numbers are the layout's, and the type is `head`'s.
fn phase_of(k: u8) -> Phase
    ensures { result ≡ phase_of k }
{
    match k {
        0 => Phase::Waiting,
        1 => Phase::Loading,
        2 => Phase::Started,
        _ => Phase::Stopped,
    }
}

fn phase_number(p: Phase) -> u8
    ensures { result ≡ phase_number p }
{
    match p {
        Phase::Waiting => 0,
        Phase::Loading => 1,
        Phase::Started => 2,
        Phase::Stopped => 3,
    }
}

// The state that lent memory holds.
pub fn read(numbers: &[u32; 3], bytes: &[u8; 268]) -> State
    ensures { result ≡ state_in (lent numbers.now bytes.now) }
{
    let flags = bytes[131];
    State {
        incoming: Incoming {
            header: bytes[128],
            got: bytes[129],
            body: endian::part(bytes, 0),
        },
        config: Config {
            ram_len: numbers[0] as usize,
            measured_id: endian::part(bytes, 164),
            udi: endian::part(bytes, 196),
            digests: Digests {
                first: endian::part(bytes, 132),
                second: endian::part(bytes, 236),
                has_second: flags / 8 % 2 == 1,
            },
            verify: flags % 2 == 1,
            chained: flags / 2 % 2 == 1,
        },
        progress: Progress {
            phase: phase_of(bytes[130]),
            size: numbers[1],
            block: numbers[2],
            uss_used: flags / 4 % 2 == 1,
            uss: endian::part(bytes, 204),
        },
    }
}

// The flags as one number.
fn flags_of(s: State) -> u8
    ensures { result ≡ flags_of s }
{
    u8::from(s.config.verify)
        + 2 * u8::from(s.config.chained)
        + 4 * u8::from(s.progress.uss_used)
        + 8 * u8::from(s.config.digests.has_second)
}

// The four bytes after the body.
fn small_of(s: State) -> [u8; 4]
    ensures { result ≡ small_of s }
{
    [
        s.incoming.header,
        s.incoming.got,
        phase_number(s.progress.phase),
        flags_of(s),
    ]
}

// Puts a state in lent memory.
pub fn write(s: State, numbers: &mut [u32; 3], bytes: &mut [u8; 268])
    requires { s.config.ram_len < 2 ^ 32 }
    ensures { lent numbers.new bytes.new ≡ memory_of s }
{
    *numbers = [s.config.ram_len as u32, s.progress.size, s.progress.block];
    endian::put(bytes, 0, &s.incoming.body);
    endian::put(bytes, 128, &small_of(s));
    endian::put(bytes, 132, &s.config.digests.first);
    endian::put(bytes, 164, &s.config.measured_id);
    endian::put(bytes, 196, &s.config.udi);
    endian::put(bytes, 204, &s.progress.uss);
    endian::put(bytes, 236, &s.config.digests.second);
}
