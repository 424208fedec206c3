// A damaged spool is salvaged with the blocks of other files, and what became of it is said.
ghost use Rattle.std.specs.Prelude.{◌≤◌, length, IfOk};

use super::{COMMAND, Failure, PROGRAM_ROOM, SPOOL_ROOM, words};
use spool::{Fate, Refusal};
use text::Text;

// Room for the spares: a byte more than there may be, so that too many are refused and not cut.
const SPARES_ROOM: usize = 4194305;

pub fn salvage(rt: &HostRuntime) -> Result<(), Failure> {
    let mut file = input::zeros::<SPOOL_ROOM>();
    let n = COMMAND.read(rt, 2, &mut file)?.len();
    if 142336 < n {
        return Err(super::refuse(rt, Refusal::SpoolLength));
    }
    with_spares(rt, &mut file[..n])
}

fn with_spares(rt: &HostRuntime, bytes: &mut [u8]) -> Result<(), Failure> {
    let mut room = input::zeros::<SPARES_ROOM>();
    let n = read_spares(rt, &mut room)?;
    mend(rt, bytes, &room[..n])
}

// ---- the spares

// Reads the files behind the spool's, one behind the other, and answers how many bytes they are.
fn read_spares(rt: &HostRuntime, room: &mut [u8]) -> Result<usize, Failure>
    ensures { IfOk result (λ n. n ≤ length room.new) }
{
    let mut at = 0;
    for i in 3..usize::MAX {
        if !input::is_given(rt, i) {
            break;
        }
        at += read_more(rt, i, &mut room[at..])?;
    }
    Ok(at)
}

// Reads the file that argument i names, and answers how many bytes it has.
fn read_more(rt: &HostRuntime, i: usize, room: &mut [u8]) -> Result<usize, Failure>
    ensures { IfOk result (λ n. n ≤ length room.new) }
{
    let n = COMMAND.read(rt, i, room)?.len();
    if room.len() <= n {
        return Err(COMMAND.refuse_at(rt, i, words::too_many()).into());
    }
    if n % 512 != 0 {
        return Err(COMMAND.refuse_at(rt, i, words::spares_length()).into());
    }
    Ok(n)
}

// ---- the spool mended

fn mend(rt: &HostRuntime, bytes: &mut [u8], spares: &[u8]) -> Result<(), Failure> {
    let mut report = [0u8; 278];
    spool::salvage(bytes, spares, &mut report).map_err(|why| super::refuse(rt, why))?;
    COMMAND.written(rt, rt.stdout().write_all(bytes))?;
    tell(rt, bytes, endian::first(&report, bytes.len() / 512))
}

// What became of the blocks. The mended spool is written before it, also where blocks are lost, so that another salvage can go on from there.
fn tell(rt: &HostRuntime, bytes: &[u8], report: &[u8]) -> Result<(), Failure> {
    let replaced = count(report, Fate::Replaced);
    let lost = count(report, Fate::Lost);
    say(rt, words::counts(count(report, Fate::Kept), replaced, lost));
    list(rt, bytes, report);
    if lost != 0 {
        if replaced != 0 {
            say(rt, words::compare_later());
        }
        return Err(Failure::Block);
    }
    if replaced != 0 {
        say_digest(rt, bytes);
        say(rt, words::compare());
    }
    Ok(())
}

// How many blocks have this fate.
fn count(report: &[u8], fate: Fate) -> usize {
    report
        .iter()
        .filter(|entry| **entry == u8::from(fate))
        .count()
}

// A line for each block that is not kept. A lost block is as it was, so a look at it tells its fault.
fn list(rt: &HostRuntime, bytes: &[u8], report: &[u8]) {
    for (place, entry) in report.iter().enumerate() {
        match Fate::try_from(*entry) {
            Ok(Fate::Replaced) => say(rt, words::replaced(place)),
            Ok(Fate::Lost) => {
                if let Err(why) = spool::look(bytes, place) {
                    say(rt, words::lost(place, why));
                }
            }
            _ => {}
        }
    }
}

// The spool reads now: its line.
fn say_digest(rt: &HostRuntime, bytes: &[u8]) {
    let mut room = input::zeros::<PROGRAM_ROOM>();
    if let Ok(len) = spool::read(bytes, &mut room) {
        say(rt, super::line(bytes.len(), endian::first(&room, len)));
    }
}

fn say(rt: &HostRuntime, line: Text) {
    let _ = text::write(&mut rt.stderr(), line);
}
