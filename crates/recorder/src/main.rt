// Makes a reset record, or shows one. A record is made by the reset call (crate `handover`) and read as begin reads it (crate `record`); left
// to belief is that this program hands over the bytes that it reads, in order, and writes what it is given.
// On standard input comes, where there is an argument, the record to show; otherwise what the call is made with: type, mask, CDI, seed, the
// first and the second digest, and the data. A Rattle program has no exit status: its number goes to descriptor 3, where the script ./record
// reads it.
#![tactic(auto)]

mod words;

use handover::{Next, Refusal};
use input::{Command, Undone};
use std::io;
use std::io::Read;

const COMMAND: Command = Command {
    name: "record: ",
    unreadable: None,
    output: "record: standard output",
};

fn main(rt: HostRuntime) {
    input::run(&rt, run);
}

// What does not come on standard input is zeros.
fn run(rt: &HostRuntime) -> Result<(), Undone> {
    let written = if input::is_given(rt, 1) && !input::is_given(rt, 2) {
        show(rt, input::read_array(&mut rt.stdin()))
    } else {
        let record = make(&mut rt.stdin()).map_err(|why| refuse(rt, why))?;
        rt.stdout().write_all(&record)
    };
    Ok(COMMAND.written(rt, written)?)
}

// ---- a record made

fn make<F: Read>(call: &mut F) -> Result<[u8; 256], Refusal> {
    let next_type = input::read_number(call);
    let mask = input::read_number(call);
    let mut cdi = input::read_array::<32, F>(call);
    let seed = input::read_array::<32, F>(call);
    let first = input::read_array(call);
    let second = input::read_array(call);
    // One byte more than the most data, so that too much is refused and not cut.
    let mut data = [0u8; 185];
    let n = input::read_full(call, &mut data);
    let next = Next {
        next_type,
        mask,
        first,
        second,
        next_data: &data[..n],
    };
    let mut record = [0u8; 256];
    handover::reset(&mut cdi, &seed, next, &mut record)?;
    Ok(record)
}

// ./record makes no call that is refused.
fn refuse(rt: &HostRuntime, why: Refusal) -> Undone {
    let _ = text::write(&mut rt.stderr(), words::refusal(why));
    Undone
}

// ---- a record shown

fn show(rt: &HostRuntime, bytes: [u8; 256]) -> io::Result<()> {
    let r = record::read(bytes);
    text::write(&mut rt.stdout(), words::lines(r, bytes))?;
    text::write(
        &mut rt.stdout(),
        words::data_line(bytes, r.digests.has_second),
    )
}
