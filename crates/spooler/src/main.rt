// Writes a spool, reads or checks one, and salvages one that is damaged. What is read and written, and which blocks are replaced, is proved in
// crate `spool`, what is said of a spool that does not read in `spool_words`; left to belief is that this program hands over the bytes that it
// reads, in order, and writes what it is given. The arguments are a task and the files that it is done with, as ./spool has seen to. A Rattle
// program has no exit status: its number goes to descriptor 3, where the script ./spool reads it.
#![tactic(auto)]

mod mending;
mod words;

use input::Command;
use spool::Refusal;
use std::io;
use text::Text;

const COMMAND: Command = Command {
    name: "spool: ",
    unreadable: Some("cannot be read"),
    output: "spool: standard output",
};

// Room for a program: for one that is too long, so that it is refused and not cut, and for all that 278 blocks of a spool can hold, which a
// reader asks for.
const PROGRAM_ROOM: usize = 131216;

// Room for a spool, with a byte more than the longest has.
const SPOOL_ROOM: usize = 142337;

// Why a task is not done; that was said.
#[derive(Clone, Copy)]
enum Failure {
    Input(input::Failure),
    // A block is bad, or lost.
    Block,
}

impl From<input::Failure> for Failure {
    fn from(why: input::Failure) -> Failure {
        Failure::Input(why)
    }
}

// The exit status.
impl From<Failure> for u32 {
    fn from(why: Failure) -> u32 {
        match why {
            Failure::Input(why) => u32::from(why),
            Failure::Block => 4,
        }
    }
}

fn main(rt: HostRuntime) {
    input::run(&rt, run);
}

fn run(rt: &HostRuntime) -> Result<(), Failure> {
    let mut room = input::zeros();
    match input::name_at(rt, 1, &mut room).unwrap_or(b"") {
        b"write" => write(rt),
        b"read" => read(rt),
        b"check" => check(rt),
        _ => mending::salvage(rt),
    }
}

// ---- a program written

fn write(rt: &HostRuntime) -> Result<(), Failure> {
    let mut file = input::zeros::<PROGRAM_ROOM>();
    let program = COMMAND.read(rt, 2, &mut file)?;
    let mut room = input::zeros::<SPOOL_ROOM>();
    match spool::write(program, &mut room) {
        Err(why) => Err(refuse(rt, why)),
        Ok(len) => deliver(rt, endian::first(&room, len), line(len, program)),
    }
}

// Says what is wrong with the file.
fn refuse(rt: &HostRuntime, why: Refusal) -> Failure {
    COMMAND.refuse_at(rt, 2, words::refusal(why)).into()
}

// ---- a spool read

fn read(rt: &HostRuntime) -> Result<(), Failure> {
    let mut file = input::zeros::<SPOOL_ROOM>();
    let bytes = COMMAND.read(rt, 2, &mut file)?;
    let mut room = input::zeros::<PROGRAM_ROOM>();
    match spool::read(bytes, &mut room) {
        Err(why) => {
            let refused = COMMAND.refuse_at(rt, 2, spool_words::refusal(bytes));
            // A bad length is the file's, all else a block's.
            Err(match why {
                Refusal::SpoolLength => refused.into(),
                _ => Failure::Block,
            })
        }
        Ok(len) => {
            let program = endian::first(&room, len);
            deliver(rt, program, line(bytes.len(), program))
        }
    }
}

// ---- a spool checked

// The program is read only for its digest.
fn check(rt: &HostRuntime) -> Result<(), Failure> {
    let mut file = input::zeros::<SPOOL_ROOM>();
    let bytes = COMMAND.read(rt, 2, &mut file)?;
    let mut room = input::zeros::<PROGRAM_ROOM>();
    match spool::read(bytes, &mut room) {
        Ok(len) => print(rt, line(bytes.len(), endian::first(&room, len))),
        Err(Refusal::SpoolLength) => Err(refuse(rt, Refusal::SpoolLength)),
        Err(_) => list_bad(rt, bytes),
    }
}

// A line for each bad block.
fn list_bad(rt: &HostRuntime, bytes: &[u8]) -> Result<(), Failure> {
    for i in 0..bytes.len() / 512 {
        if let Err(why) = spool::look(bytes, i) {
            print(rt, words::bad(i, why))?;
        }
    }
    Err(Failure::Block)
}

// ---- what is written

// Of a program, and a spool of so many bytes.
fn line(len: usize, program: &[u8]) -> Text {
    words::line(len / 512, program.len(), blake2s::digest(program))
}

// Bytes to standard output, and then their line to standard error.
fn deliver(rt: &HostRuntime, bytes: &[u8], line: Text) -> Result<(), Failure> {
    COMMAND.written(rt, rt.stdout().write_all(bytes))?;
    let _ = text::write(&mut rt.stderr(), line);
    Ok(())
}

fn print(rt: &HostRuntime, line: Text) -> Result<(), Failure> {
    COMMAND.written(rt, text::write(&mut rt.stdout(), line))?;
    Ok(())
}
