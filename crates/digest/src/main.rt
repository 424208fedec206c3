// Prints the BLAKE2s-256 of the file that the argument names, as b2sum does: the hash in hex, two spaces, the name. The hash is proved
// (crate `blake2s`); left to belief is that this file hands over the bytes that it reads, in order, and writes what it is given.
// A Rattle program has no exit status: its number goes to descriptor 3, where the script ./digest reads it.
#![tactic(auto)]

use blake2s::Context;
use input::{Command, Undone};
use std::io;
use std::io::Read;
use std::ops::ControlFlow;
use text::{Hex, Text};

const COMMAND: Command = Command {
    name: "digest: ",
    unreadable: None,
    output: "digest: standard output",
};

fn main(rt: HostRuntime) {
    input::run(&rt, run);
}

fn run(rt: &HostRuntime) -> Result<(), Undone> {
    if !input::is_given(rt, 1) || input::is_given(rt, 2) {
        let _ = rt.stderr().write_all(b"digest: usage: ./digest PROGRAM\n");
        return Err(Undone);
    }
    let mut room = input::zeros();
    let name = COMMAND.name_at(rt, 1, &mut room)?;
    match input::open(rt, 1, name) {
        Err(why) => Err(COMMAND.fail(rt, name, why).into()),
        Ok(mut file) => hash_file(rt, &mut file, name),
    }
}

// Prints the line of an open file.
fn hash_file<F: Read>(rt: &HostRuntime, file: &mut F, name: &[u8]) -> Result<(), Undone> {
    let mut context = Context::begin(b"", 32).unwrap_or_default();
    let read = input::read_parts(file, |part| match context.update(part) {
        Ok(()) => ControlFlow::Continue(()),
        Err(why) => ControlFlow::Break(why),
    });
    match read {
        Err(why) => Err(COMMAND.fail(rt, name, why).into()),
        // A part is refused only where the file has too many bytes.
        Ok(ControlFlow::Break(_)) => {
            let _ = rt.stderr().write_all(b"digest: ");
            let _ = rt.stderr().write_all(name);
            let _ = rt
                .stderr()
                .write_all(b": it has more than 4294967295 bytes\n");
            Err(Undone)
        }
        Ok(ControlFlow::Continue(())) => finish(rt, context, name),
    }
}

fn finish(rt: &HostRuntime, context: Context, name: &[u8]) -> Result<(), Undone> {
    let mut hash = [0u8; 32];
    let _ = context.finish(&mut hash);
    print_line(rt, hash, name).map_err(|why| COMMAND.fail(rt, name, why).into())
}

// Writes the line.
fn print_line(rt: &HostRuntime, hash: [u8; 32], name: &[u8]) -> io::Result<()> {
    let digits = Text::of((Hex(&hash), "  "));
    text::write(&mut rt.stdout(), digits)?;
    rt.stdout().write_all(name)?;
    rt.stdout().write_all(b"\n")
}
