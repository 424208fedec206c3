// Tells the one reason why a loom did not start, from its reset record and the bytes that it heard: change request 13. The reason is
// proved (crates `diagnosis` and `reasons`); left to belief is that this program hands over the bytes that it reads, in order, and writes
// what it is given. A Rattle program has no exit status: its number goes to descriptor 3, where the script ./diagnose reads it.
#![tactic(auto)]

mod words;

use diagnosis::{Monitor, TooLong, Verdict};
use input::{Command, Failure};
use std::io::Read;
use std::ops::ControlFlow;
use text::Text;

const COMMAND: Command = Command {
    name: "diagnose: ",
    unreadable: Some("cannot be read"),
    output: "diagnose: standard output",
};

fn main(rt: HostRuntime) {
    input::run(&rt, run);
}

// The arguments are the names of the record and of the capture, and the RAM's length.
fn run(rt: &HostRuntime) -> Result<(), Failure> {
    let mut record = [0u8; 257];
    let record = COMMAND.read(rt, 1, &mut record)?;
    let begun = match Monitor::begin(record, input::number_at(rt, 3) as usize) {
        Ok(monitor) => monitor,
        Err(why) => return Err(COMMAND.refuse_at(rt, 1, words::refusal(why))),
    };
    let monitor = hear(rt, begun)?;
    COMMAND.written(rt, text::write(&mut rt.stdout(), words::lines(monitor)))
}

// Hears the capture; `-` is standard input.
fn hear(rt: &HostRuntime, begun: Monitor) -> Result<Monitor, Failure> {
    let mut room = input::zeros();
    let name = COMMAND.name_at(rt, 2, &mut room)?;
    if matches!(name, b"-") {
        return hear_file(rt, &mut rt.stdin(), b"standard input", begun);
    }
    match input::open(rt, 2, name) {
        Err(why) => Err(COMMAND.fail(rt, name, why)),
        Ok(mut file) => hear_file(rt, &mut file, name, begun),
    }
}

// Hears a capture to its end, or until the head has started or stopped: what comes later is not read.
fn hear_file<F: Read>(
    rt: &HostRuntime,
    file: &mut F,
    name: &[u8],
    begun: Monitor,
) -> Result<Monitor, Failure> {
    let mut monitor = begun;
    if monitor.verdict != Verdict::Open {
        return Ok(monitor);
    }
    let read = input::read_parts(file, |part| match monitor.hear(part) {
        Ok(()) if monitor.verdict == Verdict::Open => ControlFlow::Continue(()),
        heard => ControlFlow::Break(heard),
    });
    match read {
        Err(why) => Err(COMMAND.fail(rt, name, why)),
        Ok(ControlFlow::Break(Err(TooLong))) => {
            let why = Text::of("it has more than 18446744073709551615 bytes");
            Err(COMMAND.refuse(rt, name, why))
        }
        Ok(_) => Ok(monitor),
    }
}
