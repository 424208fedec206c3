// The line: frames are sent, and what comes is told to `upload`.
use std::fs::File;
use std::io;
use std::io::{IsTerminal, Read, Write};
use std::time::{SystemTime, UNIX_EPOCH};
use upload::{Event, Job, Next, Turn};

// A serial line: where bytes come from the head, and where they go to it.
#[derive(Drop)]
pub struct Line {
    input: File,
    output: io::Result<File>,
}

// The line that ./load has opened, if it is one: a read waits a tick, a tenth of a second, for a byte, as the line's mode says.
pub fn open(rt: &HostRuntime) -> Option<Line> {
    match input::open_place(rt, 4) {
        Ok(input) if input.is_terminal() => Some(Line {
            input,
            // What is written here ./load hands to the line, which takes at once what it can: a write never waits.
            output: input::open_to(rt, "/proc/self/fd/5"),
        }),
        _ => None,
    }
}

// Sends frames and reads replies until the load is over. A `while`: that it ends is a theorem of `upload`, its measure.
pub fn converse(
    rt: &HostRuntime,
    line: &mut Line,
    program: &[u8],
    job: Job,
    secret: Option<[u8; 32]>,
) -> Turn {
    let terminal = rt.stderr().is_terminal();
    let began = now(rt);
    let mut t = job.open();
    while !t.next.is_over() {
        let k = t.exchange.k;
        if t.next == Next::Send {
            send(&mut line.output, program, job.id, secret, k);
        }
        let event = receive(&mut line.input);
        t = job.advance(t.exchange, event);
        show(rt, terminal, job.len, k, t.next, began);
    }
    t
}

// A frame that cannot be sent gets no answer, or the line is closed: `receive` tells.
fn send(output: &mut io::Result<File>, program: &[u8], id: u8, secret: Option<[u8; 32]>, k: u32) {
    let mut room = [0u8; 129];
    let _ = client::make_frame(program, id, secret, k, &mut room);
    if let Ok(file) = output {
        let _ = file.write_all(&room);
    }
}

// A read of nothing is a tick of silence, or the end of the line, which then is no terminal any more.
fn receive(input: &mut File) -> Event {
    let mut byte = [0u8; 1];
    match input.read(&mut byte) {
        Ok(1) => Event::Byte(byte[0]),
        Ok(_) if input.is_terminal() => Event::Silence,
        _ => Event::Closed,
    }
}

// ---- progress

// After the reply to frame k so many blocks are done. The line is ended with the load, if there is one: before the first reply there is not.
fn show(rt: &HostRuntime, terminal: bool, len: usize, k: u32, next: Next, began: u64) {
    match next {
        _ if !terminal => {}
        Next::Send => show_progress(rt, len, k, began),
        Next::Over(Ok(())) => {
            show_progress(rt, len, k, began);
            end_line(rt);
        }
        Next::Over(Err(_)) if 0 < k => end_line(rt),
        _ => {}
    }
}

fn show_progress(rt: &HostRuntime, len: usize, done: u32, began: u64) {
    let seconds = now(rt).saturating_sub(began);
    let _ = text::write(&mut rt.stderr(), messages::progress(len, done, seconds));
}

fn end_line(rt: &HostRuntime) {
    let _ = rt.stderr().write_all(b"\n");
}

// In seconds; 0 where the system does not know, and of a time before the count begins.
fn now(rt: &HostRuntime) -> u64 {
    let Ok(t) = SystemTime::now(rt) else {
        return 0;
    };
    t.duration_since(UNIX_EPOCH).map_or(0, |d| d.as_secs())
}
