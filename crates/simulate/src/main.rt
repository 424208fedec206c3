// A head on a pseudo-terminal: the proved loader (crate `loader`) behind standard input and output. ./simulate opens the terminal.
// On descriptor 4 come the record, the UDS, the UDI, the built-in digest, the RAM's length, as 1 or 0 whether descriptor 2 is a terminal, and
// the two slots of flash, each behind its length. What is shown (crate `display`) goes to descriptor 2 and the exit status, which a Rattle
// program has not, to descriptor 3.
// What no contract can say is left to this file: that it hands over the bytes that it reads, in order, and writes each reply and text.
#![tactic(auto)]

use loader::{Answer, Flash, Refusal, Slot, State};
use std::io::Read;
use std::ops::ControlFlow;
use std::{array, io};

// What a head has when it is switched on, besides memory.
#[derive(Clone, Copy)]
struct Device {
    record: [u8; 256],
    words: [u32; 8],
    udi: [u8; 8],
    built_in: [u8; 32],
}

// A head between two bytes, with its device secret, and whether it is shown on a terminal.
#[derive(Clone, Copy)]
struct Head {
    state: State,
    words: [u32; 8],
    terminal: bool,
}

// The head that goes on, or the last answer of one that receives no byte any more.
type Turn = ControlFlow<Result<Answer, Refusal>, Head>;

// Descriptor 4 comes first: where there is none, what is opened next could take its place. A head that no RAM is for has no exit status.
fn main(rt: HostRuntime) {
    let settings = input::open_place(&rt, 4);
    let mut place = input::open_number(&rt);
    let number = match settings {
        Ok(mut file) => start(&rt, &mut file),
        Err(_) => start(&rt, &mut io::empty()),
    };
    if let Some(number) = number {
        input::give_number(&mut place, u32::from(number));
    }
}

// Answers the exit status. Each memory has a byte more than the most RAM, so that a program in flash can be too long.
fn start<F: Read>(rt: &HostRuntime, settings: &mut F) -> Option<u8> {
    let mut ram = input::zeros::<131073>();
    let device = read_device(settings);
    let n = input::read_number(settings) as usize;
    let terminal = input::read_number(settings) == 1;
    if 131072 < n {
        return None;
    }
    Some(run(rt, settings, device, terminal, &mut ram[..n]))
}

// A head with this RAM, from begin on: answers the exit status.
fn run<F: Read>(
    rt: &HostRuntime,
    settings: &mut F,
    device: Device,
    terminal: bool,
    ram: &mut [u8],
) -> u8 {
    let mut room0 = input::zeros::<131073>();
    let mut room1 = input::zeros::<131073>();
    let built_in = device.built_in;
    let flash = Flash {
        slot0: read_slot(settings, &mut room0),
        slot1: read_slot(settings, &mut room1),
        built_in,
    };
    let last = match begin(rt, device, flash, terminal, ram) {
        ControlFlow::Continue(head) => serve(rt, head, ram),
        ControlFlow::Break(last) => last,
    };
    display::exit_number(last)
}

// Begins, and shows what came of it.
fn begin(
    rt: &HostRuntime,
    device: Device,
    flash: Flash<'_>,
    terminal: bool,
    ram: &mut [u8],
) -> Turn {
    let mut words = device.words;
    let begun = loader::begin(&device.record, device.udi, flash, ram, &mut words);
    let answer = begun.map(|step| step.answer);
    let _ = text::write(&mut rt.stderr(), display::begun(answer));
    match begun {
        Err(why) => ControlFlow::Break(Err(why)),
        Ok(step) => {
            let head = Head {
                state: step.state,
                words,
                terminal,
            };
            turn(answer, head)
        }
    }
}

// The head goes on after an answer, or not.
fn turn(answer: Result<Answer, Refusal>, head: Head) -> Turn {
    match answer {
        Ok(Answer::Continue | Answer::Whole) => ControlFlow::Continue(head),
        _ => ControlFlow::Break(answer),
    }
}

// Receives bytes until the head starts or stops. A proved loop has to end, and nothing says that a cable falls silent, so the turns are
// counted from a number that no cable uses up. A read that fails is an end.
fn serve(rt: &HostRuntime, begun: Head, ram: &mut [u8]) -> Result<Answer, Refusal> {
    let mut head = begun;
    for _ in 0..u64::MAX {
        let Some(byte) = input::read_byte(&mut rt.stdin()) else {
            break;
        };
        match receive(rt, head, byte, ram) {
            ControlFlow::Continue(next) => head = next,
            ControlFlow::Break(last) => return last,
        }
    }
    Ok(Answer::Continue)
}

// Receives a byte: it is gathered and shown, or a frame that is whole with it is acted on.
fn receive(rt: &HostRuntime, head: Head, byte: u8, ram: &mut [u8]) -> Turn {
    match loader::gather(head.state, byte) {
        Err(why) => show(rt, head, Err(why), head),
        Ok(step) => {
            let next = Head {
                state: step.state,
                ..head
            };
            if let Answer::Whole = step.answer {
                act(rt, next, ram)
            } else {
                show(rt, head, Ok(step.answer), next)
            }
        }
    }
}

// Acts on the frame that is whole: its reply is sent, and then it is shown.
fn act(rt: &HostRuntime, head: Head, ram: &mut [u8]) -> Turn {
    let mut words = head.words;
    let mut room = [0u8; 129];
    match loader::act(head.state, &mut room, ram, &mut words) {
        Err(why) => show(rt, head, Err(why), head),
        Ok(acted) => {
            let _ = rt.stdout().write_all(endian::first(&room, acted.reply));
            let next = Head {
                state: acted.state,
                words,
                ..head
            };
            show(rt, head, Ok(acted.answer), next)
        }
    }
}

// Shows what came of a byte: the head before it and after it.
fn show(rt: &HostRuntime, before: Head, answer: Result<Answer, Refusal>, after: Head) -> Turn {
    let was = before.state.progress;
    let shown = display::received(before.terminal, was, answer, after.state.progress);
    let _ = text::write(&mut rt.stderr(), shown);
    turn(answer, after)
}

// ---- descriptor 4; what does not come there is zeros

fn read_device<F: Read>(settings: &mut F) -> Device {
    Device {
        record: input::read_array(settings),
        words: array::from_fn(|_| input::read_number(settings)),
        udi: input::read_array(settings),
        built_in: input::read_array(settings),
    }
}

// A slot's length and its bytes; the slot is as long as the program in it.
fn read_slot<'a, F: Read>(settings: &mut F, room: &'a mut [u8]) -> Slot<'a> {
    let n = input::read_number(settings) as usize;
    let size = match room.get_mut(..n) {
        Some(slot) => input::read_full(settings, slot),
        None => 0,
    };
    Slot {
        bytes: endian::first(room, size),
        size,
    }
}
