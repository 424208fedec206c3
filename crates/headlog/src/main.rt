// Prints the session on standard input, with 32,768 bytes of RAM: document 01, "Session printer".
// What is written of each byte is proved, turn by turn and whole (crate `printer`). What no contract can say is left to this file: that it
// hands over the bytes that it reads, in order, and writes each text. What cannot be written is lost: there is nobody to tell.
#![tactic(auto)]

use std::ops::ControlFlow;

fn main(rt: HostRuntime) {
    let mut ram = [0u8; 32768];
    let mut front = [0u8; 296];
    let got = input::read_full(&mut rt.stdin(), &mut front);
    let mut t = printer::open(front, got, &mut ram);
    let _ = text::write(&mut rt.stdout(), t.text);
    // One byte and no more at a time, so that a reply is out before the next is waited for. No `for`: after 2^64 turns it would end without the
    // last line.
    while let ControlFlow::Continue(session) = t.session {
        t = printer::advance(session, input::read_byte(&mut rt.stdin()), &mut ram);
        let _ = text::write(&mut rt.stdout(), t.text);
    }
}
