// Makes the calls on standard input, one after the other, and writes all that each gives, as bytes. tests/calls.py writes the input and
// compares the output with what its independent programs say. The input has the number of calls in four bytes and then 320 bytes for each;
// byte 0 of a call says which it is.
#![tactic(auto)]

mod hash;
mod image;
mod small;

use blake2s::Context;

fn main(rt: HostRuntime) {
    let mut context = Context::default();
    for _ in 0..input::read_number(&mut rt.stdin()) {
        let c: [u8; 320] = input::read_array(&mut rt.stdin());
        match c[0] {
            2 => hash::begin(&rt, &mut context, &c),
            3 => hash::update(&rt, &mut context, &c),
            4 => hash::finish(&rt, &context, c[1]),
            5 => small::read_header(&rt, c[1]),
            6 => small::write_header(&rt, &c),
            7 => small::derive(&rt, &c),
            8 => small::read_reply_header(&rt, c[1]),
            _ => {}
        }
    }
}
