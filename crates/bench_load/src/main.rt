// Loads a program again and again, for bench/pair.sh to time. Standard input has the program's size and how often it is loaded, four
// bytes each, lowest first. Printed at the end: the size, how many bytes were received in all, and the last CDI. bench/head.c does the same.
#![tactic(auto)]

mod cable;
mod frames;

use text::{Hex, Show, Text};

fn main(rt: HostRuntime) {
    let size = input::read_number(&mut rt.stdin());
    let times = input::read_number(&mut rt.stdin());
    report(&rt, size, cable::load_often(size, times));
}

// A line each; without a start the CDI is zeros. What cannot be written is lost: there is nobody to tell.
fn report(rt: &HostRuntime, size: u32, loaded: cable::Loaded) {
    let cdi = loaded.last.map_or([0; 32], |start| start.cdi);
    let mut t = Text::new();
    write!(t, "size {size}\nreceived {}\n", loaded.received);
    ("cdi ", Hex(&cdi), "\n").show(&mut t);
    let _ = text::write(&mut rt.stdout(), t);
}
