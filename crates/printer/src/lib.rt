// The session printer (document 01): what is printed of a session, from its first bytes to its end, as values. Nothing here reads or
// writes; the program `headlog` does.
#![tactic(auto)]

mod input;
mod lines;
mod turns;

pub use turns::{Session, Turn, advance, open};
