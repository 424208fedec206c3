// What a command says on standard error of what failed. Where that cannot be written there is nobody to tell.
ghost use Rattle.std.specs.Prelude.{◌≡◌, ◌≤◌, length, IfOk};
ghost use Rattle.input.specs.Exits.{exit_number};

use super::zeros;
use std::io;
use std::io::Write;
use text::Text;

// The words of a command.
#[derive(Clone, Copy)]
pub struct Command {
    // What each line begins with: its name and a colon.
    pub name: &'static str,
    // What is said of a file that cannot be read; none where the name of the file and the reason are all that is said.
    pub unreadable: Option<&'static str>,
    // What stands before the reason why standard output cannot be written.
    pub output: &'static str,
}

// Why a command ends early; that was said.
#[derive(Clone, Copy, Debug, PartialEq, Eq)]
pub enum Failure {
    // Not all could be written to standard output.
    Output,
    // A file cannot be read, or is not taken.
    File,
}

// The exit status.
impl From<Failure> for u32 {
    ghost from_gives = { λ why n. n ≡ exit_number why };

    fn from(why: Failure) -> u32 {
        match why {
            Failure::Output => 1,
            Failure::File => 3,
        }
    }
}

// The failure of a command whose exit status is 1 for all of them.
#[derive(Clone, Copy, Debug, PartialEq, Eq)]
pub struct Undone;

impl From<Failure> for Undone {
    fn from(_why: Failure) -> Undone {
        Undone
    }
}

impl From<Undone> for u32 {
    ghost from_gives = { λ _ n. n ≡ 1 };

    fn from(_why: Undone) -> u32 {
        1
    }
}

impl Command {
    // Puts the name of the file in argument i into the room, and gives it back.
    pub fn name_at<'a>(
        self,
        rt: &HostRuntime,
        i: usize,
        room: &'a mut [u8; 4096],
    ) -> Result<&'a [u8], Failure> {
        match super::fill(rt, i, room) {
            Ok(n) => Ok(&room[..n]),
            Err(why) => Err(self.fail(rt, room, why)),
        }
    }

    // Reads the file that argument i names into buf, to its end or as much as there is room for, and gives what it read.
    pub fn read<'a>(
        self,
        rt: &HostRuntime,
        i: usize,
        buf: &'a mut [u8],
    ) -> Result<&'a [u8], Failure>
        ensures { IfOk result (λ bytes. length bytes.now ≤ length buf.old) }
    {
        let mut room = zeros();
        let name = self.name_at(rt, i, &mut room)?;
        match super::read(rt, i, name, buf) {
            Ok(n) => Ok(&buf[..n]),
            Err(why) => Err(self.fail(rt, name, why)),
        }
    }

    // Says of a file that it cannot be read, and why, as errno does.
    pub fn fail(self, rt: &HostRuntime, file: &[u8], why: io::Error) -> Failure {
        match self.unreadable {
            None => {
                let _ = rt.stderr().write_all(self.name.as_bytes());
                write_why(rt, &mut rt.stderr(), file, why);
            }
            Some(unreadable) => {
                self.begin_line(rt, file);
                write_why(rt, &mut rt.stderr(), unreadable.as_bytes(), why);
            }
        }
        Failure::File
    }

    // Says of a file why it is not taken.
    pub fn refuse(self, rt: &HostRuntime, file: &[u8], why: Text) -> Failure {
        self.begin_line(rt, file);
        let _ = text::write(&mut rt.stderr(), why);
        let _ = rt.stderr().write_all(b"\n");
        Failure::File
    }

    // Says why the file that argument i names is not taken.
    pub fn refuse_at(self, rt: &HostRuntime, i: usize, why: Text) -> Failure {
        let mut room = zeros();
        let file = super::name_at(rt, i, &mut room).unwrap_or(b"");
        self.refuse(rt, file, why)
    }

    // Where not all could be written to standard output, that is said.
    pub fn written(self, rt: &HostRuntime, all: io::Result<()>) -> Result<(), Failure> {
        all.map_err(|why| {
            write_why(rt, &mut rt.stderr(), self.output.as_bytes(), why);
            Failure::Output
        })
    }

    fn begin_line(self, rt: &HostRuntime, file: &[u8]) {
        let _ = rt.stderr().write_all(self.name.as_bytes());
        let _ = rt.stderr().write_all(file);
        let _ = rt.stderr().write_all(b": ");
    }
}

// The rest of a line: what failed, and why, as errno does.
fn write_why<W: Write>(rt: &impl AllocGlobal, to: &mut W, what: &[u8], why: io::Error) {
    if let Ok(said) = format!(in rt.alloc(); "{why}") {
        let _ = write_line(to, what, without_number(said.as_str()));
    }
}

// Nothing is written behind a part that cannot be.
fn write_line<W: Write>(to: &mut W, what: &[u8], why: &str) -> io::Result<()> {
    to.write_all(what)?;
    to.write_all(b": ")?;
    to.write_all(why.as_bytes())?;
    to.write_all(b"\n")
}

// The words of an error, before its number.
fn without_number(said: &str) -> &str {
    match said.split_once(" (os error ") {
        Some((words, _)) => words,
        None => said,
    }
}
