// What the programs behind the commands are given: files, and numbers among their arguments; and where they give their number and say what
// failed.
#![tactic(auto)]

mod command;

ghost use Rattle.std.specs.Prelude.{◌≡◌, ◌≤◌, length, IfOk};

pub use command::{Command, Failure, Undone};
use std::env::FillError;
use std::fs::{File, OpenOptions};
use std::io;
use std::io::{Read, Write};
use std::ops::ControlFlow;
use std::rt::{Env, Files};
use text::{Hex, Show, Text};

// errno where a call is given what there is not, and where a name is too long.
const EINVAL: i32 = 22;

const ENAMETOOLONG: i32 = 36;

// ---- room

// Zeros. The `ensures` says how many, so that what lends a large array does not count it again.
pub fn zeros<const N: usize>() -> [u8; N]
    ensures { N ≡ length result }
{
    [0; N]
}

// ---- files

// Opens the file that argument i names so. std opens a name in UTF-8 and no other: a file with another has the command opened on
// descriptor 10 + i.
pub fn open<R: Files + Alloc>(rt: &R, i: usize, name: &[u8]) -> io::Result<R::File> {
    match std::str::from_utf8(name) {
        Ok(path) => File::open(rt, path),
        Err(_) => open_place(rt, i.saturating_add(10)),
    }
}

// Opens for reading what is open on a descriptor.
pub fn open_place<R: Files + Alloc>(rt: &R, place: usize) -> io::Result<R::File> {
    let path = format!(in rt.alloc(); "/proc/self/fd/{place}")?;
    File::open(rt, path)
}

// Opens for writing what is open on a descriptor: its path.
pub fn open_to<R: Files>(rt: &R, path: &str) -> io::Result<R::File> {
    OpenOptions::new().write(true).open(rt, path)
}

// Reads the file that argument i names so into buf, to its end or as much as there is room for, and answers how many bytes that is.
pub fn read<R: Files + Alloc>(rt: &R, i: usize, name: &[u8], buf: &mut [u8]) -> io::Result<usize>
    ensures { IfOk result (λ n. n ≤ length buf.new) }
{
    read_open(&mut open(rt, i, name)?, buf)
}

// A read that fails and the end of a file look alike to read_full, so one more read tells.
fn read_open<F: Read>(file: &mut F, buf: &mut [u8]) -> io::Result<usize>
    ensures { IfOk result (λ n. n ≤ length buf.new) }
{
    let n = read_full(file, buf);
    if n < buf.len() && file.read(&mut [0])? != 0 {
        return Err(io::Error::from_raw_os_error(0));
    }
    Ok(n)
}

// Reads until buf is full, the input ends or a read fails, and answers how many bytes it put at the start of buf. Not by `read_exact`, which
// reads on where a read was interrupted, and tells of an input that ends too soon not how many bytes came.
pub fn read_full<F: Read>(file: &mut F, buf: &mut [u8]) -> usize
    ensures { result ≤ length buf.new }
{
    let mut done = 0;
    while done < buf.len() {
        match file.read(&mut buf[done..]) {
            Ok(n) if 0 < n => done += n,
            _ => return done,
        }
    }
    done
}

// The bytes that come next; what does not come is zeros.
pub fn read_array<const N: usize, F: Read>(file: &mut F) -> [u8; N] {
    let mut bytes = zeros();
    read_full(file, &mut bytes);
    bytes
}

// The byte that comes next; none at the end. A read that fails is an end.
pub fn read_byte<F: Read>(file: &mut F) -> Option<u8> {
    let mut byte = [0];
    match file.read(&mut byte) {
        Ok(1) => Some(byte[0]),
        _ => None,
    }
}

// The number in the four bytes that come next, lowest first.
pub fn read_number<F: Read>(file: &mut F) -> u32 {
    u32::from_le_bytes(read_array(file))
}

// Reads a file in parts and hands over each, to the file's end or until that breaks with a value. A proved loop has to end, and nothing says
// that a file does, so the turns are counted from a number that no file uses up: a turn takes at least one byte, and 2^64 are too many.
pub fn read_parts<F: Read, B, H: FnMut(&[u8]) -> ControlFlow<B>>(
    file: &mut F,
    mut hand_over: H,
) -> io::Result<ControlFlow<B>>
    requires { H.IsAlwaysCallable hand_over }
{
    let mut buf = zeros::<65536>();
    for _ in 0..u64::MAX {
        let n = file.read(&mut buf)?;
        if n == 0 {
            break;
        }
        if let ControlFlow::Break(b) = hand_over(&buf[..n]) {
            return Ok(ControlFlow::Break(b));
        }
    }
    Ok(ControlFlow::Continue(()))
}

// ---- arguments

// Whether there is an argument i.
pub fn is_given(rt: &impl Env, i: usize) -> bool {
    !matches!(rt.arg(i, &mut [0]), Err(FillError::NotPresent))
}

// Puts argument i into the room: the name of a file, or why it is none.
pub fn name_at<'a>(rt: &impl Env, i: usize, room: &'a mut [u8; 4096]) -> io::Result<&'a [u8]>
    ensures { IfOk result (λ name. length name.now ≤ 4096) }
{
    let n = fill(rt, i, room)?;
    Ok(&room[..n])
}

fn fill(rt: &impl Env, i: usize, room: &mut [u8; 4096]) -> io::Result<usize>
    ensures { IfOk result (λ n. n ≤ 4096) }
{
    rt.arg(i, room).map_err(|why| {
        io::Error::from_raw_os_error(match why {
            FillError::TooLong => ENAMETOOLONG,
            FillError::NotPresent => EINVAL,
        })
    })
}

// The argument i as a number, of at most eight digits; the script has seen to it that it is one.
pub fn number_at(rt: &impl Env, i: usize) -> u32 {
    let mut digits = [0u8; 8];
    match rt.arg(i, &mut digits) {
        Ok(n) => number_in(&digits[..n]),
        Err(_) => 0,
    }
}

// Not `parse`, which takes `+5` and of `1a` nothing: what a program answers stays.
fn number_in(digits: &[u8]) -> u32 {
    digits.iter().fold(0, |n: u32, b| {
        let digit = char::from(*b).to_digit(10).unwrap_or(0);
        n.saturating_mul(10).saturating_add(digit)
    })
}

// ---- what is said of a record

// The lines of the digests that are allowed: the first, and the second if there is one.
pub fn put_allowed(t: &mut Text, first: &[u8; 32], second: Option<&[u8; 32]>) {
    ("allowed  ", Hex(first), "\n").show(t);
    if let Some(second) = second {
        ("or       ", Hex(second), "\n").show(t);
    }
}

// ---- what is given

// Runs a program and gives its number, 0 where it does not fail, on descriptor 3: that is opened before anything else is, which could take
// its place. Where the number cannot be written there is nobody to tell.
pub fn run<R: Files, E: Into<u32>, F: FnOnce(&R) -> Result<(), E>>(rt: &R, program: F)
    requires { F.IsAlwaysCallable program }
{
    let mut place = open_number(rt);
    let number = program(rt).err().map_or(0, E::into);
    give_number(&mut place, number);
}

// Opens descriptor 3, where the number of a program goes.
pub fn open_number<R: Files>(rt: &R) -> io::Result<R::File> {
    open_to(rt, "/proc/self/fd/3")
}

// Gives the number of a program.
pub fn give_number<F: Write>(place: &mut io::Result<F>, number: u32) {
    if let Ok(file) = place {
        let _ = write!(file, "{number}");
    }
}
