// A text of at most 512 bytes as a value, put together part by part. A part that does not fit is cut; whoever makes a text shows that it fits.
#![tactic(auto)]

ghost use Rattle.std.specs.Prelude.{◌≡◌, ℕ, List, [], ◌∷◌, ◌++◌, ◌<◌, ◌^◌, OnOk, replicate, take};
ghost use Rattle.std.specs.Io.KnownBytes.{Appends};
ghost use Rattle.std.specs.Fmt.{format_pieces};
ghost use Rattle.text.specs.Text.{hex_digit, hex_of, decimal_in, decimal_of, added, text_of};

use std::fmt::Format;
use std::io;
use std::io::Write;

// Array and length, since a library has no heap. Public, with no invariant: specs/ make and read texts by both fields, `printer`'s too.
#[derive(Clone, Copy)]
pub struct Text {
    pub len: usize,
    // The text at the front, and zeros behind it.
    pub bytes: [u8; 512],
}

// What is shown in a text. Display's `fmt` may fail by its contract; a text is always made, so its parts have a trait of their own.
pub trait Show {
    ghost words: { Self → List ℕ };

    fn show(&self, t: &mut Text)
        ensures { t.new ≡ added t.old (words self.now) };
}

impl Text {
    #[tactic(auto, unfolding(crate::specs::Text::text_of, crate::specs::Text::added))]
    pub fn new() -> Text
        ensures { result ≡ text_of [] }
    {
        Text {
            len: 0,
            bytes: [0; 512],
        }
    }

    // A text of what is shown: one part, a tuple of parts, or `format_args!` of numbers and texts.
    #[tactic(auto, using(crate::proofs::Texts::from_empty))]
    pub fn of<S: Show + Drop>(s: S) -> Text
        ensures { result ≡ text_of (S.words s) }
    {
        let mut t = Text::new();
        s.show(&mut t);
        t
    }

    // What `write!` calls; its holes are numbers and texts. It cannot fail.
    pub fn write_fmt<S: Show + Drop>(&mut self, s: S)
        ensures { self.new ≡ added self.old (S.words s) }
    {
        s.show(self)
    }

    // A byte more.
    pub fn push(&mut self, b: u8)
        ensures { self.new ≡ added self.old (b ∷ []) }
    {
        if self.len < 512 {
            self.bytes[self.len] = b;
            self.len += 1;
        }
    }

    // More bytes.
    pub fn push_all(&mut self, s: &[u8])
        ensures { self.new ≡ added self.old s.now }
    {
        for b in s {
            self.push(*b);
        }
    }
}

impl Show for &str {
    ghost words = { λ s. s.now };

    fn show(&self, t: &mut Text) {
        t.push_all(self.as_bytes())
    }
}

impl<S: Show> Show for &S {
    ghost words = { λ s. S.words s.now };

    fn show(&self, t: &mut Text) {
        (**self).show(t)
    }
}

// One impl for each type of number: one over all that go into u64 would overlap with those of texts and tuples.
impl Show for u8 {
    ghost words = { decimal_of };

    fn show(&self, t: &mut Text) {
        (*self as u64).show(t)
    }
}

impl Show for u32 {
    ghost words = { decimal_of };

    fn show(&self, t: &mut Text) {
        (*self as u64).show(t)
    }
}

impl Show for u64 {
    ghost words = { decimal_of };

    fn show(&self, t: &mut Text) {
        put_digits(t, *self)
    }
}

impl Show for usize {
    ghost words = { decimal_of };

    fn show(&self, t: &mut Text) {
        (*self as u64).show(t)
    }
}

// The digits of a number, of which there are as few as hold it.
fn put_digits(t: &mut Text, n: u64)
    ensures { (k : ℕ) → 0 < k → n < 10 ^ k → t.new ≡ added t.old (decimal_in k n) }
{
    if 10 <= n {
        put_digits(t, n / 10);
    }
    t.push(b'0' + (n % 10) as u8)
}

// Bytes in hex.
#[derive(Clone, Copy)]
pub struct Hex<'a>(pub &'a [u8]);

impl Show for Hex<'_> {
    ghost words = { λ h. hex_of h.0.now };

    fn show(&self, t: &mut Text) {
        for b in self.0 {
            t.push(hex_digit(b / 16));
            t.push(hex_digit(b % 16));
        }
    }
}

// The digit of a number below 16.
fn hex_digit(d: u8) -> u8
    requires { d < 16 }
    ensures { result ≡ hex_digit d }
{
    if d < 10 { b'0' + d } else { b'a' - 10 + d }
}

// So many of one byte.
#[derive(Clone, Copy)]
pub struct Repeated(pub u8, pub usize);

impl Show for Repeated {
    ghost words = { λ r. replicate r.1 r.0 };

    fn show(&self, t: &mut Text) {
        for _ in 0..self.1 {
            t.push(self.0);
        }
    }
}

// ---- what `format_args!` gives: a tuple of its texts and of references to its values. No type parameter stands for a tuple's length, so each
// length is written out, as the library's own Pieces does.

impl<T: Show> Show for Format<T> {
    ghost words = { λ x. T.words (format_pieces x) };

    fn show(&self, t: &mut Text) {
        self.0.show(t)
    }
}

impl<A: Show> Show for (A,) {
    ghost words = { λ x. A.words x.0 };

    fn show(&self, t: &mut Text) {
        self.0.show(t)
    }
}

#[tactic(auto, using(crate::proofs::Texts::parts))]
impl<A: Show, B: Show> Show for (A, B) {
    ghost words = { λ x. A.words x.0 ++ B.words x.1 };

    fn show(&self, t: &mut Text) {
        self.0.show(t);
        self.1.show(t)
    }
}

#[tactic(auto, using(crate::proofs::Texts::parts))]
impl<A: Show, B: Show, C: Show> Show for (A, B, C) {
    ghost words = { λ x. A.words x.0 ++ B.words x.1 ++ C.words x.2 };

    fn show(&self, t: &mut Text) {
        self.0.show(t);
        self.1.show(t);
        self.2.show(t)
    }
}

#[tactic(auto, using(crate::proofs::Texts::parts))]
impl<A: Show, B: Show, C: Show, D: Show> Show for (A, B, C, D) {
    ghost words = { λ x. A.words x.0 ++ B.words x.1 ++ C.words x.2 ++ D.words x.3 };

    fn show(&self, t: &mut Text) {
        self.0.show(t);
        self.1.show(t);
        self.2.show(t);
        self.3.show(t)
    }
}

#[tactic(auto, using(crate::proofs::Texts::parts))]
impl<A: Show, B: Show, C: Show, D: Show, E: Show> Show for (A, B, C, D, E) {
    ghost words = { λ x. A.words x.0 ++ B.words x.1 ++ C.words x.2 ++ D.words x.3 ++ E.words x.4 };

    fn show(&self, t: &mut Text) {
        self.0.show(t);
        self.1.show(t);
        self.2.show(t);
        self.3.show(t);
        self.4.show(t)
    }
}

#[tactic(auto, using(crate::proofs::Texts::parts))]
impl<A: Show, B: Show, C: Show, D: Show, E: Show, F: Show> Show for (A, B, C, D, E, F) {
    ghost words = { λ x. A.words x.0 ++ B.words x.1 ++ C.words x.2 ++ D.words x.3 ++ E.words x.4 ++ F.words x.5 };

    fn show(&self, t: &mut Text) {
        self.0.show(t);
        self.1.show(t);
        self.2.show(t);
        self.3.show(t);
        self.4.show(t);
        self.5.show(t)
    }
}

#[tactic(auto, using(crate::proofs::Texts::parts))]
impl<A: Show, B: Show, C: Show, D: Show, E: Show, F: Show, G: Show> Show for (A, B, C, D, E, F, G) {
    ghost words = { λ x. A.words x.0 ++ B.words x.1 ++ C.words x.2 ++ D.words x.3 ++ E.words x.4 ++ F.words x.5 ++ G.words x.6 };

    fn show(&self, t: &mut Text) {
        self.0.show(t);
        self.1.show(t);
        self.2.show(t);
        self.3.show(t);
        self.4.show(t);
        self.5.show(t);
        self.6.show(t)
    }
}

// Writes a text. No text from the calls above is longer than its bytes.
pub fn write<W: Write>(to: &mut W, t: Text) -> io::Result<()>
    ensures { OnOk result (Appends (W.contents to.old) (W.contents to.new) (take t.len t.bytes)) }
{
    match t.bytes.get(..t.len) {
        Some(bytes) => to.write_all(bytes),
        None => Err(io::Error::from(io::ErrorKind::InvalidInput)),
    }
}
