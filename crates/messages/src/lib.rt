// The words of `./load`: of a failure, of a load and of what is done of one. In specs/, Messages has them all.
#![tactic(auto)]

ghost use Rattle.std.specs.Prelude.{◌≡◌};
ghost use Rattle.text.specs.Text.{hex_of, text_of};
ghost use Rattle.protocol.specs.Commands.{blocks_for};
ghost use Rattle.client.specs.Replies.{taking, differing};
ghost use Rattle.upload.specs.Upload.{came_of};
ghost use Rattle.messages.specs.Messages.{frame_name, seconds_of, came_name, difference_words, unexpected, refused, other_digest, length_words, message_of, loaded_line, started_line, rate_of, progress_line};

use client::Difference;
use text::{Hex, Repeated, Show, Text};
use upload::{Exchange, Failure, Job};

// How many blocks a program has. Not protocol's blocks_for: a file may have over 2^32 bytes, and that takes a size of 32 bits.
fn blocks(len: usize) -> usize
    ensures { result ≡ blocks_for len }
{
    len.div_ceil(127)
}

// ---- parts of a message

#[derive(Clone, Copy)]
struct Frame {
    job: Job,
    k: u32,
}

#[tactic(auto, unfolding(crate::specs::Messages::frame_name))]
impl Show for Frame {
    ghost words = { λ f. frame_name f.job f.k };

    fn show(&self, t: &mut Text) {
        let k = self.k;
        if k == 0 {
            ("frame ", k, " (the load)").show(t)
        } else {
            let block = ("block ", k, " of ", blocks(self.job.len));
            ("frame ", k, (" (", block, ")")).show(t)
        }
    }
}

// A tick is a tenth of a second.
#[derive(Clone, Copy)]
struct Seconds(u32);

impl Show for Seconds {
    ghost words = { λ s. seconds_of s.0 };

    fn show(&self, t: &mut Text) {
        let (whole, tenths) = (self.0 / 10, self.0 % 10);
        if tenths == 0 {
            (whole, " s").show(t)
        } else {
            (whole, (".", tenths, " s")).show(t)
        }
    }
}

// What has come of a reply, in hex.
#[derive(Clone, Copy)]
struct Reply(Exchange);

impl Show for Reply {
    ghost words = { λ r. hex_of (came_of r.0) };

    fn show(&self, t: &mut Text) {
        Hex(self.0.came()).show(t)
    }
}

#[derive(Clone, Copy)]
struct Came(Exchange);

impl Show for Came {
    ghost words = { λ c. came_name c.0 };

    fn show(&self, t: &mut Text) {
        if self.0.got == 0 {
            "no answer".show(t)
        } else {
            ("only ", Reply(self.0), " came in answer").show(t)
        }
    }
}

// In what a reply differs from the expected one. None is one that goes on behind the longest one's end.
#[derive(Clone, Copy)]
struct Differs(Option<Difference>);

impl Show for Differs {
    ghost words = { λ d. difference_words d.0 };

    fn show(&self, t: &mut Text) {
        match self.0 {
            None | Some(Difference::Length) => "length differs",
            Some(Difference::Header) => "header differs",
            Some(Difference::Code) => "code differs",
            Some(Difference::Status) => "status is not bit 2 of its header",
            Some(Difference::Filler) => "filler differs",
        }
        .show(t)
    }
}

// ---- messages

// Job and exchange stay two values: one job lasts a whole load, and each turn has its own exchange.

fn unexpected(job: Job, x: Exchange) -> Text
    ensures { result ≡ text_of (unexpected job x) }
{
    Text::of((
        "the reply to ",
        Frame { job, k: x.k },
        " is not the expected one (43), its ",
        Differs(difference(job, x)),
        ": ",
        Reply(x),
        "; reset the head and load again",
    ))
}

fn difference(job: Job, x: Exchange) -> Option<Difference>
    ensures { result ≡ differing job.len job.id x.k (came_of x) }
{
    client::reply_difference(job.len, job.id, x.k, x.came())
}

fn refused(job: Job, x: Exchange) -> Text
    ensures { result ≡ text_of (refused job x) }
{
    if x.k == 0 {
        return Text::of("the program does not fit this head's RAM (status 1); load a smaller one");
    }
    let frame = Frame { job, k: x.k };
    Text::of((
        "the head refused ",
        frame,
        " (status 1); reset the head and load again",
    ))
}

fn other_digest(job: Job, x: Exchange) -> Text
    ensures { result ≡ text_of (other_digest job x) }
{
    let measured = measured(job, x);
    Text::of((
        "the head measured another digest, ",
        Hex(&measured),
        "; it has not this program, and if it is of type 4 it has started another: reset the head and load again",
    ))
}

// The digest in the last reply; zeros where there is none.
fn measured(job: Job, x: Exchange) -> [u8; 32]
    ensures { result ≡ (taking job.len job.id x.k (came_of x)).digest }
{
    match job.read(x) {
        Ok(taken) => taken.digest.unwrap_or([0; 32]),
        Err(_) => [0; 32],
    }
}

fn program_length(job: Job) -> Text
    ensures { result ≡ text_of (length_words job) }
{
    if job.len == 0 {
        return Text::of("has no byte; a program has 1 to 131072");
    }
    Text::of("is too long; a program has 1 to 131072 bytes")
}

// The words of a failure.
pub fn message(job: Job, x: Exchange, f: Failure) -> Text
    ensures { result ≡ text_of (message_of job x f) }
{
    let frame = Frame { job, k: x.k };
    match f {
        Failure::ProgramLength => program_length(job),
        Failure::FrameId => Text::of("a frame ID is 0, 1, 2 or 3"),
        Failure::SecretLength => Text::of("a user secret has exactly 32 bytes"),
        Failure::Device => Text::of("is not a serial line"),
        Failure::NoAnswer => Text::of((
            Came(x),
            " to ",
            frame,
            " in ",
            Seconds(job.wait),
            " of silence; is the head waiting for a program? has it stopped?",
        )),
        Failure::LineClosed => Text::of((
            "the line closed before the reply to ",
            frame,
            " was whole; is the cable plugged in? has the head power?",
        )),
        Failure::UnexpectedReply => unexpected(job, x),
        Failure::Refused => refused(job, x),
        Failure::OtherDigest => other_digest(job, x),
    }
}

// The line of a load.
pub fn loaded(job: Job) -> Text
    ensures { result ≡ text_of (loaded_line job) }
{
    let digest = job.digest;
    Text::of(("loaded ", job.len, " bytes, digest ", Hex(&digest), "\n"))
}

// The line of what that means: the last reply is the same where the head starts and where it stops with 25.
pub fn started() -> Text
    ensures { result ≡ text_of started_line }
{
    Text::of(
        "a head of type 4 has started it; one of type 5 has if its record allows this digest, and shows its lamp (25) otherwise\n",
    )
}

// ---- progress

// The bytes a second; nothing before a second has passed.
#[derive(Clone, Copy)]
struct Rate {
    bytes: usize,
    seconds: u64,
}

impl Show for Rate {
    ghost words = { λ r. rate_of r.bytes r.seconds };

    fn show(&self, t: &mut Text) {
        if self.seconds == 0 {
            "".show(t)
        } else {
            (", ", self.bytes as u64 / self.seconds, " bytes/s").show(t)
        }
    }
}

// The line that is rewritten while a program is loaded: so many blocks are done, in so many seconds.
#[tactic(auto, unfolding(crate::specs::Messages::progress_line))]
pub fn progress(len: usize, done: u32, seconds: u64) -> Text
    ensures { result ≡ text_of (progress_line len done seconds) }
{
    if !protocol::length_ok(len) {
        return Text::new();
    }
    let n = blocks(len);
    let done = (done as usize).min(n);
    // A bar of 32 places.
    let filled = 32 * done / n;
    let bar = (
        Repeated(b'#', filled),
        Repeated(b'.', 32usize.saturating_sub(filled)),
    );
    let count = (done, " of ", n, " blocks, ", 100 * done / n, "%");
    let bytes = len.min(protocol::place_of(done as u32));
    Text::of(("\r[", bar, "] ", count, Rate { bytes, seconds }, "\x1b[K"))
}
