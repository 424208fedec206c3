// What a simulated head shows of its session, as texts: of begin's answer and of each received byte. Nothing here writes; the program
// `simulate` does.
#![tactic(auto)]

ghost use Rattle.std.specs.Prelude.{◌≡◌};
ghost use Rattle.protocol.specs.Commands.{blocks_for};
ghost use Rattle.text.specs.Text.{text_of};
ghost use Rattle.display.specs.Shown.{all_blocks, line_end, before_stop, progress_text};
ghost use Rattle.display.specs.Shown.{start_line, words_of, stop_line, refusal_line, begin_text, received_text, exit_number};

use head::{Answer, Progress, Refusal, Start, Stop};
use text::{Hex, Show, Text};

// What is shown of begin's answer.
pub fn begun(answer: Result<Answer, Refusal>) -> Text
    ensures { result ≡ text_of (begin_text answer) }
{
    match answer {
        Ok(Answer::Continue) => Text::of("waiting\n"),
        Ok(Answer::Whole) => Text::new(),
        Ok(Answer::Stopped(why)) => Text::of(Stopped(why)),
        Ok(Answer::Started(start)) => Text::of(Started(start)),
        Err(why) => Text::of(Refused(why)),
    }
}

// What is shown of a received byte: by how far the load was before it and is after it, and the answer. Where a frame is whole with the
// byte, the answer to show is the one of acting on it.
pub fn received(
    terminal: bool,
    before: Progress,
    answer: Result<Answer, Refusal>,
    after: Progress,
) -> Text
    ensures { result ≡ text_of (received_text terminal before answer after) }
{
    match answer {
        Ok(Answer::Continue) => progress_text(terminal, before, after),
        Ok(Answer::Whole) => Text::new(),
        Ok(Answer::Stopped(why)) => Text::of((
            BeforeStop {
                terminal,
                before,
                why,
            },
            Stopped(why),
        )),
        Ok(Answer::Started(start)) => Text::of((
            AllBlocks {
                terminal,
                size: before.size,
            },
            Started(start),
        )),
        Err(why) => Text::of(Refused(why)),
    }
}

// The exit status of a simulation whose last answer this is. Not a `From`: neither Result nor u8 is a type of this crate.
pub fn exit_number(answer: Result<Answer, Refusal>) -> u8
    ensures { result ≡ exit_number answer }
{
    match answer {
        Ok(Answer::Started(_)) => 0,
        Ok(Answer::Stopped(why)) => u8::from(why),
        _ => 1,
    }
}

// A byte after which the session goes on: a load was taken, or a block has come.
fn progress_text(terminal: bool, before: Progress, after: Progress) -> Text
    ensures { result ≡ text_of (progress_text terminal before after) }
{
    if before.size != after.size {
        return Text::of(format_args!("loading {} bytes\n", after.size));
    }
    if before.block == after.block {
        return Text::new();
    }
    if terminal {
        let blocks = protocol::blocks_for(after.size);
        return Text::of(format_args!("\rblock {} of {blocks}", after.block));
    }
    Text::new()
}

// All blocks of a program have come.
#[derive(Clone, Copy)]
struct AllBlocks {
    terminal: bool,
    size: u32,
}

impl Show for AllBlocks {
    ghost words = { λ a. all_blocks a.terminal (blocks_for a.size) };

    fn show(&self, t: &mut Text) {
        let n = protocol::blocks_for(self.size);
        if self.terminal {
            write!(t, "\rblock {n} of {n}\n");
        } else {
            write!(t, "{n} blocks\n");
        }
    }
}

// What comes before the line of a stop: stop 25 comes after all blocks, and any other ends the line of blocks, if there is one.
#[derive(Clone, Copy)]
struct BeforeStop {
    terminal: bool,
    before: Progress,
    why: Stop,
}

impl Show for BeforeStop {
    ghost words = { λ b. before_stop b.terminal b.before b.why };

    fn show(&self, t: &mut Text) {
        if self.why == Stop::Digest {
            AllBlocks {
                terminal: self.terminal,
                size: self.before.size,
            }
            .show(t)
        } else if self.terminal && self.before.block != 0 {
            "\n".show(t)
        } else {
            "".show(t)
        }
    }
}

// The line of a stop.
#[derive(Clone, Copy)]
struct Stopped(Stop);

#[tactic(auto, unfolding(crate::specs::Shown::stop_line))]
impl Show for Stopped {
    ghost words = { λ s. stop_line s.0 };

    fn show(&self, t: &mut Text) {
        ("stopped ", u8::from(self.0), ": ", Words(self.0), "\n").show(t)
    }
}

// Why the head stopped, in README's words.
#[derive(Clone, Copy)]
pub struct Words(pub Stop);

impl Show for Words {
    ghost words = { λ w. words_of w.0 };

    fn show(&self, t: &mut Text) {
        match self.0 {
            Stop::UnknownType => "the record's type is 6 or above",
            Stop::HeaderBit => "bit 7 or bit 2 of a header is set",
            Stop::Command => "the command is not allowed now, or unknown",
            Stop::BodyLength => "the command has another body length",
            Stop::Digest => "the program's digest is not allowed",
            Stop::ProgramSize => {
                "the size of the program in flash is 0, over the slot or over the RAM"
            }
        }
        .show(t)
    }
}

// The line of a start.
#[derive(Clone, Copy)]
struct Started(Start);

#[tactic(auto, unfolding(crate::specs::Shown::start_line))]
impl Show for Started {
    ghost words = { λ s. start_line s.0.size s.0.cdi };

    fn show(&self, t: &mut Text) {
        let cdi = Hex(&self.0.cdi);
        ("started, ", self.0.size, " bytes, CDI ", cdi, "\n").show(t)
    }
}

// The line of a refused call.
#[derive(Clone, Copy)]
struct Refused(Refusal);

impl Show for Refused {
    ghost words = { λ r. refusal_line r.0 };

    fn show(&self, t: &mut Text) {
        let number = u8::from(self.0);
        write!(t, "refused {number}\n")
    }
}
