// The lines that are printed: document 01, "Session printer". Each has its end of line.
ghost use Rattle.head.specs.Answers.{reported, cdi_given};
ghost use Rattle.printer.specs.Lines.{end_line};
ghost use Rattle.printer.specs.Output.{reply_text};

use loader::{Answer, Refusal};
use text::{Hex, Show, Text};

// A reply: the first n bytes of the room. None if n is 0. Room and number, no slice: `reply_text` of specs/ speaks of both.
#[derive(Clone, Copy)]
pub struct Reply {
    pub room: [u8; 129],
    pub n: usize,
}

impl Show for Reply {
    ghost words = { λ r. reply_text r.room r.n };

    fn show(&self, t: &mut Text) {
        if self.n == 0 {
            "".show(t)
        } else {
            ("R ", Hex(endian::first(&self.room, self.n)), "\n").show(t)
        }
    }
}

// The last line of a session that is over; none for one that goes on.
#[derive(Clone, Copy)]
pub struct Ending(pub Result<Answer, Refusal>);

impl Show for Ending {
    ghost words = { λ e. end_line (reported e.0) (cdi_given e.0) };

    fn show(&self, t: &mut Text) {
        match self.0 {
            Ok(Answer::Continue | Answer::Whole) => "".show(t),
            Ok(Answer::Stopped(why)) => ("F ", u8::from(why), "\n").show(t),
            Ok(Answer::Started(start)) => { ("S ", start.size, " ", Hex(&start.cdi), "\n").show(t) }
            Err(why) => ("E ", u8::from(why), "\n").show(t),
        }
    }
}
