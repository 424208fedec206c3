// The words of a spool that does not read, for each command that takes one. In specs/, Words has them all.
#![tactic(auto)]

ghost use Rattle.std.specs.Prelude.{◌≡◌, eqb};
ghost use Rattle.text.specs.Text.{text_of};
ghost use Rattle.spool.specs.Answers.{number_of};
ghost use Rattle.spool_words.specs.Words.{fault_words, block_words, good_before, refusal_words};

use spool::Refusal;
use spool_block::Fault;
use text::{Show, Text};

// What is wrong, and its number.
#[derive(Clone, Copy)]
pub struct Wrong(pub Result<(), Refusal>);

impl Show for Wrong {
    ghost words = { λ w. fault_words (number_of w.0) };

    fn show(&self, t: &mut Text) {
        match self.0 {
            Ok(()) => "nothing is wrong (0)",
            Err(Refusal::ProgramLength) => "its length is not 1 to 131072 bytes (40)",
            Err(Refusal::SpoolLength) => "its length is not 1 to 278 blocks of 512 bytes (50)",
            Err(Refusal::Block(Fault::Check)) => "its check is not the hash of its bytes (51)",
            Err(Refusal::Block(Fault::Number)) => "it has another number (52)",
            Err(Refusal::Block(Fault::Count)) => {
                "it uses a wrong count of bytes, or its filler is not zero (53)"
            }
            Err(Refusal::RoomLength) => "there is no room for it (54)",
        }
        .show(t)
    }
}

// Which block it is, and what is wrong with it.
#[derive(Clone, Copy)]
pub struct WrongBlock {
    pub place: usize,
    pub answer: Result<(), Refusal>,
}

impl Show for WrongBlock {
    ghost words = { λ w. block_words w.place (number_of w.answer) };

    fn show(&self, t: &mut Text) {
        ("block ", self.place, ": ", Wrong(self.answer)).show(t)
    }
}

// How many blocks are good before the first that is not.
fn good_before(bytes: &[u8]) -> usize
    ensures { result ≡ good_before bytes.now }
{
    let n = bytes.len() / 512;
    // Not `(0..n).find(..)`: tried, its proof did not close.
    for i in 0..n {
        if !is_good(spool::look(bytes, i)) {
            return i;
        }
    }
    n
}

fn is_good(answer: Result<(), Refusal>) -> bool
    ensures { result ≡ eqb (number_of answer) 0 }
{
    matches!(answer, Ok(()))
}

// Why a spool does not read: its length, or the earliest block that is bad.
pub fn refusal(bytes: &[u8]) -> Text
    ensures { result ≡ text_of (refusal_words bytes.now) }
{
    let place = good_before(bytes);
    let answer = spool::look(bytes, place);
    if is_length(answer) {
        return Text::of(Wrong(answer));
    }
    Text::of(WrongBlock { place, answer })
}

fn is_length(answer: Result<(), Refusal>) -> bool
    ensures { result ≡ eqb (number_of answer) 50 }
{
    matches!(answer, Err(Refusal::SpoolLength))
}
