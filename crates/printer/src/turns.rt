// A session from byte to byte, and what is printed of it.
ghost use Rattle.std.specs.Prelude.{◌≡◌, Some};
ghost use Rattle.endian.specs.Lists.{zeros};
ghost use Rattle.head.specs.Answers.{report_of};
ghost use Rattle.head.specs.Act.{acted};
ghost use Rattle.printer.specs.Turns.{turn_of, left, going, refused_turn, unreplied_turn, begin_turn, opening, turned, ram_after, waited};

use super::input;
use super::lines::{Ending, Reply};
use head::Phase;
use loader::{Acted, Answer, Refusal, State, Step};
use std::ops::ControlFlow;
use text::Text;

// A head between two bytes, with its device secret.
#[derive(Clone, Copy)]
pub struct Session {
    pub state: State,
    pub words: [u32; 8],
    // How many bytes were received.
    pub received: u64,
}

// What is to be written now, and the session that is left: the next turn goes on with it, or that is all and it has ended so.
#[derive(Clone, Copy)]
pub struct Turn {
    pub text: Text,
    pub session: ControlFlow<Session, Session>,
}

// The first turn: of the first 296 bytes of the input so many were got, and zeros stand for the others. Only a RAM that no head can have is
// refused; document 01 has no line for that, and it is printed as `E 7`. Array and number, no slice: the theorem `printer` speaks of both.
pub fn open(front: [u8; 296], got: usize, ram: &mut [u8]) -> Turn
    ensures turn { result ≡ opening front got ram.old }
    ensures ram { ram.new ≡ ram.old }
{
    let turn = begin(front, ram);
    if got < 296 {
        return Turn {
            text: Text::of("E 1\n"),
            session: ControlFlow::Break(left(turn)),
        };
    }
    turn
}

// The session that a turn leaves.
fn left(turn: Turn) -> Session
    ensures { result ≡ left turn.session }
{
    match turn.session {
        ControlFlow::Continue(session) => session,
        ControlFlow::Break(session) => session,
    }
}

// Begins with record, UDS and UDI; nothing is in flash, so RAM stays.
fn begin(front: [u8; 296], ram: &mut [u8]) -> Turn
    ensures turn { result ≡ begin_turn front ram.old }
    ensures ram { ram.new ≡ ram.old }
{
    let mut words = input::words_of(front);
    match input::begin(front, ram, &mut words) {
        Ok(Step { answer, state }) => {
            let session = Session {
                state,
                words,
                received: 0,
            };
            after(session, answer)
        }
        Err(why) => {
            let session = Session {
                state: head::ended(Phase::Stopped, 1),
                words,
                received: 0,
            };
            refused(session, why)
        }
    }
}

// The turn of a call that is refused.
fn refused(session: Session, why: Refusal) -> Turn
    ensures { result ≡ refused_turn session why }
{
    Turn {
        text: Text::of(Ending(Err(why))),
        session: ControlFlow::Break(session),
    }
}

// The turn of a call that has no reply.
fn after(session: Session, answer: Answer) -> Turn
    ensures { result ≡ unreplied_turn session answer }
{
    Turn {
        text: Text::of(Ending(Ok(answer))),
        session: going(session, answer),
    }
}

// The session goes on after an answer, or has ended with it.
fn going(session: Session, answer: Answer) -> ControlFlow<Session, Session>
    ensures { result ≡ going (report_of answer) session }
{
    match answer {
        Answer::Continue | Answer::Whole => ControlFlow::Continue(session),
        Answer::Stopped(_) | Answer::Started(_) => ControlFlow::Break(session),
    }
}

// Every other turn, by the byte that is received, none at the end of the input, and with the RAM that the turn before left. Of a session from
// `open`, a call is refused only where RAM has another length or the session has ended; it is then printed as `E` and the number.
pub fn advance(s: Session, byte: Option<u8>, ram: &mut [u8]) -> Turn
    ensures turn { result ≡ turned s byte ram.old }
    ensures ram { ram.new ≡ ram_after s byte ram.old }
{
    match byte {
        Some(b) => receive(s, b, ram),
        None => wait(s),
    }
}

// The input has ended.
fn wait(s: Session) -> Turn
    ensures { result ≡ waited s }
{
    Turn {
        text: Text::of(("W ", s.received, "\n")),
        session: ControlFlow::Break(s),
    }
}

// Receives a byte: it is gathered, and a frame that is whole with it is acted on. Nothing says that an input ends, and the count does at
// 2^64 - 1: there the session ends as if the input did.
fn receive(s: Session, byte: u8, ram: &mut [u8]) -> Turn
    ensures turn { result ≡ turned s (Some byte) ram.old }
    ensures ram { ram.new ≡ ram_after s (Some byte) ram.old }
{
    if s.received == u64::MAX {
        return wait(s);
    }
    let heard = Session {
        received: s.received + 1,
        ..s
    };
    match loader::gather(s.state, byte) {
        Ok(Step { answer, state }) => {
            let session = Session { state, ..heard };
            match answer {
                Answer::Whole => act(session, ram),
                answer => after(session, answer),
            }
        }
        Err(why) => refused(heard, why),
    }
}

// Acts on the frame that is whole.
fn act(s: Session, ram: &mut [u8]) -> Turn
    ensures turn { result ≡ turn_of s.received (acted s.state (zeros 129) ram.old s.words) }
    ensures ram { ram.new ≡ (acted s.state (zeros 129) ram.old s.words).ram }
{
    let mut words = s.words;
    let mut room = [0u8; 129];
    match loader::act(s.state, &mut room, ram, &mut words) {
        Ok(
            Acted {
                answer,
                reply: n,
                state,
            },
        ) => {
            let session = Session { state, words, ..s };
            Turn {
                text: Text::of((Reply { room, n }, Ending(Ok(answer)))),
                session: going(session, answer),
            }
        }
        Err(why) => refused(Session { words, ..s }, why),
    }
}
