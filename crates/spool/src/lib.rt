// Design spools: a program written as a spool of checked blocks, read back, and a damaged spool salvaged with spare blocks.
// Change request 10 in the terms of specs/: Answers (the paper's numbers), Reading, Writing, Salvage.
#![tactic(auto)]

mod reading;
mod salvaging;
mod writing;

ghost use Rattle.std.specs.Prelude.{◌≡◌, ◌<◌, MatchResult};
ghost use Rattle.spool.specs.Answers.{refusal_number, number_of, outcome_of, fate_number};
ghost use Rattle.spool.specs.Reading.{reading, look_refusal};
ghost use Rattle.spool.specs.Writing.{writing};
ghost use Rattle.spool.specs.Salvage.{salvaging_as, salvaging};
ghost use Rattle.spool.specs.declared.Refusal.TheVariants.{Block};

use reading::Reader;
use spool_block::Fault;

// Why a call is refused. It changes nothing then.
#[derive(Clone, Copy, Debug, PartialEq, Eq)]
pub enum Refusal {
    // The program has no byte, or over 131,072.
    ProgramLength,
    // The spool's length is zero, over 142,336 or not a multiple of 512, or the spares' is not.
    SpoolLength,
    // What is wrong with the earliest block that is not good.
    Block(Fault),
    // The room for program, spool or report is too small.
    RoomLength,
}

// The numbers of change request 10.
impl From<Refusal> for u32 {
    ghost from_gives = { λ r n. n ≡ refusal_number r };

    fn from(refusal: Refusal) -> u32 {
        match refusal {
            Refusal::ProgramLength => 40,
            Refusal::SpoolLength => 50,
            Refusal::Block(fault) => u32::from(fault),
            Refusal::RoomLength => 54,
        }
    }
}

impl From<Fault> for Refusal {
    ghost from_gives = { λ f r. r ≡ Block f };

    fn from(fault: Fault) -> Refusal {
        Refusal::Block(fault)
    }
}

// What salvage reports of a block.
#[derive(Clone, Copy, Debug, PartialEq, Eq)]
pub enum Fate {
    Kept,
    Replaced,
    Lost,
}

impl From<Fate> for u8 {
    ghost from_gives = { λ f n. n ≡ fate_number f };

    fn from(fate: Fate) -> u8 {
        match fate {
            Fate::Kept => 0,
            Fate::Replaced => 1,
            Fate::Lost => 2,
        }
    }
}

// No block has this fate.
#[derive(Clone, Copy, Debug, PartialEq, Eq)]
pub struct UnknownFate;

impl TryFrom<u8> for Fate {
    type Error = UnknownFate;

    ghost try_from_gives = { λ n r. MatchResult r (λ f. fate_number f ≡ n) (λ _. 2 < n) };

    fn try_from(entry: u8) -> Result<Fate, UnknownFate> {
        match entry {
            0 => Ok(Fate::Kept),
            1 => Ok(Fate::Replaced),
            2 => Ok(Fate::Lost),
            _ => Err(UnknownFate),
        }
    }
}

// Puts the program in a spool at the front of the room, and says how long it is.
pub fn read(spool: &[u8], room: &mut [u8]) -> Result<usize, Refusal>
    ensures { outcome_of result room.new ≡ reading spool.now room.old }
{
    let blocks = reading::blocks(spool)?;
    if room.len() < 472 * blocks.len() {
        return Err(Refusal::RoomLength);
    }
    reading::check_all(blocks)?;
    Ok(reading::gather(blocks, room))
}

// Whether the block at a place is good there, and otherwise its first fault; a spool with no such block is refused as one of a bad length.
pub fn look(spool: &[u8], place: usize) -> Result<(), Refusal>
    ensures { number_of result ≡ look_refusal spool.now place }
{
    match Reader::at(reading::blocks(spool)?, place).next() {
        None => Err(Refusal::SpoolLength),
        Some(verdict) => Ok(verdict?),
    }
}

// Puts the spool of a program at the front of the room, and says how long it is.
pub fn write(program: &[u8], room: &mut [u8]) -> Result<usize, Refusal>
    ensures { outcome_of result room.new ≡ writing program.now room.old }
{
    if !protocol::length_ok(program.len()) {
        return Err(Refusal::ProgramLength);
    }
    if room.len() < 512 * writing::spool_blocks(program.len()) {
        return Err(Refusal::RoomLength);
    }
    Ok(writing::spread(program, room))
}

// Fills each bad place of a spool with the first spare block that is good there, if one is, and reports the fate of every block at the front
// of the report.
pub fn salvage(spool: &mut [u8], spares: &[u8], report: &mut [u8]) -> Result<(), Refusal>
    ensures { salvaging_as (number_of result) spool.new report.new ≡ salvaging spool.old spares.now report.old }
{
    let blocks = reading::blocks(spool)?.len();
    let (spares, rest) = spares.as_chunks();
    if !rest.is_empty() {
        return Err(Refusal::SpoolLength);
    }
    if report.len() < blocks {
        return Err(Refusal::RoomLength);
    }
    salvaging::mend_all(spool, spares, report);
    Ok(())
}
