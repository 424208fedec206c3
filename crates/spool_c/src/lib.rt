// Design spools for C: include/mastfrap.h.
#![tactic(auto)]

ghost use Rattle.std.specs.Prelude.{◌≡◌, ℕ, List};
ghost use Rattle.spool.specs.Answers.{number_of, outcome, outcome_of, with_count};
ghost use Rattle.spool.specs.Reading.{reading, look_refusal};
ghost use Rattle.spool.specs.Writing.{writing};
ghost use Rattle.spool.specs.Salvage.{salvaging_as, salvaging};

use spool::Refusal;

// The number of what was settled; 0 where it is accepted.
fn number(settled: Result<(), Refusal>) -> u32
    ensures { result ≡ number_of settled }
{
    settled.err().map_or(0, u32::from)
}

// The same where there is a count, which is written where the call was accepted.
fn counted(done: Result<usize, Refusal>, len: &mut usize) -> u32
    ensures { (room : List ℕ) → outcome result len.new room ≡ with_count (outcome_of done room) len.old }
{
    match done {
        Ok(n) => {
            *len = n;
            0
        }
        Err(refusal) => u32::from(refusal),
    }
}

#[unsafe(no_mangle)]
pub extern "C" fn mastfrap_spool_read(spool: &[u8], room: &mut [u8], len: &mut usize) -> u32
    ensures { outcome result len.new room.new ≡ with_count (reading spool.now room.old) len.old }
{
    counted(spool::read(spool, room), len)
}

#[unsafe(no_mangle)]
pub extern "C" fn mastfrap_spool_look(spool: &[u8], place: usize) -> u32
    ensures { result ≡ look_refusal spool.now place }
{
    number(spool::look(spool, place))
}

#[unsafe(no_mangle)]
pub extern "C" fn mastfrap_spool_write(program: &[u8], room: &mut [u8], len: &mut usize) -> u32
    ensures { outcome result len.new room.new ≡ with_count (writing program.now room.old) len.old }
{
    counted(spool::write(program, room), len)
}

#[unsafe(no_mangle)]
pub extern "C" fn mastfrap_spool_salvage(spool: &mut [u8], spares: &[u8], report: &mut [u8]) -> u32
    ensures { salvaging_as result spool.new report.new ≡ salvaging spool.old spares.now report.old }
{
    number(spool::salvage(spool, spares, report))
}
