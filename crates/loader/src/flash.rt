// A program from flash: change request 3.
ghost use Rattle.std.specs.Prelude.{◌≡◌, cond, ◌≤◌, length, take};
ghost use Rattle.protocol.specs.Commands.{longest};
ghost use Rattle.head.specs.Answers.{result_in};
ghost use Rattle.head.specs.Begin.{from_flash};

use head::{Config, Phase, Step, Stop};

// A slot of flash, and the size that the program in it is said to have.
#[derive(Clone, Copy)]
pub struct Slot<'a> {
    pub bytes: &'a [u8],
    pub size: usize,
}

// What of flash begin is lent and given: two slots, and the digest that is built in for type 0.
#[derive(Clone, Copy)]
pub struct Flash<'a> {
    pub slot0: Slot<'a>,
    pub slot1: Slot<'a>,
    pub built_in: [u8; 32],
}

// The first n bytes of slot 1 if `second`, otherwise of slot 0, or all if there are fewer: lent back without copying. Document 01 names this
// form: it takes both lent slots, one lifetime on each.
fn front<'a>(slot0: &'a [u8], slot1: &'a [u8], second: bool, n: usize) -> &'a [u8]
    ensures { result.now ≡ take n (cond second slot1.now slot0.now) }
{
    if second {
        return endian::first(slot1, n);
    }
    endian::first(slot0, n)
}

// The program of this size in slot 1 or in slot 0 is measured, put in RAM and started, if it is allowed. Its front part is shorter than the size
// exactly where the slot is.
pub fn boot<'a>(
    c: Config,
    slot0: &'a [u8],
    slot1: &'a [u8],
    second: bool,
    size: usize,
    ram: &mut [u8],
    uds: &mut [u32],
) -> Step
    requires { (length ram.old ≤ longest) × (length uds.old ≡ 8) }
    ensures { result_in result ram.new uds.new ≡ from_flash (record { bytes = cond second slot1.now slot0.now; size = size }) c ram.old uds.old }
{
    let program = front(slot0, slot1, second, size);
    if !head::fits(size, program.len(), ram.len()) {
        return super::starting::end(Stop::ProgramSize, c.ram_len);
    }
    let digest = blake2s::digest(program);
    endian::put(ram, 0, program);
    let p = head::of_size(Phase::Loading, size as u32);
    super::starting::start_or_stop(c, p, digest, uds)
}
