// The boot loader of a loom head: bytes from the cable in and replies out, or a program from flash, until one starts or the head stops.
// Its state, its answers and what each call does are defined in `head`, whose types and whose `gather` stand here too.
#![tactic(auto)]

mod acting;
mod beginning;
mod flash;
mod memory;
mod starting;

ghost use Rattle.std.specs.Prelude.{◌≡◌};
ghost use Rattle.head.specs.Answers.{result_of, outcome};
ghost use Rattle.head.specs.Begin.{beginning};
ghost use Rattle.head.specs.Act.{acted};
ghost use Rattle.loader.specs.Steps.{lent};

pub use flash::{Flash, Slot};
pub use head::{
    Acted, Answer, Config, Incoming, Phase, Progress, Refusal, Start, State, Step, Stop, gather,
    is_whole,
};

// Begins: from the reset record, the device's identity (UDI), and what of flash is lent.
// Where the type asks for a client program, a session begins, whose calls of `act` are lent a RAM as long as this one.
// Where it asks for one from flash, this call is the whole boot: the program goes to the front of RAM, and a start clears the device secret.
// After anything but `Continue` every later call on the state is refused, and a refused call changes nothing.
pub fn begin(
    record: &[u8],
    udi: [u8; 8],
    flash: Flash<'_>,
    ram: &mut [u8],
    uds: &mut [u32],
) -> Result<Step, Refusal>
    ensures { result_of result ram.new uds.new ≡ beginning «record».now udi (lent flash.entry) ram.old uds.old }
{
    head::admit_begin(record.len(), ram.len(), uds.len())?;
    let r = record::read(record::front(record));
    Ok(beginning::by_type(r, udi, flash, ram, uds))
}

// Acts on the frame that is whole: answers it, or starts the program or stops. A refused call changes nothing.
pub fn act(s: State, room: &mut [u8], ram: &mut [u8], uds: &mut [u32]) -> Result<Acted, Refusal>
    ensures { outcome result s room.new ram.new uds.new ≡ acted s room.old ram.old uds.old }
{
    head::admit_act(s, room.len(), ram.len(), uds.len())?;
    Ok(acting::perform(s, room, ram, uds))
}
