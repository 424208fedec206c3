// The head for C, and for whatever calls C: include/mastfrap.h. Each contract is that of the function that is called.
#![tactic(auto)]

ghost use Rattle.std.specs.Prelude.{◌≡◌};
ghost use Rattle.head.specs.Begin.{flash_of};
ghost use Rattle.handover.specs.Reset.{next_of, handed_over, resetting};
ghost use Rattle.abi.specs.Layout.{lent};
ghost use Rattle.abi.specs.Calls.{start_in, gather_told, gather_call, begin_told, begin_call, act_told, act_call};

#[unsafe(no_mangle)]
pub extern "C" fn mastfrap_begin<'a>(
    numbers: &mut [u32; 3],
    bytes: &mut [u8; 268],
    record: &[u8],
    udi: &[u8; 8],
    slot0: &'a [u8],
    size0: usize,
    slot1: &'a [u8],
    size1: usize,
    built_in: &[u8; 32],
    ram: &mut [u8],
    uds: &mut [u32],
    start: &mut [u32; 2],
    cdi: &mut [u8; 32],
    digest: &mut [u8; 32],
) -> u32
    ensures { begin_told result (lent numbers.new bytes.new) (start_in start.new cdi.new digest.new) ram.new uds.new ≡ begin_call (lent numbers.old bytes.old) «record».now udi.now (flash_of slot0.now size0 slot1.now size1 built_in.now) ram.old uds.old (start_in start.old cdi.old digest.old) }
{
    abi::mastfrap_begin(
        numbers, bytes, record, udi, slot0, size0, slot1, size1, built_in, ram, uds, start, cdi,
        digest,
    )
}

#[unsafe(no_mangle)]
pub extern "C" fn mastfrap_gather(numbers: &mut [u32; 3], bytes: &mut [u8; 268], byte: u8) -> u32
    ensures { gather_told result (lent numbers.new bytes.new) ≡ gather_call (lent numbers.old bytes.old) byte }
{
    abi::mastfrap_gather(numbers, bytes, byte)
}

#[unsafe(no_mangle)]
pub extern "C" fn mastfrap_act(
    numbers: &mut [u32; 3],
    bytes: &mut [u8; 268],
    room: &mut [u8],
    ram: &mut [u8],
    uds: &mut [u32],
    reply: &mut u32,
    start: &mut [u32; 2],
    cdi: &mut [u8; 32],
    digest: &mut [u8; 32],
) -> u32
    ensures { act_told result (lent numbers.new bytes.new) reply.new (start_in start.new cdi.new digest.new) room.new ram.new uds.new ≡ act_call (lent numbers.old bytes.old) room.old ram.old uds.old reply.old (start_in start.old cdi.old digest.old) }
{
    abi::mastfrap_act(numbers, bytes, room, ram, uds, reply, start, cdi, digest)
}

#[unsafe(no_mangle)]
pub extern "C" fn mastfrap_reset(
    cdi: &mut [u8],
    seed: &[u8],
    next_type: u32,
    mask: u32,
    first: &[u8; 32],
    second: &[u8; 32],
    next_data: &[u8],
    record: &mut [u8],
) -> u32
    ensures { handed_over result cdi.new «record».new ≡ resetting cdi.old seed.now (next_of next_type mask first.now second.now next_data.now) «record».old }
{
    abi::mastfrap_reset(cdi, seed, next_type, mask, first, second, next_data, record)
}
