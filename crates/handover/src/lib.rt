// The reset call: a running program hands over to the next one. It writes the record of the next start, which begin then reads, and zeroes the
// CDI that it is lent.
// Change request 7 and source document 002, RESET, in the terms of specs/Reset.antt.
#![tactic(auto)]

ghost use Rattle.std.specs.Prelude.{◌≡◌, length};
ghost use Rattle.record.specs.Record.{data_field, reset_seed, has_second};
ghost use Rattle.handover.specs.Reset.{refusal_number, number_of, asked_in, mixed, measured_id_for, written_record, inputs_fit, handed_over, resetting};

// Why a reset is refused; it then changes nothing.
#[derive(Clone, Copy, Debug, PartialEq, Eq)]
pub enum Refusal {
    // The next type is over 5.
    NextType,
    // The record has not 256 bytes.
    RecordLength,
    // CDI or seed has not 32 bytes, or the data does not fill the record.
    InputLength,
}

impl From<Refusal> for u32 {
    ghost from_gives = { λ why n. n ≡ refusal_number why };

    fn from(why: Refusal) -> u32 {
        match why {
            Refusal::NextType => 44,
            Refusal::RecordLength => 45,
            Refusal::InputLength => 46,
        }
    }
}

// What the program asks for. Type and mask as they came: refusal 44 needs the type's number, and the record keeps every bit of the mask.
#[derive(Clone, Copy)]
pub struct Next<'a> {
    pub next_type: u32,
    pub mask: u32,
    // The allowed digests; the second is not written where mask bit 1 is clear.
    pub first: [u8; 32],
    pub second: [u8; 32],
    pub next_data: &'a [u8],
}

impl Next<'_> {
    // Mask bit 0: measured_id is made of CDI and seed.
    fn reset_seed(&self) -> bool
        ensures { result ≡ reset_seed self.now.mask }
    {
        self.mask % 2 == 1
    }

    // Mask bit 1: there is a second digest.
    fn has_second(&self) -> bool
        ensures { result ≡ has_second self.now.mask }
    {
        self.mask / 2 % 2 == 1
    }

    // Where the data begins: behind the second digest, if there is one.
    fn data_from(&self) -> usize
        ensures { result ≡ (data_field (has_second self.now.mask)).from }
    {
        if self.has_second() { 104 } else { 72 }
    }

    // Whether CDI, seed and data have the lengths that they must have.
    fn inputs_fit(&self, cdi: &[u8], seed: &[u8]) -> bool
        ensures { result ≡ inputs_fit self.now.mask (length cdi.now) (length seed.now) (length self.now.next_data.now) }
    {
        cdi.len() == 32 && seed.len() == 32 && self.next_data.len() == 256 - self.data_from()
    }
}

// BLAKE2s-256 of CDI and seed.
fn mix(cdi: &[u8], seed: &[u8]) -> [u8; 32]
    requires { (length cdi.now ≡ 32) × (length seed.now ≡ 32) }
    ensures { result ≡ mixed cdi.now seed.now }
{
    let mut both = [0u8; 64];
    endian::put(&mut both, 0, cdi);
    endian::put(&mut both, 32, seed);
    blake2s::digest(&both)
}

// measured_id of the next record.
fn measured_id(next: Next<'_>, cdi: &[u8], seed: &[u8]) -> [u8; 32]
    requires { (length cdi.now ≡ 32) × (length seed.now ≡ 32) }
    ensures { result ≡ measured_id_for next.entry.mask cdi.now seed.now }
{
    if next.reset_seed() {
        mix(cdi, seed)
    } else {
        [0; 32]
    }
}

// Writes a whole record.
fn write(out: &mut [u8], next: Next<'_>, measured_id: [u8; 32])
    requires { (length out.old ≡ 256) × (length next.next_data.now ≡ (data_field (has_second next.mask)).size) }
    ensures { out.new ≡ written_record (asked_in next.entry) measured_id }
{
    endian::put(out, 0, &next.next_type.to_le_bytes());
    endian::put(out, 4, &next.mask.to_le_bytes());
    endian::put(out, 8, &next.first);
    endian::put(out, 40, &measured_id);
    if next.has_second() {
        endian::put(out, 72, &next.second);
    }
    endian::put(out, next.data_from(), next.next_data);
}

// Hands over to the next program: writes the record of its start, and zeroes the CDI.
pub fn reset(cdi: &mut [u8], seed: &[u8], next: Next<'_>, record: &mut [u8]) -> Result<(), Refusal>
    ensures { handed_over (number_of result) cdi.new «record».new ≡ resetting cdi.old seed.now (asked_in next.entry) «record».old }
{
    if 5 < next.next_type {
        return Err(Refusal::NextType);
    }
    if record.len() != 256 {
        return Err(Refusal::RecordLength);
    }
    if !next.inputs_fit(cdi, seed) {
        return Err(Refusal::InputLength);
    }
    let id = measured_id(next, cdi, seed);
    write(record, next, id);
    cdi.fill(0);
    Ok(())
}
