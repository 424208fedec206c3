// The reset record, which the program before a reset leaves for the loader.
// Document 01, "Reset record and lent memory", with change requests 3 and 6, in the terms of specs/Record.antt and specs/Types.antt.
#![tactic(auto)]

ghost use Rattle.std.specs.Prelude.{◌≡◌, take};
ghost use Rattle.std.specs.Result.{result_ok};
ghost use Rattle.endian.specs.Lists.{padded};
ghost use Rattle.record.specs.Record.{type_number, known_type, digests_at, record_of, record_at};
ghost use Rattle.record.specs.Types.{source_at, source_of, verifies, digests_of, one_of};

// Which program a reset asks for.
#[derive(Clone, Copy, Debug, PartialEq, Eq)]
pub enum ResetType {
    Flash0,
    Flash1,
    // _VER: the program must have an allowed digest.
    Flash0Ver,
    Flash1Ver,
    Client,
    ClientVer,
}

// A number that stands for no type.
#[derive(Clone, Copy, Debug, PartialEq, Eq)]
pub struct UnknownType;

// Where the program of a reset comes from.
#[derive(Clone, Copy, Debug, PartialEq, Eq)]
pub enum Place {
    Slot0,
    Slot1,
    // A client sends it.
    Client,
}

// The allowed digests: a program that must have a digest has one of them.
#[derive(Clone, Copy)]
pub struct Digests {
    // Document 01's required digest.
    pub first: [u8; 32],
    // Zeros where there is none.
    pub second: [u8; 32],
    // Mask bit 1: there is a second. Not an Option: `mastfrap_act` promises C the 32 bytes as they were lent, also where there is none.
    pub has_second: bool,
}

// What the loader reads of a record.
#[derive(Clone, Copy)]
pub struct Record {
    // None for a number that stands for no type.
    pub reset_type: Option<ResetType>,
    // Mask bit 0: the CDI is chained to measured_id. Not an Option: the state that C lends has the 32 bytes as they came, also where it is clear.
    pub reset_seed: bool,
    pub digests: Digests,
    pub measured_id: [u8; 32],
}

impl TryFrom<u32> for ResetType {
    type Error = UnknownType;

    ghost try_from_gives = { λ n r. type_number (result_ok r) ≡ known_type n };

    fn try_from(n: u32) -> Result<ResetType, UnknownType> {
        match n {
            0 => Ok(ResetType::Flash0),
            1 => Ok(ResetType::Flash1),
            2 => Ok(ResetType::Flash0Ver),
            3 => Ok(ResetType::Flash1Ver),
            4 => Ok(ResetType::Client),
            5 => Ok(ResetType::ClientVer),
            _ => Err(UnknownType),
        }
    }
}

// The first 256 bytes of what is lent as a record, with zeros behind them where there are fewer.
pub fn front(record: &[u8]) -> [u8; 256]
    ensures { result ≡ padded 256 (take 256 «record».now) }
{
    endian::part(record, 0)
}

// The second allowed digest. Where there is none its bytes are data, and data is not read.
fn second_in(bytes: &[u8; 256], has_second: bool) -> [u8; 32]
    ensures { result ≡ (digests_at has_second bytes.now).second }
{
    if has_second {
        endian::part(bytes, 72)
    } else {
        [0; 32]
    }
}

fn digests_in(bytes: &[u8; 256], has_second: bool) -> Digests
    ensures { result ≡ digests_at has_second bytes.now }
{
    Digests {
        first: endian::part(bytes, 8),
        second: second_in(bytes, has_second),
        has_second,
    }
}

// Reads a record.
pub fn read(bytes: [u8; 256]) -> Record
    ensures { record_of result ≡ record_at bytes }
{
    let mask = endian::word_at(&bytes, 4);
    Record {
        reset_type: ResetType::try_from(endian::word_at(&bytes, 0)).ok(),
        reset_seed: mask % 2 == 1,
        digests: digests_in(&bytes, mask / 2 % 2 == 1),
        measured_id: endian::part(&bytes, 40),
    }
}

// Where the program of a type comes from; none for a number that stands for no type.
pub fn source(t: Option<ResetType>) -> Option<Place>
    ensures { source_at result ≡ source_of (type_number t) }
{
    let place = match t? {
        ResetType::Flash0 | ResetType::Flash0Ver => Place::Slot0,
        ResetType::Flash1 | ResetType::Flash1Ver => Place::Slot1,
        ResetType::Client | ResetType::ClientVer => Place::Client,
    };
    Some(place)
}

// Whether the program of a type must have an allowed digest.
pub fn verifies(t: Option<ResetType>) -> bool
    ensures { result ≡ verifies (type_number t) }
{
    !matches!(t, None | Some(ResetType::Flash1 | ResetType::Client))
}

// The digests that are allowed: type 0's only one is built in, the others have what the record says.
pub fn digests_of(r: Record, built_in: [u8; 32]) -> Digests
    ensures { result ≡ digests_of (type_number r.reset_type) built_in r.digests }
{
    if r.reset_type != Some(ResetType::Flash0) {
        return r.digests;
    }
    Digests {
        first: built_in,
        second: [0; 32],
        has_second: false,
    }
}

// Whether a digest is one of those that are allowed. By `equal` and without a branch: with an early exit LLVM inlines less, and a byte costs
// the firmware more than it may (docs/DECISIONS.md, 115).
pub fn one_of(allowed: Digests, digest: [u8; 32]) -> bool
    ensures { result ≡ one_of allowed digest }
{
    let is_first = endian::equal(&digest, &allowed.first);
    let is_second = endian::equal(&digest, &allowed.second);
    is_first | (allowed.has_second & is_second)
}
