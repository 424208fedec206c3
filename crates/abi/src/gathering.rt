// A byte gathered in place: only the few bytes that it changes are written. Through head::gather, by value, the state is copied twice at each
// byte: some 2,000 instructions on riscv32, where the budget is 70 (bench/firmware.sh).
ghost use Rattle.std.specs.Prelude.{◌≡◌, true, cond, ◌&&◌, List, ℕ, ◌≤◌, eqb, length, get_or};
ghost use Rattle.framing.specs.Header.{header_at, body_len};
ghost use Rattle.protocol.specs.Commands.{length_ok};
ghost use Rattle.head.specs.State.{frame_ok, load_ok};
ghost use Rattle.head.specs.Answers.{admission_number, report_of};
ghost use Rattle.head.specs.Gather.{gather_refusal};
ghost use Rattle.abi.specs.Layout.{lent, holds, state_in};
ghost use Rattle.abi.specs.Calls.{answer_number, gather_told};
ghost use Rattle.abi.specs.Steps.{admitted};

use loader::{Answer, Refusal, Stop};

// Whether the frame is in its range; len is the length of its body. head::frame_ok would read that off the header again.
fn frame_ok(header: u8, got: u8, len: u8) -> bool
    requires { len ≡ body_len (header_at header) }
    ensures { result ≡ frame_ok header got }
{
    if got == 0 {
        return header == 0;
    }
    got <= len || head::is_whole(header, got)
}

// Whether what is not of the frame is in its range.
fn numbers_ok(ram_len: usize, size: u32, block: u32, phase: u8) -> bool
    ensures { result ≡ length_ok ram_len && cond (eqb phase 1) (load_ok size block ram_len) true }
{
    protocol::length_ok(ram_len) && (phase != 1 || head::load_ok(size, block, ram_len))
}

// Refuses gathering by the first refusal that applies; len is the length of the frame's body. In range, a frame is whole exactly when more has
// come than that.
pub fn admit(numbers: &[u32; 3], bytes: &[u8; 268], len: u8) -> Result<(), Refusal>
    requires { len ≡ body_len (header_at (get_or bytes.now 128 0)) }
    ensures { admission_number result ≡ cond (holds bytes.now) (gather_refusal (state_in (lent numbers.now bytes.now))) 1 }
{
    let got = bytes[129];
    let phase = bytes[130];
    if !super::layout::holds(bytes)
        || !numbers_ok(numbers[0] as usize, numbers[1], numbers[2], phase)
        || !frame_ok(bytes[128], got, len)
    {
        return Err(Refusal::StateRange);
    }
    if 2 <= phase {
        return Err(Refusal::Ended);
    }
    if len < got {
        return Err(Refusal::OutOfTurn);
    }
    Ok(())
}

// A byte between frames: a header. A bad one stops the head.
pub fn open(numbers: &mut [u32; 3], bytes: &mut [u8; 268], byte: u8) -> Answer
    requires held { holds bytes.old ≡ true }
    requires between { get_or bytes.old 129 0 ≡ 0 }
    ensures { gather_told (answer_number (report_of result)) (lent numbers.new bytes.new) ≡ admitted (lent numbers.old bytes.old) byte }
{
    if framing::is_good(byte) {
        bytes[128] = byte;
        bytes[129] = 1;
        return Answer::Continue;
    }
    numbers[1] = 0;
    numbers[2] = 0;
    *bytes = [0; 268];
    bytes[130] = 3;
    Answer::Stopped(Stop::HeaderBit)
}

// A byte of the body that a header announced, of length len: it is kept where the frame is for the firmware.
pub fn take(bytes: &mut [u8; 268], len: u8, byte: u8) -> Answer
    requires held { holds bytes.old ≡ true }
    requires len_value { len ≡ body_len (header_at (get_or bytes.old 128 0)) }
    requires bound { (1 ≤ get_or bytes.old 129 0) × (get_or bytes.old 129 0 ≤ len) }
    ensures { (n : List ℕ) → length n ≡ 3 → gather_told (answer_number (report_of result)) (lent n bytes.new) ≡ admitted (lent n bytes.old) byte }
{
    let got = bytes[129];
    if framing::endpoint(bytes[128]) == 2 {
        bytes[(got - 1) as usize] = byte;
        bytes[129] = got + 1;
        if len <= got {
            return Answer::Whole;
        }
        return Answer::Continue;
    }
    if len <= got {
        bytes[..130].fill(0);
        return Answer::Continue;
    }
    bytes[129] = got + 1;
    Answer::Continue
}
