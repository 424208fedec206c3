// The words of a record: what begin reads of it, and the data that it leaves to the next program.
// No contract speaks of a program's words, so functions that write are plainer here than structs with `Show`.
use handover::Refusal;
use record::{Digests, Record, ResetType};
use text::{Hex, Show, Text};

// All lines but the last: the type, the digests, what the CDI comes from, and the mask. They have under 430 bytes, and a text has room for 512.
pub fn lines(r: Record, bytes: [u8; 256]) -> Text {
    let mut t = Text::new();
    put_type(&mut t, r.reset_type, endian::word_at(&bytes, 0));
    put_digests(&mut t, r.reset_type, r.digests);
    put_basis(&mut t, r.reset_seed, r.measured_id);
    put_mask(&mut t, endian::word_at(&bytes, 4));
    t
}

// The last line: the data, without the zeros at its end.
pub fn data_line(bytes: [u8; 256], has_second: bool) -> Text {
    let mut t = Text::new();
    put_data(
        &mut t,
        if has_second {
            &bytes[104..]
        } else {
            &bytes[72..]
        },
    );
    t
}

// Why no record is made.
pub fn refusal(why: Refusal) -> Text {
    Text::of(format_args!("record: the reset call is refused ({})\n", u32::from(why)))
}

// ---- the type

fn put_type(t: &mut Text, kind: Option<ResetType>, number: u32) {
    match kind {
        Some(kind) => write!(t, "type     {}\n", type_words(kind)),
        None => write!(t, "type     {number} is unknown: the head stops with 20\n"),
    }
}

fn type_words(kind: ResetType) -> &'static str {
    match kind {
        ResetType::Flash0 => {
            "0 FLASH0: the program in slot 0, if it has the digest built into the firmware"
        }
        ResetType::Flash1 => "1 FLASH1: the program in slot 1, whatever its digest",
        ResetType::Flash0Ver => "2 FLASH0_VER: the program in slot 0, if its digest is allowed",
        ResetType::Flash1Ver => "3 FLASH1_VER: the program in slot 1, if its digest is allowed",
        ResetType::Client => "4 CLIENT: the program that the server sends, whatever its digest",
        ResetType::ClientVer => {
            "5 CLIENT_VER: the program that the server sends, if its digest is allowed"
        }
    }
}

// ---- the digests

// The one or two that are allowed, or that the type does not look at them.
fn put_digests(t: &mut Text, kind: Option<ResetType>, digests: Digests) {
    match kind {
        None => put_unread(t, "no program", digests.has_second),
        Some(ResetType::Flash0) => put_unread(t, "the built-in digest", digests.has_second),
        kind if record::verifies(kind) => put_allowed(t, digests),
        Some(_) => put_unread(t, "any digest", digests.has_second),
    }
}

fn put_unread(t: &mut Text, allowed: &str, has_second: bool) {
    let second = if has_second { " and 72 to 103" } else { "" };
    write!(
        t,
        "allowed  {allowed}; bytes 8 to 39{second} are not looked at\n"
    );
}

fn put_allowed(t: &mut Text, digests: Digests) {
    let second = digests.has_second.then_some(&digests.second);
    input::put_allowed(t, &digests.first, second);
}

// ---- the mask

fn put_basis(t: &mut Text, reset_seed: bool, id: [u8; 32]) {
    if reset_seed {
        (
            "CDI      chained to measured_id ",
            Hex(&id),
            " (RESET_SEED)\n",
        )
            .show(t);
    } else {
        write!(t, "CDI      from the program's digest (no RESET_SEED)\n");
    }
}

// The mask, highest byte first, where it has bits that mean nothing.
fn put_mask(t: &mut Text, mask: u32) {
    if 4 <= mask {
        (
            "mask     0x",
            Hex(&mask.to_be_bytes()),
            ": bits 2 to 31 are ignored\n",
        )
            .show(t);
    }
}

// ---- the data

fn put_data(t: &mut Text, data: &[u8]) {
    write!(t, "data     {} bytes", data.len());
    match used(data) {
        b"" => write!(t, ", all zero\n"),
        used if used.len() == data.len() => (": ", Hex(used), "\n").show(t),
        used => (": ", Hex(used), ", then zeros\n").show(t),
    }
}

// The bytes up to the last that is not zero.
fn used(data: &[u8]) -> &[u8] {
    match data.iter().rposition(|b| *b != 0) {
        Some(last) => &data[..=last],
        None => b"",
    }
}
