// The words of a diagnosis: the reason, what to look at, and where the last byte that was read stands.
// No contract speaks of a program's words, so functions that write are plainer here than structs with `Show`.
use diagnosis::{Diagnosis, Finding, Monitor, Position, Refusal};
use display::Words;
use head::Stop;
use record::Digests;
use text::{Hex, Show, Text};

// All lines of what a monitor has found. The longest, of numbers with 20 digits, have under 490 bytes, and a text has room for 512.
pub fn lines(m: Monitor) -> Text {
    let config = m.head.config;
    let d = m.explain();
    let mut t = Text::new();
    put_reason(&mut t, d);
    put_advice(&mut t, d.finding, config.ram_len);
    put_position(&mut t, d.position);
    if d.finding == Finding::Stopped(Stop::Digest) {
        put_digests(&mut t, d.digest, config.digests);
    }
    t
}

// Why no capture is read.
pub fn refusal(why: Refusal) -> Text {
    Text::of(format_args!("{} ({})", refusal_words(why), u8::from(why)))
}

fn refusal_words(why: Refusal) -> &'static str {
    match why {
        Refusal::RecordLength => "a reset record has exactly 256 bytes",
        Refusal::RamSize => "a RAM has 1 to 131072 bytes",
        Refusal::FromFlash => {
            "its type is 0 to 3: the program comes from flash, and not over the cable"
        }
    }
}

// ---- the reason

fn put_reason(t: &mut Text, d: Diagnosis) {
    let p = d.position;
    match d.finding {
        Finding::Stopped(why) => {
            write!(t, "stop {}", u8::from(why));
            put_at(t, p);
            (": ", Words(why), "\n").show(t);
        }
        Finding::Unfinished => {
            write!(t, "unfinished");
            put_at(t, p);
            write!(t, ": the capture ends in a frame that is not whole: ");
            put_come(t, p.offset);
        }
        Finding::Waiting => {
            write!(t, "waiting");
            put_at(t, p);
            write!(t, ": no good load has come\n");
        }
        Finding::Missing(n) => {
            write!(t, "loading");
            put_at(t, p);
            put_missing(t, n);
        }
        Finding::Started => {
            write!(t, "started");
            put_at(t, p);
            (", digest ", Hex(&d.digest), "; later bytes are not read\n").show(t);
        }
    }
}

fn put_at(t: &mut Text, p: Position) {
    match p.byte {
        0 => write!(t, " before any byte"),
        byte => write!(t, " at byte {byte}"),
    }
}

fn put_come(t: &mut Text, offset: u8) {
    match offset {
        0 => write!(t, "1 of its bytes has come\n"),
        _ => write!(t, "{} of its bytes have come\n", u32::from(offset) + 1),
    }
}

fn put_missing(t: &mut Text, n: u64) {
    match n {
        1 => write!(t, ": 1 block is missing\n"),
        _ => write!(t, ": {n} blocks are missing\n"),
    }
}

// ---- what to look at

fn put_advice(t: &mut Text, f: Finding, ram_len: usize) {
    let advice = match f {
        Finding::Waiting => return put_waiting_advice(t, ram_len),
        Finding::Stopped(why) => stop_advice(why),
        Finding::Unfinished => {
            "the capture, whether it was cut short; the cable, or a byte lost before"
        }
        Finding::Missing(_) => {
            "the server, whether it still sends; the capture, whether it was cut short"
        }
        Finding::Started => {
            "the loom; if its lamp is red, then record, capture or --ram are not those of its head"
        }
    };
    write!(t, "look at: {advice}\n");
}

fn put_waiting_advice(t: &mut Text, ram_len: usize) {
    write!(
        t,
        "look at: the server, whether it sends a load; one of size 0 or over the RAM ({ram_len} bytes), or with a flag over 1, is not good\n"
    );
}

// README's table of stops, for a program that comes over the cable.
fn stop_advice(why: Stop) -> &'static str {
    match why {
        Stop::UnknownType => {
            "what wrote the record; a record that was never written; over the cable the type is 4 or 5"
        }
        Stop::HeaderBit => "the cable, or a byte lost before",
        Stop::Command => {
            "the server: a load while loading, a block before a load that got status 0; or a byte lost before"
        }
        Stop::BodyLength => "the server's frames, or a byte lost before",
        Stop::Digest => "the design that was sent; the record",
        Stop::ProgramSize => "the flash",
    }
}

// ---- where it is, and the digests

fn put_position(t: &mut Text, p: Position) {
    if p.byte != 0 {
        write!(
            t,
            "byte {} is at offset {} of frame {}",
            p.byte, p.offset, p.frame
        );
        write!(
            t,
            " (frames for other endpoints counted, offset 0 is the header)\n"
        );
    }
}

// The digests that differ at stop 25: the program's, and the one or two that are allowed.
fn put_digests(t: &mut Text, measured: [u8; 32], allowed: Digests) {
    ("measured ", Hex(&measured), "\n").show(t);
    let second = allowed.has_second.then_some(&allowed.second);
    input::put_allowed(t, &allowed.first, second);
}
