// The cable: a head with 131,072 bytes of RAM receives whole loads.
use super::frames;
use loader::{Answer, Flash, Slot, Start};

// What the loads came to.
#[derive(Clone, Copy)]
pub struct Loaded {
    // How many bytes were received.
    pub received: u64,
    // What the last load started.
    pub last: Option<Start>,
}

// Loads a program of this size so many times.
pub fn load_often(size: u32, times: u32) -> Loaded {
    let mut room = [0u8; 133386];
    frames::fill(size, &mut room);
    let bytes = endian::first(&room, frames::length(size));
    let mut ram = [0u8; 131072];
    let mut loaded = Loaded {
        received: 0,
        last: None,
    };
    for _ in 0..times {
        loaded.received = loaded.received.wrapping_add(bytes.len() as u64);
        loaded.last = session(bytes, &mut ram);
    }
    loaded
}

// One session, from begin on, with a record of type 4 and nothing in flash: gathers the bytes, and acts on each frame that is whole. It starts
// with the last frame or not at all, so that a start says that every byte was accepted.
fn session(bytes: &[u8], ram: &mut [u8]) -> Option<Start> {
    let mut record = [0u8; 256];
    record[0] = 4;
    let empty = Slot {
        bytes: b"",
        size: 0,
    };
    let flash = Flash {
        slot0: empty,
        slot1: empty,
        built_in: [0; 32],
    };
    let mut words = [0x13121110u32; 8];
    let mut room = [0u8; 129];
    let mut state = loader::begin(&record, [0xd0; 8], flash, ram, &mut words)
        .ok()?
        .state;
    let mut last = None;
    for byte in bytes {
        // Not `.ok()?`: it copies the state once more at each byte (5.3 times plain C in place of 3.3, bench/pair.sh).
        let Ok(step) = loader::gather(state, *byte) else {
            return None;
        };
        state = step.state;
        if let Answer::Whole = step.answer {
            let Ok(acted) = loader::act(state, &mut room, ram, &mut words) else {
                return None;
            };
            state = acted.state;
            last = match acted.answer {
                Answer::Started(start) => Some(start),
                _ => None,
            };
        }
    }
    last
}
