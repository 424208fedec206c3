// The frames of a load with a user secret, one after the other: the load, then the blocks. Each has 129 bytes, its header among them.

// How many bytes a load of this size has; no more than the longest has.
pub fn length(size: u32) -> usize {
    129 + size.min(131072).div_ceil(127) as usize * 129
}

// Writes the frames.
pub fn fill(size: u32, out: &mut [u8]) {
    for (i, b) in out.iter_mut().enumerate() {
        *b = byte(size, i);
    }
}

// Byte i of the frames.
fn byte(size: u32, i: usize) -> u8 {
    match (i / 129, i % 129) {
        (_, 0) => 0x13,
        (0, at) => load_byte(size, at),
        (_, 1) => 0x05,
        (k, at) => program_byte((k - 1) * 127 + (at - 2)),
    }
}

// Byte i of the load, its header counted: the command, the size, the flag, and what the user secret and the ignored bytes hold.
fn load_byte(size: u32, i: usize) -> u8 {
    match i {
        1 => 0x03,
        2..=5 => endian::byte(size, i - 2),
        6 => 1,
        _ => 0x5a,
    }
}

// Byte i of the program.
fn program_byte(i: usize) -> u8 {
    ((i % 256 * 7 + i / 256 % 256) % 256) as u8
}
