// Headers and the CDI.
use super::image;
use framing::Status;

// No header is 255, which is written where there is none.
const NONE: u8 = 255;

// The header of a command: ID, endpoint and length.
pub fn read_header(rt: &impl Print, b: u8) {
    match framing::read_header(b) {
        Some(h) => image::write(rt, &[h.id, h.endpoint, h.len]),
        None => image::write(rt, &[NONE]),
    }
}

// The header of a reply: ID, endpoint, length and status.
pub fn read_reply_header(rt: &impl Print, b: u8) {
    match framing::read_reply_header(b) {
        Some(h) => image::write(rt, &[h.id, h.endpoint, h.len, u8::from(h.status)]),
        None => image::write(rt, &[NONE]),
    }
}

// Bytes 1 and 2 are ID and endpoint, 3 is the status, 4 to 11 the length: the header.
pub fn write_header(rt: &impl Print, c: &[u8; 320]) {
    let status = if c[3] == 0 { Status::Good } else { Status::Bad };
    let len = usize::from_le_bytes(endian::part(c, 4));
    let header = framing::write_header(c[1], c[2], len, status);
    image::write(rt, &[header.unwrap_or(NONE)]);
}

// Bytes 1 and 2 say whether it is chained and whether a user secret is used; UDS, measured_id, digest and user secret stand from byte 8 on.
pub fn derive(rt: &impl Print, c: &[u8; 320]) {
    let measured_id = (c[1] != 0).then(|| endian::part(c, 40));
    let uss = (c[2] != 0).then(|| endian::part(c, 104));
    let cdi = cdi::derive(endian::part(c, 8), measured_id, endian::part(c, 72), uss);
    image::write(rt, &cdi);
}
