// A hash in parts.
use super::image;
use blake2s::{Context, Refusal};

// Byte 1 says how many bytes of the key are lent, which stands from byte 8 on, and byte 2 how many bytes the hash is to have. Where byte 3 is
// not 0 the context is made to have taken as many bytes as 4 to 7 say, in place of a hash of 4 GiB. A refused call begins no hash.
pub fn begin(rt: &impl Print, context: &mut Context, c: &[u8; 320]) {
    let n = usize::from(c[1]);
    let begun = Context::begin(&c[8..8 + n], usize::from(c[2]));
    *context = begun.unwrap_or_default();
    if c[3] != 0 {
        context.message = endian::word_at(c, 4);
    }
    write_answer(rt, begun.map(|_| ()));
    write_context(rt, context);
}

// Byte 1 says how many bytes the part has, which stands from byte 8 on.
pub fn update(rt: &impl Print, context: &mut Context, c: &[u8; 320]) {
    let n = usize::from(c[1]);
    write_answer(rt, context.update(&c[8..8 + n]));
    write_context(rt, context);
}

// So many bytes are lent for the hash.
pub fn finish(rt: &impl Print, context: &Context, n: u8) {
    let mut out = [0xaau8; 255];
    let answer = context.finish(&mut out[..usize::from(n)]);
    write_answer(rt, answer);
    image::write(rt, &out);
}

// ---- what is written

// Of a context what is not only seen in the hash.
fn write_context(rt: &impl Print, context: &Context) {
    image::write(rt, &context.message.to_le_bytes());
    image::write(rt, &[u8::from(context.keyed)]);
    image::write(rt, &context.size.to_le_bytes());
}

// The refusal's number, 0 where there is none.
fn write_answer(rt: &impl Print, answer: Result<(), Refusal>) {
    image::write(rt, &answer.err().map_or(0, u32::from).to_le_bytes());
}
