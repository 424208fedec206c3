// Bytes written. What cannot be written is lost: there is nobody to tell.

pub fn write(rt: &impl Print, s: &[u8]) {
    let _ = rt.write_all(s);
}
